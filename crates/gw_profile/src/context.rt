//! What the lines so far leave open: parents, tables and labels.
ghost use Rattle.std.specs.Prelude.{◌≡◌, ◌∷◌, [], ◌++◌, map, IfOk, OnOk, false};
ghost use Rattle.gw_lines.specs.Reading.{first_of};
ghost use Rattle.gw_profile.specs.Fault as spec;
ghost use Rattle.gw_profile.specs.WellFormed.{table_names};
ghost use Rattle.gw_profile.specs.Seen.{line, leaf_of, parent, now, now_all, table, made, with_table, levels, outer_labels, IsNewTable, IsNewLabel, ParentsFollow, NamesFollow, LevelsFollow};

use crate::fault::ProfileFault;
use crate::form::{LeafOptions, Line, is_forbidden};
use crate::table::Table;
use indexmap::{IndexMap, IndexSet};
use std::alloc::{AllocError, Global};
use std::mem;

/// A line that may have parts below it: whether it takes none (`shut`), their least number, and the last number so far.
#[derive(Clone, Copy, Drop)]
pub(crate) struct Parent {
    pub(crate) shut: bool,
    pub(crate) least: u32,
    pub(crate) last: u32,
}

/// The lines to which a field, a component or a subcomponent line would belong.
#[derive(Clone, Copy, Drop)]
pub(crate) struct Parents {
    pub(crate) segment: Option<Parent>,
    pub(crate) field: Option<Parent>,
    pub(crate) comp: Option<Parent>,
}

pub(crate) const NO_PARENTS: Parents = Parents {
    segment: None,
    field: None,
    comp: None,
};

fn least_field(name: [u8; 3]) -> u32
    ensures { result ≡ spec.least_field name }
{
    if name.as_slice() == b"MSH".as_slice() {
        3
    } else {
        1
    }
}

fn with_part(number: u32, held: Option<Parent>) -> Option<Parent>
    ensures { parent result ≡ spec.with_part number (parent held) }
{
    match held {
        None => None,
        Some(parent) => Some(Parent {
            last: number,
            ..parent
        }),
    }
}

/// The parents after this line.
pub(crate) fn parents_below(held: Parents, whole: &Line) -> Parents
    ensures { ParentsFollow held result (line whole.now) }
{
    match whole {
        Line::Segment(name, _, _, usage, _) => Parents {
            segment: Some(Parent {
                shut: is_forbidden(*usage),
                least: least_field(*name),
                last: 0,
            }),
            field: None,
            comp: None,
        },
        Line::Field(number, usage, _, leaf) => Parents {
            segment: with_part(*number, held.segment),
            field: Some(Parent {
                shut: is_forbidden(*usage) || leaf.is_some(),
                least: 1,
                last: 0,
            }),
            comp: None,
        },
        Line::Comp(number, usage, leaf) => Parents {
            segment: held.segment,
            field: with_part(*number, held.field),
            comp: Some(Parent {
                shut: is_forbidden(*usage) || leaf.is_some(),
                least: 1,
                last: 0,
            }),
        },
        Line::Sub(number, _, _) => Parents {
            segment: held.segment,
            field: held.field,
            comp: with_part(*number, held.comp),
        },
        _ => NO_PARENTS,
    }
}

/// The table of a table line, if no value occurs twice.
pub(crate) fn made(alloc: Global, whole: &Line) -> Result<Option<Table>, AllocError>
    ensures { IfOk result (λ found. found ≡ made (line whole.now)) }
{
    match whole {
        Line::Table(_, values) => Table::of(alloc, values),
        _ => Ok(None),
    }
}

/// Whether there is a table of this name.
pub(crate) fn knows(tables: &IndexMap<Vec<u8>, Table>, name: &[u8]) -> bool
    ensures { result ≡ spec.is_among name.now (table_names (map table tables.now.entries)) }
{
    tables.contains_key(name)
}

// Appends a new table.
fn put_table(
    alloc: Global,
    tables: &mut IndexMap<Vec<u8>, Table>,
    name: &[u8],
    found: Table,
) -> Result<(), AllocError>
    requires { spec.is_among name.now (table_names (map table tables.old.entries)) ≡ false }
    ensures { OnOk result (map table tables.new.entries ≡ map table tables.old.entries ++ record { name = name.now; values = found } ∷ []) }
{
    let name = Vec::from_slice(alloc, name)?;
    tables.insert(name, found)?;
    Ok(())
}

/// Appends the table of this line, if it is a table line.
pub(crate) fn tables_below(
    alloc: Global,
    tables: &mut IndexMap<Vec<u8>, Table>,
    whole: &Line,
    found: Option<Table>,
) -> Result<(), AllocError>
    requires found { found ≡ made (line whole.now) }
    requires new { IsNewTable (map table tables.old.entries) (line whole.now) }
    ensures kept { OnOk result (map table tables.new.entries ≡ with_table (map table tables.old.entries) (line whole.now)) }
    ensures names { OnOk result (NamesFollow (map table tables.old.entries) (map table tables.new.entries) (line whole.now)) }
{
    match whole {
        Line::Table(name, _) => match found {
            None => Ok(()),
            Some(found) => put_table(alloc, tables, name, found),
        },
        _ => Ok(()),
    }
}

/// The labels so far in the innermost open group, and in each level around it, the nearest last.
#[derive(Drop)]
pub(crate) struct Levels<'a> {
    pub(crate) labels: IndexSet<&'a [u8]>,
    pub(crate) outer: Vec<IndexSet<&'a [u8]>>,
}

/// Whether this is one of the labels.
pub(crate) fn has_label(labels: &IndexSet<&[u8]>, label: &[u8]) -> bool
    ensures { result ≡ spec.is_among label.now (now_all labels.now.keys) }
{
    labels.contains(label)
}

// Adds a new label.
fn put_label<'a>(labels: &mut IndexSet<&'a [u8]>, label: &'a [u8]) -> Result<(), AllocError>
    requires { spec.is_among label.now (now_all labels.old.keys) ≡ false }
    ensures { OnOk result (now_all labels.new.keys ≡ now_all labels.old.keys ++ label.now ∷ []) }
{
    labels.insert(label)?;
    Ok(())
}

// Takes the labels of the nearest level around the current one.
fn take_outer<'a>(alloc: Global, outer: &mut Vec<IndexSet<&'a [u8]>>) -> IndexSet<&'a [u8]>
    ensures { record { labels = now_all result.keys; outer = outer_labels outer.new.items } ≡ spec.outside (outer_labels outer.old.items) }
{
    match outer.pop() {
        None => IndexSet::new(alloc),
        Some(labels) => labels,
    }
}

// Opens a group with this label.
fn open_group<'a>(alloc: Global, held: &mut Levels<'a>, label: &'a [u8]) -> Result<(), AllocError>
    requires { spec.is_among label.now (now_all held.old.labels.keys) ≡ false }
    ensures { OnOk result (levels held.new ≡ spec.inside (spec.with_label label.now (levels held.old))) }
{
    put_label(&mut held.labels, label)?;
    let labels = mem::replace(&mut held.labels, IndexSet::new(alloc));
    held.outer.push(labels)?;
    Ok(())
}

// Closes the innermost group.
fn close_group<'a>(alloc: Global, held: &mut Levels<'a>)
    ensures { levels held.new ≡ spec.outside (levels held.old).outer }
{
    let labels = take_outer(alloc, &mut held.outer);
    let _closed = mem::replace(&mut held.labels, labels);
}

/// Updates the levels by this line.
pub(crate) fn levels_below<'a>(
    alloc: Global,
    held: &mut Levels<'a>,
    whole: &Line<'a>,
) -> Result<(), AllocError>
    requires { IsNewLabel (now_all held.old.labels.keys) (line whole.now) }
    ensures { OnOk result (LevelsFollow held.old held.new (line whole.now)) }
{
    match whole {
        Line::Segment(_, label, _, _, _) => put_label(&mut held.labels, label),
        Line::Group(_, label, _, _) => open_group(alloc, held, label),
        Line::End => {
            close_group(alloc, held);
            Ok(())
        }
        _ => Ok(()),
    }
}

fn is_misplaced(number: u32, held: Option<Parent>) -> bool
    ensures { result ≡ spec.is_misplaced number (parent held) }
{
    match held {
        None => true,
        Some(parent) => parent.shut || number < parent.least,
    }
}

fn falls(number: u32, held: Option<Parent>) -> bool
    ensures { result ≡ spec.falls number (parent held) }
{
    match held {
        None => false,
        Some(parent) => number <= parent.last,
    }
}

fn is_unknown(name: Option<&[u8]>, tables: &IndexMap<Vec<u8>, Table>) -> bool
    ensures { result ≡ spec.is_unknown (now name.entry) (table_names (map table tables.now.entries)) }
{
    match name {
        None => false,
        Some(name) => !knows(tables, name),
    }
}

fn names_unknown(leaf: Option<LeafOptions>, tables: &IndexMap<Vec<u8>, Table>) -> bool
    ensures { result ≡ spec.names_unknown (leaf_of leaf.entry) (table_names (map table tables.now.entries)) }
{
    match leaf {
        None => false,
        Some(leaf) => is_unknown(leaf.table, tables),
    }
}

/// The fault of a field, component or subcomponent.
pub(crate) fn part_fault(
    at: u32,
    number: u32,
    lawful: bool,
    leaf: Option<LeafOptions>,
    held: Option<Parent>,
    tables: &IndexMap<Vec<u8>, Table>,
) -> Option<ProfileFault>
    ensures { result ≡ first_of (spec.part_tests at number lawful (leaf_of leaf.entry) (parent held) (table_names (map table tables.now.entries))) }
{
    if is_misplaced(number, held) {
        return Some(ProfileFault::Syntax(at));
    }
    if !lawful {
        return Some(ProfileFault::Usage(at));
    }
    if falls(number, held) {
        return Some(ProfileFault::Duplicate(at));
    }
    if names_unknown(leaf, tables) {
        return Some(ProfileFault::UnknownTable(at));
    }
    None
}
