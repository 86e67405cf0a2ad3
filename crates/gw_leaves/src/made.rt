//! The rules on fields that are made of leaves.
ghost use Rattle.std.specs.Prelude.{◌≡◌, ◌∷◌, [], flat_map, OnOk};
ghost use Rattle.gw_validate.specs.Breaches.{is_null};
ghost use Rattle.gw_leaves.specs.Components as spec;
ghost use Rattle.gw_leaves.specs.Leaves as leaves_spec;
ghost use Rattle.gw_leaves.specs.own.Held.{leaves_value, others_value};
ghost use Rattle.gw_profile.specs.Numbered.{some_comp, some_sub};
ghost use Rattle.gw_leaves.specs.Uses.{map_tables};
ghost use Rattle.gw_resolve.specs.Seen.{Notes, at_leaf};
ghost use Rattle.gw_leaves.specs.own.Seen as seen;

use crate::elements::{Filling, check_comps};
use crate::given::{LeafSource, table_of};
use crate::leaf::{source_sub, table_named};
use crate::mark::leaf_mark;
use crate::presence::{at_presence, is_absent, source_presence};
use crate::shape::{Presence, Values};
use crate::sources::Sources;
use crate::texts::{is_long, is_missing, may_be_long};
use crate::values::{check_values, is_forbidden};
use gw_profile::{CompShape, Count, FieldShape, Profile, SubShape, comp_of, sub_of};
use gw_resolve::{Alternative, At, Failure, FailureSite, ResolvedLeaf, Source, note};
use std::alloc::AllocError;

// ---- what the leaves give

fn is_null(text: &[u8]) -> bool
    ensures { result ≡ is_null text.now }
{
    text == b"\"\"".as_slice()
}

// Another value than the table's, or too long.
fn breaks(target: &Profile, text: &[u8], sub: &SubShape) -> bool
    ensures { result ≡ seen.may_break target.now (leaves_spec.listed (text.now ∷ [])) sub.now }
{
    let table = table_named(target, table_of(Some(sub)));
    is_missing(table, text) || is_long(sub.len, text, target.count())
}

// What a source gives, as it is or looked up in the table of this name.
fn check_source(
    found: &mut Vec<Failure>,
    sources: Sources<'_, '_, '_, '_, '_>,
    mark: FailureSite,
    rows: Option<&[u8]>,
    source: &Source,
    sub: &SubShape,
) -> Result<(), AllocError>
    ensures { OnOk result (Notes found.old found.new (seen.source_failures sources.entry mark rows.entry source.now sub.now)) }
{
    let presence = source_presence(sources, source);
    let given = LeafSource {
        rows,
        sub: source_sub(sources, source),
    };
    check_values(found, sources.context, mark, presence, given, sub)
}

// Of the first digits of a text: each table lacks some of them, and they are no more than the most.
fn check_dated(
    found: &mut Vec<Failure>,
    target: &Profile,
    mark: FailureSite,
    presence: Presence,
    most: u32,
    sub: &SubShape,
) -> Result<(), AllocError>
    ensures { OnOk result (Notes found.old found.new (seen.dated_failures target.now mark presence most sub.now)) }
{
    if is_absent(presence) {
        return Ok(());
    }
    let is_unlisted = table_named(target, table_of(Some(sub))).is_some();
    note(found, 6, mark, is_unlisted)?;
    let values = Values::Any(Some(most), Count::Octets);
    let is_long = may_be_long(&values, sub.len, target.count());
    note(found, 7, mark, is_long)
}

fn check_leaf(
    found: &mut Vec<Failure>,
    sources: Sources<'_, '_, '_, '_, '_>,
    mark: FailureSite,
    leaf: &ResolvedLeaf,
    sub: &SubShape,
) -> Result<(), AllocError>
    ensures { OnOk result (Notes found.old found.new (seen.leaf_failures sources.entry mark leaf.now sub.now)) }
{
    let target = sources.context.target();
    match leaf {
        ResolvedLeaf::Const(text) => {
            let is_broken = !is_null(text) && breaks(target, text, sub);
            note(found, 12, mark, is_broken)
        }
        ResolvedLeaf::Copied(source) => check_source(found, sources, mark, None, source, sub),
        ResolvedLeaf::LookedUp(name, source) => {
            check_source(found, sources, mark, Some(name.as_slice()), source, sub)
        }
        ResolvedLeaf::Dated(digits, source) => {
            let presence = source_presence(sources, source);
            check_dated(found, target, mark, presence, digits.most, sub)
        }
    }
}

fn check_others(
    found: &mut Vec<Failure>,
    sources: Sources<'_, '_, '_, '_, '_>,
    mark: FailureSite,
    others: &[Alternative],
    sub: &SubShape,
) -> Result<(), AllocError>
    ensures { OnOk result (Notes found.old found.new (flat_map (seen.other_failures sources.entry mark sub.now) (others_value sources.entry others.now))) }
{
    for other in others {
        let mark = FailureSite {
            line: other.line,
            ..mark
        };
        check_leaf(found, sources, mark, &other.leaf, sub)?;
    }
    Ok(())
}

fn is_forbidden_comp(comp: Option<&CompShape>) -> bool
    ensures { result ≡ spec.is_forbidden_comp (some_comp comp.entry) }
{
    comp.is_some_and(|comp| is_forbidden(comp.usage))
}

fn is_forbidden_sub(sub: Option<&SubShape>) -> bool
    ensures { result ≡ spec.is_forbidden_sub (some_sub sub.entry) }
{
    sub.is_some_and(|sub| is_forbidden(sub.usage))
}

fn check_at(
    found: &mut Vec<Failure>,
    sources: Sources<'_, '_, '_, '_, '_>,
    field: &FieldShape,
    at: &At,
) -> Result<(), AllocError>
    ensures { OnOk result (Notes found.old found.new (seen.made_leaf sources.entry field.now (at_leaf (map_tables sources.entry) at.now))) }
{
    let comp = comp_of(Some(field), at.place.comp);
    let sub = sub_of(comp, at.place.sub);
    let presence = at_presence(sources, at);
    let mark = leaf_mark(field.number, at);
    let barred = is_forbidden_comp(comp) || is_forbidden_sub(sub);
    note(found, 11, mark, barred && !is_absent(presence))?;
    match sub {
        None => Ok(()),
        Some(sub) => {
            check_leaf(found, sources, mark, &at.leaf, sub)?;
            check_others(found, sources, mark, &at.others, sub)
        }
    }
}

fn check_leaves(
    found: &mut Vec<Failure>,
    sources: Sources<'_, '_, '_, '_, '_>,
    field: &FieldShape,
    leaves: &[At],
) -> Result<(), AllocError>
    ensures { OnOk result (Notes found.old found.new (flat_map (seen.made_leaf sources.entry field.now) (leaves_value sources.entry leaves.now))) }
{
    for at in leaves {
        check_at(found, sources, field, at)?;
    }
    Ok(())
}

/// The failures of a field that is made of these leaves.
pub(crate) fn check_made(
    found: &mut Vec<Failure>,
    sources: Sources<'_, '_, '_, '_, '_>,
    mark: FailureSite,
    leaves: &[At],
    field: &FieldShape,
) -> Result<(), AllocError>
    ensures { OnOk result (Notes found.old found.new (seen.made_field sources.entry mark leaves.now field.now)) }
{
    check_comps(found, sources, mark, Filling::Made(leaves), &field.comps)?;
    check_leaves(found, sources, field, leaves)
}
