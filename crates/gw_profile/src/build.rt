//! Builds a profile from its lines, from the last to the first.
ghost use Rattle.std.specs.Prelude.{◌≡◌, map, reverse, IfOk, OnOk, if◌then◌else◌, Some};
ghost use Rattle.gw_profile.specs.own.Building.{Stands, Grows, parts_of, forests, IsGroup, built};
ghost use Rattle.gw_profile.specs.Whole.{empty_group};
ghost use Rattle.gw_profile.specs.LookAhead.{is_optional};
ghost use Rattle.gw_profile.specs.Seen.{line, sub, comp, forest, leaf_of, now, items_of};
ghost use Rattle.gw_profile.specs.Line as line_of;
ghost use Rattle.gw_profile.specs.Value as spec;

use crate::form::{LeafOptions, Line};
use crate::node::{GroupNode, Node, SegNode};
use crate::rules::is_optional;
use crate::shape::{Card, CompShape, Count, FieldShape, SubShape, Usage};
use std::alloc::{AllocError, Global};
use std::mem;

// The parts that the lines below the current one spell, each list in reverse order. A part goes to the line that opens it.
#[derive(Drop)]
struct Below {
    subs: Vec<SubShape>,
    comps: Vec<CompShape>,
    fields: Vec<FieldShape>,
    nodes: Vec<Node>,
    behind: Vec<Vec<Node>>,
    empty: Option<u32>,
}

/// The name, the count and the nodes of a profile, with the line of its first group that may be empty, if one may.
#[derive(Drop)]
pub(crate) struct Built {
    pub(crate) name: Vec<u8>,
    pub(crate) count: Count,
    pub(crate) nodes: Vec<Node>,
    pub(crate) empty: Option<u32>,
}

fn copy_of(alloc: Global, bytes: &[u8]) -> Result<Vec<u8>, AllocError>
    ensures { IfOk result (λ v. v.items ≡ bytes.now) }
{
    Vec::from_slice(alloc, bytes)
}

fn copy_some(alloc: Global, bytes: Option<&[u8]>) -> Result<Option<Vec<u8>>, AllocError>
    ensures { IfOk result (λ v. items_of v ≡ now bytes.entry) }
{
    match bytes {
        None => Ok(None),
        Some(bytes) => {
            let copy = copy_of(alloc, bytes)?;
            Ok(Some(copy))
        }
    }
}

fn sub_of(
    alloc: Global,
    number: u32,
    usage: Option<Usage>,
    leaf: Option<LeafOptions>,
) -> Result<SubShape, AllocError>
    ensures { IfOk result (λ s. sub s ≡ spec.sub_of number usage (leaf_of leaf.entry)) }
{
    match leaf {
        None => Ok(SubShape {
            number,
            usage: usage.unwrap_or(Usage::O),
            len: None,
            table: None,
        }),
        Some(leaf) => {
            let table = copy_some(alloc, leaf.table)?;
            Ok(SubShape {
                number,
                usage: usage.unwrap_or(Usage::O),
                len: leaf.len,
                table,
            })
        }
    }
}

// The subcomponents of a component.
fn subs_of(
    alloc: Global,
    leaf: Option<LeafOptions>,
    mut below: Vec<SubShape>,
) -> Result<Vec<SubShape>, AllocError>
    ensures { IfOk result (λ v. map sub v.items ≡ spec.subs_of (leaf_of leaf.entry) (map sub (reverse below.items))) }
{
    match leaf {
        None => {
            below.reverse();
            below.shrink_to_fit();
            Ok(below)
        }
        Some(leaf) => {
            let only = sub_of(alloc, 1, Some(Usage::R), Some(leaf))?;
            let mut all = Vec::with_capacity(alloc, 1)?;
            all.push(only)?;
            Ok(all)
        }
    }
}

// The components of a field.
fn comps_of(
    alloc: Global,
    leaf: Option<LeafOptions>,
    mut below: Vec<CompShape>,
) -> Result<Vec<CompShape>, AllocError>
    ensures { IfOk result (λ v. map comp v.items ≡ spec.comps_of (leaf_of leaf.entry) (map comp (reverse below.items))) }
{
    match leaf {
        None => {
            below.reverse();
            below.shrink_to_fit();
            Ok(below)
        }
        Some(leaf) => {
            let subs = subs_of(alloc, Some(leaf), Vec::new(alloc))?;
            let only = CompShape {
                number: 1,
                usage: Usage::R,
                subs,
            };
            let mut all = Vec::with_capacity(alloc, 1)?;
            all.push(only)?;
            Ok(all)
        }
    }
}

fn close_parts(alloc: Global, below: &mut Below)
    ensures parts { parts_of below.new ≡ spec.no_parts }
    ensures nodes { below.new.nodes.items ≡ below.old.nodes.items }
    ensures behind { below.new.behind.items ≡ below.old.behind.items }
    ensures empty { below.new.empty ≡ below.old.empty }
{
    below.subs = Vec::new(alloc);
    below.comps = Vec::new(alloc);
    below.fields = Vec::new(alloc);
}

fn add_segment(
    alloc: Global,
    below: &mut Below,
    name: [u8; 3],
    label: &[u8],
    renamed: bool,
    usage: Option<Usage>,
    card: Card,
) -> Result<(), AllocError>
    ensures { OnOk result (Grows below.old below.new (line_of.Segment name label.now renamed usage card)) }
{
    let label = copy_of(alloc, label)?;
    let mut fields = mem::replace(&mut below.fields, Vec::new(alloc));
    fields.reverse();
    fields.shrink_to_fit();
    close_parts(alloc, below);
    below.nodes.push(Node::Seg(SegNode {
        name,
        label,
        usage: usage.unwrap_or(Usage::O),
        card,
        fields,
    }))?;
    Ok(())
}

fn add_field(
    alloc: Global,
    below: &mut Below,
    number: u32,
    usage: Option<Usage>,
    card: Card,
    leaf: Option<LeafOptions>,
) -> Result<(), AllocError>
    ensures { OnOk result (Grows below.old below.new (line_of.Field number usage card (leaf_of leaf.entry))) }
{
    let comps = mem::replace(&mut below.comps, Vec::new(alloc));
    let comps = comps_of(alloc, leaf, comps)?;
    below.subs = Vec::new(alloc);
    below.fields.push(FieldShape {
        number,
        usage: usage.unwrap_or(Usage::O),
        card,
        comps,
    })?;
    Ok(())
}

fn add_comp(
    alloc: Global,
    below: &mut Below,
    number: u32,
    usage: Option<Usage>,
    leaf: Option<LeafOptions>,
) -> Result<(), AllocError>
    ensures { OnOk result (Grows below.old below.new (line_of.Comp number usage (leaf_of leaf.entry))) }
{
    let subs = mem::replace(&mut below.subs, Vec::new(alloc));
    let subs = subs_of(alloc, leaf, subs)?;
    below.comps.push(CompShape {
        number,
        usage: usage.unwrap_or(Usage::O),
        subs,
    })?;
    Ok(())
}

fn add_sub(
    alloc: Global,
    below: &mut Below,
    number: u32,
    usage: Option<Usage>,
    leaf: Option<LeafOptions>,
) -> Result<(), AllocError>
    ensures { OnOk result (Grows below.old below.new (line_of.Sub number usage (leaf_of leaf.entry))) }
{
    let sub = sub_of(alloc, number, usage, leaf)?;
    below.subs.push(sub)?;
    Ok(())
}

// Takes the nodes that follow the `end` of the current group.
fn take_next(alloc: Global, behind: &mut Vec<Vec<Node>>) -> Vec<Node>
    ensures next { forest (reverse result.items) ≡ spec.next (forests behind.old.items) }
    ensures past { forests behind.new.items ≡ spec.past (forests behind.old.items) }
{
    match behind.pop() {
        None => Vec::new(alloc),
        Some(rest) => rest,
    }
}

// The line of the first group that may be empty, where a group of line `at` comes before those of `held`.
fn empty_below(at: u32, nodes: &[Node], held: Option<u32>) -> Option<u32>
    ensures { result ≡ (if is_optional (forest nodes.now) then Some at else held) }
{
    if is_optional(nodes) {
        return Some(at);
    }
    held
}

fn group_node(label: Vec<u8>, usage: Option<Usage>, card: Card, nodes: Vec<Node>) -> Node
    ensures { IsGroup result label.items usage card nodes.items }
{
    Node::Group(GroupNode {
        label,
        usage: usage.unwrap_or(Usage::O),
        card,
        nodes,
    })
}

fn add_group(
    alloc: Global,
    below: &mut Below,
    at: u32,
    label: &[u8],
    usage: Option<Usage>,
    card: Card,
) -> Result<(), AllocError>
    ensures { OnOk result (Grows below.old below.new (line_of.Group at label.now usage card)) }
{
    let label = copy_of(alloc, label)?;
    close_parts(alloc, below);
    let rest = take_next(alloc, &mut below.behind);
    let mut nodes = mem::replace(&mut below.nodes, rest);
    nodes.reverse();
    below.empty = empty_below(at, &nodes, below.empty);
    let group = group_node(label, usage, card, nodes);
    below.nodes.push(group)?;
    Ok(())
}

fn add_end(alloc: Global, below: &mut Below) -> Result<(), AllocError>
    ensures { OnOk result (Grows below.old below.new line_of.End) }
{
    close_parts(alloc, below);
    let nodes = mem::replace(&mut below.nodes, Vec::new(alloc));
    below.behind.push(nodes)?;
    Ok(())
}

fn add_line(alloc: Global, below: &mut Below, whole: &Line) -> Result<(), AllocError>
    ensures { OnOk result (Grows below.old below.new (line whole.now)) }
{
    match whole {
        Line::Segment(name, label, renamed, usage, card) => {
            add_segment(alloc, below, *name, label, *renamed, *usage, *card)
        }
        Line::Field(number, usage, card, leaf) => {
            add_field(alloc, below, *number, *usage, *card, *leaf)
        }
        Line::Comp(number, usage, leaf) => add_comp(alloc, below, *number, *usage, *leaf),
        Line::Sub(number, usage, leaf) => add_sub(alloc, below, *number, *usage, *leaf),
        Line::Group(at, label, usage, card) => {
            add_group(alloc, below, *at, label, *usage, *card)
        },
        Line::End => add_end(alloc, below),
        _ => {
            close_parts(alloc, below);
            Ok(())
        }
    }
}

fn all_below(alloc: Global, lines: &[Line]) -> Result<Below, AllocError>
    ensures { IfOk result (λ below. Stands below (map line lines.now)) }
{
    let mut below = Below {
        subs: Vec::new(alloc),
        comps: Vec::new(alloc),
        fields: Vec::new(alloc),
        nodes: Vec::new(alloc),
        behind: Vec::new(alloc),
        empty: None,
    };
    let mut left = lines.len();
    while left > 0 {
        left -= 1;
        add_line(alloc, &mut below, &lines[left])?;
    }
    Ok(below)
}

fn name_of<'a>(lines: &[Line<'a>]) -> &'a [u8]
    ensures { result.now ≡ spec.name_of (map line lines.now) }
{
    match lines {
        [] => &[],
        [first, ..] => match first {
            Line::Begins(name) => name,
            _ => &[],
        },
    }
}

// What lengths count, if this is the second line.
fn said_count(whole: &Line) -> Count
    ensures { result ≡ spec.said_count (line whole.now) }
{
    match whole {
        Line::Counts => Count::Characters,
        _ => Count::Octets,
    }
}

// What lengths count in a profile of these lines.
fn count_of(lines: &[Line]) -> Count
    ensures { result ≡ spec.count_of (map line lines.now) }
{
    match lines {
        [] => Count::Octets,
        [_] => Count::Octets,
        [_, next, ..] => said_count(next),
    }
}

/// The profile that these lines spell.
pub(crate) fn build(alloc: Global, lines: &[Line]) -> Result<Built, AllocError>
    ensures value { IfOk result (λ b. built b ≡ (spec.name_of (map line lines.now), spec.count_of (map line lines.now), (spec.nodes (map line lines.now)).here)) }
    ensures empty { IfOk result (λ b. b.empty ≡ empty_group (map line lines.now)) }
{
    let name = copy_of(alloc, name_of(lines))?;
    let Below {
        mut nodes,
        empty,
        ..
    } = all_below(alloc, lines)?;
    nodes.reverse();
    Ok(Built {
        name,
        count: count_of(lines),
        nodes,
        empty,
    })
}
