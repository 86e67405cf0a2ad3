//! The target nodes of items, and whether they are in order (3).
ghost use Rattle.std.specs.Prelude.{◌≡◌, ◌++◌, not, nat_lt, if◌then◌else◌, slice_get, bytes_eq, option_and_then, IfOk, OnOk};
ghost use Rattle.std.specs.List.{list_all};
ghost use Rattle.gw_maplang.specs.Seen.{now, with_item, all_items};
ghost use Rattle.gw_maplang.specs.Shapes.{nothing};
ghost use Rattle.gw_profile.specs.Labels.{nodes_in};
ghost use Rattle.gw_resolve.specs.Failures.{at_line, fails};
ghost use Rattle.gw_resolve.specs.Naming as spec;
ghost use Rattle.gw_resolve.specs.own.Looking.{is_kind};
ghost use Rattle.gw_resolve.specs.Places as places;
ghost use Rattle.gw_resolve.specs.Seen.{Notes};

use crate::element::{ScopeNode, child};
use crate::failure::{Failure, at_line, note};
use crate::paths::{labelled, same};
use gw_maplang::Item;
use gw_profile::Level;
use std::alloc::AllocError;

// ---- labels

#[cycle(first)]
#[tactic(auto, using(crate::proofs::Labels::flat_labels))]
fn first_of_item(item: &Item) -> Option<&[u8]>
    ensures { now result ≡ slice_get (spec.labels (with_item item.now nothing)) 0 }
{
    match item {
        Item::SegFrom(made) => Some(&made.label),
        Item::SegAlways(made) => Some(&made.label),
        Item::EachAs(made) => Some(&made.label),
        Item::EachFlat(made) => first_of(&made.items),
    }
}

// The first label of items, with those of items in a flat.
#[cycle(first)]
#[tactic(auto, using(crate::proofs::Labels::first_there))]
fn first_of(items: &[Item]) -> Option<&[u8]>
    ensures { now result ≡ slice_get (spec.labels (all_items items.now)) 0 }
{
    for item in items {
        let first = first_of_item(item);
        if first.is_some() {
            return first;
        }
    }
    None
}

#[cycle(all)]
#[tactic(auto, using(crate::proofs::Labels::flat_labels))]
fn item_has(item: &Item, label: &[u8]) -> bool
    ensures { result ≡ list_all (bytes_eq label.now) (spec.labels (with_item item.now nothing)) }
{
    match item {
        Item::SegFrom(made) => same(label, &made.label),
        Item::SegAlways(made) => same(label, &made.label),
        Item::EachAs(made) => same(label, &made.label),
        Item::EachFlat(made) => all_have(&made.items, label),
    }
}

// Whether this is the label of all items, and of all in a flat.
#[cycle(all)]
#[tactic(auto, using(crate::proofs::Labels::one_other, crate::proofs::Labels::one_more))]
fn all_have(items: &[Item], label: &[u8]) -> bool
    ensures { result ≡ list_all (bytes_eq label.now) (spec.labels (all_items items.now)) }
{
    for item in items {
        if !item_has(item, label) {
            return false;
        }
    }
    true
}

// Whether all items have one label.
fn are_one(items: &[Item]) -> bool
    ensures { result ≡ spec.are_one (spec.labels (all_items items.now)) }
{
    match first_of(items) {
        None => true,
        Some(label) => all_have(items, label),
    }
}

// The first label, empty where there is none.
fn first_or(items: &[Item]) -> &[u8]
    ensures { result.now ≡ spec.first_or (spec.labels (all_items items.now)) }
{
    match first_of(items) {
        None => &[],
        Some(label) => label,
    }
}

// ---- target nodes

/// What a label of an item names.
#[derive(Clone, Copy)]
pub(crate) enum NodeKind {
    Segment,
    Group,
}

/// The target node of a label: its number in the map without labels, and the one behind which the next item stands.
#[derive(Clone, Copy)]
pub(crate) struct TargetNode {
    pub(crate) child: usize,
    pub(crate) node: usize,
}

// Whether the node of this number is of this kind.
fn is_kind(level: Option<&Level<'_>>, number: Option<usize>, kind: NodeKind) -> bool
    ensures { result ≡ is_kind kind (option_and_then (places.child (nodes_in level.entry)) number) }
{
    let Some(number) = number else {
        return false;
    };
    match (child(level, number), kind) {
        (Some(ScopeNode::Segment(_)), NodeKind::Segment) => true,
        (Some(ScopeNode::Group(_, _)), NodeKind::Group) => true,
        _ => false,
    }
}

// Takes note of what is wrong with the nodes of an item, or of one that comes behind one of a later node.
fn note_target(
    found: &mut Vec<Failure>,
    line: u32,
    fits: bool,
    j: usize,
    node: usize,
) -> Result<(), AllocError>
    ensures { OnOk result (Notes found.old found.new (fails 3 (at_line line) (not fits) ++ fails 3 (at_line line) (nat_lt node j))) }
{
    note(found, 3, at_line(line), !fits)?;
    note(found, 3, at_line(line), node < j)
}

// The later of two nodes.
fn after(j: usize, node: usize) -> usize
    ensures { result ≡ (if nat_lt node j then j else node) }
{
    if node < j { j } else { node }
}

/// The target node of the label of a segment or group that comes behind one of node j.
pub(crate) fn label_target(
    found: &mut Vec<Failure>,
    level: Option<&Level<'_>>,
    kind: NodeKind,
    j: usize,
    line: u32,
    label: &[u8],
) -> Result<TargetNode, AllocError>
    ensures failures { OnOk result (Notes found.old found.new (spec.label_failures (nodes_in level.entry) (is_kind kind) j line label.now)) }
    ensures child { IfOk result (λ a. a.child ≡ spec.node_or 0 (nodes_in level.entry) label.now) }
    ensures node { IfOk result (λ a. a.node ≡ spec.after j (nodes_in level.entry) label.now) }
{
    let number = labelled(level, label);
    let node = number.unwrap_or(j);
    let fits = is_kind(level, number, kind);
    note_target(found, line, fits, j, node)?;
    Ok(TargetNode {
        child: number.unwrap_or(0),
        node: after(j, node),
    })
}

/// The target node of the items of a flat that comes behind one of node j.
pub(crate) fn flat_target(
    found: &mut Vec<Failure>,
    level: Option<&Level<'_>>,
    j: usize,
    line: u32,
    items: &[Item],
) -> Result<usize, AllocError>
    ensures failures { OnOk result (Notes found.old found.new (spec.flat_failures (nodes_in level.entry) j line (spec.labels (all_items items.now)))) }
    ensures node { IfOk result (λ node. node ≡ spec.after j (nodes_in level.entry) (spec.first_or (spec.labels (all_items items.now)))) }
{
    let node = labelled(level, first_or(items)).unwrap_or(j);
    note_target(found, line, are_one(items), j, node)?;
    Ok(after(j, node))
}
