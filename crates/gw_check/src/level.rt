//! The rules on target segments and groups.
ghost use Rattle.std.specs.Prelude.{◌≡◌, List, OnOk, option_map};
ghost use Rattle.gw_profile.specs.Seen.{forest};
ghost use Rattle.gw_check.specs.Levels as spec;
ghost use Rattle.gw_resolve.specs.Places as places;
ghost use Rattle.gw_resolve.specs.Seen.{interval, saturated, mark as seen_mark, scope as walked, place as seen_place, all_items};
ghost use Rattle.gw_check.specs.Found.{NotesNode, NotesLevel, usage_of};
ghost use Rattle.gw_maplang.specs.Shapes.{TableValue};

use crate::items::{items_count, leading};
use crate::often::{Asked, check_often};
use gw_profile::{Node, Usage};
use gw_resolve::{
    Failure, FailureSite, Interval, Item, ScopeNode, ScopePath, at_line, find, never, once,
};
use std::alloc::{AllocError, Global};

/// How often a place is there.
pub(crate) fn count_at(scope: &[ScopeNode<'_, '_>], place: &ScopePath) -> Interval
    ensures { interval result ≡ saturated (places.count_at (walked scope.now) (seen_place place.now)) }
{
    match find(scope, place) {
        None => never(),
        Some(found) => found.count,
    }
}

/// How often a place is there, once where none is said.
pub(crate) fn count_if(scope: &[ScopeNode<'_, '_>], place: &Option<ScopePath>) -> Interval
    ensures { interval result ≡ saturated (places.count_if (walked scope.now) (option_map seen_place place.now)) }
{
    match place {
        None => once(),
        Some(place) => count_at(scope, place),
    }
}

// What the first item gives, or the node of this number within what should hold one.
fn node_mark(holder: u32, number: usize, items: &[Item]) -> FailureSite
    ensures { (tables : List TableValue) → seen_mark result ≡ spec.node_mark holder number (all_items tables items.now) }
{
    match items {
        [] => FailureSite {
            child: Some(number),
            ..at_line(holder)
        },
        [Item::Segment(segment), ..] => at_line(segment.line),
        [Item::Group(group), ..] => at_line(group.line),
        [Item::Flat(flat), ..] => at_line(flat.line),
    }
}

fn usage_of(node: &Node) -> Usage
    ensures { result ≡ usage_of node.now }
{
    match node {
        Node::Seg(segment) => segment.usage,
        Node::Group(group) => group.usage,
    }
}

// The failures of the rules on the count of a node, of which these are the items.
#[tactic(auto, using(crate::proofs::Counted::none_there))]
fn check_node(
    alloc: Global,
    found: &mut Vec<Failure>,
    scope: &[ScopeNode<'_, '_>],
    mark: FailureSite,
    node: &Node,
    items: &[Item],
) -> Result<(), AllocError>
    ensures { (tables : List TableValue) → OnOk result (NotesNode tables (walked scope.now) (seen_mark mark) node.now items.now found.old found.new) }
{
    let asked = Asked {
        mark,
        usage: usage_of(node),
        card: node.card(),
        is_missing: items.is_empty(),
    };
    check_often(found, asked, items_count(alloc, scope, items)?)
}

/// The failures of the rules on the counts of these nodes, at a level whose items are in the group, or the map, at this line.
pub(crate) fn check_level(
    alloc: Global,
    found: &mut Vec<Failure>,
    scope: &[ScopeNode<'_, '_>],
    holder: u32,
    nodes: &[Node],
    items: &[Item],
) -> Result<(), AllocError>
    ensures { (tables : List TableValue) → OnOk result (NotesLevel tables (walked scope.now) holder 0 (forest nodes.now) items.now found.old found.new) }
{
    let mut left = items;
    for (j, node) in nodes.iter().enumerate() {
        let (its, later) = left.split_at(leading(left, j));
        let mark = node_mark(holder, j, its);
        check_node(alloc, found, scope, mark, node, its)?;
        left = later;
    }
    Ok(())
}
