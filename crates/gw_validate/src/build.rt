//! The tree of a list that fits.
ghost use Rattle.std.specs.Prelude.{◌≡◌, ◌&&◌, ◌≤◌, IfOk, map};
ghost use Rattle.std.specs.List.{AllByRecursion};
ghost use Rattle.gw_validate.specs.own.Residual.{has_room};
ghost use Rattle.std.specs.Str.{bytes_eq};
ghost use Rattle.gw_validate.specs.own.Building.{BuildsSegmentsAt, BuildsGroupsAt, BuildsNodeAt, BuildsNodesAt};
ghost use Rattle.gw_profile.specs.Shapes.{nothing};
ghost use Rattle.gw_profile.specs.Seen.{forest, node_forest, segment_value};
ghost use Rattle.gw_validate.specs.own.Occurring.{found_of, tree_of, AreOrdered, IsOrdered};
ghost use Rattle.gw_validate.specs.Trees.{IsTree};
ghost use Rattle.gw_validate.specs.own.Tests.{can_begin, node_begins};
ghost use Rattle.gw_validate.specs.Conforming.{named};
ghost use Rattle.gw_validate.specs.Cuts.{Fits};
ghost use Rattle.gw_profile.specs.Deterministic.{Determined, NoName};

use crate::listing::name_at;
use crate::occurrences::{Found, Occurrences, of_segment, one_more};
use crate::walk::{has_room, less_one, same_name};
use gw_er7::Message;
use gw_profile::{Card, Node, SegNode};
use std::alloc::{AllocError, Global};

// Whether an occurrence of the node can begin with the name.
#[cycle(begin)]
fn node_begins(node: &Node, name: [u8; 3]) -> bool
    ensures { result ≡ node_begins node.now name }
{
    if !has_room(node.card()) {
        return false;
    }
    match node {
        Node::Seg(segment) => same_name(segment.name, name),
        Node::Group(group) => can_begin(&group.nodes, name),
    }
}

// Whether a list of the nodes can begin with the name.
#[cycle(begin)]
fn can_begin(nodes: &[Node], name: [u8; 3]) -> bool
    ensures { result ≡ can_begin (forest nodes.now) name }
{
    for node in nodes {
        if node_begins(node, name) {
            return true;
        }
        if node.card().min > 0 {
            return false;
        }
    }
    false
}

// Whether one more occurrence of the segment comes next.
fn is_next(due: Card, name: [u8; 3], message: &Message, number: usize) -> bool
    ensures { result ≡ has_room due.max && bytes_eq name (named message.now number) }
{
    has_room(due) && same_name(name, name_at(message, number))
}

// Whether one more occurrence of the group comes next.
fn can_go_on(due: Card, children: &[Node], message: &Message, number: usize) -> bool
    ensures { result ≡ has_room due.max && can_begin (forest children.now) (named message.now number) }
{
    has_room(due) && can_begin(children, name_at(message, number))
}

// The place behind a node's segments, which are listed from this place on.
fn pass_segments(segment: &SegNode, message: &Message, listed: &[usize], at: usize) -> usize
    ensures on { at ≤ result }
    ensures built { BuildsSegmentsAt (named message.now) (segment_value segment.now) listed.now at result }
{
    let mut due = segment.card;
    let mut here = at;
    while here < listed.len() {
        if !is_next(due, segment.name, message, listed[here]) {
            return here;
        }
        due = less_one(due);
        here += 1;
    }
    here
}

// The occurrences of a group from this place on, and the place behind them.
#[cycle(build)]
fn build_groups(
    alloc: Global,
    card: Card,
    children: &[Node],
    message: &Message,
    listed: &[usize],
    at: usize,
) -> Result<(Option<Occurrences>, usize), AllocError>
    ensures built { IfOk result (λ b. BuildsGroupsAt (named message.now) card (forest children.now) listed.now at b) }
    ensures ordered { IfOk result (λ b. AllByRecursion (IsOrdered (forest children.now)) (found_of b.0)) }
{
    let mut found = None;
    let mut due = card;
    let mut here = at;
    while here < listed.len() {
        if !can_go_on(due, children, message, listed[here]) {
            return Ok((found, here));
        }
        let (one, behind) = build_nodes(alloc, children, message, listed, here)?;
        if behind <= here {
            return Ok((found, here));
        }
        found = Some(one_more(alloc, found, one)?);
        due = less_one(due);
        here = behind;
    }
    Ok((found, here))
}

// The occurrences of a node from this place on, where it occurs, and the place behind them.
#[cycle(build)]
fn build_node(
    alloc: Global,
    node: &Node,
    message: &Message,
    listed: &[usize],
    at: usize,
) -> Result<(Option<Occurrences>, usize), AllocError>
    ensures built { IfOk result (λ b. BuildsNodeAt (named message.now) (node_forest node.now nothing) listed.now at b) }
    ensures ordered { IfOk result (λ b. AreOrdered (λ _. b.0) 0 (node_forest node.now nothing)) }
{
    match node {
        Node::Seg(segment) => {
            let behind = pass_segments(segment, message, listed, at);
            Ok((of_segment(at, behind), behind))
        }
        Node::Group(group) => build_groups(alloc, group.card, &group.nodes, message, listed, at),
    }
}

// Of the nodes that occur from this place on their occurrences, and the place behind them.
#[cycle(build)]
fn build_nodes(
    alloc: Global,
    nodes: &[Node],
    message: &Message,
    listed: &[usize],
    at: usize,
) -> Result<(Found, usize), AllocError>
    ensures built { IfOk result (λ b. BuildsNodesAt (named message.now) (forest nodes.now) listed.now at b) }
    ensures ordered { IfOk result (λ b. IsOrdered (forest nodes.now) b.0) }
{
    let mut found = Found::none(alloc);
    let mut here = at;
    for (i, node) in nodes.iter().enumerate() {
        let (one, behind) = build_node(alloc, node, message, listed, here)?;
        found.put(i, one)?;
        here = behind;
    }
    Ok((found, here))
}

/// The tree of the segments of these numbers, whose names fit the nodes.
pub(crate) fn build(
    alloc: Global,
    nodes: &[Node],
    message: &Message,
    listed: &[usize],
) -> Result<Found, AllocError>
    requires rules { Determined (forest nodes.now) NoName }
    requires fits { Fits (forest nodes.now) (map (named message.now) listed.now) }
    ensures tree { IfOk result (λ found. IsTree (named message.now) (tree_of listed.now (forest nodes.now) found) (forest nodes.now) listed.now) }
    ensures ordered { IfOk result (λ found. IsOrdered (forest nodes.now) found) }
{
    let (found, _) = build_nodes(alloc, nodes, message, listed, 0)?;
    Ok(found)
}
