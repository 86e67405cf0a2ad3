//! Elements of a profile, and what stands at the places of a map.
ghost use Rattle.std.specs.Prelude.{◌≡◌, ◌∷◌, Some, IfOk, option_map, slice_get};
ghost use Rattle.gw_profile.specs.Labels.{inner, nodes_in};
ghost use Rattle.gw_profile.specs.Seen.{forest, node_forest};
ghost use Rattle.gw_profile.specs.Shapes.{nothing};
ghost use Rattle.gw_resolve.specs.Places as spec;
ghost use Rattle.gw_resolve.specs.Seen.{element as seen, scope as walked, place as seen_place, saturated_found, found_value};
ghost use Rattle.gw_resolve.specs.own.Looking.{IsTimes};

use crate::interval::{Interval, once};
use crate::resolved::ScopePath;
use gw_profile::{Card, GroupNode, Level, Node, SegNode};
use std::alloc::{AllocError, Global};

/// A segment, a group with its level, or the level of the whole profile, None where nothing stands.
#[derive(Clone, Copy)]
pub enum ScopeNode<'a, 'p> {
    Segment(&'a SegNode),
    Group(&'a GroupNode, Option<&'a Level<'p>>),
    Whole(Option<&'a Level<'p>>),
}

/// An element, and how often it is there below where the steps began.
#[derive(Clone, Copy)]
pub struct CountedNode<'a, 'p> {
    pub element: ScopeNode<'a, 'p>,
    pub count: Interval,
}

// ---- nodes

// The node, with the level of what is within it.
fn of_node<'a, 'p>(node: &'a Node, level: Option<&'a Level<'p>>) -> ScopeNode<'a, 'p>
    requires { nodes_in level ≡ inner node.now }
    ensures { spec.child (node_forest node.now nothing) 0 ≡ Some (seen result) }
{
    match node {
        Node::Seg(segment) => ScopeNode::Segment(segment),
        Node::Group(group) => ScopeNode::Group(group, level),
    }
}

// The node of this number.
#[tactic(auto, using(crate::proofs::Children::child_past, crate::proofs::Children::child_at, crate::proofs::Children::within_at))]
fn node_at<'a, 'p>(level: &'a Level<'p>, number: usize) -> Option<ScopeNode<'a, 'p>>
    ensures { option_map seen result ≡ spec.child (forest level.now) number }
{
    match level.nodes().get(number) {
        None => None,
        Some(node) => Some(of_node(node, level.within(number))),
    }
}

/// The node of this number.
pub(crate) fn child<'a, 'p>(
    level: Option<&'a Level<'p>>,
    number: usize,
) -> Option<ScopeNode<'a, 'p>>
    ensures { option_map seen result ≡ spec.child (nodes_in level.entry) number }
{
    node_at(level?, number)
}

/// The level within an element.
pub(crate) fn nodes_of<'a, 'p>(element: ScopeNode<'a, 'p>) -> Option<&'a Level<'p>>
    ensures { nodes_in result ≡ spec.nodes_of (seen element.entry) }
{
    match element {
        ScopeNode::Segment(_) => None,
        ScopeNode::Group(_, level) | ScopeNode::Whole(level) => level,
    }
}

/// The level within the node of this number.
pub(crate) fn nodes_of_child<'a, 'p>(
    level: Option<&'a Level<'p>>,
    number: usize,
) -> Option<&'a Level<'p>>
    ensures { nodes_in result ≡ spec.nodes_of_child (nodes_in level.entry) number }
{
    nodes_of(child(level, number)?)
}

/// How often an element may come; the whole comes once.
pub(crate) fn card_of(element: ScopeNode<'_, '_>) -> Card
    ensures { result ≡ spec.card_of (seen element.entry) }
{
    match element {
        ScopeNode::Segment(segment) => segment.card,
        ScopeNode::Group(group, _) => group.card,
        ScopeNode::Whole(_) => Card {
            min: 1,
            max: Some(1),
        },
    }
}

// ---- places

// As many times as the element comes.
fn times<'a, 'p>(
    element: ScopeNode<'a, 'p>,
    below: Option<CountedNode<'a, 'p>>,
) -> Option<CountedNode<'a, 'p>>
    ensures { IsTimes (seen element.entry) below.entry result }
{
    let below = below?;
    Some(CountedNode {
        element: below.element,
        count: Interval::of(card_of(element)).times(below.count),
    })
}

// What stands where this step and the others lead.
#[cycle(below)]
#[tactic(auto, using(crate::proofs::Finding::below_there))]
fn step<'a, 'p>(
    element: ScopeNode<'a, 'p>,
    first: usize,
    rest: &[usize],
) -> Option<CountedNode<'a, 'p>>
    ensures { found_value result ≡ saturated_found (spec.found_below (first ∷ rest.now) (seen element.entry)) }
{
    let next = child(nodes_of(element), first)?;
    times(next, found_below(next, rest))
}

// What stands where the steps lead.
#[cycle(below)]
fn found_below<'a, 'p>(element: ScopeNode<'a, 'p>, steps: &[usize]) -> Option<CountedNode<'a, 'p>>
    ensures { found_value result ≡ saturated_found (spec.found_below steps.now (seen element.entry)) }
{
    let [first, rest @ ..] = steps else {
        return Some(CountedNode {
            element,
            count: once(),
        });
    };
    step(element, *first, rest)
}

/// The element so far outwards from the innermost, which is the last.
pub(crate) fn outer<'a, 'p>(scope: &[ScopeNode<'a, 'p>], out: usize) -> Option<ScopeNode<'a, 'p>>
    ensures { option_map seen result ≡ slice_get (walked scope.now) out }
{
    if out >= scope.len() {
        return None;
    }
    Some(scope[scope.len() - 1 - out])
}

/// What stands at a place, seen from the elements that are walked, the innermost last. It takes no memory.
#[tactic(auto, using(crate::proofs::Finding::in_scope))]
pub fn find<'a, 'p>(scope: &[ScopeNode<'a, 'p>], place: &ScopePath) -> Option<CountedNode<'a, 'p>>
    ensures { found_value result ≡ saturated_found (spec.found (walked scope.now) (seen_place place.now)) }
{
    found_below(outer(scope, place.out)?, &place.steps)
}

/// The element at a place, where one is.
#[tactic(auto, using(crate::proofs::Finding::same_element))]
pub(crate) fn element_at<'a, 'p>(
    scope: &[ScopeNode<'a, 'p>],
    place: &ScopePath,
) -> ScopeNode<'a, 'p>
    ensures { seen result ≡ spec.element_of (spec.found (walked scope.now) (seen_place place.now)) }
{
    match find(scope, place) {
        None => ScopeNode::Whole(None),
        Some(found) => found.element,
    }
}

/// The scope of what is walked at a place. The one error is allocation failure.
pub fn enter<'a, 'p>(
    alloc: Global,
    scope: &[ScopeNode<'a, 'p>],
    place: &ScopePath,
) -> Result<Vec<ScopeNode<'a, 'p>>, AllocError>
    ensures { IfOk result (λ inner. walked inner.items ≡ spec.within (walked scope.now) (seen_place place.now)) }
{
    let mut inner = Vec::from_slice(alloc, scope)?;
    inner.push(element_at(scope, place))?;
    Ok(inner)
}
