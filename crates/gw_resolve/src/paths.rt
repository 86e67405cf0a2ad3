//! The places to which the paths of a map lead.
ghost use Rattle.std.specs.Prelude.{◌≡◌, IfOk, option_map, unwrap_or, bytes_eq};
ghost use Rattle.gw_maplang.specs.Seen.{items_all};
ghost use Rattle.gw_resolve.specs.Naming as spec;
ghost use Rattle.gw_resolve.specs.own.Looking.{further, begun, onwards, AreStepsBehind};
ghost use Rattle.gw_profile.specs.Labels.{nodes_in, labelled as spec_labelled};
ghost use Rattle.gw_resolve.specs.Seen.{element as seen, scope as walked, place as seen_place};

use crate::element::{ScopeNode, element_at, nodes_of, nodes_of_child};
use crate::resolved::ScopePath;
use gw_profile::Level;
use std::alloc::{AllocError, Global};

/// Whether the two are the same octets.
pub(crate) fn same(one: &[u8], other: &[u8]) -> bool
    ensures { result ≡ bytes_eq one.now other.now }
{
    one == other
}

/// The number of the node with this label.
pub(crate) fn labelled<'a, 'p>(level: Option<&'a Level<'p>>, label: &[u8]) -> Option<usize>
    ensures { result ≡ spec_labelled (nodes_in level.entry) label.now }
{
    level?.number_of(label)
}

// Whether this is the element's own label.
fn has_label(element: ScopeNode<'_, '_>, label: &[u8]) -> bool
    ensures { result ≡ spec.has_label label.now (seen element.entry) }
{
    match element {
        ScopeNode::Segment(segment) => same(&segment.label, label),
        ScopeNode::Group(group, _) => same(&group.label, label),
        ScopeNode::Whole(_) => false,
    }
}

// The label among the nodes of an element so far outwards, or its own.
fn begin(
    alloc: Global,
    element: ScopeNode<'_, '_>,
    out: usize,
    label: &[u8],
) -> Result<Option<ScopePath>, AllocError>
    ensures { IfOk result (λ p. option_map seen_place p ≡ option_map (further out) (begun (seen element.entry) label.now)) }
{
    let mut steps = Vec::new(alloc);
    if let Some(number) = labelled(nodes_of(element), label) {
        steps.push(number)?;
        return Ok(Some(ScopePath { out, steps }));
    }
    if has_label(element, label) {
        return Ok(Some(ScopePath { out, steps }));
    }
    Ok(None)
}

// From the innermost element outwards.
fn first_label(
    alloc: Global,
    scope: &[ScopeNode<'_, '_>],
    label: &[u8],
) -> Result<Option<ScopePath>, AllocError>
    ensures { IfOk result (λ p. option_map seen_place p ≡ spec.first_label (walked scope.now) label.now) }
{
    let mut left = scope;
    while let [outer @ .., element] = left {
        let found = begin(alloc, *element, scope.len() - left.len(), label)?;
        if found.is_some() {
            return Ok(found);
        }
        left = outer;
    }
    Ok(None)
}

// The numbers of nodes to which the labels lead, each within the one before it, behind these.
#[tactic(auto, using(crate::proofs::Following::steps_all, crate::proofs::Following::steps_next, crate::proofs::Following::steps_missing))]
fn follow<'a, 'p>(
    mut level: Option<&'a Level<'p>>,
    path: &[Vec<u8>],
    mut steps: Vec<usize>,
) -> Result<Option<Vec<usize>>, AllocError>
    ensures { IfOk result (AreStepsBehind steps.items (nodes_in level.entry) (items_all path.now)) }
{
    for label in path {
        let Some(number) = labelled(level, label) else {
            return Ok(None);
        };
        steps.push(number)?;
        level = nodes_of_child(level, number);
    }
    Ok(Some(steps))
}

// The place to which the labels lead from here.
fn follow_from(
    scope: &[ScopeNode<'_, '_>],
    path: &[Vec<u8>],
    place: ScopePath,
) -> Result<Option<ScopePath>, AllocError>
    ensures { IfOk result (λ p. option_map seen_place p ≡ onwards (walked scope.now) (items_all path.now) (seen_place place)) }
{
    let level = nodes_of(element_at(scope, &place));
    let Some(steps) = follow(level, path, place.steps)? else {
        return Ok(None);
    };
    Ok(Some(ScopePath {
        out: place.out,
        steps,
    }))
}

/// The place to which a path leads.
#[tactic(auto, using(crate::proofs::Following::no_path, crate::proofs::Following::placed))]
pub(crate) fn place_of(
    alloc: Global,
    scope: &[ScopeNode<'_, '_>],
    path: &[Vec<u8>],
) -> Result<Option<ScopePath>, AllocError>
    ensures { IfOk result (λ p. option_map seen_place p ≡ spec.place_of (walked scope.now) (items_all path.now)) }
{
    let [label, labels @ ..] = path else {
        return Ok(None);
    };
    match first_label(alloc, scope, label)? {
        None => Ok(None),
        Some(place) => follow_from(scope, labels, place),
    }
}

/// The place, or that of the innermost element itself where there is none.
pub(crate) fn or_itself(alloc: Global, place: Option<ScopePath>) -> ScopePath
    ensures { seen_place result ≡ unwrap_or (option_map seen_place place) spec.itself }
{
    place.unwrap_or(ScopePath {
        out: 0,
        steps: Vec::new(alloc),
    })
}
