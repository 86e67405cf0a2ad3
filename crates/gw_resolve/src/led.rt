//! Where the source paths of a map lead, and whether they may (1 and 2).
ghost use Rattle.std.specs.Prelude.{◌≡◌, IfOk, OnOk, Some};
ghost use Rattle.gw_maplang.specs.Seen.{items_all};
ghost use Rattle.gw_profile.specs.Labels.{nodes_in};
ghost use Rattle.gw_profile.specs.Line.{allows};
ghost use Rattle.gw_resolve.specs.own.Looking.{place_there, single_steps, leads, lead_failures};
ghost use Rattle.gw_resolve.specs.Naming as spec;
ghost use Rattle.gw_resolve.specs.Order.{is_segment};
ghost use Rattle.gw_resolve.specs.Places as places;
ghost use Rattle.gw_resolve.specs.Seen.{Notes, element as seen, scope as walked, place as seen_place};

use crate::element::{ScopeNode, card_of, child, element_at, nodes_of, nodes_of_child, outer};
use crate::failure::{Failure, at_line, note};
use crate::paths::{or_itself, place_of};
use crate::resolved::ScopePath;
use gw_profile::{Card, Level};
use std::alloc::{AllocError, Global};

/// What a path is for: elements are walked, segments are walked, or the one segment is read, or the first of several.
#[derive(Clone, Copy)]
pub(crate) enum PathUse {
    Walk,
    WalkSegments,
    Read(bool),
}

/// Where a path leads: a place that stands for none, and whether it leads to what is sought.
#[derive(Drop)]
pub(crate) struct PathTarget {
    pub(crate) place: ScopePath,
    pub(crate) leads: bool,
}

// ---- steps that may come often

fn allows_two(card: Card) -> bool
    ensures { result ≡ allows card.max 2 }
{
    match card.max {
        None => true,
        Some(most) => most >= 2,
    }
}

// Whether the node of this number may come more than once.
fn comes_often<'a, 'p>(level: Option<&'a Level<'p>>, number: usize) -> bool
    ensures { result ≡ spec.comes_often (places.child (nodes_in level.entry) number) }
{
    match child(level, number) {
        None => false,
        Some(element) => allows_two(card_of(element)),
    }
}

// No step may come more than once.
fn are_single<'a, 'p>(mut level: Option<&'a Level<'p>>, steps: &[usize]) -> bool
    ensures { result ≡ spec.are_single (nodes_in level.entry) steps.now }
{
    for step in steps {
        if comes_often(level, *step) {
            return false;
        }
        level = nodes_of_child(level, *step);
    }
    true
}

#[tactic(auto, using(crate::proofs::Noting::all_but_last))]
fn but_last(steps: &[usize]) -> &[usize]
    ensures { result.now ≡ spec.but_last steps.now }
{
    let [before @ .., _] = steps else {
        return &[];
    };
    before
}

// From where the steps of a place begin.
fn start_of<'a, 'p>(scope: &[ScopeNode<'a, 'p>], place: &ScopePath) -> Option<&'a Level<'p>>
    ensures { nodes_in result ≡ spec.start_of (walked scope.now) (seen_place place.now) }
{
    nodes_of(outer(scope, place.out)?)
}

// The steps that may not come often where a field is read: none if it is that of the first of several segments.
fn read_steps(first: bool, steps: &[usize]) -> &[usize]
    ensures { result.now ≡ spec.read_steps first steps.now }
{
    if first { &[] } else { steps }
}

// The steps that may not come often: of what is walked all but the last.
fn single_steps(how: PathUse, steps: &[usize]) -> &[usize]
    ensures { result.now ≡ single_steps how steps.now }
{
    match how {
        PathUse::Walk | PathUse::WalkSegments => but_last(steps),
        PathUse::Read(first) => read_steps(first, steps),
    }
}

// No such step of the place may come more than once.
fn is_once(how: PathUse, scope: &[ScopeNode<'_, '_>], place: Option<&ScopePath>) -> bool
    ensures { result ≡ spec.is_single_place (walked scope.now) (single_steps how) (place_there place.entry) }
{
    match place {
        None => true,
        Some(place) => are_single(start_of(scope, place), single_steps(how, &place.steps)),
    }
}

// ---- what stands there

fn is_segment(element: ScopeNode<'_, '_>) -> bool
    ensures { result ≡ is_segment (Some (seen element.entry)) }
{
    matches!(element, ScopeNode::Segment(_))
}

/// Whether the place is that of a segment.
pub(crate) fn ends_at_segment(scope: &[ScopeNode<'_, '_>], place: Option<&ScopePath>) -> bool
    ensures { result ≡ spec.ends_at_segment (walked scope.now) (place_there place.entry) }
{
    match place {
        None => false,
        Some(place) => is_segment(element_at(scope, place)),
    }
}

// ---- paths

// Whether the place is one, and a segment's where segments are sought.
fn leads(how: PathUse, scope: &[ScopeNode<'_, '_>], place: Option<&ScopePath>) -> bool
    ensures { result ≡ leads how (walked scope.now) (place_there place.entry) }
{
    match how {
        PathUse::Walk => place.is_some(),
        PathUse::WalkSegments | PathUse::Read(_) => ends_at_segment(scope, place),
    }
}

/// Where the path of this line leads; adds the failures of a path that leads nowhere, or by steps that come often.
pub(crate) fn lead(
    alloc: Global,
    found: &mut Vec<Failure>,
    scope: &[ScopeNode<'_, '_>],
    line: u32,
    path: &[Vec<u8>],
    how: PathUse,
) -> Result<PathTarget, AllocError>
    ensures place { IfOk result (λ l. seen_place l.place ≡ spec.place_or (walked scope.now) (items_all path.now)) }
    ensures leads { IfOk result (λ l. l.leads ≡ leads how (walked scope.now) (spec.place_of (walked scope.now) (items_all path.now))) }
    ensures failures { OnOk result (Notes found.old found.new (lead_failures how (walked scope.now) line (items_all path.now))) }
{
    let place = place_of(alloc, scope, path)?;
    let leads = leads(how, scope, place.as_ref());
    let once = is_once(how, scope, place.as_ref());
    note(found, 1, at_line(line), !leads)?;
    note(found, 2, at_line(line), !once)?;
    Ok(PathTarget {
        place: or_itself(alloc, place),
        leads,
    })
}
