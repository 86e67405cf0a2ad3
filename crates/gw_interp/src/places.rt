//! The occurrences that a map's places lead to.
ghost use Rattle.std.specs.Prelude.{◌≡◌, List, IfSome, option_map, flat_map};
ghost use Rattle.std.specs.Option.{option_to_list};
ghost use Rattle.gw_er7.specs.Message.{SegmentValue};
ghost use Rattle.gw_resolve.specs.Seen.{place as seen_place};
ghost use Rattle.gw_interp.specs.Occurrences as spec;
ghost use Rattle.gw_interp.specs.own.Borrowed.{occurrence, scope as walked, AreOf, IsFirstOf};

use gw_resolve::ScopePath;
use gw_validate::Occ;

/// The occurrence of `scope` that is `out` levels outside the innermost, which is the last. It takes no memory.
pub(crate) fn walked_at<'a>(scope: &[Occ<'a>], out: usize) -> Option<Occ<'a>>
    ensures walked { spec.in_scope (walked scope.now) out ≡ option_to_list (option_map occurrence result) }
    ensures message { (m : List SegmentValue) → AreOf m scope.now → IfSome result (λ o. o.message ≡ m) }
{
    if out >= scope.len() {
        return None;
    }
    Some(scope[scope.len() - 1 - out].reborrow())
}

// The first occurrence to which these steps lead from the children of this number.
#[cycle(first)]
fn first_of_children<'a>(above: &Occ<'a>, child: usize, steps: &[usize]) -> Option<Occ<'a>>
    ensures first { IsFirstOf (flat_map (spec.below steps.now) (spec.children (occurrence above.now) child)) result }
    ensures message { IfSome result (λ o. o.message ≡ above.now.message) }
{
    if child >= above.children() {
        return None;
    }
    for k in 0..above.count(child) {
        let each = above.child(child, k);
        if let Some(first) = first_below(&each, steps) {
            return Some(first);
        }
    }
    None
}

// The first occurrence to which the steps lead from this one.
#[cycle(first)]
fn first_below<'a>(from: &Occ<'a>, steps: &[usize]) -> Option<Occ<'a>>
    ensures first { IsFirstOf (spec.below steps.now (occurrence from.now)) result }
    ensures message { IfSome result (λ o. o.message ≡ from.now.message) }
{
    match steps {
        [] => Some(from.reborrow()),
        [child, later @ ..] => first_of_children(from, *child, later),
    }
}

/// The first occurrence at a place. It takes no memory.
pub(crate) fn first_at_place<'a>(scope: &[Occ<'a>], place: &ScopePath) -> Option<Occ<'a>>
    ensures first { IsFirstOf (spec.at_place (walked scope.now) (seen_place place.now)) result }
    ensures message { (m : List SegmentValue) → AreOf m scope.now → IfSome result (λ o. o.message ≡ m) }
{
    match walked_at(scope, place.out) {
        None => None,
        Some(from) => first_below(&from, &place.steps),
    }
}
