//! What is walked of the source at the place of an item.
ghost use Rattle.std.specs.Prelude.{◌≡◌, IfOk, option_map};
ghost use Rattle.gw_resolve.specs.Places as places;
ghost use Rattle.gw_resolve.specs.Seen.{scope as walked, place as seen_place};

use gw_resolve::{ScopeNode, ScopePath, enter};
use std::alloc::{AllocError, Global};

/// The elements that are walked at a place, the innermost last; where no place is said, those that are walked already. The one error is allocation failure.
pub fn enter_if<'a, 'l>(
    alloc: Global,
    scope: &[ScopeNode<'a, 'l>],
    place: &Option<ScopePath>,
) -> Result<Vec<ScopeNode<'a, 'l>>, AllocError>
    ensures { IfOk result (λ es. walked es.items ≡ places.within_if (walked scope.now) (option_map seen_place place.now)) }
{
    match place {
        None => Vec::from_slice(alloc, scope),
        Some(place) => enter(alloc, scope, place),
    }
}
