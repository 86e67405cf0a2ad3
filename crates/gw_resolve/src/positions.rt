//! Where the nodes stand that a map reads.
ghost use Rattle.std.specs.Prelude.{◌≡◌, IfOk};
ghost use Rattle.gw_resolve.specs.Positions as spec;
ghost use Rattle.gw_resolve.specs.Seen.{place as seen_place};

use crate::resolved::ScopePath;
use std::alloc::{AllocError, Global};

/// The position of a place, seen from the positions that are walked, the innermost last. The one error is allocation failure.
pub fn position(
    alloc: Global,
    scope: &[Vec<usize>],
    place: &ScopePath,
) -> Result<Vec<usize>, AllocError>
    ensures { IfOk result (λ p. p.items ≡ spec.position (spec.positions scope.now) (seen_place place.now)) }
{
    if place.out >= scope.len() {
        return Vec::from_slice(alloc, &place.steps);
    }
    let mut at = Vec::from_slice(alloc, &scope[scope.len() - 1 - place.out])?;
    at.extend_from_slice(&place.steps)?;
    Ok(at)
}

/// The positions that are walked at a place, the innermost last. The one error is allocation failure.
pub fn positions_within(
    alloc: Global,
    scope: &[Vec<usize>],
    place: &ScopePath,
) -> Result<Vec<Vec<usize>>, AllocError>
    ensures { IfOk result (λ inner. spec.positions inner.items ≡ spec.inner (spec.positions scope.now) (seen_place place.now)) }
{
    let at = position(alloc, scope, place)?;
    let mut inner = Vec::new(alloc);
    for outer in scope {
        inner.push(Vec::from_slice(alloc, outer)?)?;
    }
    inner.push(at)?;
    Ok(inner)
}
