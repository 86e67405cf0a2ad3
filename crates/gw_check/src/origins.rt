//! What the lines of a map read.
ghost use Rattle.std.specs.Prelude.{◌≡◌, IfOk};
ghost use Rattle.gw_resolve.specs.Positions as places;
ghost use Rattle.gw_resolve.specs.Seen.{place as seen_place, source as seen_source, leaf as seen_leaf};
ghost use Rattle.gw_check.specs.Seen.{spot as seen_spot, some_reference, OriginIs};
ghost use Rattle.gw_check.specs.Sites as spec;

use crate::site::{ElementPath, Origin};
use gw_maplang::LeafPlace;
use gw_resolve::{Reference, ResolvedLeaf, ScopePath, Source, position};
use std::alloc::{AllocError, Global};

// How many numbers of its position lead to what is walked.
fn walked_steps(scope: &[Vec<usize>], place: &ScopePath) -> usize
    ensures { result ≡ places.walked (places.positions scope.now) (seen_place place.now) }
{
    if place.out >= scope.len() {
        return 0;
    }
    scope[scope.len() - 1 - place.out].len()
}

/// A part of the field of this number at a place; 0 where the whole is meant.
pub(crate) fn path_at(
    alloc: Global,
    scope: &[Vec<usize>],
    place: &ScopePath,
    field: u32,
    part: LeafPlace,
) -> Result<ElementPath, AllocError>
    ensures { IfOk result (λ s. seen_spot s ≡ spec.spot_at (places.positions scope.now) (seen_place place.now) field part.comp part.sub) }
{
    let at = position(alloc, scope, place)?;
    Ok(ElementPath {
        at,
        walked: walked_steps(scope, place),
        field,
        comp: part.comp,
        sub: part.sub,
    })
}

// An element of the source, or a part of the field whose repetition is walked.
fn source_path(
    alloc: Global,
    scope: &[Vec<usize>],
    walked: Option<&Reference>,
    from: &Source,
) -> Result<ElementPath, AllocError>
    ensures { IfOk result (λ s. seen_spot s ≡ spec.source_spot (places.positions scope.now) (some_reference walked.entry) (seen_source from.now)) }
{
    match from {
        Source::OfField(from, at) => path_at(alloc, scope, &from.place, from.field, *at),
        Source::OfCurrent(at) => match walked {
            None => Ok(ElementPath {
                at: Vec::new(alloc),
                walked: 0,
                field: 0,
                comp: at.comp,
                sub: at.sub,
            }),
            Some(from) => path_at(alloc, scope, &from.place, from.field, *at),
        },
    }
}

/// What a leaf is made of.
pub(crate) fn leaf_origin(
    alloc: Global,
    scope: &[Vec<usize>],
    walked: Option<&Reference>,
    leaf: &ResolvedLeaf,
) -> Result<Origin, AllocError>
    ensures { OriginIs result (λ tables. spec.leaf_origin (places.positions scope.now) (some_reference walked.entry) (seen_leaf tables leaf.now)) }
{
    match leaf {
        ResolvedLeaf::Const(text) => Ok(Origin::Text(Vec::from_slice(alloc, text)?)),
        ResolvedLeaf::Copied(from) => Ok(Origin::Read(source_path(alloc, scope, walked, from)?)),
        ResolvedLeaf::LookedUp(name, from) => {
            let name = Vec::from_slice(alloc, name)?;
            let from = source_path(alloc, scope, walked, from)?;
            Ok(Origin::LookedUp(name, from))
        }
        ResolvedLeaf::Dated(digits, from) => {
            let from = source_path(alloc, scope, walked, from)?;
            Ok(Origin::Dated(*digits, from))
        }
    }
}
