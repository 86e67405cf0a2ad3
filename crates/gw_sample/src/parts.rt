//! Components and subcomponents alike: which of them a sample has.

use crate::extent::{Extent, is_bare, is_shown};
use gw_profile::{CompShape, SubShape, Usage};

/// A component or a subcomponent of a profile.
pub(crate) trait Part {
    fn number(&self) -> u32;

    fn usage(&self) -> Usage;
}

impl Part for CompShape {
    fn number(&self) -> u32 {
        self.number
    }

    fn usage(&self) -> Usage {
        self.usage
    }
}

impl Part for SubShape {
    fn number(&self) -> u32 {
        self.number
    }

    fn usage(&self) -> Usage {
        self.usage
    }
}

/// The part that makes present what it is part of, where no usage asks for one.
#[derive(Clone, Copy, PartialEq, Eq, Debug, Drop)]
pub(crate) enum Filler {
    /// A usage asks for a part.
    Needless,
    /// The first that is not X, by its number.
    Listed(u32),
    /// Each is X, or none is listed, or none that is optional is asked for: the one behind the last.
    Unlisted(u32),
}

/// Which part makes present what these are parts of.
pub(crate) fn filler_of<P: Part>(extent: Extent, parts: &[P]) -> Filler {
    let mut allowed = None;
    let mut last: u32 = 0;
    for part in parts {
        if is_shown(extent, part.usage()) {
            return Filler::Needless;
        }
        if allowed.is_none() && part.usage() != Usage::X && !is_bare(extent) {
            allowed = Some(part.number());
        }
        last = part.number();
    }
    match allowed {
        Some(number) => Filler::Listed(number),
        None => Filler::Unlisted(last.saturating_add(1)),
    }
}

/// Whether a sample has this part.
pub(crate) fn is_drawn<P: Part>(extent: Extent, filler: Filler, part: &P) -> bool {
    is_shown(extent, part.usage()) || filler == Filler::Listed(part.number())
}
