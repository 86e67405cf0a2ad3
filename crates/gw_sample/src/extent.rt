//! How much of a profile a sample shows.

use gw_profile::{Card, Usage};

/// How much of a profile a sample shows.
#[derive(Clone, Copy, PartialEq, Eq, Debug, Drop)]
pub enum Extent {
    /// What has to be there, as often as it has to.
    Least,
    /// Each element that may be there, and twice what may come twice.
    Most,
    /// The segments of the most, and of each the fields that have to be there.
    MostSegments,
    /// The segments and fields of the most, and of each field the components and subcomponents that have to be there. One without such a part has
    /// one that the profile doesn't list.
    MostFields,
    /// The least, and in each field the components up to the ninth that the profile doesn't list.
    LeastBeyond,
    /// The most, and those components.
    MostBeyond,
    /// The same, and in each component the subcomponents up to the ninth that the profile doesn't list.
    MostWithin,
}

/// Whether components are asked for that the profile doesn't list.
pub(crate) fn is_beyond(extent: Extent) -> bool {
    match extent {
        Extent::LeastBeyond | Extent::MostBeyond | Extent::MostWithin => true,
        Extent::Least | Extent::Most | Extent::MostSegments | Extent::MostFields => false,
    }
}

/// Whether subcomponents are asked for that the profile doesn't list.
pub(crate) fn is_within(extent: Extent) -> bool {
    extent == Extent::MostWithin
}

/// Whether nothing is asked for that the profile lists as optional, in what is present of it.
pub(crate) fn is_bare(extent: Extent) -> bool {
    extent == Extent::MostFields
}

// Whether only what has to be there is asked for, of what the profile lists.
fn is_least(extent: Extent) -> bool {
    match extent {
        Extent::Least | Extent::LeastBeyond => true,
        _ => false,
    }
}

/// How often a sample has a field of this cardinality.
pub(crate) fn field_count(extent: Extent, card: Card) -> u32 {
    if extent == Extent::MostSegments {
        return card.min;
    }
    count(extent, card)
}

/// How often a sample has a segment or group of this cardinality.
pub(crate) fn count(extent: Extent, card: Card) -> u32 {
    let Card { min, max } = card;
    match max {
        _ if is_least(extent) || min > 1 => min,
        Some(max) if max < 2 => max,
        _ => 2,
    }
}

/// Whether a sample has a component or subcomponent of this usage in what is present around it.
pub(crate) fn is_shown(extent: Extent, usage: Usage) -> bool {
    match usage {
        Usage::R => true,
        Usage::X => false,
        _ => !is_least(extent) && extent != Extent::MostSegments && !is_bare(extent),
    }
}
