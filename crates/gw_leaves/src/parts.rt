//! Where the texts of leaves stand in their field.
ghost use Rattle.std.specs.Prelude.{◌≡◌};
ghost use Rattle.gw_leaves.specs.Leaves.{is_always, is_absent};
ghost use Rattle.gw_leaves.specs.Uses.{sources_value};
ghost use Rattle.gw_leaves.specs.own.Held.{leaves_value, presence_at};
ghost use Rattle.gw_leaves.specs.own.Parts as spec;

use crate::presence::{at_presence, is_absent, is_always};
use crate::sources::Sources;
use gw_resolve::At;

/// All of a field, a component of it, or a subcomponent of that.
#[derive(Clone, Copy)]
pub(crate) enum Part {
    Field,
    Comp(u32),
    Sub(u32, u32),
}

// Whether the place is in the part, and always has a text.
fn is_sure_in(sources: Sources<'_, '_, '_, '_, '_>, part: Part, at: &At) -> bool
    ensures { result ≡ spec.is_sure_in part at.now.place.comp at.now.place.sub (is_always (presence_at sources.entry at.now)) }
{
    let (comp, sub) = (at.place.comp, at.place.sub);
    match part {
        Part::Field => is_always(at_presence(sources, at)),
        Part::Comp(part) => comp == part && is_always(at_presence(sources, at)),
        Part::Sub(part, inner) => {
            comp == part && sub == inner && is_always(at_presence(sources, at))
        }
    }
}

// Whether the place isn't beside the part, or never has a text.
fn is_not_beside(sources: Sources<'_, '_, '_, '_, '_>, part: Part, at: &At) -> bool
    ensures { result ≡ spec.is_not_beside part at.now.place.comp at.now.place.sub (is_absent (presence_at sources.entry at.now)) }
{
    let (comp, sub) = (at.place.comp, at.place.sub);
    match part {
        Part::Field => is_absent(at_presence(sources, at)),
        Part::Comp(part) => comp == part || is_absent(at_presence(sources, at)),
        Part::Sub(part, inner) => {
            comp != part || sub == inner || is_absent(at_presence(sources, at))
        }
    }
}

/// Whether some place of the part always has a text.
pub(crate) fn some_sure(sources: Sources<'_, '_, '_, '_, '_>, part: Part, leaves: &[At]) -> bool
    ensures { result ≡ spec.some_sure (sources_value sources.entry) part (leaves_value sources.entry leaves.now) }
{
    for at in leaves {
        if is_sure_in(sources, part, at) {
            return true;
        }
    }
    false
}

/// Whether no place beside the part ever has one; of all of a field, whether none has one at all.
pub(crate) fn none_beside(sources: Sources<'_, '_, '_, '_, '_>, part: Part, leaves: &[At]) -> bool
    ensures { result ≡ spec.none_beside (sources_value sources.entry) part (leaves_value sources.entry leaves.now) }
{
    for at in leaves {
        if !is_not_beside(sources, part, at) {
            return false;
        }
    }
    true
}

/// Whether the part has a text where what it is a part of has one: some place of the part always has a text, or none beside it ever has.
pub(crate) fn is_sure(sources: Sources<'_, '_, '_, '_, '_>, part: Part, leaves: &[At]) -> bool
    ensures { result ≡ spec.is_sure (sources_value sources.entry) part (leaves_value sources.entry leaves.now) }
{
    some_sure(sources, part, leaves) || none_beside(sources, part, leaves)
}
