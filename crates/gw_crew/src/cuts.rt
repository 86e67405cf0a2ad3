//! Chapters that are closed.
ghost use Rattle.std.specs.Prelude.{◌≡◌};
ghost use Rattle.gw_gate.specs.Replies.{closed_by};
ghost use Rattle.gw_gate.specs.Values.{reply_seen};
ghost use Rattle.gw_crew.specs.Cutting.{Cuts};

use crate::door::Door;
use gw_gate::{Chapter, Event, Reply};
use std::alloc::AllocError;

// The chapter that a reply to Cut gives.
fn closed_in(reply: Reply) -> Option<Chapter>
    ensures { result ≡ closed_by (reply_seen reply) }
{
    match reply {
        Reply::Closed(chapter) => Some(chapter),
        _ => None,
    }
}

/// Closes the gate's journal, in one event, and gives it as a chapter, or None where something is pending. It leaves no note.
/// The one error is an allocation failure.
#[tactic(auto, using(crate::specs::Cutting::memory, crate::proofs::Cutting::cuts_so, crate::proofs::Cutting::same_so))]
pub fn cut<D: Door>(door: &mut D) -> Result<Option<Chapter>, AllocError>
    ensures cut { Cuts (D.noted door.old) result (D.noted door.new) }
    ensures same { D.noted door.new ≡ D.noted door.old }
{
    match door.call(Event::Cut) {
        Ok(reply) => Ok(closed_in(reply)),
        Err(_) => Err(AllocError),
    }
}
