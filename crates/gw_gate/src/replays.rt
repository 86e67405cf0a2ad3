//! Replay of events at a new gate.
ghost use Rattle.std.specs.Prelude.{◌≡◌, map, IfOk, IfErr};
ghost use Rattle.std.specs.Vec.Iter.{into_iter_items};
ghost use Rattle.gw_gate.specs.Lawful.{IsLawful};
ghost use Rattle.gw_gate.specs.Headline.{IsTranslated};
ghost use Rattle.gw_gate.specs.Meaning.{Makes};
ghost use Rattle.gw_gate.specs.Replay.{Leads, Replays, number_of};
ghost use Rattle.gw_gate.specs.Values.{answered_seen, event_seen, replay_seen};
ghost use Rattle.gw_gate.specs.declared.replays.ReplayFault.TheVariants as fault;

use crate::event::{Event, Reply};
use crate::gate::Gate;
use std::alloc::Global;
use std::vec::IntoIter;
use thiserror::Error;

/// Why events can't be replayed. The numbers are 1 and 2, in this order.
#[derive(Clone, Copy, Debug, Error)]
pub enum ReplayFault {
    #[error("out of memory")]
    Memory,
    #[error("the first event does not bring a plan")]
    NoPlan,
}

impl ReplayFault {
    /// The number of the fault. It takes no memory.
    pub fn number(&self) -> u8
        ensures { result ≡ number_of self.now }
    {
        match self {
            ReplayFault::Memory => 1,
            ReplayFault::NoPlan => 2,
        }
    }
}

// The gate's replies to these events in turn.
fn follow(
    alloc: Global,
    mut gate: Gate,
    events: IntoIter<Event>,
) -> Result<(Gate, Vec<Reply>), ReplayFault>
    ensures gate { IfOk result (λ r. Leads gate (map event_seen (into_iter_items events)) (answered_seen (r.0, r.1.items))) }
    ensures lawful { IfOk result (λ r. IsLawful (IsTranslated Makes) r.0) }
    ensures memory { IfErr result (λ e. e ≡ fault.Memory) }
{
    let mut replies = Vec::new(alloc);
    for event in events {
        let Ok(reply) = gate.step(event) else {
            return Err(ReplayFault::Memory);
        };
        if replies.push(reply).is_err() {
            return Err(ReplayFault::Memory);
        }
    }
    // Called for its clause: the journal is lawful.
    let _ = gate.journal();
    Ok((gate, replies))
}

/// Replays events at a new gate. Returns the replies and the gate.
///
/// The first event is a Swap, whose plan opens the gate; it has no reply. For any other list the fault is NoPlan.
/// The only other fault is an allocation failure. The events aren't returned.
pub fn replay(alloc: Global, events: Vec<Event>) -> Result<(Gate, Vec<Reply>), ReplayFault>
    ensures replies { Replays (map event_seen events.items) (replay_seen result) }
    ensures lawful { IfOk result (λ r. IsLawful (IsTranslated Makes) r.0) }
{
    let mut events = events.into_iter();
    let Some(Event::Swap(plan)) = events.next() else {
        return Err(ReplayFault::NoPlan);
    };
    match Gate::begin(alloc, plan) {
        Ok(gate) => follow(alloc, gate, events),
        Err(_) => Err(ReplayFault::Memory),
    }
}
