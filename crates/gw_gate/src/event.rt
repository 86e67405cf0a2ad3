//! The events that come to a gate, its replies, and the entries of its journal.
ghost use Rattle.std.specs.Prelude.{◌≡◌};
ghost use Rattle.gw_gate.specs.Entries.{entry_seen};
ghost use Rattle.gw_gate.specs.Values.{conforming_in};
ghost use Rattle.gw_gate.specs.own.Books.{accepted_by};

use crate::chapter::Chapter;
use gw_plan::{Conforming, Plan, Translated};
use std::mem::size_of;
use std::sync::Arc;

/// An event that comes to a gate.
#[derive(Drop)]
pub enum Event {
    /// Asks for the plan that is in force.
    Look,
    /// A message that was admitted arrives.
    Arrive(Arc<Conforming>),
    /// A message arrives that was refused under this code (HL7 table 0357).
    Refuse(u16),
    /// A plan to take the place of the one in force.
    Swap(Arc<Plan>),
    /// Asks for the next pair to be worked on.
    Take,
    /// The translation of the message that was accepted under this number.
    Put { n: u64, translated: Arc<Translated> },
    /// Asks that a pair be worked on again.
    Reissue { n: u64, receiver: usize },
    /// Asks for the next translation for this receiver.
    Release(usize),
    /// Asks that the journal be closed, and an empty one opened.
    Cut,
}

/// The reply of a gate to an event.
#[derive(Drop)]
pub enum Reply {
    /// To Look: the plan in force, with its version.
    Current {
        version: u64,
        plan: Arc<Plan>,
    },
    /// To Arrive: the number of the acceptance, from 0, and of the arrival, from 1.
    Accepted {
        n: u64,
        arrival: u64,
    },
    /// To Arrive: the message was admitted under another plan or version than this.
    Stale {
        version: u64,
        conforming: Arc<Conforming>,
    },
    /// To Refuse: the number of the arrival, from 1.
    Refused {
        arrival: u64,
    },
    /// To Swap: the version of the plan, which is in force now.
    Swapped {
        version: u64,
    },
    /// To Swap: the plan's receivers aren't the gate's.
    Unlike(Arc<Plan>),
    /// To Take: the receiver, and the message that was accepted under the number.
    Job {
        n: u64,
        receiver: usize,
        conforming: Arc<Conforming>,
    },
    /// To Take: every pair was taken.
    Idle,
    /// To Put: the translation is kept until its turn.
    Kept,
    /// To Put: a translation was kept for the pair before.
    Repeat(Arc<Translated>),
    /// To Put and Reissue: the pair isn't due, or the translation is of another message, version or plan.
    Stranger(Option<Arc<Translated>>),
    /// To Reissue: the pair will be taken again.
    Issued,
    /// To Reissue: a translation was kept for the pair.
    Done,
    /// To Release: the translation of the message accepted under the number.
    Out {
        n: u64,
        translated: Arc<Translated>,
    },
    /// To Release: nothing is kept for the next number.
    Nothing,
    /// To Cut: something is still to be taken or released.
    Pending,
    /// To Cut: the journal that was closed.
    Closed(Chapter),
    /// To any event whose entry the journal has no room for.
    Full(Event),
}

/// An entry of a gate's journal.
pub enum Entry {
    /// A message was accepted under this number, from 0; its arrival is numbered from 1.
    Accepted {
        n: u64,
        arrival: u64,
        conforming: Arc<Conforming>,
    },
    /// The arrival of this number was refused under this code (HL7 table 0357).
    Refused {
        arrival: u64,
        code: u16,
    },
    /// The plan is in force from here on, as this version.
    Swapped {
        version: u64,
        plan: Arc<Plan>,
    },
    /// The pair was taken.
    Job {
        n: u64,
        receiver: usize,
    },
    /// A translation for a pair of this message is kept.
    Kept {
        n: u64,
        translated: Arc<Translated>,
    },
    /// The pair was issued again.
    Issued {
        n: u64,
        receiver: usize,
    },
    /// The translation was released to the receiver.
    Out {
        n: u64,
        receiver: usize,
        translated: Arc<Translated>,
    },
}

// Written out, so that no crate above proves again how its parts are dropped.
impl Drop for Entry {
    fn drop(self) {
        match self {
            Entry::Accepted {
                n: _,
                arrival: _,
                conforming: _,
            } => {}
            Entry::Refused {
                arrival: _,
                code: _,
            } => {}
            Entry::Swapped {
                version: _,
                plan: _,
            } => {}
            Entry::Job { n: _, receiver: _ } => {}
            Entry::Kept {
                n: _,
                translated: _,
            } => {}
            Entry::Issued { n: _, receiver: _ } => {}
            Entry::Out {
                n: _,
                receiver: _,
                translated: _,
            } => {}
        }
    }
}

impl Entry {
    // The message that this entry accepts, if it is an acceptance.
    pub(crate) fn accepted(&self) -> Option<&Arc<Conforming>>
        ensures { conforming_in result ≡ accepted_by (entry_seen self.now) }
    {
        match self {
            Entry::Accepted { conforming, .. } => Some(conforming),
            _ => None,
        }
    }
}

// An entry takes at most this much memory, beside what its Arcs share.
const _: () = prove!(size_of::<Entry>() <= 64);
