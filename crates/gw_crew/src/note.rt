//! What a door notes of its replies.
use gw_gate::Entry;
use gw_plan::{Conforming, Plan};
use std::sync::Arc;

/// An entry, with its number over all chapters, from 0.
#[derive(Drop)]
pub struct Receipt {
    pub at: usize,
    pub entry: Entry,
}

/// What is noted of a reply. A Cut, a swap of unlike receivers and a result that isn't kept leave no note.
#[derive(Drop)]
pub enum Note {
    /// Current: the version and plan in force.
    Look(u64, Arc<Plan>),
    /// Stale: the version in force, and the message that was admitted under another.
    Stale(u64, Arc<Conforming>),
    /// Full: an entry found no room in the journal.
    Full,
    /// Idle: every pair was taken.
    Idle,
    /// Nothing: no translation was to be given out for this receiver.
    Nothing(usize),
    /// Any reply that added an entry.
    Added(Receipt),
}
