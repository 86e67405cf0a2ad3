//! A gate behind its lock, and the passes that threads step it through.
//!
//! Threads step a [`LockedGate`] one event at a time, each through a [`Pass`] of its own, which notes the replies.
//! It also hands on what works at any door, and streams, for callers that need no other crate of these layers.
#![tactic(auto)]

mod awaited;
mod counted;
mod locked;
mod pass;

pub use counted::Counted;
pub use gw_crew::{
    Clock, Door, Note, Pause, Phase, Receipt, Solo, SwapFault, courier, cut, swap, worker,
};
pub use gw_stream::{
    Counts, Failed, Reads, RunFault, Sink, Source, Writes, answer_stream, serve_once,
};
pub use locked::LockedGate;
pub use pass::{Pass, Receipts};
