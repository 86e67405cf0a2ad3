//! The gate: one journal, one step.
#![tactic(auto)]

mod books;
mod chapter;
mod copies;
mod desks;
mod event;
mod gate;
pub mod laws;
mod plans;
mod replays;
mod same;

pub use books::MAX_ENTRIES;
pub use chapter::{Chapter, Start};
pub use event::{Entry, Event, Reply};
pub use gate::Gate;
pub use plans::{is_under, receiver_at, receiver_count};
pub use replays::{ReplayFault, replay};
