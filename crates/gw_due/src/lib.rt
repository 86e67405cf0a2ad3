//! What a gateway's log says, and what is due by it.
//!
//! A record of the log is an [`Event`] with its time. What is due to a receiver, what it has passed, and which plan a message is under
//! are functions of the events alone.
#![tactic(auto)]

mod checkpoint;
mod event;
mod fault;
mod following;
pub mod laws;
mod reading;
mod receiver;
mod starting;
mod state;
mod writing;

pub use event::{Entry, Event, How};
pub use fault::{ReadFault, SpellFault, StartFault, StateFault};
pub use reading::read;
pub use receiver::Receiver;
pub use starting::start;
pub use state::State;
pub use writing::spell;
