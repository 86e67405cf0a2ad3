//! Sends a receiver what waits for it.
//!
//! A forwarder sends the records of an [`Outbox`] over a line, each once its predecessor is acknowledged and settled.
#![tactic(auto)]

mod fault;
mod forwarding;
mod laws;
mod outbox;

pub use fault::{ForwardFault, OutboxFault};
pub use forwarding::{Ended, forward};
pub use laws::named_by_its_header;
pub use outbox::Outbox;
