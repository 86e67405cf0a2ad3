//! Original-mode acknowledgments: the content of an answer, and what an answer says (HL7 v2.5.1 chapter 2, 2.9).
//!
//! [`answer`] makes the content that says a [`Reply`]: AA, AE with the place of a breach, or AR. [`read_ack`] reads what the other side answered.
#![tactic(auto)]

mod condition;
mod content;
mod copies;
mod header;
mod receipt;
mod reply;
mod rows;
mod stamp;

pub use content::{accept_ack, answer, error_ack, reject_ack};
pub use header::{Header, control_of};
pub use receipt::{Ack, AckFault, read_ack};
pub use reply::{INTERNAL, Reply};
pub use stamp::Stamp;
