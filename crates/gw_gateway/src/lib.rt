//! A gateway whose journal is its log.
//!
//! An [`Office`] lies under the journal's lock: the ledger, and the plan in force. [`AtLog`] judges a sender's messages. What it accepts
//! stands in the log, and on the disk, before its answer goes out: so [`answer_sender`] says.
#![tactic(auto)]

mod fault;
mod judge;
pub mod laws;
mod office;
mod plans;
mod sender;
mod waiting;

pub use fault::PutFault;
pub use judge::{AtLog, Bells, Times};
pub use office::{ByPlans, Change, Office};
pub use plans::InForce;
pub use sender::answer_sender;
pub use waiting::Waiting;
