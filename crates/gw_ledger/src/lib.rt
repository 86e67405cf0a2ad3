//! What lies under a gateway's lock: a journal of events, and the state of all events that were put.
//!
//! Every record that a [`Ledger`] puts spells an event that may follow those before it.
#![tactic(auto)]

mod accepting;
mod backlogs;
mod books;
mod checkpoints;
mod events;
mod fault;
pub mod laws;
mod ledger;
mod messages;
mod needs;
mod scans;

pub use accepting::Look;
pub use backlogs::Backlog;
pub use checkpoints::Checkpoints;
pub use fault::{LedgerFault, ScanFault};
pub use ledger::Ledger;
pub use messages::Message;
pub use needs::{Mark, begun_by, needed_from, young_from};
pub use scans::{Found, Scan};
