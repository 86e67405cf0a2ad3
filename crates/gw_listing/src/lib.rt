//! What a gateway's log says, record by record, in words.
#![tactic(auto)]

mod fault;
pub mod laws;
mod lines;
mod listing;
mod names;
mod opening;
mod walk;
mod words;

pub use fault::ListFault;
pub use lines::{Calendar, Form};
pub use listing::{Unlisted, list};
pub use names::Names;
pub use opening::open_log;
pub use walk::Walk;
pub use words::{Said, message, say};
