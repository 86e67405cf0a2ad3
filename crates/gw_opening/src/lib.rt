//! How the log of a gateway's folder is opened, or begun where there is none.
//!
//! [`open`] gives a [`Begun`]: the log, and the state of all its records. Of it [`Begun::into_ledger`] makes the ledger of a journal.
#![tactic(auto)]

mod begun;
mod fault;
mod found;
pub mod laws;
mod opening;

pub use begun::Begun;
pub use fault::OpenFault;
pub use found::{Found, Had};
pub use opening::open;
