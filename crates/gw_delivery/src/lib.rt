//! The receivers' side of a gateway on its log.
//!
//! [`Pending`] gives a forwarder what is next for its receiver, by the plan of its place. [`Pages`] reads the log's files on, and [`Plans`] keeps the plans
//! that what waits is under.
#![tactic(auto)]

mod fault;
mod finder;
mod keeping;
pub mod laws;
mod made;
mod next;
mod pages;
mod past;
mod pending;
mod plans;
mod search;
mod sending;
mod sight;
mod under;
mod walk;

pub use fault::PageFault;
pub use keeping::{Keeper, Refused};
pub use pages::{Page, Pages, Tail};
pub use past::Past;
pub use pending::{Line, Pending};
pub use plans::Plans;
pub use search::{Fate, Filed, Search, Stood, Wanted};
pub use sending::forward_due;
