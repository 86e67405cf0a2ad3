//! Whether a message conforms to a profile: its tree where it does, and else what it breaks first (HL7 v2.5.1 chapter 2, 2.12).
#![tactic(auto)]

mod breach;
mod build;
mod collect;
mod cursor;
mod fields;
pub mod laws;
mod listing;
mod next;
mod occ;
mod occurrences;
mod search;
mod tree;
mod verdict;
mod visitor;
mod walk;

pub use breach::{Breach, Kind};
pub use collect::breaches;
pub use next::next_names;
pub use occ::Occ;
pub use tree::Tree;
pub use verdict::{Verdict, first_breach, validate};
