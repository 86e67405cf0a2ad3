//! Holds what the passes of a locked gate noted against its journal, and reports what the gate did.
#![tactic(auto)]

mod audit;
mod delivery_queue;
mod job_index;
mod join;
pub mod laws;
mod note_check;
mod parts;
mod plan_index;
mod receipt_counts;
mod report;
mod turning_points;

pub use join::join_all;
pub use report::Report;
