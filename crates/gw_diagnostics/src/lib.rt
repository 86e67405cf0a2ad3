//! What a person reads of a text or a message that is refused: where it is wrong, what is wrong there, and what to do.
#![tactic(auto)]

mod above;
mod advice;
mod breaches;
mod chosen;
mod contents;
mod elements;
mod expected;
mod hints;
mod identity;
mod judged;
mod left_out;
mod line_hints;
mod places;
mod refusals;
mod runnable;
mod skeleton;
mod subjects;
mod unreached;
mod witnesses;
mod words;

pub use advice::{Refusal, Refused, Written};
pub use breaches::{BreachReport, Form};
pub use contents::{map_at, map_contents, plan_contents, profile_contents, profile_named};
pub use hints::print_hints;
pub use identity::identity_map;
pub use judged::{Judged, ProfilePair, judge};
pub use left_out::leavings;
pub use refusals::{refused_map, refused_plan, refused_profile, write_place};
pub use witnesses::counterexamples;
