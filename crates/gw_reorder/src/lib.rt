//! Releases values in the order of their numbers, each once, in whatever order they come.
//!
//! A [`Desk`] knows which numbers are due, in rising order, and keeps a value for each of them until its turn.
//! So what was accepted first is delivered first.
#![tactic(auto)]

mod desk;
pub mod laws;
mod search;

pub use desk::{Desk, Held, Status};
