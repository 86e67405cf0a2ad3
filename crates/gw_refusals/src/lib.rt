//! Tests of calls with each growth refused in turn. They are apart from the crates under test, since a crate with tests is proved twice.
#![tactic(auto)]

#[cfg(test)]
mod answers;
#[cfg(test)]
mod contents;
#[cfg(test)]
mod desks;
#[cfg(test)]
mod plans;
pub mod sweeps;
#[cfg(test)]
mod texts;
