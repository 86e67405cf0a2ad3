//! Sessions: messages of a sender arrive at a gate, and each is answered.
#![tactic(auto)]

mod arrival;
mod at_door;
mod clock;
mod doors;
mod sessions;

pub use clock::FixedClock;
pub use sessions::session;
