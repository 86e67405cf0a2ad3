//! The parties that work at a gate: doors (handles that note the replies), workers, couriers, swaps of plans, and cuts that close a chapter.
//!
//! All of them rest on the law of [`Door`] alone.
#![tactic(auto)]

mod blocks;
mod clock;
mod couriers;
mod cuts;
mod door;
mod note;
mod pause;
mod solo;
mod swaps;
mod workers;

pub use clock::Clock;
pub use couriers::{ReleaseReply, carry, courier, release};
pub use cuts::cut;
pub use door::{Door, Phase};
pub use note::{Note, Receipt};
pub use pause::Pause;
pub use solo::{Solo, keep, room_for, step};
pub use swaps::{SwapFault, swap};
pub use workers::worker;
