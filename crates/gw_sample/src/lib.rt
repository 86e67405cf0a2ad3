//! Samples: messages that conform to a message profile, made up from the profile alone (HL7 v2.5.1 chapter 2, 2.12).
#![tactic(auto)]

mod drawing;
mod extent;
mod fewest_texts;
pub mod laws;
mod leaf;
mod least;
mod parts;
mod sampling;
mod text;

pub use extent::Extent;
pub use leaf::Texts;
pub use sampling::sample;
