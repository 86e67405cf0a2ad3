//! Runs over bytes: streams of framed messages, answered through any reader and writer that can fail.
//!
//! [`answer_blocks`] answers each block of a stream as a [`Judge`] settles it, [`answer_stream`] by one profile
//! (MLLP Release 1; HL7 v2.5.1 chapter 2, 2.9.2: original mode).
//! [`serve_once`] answers each block of a stream under a plan, and sends its receivers what the plan makes of it.
#![tactic(auto)]

mod block_reader;
mod by_profile;
mod counts;
mod delivery;
mod exchange;
mod fault;
mod frame;
mod handed;
mod judge;
pub mod laws;
mod reads;
mod run;
mod send;
mod sink;
mod source;
mod stream;
mod under_plan;
mod writes;

pub use counts::Counts;
pub use fault::RunFault;
pub use frame::block_of;
pub use handed::Handed;
pub use judge::{Judge, Outcome, Withheld};
pub use reads::Reads;
pub use run::answer_blocks;
pub use send::send_all;
pub use sink::Sink;
pub use source::{Failed, Source};
pub use stream::{answer_stream, serve_once};
pub use writes::Writes;
