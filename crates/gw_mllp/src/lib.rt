//! MLLP Release 1 framing: the blocks of a stream that comes in any pieces, and a block as bytes.
//!
//! A block is VT, its content, FS and CR. It ends at the first FS that CR directly follows. Bytes between blocks are skipped.
//! The content of a block that is read has at most 1,048,576 bytes.
//!
//! [`Decoder`] reads blocks, [`write_block`] writes one. Source: HL7 Transport Specification, MLLP Release 1.
#![tactic(auto)]

mod blocks;
mod bytes;
mod decoder;
mod fault;
mod laws;
mod reach;
mod tail;
mod write;

pub use decoder::Decoder;
pub use fault::FrameFault;
pub use laws::{long_exactly, one_cut, one_decoder};
pub use write::{is_content, write_block};
