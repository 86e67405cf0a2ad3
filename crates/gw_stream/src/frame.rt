//! Contents and messages as blocks.
ghost use Rattle.std.specs.Prelude.{◌≡◌, IfOk};
ghost use Rattle.gw_er7.specs.Written.{written};
ghost use Rattle.gw_mllp.specs.Stream.{HasNoEnd, block};

use gw_er7::{Message, write};
use gw_mllp::write_block;
use std::alloc::{AllocError, Global};

/// The bytes of a block that aren't its content's: VT, FS and CR.
const FRAME_SIZE: usize = 3;

/// The block of a content. It takes its room at once.
pub(crate) fn framed(alloc: Global, content: &[u8]) -> Result<Vec<u8>, AllocError>
    requires { HasNoEnd content.now }
    ensures { IfOk result (λ framed. framed.items ≡ block content.now) }
{
    let mut framed = Vec::with_capacity(alloc, content.len() + FRAME_SIZE)?;
    write_block(&mut framed, content)?;
    Ok(framed)
}

/// The block of a message. The one error is an allocation failure.
#[tactic(auto, using(crate::proofs::Replying::written_has_no_end))]
pub fn block_of(alloc: Global, message: &Message) -> Result<Vec<u8>, AllocError>
    ensures { IfOk result (λ bytes. bytes.items ≡ block (written message.now)) }
{
    prove!(message.segment_count() > 0);
    let content = write(alloc, message)?;
    framed(alloc, &content)
}
