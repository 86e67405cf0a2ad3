//! How a message is written (HL7 v2.5.1 chapter 2, 2.6 "Message construction rules").
ghost use Rattle.std.specs.Prelude.{◌≡◌, ◌+◌, ◌*◌, ◌-◌, ◌^◌, ◌≤◌, length, min, IfOk};
ghost use Rattle.std.specs.List.{sum_by};
ghost use Rattle.std.specs.FinMap as texts;
ghost use Rattle.gw_er7.specs.Reading.{Reads};
ghost use Rattle.gw_er7.specs.Written.{written};

use crate::message::Message;
use std::alloc::{AllocError, Global};

/// Room for the lines of the segments, or about that, which is taken at once.
fn room_for(message: &Message) -> usize
    ensures { result ≡ min (sum_by (λ s. length (texts.entries s.at) * 8 + 4) message.now) (2 ^ 64 - 1) }
{
    let mut room: usize = 0;
    for i in 0..message.segment_count() {
        room = room.saturating_add(message.segment(i).room());
    }
    room
}

/// The bytes of a message over the delimiters `|^~\&`: a CR ends each segment, and no separator is written that could be left out. The one error is allocation failure.
pub fn write(alloc: Global, message: &Message) -> Result<Vec<u8>, AllocError>
    ensures value { IfOk result (λ content. content.items ≡ written message.now) }
    ensures again { IfOk result (λ content. length message.now ≤ 10000 → Reads content.items message.now) }
{
    let mut content = Vec::with_capacity(alloc, room_for(message))?;
    for i in 0..message.segment_count() {
        message.segment(i).write(&mut content)?;
    }
    Ok(content)
}
