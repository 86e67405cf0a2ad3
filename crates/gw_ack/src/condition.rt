//! The conditions that an answer reports, and where they were found.
ghost use Rattle.std.specs.Prelude.{◌≡◌, map, IfOk, OnOk};
ghost use Rattle.gw_er7.specs.Text.{IsCanonical};
ghost use Rattle.gw_ack.specs.Conditions.{condition, named, said, location_for};

use gw_er7::is_segment_name;
use itoa::Buffer;
use std::alloc::{AllocError, Global};

/// The text of a condition code (HL7 table 0357).
pub(crate) fn condition<'a>(code: u16) -> &'a [u8]
    ensures { result.now ≡ condition code }
{
    match code {
        100 => b"Segment sequence error",
        101 => b"Required field missing",
        102 => b"Data type error",
        103 => b"Table value not found",
        200 => b"Unsupported message type",
        201 => b"Unsupported event code",
        202 => b"Unsupported processing id",
        203 => b"Unsupported version id",
        _ => b"Application internal error",
    }
}

/// A segment name, nothing where the bytes are none.
pub(crate) fn named(name: &[u8]) -> &[u8]
    ensures { result.now ≡ named name.now }
{
    if is_segment_name(name) { name } else { &[] }
}

/// A number of a location in decimal, nothing for 0.
#[tactic(auto, using(crate::proofs::AnswerRows::said_is_canonical))]
pub(crate) fn said(alloc: Global, number: usize) -> Result<Vec<u8>, AllocError>
    ensures value { IfOk result (λ text. text.items ≡ said number) }
    ensures canonical { OnOk result (IsCanonical (said number)) }
{
    if number == 0 {
        return Ok(Vec::new(alloc));
    }
    Vec::from_slice(alloc, Buffer::new().format(number).as_bytes())
}

/// Where the reason of a rejection was found.
pub(crate) fn location_for<'a>(code: u16) -> &'a [&'a [u8]]
    ensures { map (λ part. part.now) result.now ≡ location_for code }
{
    match code {
        200 => &[b"MSH", b"1", b"9", b"1", b"1"],
        201 => &[b"MSH", b"1", b"9", b"1", b"2"],
        202 => &[b"MSH", b"1", b"11", b"1", b"1"],
        203 => &[b"MSH", b"1", b"12", b"1", b"1"],
        _ => &[],
    }
}
