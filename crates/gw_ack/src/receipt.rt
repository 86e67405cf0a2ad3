//! What the other side answered.
ghost use Rattle.std.specs.Prelude.{◌≡◌, List, Some, Ok, Err};
ghost use Rattle.gw_er7.specs.declared.fault.ReadFault.{ReadFault};
ghost use Rattle.gw_er7.specs.Faults.{Faulty};
ghost use Rattle.gw_er7.specs.Message.{SegmentValue, IsMessage};
ghost use Rattle.gw_er7.specs.Reading.{Reads};
ghost use Rattle.gw_ack.specs.declared.receipt.Ack.{Ack};
ghost use Rattle.gw_ack.specs.Acknowledged.{Acknowledges, IsRead, acknowledgment, code_in, in_msa, number_of};

use crate::header::first_text;
use gw_er7::{Message, ReadFault, Segment, read, reads_once};
use std::alloc::Global;
use thiserror::Error;

/// An acknowledgment code of the original mode (HL7 table 0008).
#[derive(Clone, Copy, PartialEq, Eq, Debug, Drop)]
pub enum Ack {
    /// Accepted.
    AA,
    /// The message has an error.
    AE,
    /// Rejected.
    AR,
}

/// Why a content acknowledges nothing. The numbers are 1 to 4, in this order.
#[derive(Clone, Copy, PartialEq, Eq, Debug, Error)]
pub enum AckFault {
    /// A growth was refused.
    #[error("out of memory")]
    Memory,
    /// The content is no message.
    #[error("the acknowledgment can't be read")]
    Unreadable,
    /// It has no MSA segment, or the first has none of the three codes.
    #[error("not an acknowledgment")]
    NotAnAck,
    /// It acknowledges another message.
    #[error("the acknowledgment of another message")]
    OtherMessage,
}

impl AckFault {
    /// The number of the fault. It takes no memory.
    pub fn number(&self) -> u8
        ensures { result ≡ number_of self.now }
    {
        match self {
            AckFault::Memory => 1,
            AckFault::Unreadable => 2,
            AckFault::NotAnAck => 3,
            AckFault::OtherMessage => 4,
        }
    }
}

/// The code that a text is.
fn code_in(text: &[u8]) -> Option<Ack>
    ensures { result ≡ code_in text.now }
{
    if text == b"AA".as_slice() {
        return Some(Ack::AA);
    }
    if text == b"AE".as_slice() {
        return Some(Ack::AE);
    }
    if text == b"AR".as_slice() {
        return Some(Ack::AR);
    }
    None
}

/// What an MSA says of the message of this control id.
fn in_msa(msa: &Segment<'_>, control: &[u8]) -> Result<Ack, AckFault>
    ensures { result ≡ in_msa (Some msa.now) control.now }
{
    match code_in(first_text(msa, 1)) {
        None => Err(AckFault::NotAnAck),
        Some(ack) => {
            if first_text(msa, 2) == control {
                Ok(ack)
            } else {
                Err(AckFault::OtherMessage)
            }
        }
    }
}

/// What a message says as the acknowledgment of the message of this control id.
fn acknowledgment(message: &Message, control: &[u8]) -> Result<Ack, AckFault>
    ensures { result ≡ acknowledgment message.now control.now }
{
    for i in 0..message.segment_count() {
        let segment = message.segment(i);
        if segment.name() == *b"MSA" {
            return in_msa(&segment, control);
        }
    }
    Err(AckFault::NotAnAck)
}

/// Reads a content as the acknowledgment of the message of this control id (its MSH-10, first subcomponent). It looks at the first MSA alone.
///
/// The faults are `Unreadable` where the content is no message, `NotAnAck` where there is no MSA or its code is none of the three,
/// `OtherMessage` where it answers another message, and `Memory`.
pub fn read_ack(alloc: Global, content: &[u8], control: &[u8]) -> Result<Ack, AckFault>
    ensures read { (message : List SegmentValue) → IsMessage message → Reads content.now message → IsRead result (acknowledgment message control.now) }
    ensures acknowledged { (ack : Ack) → Acknowledges content.now control.now ack → IsRead result (Ok ack) }
    ensures unreadable { (fault : ReadFault) → Faulty content.now fault → result ≡ Err AckFault.Unreadable }
{
    // (a law: a content reads as one message, or has one fault)
    reads_once();
    match read(alloc, content) {
        Ok(message) => {
            // (its clause says what every message keeps)
            let _count = message.segment_count();
            acknowledgment(&message, control)
        }
        Err(ReadFault::Memory) => Err(AckFault::Memory),
        Err(_) => Err(AckFault::Unreadable),
    }
}
