//! What an answer takes from the header of the message that it answers.
ghost use Rattle.std.specs.Prelude.{◌≡◌, IfOk};
ghost use Rattle.gw_er7.specs.Message.{text_of};
ghost use Rattle.gw_er7.specs.Written.{repetition_text};
ghost use Rattle.gw_ack.specs.Answers.{or_production};
ghost use Rattle.gw_ack.specs.Headers.{control_of, header_of, blank, IsHeaderValue};
ghost use Rattle.gw_ack.specs.Seen.{text_in};

use crate::copies::{copy_repetition, copy_text};
use gw_er7::{Message, Place, Segment};
use std::alloc::{AllocError, Global};
use std::marker::Model;

/// Bytes of a header's texts for which room is taken at once: most take fewer.
const HEADER_ROOM: usize = 128;

/// Where a text lies among the bytes of a header.
#[derive(Clone, Copy)]
pub(crate) struct Span {
    pub(crate) from: usize,
    pub(crate) len: usize,
}

/// Where each text of a header lies.
#[derive(Clone, Copy)]
pub(crate) struct HeaderSpans {
    sending_application: Span,
    sending_facility: Span,
    receiving_application: Span,
    receiving_facility: Span,
    event: Span,
    control: Span,
    processing: Span,
}

/// What an answer takes from the header of a message: MSH-3 to MSH-6 and MSH-11, repetition 1 as it is written, MSH-9.2 and MSH-10.
pub struct Header {
    bytes: Vec<u8>,
    spans: HeaderSpans,
}

// (by hand: so no crate above proves again how its parts are dropped)
impl Drop for Header {
    fn drop(self) {
        let Header { bytes: _, spans: _ } = self;
    }
}

impl Model for Header {
    ghost use Rattle.gw_ack.specs.Headers.{HeaderValue};
    ghost use Rattle.gw_ack.specs.Seen.{seen_header};
    ghost use Rattle.gw_ack.specs.own.Kept.{IsKept};

    ghost Value = { HeaderValue };

    ghost view = { λ h. seen_header h.bytes.items h.spans };

    ghost invariant = { λ h. IsKept h.bytes.items h.spans };
}

/// The text of a span. It takes no memory.
fn text_in(bytes: &[u8], span: Span) -> &[u8]
    ensures { result.now ≡ text_in bytes.now span }
{
    let (_, behind) = bytes.split_at(span.from.min(bytes.len()));
    &behind[..span.len.min(behind.len())]
}

/// The first subcomponent of a field. It takes no memory.
pub(crate) fn first_text<'a>(segment: &Segment<'a>, field: usize) -> &'a [u8]
    ensures { result.now ≡ text_of segment.now.at field 1 1 1 }
{
    segment.text(Place {
        field,
        rep: 1,
        comp: 1,
        sub: 1,
    })
}

/// The control id of a message, by its first subcomponent. It takes no memory.
pub fn control_of(message: &Message) -> &[u8]
    ensures { result.now ≡ control_of message.now }
{
    // (its clause says that a message has a segment)
    let _count = message.segment_count();
    first_text(&message.segment(0), 10)
}

impl Header {
    /// The header of a message. The one error is an allocation failure.
    pub fn of(alloc: Global, message: &Message) -> Result<Header, AllocError>
        ensures { IfOk result (λ header. header ≡ header_of message.now) }
    {
        // (its clause says what every message keeps)
        let _count = message.segment_count();
        let msh = message.segment(0);
        // (its clause says what every segment keeps)
        let _values = msh.value_count();
        let event = Place {
            field: 9,
            rep: 1,
            comp: 2,
            sub: 1,
        };
        let mut bytes = Vec::with_capacity(alloc, HEADER_ROOM)?;
        let mut next = 0;
        let sending_application = copy_repetition(&mut bytes, &mut next, &msh, 3)?;
        let sending_facility = copy_repetition(&mut bytes, &mut next, &msh, 4)?;
        let receiving_application = copy_repetition(&mut bytes, &mut next, &msh, 5)?;
        let receiving_facility = copy_repetition(&mut bytes, &mut next, &msh, 6)?;
        let event = copy_text(&mut bytes, msh.text(event))?;
        let control = copy_text(&mut bytes, first_text(&msh, 10))?;
        let processing = copy_repetition(&mut bytes, &mut next, &msh, 11)?;
        let spans = HeaderSpans {
            sending_application,
            sending_facility,
            receiving_application,
            receiving_facility,
            event,
            control,
            processing,
        };
        Ok(Header { bytes, spans })
    }

    /// The header of a content that can't be read: of a message whose fields are all absent. It takes no memory.
    pub fn blank(alloc: Global) -> Header
        ensures { result ≡ blank }
    {
        let nowhere = Span { from: 0, len: 0 };
        Header {
            bytes: Vec::new(alloc),
            spans: HeaderSpans {
                sending_application: nowhere,
                sending_facility: nowhere,
                receiving_application: nowhere,
                receiving_facility: nowhere,
                event: nowhere,
                control: nowhere,
                processing: nowhere,
            },
        }
    }

    /// The sending application as it is written, MSH-3.
    pub(crate) fn sending_application(&self) -> &[u8]
        ensures { result.now ≡ repetition_text self.now.sending_application }
    {
        text_in(&self.bytes, self.spans.sending_application)
    }

    /// The sending facility as it is written, MSH-4.
    pub(crate) fn sending_facility(&self) -> &[u8]
        ensures { result.now ≡ repetition_text self.now.sending_facility }
    {
        text_in(&self.bytes, self.spans.sending_facility)
    }

    /// The receiving application as it is written, MSH-5.
    pub(crate) fn receiving_application(&self) -> &[u8]
        ensures { result.now ≡ repetition_text self.now.receiving_application }
    {
        text_in(&self.bytes, self.spans.receiving_application)
    }

    /// The receiving facility as it is written, MSH-6.
    pub(crate) fn receiving_facility(&self) -> &[u8]
        ensures { result.now ≡ repetition_text self.now.receiving_facility }
    {
        text_in(&self.bytes, self.spans.receiving_facility)
    }

    /// The trigger event, MSH-9.2.
    pub(crate) fn event(&self) -> &[u8]
        ensures { result.now ≡ self.now.event }
    {
        text_in(&self.bytes, self.spans.event)
    }

    /// The control id, MSH-10.
    pub(crate) fn control(&self) -> &[u8]
        ensures value { result.now ≡ self.now.control }
        ensures header { IsHeaderValue self.now }
    {
        text_in(&self.bytes, self.spans.control)
    }

    /// The processing id as it is written, MSH-11: production where the message says none.
    pub(crate) fn processing(&self) -> &[u8]
        ensures { result.now ≡ repetition_text (or_production self.now.processing) }
    {
        let text = text_in(&self.bytes, self.spans.processing);
        if text.is_empty() {
            return b"P";
        }
        text
    }
}
