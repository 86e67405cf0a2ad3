//! What an answer that isn't AA says, in the words of a log.
use crate::stamps::time_in;
use gw_er7::{Message, Place, Segment};
use gw_page::Refusal;
use memchr::memmem::find;
use std::alloc::{AllocError, Global};
use std::net::SocketAddr;

/// The most bytes of MSH-3, and of MSH-4, that are noted: their length in HL7 v2.5.1, 2.15.9.
const LONGEST: usize = 227;

/// Whether an answer says AA, by its bytes: MSA-1 stands behind the name and a separator.
pub(crate) fn is_accepted(content: &[u8]) -> bool {
    let Some(at) = find(content, b"\rMSA") else {
        return false;
    };
    let code = at.saturating_add(5);
    content.get(code..code.saturating_add(2)) == Some(b"AA".as_slice())
}

/// The first segment of this name.
fn segment_of<'a>(answer: &'a Message, name: &[u8; 3]) -> Option<Segment<'a>> {
    for i in 0..answer.segment_count() {
        let segment = answer.segment(i);
        if segment.name() == *name {
            return Some(segment);
        }
    }
    None
}

/// The text of the first component of a field. It is empty where the answer has none.
pub(crate) fn word_of(
    alloc: Global,
    answer: &Message,
    name: &[u8; 3],
    field: usize,
) -> Result<Vec<u8>, AllocError> {
    let place = Place {
        field,
        rep: 1,
        comp: 1,
        sub: 1,
    };
    match segment_of(answer, name) {
        Some(segment) => Vec::from_slice(alloc, segment.text(place)),
        None => Ok(Vec::new(alloc)),
    }
}

/// The texts of a field's components. They are none where the answer hasn't the field.
fn field_of(
    alloc: Global,
    answer: &Message,
    name: &[u8; 3],
    field: usize,
) -> Result<Vec<u8>, AllocError> {
    let mut texts = Vec::new(alloc);
    let Some(segment) = segment_of(answer, name) else {
        return Ok(texts);
    };
    for comp in 1..=segment.comps(field, 1) {
        if comp > 1 {
            texts.push(b'^')?;
        }
        texts.extend_from_slice(segment.text(Place {
            field,
            rep: 1,
            comp,
            sub: 1,
        }))?;
    }
    Ok(texts)
}

/// Who sent a message: the address of the connection, and MSH-3 and MSH-4 where they could be read. An answer has these as MSH-5 and MSH-6.
fn from_of(alloc: Global, peer: SocketAddr, answer: &Message) -> Result<Vec<u8>, AllocError> {
    let mut name = field_of(alloc, answer, b"MSH", 5)?;
    let mut place = field_of(alloc, answer, b"MSH", 6)?;
    name.truncate(LONGEST);
    place.truncate(LONGEST);
    let from = if name.is_empty() && place.is_empty() {
        format!(in alloc; "{peer}")?
    } else {
        format!(in alloc; "{peer} {}|{}", name.escape_ascii(), place.escape_ascii())?
    };
    Ok(from.into_bytes())
}

/// What the page shows of an answer: of the message its sender and its place alone, no other value and no control id.
pub(crate) fn refusal_of(
    alloc: Global,
    session: u64,
    peer: SocketAddr,
    answer: &Message,
) -> Result<Refusal, AllocError> {
    Ok(Refusal {
        time: time_in(&word_of(alloc, answer, b"MSH", 7)?),
        session,
        from: from_of(alloc, peer, answer)?,
        number: word_of(alloc, answer, b"MSH", 10)?,
        answer: word_of(alloc, answer, b"MSA", 1)?,
        code: word_of(alloc, answer, b"ERR", 3)?,
        place: field_of(alloc, answer, b"ERR", 2)?,
    })
}

/// The line of an answer: its time, the session, its number, the message's control id, MSA-1, the code and place of ERR, a reason, and who sent the message.
pub(crate) fn line_of(
    alloc: Global,
    refusal: &Refusal,
    control: &[u8],
    reason: &str,
) -> Result<String, AllocError> {
    let session = refusal.session;
    let control = if control.is_empty() { b"-" } else { control };
    let gap = if refusal.place.is_empty() { "" } else { " " };
    let behind = if reason.is_empty() { "" } else { " " };
    format!(in alloc;
        "{} session {session} {} {} {} {}{gap}{}{behind}{reason} from {}\n",
        refusal.time.escape_ascii(),
        refusal.number.escape_ascii(),
        control.escape_ascii(),
        refusal.answer.escape_ascii(),
        refusal.code.escape_ascii(),
        refusal.place.escape_ascii(),
        str::from_utf8(&refusal.from).unwrap_or("")
    )
}
