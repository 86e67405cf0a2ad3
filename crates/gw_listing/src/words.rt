//! A record in words.
use crate::names::Names;
use gw_due::{Entry, Event, How, ReadFault, read};
use std::alloc::{AllocError, Global};

/// What a record says: its time, in microseconds since 1970 in UTC, and the event in words.
#[derive(Drop)]
pub struct Said {
    pub time: u64,
    pub text: String,
}

// A receiver by its name and number.
fn one(alloc: Global, names: &Names, number: u32) -> Result<String, AllocError> {
    match names.of(number) {
        Some(name) => {
            let name = name.escape_ascii();
            format!(in alloc; "{name} ({number})")
        }
        None => format!(in alloc; "receiver {number}"),
    }
}

fn accepted(
    alloc: Global,
    names: &Names,
    number: u64,
    to: &[u32],
    size: usize,
) -> Result<String, AllocError> {
    let count = to.len();
    let mut text = match count {
        0 => format!(in alloc; "accepted {number} for no receiver")?,
        1 => format!(in alloc; "accepted {number} for 1 receiver")?,
        _ => format!(in alloc; "accepted {number} for {count} receivers")?,
    };
    let mut before = ": ";
    for receiver in to {
        text.push_str(before)?;
        text.push_str(one(alloc, names, *receiver)?.as_str())?;
        before = ", ";
    }
    text.push_str(format!(in alloc; "; {size} bytes")?.as_str())?;
    Ok(text)
}

fn passed(
    alloc: Global,
    names: &Names,
    receiver: u32,
    place: u64,
    how: &How<'_>,
) -> Result<String, AllocError> {
    let name = one(alloc, names, receiver)?;
    match how {
        How::Taken => format!(in alloc; "{name} took the message at {place}"),
        How::Refused { code, .. } => {
            format!(in alloc; "{name} refused the message at {place}, code {code}")
        }
        How::Skipped => format!(in alloc; "the message at {place} was skipped for {name}"),
    }
}

// The event without a byte of a message.
fn brief(alloc: Global, names: &Names, event: &Event<'_>) -> Result<String, AllocError> {
    match event {
        Event::Planned { text } => {
            let size = text.len();
            format!(in alloc; "a plan of {size} bytes is in force")
        }
        Event::Accepted { number, to, bytes } => accepted(alloc, names, *number, to, bytes.len()),
        Event::Again { receiver, place } => {
            let name = one(alloc, names, *receiver)?;
            format!(in alloc; "the message at {place} is due to {name} once more")
        }
        Event::Passed {
            receiver,
            place,
            how,
        } => passed(alloc, names, *receiver, *place, how),
        Event::Named {
            receiver,
            name,
            address,
        } => {
            let (name, address) = (name.escape_ascii(), address.escape_ascii());
            format!(in alloc; "receiver {receiver} is {name} at {address}")
        }
        Event::Margin { number } => {
            format!(in alloc; "numbers below {number} may have been given")
        }
        Event::Retired { segment } => format!(in alloc; "files below {segment} may be gone"),
    }
}

// What of the event may be a patient's.
fn values<'a>(event: &Event<'a>) -> Option<&'a [u8]> {
    match event {
        Event::Accepted { bytes, .. } => Some(bytes),
        Event::Passed {
            how: How::Refused { reason, .. },
            ..
        } => Some(reason),
        _ => None,
    }
}

/// What a record says. Only with values it has bytes of a message, or the text of a refusal.
pub fn say(
    alloc: Global,
    names: &mut Names,
    record: &[u8],
    has_values: bool,
) -> Result<Said, ReadFault> {
    let Entry { time, event } = read(alloc, record)?;
    names.add_event(&event)?;
    let mut text = brief(alloc, names, &event)?;
    if has_values && let Some(values) = values(&event) {
        let values = values.escape_ascii();
        text.push_str(format!(in alloc; ": {values}")?.as_str())?;
    }
    Ok(Said { time, text })
}

/// The bytes of the message that was accepted by this record. `None`: none was.
pub fn message<'a>(alloc: Global, record: &'a [u8]) -> Result<Option<&'a [u8]>, ReadFault> {
    match read(alloc, record)?.event {
        Event::Accepted { bytes, .. } => Ok(Some(bytes)),
        _ => Ok(None),
    }
}
