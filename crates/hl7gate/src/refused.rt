//! What lies refused by a receiver, by what it answered. Of that the codes are shown, and all of it where values are asked for: it may be a patient's.
use crate::gateway::Hub;
use crate::retention::keeper_of;
use crate::runtime::Runtime;
use crate::store::{NO_TIME, Unanswered, add_segments, view_of};
use gw_ack::Ack;
use gw_civil::utc_text;
use gw_delivery::{Pages, Refused};
use gw_due::{Entry, Event, How, ReadFault, read};
use gw_journal::{Naming, Storage};
use memchr::memchr;
use std::alloc::{AllocError, Global};
use std::sync::Wait;

/// How many messages are shown at most: the last ones.
const MOST: usize = 1_000;

/// How many digits a condition code has (HL7 table 0357).
const DIGITS: usize = 3;

/// A refusal, as the page shows it: whether it is AR, else AE, and the first condition code of the acknowledgment, or 0.
#[derive(Clone, Copy)]
pub(crate) struct Why {
    is_rejected: bool,
    code: u32,
}

/// The condition code of an ERR (ERR-3.1), where it is one.
fn code_of(segment: &[u8]) -> Option<&[u8]> {
    if !segment.starts_with(b"ERR") {
        return None;
    }
    let separator = *segment.get(3)?;
    let mut field = segment.get(4..)?;
    for _ in 0..2 {
        let end = memchr(separator, field)?;
        field = field.get(end.saturating_add(1)..)?;
    }
    let code = field.get(..DIGITS)?;
    let is_whole = match field.get(DIGITS) {
        Some(byte) => !byte.is_ascii_alphanumeric(),
        None => true,
    };
    if is_whole && code.iter().all(|byte| byte.is_ascii_digit()) {
        return Some(code);
    }
    None
}

/// The next condition code in the segments of an acknowledgment, and the segments behind it.
fn next_code(answer: &[u8]) -> Option<(&[u8], &[u8])> {
    let mut rest = answer;
    for _ in 0..answer.len() {
        if rest.is_empty() {
            return None;
        }
        let end = rest
            .iter()
            .position(|byte| *byte == b'\r' || *byte == b'\n')
            .unwrap_or(rest.len());
        let segment = rest.get(..end).unwrap_or(rest);
        rest = rest.get(end.saturating_add(1)..).unwrap_or(&[]);
        if let Some(code) = code_of(segment) {
            return Some((code, rest));
        }
    }
    None
}

impl Why {
    /// What this acknowledgment says.
    pub(crate) fn new(ack: Ack, answer: &[u8]) -> Self {
        let mut number = 0_u32;
        if let Some((code, _)) = next_code(answer) {
            for digit in code {
                let digit = u32::from(digit.saturating_sub(b'0'));
                number = number.saturating_mul(10).saturating_add(digit);
            }
        }
        Why {
            is_rejected: ack == Ack::AR,
            code: number,
        }
    }
}

/// A refusal, to be read: `AE 101`. It is empty where there is none.
pub(crate) fn text_of(alloc: Global, why: Option<Why>) -> Result<Vec<u8>, AllocError> {
    let Some(Why { is_rejected, code }) = why else {
        return Ok(Vec::new(alloc));
    };
    let name = if is_rejected { "AR" } else { "AE" };
    let text = if code == 0 {
        String::from_str(alloc, name)?
    } else {
        format!(in alloc; "{name} {code}")?
    };
    Ok(text.into_bytes())
}

/// Adds the line of a refusal: the message's place, when it was refused, how, and each condition code; and all that was answered, where values are asked for.
fn add_refusal(
    alloc: Global,
    text: &mut String,
    place: u64,
    time: u64,
    code: u32,
    answer: &[u8],
    has_values: bool,
) -> Result<(), AllocError> {
    let how = match code {
        1 => "AE",
        2 => "AR",
        _ => "parked",
    };
    let time = utc_text(time).unwrap_or(NO_TIME);
    let time = time.escape_ascii();
    text.push_str(format!(in alloc; "{place} {time} {how}")?.as_str())?;
    let mut rest = answer;
    for _ in 0..answer.len() {
        let Some((code, behind)) = next_code(rest) else {
            break;
        };
        let code = code.escape_ascii();
        text.push_str(format!(in alloc; " {code}")?.as_str())?;
        rest = behind;
    }
    text.push_str("\n")?;
    if has_values {
        add_segments(alloc, text, answer)?;
    }
    Ok(())
}

/// The same by the record of the refusal. Nothing is said of another record.
fn add_line(
    alloc: Global,
    text: &mut String,
    place: u64,
    record: &[u8],
    has_values: bool,
) -> Result<(), AllocError> {
    match read(alloc, record) {
        Ok(Entry { time, event }) => match event {
            Event::Passed { how, .. } => match how {
                How::Refused { code, reason } => {
                    add_refusal(alloc, text, place, time, code, reason, has_values)
                }
                _ => Ok(()),
            },
            _ => Ok(()),
        },
        Err(ReadFault::Memory) => Err(AllocError),
        Err(ReadFault::Unreadable) => Ok(()),
    }
}

/// Adds the lines of refusals.
fn add_lines<J: Naming, S: Storage + Drop, R: Runtime + Wait>(
    hub: &Hub<'_, J, S, R>,
    text: &mut String,
    all: &[Refused],
    has_values: bool,
) -> Result<(), Unanswered> {
    let mut pages = Pages::new(hub.rt.alloc(), view_of(hub)?);
    for one in all {
        if hub.has_ended() {
            return Err(Unanswered::Ended);
        }
        let record = pages.find(hub.tail(), one.by)?;
        add_line(hub.rt.alloc(), text, one.place, &record, has_values)?;
    }
    Ok(())
}

/// How many messages lie refused by a receiver, and a line for each of the last ones.
pub(crate) fn lying<J: Naming, S: Storage + Drop, R: Runtime + Wait>(
    hub: &Hub<'_, J, S, R>,
    rest: &str,
) -> Result<String, Unanswered> {
    let (name, values) = rest.split_once(' ').unwrap_or((rest, ""));
    let Some(line) = hub.lines.named(hub.rt, name.as_bytes()) else {
        return Err(Unanswered::NoName);
    };
    let all = keeper_of(hub)?.refused(line.number)?;
    let mut text = format!(in hub.rt.alloc(); "lie refused: {}\n", all.len())?;
    let from = all.len().saturating_sub(MOST);
    let last = all.get(from..).unwrap_or(&[]);
    add_lines(hub, &mut text, last, values == "--values")?;
    Ok(text)
}
