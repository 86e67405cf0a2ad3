//! Words that read the log: messages that are looked for, and messages that are due once more.
use crate::gateway::Hub;
use crate::noted::numbered;
use crate::runtime::Runtime;
use gw_civil::utc_text;
use gw_delivery::{Fate, Filed, PageFault, Pages, Search, Stood, Wanted};
use gw_due::{Event, read};
use gw_folder::FolderView;
use gw_journal::{Naming, Storage};
use gw_ledger::{LedgerFault, ScanFault};
use std::alloc::{AllocError, AllocFailed, Global};
use std::fmt;
use std::fmt::{Display, Formatter};
use std::sync::Wait;

/// What is printed for a time that no calendar has.
pub(crate) const NO_TIME: [u8; 27] = *b"0000-00-00T00:00:00.000000Z";

/// Why a word isn't answered as it asks.
#[derive(Clone, Copy)]
pub(crate) enum Unanswered {
    /// The log can't be read on.
    Page(PageFault),
    /// The log doesn't take it, after this number of messages.
    Put { fault: LedgerFault, after: usize },
    /// What was put can't be brought to the disk.
    Disk,
    /// The gateway ends.
    Ended,
    /// The disk is short of room, or the log takes nothing.
    Short,
    /// The log keeps places from this one on.
    Gone { first: u64 },
    /// No message was accepted at this place.
    NoMessage { place: u64 },
    /// No accepted message has this control id.
    NoControl,
    /// The log doesn't keep the plan of the message.
    NoPlan,
    /// The message isn't routed to this receiver.
    NotRouted,
    /// No receiver has this name.
    NoName,
    /// Nothing waits for this receiver.
    NothingWaits,
    /// What was first for this receiver isn't any more.
    NotFirst,
    /// Its forwarder can't pass it over now.
    NotNow,
    /// This is no time.
    NoTime,
    /// This is no place.
    NoPlace,
}

impl Display for Unanswered {
    fn fmt<W: fmt::Write>(&self, f: &mut Formatter<W>) -> fmt::Result {
        let words = match self {
            Unanswered::Page(fault) => return write!(f, "{fault}"),
            Unanswered::Put { fault, after: 0 } => return write!(f, "{fault}"),
            Unanswered::Put { fault, after } => {
                return write!(f, "{fault}\n{after} were due once more before");
            }
            Unanswered::Gone { first } => {
                return write!(f, "the log keeps places from {first} on");
            }
            Unanswered::NoMessage { place } => {
                return write!(f, "the log has no accepted message at place {place}");
            }
            Unanswered::Disk => "the disk has failed",
            Unanswered::Ended => "the gateway ends",
            Unanswered::Short => "the log takes nothing now",
            Unanswered::NoControl => "no accepted message of the log has this control id",
            Unanswered::NoPlan => "the log doesn't keep its plan",
            Unanswered::NotRouted => "the message has no such receiver",
            Unanswered::NoName => "no receiver of the plan has this name",
            Unanswered::NothingWaits => "nothing waits for this receiver",
            Unanswered::NotFirst => "what was first for this receiver isn't any more",
            Unanswered::NotNow => "this receiver can't pass it over now",
            Unanswered::NoTime => "a time is YYYYMMDDHHMMSS, in UTC",
            Unanswered::NoPlace => "a place is a number",
        };
        f.write_str(words)
    }
}

impl From<PageFault> for Unanswered {
    fn from(fault: PageFault) -> Unanswered {
        Unanswered::Page(fault)
    }
}

impl From<ScanFault> for Unanswered {
    fn from(fault: ScanFault) -> Unanswered {
        Unanswered::Page(PageFault::from(fault))
    }
}

impl<T: Drop> From<AllocFailed<T>> for Unanswered {
    fn from(_error: AllocFailed<T>) -> Unanswered {
        Unanswered::Page(PageFault::Memory)
    }
}

impl From<AllocError> for Unanswered {
    fn from(_error: AllocError) -> Unanswered {
        Unanswered::Page(PageFault::Memory)
    }
}

/// The files of the log.
pub(crate) fn view_of<'f, J: Naming, S: Storage + Drop, R: Runtime + Wait>(
    hub: &Hub<'f, J, S, R>,
) -> Result<FolderView<'f, R>, PageFault> {
    match FolderView::beside(hub.rt, &hub.folder.path) {
        Ok(view) => Ok(view),
        // (that the folder can't be opened now)
        Err(_) => Err(PageFault::Damaged { segment: 0, at: 0 }),
    }
}

/// The place of the record that is put next.
pub(crate) fn next_of<J: Naming, S: Storage + Drop, R: Runtime + Wait>(
    hub: &Hub<'_, J, S, R>,
) -> u64 {
    hub.journal.lock(hub.rt).ledger.state().next()
}

/// Looks for messages in all that was put so far, in pieces.
fn search<'f, J: Naming, S: Storage + Drop, R: Runtime + Wait>(
    hub: &Hub<'f, J, S, R>,
    wanted: Wanted,
) -> Result<Search<FolderView<'f, R>>, Unanswered> {
    let mut search = Search::new(hub.rt.alloc(), view_of(hub)?, wanted);
    let next = next_of(hub);
    for _ in hub.rt.forever() {
        if hub.has_ended() {
            return Err(Unanswered::Ended);
        }
        let before = search.place();
        if search.read_to(hub.tail(), next)? || search.place() == before {
            break;
        }
    }
    Ok(search)
}

/// A receiver by its name and number.
fn receiver_of<J: Naming, S: Storage + Drop, R: Runtime + Wait>(
    hub: &Hub<'_, J, S, R>,
    number: u32,
) -> Result<String, AllocError> {
    let alloc = hub.rt.alloc();
    let office = hub.journal.lock(hub.rt);
    let receivers = office.ledger.state().receivers();
    match numbered(receivers, number) {
        Some(one) => {
            let name = one.name().escape_ascii();
            format!(in alloc; "{name} ({number})")
        }
        None => format!(in alloc; "receiver {number}"),
    }
}

/// The line that says how a receiver stands with the message at a place, in the form of a listing's.
fn line_of(alloc: Global, name: &str, place: u64, stood: &Stood) -> Result<String, AllocError> {
    let at = stood.at;
    let time = utc_text(stood.time).unwrap_or(NO_TIME);
    let time = time.escape_ascii();
    match stood.fate {
        Fate::Waits => format!(in alloc; "{at} {time} the message at {place} waits for {name}\n"),
        Fate::Taken => format!(in alloc; "{at} {time} {name} took the message at {place}\n"),
        Fate::Refused { code } => {
            format!(in alloc; "{at} {time} {name} refused the message at {place}, code {code}\n")
        }
        Fate::Skipped => {
            format!(in alloc; "{at} {time} the message at {place} was skipped for {name}\n")
        }
    }
}

/// Adds the line that says how a receiver stands with the message at a place.
fn add_stood<J: Naming, S: Storage + Drop, R: Runtime + Wait>(
    hub: &Hub<'_, J, S, R>,
    text: &mut String,
    place: u64,
    stood: &Stood,
) -> Result<(), AllocError> {
    let name = receiver_of(hub, stood.receiver)?;
    text.push_str(line_of(hub.rt.alloc(), name.as_str(), place, stood)?.as_str())?;
    Ok(())
}

/// Adds the lines of a message: when it was accepted, and how each receiver stands with it.
fn add_lines<J: Naming, S: Storage + Drop, R: Runtime + Wait>(
    hub: &Hub<'_, J, S, R>,
    text: &mut String,
    filed: &Filed,
) -> Result<(), AllocError> {
    let alloc = hub.rt.alloc();
    let (place, number, size) = (filed.place, filed.number, filed.size);
    let time = utc_text(filed.time).unwrap_or(NO_TIME);
    let time = time.escape_ascii();
    let line = format!(in alloc; "{place} {time} accepted {number}; {size} bytes\n")?;
    text.push_str(line.as_str())?;
    for stood in &filed.to {
        add_stood(hub, text, place, stood)?;
    }
    Ok(())
}

/// The lines of all accepted messages with a control id.
pub(crate) fn find<J: Naming, S: Storage + Drop, R: Runtime + Wait>(
    hub: &Hub<'_, J, S, R>,
    control: &str,
) -> Result<String, Unanswered> {
    let alloc = hub.rt.alloc();
    let id = Vec::from_slice(alloc, control.as_bytes())?;
    let search = search(hub, Wanted::Control { id })?;
    let mut text = String::new(alloc);
    if search.earlier() > 0 {
        let earlier = search.earlier();
        text = format!(in alloc; "{earlier} more with this control id came before these\n")?;
    }
    for filed in search.found() {
        add_lines(hub, &mut text, filed)?;
    }
    if text.is_empty() {
        return Err(Unanswered::NoControl);
    }
    Ok(text)
}

/// Adds the bytes of a message, a line for each segment. What isn't printable ASCII is escaped.
pub(crate) fn add_segments(
    alloc: Global,
    text: &mut String,
    bytes: &[u8],
) -> Result<(), AllocError> {
    let mut rest = bytes;
    for _ in 0..bytes.len() {
        if rest.is_empty() {
            break;
        }
        let end = rest
            .iter()
            .position(|byte| *byte == b'\r' || *byte == b'\n')
            .unwrap_or(rest.len());
        let segment = rest.get(..end).unwrap_or(rest).escape_ascii();
        text.push_str(format!(in alloc; "{segment}\n")?.as_str())?;
        rest = rest.get(end.saturating_add(1)..).unwrap_or(&[]);
    }
    Ok(())
}

/// Adds the bytes of the message that was accepted at a place, a line for each segment.
fn add_values<J: Naming, S: Storage + Drop, R: Runtime + Wait>(
    hub: &Hub<'_, J, S, R>,
    text: &mut String,
    place: u64,
) -> Result<(), Unanswered> {
    let alloc = hub.rt.alloc();
    let mut pages = Pages::new(alloc, view_of(hub)?);
    let bytes = pages.find(hub.tail(), place)?;
    match read(alloc, &bytes) {
        Ok(entry) => match entry.event {
            Event::Accepted { bytes, .. } => Ok(add_segments(alloc, text, bytes)?),
            _ => Err(Unanswered::Page(PageFault::Message { place })),
        },
        Err(_) => Err(Unanswered::Page(PageFault::Message { place })),
    }
}

/// The lines of the message that was accepted at a place, and its bytes where they are asked for.
pub(crate) fn show<J: Naming, S: Storage + Drop, R: Runtime + Wait>(
    hub: &Hub<'_, J, S, R>,
    place: u64,
    has_values: bool,
) -> Result<String, Unanswered> {
    let alloc = hub.rt.alloc();
    let search = search(hub, Wanted::Place { place })?;
    let mut text = String::new(alloc);
    for filed in search.found() {
        add_lines(hub, &mut text, filed)?;
    }
    if text.is_empty() {
        return Err(Unanswered::NoMessage { place });
    }
    if has_values {
        add_values(hub, &mut text, place)?;
    }
    Ok(text)
}
