//! Words that have messages be due once more: what a receiver refused, a message at a place, and what was accepted in a span of time.
use crate::gateway::{Hub, Line};
use crate::retention::{bring, keeper_of};
use crate::runtime::Runtime;
use crate::stamps::microseconds;
use crate::store::{Unanswered, next_of, view_of};
use gw_civil::utc_text;
use gw_delivery::{Page, PageFault, Pages};
use gw_due::{Entry, Event, ReadFault, read};
use gw_folder::FolderView;
use gw_journal::{Naming, Storage};
use gw_ledger::Message;
use gw_stream::RunFault;
use std::alloc::{AllocError, Global};
use std::sync::{Arc, Wait};

/// How many messages are due once more before that is brought to the disk.
const MOST: usize = 1_000;

/// How many digits a time has.
const DIGITS: usize = 14;

/// The messages that lie refused by a receiver.
fn refused<J: Naming, S: Storage + Drop, R: Runtime + Wait>(
    hub: &Hub<'_, J, S, R>,
    receiver: u32,
) -> Result<Vec<Message<J>>, PageFault> {
    let alloc = hub.rt.alloc();
    let mut pages = Pages::new(alloc, view_of(hub)?);
    let mut messages = Vec::new(alloc);
    for one in &keeper_of(hub)?.refused(receiver)? {
        let place = one.place;
        if hub.has_ended() {
            break;
        }
        let bytes = pages.find(hub.tail(), place)?;
        let found = hub.journal.lock(hub.rt).ledger.message(place, &bytes)?;
        if let Some(message) = found {
            messages.push(message)?;
        }
    }
    Ok(messages)
}

/// Has messages be due to a receiver once more, and waits until that is on the disk. As many were before.
fn put_again<J: Naming, S: Storage + Drop, R: Runtime + Wait>(
    hub: &Hub<'_, J, S, R>,
    line: &Line,
    messages: &[Message<J>],
    after: usize,
) -> Result<(), Unanswered> {
    let time = microseconds(hub.rt);
    let mut last = None;
    for message in messages {
        let mut office = hub.journal.lock(hub.rt);
        match office.ledger.again(time, line.number, message) {
            Ok(ticket) => last = Some(ticket),
            Err(fault) => return Err(Unanswered::Put { fault, after }),
        }
    }
    if let Some(ticket) = &last
        && hub.journal.settle(hub.rt, ticket).is_err()
    {
        hub.fail(RunFault::Write);
        return Err(Unanswered::Disk);
    }
    line.ring(hub.rt);
    Ok(())
}

/// Has all that a receiver refused be due to it once more, in the order in which it refused it.
pub(crate) fn resend<J: Naming, S: Storage + Drop, R: Runtime + Wait>(
    hub: &Hub<'_, J, S, R>,
    line: &Line,
) -> Result<String, Unanswered> {
    let messages = refused(hub, line.number)?;
    if hub.has_ended() {
        return Err(Unanswered::Ended);
    }
    put_again(hub, line, &messages, 0)?;
    Ok(format!(in hub.rt.alloc(); "resent {}\n", messages.len())?)
}

/// The files from the first on that doesn't go, before its first record.
fn kept<'f, J: Naming, S: Storage + Drop, R: Runtime + Wait>(
    hub: &Hub<'f, J, S, R>,
) -> Result<Pages<FolderView<'f, R>>, Unanswered> {
    hub.journal.lock(hub.rt).ledger.keep_from(0);
    // (a batch that was begun before may still remove some: so one more is waited for)
    if !bring(hub) {
        return Err(Unanswered::Short);
    }
    let mut pages = Pages::new(hub.rt.alloc(), view_of(hub)?);
    pages.seek_kept(hub.tail())?;
    Ok(pages)
}

/// The receivers of the message that was accepted by this record, and its time. None: none was.
fn route_of(alloc: Global, bytes: &[u8]) -> Result<Option<(Vec<u32>, u64)>, AllocError> {
    match read(alloc, bytes) {
        Ok(Entry { time, event }) => match event {
            Event::Accepted { to, .. } => Ok(Some((to, time))),
            _ => Ok(None),
        },
        Err(ReadFault::Memory) => Err(AllocError),
        Err(ReadFault::Unreadable) => Ok(None),
    }
}

/// The lines to which a message of this route is due once more: that of a receiver of the route, or all of them.
fn lines_of<J: Naming, S: Storage + Drop, R: Runtime + Wait>(
    hub: &Hub<'_, J, S, R>,
    to: &[u32],
    only: Option<u32>,
) -> Result<Vec<Arc<Line>>, Unanswered> {
    let mut lines = Vec::new(hub.rt.alloc());
    for number in to {
        if only.is_none() || only == Some(*number) {
            match hub.lines.find(hub.rt, *number) {
                Some(line) => lines.push(line)?,
                None => return Err(Unanswered::NotRouted),
            }
        }
    }
    if lines.is_empty() {
        return Err(Unanswered::NotRouted);
    }
    Ok(lines)
}

/// The message that was accepted at a place of these files, and the lines to which it is due once more.
fn routed_at<'f, J: Naming, S: Storage + Drop, R: Runtime + Wait>(
    hub: &Hub<'f, J, S, R>,
    pages: &mut Pages<FolderView<'f, R>>,
    place: u64,
    only: Option<u32>,
) -> Result<(Message<J>, Vec<Arc<Line>>), Unanswered> {
    let first = pages.place();
    if place < first || place >= next_of(hub) {
        return Err(Unanswered::Gone { first });
    }
    let bytes = pages.find(hub.tail(), place)?;
    let route = route_of(hub.rt.alloc(), &bytes)?;
    let found = hub.journal.lock(hub.rt).ledger.message(place, &bytes)?;
    let (Some(message), Some((to, _))) = (found, route) else {
        return Err(Unanswered::NoMessage { place });
    };
    match pages.plan() {
        Some(plan) if plan >= first => Ok((message, lines_of(hub, &to, only)?)),
        _ => Err(Unanswered::NoPlan),
    }
}

/// Has the message that was accepted at a place be due once more to a receiver, or to each receiver of its route.
pub(crate) fn resend_at<J: Naming, S: Storage + Drop, R: Runtime + Wait>(
    hub: &Hub<'_, J, S, R>,
    place: u64,
    only: Option<u32>,
) -> Result<String, Unanswered> {
    let (message, lines) = routed_at(hub, &mut kept(hub)?, place, only)?;
    let messages = [message];
    for line in &lines {
        put_again(hub, line, &messages, 0)?;
    }
    Ok(format!(in hub.rt.alloc(); "resent {}\n", lines.len())?)
}

/// A time as a number of fourteen digits, YYYYMMDDHHMMSS in UTC, where there is one.
fn digits_of(time: u64) -> Option<u64> {
    let text = utc_text(time)?;
    let (mut number, mut count) = (0_u64, 0_usize);
    for byte in &text {
        if byte.is_ascii_digit() && count < DIGITS {
            let digit = u64::from(byte.saturating_sub(b'0'));
            number = number.saturating_mul(10).saturating_add(digit);
            count = count.saturating_add(1);
        }
    }
    Some(number)
}

/// The number that a word of fourteen digits is.
fn time_of(word: &str) -> Option<u64> {
    if word.len() != DIGITS {
        return None;
    }
    word.parse::<u64>().ok()
}

/// The message of a record, if it was accepted in a span of time, and was due to a receiver by its route.
fn message_of<J: Naming, S: Storage + Drop, R: Runtime + Wait>(
    hub: &Hub<'_, J, S, R>,
    page: &Page,
    receiver: u32,
    (from, to): (u64, u64),
) -> Result<Option<Message<J>>, Unanswered> {
    let Some((route, time)) = route_of(hub.rt.alloc(), &page.bytes)? else {
        return Ok(None);
    };
    match digits_of(time) {
        Some(digits) if from <= digits && digits <= to && route.contains(&receiver) => {}
        _ => return Ok(None),
    }
    let mut office = hub.journal.lock(hub.rt);
    Ok(office.ledger.message(page.place, &page.bytes)?)
}

/// The next messages that were accepted in a span of time, and were due to a receiver by their route: as many as are put at once.
/// None are left where it gives none.
fn next_messages<J: Naming, S: Storage + Drop, R: Runtime + Wait>(
    hub: &Hub<'_, J, S, R>,
    pages: &mut Pages<FolderView<'_, R>>,
    next: u64,
    receiver: u32,
    span: (u64, u64),
) -> Result<Vec<Message<J>>, Unanswered> {
    let tail = hub.tail();
    let mut messages = Vec::new(hub.rt.alloc());
    for _ in 0..u64::MAX {
        if hub.has_ended() {
            return Err(Unanswered::Ended);
        }
        if pages.place() >= next || messages.len() >= MOST {
            break;
        }
        let Some(page) = pages.next(tail)? else {
            break;
        };
        if let Some(message) = message_of(hub, &page, receiver, span)? {
            messages.push(message)?;
        }
    }
    Ok(messages)
}

/// Has each message that was accepted in a span of time, and was due to a receiver by its route, be due to it once more, in order.
pub(crate) fn replay<J: Naming, S: Storage + Drop, R: Runtime + Wait>(
    hub: &Hub<'_, J, S, R>,
    line: &Line,
    (from, to): (&str, &str),
) -> Result<String, Unanswered> {
    let (Some(from), Some(to)) = (time_of(from), time_of(to)) else {
        return Err(Unanswered::NoTime);
    };
    let mut pages = kept(hub)?;
    let (first, next) = (pages.place(), next_of(hub));
    let mut count = 0_usize;
    for _ in hub.rt.forever() {
        let messages = next_messages(hub, &mut pages, next, line.number, (from, to))?;
        if messages.is_empty() {
            break;
        }
        put_again(hub, line, &messages, count)?;
        count = count.saturating_add(messages.len());
    }
    Ok(format!(in hub.rt.alloc(); "replayed {count}; the log keeps places from {first} on\n")?)
}
