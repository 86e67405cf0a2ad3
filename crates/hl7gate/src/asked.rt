//! Words that read the log, and words that wait for a forwarder: what each is asked for, and its answer.
use crate::again::{replay, resend, resend_at};
use crate::gateway::{Hub, Over};
use crate::refused::lying;
use crate::retention::seal;
use crate::runtime::Runtime;
use crate::store::{Unanswered, find, show};
use gw_journal::{Naming, Storage};
use std::alloc::Global;
use std::sync::Wait;
use std::thread;
use std::time::Duration;

/// Which words a gateway takes.
pub(crate) const WORDS: &str =
    "status [--json], status --refused NAME [--values], swap PATH, install PATH, hold NAME, go NAME, \
    find CONTROL-ID, show PLACE [--values], resend NAME, resend PLACE [NAME], replay NAME FROM TO, \
    skip NAME, park NAME, seal, stop";

/// After how many milliseconds it is looked whether a forwarder has done it, and for how many of these looks at most.
const LOOK: u64 = 50;

const LOOKS: u64 = 300;

/// The answer to `resend`: of a receiver, or of a place and perhaps a receiver.
fn resend_by<J: Naming, S: Storage + Drop, R: Runtime + Wait>(
    hub: &Hub<'_, J, S, R>,
    rest: &str,
) -> Result<String, Unanswered> {
    if let Some(line) = hub.lines.named(hub.rt, rest.as_bytes()) {
        return resend(hub, &line);
    }
    let (place, name) = rest.split_once(' ').unwrap_or((rest, ""));
    let line = hub.lines.named(hub.rt, name.as_bytes());
    match (place.parse::<u64>(), line) {
        (Ok(place), None) if name.is_empty() => resend_at(hub, place, None),
        (Ok(place), Some(line)) => resend_at(hub, place, Some(line.number)),
        _ => Err(Unanswered::NoName),
    }
}

/// The answer to `replay`.
fn replay_by<J: Naming, S: Storage + Drop, R: Runtime + Wait>(
    hub: &Hub<'_, J, S, R>,
    rest: &str,
) -> Result<String, Unanswered> {
    let (name, span) = rest.split_once(' ').unwrap_or((rest, ""));
    match hub.lines.named(hub.rt, name.as_bytes()) {
        Some(line) => replay(hub, &line, span.split_once(' ').unwrap_or((span, ""))),
        None => Err(Unanswered::NoName),
    }
}

/// The answer once a forwarder passed a place over, or found another one first.
fn passed_over(alloc: Global, passed: Option<u64>, is_parked: bool) -> Result<String, Unanswered> {
    let word = if is_parked { "parked" } else { "skipped" };
    match passed {
        Some(place) => Ok(format!(in alloc; "{word} {place}\n")?),
        None => Err(Unanswered::NotFirst),
    }
}

/// The answer to `skip`, or to `park`: what its forwarder says within a while.
fn skip_by<J: Naming, S: Storage + Drop, R: Runtime + Wait>(
    hub: &Hub<'_, J, S, R>,
    name: &str,
    is_parked: bool,
) -> Result<String, Unanswered> {
    let Some(line) = hub.lines.named(hub.rt, name.as_bytes()) else {
        return Err(Unanswered::NoName);
    };
    let Some(from) = hub.first_of(line.number) else {
        return Err(Unanswered::NothingWaits);
    };
    line.set_over(hub.rt, Over { is_parked, from });
    let mut looks = 0_u64;
    for _ in hub.rt.forever() {
        if let Some(passed) = line.passed(hub.rt) {
            return passed_over(hub.rt.alloc(), passed, is_parked);
        }
        looks = looks.saturating_add(1);
        if hub.has_ended() || looks > LOOKS && line.take_over(hub.rt).is_some() {
            break;
        }
        thread::sleep(hub.rt, Duration::from_millis(LOOK));
    }
    Err(Unanswered::NotNow)
}

/// The answer to a line.
pub(crate) fn answer_to<J: Naming, S: Storage + Drop, R: Runtime + Wait>(
    hub: &Hub<'_, J, S, R>,
    line: &str,
) -> Result<String, Unanswered> {
    let (word, rest) = line.split_once(' ').unwrap_or((line, ""));
    let (place, values) = rest.split_once(' ').unwrap_or((rest, ""));
    match (word, place.parse::<u64>()) {
        ("status", _) => lying(hub, values),
        ("find", _) => find(hub, rest),
        ("seal", _) => seal(hub),
        ("skip" | "park", _) => skip_by(hub, rest, word == "park"),
        ("resend", _) => resend_by(hub, rest),
        ("replay", _) => replay_by(hub, rest),
        (_, Ok(place)) => show(hub, place, values == "--values"),
        _ => Err(Unanswered::NoPlace),
    }
}
