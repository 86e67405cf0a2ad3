//! Which files of the log stay, and when the last one ends.
use crate::gateway::Hub;
use crate::runtime::Runtime;
use crate::stamps::microseconds;
use crate::store::{Unanswered, next_of, view_of};
use gw_delivery::{Keeper, PageFault};
use gw_folder::FolderView;
use gw_journal::{Naming, Storage};
use gw_ledger::needed_from;
use gw_log::Calls;
use std::alloc::AllocError;
use std::sync::Wait;
use std::sync::atomic::Ordering;
use std::thread;
use std::time::Duration;

/// After how many looks the last file ends, where messages may go then; and after how many it ends that has a message, though some wait.
/// A look comes each five seconds.
const SOON: u64 = 12;

const LONG: u64 = 720;

/// How many milliseconds what was put takes to the disk, mostly.
const SYNC: u64 = 50;

/// The microseconds of a day.
const DAY: u64 = 86_400_000_000;

/// How many looks there were at the last file.
#[derive(Clone, Copy)]
pub(crate) struct Age {
    segment: u64,
    looks: u64,
}

impl Age {
    /// Before any look.
    pub(crate) fn new() -> Self {
        Age {
            segment: 0,
            looks: 0,
        }
    }

    /// It is looked at once more, or for the first time.
    fn look(&mut self, segment: u64) {
        if segment == self.segment {
            self.looks = self.looks.saturating_add(1);
        } else {
            self.segment = segment;
            self.looks = 0;
        }
    }
}

/// From which time on records stay.
fn since<J: Naming, S: Storage + Drop, R: Runtime + Wait>(hub: &Hub<'_, J, S, R>) -> u64 {
    if hub.days == 0 {
        return u64::MAX;
    }
    microseconds(hub.rt).saturating_sub(hub.days.saturating_mul(DAY))
}

/// Has all that was put be on the disk, and one record more. It repeats the margin of numbers, which changes nothing.
/// False: the disk is short of room, or has failed.
pub(crate) fn bring<J: Naming, S: Storage + Drop, R: Runtime + Wait>(
    hub: &Hub<'_, J, S, R>,
) -> bool {
    if hub.is_short.load(Ordering::SeqCst) {
        return false;
    }
    let time = microseconds(hub.rt);
    let mut office = hub.journal.lock(hub.rt);
    let margin = office.ledger.state().margin();
    let put = office.ledger.margin(time, margin);
    drop(office);
    match put {
        Ok(ticket) => hub.journal.settle(hub.rt, &ticket).is_ok(),
        Err(_) => false,
    }
}

/// What all records that were put so far say of files, and of what lies refused.
pub(crate) fn keeper_of<'f, J: Naming, S: Storage + Drop, R: Runtime + Wait>(
    hub: &Hub<'f, J, S, R>,
) -> Result<Keeper<FolderView<'f, R>>, PageFault> {
    let mut keeper = Keeper::new(hub.rt.alloc(), view_of(hub)?);
    let next = next_of(hub);
    // (what a refusal wrote is on the disk before its forwarder goes on; nobody asks any more once the gateway ends)
    for _ in hub.rt.forever() {
        let before = keeper.place();
        if keeper.read_to(hub.tail(), next)? || keeper.place() == before || hub.has_ended() {
            break;
        }
    }
    Ok(keeper)
}

/// Counts what lies refused by each receiver.
fn count_lying<J: Naming, S: Storage + Drop, R: Runtime + Wait, V: Calls + Drop>(
    hub: &Hub<'_, J, S, R>,
    keeper: &Keeper<V>,
) -> Result<(), AllocError> {
    let lines = hub.lines.all(hub.rt, hub.rt.alloc())?;
    for line in &lines {
        line.set_lying(hub.rt, keeper.refused(line.number)?.len() as u64);
    }
    Ok(())
}

/// Ends the last file. The plan is the first record of the next one, and on the disk. False: it can't be ended now.
fn end_last<J: Naming, S: Storage + Drop, R: Runtime + Wait>(hub: &Hub<'_, J, S, R>) -> bool {
    let mut office = hub.journal.lock(hub.rt);
    let (_number, size) = office.ledger.tail();
    let limit = office.ledger.end_at(size.saturating_sub(1));
    drop(office);
    let is_ended = bring(hub);
    let _size = hub.journal.lock(hub.rt).ledger.end_at(limit);
    is_ended && bring(hub)
}

/// Reads on, and has the files go that aren't needed: they go when the next one is begun.
/// From where on records are needed, and from where on messages are left. None: not all could be read yet.
fn look<J: Naming, S: Storage + Drop, R: Runtime + Wait, V: Calls + Drop>(
    hub: &Hub<'_, J, S, R>,
    keeper: &mut Keeper<V>,
) -> Result<Option<(u64, u64)>, PageFault> {
    // (what comes to be left or refused after this look stands there, or behind it; the thread that looks is the one that has messages be due once more)
    let office = hub.journal.lock(hub.rt);
    let next = office.ledger.state().next();
    let left = needed_from(office.ledger.state());
    drop(office);
    if !keeper.read_to(hub.tail(), next)? {
        // (what is on its way to the disk is there soon)
        thread::sleep(hub.rt, Duration::from_millis(SYNC));
        if !keeper.read_to(hub.tail(), next)? {
            return Ok(None);
        }
    }
    let needed = keeper.needed(left, since(hub));
    hub.journal.lock(hub.rt).ledger.keep_from(needed);
    Ok(Some((needed, left)))
}

/// Ends the last file. Where one may go that has a message, the next one is ended too, which has none: with it they go. False: it can't be ended now.
fn end<J: Naming, S: Storage + Drop, R: Runtime + Wait, V: Calls + Drop>(
    hub: &Hub<'_, J, S, R>,
    keeper: &mut Keeper<V>,
) -> bool {
    if !end_last(hub) {
        return false;
    }
    let Ok(Some((needed, _left))) = look(hub, keeper) else {
        return true;
    };
    if keeper.frees(needed) {
        return end_last(hub);
    }
    true
}

/// The answer to `seal`.
pub(crate) fn seal<J: Naming, S: Storage + Drop, R: Runtime + Wait>(
    hub: &Hub<'_, J, S, R>,
) -> Result<String, Unanswered> {
    let last = hub.tail().segment;
    let mut keeper = keeper_of(hub)?;
    if !end(hub, &mut keeper) {
        return Err(Unanswered::Short);
    }
    Ok(format!(in hub.rt.alloc(); "sealed {last}\n")?)
}

/// Looks which files aren't needed, and ends the last one where it is time to. False: what was read has to be read again.
fn look_once<J: Naming, S: Storage + Drop, R: Runtime + Wait, V: Calls + Drop>(
    hub: &Hub<'_, J, S, R>,
    keeper: &mut Keeper<V>,
    age: &mut Age,
) -> bool {
    let before = keeper.place();
    let (needed, left) = match look(hub, keeper) {
        Ok(Some(found)) => found,
        Ok(None) => {
            // (the plan that a file begins with may not be on the disk yet)
            if keeper.place() == before {
                let _ = bring(hub);
            }
            return true;
        }
        Err(_) => return false,
    };
    let _ = count_lying(hub, keeper);
    hub.bytes.store(keeper.bytes(hub.tail()), Ordering::SeqCst);
    age.look(hub.tail().segment);
    if age.looks < SOON {
        return true;
    }
    let is_old = age.looks >= LONG.saturating_mul(hub.days.max(1));
    let is_to_end = keeper.has_message() && (is_old || keeper.is_free(left, since(hub)));
    if is_to_end || keeper.frees(needed) {
        let _ = end(hub, keeper);
    }
    true
}

/// The same of the folder's files. None: what was read of them has to be read again.
pub(crate) fn look_at_files<'f, J: Naming, S: Storage + Drop, R: Runtime + Wait>(
    hub: &Hub<'f, J, S, R>,
    keeper: Option<Keeper<FolderView<'f, R>>>,
    age: &mut Age,
) -> Option<Keeper<FolderView<'f, R>>> {
    let mut keeper = match keeper {
        Some(keeper) => keeper,
        None => Keeper::new(hub.rt.alloc(), view_of(hub).ok()?),
    };
    if look_once(hub, &mut keeper, age) {
        return Some(keeper);
    }
    None
}
