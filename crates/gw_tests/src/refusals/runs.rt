//! Sessions, workers, couriers and swaps.
use super::{Call, holds, refuse, sweep};
use crate::crews::{ACKED, After, CARRIED, SENT, arrived, door, work};
use crate::gates::said;
use crate::sessions;
use crate::streams::{Device, Ran};
use crate::worked::plan_text;
use gw_crew::{Door, Solo, SwapFault, courier, swap, worker};
use gw_gate::{Entry, Event};
use gw_stream::{Reads, RunFault, Writes};
use std::alloc::Global;
use std::test::Fail;

#[derive(Clone, Copy)]
enum Run {
    Session,
    Worker,
    Courier,
    Swap,
}

impl Call for Run {
    fn is_refused(&self, alloc: Global, growth: u32) -> Result<bool, Fail> {
        match self {
            Run::Session => session_refused(alloc, growth),
            Run::Worker => worker_refused(alloc, growth),
            Run::Courier => courier_refused(alloc, growth),
            Run::Swap => swap_refused(alloc, growth),
        }
    }
}

// Whether a run ended by a refused growth, with a beginning of what it writes. Else it did all.
fn is_ended(ran: Ran, whole: Ran) -> Result<bool, Fail> {
    if ran == whole {
        return Ok(false);
    }
    holds(
        ran.0 == Err(RunFault::Memory) && ran.1.is_some(),
        "another end",
    )?;
    Ok(true)
}

// A message that is answered AA was accepted.
fn session_refused(alloc: Global, growth: u32) -> Result<bool, Fail> {
    let mut first = door(alloc)?;
    let ran = sessions::run_refused(alloc, &mut first, growth)?;
    let refused = is_ended(ran, sessions::WHOLE)?;
    holds(
        ran.1 == Some(0) || sessions::count_accepted(&first) == 1,
        "it answers what isn't accepted",
    )?;
    let mut other = door(alloc)?;
    let ran = sessions::run_refused(alloc, &mut other, 0)?;
    holds(
        ran == sessions::WHOLE && sessions::count_accepted(&other) == 1,
        "another end then",
    )?;
    Ok(refused)
}

// How many results the gate has kept.
fn count_kept(door: &Solo) -> usize {
    let mut count: usize = 0;
    for entry in door.gate().journal() {
        if let Entry::Kept { .. } = entry {
            count = count.saturating_add(1);
        }
    }
    count
}

// Whether the job that a worker had is still due: it is issued again, or its result was kept.
fn is_due(door: &mut Solo, job: Option<(u64, usize)>) -> bool {
    let Some((n, receiver)) = job else {
        return true;
    };
    match door.call(Event::Reissue { n, receiver }) {
        Ok(reply) => matches!(said(&reply).0, "Issued" | "Done"),
        Err(_) => false,
    }
}

fn worker_refused(alloc: Global, growth: u32) -> Result<bool, Fail> {
    let mut door = arrived(alloc, 1)?;
    let mut pause = After {
        left: 9,
        stopped: false,
    };
    refuse(alloc, growth);
    let result = worker(alloc, &mut door, &mut pause);
    refuse(alloc, 0);
    let refused = match result {
        Ok(counts) => {
            holds(counts.put == 1, "another count")?;
            false
        }
        Err((fault, job)) => {
            holds(
                fault == RunFault::Memory && is_due(&mut door, job),
                "its job is lost",
            )?;
            let _counts = work(alloc, &mut door, 9)?;
            true
        }
    };
    holds(count_kept(&door) == 1, "another number of results")?;
    Ok(refused)
}

// What a courier does of which this growth is refused, if it isn't 0.
fn carried(alloc: Global, growth: u32) -> Result<Ran, Fail> {
    let mut door = arrived(alloc, 1)?;
    let _counts = work(alloc, &mut door, 9)?;
    let mut reader = Reads::new(Device::new(alloc, ACKED, 1, 1_000, 0));
    let mut output = Device::new(alloc, b"", 1, 1_000, 0).with_room(SENT.len())?;
    let mut writer = Writes::new(&mut output);
    refuse(alloc, growth);
    let result = courier(alloc, &mut door, 0, &mut reader, &mut writer);
    refuse(alloc, 0);
    Ok((result, output.holds(SENT)))
}

fn courier_refused(alloc: Global, growth: u32) -> Result<bool, Fail> {
    let whole = (Ok(CARRIED), Some(SENT.len()));
    let refused = is_ended(carried(alloc, growth)?, whole)?;
    holds(carried(alloc, 0)? == whole, "another end then")?;
    Ok(refused)
}

fn swap_refused(alloc: Global, growth: u32) -> Result<bool, Fail> {
    let mut door = door(alloc)?;
    let text = plan_text(alloc, "ARCHIVE")?;
    refuse(alloc, growth);
    let (refused, found) = match swap(alloc, &mut door, text.as_bytes()) {
        Err(SwapFault::Memory) => {
            let is_new = door.notes().is_empty() && door.gate().journal().is_empty();
            holds(is_new, "something is noted")?;
            (true, swap(alloc, &mut door, text.as_bytes()))
        }
        found => (false, found),
    };
    refuse(alloc, 0);
    holds(found == Ok(1), "another version")?;
    Ok(refused)
}

#[test]
fn runners_refused(rt: HostRuntime) -> Result<(), Fail> {
    for call in [Run::Session, Run::Worker, Run::Courier, Run::Swap] {
        sweep(rt.alloc(), &call)?;
    }
    Ok(())
}
