//! A gateway's log, as it is begun and opened over a folder in memory.
ghost use Rattle.std.specs.Prelude.{◌≡◌};

use crate::ledgers::Anyone;
use crate::logs::{Folder, no_files};
use gw_due::{Entry, Event, State, spell};
use gw_journal::{Naming, Opened};
use gw_log::{Log, Recorded};
use gw_opening::{Begun, Found, open};
use std::alloc::Global;
use std::marker::Brand;
use std::process::Abort;
use std::test::Fail;

// The files of a log of number 7, with two records: a margin of 10, and a plan.
fn two_records(alloc: Global) -> Result<Folder, Fail> {
    let mut checkpoint = Vec::new(alloc);
    State::new(alloc).spell(&mut checkpoint)?;
    let mut records = Vec::new(alloc);
    for event in [
        Event::Margin { number: 10 },
        Event::Planned { text: b"a plan" },
    ] {
        let mut bytes = Vec::new(alloc);
        spell(&Entry { time: 1, event }, &mut bytes)?;
        records.push(bytes)?;
    }
    let disk = Recorded::<Folder, Brand>::new(Folder::new(alloc, &no_files(alloc)?, 100)?);
    let mut log = match Log::create(alloc, disk, 7, &checkpoint) {
        Ok(log) => log,
        Err((fault, _)) => return Err(Fail::from(fault)),
    };
    log.put(&records)?;
    Ok(log.into_disk().into_calls())
}

fn begun<F: Found<Anyone>>(
    alloc: Global,
    folder: Folder,
) -> Result<Begun<F, Anyone, Folder>, Fail> {
    match open::<F, Anyone, _>(alloc, folder, 9) {
        Ok(begun) => Ok(begun),
        Err((fault, _)) => Err(Fail::from(fault)),
    }
}

fn went_on<J: Naming, F: Found<Anyone>, A: Abort>(
    rt: &A,
    alloc: Global,
    opened: Opened,
    begun: Begun<F, Anyone, Folder>,
) -> Result<(), Fail>
    requires book { opened.seen.book ≡ J.book }
    requires before { J.before ≡ begun.before }
{
    assert!(rt; begun.tail().0 == 1 && begun.state().margin() == 10);
    let mut ledger = begun.into_ledger::<J>(alloc, opened, 1000);
    ledger.plan(5, b"another plan")?;
    assert!(rt; ledger.state().next() == 3 && ledger.state().plan() == Some(2));
    Ok(())
}

/// A log without a record is begun where there is no file; else the log goes on from the records that it has.
#[test]
fn a_log_is_begun_and_goes_on(rt: HostRuntime) -> Result<(), Fail> {
    let alloc = rt.alloc();
    let new = begun::<Brand>(alloc, Folder::new(alloc, &no_files(alloc)?, 100)?)?;
    assert!(rt; new.state().next() == 0 && new.tail().0 == 1);
    let old = begun::<Brand>(alloc, two_records(alloc)?)?;
    went_on::<Brand, Brand, _>(&rt, alloc, Opened::new(), old)
}
