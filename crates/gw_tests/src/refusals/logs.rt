//! Records, states and the files of a log.
use super::{Call, holds, refuse, sweep};
use crate::dues::accepted;
use crate::logs::{Folder, batch, count_in, no_files, two_files};
use gw_due::{Entry, Event, ReadFault, State, StateFault, read, spell};
use gw_log::{Log, LogFault, Recorded};
use std::alloc::{AllocError, Global};
use std::marker::Brand;
use std::test::Fail;

/// A message with the number 1 for the receiver 0, at the time 258.
const RECORD: &[u8] =
    b"\x00\x00\x00\x00\x00\x00\x01\x02\x02\x00\x00\x00\x00\x00\x00\x00\x01\x00\x00\x00\x01\x00\x00\x00\x00\x00\x00\x00\x08MSH|^~\\&";

/// The state of a log of three records: no plan, the last number 1, the margin 10, and a receiver for which the record at place 2 is left.
const CHECKPOINT: &[u8] =
    b"\x00\x00\x00\x00\x00\x00\x00\x03\x00\x01\x00\x00\x00\x00\x00\x00\x00\x01\x00\x00\x00\x00\x00\x00\x00\x0a\x00\x00\x00\x00\x00\x00\x00\x00\
    \x00\x00\x00\x01\x00\x00\x00\x00\x00\x00\x00\x03LAB\x00\x00\x00\x08lab:2575\
    \x00\x00\x00\x00\x00\x00\x00\x02\x00\x00\x00\x00\x00\x00\x00\x01\x00\x00\x00\x00\x00\x00\x00\x00";

fn entry(alloc: Global) -> Result<Entry<'static>, AllocError> {
    let mut to = Vec::new(alloc);
    to.push(0)?;
    Ok(Entry {
        time: 258,
        event: Event::Accepted {
            number: 1,
            to,
            bytes: b"MSH|^~\\&",
        },
    })
}

#[derive(Clone, Copy)]
enum Record {
    Spell,
    Read,
    After,
    SpellState,
    ReadState,
}

impl Call for Record {
    fn is_refused(&self, alloc: Global, growth: u32) -> Result<bool, Fail> {
        match self {
            Record::Spell => spell_refused(alloc, growth),
            Record::Read => read_refused(alloc, growth),
            Record::After => after_refused(alloc, growth),
            Record::SpellState => spell_state_refused(alloc, growth),
            Record::ReadState => read_state_refused(alloc, growth),
        }
    }
}

fn spell_refused(alloc: Global, growth: u32) -> Result<bool, Fail> {
    let entry = entry(alloc)?;
    let mut bytes = Vec::new(alloc);
    refuse(alloc, growth);
    let refused = spell(&entry, &mut bytes).is_err();
    refuse(alloc, 0);
    if refused {
        holds(bytes.is_empty(), "the buffer has bytes")?;
        spell(&entry, &mut bytes)?;
    }
    holds(bytes.as_slice() == RECORD, "another record")?;
    Ok(refused)
}

fn read_refused(alloc: Global, growth: u32) -> Result<bool, Fail> {
    refuse(alloc, growth);
    let (refused, entry) = match read(alloc, RECORD) {
        Err(ReadFault::Memory) => (true, read(alloc, RECORD)?),
        found => (false, found?),
    };
    refuse(alloc, 0);
    let is_same = match &entry.event {
        Event::Accepted { number, to, bytes } => {
            *number == 1 && to.as_slice() == [0].as_slice() && *bytes == b"MSH|^~\\&".as_slice()
        }
        _ => false,
    };
    holds(is_same && entry.time == 258, "another entry")?;
    Ok(refused)
}

fn after_refused(alloc: Global, growth: u32) -> Result<bool, Fail> {
    let mut state = accepted(alloc)?;
    let ward = Event::Named {
        receiver: 1,
        name: b"WARD",
        address: b"ward:2575",
    };
    refuse(alloc, growth);
    let result = state.after(alloc, &ward);
    refuse(alloc, 0);
    let refused = result == Err(StateFault::Memory);
    if refused {
        let is_same = state.next() == 3 && state.receivers().len() == 1;
        holds(is_same, "another state")?;
        state.after(alloc, &ward)?;
    }
    let is_on = state.next() == 4 && state.receivers().len() == 2;
    holds(is_on, "another state then")?;
    Ok(refused)
}

fn spell_state_refused(alloc: Global, growth: u32) -> Result<bool, Fail> {
    let state = accepted(alloc)?;
    let mut bytes = Vec::new(alloc);
    refuse(alloc, growth);
    let refused = state.spell(&mut bytes).is_err();
    refuse(alloc, 0);
    if refused {
        holds(bytes.is_empty(), "the buffer has bytes")?;
        state.spell(&mut bytes)?;
    }
    holds(bytes.as_slice() == CHECKPOINT, "another checkpoint")?;
    Ok(refused)
}

fn read_state_refused(alloc: Global, growth: u32) -> Result<bool, Fail> {
    refuse(alloc, growth);
    let (refused, state) = match State::read(alloc, CHECKPOINT) {
        Err(ReadFault::Memory) => (true, State::read(alloc, CHECKPOINT)?),
        found => (false, found?),
    };
    refuse(alloc, 0);
    let is_same = state.next() == 3 && state.last() == Some(1) && state.margin() == 10;
    holds(is_same && state.receivers().len() == 1, "another state")?;
    Ok(refused)
}

#[test]
fn records_refused(rt: HostRuntime) -> Result<(), Fail> {
    for call in [
        Record::Spell,
        Record::Read,
        Record::After,
        Record::SpellState,
        Record::ReadState,
    ] {
        sweep(rt.alloc(), &call)?;
    }
    Ok(())
}

#[derive(Clone, Copy)]
enum Change {
    Open,
    Put,
    BeginNext,
}

impl Change {
    // Makes the change to a log of three records. One more counts, if it is put.
    fn make(self, alloc: Global, log: &mut Log<Recorded<Folder, Brand>>) -> Result<(), LogFault> {
        match self {
            Change::Open => Ok(()),
            Change::Put => log.put(&batch(alloc, &[b"four"])?),
            Change::BeginNext => log.begin_next(0, b"last"),
        }
    }

    // How many records count after it.
    fn count(self) -> u64 {
        match self {
            Change::Put => 4,
            _ => 3,
        }
    }
}

// The log in this folder, on which the change is made while this growth is refused; and the folder then.
fn changed(
    alloc: Global,
    change: Change,
    folder: Folder,
    growth: u32,
) -> Result<(Result<(), LogFault>, Folder), Fail> {
    let disk = Recorded::<Folder, Brand>::new(folder);
    if matches!(change, Change::Open) {
        refuse(alloc, growth);
    }
    let (mut log, _) = match Log::open(alloc, disk, 7) {
        Ok(found) => found,
        Err((fault, disk)) => {
            refuse(alloc, 0);
            return Ok((Err(fault), disk.into_calls()));
        }
    };
    if !matches!(change, Change::Open) {
        refuse(alloc, growth);
    }
    let result = change.make(alloc, &mut log);
    refuse(alloc, 0);
    Ok((result, log.into_disk().into_calls()))
}

impl Call for Change {
    fn is_refused(&self, alloc: Global, growth: u32) -> Result<bool, Fail> {
        let (result, folder) = changed(alloc, *self, two_files(alloc)?, growth)?;
        match result {
            Ok(()) => {
                holds(
                    count_in(alloc, &folder)? == self.count(),
                    "other records count",
                )?;
                Ok(false)
            }
            // (the folder's own growths are refused too)
            Err(LogFault::Memory | LogFault::Device) => {
                let count = count_in(alloc, &folder)?;
                holds(count == 3 || count == self.count(), "other records count")?;
                let (again, folder) = changed(alloc, *self, folder, 0)?;
                again?;
                holds(count_in(alloc, &folder)? >= 3, "records are lost")?;
                Ok(true)
            }
            Err(_) => Err("another fault".into()),
        }
    }
}

#[test]
fn changes_refused(rt: HostRuntime) -> Result<(), Fail> {
    for call in [Change::Open, Change::Put, Change::BeginNext] {
        sweep(rt.alloc(), &call)?;
    }
    Ok(())
}

#[derive(Clone, Copy)]
struct Create;

impl Call for Create {
    fn is_refused(&self, alloc: Global, growth: u32) -> Result<bool, Fail> {
        let folder = Folder::new(alloc, &no_files(alloc)?, 100)?;
        refuse(alloc, growth);
        let created = Log::create(alloc, Recorded::<Folder, Brand>::new(folder), 7, b"start");
        refuse(alloc, 0);
        match created {
            Ok(log) => {
                let folder = log.into_disk().into_calls();
                holds(count_in(alloc, &folder)? == 0, "it has records")?;
                Ok(false)
            }
            Err((LogFault::Memory | LogFault::Device, _)) => Ok(true),
            Err(_) => Err("another fault".into()),
        }
    }
}

#[test]
fn create_refused(rt: HostRuntime) -> Result<(), Fail> {
    sweep(rt.alloc(), &Create)
}
