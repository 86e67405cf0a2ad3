//! The lines of a listing, and one message.
use crate::fault::ListFault;
use crate::names::Names;
use crate::walk::Walk;
use crate::words::{message, say};
use gw_due::ReadFault;
use gw_log::{Disk, LogFault};
use std::alloc::{AllocError, AllocFailed, Global};
use std::io::{ErrorKind, Write};

/// What is printed for a time that no calendar has.
const NO_TIME: [u8; 27] = *b"0000-00-00T00:00:00.000000Z";

/// Says how a time is printed.
pub trait Calendar {
    /// This number of microseconds after 1970 began, as a date and time of ISO 8601 in UTC, where there is one.
    fn text(&self, microseconds: u64) -> Option<[u8; 27]>;
}

/// What is printed: what all records say, or the message that was accepted at one place. Of all records values are printed only where they are asked for.
#[derive(Clone, Copy)]
pub struct Form {
    pub place: Option<u64>,
    pub has_values: bool,
}

/// What came of a listing.
#[derive(Clone, Copy)]
pub(crate) enum Listed {
    /// What was asked for is printed.
    Done,
    /// No message was accepted at this place.
    Absent { place: u64 },
    /// The place is before this one, at which the log begins.
    Early { start: u64 },
}

/// Where a record stands: its file, the byte of it where the record begins, and its place in the log.
#[derive(Clone, Copy)]
struct Spot {
    segment: u64,
    at: usize,
    place: u64,
}

/// Why a listing isn't ended.
#[derive(Clone, Copy, Debug, PartialEq, Eq)]
pub(crate) enum Stop {
    /// The log's fault.
    Fault(ListFault),
    /// The writer has failed.
    Unwritten,
}

impl Stop {
    // The same where the file that is read is the last.
    fn of_last(self, is_last: bool) -> Stop {
        match self {
            Stop::Fault(fault) => Stop::Fault(fault.of_last(is_last)),
            Stop::Unwritten => Stop::Unwritten,
        }
    }
}

impl From<ListFault> for Stop {
    fn from(fault: ListFault) -> Stop {
        Stop::Fault(fault)
    }
}

impl From<AllocError> for Stop {
    fn from(_error: AllocError) -> Stop {
        Stop::Fault(ListFault::Log(LogFault::Memory))
    }
}

impl<T: Drop> From<AllocFailed<T>> for Stop {
    fn from(_error: AllocFailed<T>) -> Stop {
        Stop::Fault(ListFault::Log(LogFault::Memory))
    }
}

/// Prints records.
#[derive(Drop)]
pub(crate) struct Printer<'a, C, W: Write> {
    alloc: Global,
    form: Form,
    calendar: &'a C,
    output: &'a mut W,
    names: Names,
}

fn written<T>(done: Result<T, std::io::Error>) -> Result<T, Stop> {
    match done {
        Ok(value) => Ok(value),
        Err(error) if error.kind() == ErrorKind::OutOfMemory => Err(Stop::from(AllocError)),
        Err(_) => Err(Stop::Unwritten),
    }
}

// What was read of the record that begins at this byte of this file.
fn readable<T>(segment: u64, at: usize, done: Result<T, ReadFault>) -> Result<T, Stop> {
    match done {
        Ok(value) => Ok(value),
        Err(ReadFault::Memory) => Err(Stop::from(AllocError)),
        Err(ReadFault::Unreadable) => Err(Stop::Fault(ListFault::Unreadable { segment, at })),
    }
}

impl<'a, C: Calendar, W: Write> Printer<'a, C, W> {
    pub(crate) fn new(alloc: Global, form: Form, calendar: &'a C, output: &'a mut W) -> Self {
        Printer {
            alloc,
            form,
            calendar,
            output,
            names: Names::new(alloc),
        }
    }

    fn print_line(&mut self, spot: Spot, record: &[u8]) -> Result<(), Stop> {
        let Spot { segment, at, place } = spot;
        let read = say(self.alloc, &mut self.names, record, self.form.has_values);
        let said = readable(segment, at, read)?;
        let time = self.calendar.text(said.time).unwrap_or(NO_TIME);
        let (time, text) = (time.escape_ascii(), said.text);
        let line = format!(in self.alloc; "{place} {time} {text}\n")?;
        written(self.output.write_all(line.as_bytes()))
    }

    fn print_message(&mut self, spot: Spot, record: &[u8]) -> Result<Listed, Stop> {
        let Spot { segment, at, place } = spot;
        match readable(segment, at, message(self.alloc, record))? {
            None => Ok(Listed::Absent { place }),
            Some(bytes) => {
                written(self.output.write_all(bytes))?;
                Ok(Listed::Done)
            }
        }
    }

    // Prints what is asked for of a record. `None`: the listing goes on.
    fn print_record(&mut self, spot: Spot, record: &[u8]) -> Result<Option<Listed>, Stop> {
        match self.form.place {
            None => {
                self.print_line(spot, record)?;
                Ok(None)
            }
            Some(only) if only != spot.place => Ok(None),
            Some(_) => Ok(Some(self.print_message(spot, record)?)),
        }
    }

    // Prints what is asked for of a file. `None`: the listing goes on.
    fn print_file<D: Disk>(&mut self, walk: &mut Walk<D>) -> Result<Option<Listed>, Stop> {
        let segment = walk.segment();
        readable(segment, 0, self.names.add_head(walk.head()))?;
        for _ in 0..u64::MAX {
            let at = walk.at();
            let Some((place, record)) = walk.next()? else {
                break;
            };
            let spot = Spot { segment, at, place };
            if let Some(listed) = self.print_record(spot, &record)? {
                return Ok(Some(listed));
            }
        }
        Ok(None)
    }

    // What is said before a file is read. `None`: the listing goes on.
    fn at_start(&self, start: u64) -> Option<Listed> {
        match self.form.place {
            Some(only) if only < start => Some(Listed::Early { start }),
            _ => None,
        }
    }

    // What is said behind all files.
    fn at_end(&self) -> Listed {
        match self.form.place {
            Some(place) => Listed::Absent { place },
            None => Listed::Done,
        }
    }

    /// Prints what is asked for.
    pub(crate) fn print<D: Disk + Drop>(&mut self, walk: Walk<D>) -> Result<Listed, (Stop, D)> {
        if let Some(listed) = self.at_start(walk.start()) {
            return Ok(listed);
        }
        let mut walk = walk;
        for _ in 0..u64::MAX {
            match self.print_file(&mut walk) {
                Ok(None) => {}
                Ok(Some(listed)) => return Ok(listed),
                Err(stop) => {
                    let is_last = walk.is_last();
                    return Err((stop.of_last(is_last), walk.into_disk()));
                }
            }
            if walk.is_last() {
                break;
            }
            walk = match walk.turn() {
                Ok(walk) => walk,
                Err((fault, disk)) => return Err((Stop::Fault(fault), disk)),
            };
        }
        Ok(self.at_end())
    }

    /// Writes what is held back.
    pub(crate) fn end(&mut self) -> Result<(), Stop> {
        written(self.output.flush())
    }
}
