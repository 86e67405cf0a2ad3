//! The log of a folder of the operating system, which isn't changed.
use crate::fault::ListFault;
use crate::lines::{Calendar, Form, Listed, Printer, Stop};
use crate::opening::open_log;
use gw_folder::{Failure, FolderView, OpenFault};
use gw_log::{Calls, LogFault, Recorded, Start};
use std::alloc::{AllocError, Global};
use std::fs::File;
use std::io::{ErrorKind, Write};
use std::rt::Files;

/// Why a log isn't listed, or not to its end.
#[derive(Debug, Drop)]
pub enum Unlisted {
    /// An allocation failed.
    Memory,
    /// The writer has failed.
    Unwritten,
    /// The folder can't be read, or what it has is no log: this says what to do.
    Unread { said: String },
    /// No message was accepted at the place that is asked for, as this says.
    Absent { said: String },
}

impl From<AllocError> for Unlisted {
    fn from(_error: AllocError) -> Unlisted {
        Unlisted::Memory
    }
}

// What is said of a failure: behind the path of its file, or behind that of the folder.
fn failed(alloc: Global, path: &str, failure: Failure) -> Result<String, AllocError> {
    match failure.number {
        Some(_) => format!(in alloc; "{path}/{failure}"),
        None => format!(in alloc; "{path}: {failure}"),
    }
}

// What is said of a folder that can't be opened.
fn unopened(alloc: Global, path: &str, fault: OpenFault) -> Result<Unlisted, AllocError> {
    let said = match fault {
        OpenFault::Memory => return Ok(Unlisted::Memory),
        OpenFault::Failed(failure) => failed(alloc, path, failure)?,
        OpenFault::Taken => format!(in alloc; "{path}: {fault}")?,
        // (they begin with the file's name)
        OpenFault::Misnamed { .. } | OpenFault::NotAFile { .. } => {
            format!(in alloc; "{path}/{fault}")?
        }
    };
    Ok(Unlisted::Unread { said })
}

// What is said of the log's own fault.
fn said_of_log(alloc: Global, path: &str, fault: LogFault) -> Result<String, AllocError> {
    match fault {
        LogFault::Missing => format!(in alloc;
            "{path}: no log is kept in this folder. Name the folder of a log"
        ),
        LogFault::Damaged { segment, at } => format!(in alloc;
            "{path}/{segment:020}.segment: damaged at byte {at}: missing, cut, or not as it was written. Put back a copy of this file"
        ),
        LogFault::Full => format!(in alloc;
            "{path}: no number comes behind that of a record or a file, so no gateway wrote this log. Put back a copy of the folder"
        ),
        fault => format!(in alloc;
            "{path}: {fault}. See what the system's own messages say of its disk"
        ),
    }
}

// What to do about the last file.
const NEWEST: &str =
    "Put back the newest copy of this file. It is the last: what was written after the copy was made is lost then, and no listing says so";

// What is said of a fault of a log's files.
fn said_of(alloc: Global, path: &str, fault: ListFault) -> Result<String, AllocError> {
    match fault {
        ListFault::Log(fault) => said_of_log(alloc, path, fault),
        ListFault::Last { segment, at } => format!(in alloc;
            "{path}/{segment:020}.segment: damaged at byte {at}: missing, cut, or not as it was written. {NEWEST}"
        ),
        ListFault::Displaced { segment } => format!(in alloc;
            "{path}/{segment:020}.segment: doesn't follow on the records before it. Put back a copy of this file, and of those before it"
        ),
        ListFault::Mixed { segment } => {
            let next = segment.saturating_add(1);
            format!(in alloc;
                "{path}/{next:020}.segment: {segment} and {next} are of different logs. Put back a copy of the one that isn't this folder's"
            )
        }
        ListFault::Unreadable { segment, at } => format!(in alloc;
            "{path}/{segment:020}.segment: the record at byte {at} is none of a gateway's log. Use the version of this program that wrote it"
        ),
    }
}

fn stopped(
    alloc: Global,
    path: &str,
    stop: Stop,
    failure: Option<Failure>,
) -> Result<Unlisted, AllocError> {
    let said = match (stop, failure) {
        (Stop::Unwritten, _) => return Ok(Unlisted::Unwritten),
        (Stop::Fault(ListFault::Log(LogFault::Memory)), _) => return Ok(Unlisted::Memory),
        (Stop::Fault(ListFault::Log(LogFault::Device)), Some(failure)) => {
            if failure.kind == ErrorKind::OutOfMemory {
                return Ok(Unlisted::Memory);
            }
            failed(alloc, path, failure)?
        }
        (Stop::Fault(fault), _) => said_of(alloc, path, fault)?,
    };
    Ok(Unlisted::Unread { said })
}

// What is said where the message that is asked for isn't there.
fn found(alloc: Global, path: &str, listed: Listed) -> Result<(), Unlisted> {
    let said = match listed {
        Listed::Done => return Ok(()),
        Listed::Absent { place } => format!(in alloc;
            "{path}: no message was accepted at place {place}. Name the place of a line that says `accepted`"
        )?,
        Listed::Early { start } => format!(in alloc;
            "{path}: the log begins at place {start}. Name this one or a later one"
        )?,
    };
    Err(Unlisted::Absent { said })
}

// Prints what is asked for of a log over these files.
fn print<K: Calls + Drop, S: Start, C: Calendar, W: Write>(
    alloc: Global,
    calls: K,
    printer: &mut Printer<'_, C, W>,
) -> Result<Listed, (Stop, K)> {
    let walk = match open_log(alloc, Recorded::<K, S>::new(calls)) {
        Ok(walk) => walk,
        Err((fault, disk)) => return Err((Stop::Fault(fault), disk.into_calls())),
    };
    match printer.print(walk) {
        Ok(listed) => Ok(listed),
        Err((stop, disk)) => Err((stop, disk.into_calls())),
    }
}

/// Prints what is asked for of the log in a folder, which isn't changed.
pub fn list<R: Files<File = File> + AllocGlobal + Clone + Drop, S: Start, C: Calendar, W: Write>(
    rt: &R,
    path: &str,
    form: Form,
    calendar: &C,
    output: &mut W,
) -> Result<(), Unlisted> {
    let alloc = rt.alloc();
    let view = match FolderView::open(rt, path) {
        Ok(view) => view,
        Err(fault) => return Err(unopened(alloc, path, fault)?),
    };
    let mut printer = Printer::new(alloc, form, calendar, output);
    let printed = print::<_, S, C, W>(alloc, view, &mut printer);
    let ended = printer.end();
    match printed {
        Err((stop, view)) => Err(stopped(alloc, path, stop, view.failure())?),
        Ok(listed) => match ended {
            Err(stop) => Err(stopped(alloc, path, stop, None)?),
            Ok(()) => found(alloc, path, listed),
        },
    }
}
