//! What a command prints, and its status.
use crate::ended::Ended;
use crate::refusals::{print_breach, print_message};
use clap::Error;
use clap::error::ErrorKind;
use gw_audit::Report;
use gw_stream::RunFault;
use std::io;
use std::io::Write;

/// Done; of `validate`, with AA for each message.
pub(crate) const DONE: u8 = 0;

/// A text was refused, or an answer wasn't AA.
pub(crate) const REFUSED: u8 = 1;

/// The words are no command.
pub(crate) const USAGE: u8 = 2;

/// A read, write, frame, line, turns or unsettled fault.
pub(crate) const FAULT: u8 = 3;

/// Allocation failure.
pub(crate) const NO_MEMORY: u8 = 4;

/// Reports that no message was found in a stream, where none was: it may be a file without frames.
pub(crate) fn print_if_none<E: Write>(errors: &mut E, messages: u64) {
    if messages == 0 {
        let _ = writeln!(
            errors,
            "no framed message was found on standard input; examples/frame (hl7gate-frame) prints files as framed messages, and with --split a file of many"
        );
    }
}

/// Says that the open journal is full, where it is.
pub(crate) fn print_if_full<E: Write>(errors: &mut E, is_full: bool) {
    if is_full {
        let _ = writeln!(
            errors,
            "the journal is full: what was accepted and isn't released was not sent; end a service earlier"
        );
    }
}

/// Reports what a service did.
pub(crate) fn print_report<O: Write, E: Write>(
    output: &mut O,
    errors: &mut E,
    report: Report,
) -> u8 {
    let Report {
        accepted,
        refused,
        kept,
        released,
        entries,
    } = report;
    match writeln!(
        output,
        "accepted {accepted} refused {refused} kept {kept} released {released} entries {entries}"
    ) {
        Ok(()) => DONE,
        Err(_) => print_fault(errors, RunFault::Write),
    }
}

/// The status of a stream that was answered to its end.
pub(crate) fn status_if(accepted: bool) -> u8 {
    if accepted { DONE } else { REFUSED }
}

/// Reports a fault by its number.
pub(crate) fn print_fault<E: Write>(errors: &mut E, fault: RunFault) -> u8 {
    let number = fault.number();
    let _ = writeln!(errors, "fault {number}");
    match fault {
        RunFault::Memory => NO_MEMORY,
        _ => FAULT,
    }
}

/// Writes all the bytes, and what the writer holds back.
pub(crate) fn write_all<O: Write>(output: &mut O, bytes: &[u8]) -> Result<(), RunFault> {
    if output.write_all(bytes).is_err() || output.flush().is_err() {
        return Err(RunFault::Write);
    }
    Ok(())
}

// Reports a fault of a file or an address, which is named.
fn print_device<E: Write>(errors: &mut E, fault: RunFault, name: &str, said: &str) -> u8 {
    let status = print_fault(errors, fault);
    let _ = writeln!(errors, "{name}: {said}");
    status
}

/// Reports why a command wasn't done.
pub(crate) fn tell<E: Write>(errors: &mut E, ended: &Ended<'_>) -> u8 {
    match ended {
        Ended::Stamp => {
            let _ = writeln!(errors, "error: the value of '--stamp' is fourteen digits");
            USAGE
        }
        Ended::Place => {
            let _ = writeln!(errors, "error: the value of '--place' is a number");
            USAGE
        }
        Ended::Count { name, least, most } => {
            let _ = writeln!(errors, "error: {name} is a number from {least} to {most}");
            USAGE
        }
        Ended::Unheard { address } => {
            print_device(errors, RunFault::Read, address, "can't be listened on")
        }
        Ended::Unread { path } => {
            print_device(
                errors,
                RunFault::Read,
                path,
                "the file can't be opened or read",
            )
        }
        Ended::Refused { said } => {
            let _ = writeln!(errors, "{said}");
            REFUSED
        }
        Ended::Unwritten { file } => {
            print_device(
                errors,
                RunFault::Write,
                file,
                "the file can't be made or written",
            )
        }
        Ended::Taken { path } => {
            print_device(
                errors,
                RunFault::Write,
                path,
                "another process works in this folder",
            )
        }
        Ended::Unanswered { path } => {
            print_device(
                errors,
                RunFault::Read,
                path,
                "no gateway answers in this folder",
            )
        }
        Ended::Unlisted { said } => {
            let status = print_fault(errors, RunFault::Read);
            let _ = writeln!(errors, "{said}");
            status
        }
        Ended::Message { fault } => print_message(errors, *fault),
        Ended::Breaks(breach) => print_breach(errors, *breach),
        Ended::Run(fault) => print_fault(errors, *fault),
    }
}

/// Reports what the words lack, or the help or version that they ask for.
pub(crate) fn print_words<O: Write, E: Write>(output: &mut O, errors: &mut E, error: &Error) -> u8 {
    if error.kind() == ErrorKind::OutOfMemory {
        return print_fault(errors, RunFault::Memory);
    }
    if error.use_stderr() {
        let _ = write!(errors, "{error}");
        return USAGE;
    }
    match write!(output, "{error}") {
        Ok(()) => DONE,
        Err(_) => print_fault(errors, RunFault::Write),
    }
}

/// The status of a command. Where it could not go on, that is reported.
pub(crate) fn status_of<E: Write>(errors: &mut E, ended: &Result<u8, Ended<'_>>) -> u8 {
    match ended {
        Ok(status) => *status,
        Err(ended) => tell(errors, ended),
    }
}

/// Reports that the words of the command line can't be read.
pub(crate) fn print_unread_words<E: Write>(errors: &mut E, error: &io::Error) -> u8 {
    if error.kind() == io::ErrorKind::OutOfMemory {
        return print_fault(errors, RunFault::Memory);
    }
    let _ = writeln!(errors, "error: a word of the command line isn't text");
    USAGE
}
