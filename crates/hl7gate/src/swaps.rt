//! Plans that are swapped in while a service runs, and chapters that are closed.
use crate::doors::{Reporter, Who};
use crate::ended::Ended;
use crate::files::read_text;
use crate::plans::refused;
use crate::report::tell;
use crate::runtime::Runtime;
use crate::threads::Service;
use gw_run::{SwapFault, swap};
use gw_stream::RunFault;
use std::alloc::AllocError;
use std::io::{BufRead, BufReader, Eprint, ErrorKind, Print, Read, Write};
use std::rt::Files;
use std::sync::Wait;
use std::sync::ledger::Ledger;

/// Why the plan of a file isn't swapped in.
#[derive(Drop)]
pub(crate) enum Unswapped<'a> {
    /// The file can't be read, or its text isn't a plan.
    Text(Ended<'a>),
    /// The gate refuses it.
    Gate(SwapFault),
}

impl From<AllocError> for Unswapped<'_> {
    fn from(_error: AllocError) -> Self {
        Unswapped::Gate(SwapFault::Memory)
    }
}

/// Why a plan's file isn't read.
fn unread(ended: Ended<'_>) -> Unswapped<'_> {
    if matches!(ended, Ended::Run(_)) {
        Unswapped::Gate(SwapFault::Memory)
    } else {
        Unswapped::Text(ended)
    }
}

/// Swaps in the plan of a file, and gives its version.
fn swap_file<'a, L: Ledger, R: Wait + Files + Eprint + AllocGlobal>(
    door: &mut Reporter<'_, '_, L, R>,
    rt: &R,
    path: &'a str,
) -> Result<u64, Unswapped<'a>> {
    let text = match read_text(rt, path) {
        Ok(text) => text,
        Err(ended) => return Err(unread(ended)),
    };
    match swap(rt.alloc(), door, &text) {
        Ok(version) => Ok(version),
        Err(SwapFault::Plan(fault)) => {
            Err(Unswapped::Text(refused(rt.alloc(), path, &text, fault)?))
        }
        Err(fault) => Err(Unswapped::Gate(fault)),
    }
}

/// Why the plan of a file isn't swapped in: the lines that say so.
pub(crate) fn lines_of<R: AllocGlobal>(rt: &R, path: &str, why: &Unswapped<'_>) -> Vec<u8> {
    let mut lines = Vec::new(rt.alloc());
    match why {
        Unswapped::Text(Ended::Unread { .. }) => {
            let _ = writeln!(
                lines,
                "plan unread\n{path}: the file can't be opened or read"
            );
        }
        Unswapped::Text(ended) => {
            tell(&mut lines, ended);
        }
        Unswapped::Gate(fault) => {
            let number = fault.number();
            let _ = writeln!(lines, "swap refused {number}\n{path}: {fault}");
        }
    }
    lines
}

/// The answer where a plan isn't read.
pub(crate) fn unread_answer<R: AllocGlobal>(
    rt: &R,
    path: &str,
    ended: Ended<'_>,
) -> Result<String, AllocError> {
    let lines = lines_of(rt, path, &Unswapped::Text(ended));
    let lines = String::from_utf8(lines).unwrap_or(String::new(rt.alloc()));
    format!(in rt.alloc(); "refused\n{lines}")
}

/// Swaps in the plan of a file, and gives its version, or the lines that say why it isn't swapped in.
/// Where the plan has other receivers, they name the word that takes it.
pub(crate) fn swap_or_lines<L: Ledger, R: Wait + Files + Eprint + AllocGlobal>(
    door: &mut Reporter<'_, '_, L, R>,
    rt: &R,
    path: &str,
) -> Result<u64, Vec<u8>> {
    match swap_file(door, rt, path) {
        Ok(version) => Ok(version),
        Err(why) => {
            let mut lines = lines_of(rt, path, &why);
            if let Unswapped::Gate(SwapFault::Unlike) = &why {
                let _ = writeln!(lines, "`install {path}` takes a plan with other receivers");
            }
            Err(lines)
        }
    }
}

/// Takes each of these lines in order, up to their end. Where they can't be read on, standard error says so.
pub(crate) fn swap_all<L: Ledger, R: Runtime + Wait, I: Read + Drop>(
    service: &Service<'_, L, R>,
    paths: I,
) {
    if let Err(fault) = swap_lines(service, paths) {
        let _ = eprintln!(service.rt; "swaps ended: fault {}: {fault}", fault.number());
        service.fail(fault);
    }
}

fn swap_lines<L: Ledger, R: Runtime + Wait, I: Read + Drop>(
    service: &Service<'_, L, R>,
    paths: I,
) -> Result<(), RunFault> {
    let Some(mut door) = service.door(Who::Swaps) else {
        return Err(RunFault::Memory);
    };
    let read = swap_with(service, &mut door, paths);
    service.hand_in(door);
    read
}

/// What comes next on standard input.
#[derive(Clone, Copy)]
enum Next {
    Line,
    NoText,
    End,
}

/// Reads the next line into `line`, which is empty.
fn read_next<I: Read + Drop>(
    lines: &mut BufReader<I>,
    line: &mut String,
) -> Result<Next, RunFault> {
    let error = match lines.read_line(line) {
        Ok(0) => return Ok(Next::End),
        Ok(_) => return Ok(Next::Line),
        Err(error) => error.kind(),
    };
    match error {
        ErrorKind::InvalidData => Ok(Next::NoText),
        ErrorKind::OutOfMemory => Err(RunFault::Memory),
        _ => Err(RunFault::Read),
    }
}

/// Does what each line says: `cut` closes the journal, and any other is the path of a plan to be swapped in.
fn swap_with<L: Ledger, R: Runtime + Wait, I: Read + Drop>(
    service: &Service<'_, L, R>,
    door: &mut Reporter<'_, '_, L, R>,
    paths: I,
) -> Result<(), RunFault> {
    let rt = service.rt;
    let Ok(mut lines) = BufReader::new(rt.alloc(), paths) else {
        return Err(RunFault::Memory);
    };
    let mut line = String::new(rt.alloc());
    for _ in rt.forever() {
        line.clear();
        match read_next(&mut lines, &mut line)? {
            Next::End => return Ok(()),
            Next::NoText => {
                let _ = eprintln!(rt; "plan unread\na line of standard input isn't text");
            }
            Next::Line => match path_of(&line) {
                "cut" => cut_one(service, door),
                path => swap_one(door, rt, path),
            },
        }
    }
    unreachable!()
}

/// The path of a line, without its end: LF, or CR LF.
fn path_of(line: &str) -> &str {
    let path = line.strip_suffix('\n').unwrap_or(line);
    path.strip_suffix('\r').unwrap_or(path)
}

/// Swaps in the plan of a file, and prints the outcome.
fn swap_one<L: Ledger, R: Runtime + Wait>(door: &mut Reporter<'_, '_, L, R>, rt: &R, path: &str) {
    match swap_file(door, rt, path) {
        Ok(version) => {
            let _ = println!(rt; "swapped {version}");
        }
        Err(why) => {
            if let Ok(lines) = String::from_utf8(lines_of(rt, path, &why)) {
                let _ = eprint!(rt; "{lines}");
            }
        }
    }
}

/// Closes the gate's journal, and prints how many entries the chapter has, or why it isn't closed.
fn cut_one<L: Ledger, R: Wait + Print + Eprint + AllocGlobal>(
    service: &Service<'_, L, R>,
    door: &mut Reporter<'_, '_, L, R>,
) {
    let rt = service.rt;
    match service.cut(door) {
        Ok(Some(entries)) => {
            let _ = println!(rt; "cut {entries}");
        }
        Ok(None) => {
            let _ = println!(rt; "cut pending");
        }
        Err(_) => {
            let _ = println!(rt; "cut refused 1");
        }
    }
}
