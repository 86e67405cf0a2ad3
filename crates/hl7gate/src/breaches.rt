//! The command `report`: every breach of each message of a stream.
use crate::ended::Ended;
use crate::files::read_text;
use crate::maps::parse_profile;
use crate::report::{print_if_none, status_if, write_all};
use crate::unlisted::Unlisted;
use clap::ArgMatches;
use gw_diagnostics::{BreachReport, Form};
use gw_mllp::{Decoder, FrameFault};
use gw_profile::Profile;
use gw_stream::RunFault;
use std::alloc::{AllocError, Global};
use std::io::{ErrorKind, IsTerminal, Read, Write};
use std::rt::Files;
use std::sync::Arc;

/// How many bytes are read at once.
const PIECE: usize = 65_536;

/// What is reported of a stream: breaches, and, where it is asked for, what the profile doesn't list.
#[derive(Drop)]
struct Reports {
    breaches: BreachReport,
    unlisted: Option<Unlisted>,
}

/// Reports what came in the frames that have ended.
fn add_all(
    alloc: Global,
    reports: &mut Reports,
    decoder: &mut Decoder,
    out: &mut Vec<u8>,
) -> Result<(), AllocError> {
    // (a piece ends fewer frames than it has bytes)
    for _ in 0..PIECE {
        let Some(content) = decoder.next_block() else {
            return Ok(());
        };
        if let Some(unlisted) = reports.unlisted.as_mut() {
            unlisted.add(alloc, &content)?;
        }
        reports.breaches.add(alloc, content, out)?;
    }
    Ok(())
}

/// The next piece of the input, empty at its end.
fn read_piece<'b, I: Read>(input: &mut I, piece: &'b mut [u8]) -> Result<&'b [u8], RunFault> {
    for _ in 0..u64::MAX {
        match input.read(piece) {
            Ok(count) => {
                let (read, _) = piece.split_at(count);
                return Ok(read);
            }
            Err(error) if error.kind() == ErrorKind::Interrupted => {}
            Err(_) => return Err(RunFault::Read),
        }
    }
    Err(RunFault::Read)
}

/// The fault of a frame, as a run's.
fn frame_fault(fault: FrameFault) -> RunFault {
    match fault {
        FrameFault::Memory => RunFault::Memory,
        _ => RunFault::Frame(fault.number()),
    }
}

/// Reports all messages of a stream.
fn report_all<I: Read, O: Write>(
    alloc: Global,
    reports: &mut Reports,
    input: &mut I,
    output: &mut O,
) -> Result<(), RunFault> {
    let mut decoder = Decoder::new(alloc);
    let mut room = [0u8; PIECE];
    for _ in 0..u64::MAX {
        let piece = read_piece(input, &mut room)?;
        let at_end = piece.is_empty();
        let fed = decoder.feed(piece);
        let mut out = Vec::new(alloc);
        add_all(alloc, reports, &mut decoder, &mut out)?;
        write_all(output, &out)?;
        if let Err(fault) = fed {
            return Err(frame_fault(fault));
        }
        if at_end {
            return decoder.at_end().map_err(frame_fault);
        }
    }
    Err(RunFault::Turns)
}

/// What is reported by a profile, before any message.
fn reports_by(
    alloc: Global,
    profile: Arc<Profile>,
    text: &[u8],
    form: Form,
    has_unlisted: bool,
) -> Result<Reports, AllocError> {
    let unlisted = if has_unlisted {
        Some(Unlisted::new(alloc, profile.clone()?, form.has_values)?)
    } else {
        None
    };
    Ok(Reports {
        breaches: BreachReport::new(alloc, profile, text, form)?,
        unlisted,
    })
}

/// Reports all messages of a stream, and what comes behind them, and returns the status: done where there is a message and each conforms.
fn report_to_end<I: Read, O: Write, E: Write>(
    alloc: Global,
    reports: &mut Reports,
    is_json: bool,
    input: &mut I,
    output: &mut O,
    errors: &mut E,
) -> Result<u8, RunFault> {
    let reported = report_all(alloc, reports, input, output);
    if let Err(RunFault::Memory) = reported {
        // (the message at which it ended is counted, and not reported)
        return Err(RunFault::Memory);
    }
    write_all(output, &reports.breaches.end(alloc)?)?;
    if let Some(unlisted) = &reports.unlisted {
        write_all(output, &unlisted.end(alloc, is_json)?)?;
    }
    reported?;
    print_if_none(errors, reports.breaches.messages());
    Ok(status_if(reports.breaches.all_conform()))
}

/// Reports every breach of each message of a stream by a profile, and returns the status.
pub(crate) fn report<'a, R: Files + AllocGlobal, I: Read, O: Write + IsTerminal, E: Write>(
    rt: &R,
    words: &ArgMatches<'a>,
    input: &mut I,
    output: &mut O,
    errors: &mut E,
) -> Result<u8, Ended<'a>> {
    let path = words.get_str("PROFILE").unwrap_or("");
    let text = read_text(rt, path)?;
    let profile = parse_profile(rt.alloc(), path, &text)?;
    let form = Form {
        is_json: words.get_flag("json"),
        has_values: words.get_flag("values"),
        has_colours: output.is_terminal(),
    };
    let has_unlisted = words.get_flag("unlisted");
    let mut reports = reports_by(rt.alloc(), profile, &text, form, has_unlisted)?;
    let status = report_to_end(
        rt.alloc(),
        &mut reports,
        form.is_json,
        input,
        output,
        errors,
    )?;
    Ok(status)
}
