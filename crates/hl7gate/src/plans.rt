//! The command on a plan.
ghost use Rattle.std.specs.Prelude.{◌≡◌, false, length, All, IfOk};

use crate::ended::Ended;
use crate::files::read_text;
use crate::progress::{Counted, Watched};
use crate::stamps::stamp_of;
use clap::ArgMatches;
use gw_diagnostics::refused_plan;
use gw_plan::{Plan, PlanFault, Receiver};
use gw_stream::{Counts, Reads, RunFault, Sink, Writes, serve_once};
use std::alloc::{AllocError, Global};
use std::cell::Cell;
use std::fs::File;
use std::io::{IsTerminal, Read, Write};
use std::path::{Path, PathBuf};
use std::rt::Files;
use std::time::Clock;

/// That the text of a file isn't a plan.
pub(crate) fn refused<'a>(
    alloc: Global,
    path: &'a str,
    text: &[u8],
    fault: PlanFault,
) -> Result<Ended<'a>, AllocError> {
    let said = refused_plan(alloc, path, text, fault)?;
    Ok(Ended::Refused { said })
}

/// The plan of a file's text.
pub(crate) fn parse_plan<'a>(alloc: Global, path: &'a str, text: &[u8]) -> Result<Plan, Ended<'a>> {
    match Plan::parse(alloc, text) {
        Ok(plan) => Ok(plan),
        Err(fault) => Err(refused(alloc, path, text, fault)?),
    }
}

/// The plan of the file PLAN.
pub(crate) fn read_plan<'a, R: Files + AllocGlobal>(
    rt: &R,
    words: &ArgMatches<'a>,
) -> Result<Plan, Ended<'a>> {
    let path = words.get_str("PLAN").unwrap_or("");
    let text = read_text(rt, path)?;
    parse_plan(rt.alloc(), path, &text)
}

/// The file of a receiver. Its name is letters, digits and `_`, so the file lies in the folder and nowhere else.
fn path_of(alloc: Global, folder: &str, receiver: &Receiver) -> Result<PathBuf, AllocError> {
    let file = format!(in alloc; "{}.mllp", receiver.name.escape_ascii())?;
    Path::new(folder).join(alloc, file.as_str())
}

/// The files of a plan's receivers, in their order.
fn paths_of(alloc: Global, folder: &str, plan: &Plan) -> Result<Vec<PathBuf>, AllocError>
    ensures { IfOk result (λ paths. length paths.items ≡ length plan.now.receivers) }
{
    let mut paths = Vec::new(alloc);
    'each: for receiver in plan.receivers() {
        paths.push(path_of(alloc, folder, receiver)?)?;
    }
    Ok(paths)
}

/// That this file can't be made or written.
fn unwritten<'a>(alloc: Global, path: &PathBuf) -> Ended<'a> {
    match String::from_str(alloc, path.as_str()) {
        Ok(file) => Ended::Unwritten { file },
        Err(_) => Ended::Run(RunFault::Memory),
    }
}

/// Makes a file anew.
fn make_file<'a, R: Files + AllocGlobal>(
    rt: &R,
    path: &PathBuf,
) -> Result<Writes<R::File>, Ended<'a>>
    ensures { IfOk result (λ file. ⟦<Writes<R::File> as Sink>⟧.has_failed file ≡ false) }
{
    match File::create(rt, path.as_str()) {
        Ok(file) => Ok(Writes::new(file)),
        Err(_) => Err(unwritten(rt.alloc(), path)),
    }
}

/// Makes these files anew, in this order.
fn make_files<'a, R: Files + AllocGlobal>(
    rt: &R,
    paths: &[PathBuf],
) -> Result<Vec<Writes<R::File>>, Ended<'a>>
    ensures one_each { IfOk result (λ files. length files.items ≡ length paths.now) }
    ensures works { IfOk result (λ files. All (λ file. ⟦<Writes<R::File> as Sink>⟧.has_failed file ≡ false) files.items) }
{
    let mut files = Vec::new(rt.alloc());
    'each: for path in paths {
        files.push(make_file(rt, path)?)?;
    }
    Ok(files)
}

/// Why a run ended, with the file that failed where one did.
fn ended_by<'a, S: Sink>(
    alloc: Global,
    fault: RunFault,
    paths: &[PathBuf],
    files: &[S],
) -> Ended<'a> {
    for (path, file) in paths.iter().zip(files) {
        if file.failed() {
            return unwritten(alloc, path);
        }
    }
    Ended::Run(fault)
}

/// Answers each message of a stream by the plan of the file PLAN, and writes what each receiver is sent to a file of FOLDER.
/// Nothing of FOLDER is touched before the plan is accepted. On a terminal the progress of the run is shown.
pub(crate) fn run<'a, R: Files + Clock + AllocGlobal, I: Read, O: Write, E: Write + IsTerminal>(
    rt: &R,
    words: &ArgMatches<'a>,
    input: &mut I,
    output: &mut O,
    errors: &mut E,
) -> Result<Counts, Ended<'a>> {
    let Some(stamp) = stamp_of(rt, words.get_str("stamp")) else {
        return Err(Ended::Stamp);
    };
    let plan = read_plan(rt, words)?;
    let paths = paths_of(rt.alloc(), words.get_str("FOLDER").unwrap_or(""), &plan)?;
    let mut files = make_files(rt, &paths)?;
    let answered = Cell::new(0);
    let shows = errors.is_terminal();
    let mut reader = Reads::new(Watched::new(rt, input, errors, &answered, shows));
    let mut answers = Writes::new(Counted::new(output, &answered));
    match serve_once(
        rt.alloc(),
        plan,
        stamp,
        &mut reader,
        &mut answers,
        &mut files,
    ) {
        Ok(counts) => Ok(counts),
        Err(fault) => Err(ended_by(rt.alloc(), fault, &paths, &files)),
    }
}
