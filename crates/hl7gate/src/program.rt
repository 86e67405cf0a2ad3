//! The commands, over any reader and two writers.
use crate::breaches::report;
use crate::contents::{map, plan, profile};
use crate::ended::Ended;
use crate::explain::explain;
use crate::identity::identity;
use crate::listing::log;
use crate::maps::{check, read_profile, translate};
use crate::plans::run;
use crate::report::{DONE, USAGE, print_if_none, status_if};
use crate::runtime::Runtime;
use crate::sample::sample;
use crate::stamps::stamp_of;
use clap::ArgMatches;
use gw_stream::{Reads, Writes, answer_stream};
use std::io::{IsTerminal, Read, Write};
use std::rt::Files;
use std::time::Clock;

/// Answers each message of a stream by a profile, reports where it has none, and returns the status.
fn validated<'a, R: Files + Clock + AllocGlobal, I: Read, O: Write, E: Write>(
    rt: &R,
    words: &ArgMatches<'a>,
    input: &mut I,
    output: &mut O,
    errors: &mut E,
) -> Result<u8, Ended<'a>> {
    let Some(stamp) = stamp_of(rt, words.get_str("stamp")) else {
        return Err(Ended::Stamp);
    };
    let profile = read_profile(rt, words, "PROFILE")?;
    let mut reader = Reads::new(input);
    let mut writer = Writes::new(output);
    let counts = answer_stream(rt.alloc(), profile, stamp, &mut reader, &mut writer)?;
    print_if_none(errors, counts.answered);
    Ok(status_if(counts.aa == counts.answered))
}

/// Runs a plan, reports where the stream has no message, and returns the status.
fn ran<'a, R: Files + Clock + AllocGlobal, I: Read, O: Write, E: Write + IsTerminal>(
    rt: &R,
    words: &ArgMatches<'a>,
    input: &mut I,
    output: &mut O,
    errors: &mut E,
) -> Result<u8, Ended<'a>> {
    let counts = run(rt, words, input, output, errors)?;
    print_if_none(errors, counts.answered);
    Ok(DONE)
}

/// Does the command of these words, and answers the status.
pub(crate) fn command<'a, R: Runtime, I: Read, O: Write + IsTerminal, E: Write + IsTerminal>(
    rt: &R,
    words: &ArgMatches<'a>,
    input: &mut I,
    output: &mut O,
    errors: &mut E,
) -> Result<u8, Ended<'a>> {
    match words.subcommand() {
        Some(("validate", words)) => validated(rt, words, input, output, errors),
        Some(("report", words)) => report(rt, words, input, output, errors),
        Some(("run", words)) => ran(rt, words, input, output, errors),
        Some(("identity", words)) => identity(rt, words, output),
        Some(("sample", words)) => sample(rt, words, output, errors),
        Some(("check", words)) => check(rt, words, output, errors),
        Some(("explain", words)) => explain(rt, words, output, errors),
        Some(("translate", words)) => translate(rt, words, input, output, errors),
        Some(("profile", words)) => profile(rt, words, output),
        Some(("map", words)) => map(rt, words, output),
        Some(("plan", words)) => plan(rt, words, output, errors),
        Some(("log", words)) => log(rt, words, output),
        _ => Ok(USAGE),
    }
}
