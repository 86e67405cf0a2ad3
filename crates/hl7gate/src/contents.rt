//! The commands `profile`, `map` and `plan`: what a text has, or why it is refused.
use crate::ended::Ended;
use crate::files::read_text;
use crate::maps::{parse_map, parse_profile, read_written, write_refusal};
use crate::plans::refused;
use crate::report::{DONE, write_all};
use clap::ArgMatches;
use gw_diagnostics::{
    Judged, ProfilePair, Refusal, judge, map_at, map_contents, plan_contents, profile_contents,
    profile_named,
};
use gw_plan::{Plan, PlanFault};
use std::alloc::Global;
use std::io::Write;
use std::rt::Files;

/// Prints what a profile has, and answers the status.
pub(crate) fn profile<'a, R: Files + AllocGlobal, O: Write>(
    rt: &R,
    words: &ArgMatches<'a>,
    output: &mut O,
) -> Result<u8, Ended<'a>> {
    let path = words.get_str("FILE").unwrap_or("");
    let text = read_text(rt, path)?;
    parse_profile(rt.alloc(), path, &text)?;
    write_all(output, &profile_contents(rt.alloc(), &text)?)?;
    Ok(DONE)
}

/// Prints what a map has, which is parsed by itself: its profiles aren't looked at. Answers the status.
pub(crate) fn map<'a, R: Files + AllocGlobal, O: Write>(
    rt: &R,
    words: &ArgMatches<'a>,
    output: &mut O,
) -> Result<u8, Ended<'a>> {
    let written = read_written(rt, words, "FILE")?;
    parse_map(rt.alloc(), &written)?;
    write_all(output, &map_contents(rt.alloc(), &written.text)?)?;
    Ok(DONE)
}

/// Reports each rule that a map of a plan breaks, as `check` does, and answers the status.
fn print_rules<'a, E: Write>(
    alloc: Global,
    path: &'a str,
    text: &[u8],
    line: u32,
    errors: &mut E,
) -> Result<u8, Ended<'a>> {
    let written = map_at(alloc, path, text, line)?;
    let map = parse_map(alloc, &written)?;
    let source = parse_profile(alloc, path, profile_named(text, map.source()))?;
    let target = parse_profile(alloc, path, profile_named(text, map.target()))?;
    let sides = ProfilePair { source, target };
    match &judge(alloc, &sides, map)? {
        // (what was refused is refused again)
        Judged::Allowed(_) => Ok(DONE),
        Judged::Refused(refused) => {
            let _ = writeln!(errors, "plan refused 5 line {line}");
            let refusal = Refusal {
                sides: &sides,
                written: &written,
                refused,
            };
            write_refusal(alloc, refusal, None::<&mut Vec<u8>>, errors)
        }
    }
}

/// Prints what a plan has, or what is wrong with it: of a map that is refused each rule that it breaks. Answers the status.
pub(crate) fn plan<'a, R: Files + AllocGlobal, O: Write, E: Write>(
    rt: &R,
    words: &ArgMatches<'a>,
    output: &mut O,
    errors: &mut E,
) -> Result<u8, Ended<'a>> {
    let path = words.get_str("PLAN").unwrap_or("");
    let text = read_text(rt, path)?;
    match Plan::parse(rt.alloc(), &text) {
        Ok(_) => {
            write_all(output, &plan_contents(rt.alloc(), &text)?)?;
            Ok(DONE)
        }
        Err(PlanFault::Check { line, .. }) => {
            let line = u32::try_from(line).unwrap_or(u32::MAX);
            print_rules(rt.alloc(), path, &text, line, errors)
        }
        Err(fault) => Err(refused(rt.alloc(), path, &text, fault)?),
    }
}
