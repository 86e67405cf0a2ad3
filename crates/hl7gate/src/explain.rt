//! The command `explain`: what `check` says of a map, and samples of the source that show why it is refused, or what an accepted map leaves out.
use crate::ended::Ended;
use crate::maps::{judged, read_sides, read_written, write_accepted, write_refusal};
use crate::report::{DONE, write_all};
use clap::ArgMatches;
use gw_diagnostics::{Judged, ProfilePair, Refusal, Written, counterexamples, leavings};
use std::alloc::Global;
use std::io::Write;
use std::rt::Files;

fn write_explained<'a, O: Write, E: Write>(
    alloc: Global,
    sides: &ProfilePair,
    written: &Written<'a>,
    judged: &Judged,
    output: &mut O,
    errors: &mut E,
) -> Result<u8, Ended<'a>> {
    match judged {
        Judged::Allowed(map) => {
            let said = leavings(alloc, sides, written, map)?;
            write_accepted(output)?;
            write_all(output, &said)?;
            Ok(DONE)
        }
        Judged::Refused(refused) => {
            let said = counterexamples(alloc, sides, written, refused)?;
            let refusal = Refusal {
                sides,
                written,
                refused,
            };
            let status = write_refusal(alloc, refusal, Some(&mut *output), errors)?;
            write_all(output, &said)?;
            Ok(status)
        }
    }
}

/// Prints whether the rules allow a map, as `check` does. Of a refused one it prints samples of the source that show it, of an accepted one the
/// fields of the source that it leaves out. Returns the status.
pub(crate) fn explain<'a, R: Files + AllocGlobal, O: Write, E: Write>(
    rt: &R,
    words: &ArgMatches<'a>,
    output: &mut O,
    errors: &mut E,
) -> Result<u8, Ended<'a>> {
    let sides = read_sides(rt, words)?;
    let written = read_written(rt, words, "MAP")?;
    let judged = judged(rt.alloc(), &sides, &written)?;
    write_explained(rt.alloc(), &sides, &written, &judged, output, errors)
}
