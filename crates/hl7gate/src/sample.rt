//! The command `sample`: a message that conforms to a profile, made up from the profile alone.
use crate::ended::Ended;
use crate::maps::{read_profile, write_message};
use crate::report::{DONE, REFUSED, USAGE};
use clap::ArgMatches;
use gw_sample::{Extent, Texts};
use std::io::Write;
use std::rt::Files;

/// Which sample the words ask for, the least where they don't say. None where they ask for both.
fn extent(words: &ArgMatches<'_>) -> Option<Extent> {
    match (words.get_flag("least"), words.get_flag("most")) {
        (true, true) => None,
        (_, false) => Some(Extent::Least),
        (false, true) => Some(Extent::Most),
    }
}

/// Reports that what has to come by a profile is more than a message has.
fn print_none<E: Write>(errors: &mut E, path: &str) -> u8 {
    let _ = writeln!(
        errors,
        "{path}: more than 10000 segments or 524288 texts have to come, which no message has"
    );
    REFUSED
}

/// Prints a message that conforms to a profile, each segment with a CR behind it. Returns the status.
pub(crate) fn sample<'a, R: Files + AllocGlobal, O: Write, E: Write>(
    rt: &R,
    words: &ArgMatches<'a>,
    output: &mut O,
    errors: &mut E,
) -> Result<u8, Ended<'a>> {
    let Some(extent) = extent(words) else {
        let _ = writeln!(errors, "error: --least and --most exclude each other");
        return Ok(USAGE);
    };
    let profile = read_profile(rt, words, "PROFILE")?;
    match gw_sample::sample(rt.alloc(), &profile, extent, Texts::Value(0))? {
        Some(tree) => {
            write_message(rt.alloc(), tree.message(), output)?;
            Ok(DONE)
        }
        None => Ok(print_none(errors, words.get_str("PROFILE").unwrap_or(""))),
    }
}
