//! The command `identity`: the map from a profile to itself, as text to start from.
use crate::ended::Ended;
use crate::maps::read_profile;
use crate::report::{DONE, write_all};
use clap::ArgMatches;
use gw_diagnostics::identity_map;
use std::io::Write;
use std::rt::Files;

/// Prints the map from a profile to itself. Returns the status.
pub(crate) fn identity<'a, R: Files + AllocGlobal, O: Write>(
    rt: &R,
    words: &ArgMatches<'a>,
    output: &mut O,
) -> Result<u8, Ended<'a>> {
    let profile = read_profile(rt, words, "PROFILE")?;
    write_all(output, &identity_map(rt.alloc(), &profile)?)?;
    Ok(DONE)
}
