//! The command `log`: what the log of a folder says.
use crate::ended::Ended;
use crate::report::DONE;
use clap::ArgMatches;
use gw_civil::utc_text;
use gw_listing::{Calendar, Form, Unlisted, list};
use gw_stream::RunFault;
use std::fs::File;
use std::io::Write;
use std::marker::Brand;
use std::rt::Files;

/// Times in UTC.
struct Utc;

impl Calendar for Utc {
    fn text(&self, microseconds: u64) -> Option<[u8; 27]> {
        utc_text(microseconds)
    }
}

/// The place that the words name, if they name one.
fn place_in<'a>(words: &ArgMatches<'a>) -> Result<Option<u64>, Ended<'a>> {
    let Some(word) = words.get_str("place") else {
        return Ok(None);
    };
    match word.parse::<u64>() {
        Ok(place) => Ok(Some(place)),
        Err(_) => Err(Ended::Place),
    }
}

/// Prints what the log of a folder says, or one message of it. Returns the status.
pub(crate) fn log<'a, R: Files<File = File> + AllocGlobal + Clone + Drop, O: Write>(
    rt: &R,
    words: &ArgMatches<'a>,
    output: &mut O,
) -> Result<u8, Ended<'a>> {
    let path = words.get_str("FOLDER").unwrap_or("");
    let form = Form {
        place: place_in(words)?,
        has_values: words.get_flag("values"),
    };
    match list::<_, Brand, _, _>(rt, path, form, &Utc, output) {
        Ok(()) => Ok(DONE),
        Err(Unlisted::Memory) => Err(Ended::Run(RunFault::Memory)),
        Err(Unlisted::Unwritten) => Err(Ended::Run(RunFault::Write)),
        Err(Unlisted::Unread { said }) => Err(Ended::Unlisted { said }),
        Err(Unlisted::Absent { said }) => Err(Ended::Refused { said }),
    }
}
