//! The command `tell`: a line for a running gateway, and its answer.
use crate::ended::Ended;
use crate::gateway::control_path;
use crate::report::{DONE, REFUSED, write_all};
use clap::ArgMatches;
use gw_stream::RunFault;
use std::alloc::AllocError;
use std::io;
use std::io::{ErrorKind, Read, Write};
use std::net::{Net, Shutdown};
use std::os::unix::net::UnixStream;

/// The words behind the first, and what stands before each.
const REST: &[(&str, &str)] = &[
    (" --refused ", "refused"),
    (" ", "ARGUMENT"),
    (" ", "NEXT"),
    (" ", "LAST"),
];

/// Adds the line that the words are.
fn add_line(line: &mut String, words: &ArgMatches<'_>) -> Result<(), AllocError> {
    line.push_str(words.get_str("WORD").unwrap_or(""))?;
    if words.get_flag("json") {
        line.push_str(" --json\n")?;
        return Ok(());
    }
    for (before, name) in REST {
        if let Some(word) = words.get_str(*name) {
            line.push_str(*before)?;
            line.push_str(word)?;
        }
    }
    let end = if words.get_flag("values") {
        " --values\n"
    } else {
        "\n"
    };
    line.push_str(end)?;
    Ok(())
}

/// What the gateway at this socket answers.
fn asked<R: Net + AllocGlobal>(rt: &R, path: &str, line: &str) -> io::Result<Vec<u8>> {
    let mut stream = UnixStream::connect(rt, path)?;
    stream.write_all(line.as_bytes())?;
    stream.shutdown(Shutdown::Write)?;
    let mut answer = Vec::new(rt.alloc());
    stream.read_to_end(&mut answer)?;
    Ok(answer)
}

/// What the gateway of a folder answers to the words.
fn answer_of<R: Net + AllocGlobal>(
    rt: &R,
    folder: &str,
    words: &ArgMatches<'_>,
) -> io::Result<Vec<u8>> {
    let path = control_path(rt.alloc(), folder)?;
    let mut line = String::new(rt.alloc());
    add_line(&mut line, words)?;
    asked(rt, &path, &line)
}

/// Sends the words to the gateway of FOLDER, prints what it answers, and gives the status.
pub(crate) fn send<'a, R: Net + AllocGlobal, O: Write>(
    rt: &R,
    words: &ArgMatches<'a>,
    output: &mut O,
) -> Result<u8, Ended<'a>> {
    let folder = words.get_str("FOLDER").unwrap_or("");
    let answer = match answer_of(rt, folder, words) {
        Ok(answer) => answer,
        Err(error) if error.kind() == ErrorKind::OutOfMemory => {
            return Err(Ended::Run(RunFault::Memory));
        }
        Err(_) => return Err(Ended::Unanswered { path: folder }),
    };
    // (it ended before it answered)
    if answer.is_empty() {
        return Err(Ended::Unanswered { path: folder });
    }
    write_all(output, &answer)?;
    Ok(if answer.starts_with(b"refused") {
        REFUSED
    } else {
        DONE
    })
}
