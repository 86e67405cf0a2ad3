//! Words to a running gateway, over the socket FOLDER/control: a line comes, an answer goes back, and the connection ends.
use crate::asked::WORDS;
use crate::ended::Ended;
use crate::gateway::hub::Hub;
use crate::gateway::page::state;
use crate::gateway::plans::take_file;
use crate::gateway::resend::{Ask, reads_log};
use crate::runtime::Runtime;
use crate::sockets::{listen_briefly, pause};
use gw_journal::{Naming, Storage};
use std::alloc::{AllocError, Global};
use std::fs::{File, Permissions};
use std::io::{ErrorKind, Read, Write};
use std::net::Net;
use std::os::fd::AsRawFd;
use std::os::unix::fs::PermissionsExt;
use std::os::unix::net::{UnixListener, UnixStream};
use std::rt::Files;
use std::sync::Wait;
use std::time::Duration;
use std::{fs, io};

/// The most bytes of a line.
const LONGEST: u64 = 4_096;

/// How many seconds a line may take to come, and an answer to be taken.
const PATIENCE: u64 = 5;

/// The path of a folder's socket.
pub(crate) fn control_path(alloc: Global, folder: &str) -> Result<String, AllocError> {
    format!(in alloc; "{folder}/control")
}

/// Listens at a folder's socket. One that another gateway left is taken away: the folder is locked.
fn bind<R: Files<File = File> + Net>(rt: &R, path: &str) -> io::Result<UnixListener> {
    match fs::remove_file(rt, path) {
        Err(error) if error.kind() != ErrorKind::NotFound => return Err(error),
        _ => {}
    }
    let listener = UnixListener::bind(rt, path)?;
    fs::set_permissions(rt, path, Permissions::from_mode(0o600))?;
    Ok(listener)
}

/// The listener at a folder's socket.
pub(crate) fn listen<'a, R: Files<File = File> + Net + AllocGlobal>(
    rt: &R,
    folder: &str,
) -> Result<UnixListener, Ended<'a>> {
    let path = control_path(rt.alloc(), folder)?;
    match bind(rt, &path) {
        Ok(listener) => Ok(listener),
        Err(_) => Err(Ended::Unwritten { file: path }),
    }
}

/// Holds a receiver's messages back, or sends them on.
fn tell_line<J: Naming, S: Storage + Drop, R: Runtime + Wait>(
    hub: &Hub<'_, J, S, R>,
    word: &str,
    name: &str,
) -> Result<String, AllocError> {
    let alloc = hub.rt.alloc();
    match (word, hub.lines.named(hub.rt, name.as_bytes())) {
        ("hold", Some(line)) => {
            line.hold(hub.rt, true);
            format!(in alloc; "held: {name} is sent nothing until `go {name}`, or a restart\n")
        }
        ("go", Some(line)) => {
            line.hold(hub.rt, false);
            format!(in alloc; "goes: {name} is sent what waits\n")
        }
        _ => format!(in alloc; "refused: no receiver of the plan has this name\n"),
    }
}

/// The answer to a word that isn't `status`.
fn answer_word<J: Naming, S: Storage + Drop, R: Runtime + Wait>(
    hub: &Hub<'_, J, S, R>,
    word: &str,
    rest: &str,
) -> Result<String, AllocError> {
    let alloc = hub.rt.alloc();
    match (word, rest) {
        ("install", path) if !path.is_empty() => take_file(hub, path, true),
        ("swap", path) if !path.is_empty() => take_file(hub, path, false),
        ("stop", "") => {
            hub.stop();
            format!(in alloc; "stops: what waits is sent by the next start\n")
        }
        ("hold" | "go", name) if !name.is_empty() => tell_line(hub, word, name),
        _ => format!(in alloc; "refused: the words are: {WORDS}\n"),
    }
}

/// The answer to a line.
fn answer<J: Naming, S: Storage + Drop, R: Runtime + Wait>(
    hub: &Hub<'_, J, S, R>,
    line: &str,
) -> Result<Vec<u8>, AllocError> {
    let (word, rest) = line.split_once(' ').unwrap_or((line, ""));
    match (word, rest) {
        ("status", "") => state(hub, false),
        ("status", "--json") => state(hub, true),
        _ => Ok(answer_word(hub, word, rest)?.into_bytes()),
    }
}

/// The line that comes, without its end.
fn read_line<R: AllocGlobal>(rt: &R, stream: &UnixStream) -> io::Result<String> {
    let mut bytes = Vec::new(rt.alloc());
    stream.take(LONGEST).read_to_end(&mut bytes)?;
    match String::from_utf8(bytes) {
        Ok(text) => Ok(text),
        Err(_) => Err(io::Error::from(ErrorKind::InvalidData)),
    }
}

/// Answers one connection, or has it wait for the thread that reads the log.
fn attend<J: Naming, S: Storage + Drop, R: Runtime + Wait>(
    hub: &Hub<'_, J, S, R>,
    stream: UnixStream,
) -> io::Result<()> {
    stream.set_read_timeout(Some(Duration::from_secs(PATIENCE)))?;
    stream.set_write_timeout(Some(Duration::from_secs(PATIENCE)))?;
    let line = read_line(hub.rt, &stream)?;
    if reads_log(line.trim_end()) {
        hub.asks.put(hub.rt, Ask { line, stream })?;
        return Ok(());
    }
    let text = answer(hub, line.trim_end())?;
    let mut writer = stream;
    writer.write_all(&text)
}

/// Answers one connection after another, until the gateway ends.
pub(crate) fn attend_all<J: Naming, S: Storage + Drop, R: Runtime + Wait>(
    hub: &Hub<'_, J, S, R>,
    listener: &UnixListener,
) {
    listen_briefly(listener.as_raw_fd());
    for _ in hub.rt.forever() {
        match listener.accept() {
            Ok((stream, _peer)) => {
                let _ = attend(hub, stream);
            }
            Err(error) if error.kind() == ErrorKind::WouldBlock => {}
            Err(_) => pause(hub.rt),
        }
        if hub.has_ended() {
            return;
        }
    }
}
