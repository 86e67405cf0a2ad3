//! The folder of a gateway: its log, and what stands beside it.
use crate::ended::Ended;
use gw_mllp::{is_content, write_block};
use gw_stream::RunFault;
use std::alloc::Global;
use std::fs::{File, OpenOptions, metadata};
use std::io::ErrorKind;
use std::os::unix::fs::{FileExt, OpenOptionsExt};
use std::rt::Files;
use std::sync::{Mutex, Wait};
use std::{fs, io};

/// How many bytes of the disk are kept free for what was accepted.
const RESERVE: u64 = 67_108_864;

/// From how many bytes on the log of refusals goes on in a new file.
const LONG: u64 = 67_108_864;

/// How many bytes are written at once.
const PIECE: u64 = 65_536;

/// What the folder's page says.
const PAGE: &[u8] =
    b"The log of a gateway for HL7 messages (hl7gate gateway): what it accepted, and what its receivers took.

N.segment     the log, in numbered files; `hl7gate log FOLDER` lists it. Don't edit them: a changed byte is damage
refusals.log  a line for each message that was answered AE or AR, and for each receiver whose first waits for long (--late).
              At 64 MB it is refusals.log.1, and a new one is begun
unreadable.mllp  with --keep-unreadable: messages that can't be read, in their frames. At 64 MB it is unreadable.mllp.1
reserve       room on the disk for what was accepted, used when the disk is full
control       the socket of `hl7gate tell FOLDER`

These files hold patients' data. Copy or move them only while no gateway works here.
";

/// The folder: its path, the room that is kept free, and the log of refusals.
#[derive(Drop)]
pub(crate) struct Folder {
    pub(crate) path: String,
    reserve: File,
    log: Mutex<File>,
    unread: Option<Mutex<File>>,
}

/// The files that are added to, and are begun anew where they are long.
const LOG: &str = "refusals.log";

const UNREAD: &str = "unreadable.mllp";

/// What came of a call on a file of the folder, or that the file can't be made or written.
pub(crate) fn or_unwritten<'a, T>(
    alloc: Global,
    file: &str,
    done: io::Result<T>,
) -> Result<T, Ended<'a>> {
    let error = match done {
        Ok(value) => return Ok(value),
        Err(error) => error.kind(),
    };
    match (error, String::from_str(alloc, file)) {
        (ErrorKind::OutOfMemory, _) | (_, Err(_)) => Err(Ended::Run(RunFault::Memory)),
        (_, Ok(file)) => Err(Ended::Unwritten { file }),
    }
}

/// A file that its owner alone may read, made where it isn't there: one that is added to, or that is read and written.
fn open_file<'a, R: Files<File = File> + AllocGlobal>(
    rt: &R,
    folder: &str,
    name: &str,
    is_added: bool,
) -> Result<File, Ended<'a>> {
    let path = format!(in rt.alloc(); "{folder}/{name}")?;
    let mut options = OpenOptions::new();
    options.create(true).mode(0o600);
    if is_added {
        options.append(true);
    } else {
        options.read(true).write(true);
    }
    or_unwritten(rt.alloc(), &path, options.open(rt, path.as_str()))
}

/// What room the disk has.
#[derive(Clone, Copy, PartialEq, Eq)]
pub(crate) enum Room {
    /// The reserve is there.
    Enough,
    /// Some room, but not as much as the reserve takes.
    Little,
    /// None, or hardly any.
    Nothing,
}

/// Fills the reserve, where there is room for it.
fn fill(file: &File) -> Room {
    let zeros = [0u8; PIECE as usize];
    for piece in 0..RESERVE / PIECE {
        if file.write_all_at(&zeros, piece * PIECE).is_err() {
            let _ = file.set_len(0);
            return if piece > 0 {
                Room::Little
            } else {
                Room::Nothing
            };
        }
    }
    if file.sync_data().is_ok() {
        Room::Enough
    } else {
        Room::Little
    }
}

/// Refuses a folder of an earlier gateway, which kept a spool for each receiver.
pub(crate) fn refuse_spools<'a, R: Files<File = File> + AllocGlobal>(
    rt: &R,
    path: &str,
) -> Result<(), Ended<'a>> {
    let spools = format!(in rt.alloc(); "{path}/spool")?;
    if metadata(rt, spools.as_str()).is_err() {
        return Ok(());
    }
    let said = format!(in rt.alloc();
        "{path} was made by an earlier hl7gate: let that one deliver what waits, and begin with a new folder"
    )?;
    Err(Ended::Unlisted { said })
}

impl Folder {
    /// The folder at this path, which is locked, with what it lacks made.
    pub(crate) fn open<'a, R: Files<File = File> + AllocGlobal>(
        rt: &R,
        path: &'a str,
        keeps_unread: bool,
    ) -> Result<Self, Ended<'a>> {
        let alloc = rt.alloc();
        let page = format!(in alloc; "{path}/README")?;
        or_unwritten(alloc, &page, fs::write(rt, page.as_str(), PAGE))?;
        let reserve = open_file(rt, path, "reserve", false)?;
        let log = open_file(rt, path, LOG, true)?;
        let unread = if keeps_unread {
            Some(Mutex::new(open_file(rt, path, UNREAD, true)?))
        } else {
            None
        };
        Ok(Folder {
            path: String::from_str(alloc, path)?,
            reserve,
            log: Mutex::new(log),
            unread,
        })
    }

    /// Adds a line to the log of refusals.
    pub(crate) fn add<R: Wait>(&self, rt: &R, line: &[u8]) {
        // (the file is opened to be added to)
        let _ = self.log.lock(rt).write_all_at(line, 0);
    }

    /// Keeps a message that can't be read, as a block (MLLP Release 1), where that is asked for.
    pub(crate) fn keep_unread<R: Wait>(&self, rt: &R, alloc: Global, message: &[u8]) {
        let mut block = Vec::new(alloc);
        if let Some(unread) = &self.unread
            && is_content(message)
            && write_block(&mut block, message).is_ok()
        {
            let _ = unread.lock(rt).write_all_at(&block, 0);
        }
    }

    // Begins a file anew where it is long. It gets the name behind it then.
    fn turn<'a, R: Wait + Files<File = File> + AllocGlobal>(
        &self,
        rt: &R,
        file: &Mutex<File>,
        name: &str,
    ) -> Result<bool, Ended<'a>> {
        match file.lock(rt).metadata() {
            Ok(of) if of.len() >= LONG => {}
            _ => return Ok(false),
        }
        let path = format!(in rt.alloc(); "{}/{name}", self.path)?;
        let long = format!(in rt.alloc(); "{path}.1")?;
        let is_moved = fs::rename(rt, path.as_str(), long.as_str()).is_ok();
        let anew = open_file(rt, &self.path, name, true)?;
        *file.lock(rt) = anew;
        Ok(is_moved)
    }

    /// Begins a new log of refusals where the one is long. That is `refusals.log.1` then. So it is with the messages that can't be read.
    pub(crate) fn turn_logs<'a, R: Wait + Files<File = File> + AllocGlobal>(
        &self,
        rt: &R,
    ) -> Result<bool, Ended<'a>> {
        if let Some(unread) = &self.unread {
            let _ = self.turn(rt, unread, UNREAD)?;
        }
        self.turn(rt, &self.log, LOG)
    }

    /// What room the disk has. Where the reserve was used it is filled again, if there is room for it.
    pub(crate) fn room(&self) -> Room {
        match self.reserve.metadata() {
            Ok(of) if of.len() == RESERVE => Room::Enough,
            _ => fill(&self.reserve),
        }
    }
}
