//! What failed in a folder.
use std::alloc::{AllocError, AllocFailed};
use std::fmt::{Display, Formatter};
use std::io::ErrorKind;
use std::{fmt, io};
use thiserror::Error;

/// What the operating system was asked for.
#[derive(Clone, Copy, Debug, PartialEq, Eq)]
pub enum Asked {
    Open,
    Lock,
    List,
    Size,
    Read,
    Write,
    Cut,
    Sync,
    Remove,
    /// Whether it still is at its path.
    Find,
}

impl Asked {
    fn word(self) -> &'static str {
        match self {
            Asked::Open => "opened",
            Asked::Lock => "locked",
            Asked::List => "listed",
            Asked::Size => "looked at",
            Asked::Read => "read",
            Asked::Write => "written",
            Asked::Cut => "cut",
            Asked::Sync => "brought to the disk",
            Asked::Remove => "removed",
            Asked::Find => "found at its path any more",
        }
    }
}

// What to do where the operating system has failed in this way.
fn cure_of(kind: ErrorKind) -> &'static str {
    match kind {
        ErrorKind::NotFound => "Make the folder, or name another",
        ErrorKind::NotADirectory => "Name a folder instead",
        ErrorKind::PermissionDenied => "Give this program's user the right to it",
        ErrorKind::ReadOnlyFilesystem => "Mount its disk so that it can be written",
        ErrorKind::StorageFull | ErrorKind::QuotaExceeded => "Make room on its disk",
        ErrorKind::OutOfMemory => "Give this program more memory",
        _ => "See what the system's own messages say of its disk",
    }
}

/// What failed, of which file, and why. Where it has no number, it was the folder.
#[derive(Clone, Copy, Debug, PartialEq, Eq)]
pub struct Failure {
    pub asked: Asked,
    pub number: Option<u64>,
    pub kind: ErrorKind,
    /// The operating system's own number of the error.
    pub code: Option<i32>,
}

impl Failure {
    // What to do.
    fn cure(&self) -> &'static str {
        match self.asked {
            Asked::Lock => "Use a folder on a disk of this machine",
            Asked::Find => "Put it back, and keep what moved or removed it from this folder",
            _ => cure_of(self.kind),
        }
    }
}

/// What came of a call on a file, or of the folder.
pub(crate) fn or_failure<T>(
    asked: Asked,
    number: Option<u64>,
    done: io::Result<T>,
) -> Result<T, Failure> {
    match done {
        Ok(value) => Ok(value),
        Err(error) => Err(Failure {
            asked,
            number,
            kind: error.kind(),
            code: error.raw_os_error(),
        }),
    }
}

impl Display for Failure {
    fn fmt<W: fmt::Write>(&self, f: &mut Formatter<W>) -> fmt::Result {
        match self.number {
            Some(number) => write!(f, "{number:020}.segment")?,
            None => f.write_str("the folder")?,
        }
        write!(f, " can't be {}: ", self.asked.word())?;
        match self.code {
            Some(code) => write!(f, "{}", io::Error::from_raw_os_error(code))?,
            None => write!(f, "{}", self.kind)?,
        }
        write!(f, ". {}", self.cure())
    }
}

/// Why a folder can't be opened.
#[derive(Debug, Drop, Error)]
pub enum OpenFault {
    /// An allocation failed.
    #[error("out of memory")]
    Memory,
    /// Another process writes in the folder, or looks at it.
    #[error("another process writes in this folder, or looks at its log. Let it end first, or end it")]
    Taken,
    /// A file of this name isn't one of the log's, and nearly is named as one.
    #[error("{name} is nearly the name of a log's file, which has twenty digits and `.segment`. Rename it, or move it away")]
    Misnamed { name: String },
    /// What has this name, which is that of a log's file, is no regular file.
    #[error("{name} has the name of a log's file, and is a folder, a link or a pipe. Move it away")]
    NotAFile { name: String },
    /// The operating system has failed.
    #[error("{0}")]
    Failed(Failure),
}

impl From<AllocError> for OpenFault {
    fn from(_error: AllocError) -> OpenFault {
        OpenFault::Memory
    }
}

impl<T: Drop> From<AllocFailed<T>> for OpenFault {
    fn from(_error: AllocFailed<T>) -> OpenFault {
        OpenFault::Memory
    }
}

impl From<Failure> for OpenFault {
    fn from(failure: Failure) -> OpenFault {
        match failure.kind {
            ErrorKind::OutOfMemory => OpenFault::Memory,
            _ => OpenFault::Failed(failure),
        }
    }
}
