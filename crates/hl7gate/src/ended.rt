//! Why a command wasn't done.
use gw_er7::ReadFault;
use gw_stream::RunFault;
use gw_validate::Breach;
use std::alloc::{AllocError, AllocFailed};

/// Why a command wasn't done. A path is a word of the command line.
#[derive(Drop)]
pub(crate) enum Ended<'a> {
    /// The digits of the time stamp aren't fourteen.
    Stamp,
    /// The place isn't a number.
    Place,
    /// The word isn't a number from 1 to `most`.
    Count {
        name: &'a str,
        least: u64,
        most: u64,
    },
    /// The address can't be listened on.
    Unheard {
        address: &'a str,
    },
    /// The file can't be opened or read.
    Unread {
        path: &'a str,
    },
    /// The text of a file isn't a profile, a map or a plan; this is printed.
    Refused {
        said: String,
    },
    /// The file can't be made or written.
    Unwritten {
        file: String,
    },
    /// Another process works in the folder.
    Taken {
        path: &'a str,
    },
    /// No gateway answers in the folder.
    Unanswered {
        path: &'a str,
    },
    /// The log of a folder can't be read, or is damaged; this is printed.
    Unlisted {
        said: String,
    },
    /// Standard input isn't a message.
    Message {
        fault: ReadFault,
    },
    /// The message breaks its profile.
    Breaks(Breach),
    /// The run ended early.
    Run(RunFault),
}

impl From<RunFault> for Ended<'_> {
    fn from(fault: RunFault) -> Self {
        Ended::Run(fault)
    }
}

impl From<AllocError> for Ended<'_> {
    fn from(_error: AllocError) -> Self {
        Ended::Run(RunFault::Memory)
    }
}

impl<T: Drop> From<AllocFailed<T>> for Ended<'_> {
    fn from(_error: AllocFailed<T>) -> Self {
        Ended::Run(RunFault::Memory)
    }
}
