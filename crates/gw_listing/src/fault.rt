//! Why a log is not listed, or not to its end.
ghost use Rattle.std.specs.Prelude.{◌≡◌};
ghost use Rattle.gw_listing.specs.declared.fault.ListFault.TheVariants as faults;

use gw_log::LogFault;
use std::alloc::{AllocError, AllocFailed};
use thiserror::Error;

/// Why a log is not listed, or not to its end.
#[derive(Clone, Copy, Debug, PartialEq, Eq, Error)]
pub enum ListFault {
    /// The log's own fault.
    #[error("{0}")]
    Log(LogFault),
    /// The head of this file says that another count of records stands before it than was listed.
    #[error("segment {segment} doesn't follow on the records before it")]
    Displaced { segment: u64 },
    /// Damage in the last file, of which an older copy lacks records.
    #[error("segment {segment}, the last one, is damaged at byte {at}")]
    Last { segment: u64, at: usize },
    /// This file and the next one are of different logs.
    #[error("segment {segment} and the next one are of different logs")]
    Mixed { segment: u64 },
    /// The record that begins at this byte of this file is none of a gateway's log.
    #[error("the record at byte {at} of segment {segment} is none of a gateway's log")]
    Unreadable { segment: u64, at: usize },
}

impl ListFault {
    /// The fault where the file that it names is the last.
    pub(crate) fn of_last(self, is_last: bool) -> ListFault {
        match self {
            ListFault::Log(LogFault::Damaged { segment, at }) if is_last => {
                ListFault::Last { segment, at }
            }
            fault => fault,
        }
    }
}

impl From<LogFault> for ListFault {
    ghost from_gives = { λ fault e. e ≡ faults.Log fault };

    fn from(fault: LogFault) -> ListFault {
        ListFault::Log(fault)
    }
}

impl From<AllocError> for ListFault {
    fn from(_error: AllocError) -> ListFault {
        ListFault::Log(LogFault::Memory)
    }
}

impl<T: Drop> From<AllocFailed<T>> for ListFault {
    fn from(_error: AllocFailed<T>) -> ListFault {
        ListFault::Log(LogFault::Memory)
    }
}
