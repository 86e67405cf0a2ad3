//! Why a log isn't read on.
use gw_ledger::ScanFault;
use gw_log::LogFault;
use std::alloc::{AllocError, AllocFailed};
use thiserror::Error;

/// Why the log isn't read on.
#[derive(Clone, Copy, Debug, PartialEq, Eq, Error)]
pub enum PageFault {
    /// An allocation failed.
    #[error("out of memory")]
    Memory,
    /// The disk has failed, or a file isn't as it was written.
    #[error("the log can't be read on in file {segment}, at byte {at}")]
    Damaged { segment: u64, at: usize },
    /// A plan of the log is none any more.
    #[error("a plan of the log can't be read: the one at place {place}")]
    Plan { place: u64 },
    /// What was accepted at this place can't be translated.
    #[error("the message at place {place} can't be translated under its plan")]
    Message { place: u64 },
}

impl From<ScanFault> for PageFault {
    fn from(fault: ScanFault) -> PageFault {
        match fault {
            ScanFault::Memory => PageFault::Memory,
            _ => PageFault::Damaged { segment: 0, at: 0 },
        }
    }
}

impl From<AllocError> for PageFault {
    fn from(_error: AllocError) -> PageFault {
        PageFault::Memory
    }
}

impl<T: Drop> From<AllocFailed<T>> for PageFault {
    fn from(_error: AllocFailed<T>) -> PageFault {
        PageFault::Memory
    }
}

/// What a log's fault in this file is to a reader.
pub(crate) fn page_fault(fault: LogFault, segment: u64, at: usize) -> PageFault {
    match fault {
        LogFault::Memory => PageFault::Memory,
        LogFault::Damaged { segment, at } => PageFault::Damaged { segment, at },
        _ => PageFault::Damaged { segment, at },
    }
}
