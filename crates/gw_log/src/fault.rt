//! Why a log did not do what was asked.
ghost use Rattle.std.specs.Prelude.{◌≡◌};
ghost use Rattle.gw_log.specs.declared.fault.LogFault.TheVariants.{Memory};
ghost use Rattle.gw_log.specs.Numbers.{of_disk};

use crate::disk::DiskFault;
use std::alloc::{AllocError, AllocFailed};
use thiserror::Error;

/// Why a log did not do what was asked.
#[derive(Clone, Copy, Debug, PartialEq, Eq, Error)]
pub enum LogFault {
    /// A growth was refused.
    #[error("out of memory")]
    Memory,
    /// The disk has failed, in this call or in an earlier one. Nothing more is asked of it: open the log again.
    #[error("the disk has failed")]
    Device,
    /// The file has more than 2^60 bytes.
    #[error("the file has no room")]
    Full,
    /// The record has more than 2^31 bytes.
    #[error("a record is longer than 2,147,483,648 bytes")]
    TooLong,
    /// A record of the batch has no byte.
    #[error("a record is empty")]
    Empty,
    /// The folder has a file.
    #[error("the folder has files")]
    Taken,
    /// The folder has no file.
    #[error("the folder has no file")]
    Missing,
    /// What stands at this offset of a segment's file is no record, or its digest isn't that of its bytes.
    #[error("segment {segment} is damaged at byte {at}")]
    Damaged { segment: u64, at: usize },
}

impl LogFault {
    ghost use Rattle.gw_log.specs.Numbers.{number};

    /// The number of the fault, from 1 for an allocation failure to 8. It takes no memory.
    pub fn number(&self) -> u8
        ensures { result ≡ number self.now }
    {
        match self {
            LogFault::Memory => 1,
            LogFault::Device => 2,
            LogFault::Full => 3,
            LogFault::TooLong => 4,
            LogFault::Damaged { .. } => 5,
            LogFault::Empty => 6,
            LogFault::Taken => 7,
            LogFault::Missing => 8,
        }
    }
}

impl From<AllocError> for LogFault {
    ghost from_gives = { λ _ e. e ≡ Memory };

    fn from(_error: AllocError) -> LogFault {
        LogFault::Memory
    }
}

impl<T: Drop> From<AllocFailed<T>> for LogFault {
    ghost from_gives = { λ _ e. e ≡ Memory };

    fn from(_error: AllocFailed<T>) -> LogFault {
        LogFault::Memory
    }
}

impl From<DiskFault> for LogFault {
    ghost from_gives = { λ fault e. e ≡ of_disk fault };

    fn from(fault: DiskFault) -> LogFault {
        match fault {
            DiskFault::Memory => LogFault::Memory,
            DiskFault::Failed => LogFault::Device,
        }
    }
}
