//! Why a run ended early.
ghost use Rattle.std.specs.Prelude.{◌≡◌};
ghost use Rattle.gw_stream.specs.declared.fault.RunFault.TheVariants.{Memory};
ghost use Rattle.gw_stream.specs.Faults.{number_of};

use std::alloc::{AllocError, AllocFailed};
use thiserror::Error;

/// Why a run ended early. The numbers are 1 to 8, in this order.
#[derive(Clone, Copy, Debug, PartialEq, Eq, Error)]
pub enum RunFault {
    /// A growth was refused.
    #[error("out of memory")]
    Memory,
    /// The reader failed.
    #[error("the reader failed")]
    Read,
    /// The writer failed.
    #[error("the writer failed")]
    Write,
    /// The stream can't be read on: a block is too long (2), or the stream ends within a block (3).
    #[error("the stream can't be read on: frame fault {0}")]
    Frame(u8),
    /// The other side's line ended, or didn't acknowledge the message of this number.
    #[error("the line ended at message {n}")]
    Line { n: u64 },
    /// There were 1,000,000 reads.
    #[error("too many reads")]
    Turns,
    /// Notes don't agree with the journal.
    #[error("the notes don't agree with the journal")]
    Unsettled,
    /// What was accepted isn't known to be kept, so that its answers were withheld.
    #[error("what was accepted isn't known to be kept")]
    Withheld,
}

impl RunFault {
    /// The number of the fault. It takes no memory.
    pub fn number(&self) -> u8
        ensures { result ≡ number_of self.now }
    {
        match self {
            RunFault::Memory => 1,
            RunFault::Read => 2,
            RunFault::Write => 3,
            RunFault::Frame(_) => 4,
            RunFault::Line { .. } => 5,
            RunFault::Turns => 6,
            RunFault::Unsettled => 7,
            RunFault::Withheld => 8,
        }
    }
}

impl From<AllocError> for RunFault {
    ghost from_gives = { λ _ e. e ≡ Memory };

    fn from(_error: AllocError) -> RunFault {
        RunFault::Memory
    }
}

impl<T: Drop> From<AllocFailed<T>> for RunFault {
    ghost from_gives = { λ _ e. e ≡ Memory };

    fn from(_error: AllocFailed<T>) -> RunFault {
        RunFault::Memory
    }
}
