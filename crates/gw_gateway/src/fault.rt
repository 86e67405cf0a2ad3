//! Why an event isn't put.
ghost use Rattle.std.specs.Prelude.{◌≡◌};
ghost use Rattle.gw_gateway.specs.declared.fault.PutFault.TheVariants.{Memory};
ghost use Rattle.gw_gateway.specs.Faults.{of_journal, of_ledger};

use gw_journal::JournalFault;
use gw_ledger::LedgerFault;
use std::alloc::{AllocError, AllocFailed};
use thiserror::Error;

/// Why an event isn't put.
#[derive(Clone, Copy, Debug, PartialEq, Eq, Error)]
pub enum PutFault {
    /// An allocation failed.
    #[error("out of memory")]
    Memory,
    /// The event may not follow. Nothing changed.
    #[error("the event may not follow")]
    Unlawful,
    /// The plan in force is another one. Nothing changed.
    #[error("the plan in force is another one")]
    Stale,
    /// The log has no room.
    #[error("the log has no room")]
    Full,
    /// The disk has failed.
    #[error("the disk has failed")]
    Disk,
}

impl From<AllocError> for PutFault {
    ghost from_gives = { λ _ e. e ≡ Memory };

    fn from(_error: AllocError) -> PutFault {
        PutFault::Memory
    }
}

impl<T: Drop> From<AllocFailed<T>> for PutFault {
    ghost from_gives = { λ _ e. e ≡ Memory };

    fn from(_error: AllocFailed<T>) -> PutFault {
        PutFault::Memory
    }
}

impl From<JournalFault> for PutFault {
    ghost from_gives = { λ fault e. e ≡ of_journal fault };

    fn from(fault: JournalFault) -> PutFault {
        match fault {
            JournalFault::Memory => PutFault::Memory,
            JournalFault::Disk => PutFault::Disk,
            _ => PutFault::Full,
        }
    }
}

impl From<LedgerFault> for PutFault {
    ghost from_gives = { λ fault e. e ≡ of_ledger fault };

    fn from(fault: LedgerFault) -> PutFault {
        match fault {
            LedgerFault::Journal(fault) => PutFault::from(fault),
            LedgerFault::Unlawful => PutFault::Unlawful,
            LedgerFault::Stale => PutFault::Stale,
        }
    }
}
