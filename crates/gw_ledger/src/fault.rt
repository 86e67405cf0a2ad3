//! Why an event was not put.
ghost use Rattle.std.specs.Prelude.{◌≡◌};
ghost use Rattle.gw_journal.specs.declared.fault.JournalFault.TheVariants as journal;
ghost use Rattle.gw_ledger.specs.declared.fault.LedgerFault.TheVariants as faults;

use gw_journal::JournalFault;
use std::alloc::AllocError;
use thiserror::Error;

/// Why an event was not put.
#[derive(Clone, Copy, Debug, PartialEq, Eq, Error)]
pub enum LedgerFault {
    /// The journal's own. An allocation failed, or a part of the record is too long, or there is no room.
    #[error("{0}")]
    Journal(JournalFault),
    /// The event may not follow those before it.
    #[error("the event may not follow the log")]
    Unlawful,
    /// What the event rests on is not so any more.
    #[error("what the event rests on is not so any more")]
    Stale,
}

impl From<JournalFault> for LedgerFault {
    ghost from_gives = { λ fault e. e ≡ faults.Journal fault };

    fn from(fault: JournalFault) -> LedgerFault {
        LedgerFault::Journal(fault)
    }
}

impl From<AllocError> for LedgerFault {
    ghost from_gives = { λ _ e. e ≡ faults.Journal journal.Memory };

    fn from(_error: AllocError) -> LedgerFault {
        LedgerFault::Journal(JournalFault::Memory)
    }
}

/// Why a record that was read was not looked at.
#[derive(Clone, Copy, Debug, PartialEq, Eq, Error)]
pub enum ScanFault {
    /// An allocation failed.
    #[error("out of memory")]
    Memory,
    /// The journal has 2^62 events.
    #[error("the journal has no room")]
    Full,
    /// The bytes are no record of a gateway's log.
    #[error("the bytes are no record of a gateway's log")]
    Unreadable,
    /// The scan is of a journal that goes on from this one.
    #[error("the scan saw more than the journal has")]
    Stale,
}
