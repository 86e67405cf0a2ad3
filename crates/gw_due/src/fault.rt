//! Why bytes were not read or written, and why a state stayed as it was.
ghost use Rattle.std.specs.Prelude.{◌≡◌};
ghost use Rattle.gw_due.specs.declared.fault.ReadFault.TheVariants as read;
ghost use Rattle.gw_due.specs.declared.fault.SpellFault.TheVariants as spelling;
ghost use Rattle.gw_due.specs.declared.fault.StateFault.TheVariants as states;

use std::alloc::{AllocError, AllocFailed};
use thiserror::Error;

/// Why bytes were not read.
#[derive(Clone, Copy, Debug, PartialEq, Eq, Error)]
pub enum ReadFault {
    /// An allocation failed.
    #[error("out of memory")]
    Memory,
    /// Nothing is spelled so.
    #[error("the bytes are no record of a gateway's log")]
    Unreadable,
}

impl From<AllocError> for ReadFault {
    ghost from_gives = { λ _ e. e ≡ read.Memory };

    fn from(_error: AllocError) -> ReadFault {
        ReadFault::Memory
    }
}

impl<T: Drop> From<AllocFailed<T>> for ReadFault {
    ghost from_gives = { λ _ e. e ≡ read.Memory };

    fn from(_error: AllocFailed<T>) -> ReadFault {
        ReadFault::Memory
    }
}

/// Why an event was not written.
#[derive(Clone, Copy, Debug, PartialEq, Eq, Error)]
pub enum SpellFault {
    /// An allocation failed.
    #[error("out of memory")]
    Memory,
    /// A text has more than 4,294,967,295 bytes, or there are more receivers than that.
    #[error("a part of the record has no length in four bytes")]
    TooLong,
}

impl From<AllocError> for SpellFault {
    ghost from_gives = { λ _ e. e ≡ spelling.Memory };

    fn from(_error: AllocError) -> SpellFault {
        SpellFault::Memory
    }
}

impl<T: Drop> From<AllocFailed<T>> for SpellFault {
    ghost from_gives = { λ _ e. e ≡ spelling.Memory };

    fn from(_error: AllocFailed<T>) -> SpellFault {
        SpellFault::Memory
    }
}

/// Why a state stayed as it was.
#[derive(Clone, Copy, Debug, PartialEq, Eq, Error)]
pub enum StateFault {
    /// An allocation failed.
    #[error("out of memory")]
    Memory,
    /// A place or a count has no number above it in eight bytes.
    #[error("the log has no room")]
    Full,
    /// The event may not follow the log.
    #[error("the event may not follow the log")]
    Unlawful,
}

impl From<AllocError> for StateFault {
    ghost from_gives = { λ _ e. e ≡ states.Memory };

    fn from(_error: AllocError) -> StateFault {
        StateFault::Memory
    }
}

impl<T: Drop> From<AllocFailed<T>> for StateFault {
    ghost from_gives = { λ _ e. e ≡ states.Memory };

    fn from(_error: AllocFailed<T>) -> StateFault {
        StateFault::Memory
    }
}

/// Why no state comes of a checkpoint and the records behind it.
#[derive(Clone, Copy, Debug, PartialEq, Eq, Error)]
pub enum StartFault {
    /// An allocation failed.
    #[error("out of memory")]
    Memory,
    /// No state is spelled so.
    #[error("the checkpoint is no state of a gateway's log")]
    Checkpoint,
    /// The record of this number, from 0, is none of a gateway's log, or may not follow.
    #[error("record {at} behind the checkpoint is none of a gateway's log, or may not follow")]
    Record { at: usize },
    /// A count has no room for one more before the record of this number.
    #[error("a count has no room for record {at} behind the checkpoint")]
    Full { at: usize },
}
