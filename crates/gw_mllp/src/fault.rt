//! Why a stream can't be read on.
ghost use Rattle.std.specs.Prelude.{◌≡◌};
ghost use Rattle.gw_mllp.specs.declared.fault.FrameFault.TheVariants.{Memory};

use std::alloc::{AllocError, AllocFailed};
use thiserror::Error;

/// Why a stream can't be read on.
#[derive(Clone, Copy, Debug, PartialEq, Eq, Error)]
pub enum FrameFault {
    /// An allocation failed. The piece was not read, and may be fed again.
    #[error("out of memory")]
    Memory,
    /// The open block has more than 1,048,576 content bytes. Nothing more of the stream is read.
    #[error("a block is longer than 1,048,576 bytes")]
    TooLong,
    /// The stream ends within a block.
    #[error("the stream ends within a block")]
    Truncated,
}

impl FrameFault {
    ghost use Rattle.gw_mllp.specs.Numbers.{number};

    /// The number of the fault, from 1 (allocation failure) to 3. It takes no memory.
    pub fn number(&self) -> u8
        ensures { result ≡ number self.now }
    {
        match self {
            FrameFault::Memory => 1,
            FrameFault::TooLong => 2,
            FrameFault::Truncated => 3,
        }
    }
}

impl From<AllocError> for FrameFault {
    ghost from_gives = { λ _ e. e ≡ Memory };

    fn from(_error: AllocError) -> FrameFault {
        FrameFault::Memory
    }
}

impl<T: Drop> From<AllocFailed<T>> for FrameFault {
    ghost from_gives = { λ _ e. e ≡ Memory };

    fn from(_error: AllocFailed<T>) -> FrameFault {
        FrameFault::Memory
    }
}
