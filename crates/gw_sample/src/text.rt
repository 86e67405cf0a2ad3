//! The bytes of a sample while it is drawn.

use std::alloc::{AllocError, AllocFailed};

/// How many bytes a message has at most (`gw_mllp`).
const MOST: usize = 1_048_576;

/// Why no message was drawn.
#[derive(Clone, Copy, Debug, PartialEq, Eq, Drop)]
pub(crate) enum Undrawn {
    /// A growth was refused.
    Memory,
    /// It has more bytes than a message has.
    TooLong,
}

impl From<AllocError> for Undrawn {
    fn from(_error: AllocError) -> Undrawn {
        Undrawn::Memory
    }
}

impl<T: Drop> From<AllocFailed<T>> for Undrawn {
    fn from(_error: AllocFailed<T>) -> Undrawn {
        Undrawn::Memory
    }
}

/// Puts bytes behind the text.
pub(crate) fn put(text: &mut Vec<u8>, bytes: &[u8]) -> Result<(), Undrawn> {
    text.extend_from_slice(bytes)?;
    if text.len() > MOST {
        return Err(Undrawn::TooLong);
    }
    Ok(())
}

/// Puts a separator for each number from the one to the other.
pub(crate) fn separate(
    text: &mut Vec<u8>,
    separator: u8,
    from: u32,
    to: u32,
) -> Result<(), Undrawn> {
    for _ in from..to {
        put(text, &[separator])?;
    }
    Ok(())
}
