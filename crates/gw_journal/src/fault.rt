//! Why a journal did not do what was asked.
use thiserror::Error;

/// Why a journal did not do what was asked.
#[derive(Clone, Copy, Debug, PartialEq, Eq, Error)]
pub enum JournalFault {
    /// An allocation failed.
    #[error("out of memory")]
    Memory,
    /// The disk has failed, in this call or in an earlier one. The journal is asked nothing more: open it again.
    #[error("the disk has failed")]
    Disk,
    /// The journal has 2^62 records or events, or the file of its log is full.
    #[error("the journal has no room")]
    Full,
    /// The record has no byte.
    #[error("the record is empty")]
    Empty,
    /// The record has more than 2,147,483,648 bytes.
    #[error("the record is too long")]
    TooLong,
}
