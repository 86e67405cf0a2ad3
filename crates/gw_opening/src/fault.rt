//! Why no log was opened.
use gw_due::StartFault;
use gw_log::LogFault;
use thiserror::Error;

/// Why no log was opened.
#[derive(Clone, Copy, Debug, PartialEq, Eq, Error)]
pub enum OpenFault {
    /// The log's own fault.
    #[error("{0}")]
    Log(LogFault),
    /// The last file gives no state.
    #[error("{0}")]
    Start(StartFault),
    /// The number of the last message isn't below the margin of numbers.
    #[error("the number of the last message is not below the margin")]
    Numbers,
}
