//! The time stamp of a civil date and time (data type DTM, HL7 v2.5.1 chapter 2A, 2.A.22).
//!
//! [`FromCivil`] gives `gw_ack`'s `Stamp` the call `from_civil`, for `jiff`'s dates; [`utc_now`] is the stamp of the clock, [`utc_text`] a number of microseconds as a date and time of ISO 8601.
#![tactic(auto)]

mod clock;
mod stamp;

pub use clock::{utc_now, utc_text};
pub use stamp::FromCivil;
