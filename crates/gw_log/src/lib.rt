//! A log on a disk: records in the numbered files of a folder, which a batch makes longer or leaves as they are, whatever crash comes.
#![tactic(auto)]

mod digest;
mod disk;
mod fault;
mod head;
mod history;
pub mod laws;
mod log;
mod numbering;
mod opening;
mod place;
mod reader;
mod reading;
mod recorded;
mod segment;
mod steps;
mod writing;

pub use disk::{Disk, DiskFault};
pub use fault::LogFault;
pub use head::{Head, read_head};
pub use log::Log;
pub use numbering::find_id;
pub use reader::Reader;
pub use recorded::{Calls, Recorded, Start};
pub use segment::Segment;
