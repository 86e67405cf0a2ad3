//! A journal that threads share: each puts records, and gets a receipt for a record once it is on the disk.
//!
//! A thread that waits for a receipt has the storage bring to the disk what all threads put, for all of them.
#![tactic(auto)]

mod book;
mod books;
mod desk;
mod event;
mod fault;
mod job;
mod journal;
pub mod laws;
mod storage;
mod stored;
mod summary;

pub use book::{Front, Naming, Opened};
pub use books::Books;
pub use desk::{Desk, Receipt, Ticket};
pub use event::Event;
pub use fault::JournalFault;
pub use job::{Done, Job};
pub use journal::Journal;
pub use storage::Storage;
pub use stored::{LastFile, Stored};
pub use summary::Summary;
