//! What happens to a journal.
use std::collections::LinkedList;

/// What happens to a journal. No value of it is made: contracts speak of its history.
pub enum Event {
    /// A record was put after the others.
    Put { bytes: LinkedList<u8> },
    /// This many records are on the disk.
    Synced { count: u64 },
    /// These bytes were read from the files, as the record at this place.
    Read { place: u64, bytes: LinkedList<u8> },
}
