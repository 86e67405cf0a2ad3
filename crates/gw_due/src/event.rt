//! What a record of the log says.

/// How a receiver passed a message.
#[derive(Drop)]
pub enum How<'a> {
    /// It took it.
    Taken,
    /// It refused it, with this code and this text.
    Refused { code: u32, reason: &'a [u8] },
    /// A person skipped it.
    Skipped,
}

/// What happened. A place is the number of a record in the log, from 0. A receiver is a number that its name has for good.
#[derive(Drop)]
pub enum Event<'a> {
    /// The plan of this text is in force from here on.
    Planned {
        text: &'a [u8],
    },
    /// A message was accepted under this number: its bytes as they were read, and the receivers of its route.
    Accepted {
        number: u64,
        to: Vec<u32>,
        bytes: &'a [u8],
    },
    /// The message at this place is due to a receiver once more.
    Again {
        receiver: u32,
        place: u64,
    },
    /// A receiver passed what was due to it at this place.
    Passed {
        receiver: u32,
        place: u64,
        how: How<'a>,
    },
    /// A receiver has this number and this name, for good, and from here on this address.
    Named {
        receiver: u32,
        name: &'a [u8],
        address: &'a [u8],
    },
    /// Numbers below this one may have been given to answers.
    Margin {
        number: u64,
    },
    /// Segments below this one may be gone.
    Retired {
        segment: u64,
    },
}

/// A record of the log: what happened, and when. No law speaks of the time.
#[derive(Drop)]
pub struct Entry<'a> {
    pub time: u64,
    pub event: Event<'a>,
}
