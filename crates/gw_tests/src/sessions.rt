//! Sessions over one gate.
use crate::crews::door;
use crate::refusals::refuse;
use crate::streams::{Device, Ran};
use gw_ack::Stamp;
use gw_crew::{Door, Note, Receipt, Solo};
use gw_gate::Entry;
use gw_session::{FixedClock, session};
use gw_stream::{Counts, Reads, Writes};
use std::alloc::Global;
use std::test::Fail;

/// The block of a message.
const STREAM: &[u8] =
    b"\x0bMSH|^~\\&|LAB|H1|GW|H2|20240102030405||ADT^A01^ADT_A01|7|P|2.5.1\rPID|||123|||||F\r\x1c\r";

const ACCEPTED: &[u8] =
    b"\x0bMSH|^~\\&|GW|H2|LAB|H1|20240102030406||ACK^A01^ACK|G1|P|2.5.1\rMSA|AA|7\r\x1c\r";

// What a session does over a reader and a writer that fails after this many calls, and how many bytes of the answer it wrote.
// The growth of this number is refused, if it isn't 0.
fn over(
    alloc: Global,
    door: &mut Solo,
    growth: u32,
    input: Device<'_>,
    writes: usize,
) -> Result<Ran, Fail> {
    let stamp = Stamp::from_digits(b"20240102030406").ok_or("a stamp")?;
    let mut clock = FixedClock::new(stamp);
    let mut reader = Reads::new(input);
    let mut output = Device::new(alloc, b"", 1, writes, 0).with_room(ACCEPTED.len())?;
    let mut writer = Writes::new(&mut output);
    refuse(alloc, growth);
    let result = session(alloc, door, &mut clock, &mut reader, &mut writer);
    refuse(alloc, 0);
    Ok((result, output.holds(ACCEPTED)))
}

// What a session does over the stream of which this growth is refused, if it isn't 0.
pub(crate) fn run_refused(alloc: Global, door: &mut Solo, growth: u32) -> Result<Ran, Fail> {
    let input = Device::new(alloc, STREAM, 1, 1_000, 0);
    over(alloc, door, growth, input, 1_000)
}

/// What it does where nothing fails and no growth is refused.
pub(crate) const WHOLE: Ran = (Ok(COUNTS), Some(ACCEPTED.len()));

const COUNTS: Counts = Counts {
    answered: 1,
    put: 0,
    sent: 0,
    aa: 1,
    ae: 0,
    ar: 0,
};

/// How many messages were accepted, by what a door notes.
pub(crate) fn count_accepted(door: &Solo) -> usize {
    let mut count: usize = 0;
    for note in door.notes() {
        if let Note::Added(
            Receipt {
                at: _,
                entry: Entry::Accepted { .. },
            },
        ) = note
        {
            count = count.saturating_add(1);
        }
    }
    count
}
