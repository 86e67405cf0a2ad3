//! A record that is sent over a line until it is acknowledged.
use gw_ack::Ack;
use gw_forward::{Ended, ForwardFault, Outbox, OutboxFault, forward};
use gw_stream::{Reads, Writes};
use std::alloc::Global;
use std::test::Fail;

const RECORD: &[u8] = b"MSH|^~\\&||||||||7\rPID||||||||2\r";

/// Its block.
const SENT: &[u8] = b"\x0bMSH|^~\\&||||||||7\rPID||||||||2\r\x1c\r";

/// Its acknowledgment, and one of another message.
const ACKED: &[u8] =
    b"\x0bMSH|^~\\&|GW|H2|LAB|H1|20240102030406||ACK^A01^ACK|G1|P|2.5.1\rMSA|AA|7\r\x1c\r";

const OTHER: &[u8] =
    b"\x0bMSH|^~\\&|GW|H2|LAB|H1|20240102030406||ACK^A01^ACK|G1|P|2.5.1\rMSA|AA|8\r\x1c\r";

/// A record that is no message, though its header is one, and its block; and one that has no header.
const LONG: &[u8] = b"MSH|^~\\&||||||||7\rno segment\r";

const LONG_SENT: &[u8] = b"\x0bMSH|^~\\&||||||||7\rno segment\r\x1c\r";

const NONE: &[u8] = b"PID||||||||2\r";

/// An outbox of one record.
#[derive(Drop)]
struct One<'r> {
    alloc: Global,
    record: &'r [u8],
    count: u64,
}

impl Outbox for One<'_> {
    ghost use Rattle.std.specs.Prelude.{⊤};

    ghost count = { λ o. o.count };

    ghost gives = { λ s t bytes. ⊤ };

    ghost closes = { λ s t. ⊤ };

    ghost breaks = { λ s t fault. ⊤ };

    ghost settles = { λ s t ack taken. ⊤ };

    ghost fails = { λ s t ack fault. ⊤ };

    fn count(&self) -> u64 {
        self.count
    }

    fn next(&mut self) -> Result<Option<Vec<u8>>, OutboxFault> {
        if self.count > 0 {
            return Ok(None);
        }
        Ok(Some(Vec::from_slice(self.alloc, self.record)?))
    }

    fn settle(&mut self, ack: Ack) -> Result<bool, OutboxFault> {
        if ack != Ack::AA {
            return Ok(false);
        }
        match self.count.checked_add(1) {
            None => Err(OutboxFault::Memory),
            Some(count) => {
                self.count = count;
                Ok(true)
            }
        }
    }
}

// How a forwarder of one record ends over these answers, how many records were taken, and what it wrote.
fn forwarded(
    alloc: Global,
    record: &[u8],
    answers: &[u8],
) -> (Result<Ended, ForwardFault>, u64, Vec<u8>) {
    let mut outbox = One {
        alloc,
        record,
        count: 0,
    };
    let mut written = Vec::new(alloc);
    let mut reader = Reads::new(answers);
    let mut writer = Writes::new(&mut written);
    let ended = forward(alloc, &mut outbox, &mut reader, &mut writer);
    (ended, outbox.count, written)
}

#[test]
fn a_record_is_taken_where_it_is_acknowledged(rt: HostRuntime) -> Result<(), Fail> {
    let (ended, taken, written) = forwarded(rt.alloc(), RECORD, ACKED);
    assert_eq!(rt; ended, Ok(Ended::Closed));
    assert!(rt; taken == 1 && written.as_slice() == SENT);
    let (ended, taken, written) = forwarded(rt.alloc(), RECORD, OTHER);
    assert_eq!(rt; ended, Err(ForwardFault::Line { n: 0 }));
    assert!(rt; taken == 0 && written.as_slice() == SENT);
    Ok(())
}

#[test]
fn of_a_record_the_header_alone_is_read(rt: HostRuntime) -> Result<(), Fail> {
    let (ended, taken, written) = forwarded(rt.alloc(), LONG, ACKED);
    assert_eq!(rt; ended, Ok(Ended::Closed));
    assert!(rt; taken == 1 && written.as_slice() == LONG_SENT);
    let (ended, taken, written) = forwarded(rt.alloc(), NONE, ACKED);
    assert_eq!(rt; ended, Err(ForwardFault::Record { n: 0 }));
    assert!(rt; taken == 0 && written.is_empty());
    Ok(())
}
