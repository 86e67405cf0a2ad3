//! Answers that are written and read.
use crate::sweeps::{Call, holds, refuse, sweep};
use gw_ack::{Ack, AckFault, Header, Stamp, accept_ack, error_ack, read_ack, reject_ack};
use gw_er7::read;
use gw_validate::{Breach, Kind};
use std::alloc::{AllocError, Global};
use std::test::Fail;

/// A message, and its answer if it is accepted.
const H: &[u8] = b"MSH|^~\\&|LAB|H1|GW|H2|20240102030405||ADT^A01^ADT_A01|7|P|2.5.1\r";

const ACCEPTED: &[u8] =
    b"MSH|^~\\&|GW|H2|LAB|H1|20240102030406||ACK^A01^ACK|G1|P|2.5.1\rMSA|AA|7\r";

/// The answer to a message without its patient's identifier, and to one that can't be read.
const BROKEN: &[u8] =
    b"MSH|^~\\&|GW|H2|LAB|H1|20240102030406||ACK^A01^ACK|G1|P|2.5.1\rMSA|AE|7\rERR||PID^1^3|101^Required field missing^HL70357|E\r";

const UNREADABLE: &[u8] =
    b"MSH|^~\\&|||||20240102030406||ACK^^ACK|G1|P|2.5.1\rMSA|AR\rERR|||207^Application internal error^HL70357|E\r";

const BREACH: Breach = Breach {
    kind: Kind::MissingValue,
    segment: *b"PID",
    sequence: 1,
    field: 3,
    rep: 0,
    comp: 0,
    sub: 0,
};

#[derive(Clone, Copy)]
enum Answer {
    Header,
    Accept,
    Error,
    Reject,
    ReadAck,
}

impl Call for Answer {
    fn is_refused(&self, alloc: Global, growth: u32) -> Result<bool, Fail> {
        match self {
            Answer::Header => header_refused(alloc, growth),
            Answer::ReadAck => read_ack_refused(alloc, growth),
            written => answer_refused(alloc, *written, growth),
        }
    }
}

fn stamp() -> Result<Stamp, Fail> {
    let stamp = Stamp::from_digits(b"20240102030406").ok_or("a stamp")?;
    Ok(stamp)
}

fn header_refused(alloc: Global, growth: u32) -> Result<bool, Fail> {
    let message = read(alloc, H)?;
    let stamp = stamp()?;
    refuse(alloc, growth);
    let (refused, header) = match Header::of(alloc, &message) {
        Err(_) => (true, Header::of(alloc, &message)?),
        Ok(header) => (false, header),
    };
    refuse(alloc, 0);
    holds(
        accept_ack(alloc, &header, stamp, 1)?.as_slice() == ACCEPTED,
        "another header",
    )?;
    Ok(refused)
}

// The answer to a message with this header, or to one that can't be read.
fn written(
    alloc: Global,
    answer: Answer,
    header: &Header,
    stamp: Stamp,
) -> Result<Vec<u8>, AllocError> {
    match answer {
        Answer::Accept => accept_ack(alloc, header, stamp, 1),
        Answer::Error => error_ack(alloc, header, stamp, 1, &BREACH),
        _ => reject_ack(alloc, &Header::blank(alloc), stamp, 1, 207),
    }
}

fn answer_refused(alloc: Global, answer: Answer, growth: u32) -> Result<bool, Fail> {
    let message = read(alloc, H)?;
    let header = Header::of(alloc, &message)?;
    let stamp = stamp()?;
    refuse(alloc, growth);
    let (refused, content) = match written(alloc, answer, &header, stamp) {
        Err(_) => (true, written(alloc, answer, &header, stamp)?),
        Ok(content) => (false, content),
    };
    refuse(alloc, 0);
    let want = match answer {
        Answer::Accept => ACCEPTED,
        Answer::Error => BROKEN,
        _ => UNREADABLE,
    };
    holds(content.as_slice() == want, "another answer")?;
    Ok(refused)
}

fn read_ack_refused(alloc: Global, growth: u32) -> Result<bool, Fail> {
    refuse(alloc, growth);
    let (refused, ack) = match read_ack(alloc, ACCEPTED, b"7") {
        Err(AckFault::Memory) => (true, read_ack(alloc, ACCEPTED, b"7")),
        found => (false, found),
    };
    refuse(alloc, 0);
    holds(ack == Ok(Ack::AA), "another acknowledgment")?;
    Ok(refused)
}

#[test]
fn answers_refused(rt: HostRuntime) -> Result<(), Fail> {
    for call in [
        Answer::Header,
        Answer::Accept,
        Answer::Error,
        Answer::Reject,
        Answer::ReadAck,
    ] {
        sweep(rt.alloc(), &call)?;
    }
    Ok(())
}
