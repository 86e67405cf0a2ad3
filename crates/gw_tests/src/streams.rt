//! Streams over devices that give and take little, are interrupted, and fail.
use crate::worked::profile;
use gw_ack::Stamp;
use gw_stream::{Counts, Reads, RunFault, Writes, answer_stream};
use std::alloc::{AllocError, Global};
use std::io;
use std::io::{ErrorKind, Read, Write};
use std::test::Fail;

/// One message that conforms, one that doesn't and one that can't be read.
const STREAM: &[u8] =
    b"\x0bMSH|^~\\&|LAB\rPID|1\r\x1c\r\r\n\x0bMSH|^~\\&|LAB\r\x1c\r\x0bEVN\r\x1c\r";

const ANSWERS: &[u8] =
    b"\x0bMSH|^~\\&|||LAB||20240102030406||ACK^^ACK|G1|P|2.5.1\rMSA|AA\r\x1c\r\x0bMSH|^~\\&|||LAB||20240102030406||ACK^^ACK|G2|P|2.5.1\rMSA|AE\rERR||PID^1|100^Segment sequence error^HL70357|E\r\x1c\r\x0bMSH|^~\\&|||||20240102030406||ACK^^ACK|G3|P|2.5.1\rMSA|AR\rERR|||207^Application internal error^HL70357|E\r\x1c\r";

const COUNTS: Counts = Counts {
    answered: 3,
    put: 0,
    sent: 0,
    aa: 1,
    ae: 1,
    ar: 1,
};

/// Moves a limited number of bytes a call, fails after a number of calls, and is interrupted before each.
#[derive(Drop)]
pub(crate) struct Device<'a> {
    rest: &'a [u8],
    held: Vec<u8>,
    most: usize,
    calls: usize,
    often: usize,
    left: usize,
}

impl<'a> Device<'a> {
    pub(crate) fn new(
        alloc: Global,
        rest: &'a [u8],
        most: usize,
        calls: usize,
        often: usize,
    ) -> Device<'a> {
        Device {
            rest,
            held: Vec::new(alloc),
            most,
            calls,
            often,
            left: often,
        }
    }

    /// The same, with room for what it takes.
    pub(crate) fn with_room(mut self, room: usize) -> Result<Device<'a>, AllocError> {
        self.held.reserve(room)?;
        Ok(self)
    }

    /// How many bytes of these it holds, if it holds a beginning of them.
    pub(crate) fn holds(&self, bytes: &[u8]) -> Option<usize> {
        if bytes.starts_with(self.held.as_slice()) {
            Some(self.held.len())
        } else {
            None
        }
    }

    fn begin(&mut self) -> io::Result<()> {
        if self.left > 0 {
            self.left -= 1;
            return Err(io::Error::from(ErrorKind::Interrupted));
        }
        if self.calls == 0 {
            return Err(io::Error::from(ErrorKind::Other));
        }
        self.calls -= 1;
        self.left = self.often;
        Ok(())
    }
}

impl Read for Device<'_> {
    fn read(&mut self, buf: &mut [u8]) -> io::Result<usize> {
        self.begin()?;
        let count = self.rest.len().min(buf.len()).min(self.most);
        let (front, rest) = self.rest.split_at(count);
        buf[..count].copy_from_slice(front);
        self.rest = rest;
        Ok(count)
    }
}

impl Write for Device<'_> {
    fn write(&mut self, buf: &[u8]) -> io::Result<usize> {
        self.begin()?;
        let count = buf.len().min(self.most);
        self.held.extend_from_slice(&buf[..count])?;
        Ok(count)
    }

    fn flush(&mut self) -> io::Result<()> {
        Ok(())
    }
}

/// What a run over these devices answers.
fn answered(
    alloc: Global,
    input: &mut Device<'_>,
    output: &mut Device<'_>,
) -> Result<Result<Counts, RunFault>, Fail> {
    let stamp = Stamp::from_digits(b"20240102030406").ok_or("a stamp")?;
    let profile = profile(alloc, "profile P\nsegment MSH R 1..1\nsegment PID R 1..1\n")?;
    let mut reader = Reads::new(input);
    let mut writer = Writes::new(output);
    Ok(answer_stream(alloc, profile, stamp, &mut reader, &mut writer))
}

/// What a run answers, how many bytes of the answers its output then holds, and how many calls that has left.
fn run(
    alloc: Global,
    mut input: Device<'_>,
    mut output: Device<'_>,
) -> Result<(Result<Counts, RunFault>, Option<usize>, usize), Fail> {
    let result = answered(alloc, &mut input, &mut output)?;
    Ok((result, output.holds(ANSWERS), output.calls))
}

/// What a run answers, and how many bytes of what it writes its output has.
pub(crate) type Ran = (Result<Counts, RunFault>, Option<usize>);

/// Each answer goes out in one write, where the writer takes it.
#[test]
fn writer_fails(rt: HostRuntime) -> Result<(), Fail> {
    let alloc = rt.alloc();
    let input = Device::new(alloc, STREAM, 1, 1000, 0);
    let (result, held, calls) = run(alloc, input, Device::new(alloc, b"", 65_536, 3, 0))?;
    assert!(rt; result == Ok(COUNTS) && held == Some(ANSWERS.len()) && calls == 0);
    for writes in 0..ANSWERS.len() {
        let input = Device::new(alloc, STREAM, 1, 1000, 0);
        let (result, held, _) = run(alloc, input, Device::new(alloc, b"", 1, writes, 0))?;
        assert!(rt; result == Err(RunFault::Write) && held == Some(writes));
    }
    let input = Device::new(alloc, STREAM, 1, 1000, 0);
    let (result, held, _) = run(alloc, input, Device::new(alloc, b"", 0, 1000, 0))?;
    assert!(rt; result == Err(RunFault::Write) && held == Some(0));
    Ok(())
}

/// A call that is interrupted is made again, and has failed at the thousandth interruption.
#[test]
fn interrupted(rt: HostRuntime) -> Result<(), Fail> {
    let alloc = rt.alloc();
    let rows: [(usize, usize, Result<Counts, RunFault>, usize); 4] = [
        (1, 1, Ok(COUNTS), ANSWERS.len()),
        (999, 999, Ok(COUNTS), ANSWERS.len()),
        (1_000, 0, Err(RunFault::Read), 0),
        (0, 1_000, Err(RunFault::Write), 0),
    ];
    for (reads, writes, want, count) in rows {
        let input = Device::new(alloc, STREAM, 1, 1000, reads);
        let (result, held, _) = run(alloc, input, Device::new(alloc, b"", 1, 1000, writes))?;
        assert!(rt; result == want && held == Some(count));
    }
    Ok(())
}

/// The answers to what one read brought go out in one write.
#[test]
fn answers_are_gathered(rt: HostRuntime) -> Result<(), Fail> {
    let alloc = rt.alloc();
    let input = Device::new(alloc, STREAM, 65_536, 1000, 0);
    let (result, held, left) = run(alloc, input, Device::new(alloc, b"", 65_536, 1, 0))?;
    assert!(rt; result == Ok(COUNTS) && held == Some(ANSWERS.len()) && left == 0);
    Ok(())
}

/// The 1,000,000th read that gives something is one too many.
#[test]
fn turns(rt: HostRuntime) -> Result<(), Fail> {
    let alloc = rt.alloc();
    for (left, want) in [
        (999_999, Ok(Counts::none())),
        (1_000_000, Err(RunFault::Turns)),
    ] {
        let gap = Vec::from_elem(alloc, b'\r', left)?;
        let input = Device::new(alloc, &gap, 1, 2_000_000, 0);
        let (result, held, _) = run(alloc, input, Device::new(alloc, b"", 1, 1000, 0))?;
        assert!(rt; result == want && held == Some(0));
    }
    Ok(())
}
