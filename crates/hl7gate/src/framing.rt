//! Whether what a sender sends is framed (MLLP Release 1: VT, the message bytes, FS, CR). What isn't is reported, once a connection and without a byte of it.
//!
//! What a message is, is decided by `gw_mllp` alone.
use memchr::memchr;
use std::io;
use std::io::{Eprint, Read};
use std::net::TcpStream;

/// Begins a block.
pub(crate) const VT: u8 = 0x0b;

/// Ends a block where CR follows.
pub(crate) const FS: u8 = 0x1c;

/// Follows the FS that ends a block, and ends a segment.
pub(crate) const CR: u8 = 0x0d;

const LF: u8 = 0x0a;

/// How often nothing may come behind an FS before that is reported.
const LOOKS: u32 = 8;

/// Where a stream stands.
#[derive(Clone, Copy, PartialEq, Eq)]
enum Place {
    /// Between two blocks.
    Between,
    /// In a block.
    Within,
    /// In a block, behind an FS.
    BehindFs,
}

/// What is framed badly, and at which byte of its connection, from 1.
#[derive(Clone, Copy, PartialEq, Eq)]
enum Misframed {
    /// This byte is in no block, and isn't VT.
    Outside { at: u64 },
    /// This FS has LF behind it.
    LineFeed { at: u64 },
    /// This FS has no CR behind it.
    NoReturn { at: u64 },
}

/// The framing of a session's stream, up to what is reported.
#[derive(Drop)]
pub(crate) struct Framing {
    number: u64,
    place: Place,
    // how many bytes came
    count: u64,
    // how often nothing came since the last piece
    looks: u32,
    is_reported: bool,
}

impl Framing {
    /// The framing of the session of this number, before anything came.
    pub(crate) fn new(number: u64) -> Self {
        Framing {
            number,
            place: Place::Between,
            count: 0,
            looks: 0,
            is_reported: false,
        }
    }

    // Goes on behind the first `count` of these bytes.
    fn pass<'b>(&mut self, bytes: &'b [u8], count: usize, place: Place) -> &'b [u8] {
        self.count = self.count.saturating_add(count as u64);
        self.place = place;
        bytes.get(count..).unwrap_or(&[])
    }

    // Looks at the next of these bytes, one at least, and returns those behind.
    fn step<'b>(&mut self, bytes: &'b [u8]) -> Result<&'b [u8], Misframed> {
        let first = match bytes {
            [first, ..] => *first,
            [] => return Ok(bytes),
        };
        match (self.place, first) {
            (Place::Within, _) => match memchr(FS, bytes) {
                Some(at) => Ok(self.pass(bytes, at.saturating_add(1), Place::BehindFs)),
                None => Ok(self.pass(bytes, bytes.len(), Place::Within)),
            },
            (Place::Between, VT) => Ok(self.pass(bytes, 1, Place::Within)),
            (Place::BehindFs, CR) => Ok(self.pass(bytes, 1, Place::Between)),
            (Place::Between, _) => Err(Misframed::Outside {
                at: self.count.saturating_add(1),
            }),
            (Place::BehindFs, LF) => Err(Misframed::LineFeed { at: self.count }),
            (Place::BehindFs, _) => Err(Misframed::NoReturn { at: self.count }),
        }
    }

    /// A piece came.
    pub(crate) fn take<R: Eprint>(&mut self, rt: &R, piece: &[u8]) {
        self.looks = 0;
        let mut rest = piece;
        for _ in 0..piece.len() {
            if rest.is_empty() || self.is_reported {
                return;
            }
            match self.step(rest) {
                Ok(behind) => rest = behind,
                Err(misframed) => self.report(rt, misframed),
            }
        }
    }

    /// Nothing came, once more.
    pub(crate) fn wait<R: Eprint>(&mut self, rt: &R) {
        self.looks = self.looks.saturating_add(1);
        if self.looks >= LOOKS {
            self.end(rt);
        }
    }

    /// Nothing comes any more.
    pub(crate) fn end<R: Eprint>(&mut self, rt: &R) {
        if self.place == Place::BehindFs && !self.is_reported {
            self.report(rt, Misframed::NoReturn { at: self.count });
        }
    }

    fn report<R: Eprint>(&mut self, rt: &R, misframed: Misframed) {
        self.is_reported = true;
        let number = self.number;
        let _ = match misframed {
            Misframed::Outside { at } => {
                eprintln!(rt;
                    "session {number}: bytes that no block has, since byte {at}: no VT begins one (MLLP)"
                )
            }
            Misframed::LineFeed { at } => {
                eprintln!(rt;
                    "session {number}: FS with LF behind it and not CR, at byte {at}: no block ends there (MLLP)"
                )
            }
            Misframed::NoReturn { at } => {
                eprintln!(rt;
                    "session {number}: FS without CR behind it, at byte {at}: no block ends there (MLLP)"
                )
            }
        };
    }
}

/// A sender's connection whose framing is watched.
#[derive(Drop)]
pub(crate) struct Watched<'a, R: Eprint> {
    rt: &'a R,
    stream: &'a TcpStream,
    framing: Framing,
}

impl<'a, R: Eprint> Watched<'a, R> {
    pub(crate) fn new(rt: &'a R, stream: &'a TcpStream, number: u64) -> Self {
        Watched {
            rt,
            stream,
            framing: Framing::new(number),
        }
    }
}

impl<R: Eprint> Read for Watched<'_, R> {
    fn read(&mut self, buf: &mut [u8]) -> io::Result<usize> {
        let mut stream = self.stream;
        let count = stream.read(buf)?;
        if count == 0 {
            self.framing.end(self.rt);
        }
        self.framing.take(self.rt, &buf[..count]);
        Ok(count)
    }
}
