//! What a receiver's line brings back, and why it acknowledges nothing.
use gw_ack::{AckFault, read_ack};
use gw_gate::Entry;
use gw_mllp::{Decoder, FrameFault};
use gw_run::Note;
use memchr::memmem::find;
use std::alloc::Global;
use std::io;
use std::io::{ErrorKind, Read};
use std::net::TcpStream;

/// Why a message wasn't acknowledged.
#[derive(Clone, Copy, PartialEq, Eq)]
pub(crate) enum Unacknowledged {
    /// The line ended, or can't be read or written.
    Ended,
    /// Nothing came in time.
    Silent,
    /// The message can't be written.
    Unwritten,
    /// It is to be passed over, and isn't waited for any more.
    PassedOver,
    /// Bytes came, and no block ended in them, until the line ended or the time was over.
    Loose,
    /// A block is too long.
    TooLong,
    /// The block can't be read as a message.
    Unreadable,
    /// The block has no MSA, or its code is none of table 0008 (HL7 v2.5.1).
    NoCode,
    /// The block's code is CA, CE or CR, of the enhanced mode: its second letter.
    Accept { code: u8 },
    /// The block has another control id.
    OtherMessage,
    /// There was no memory to find out.
    Unknown,
}

impl Unacknowledged {
    /// What came in place of an acknowledgment.
    pub(crate) fn words(self) -> &'static str {
        match self {
            Unacknowledged::Ended => "its connection was closed",
            Unacknowledged::Silent => "nothing came for 60 seconds",
            Unacknowledged::Unwritten => "it took no more of it, or its connection was closed",
            Unacknowledged::PassedOver => "it is to be passed over",
            Unacknowledged::Loose => "what came ends no block",
            Unacknowledged::TooLong => "its block is too long",
            Unacknowledged::Unreadable => "its block is no message",
            Unacknowledged::NoCode => "its block has no MSA with AA, AE or AR",
            Unacknowledged::Accept { code: b'A' } => "its block has CA in place of AA, AE or AR",
            Unacknowledged::Accept { code: b'E' } => "its block has CE in place of AA, AE or AR",
            Unacknowledged::Accept { .. } => "its block has CR in place of AA, AE or AR",
            Unacknowledged::OtherMessage => "its block has another control id",
            Unacknowledged::Unknown => "out of memory while its block was read",
        }
    }
}

/// What was read of a receiver's line: the blocks that weren't taken yet, and how it ended.
#[derive(Drop)]
pub(crate) struct Ears {
    decoder: Decoder,
    taken: u64,
    end: Option<Unacknowledged>,
    // whether bytes came behind the last block that was taken
    is_loose: bool,
    is_lost: bool,
}

impl Ears {
    pub(crate) fn new(alloc: Global) -> Self {
        Ears {
            decoder: Decoder::new(alloc),
            taken: 0,
            end: None,
            is_loose: false,
            is_lost: false,
        }
    }

    /// Takes the next block that came.
    pub(crate) fn next_block(&mut self) -> Option<Vec<u8>> {
        let block = self.decoder.next_block()?;
        self.taken = self.taken.saturating_add(1);
        self.is_loose = false;
        Some(block)
    }

    // The blocks that came were taken, this many at most.
    fn go_on(&mut self, most: usize) {
        for _ in 0..most {
            if self.next_block().is_none() {
                return;
            }
        }
    }

    /// Something was read into this room, or can't be: the blocks that came before were taken.
    pub(crate) fn note(&mut self, read: &io::Result<usize>, room: &[u8]) {
        // (each read has as much room, and brings fewer blocks than bytes)
        self.go_on(room.len());
        match read {
            Ok(count) => self.take(room.get(..*count).unwrap_or(&[])),
            Err(error) if error.kind() == ErrorKind::TimedOut => {
                self.end = Some(Unacknowledged::Silent);
            }
            Err(_) => self.end = Some(Unacknowledged::Ended),
        }
    }

    // Takes a piece that was read.
    fn take(&mut self, piece: &[u8]) {
        self.end = if piece.is_empty() {
            Some(Unacknowledged::Ended)
        } else {
            self.is_loose = true;
            None
        };
        if let Err(FrameFault::Memory) = self.decoder.feed(piece) {
            self.is_lost = true;
        }
    }

    /// Why the last of the messages that were sent wasn't acknowledged.
    pub(crate) fn why(mut self, alloc: Global, sent: u64) -> Unacknowledged {
        if let Some(end) = self.end {
            return if self.is_loose {
                Unacknowledged::Loose
            } else {
                end
            };
        }
        if self.is_lost {
            return Unacknowledged::Unknown;
        }
        // (those before acknowledge the messages before)
        for _ in self.taken.saturating_add(1)..sent {
            let _ = self.decoder.next_block();
        }
        match self.decoder.next_block() {
            Some(content) => judged(alloc, &content),
            None => Unacknowledged::TooLong,
        }
    }
}

/// A receiver's line that is read, with what was read of it.
#[derive(Drop)]
pub(crate) struct Heard<'s> {
    stream: &'s TcpStream,
    ears: Ears,
}

impl<'s> Heard<'s> {
    pub(crate) fn new(alloc: Global, stream: &'s TcpStream) -> Self {
        Heard {
            stream,
            ears: Ears::new(alloc),
        }
    }

    /// Why the last of the messages that were sent wasn't acknowledged.
    pub(crate) fn why(self, alloc: Global, sent: u64) -> Unacknowledged {
        let Heard { ears, .. } = self;
        ears.why(alloc, sent)
    }
}

impl Read for Heard<'_> {
    fn read(&mut self, buf: &mut [u8]) -> io::Result<usize> {
        let mut stream = self.stream;
        let read = stream.read(buf);
        self.ears.note(&read, buf);
        read
    }
}

/// What is said of the code of an MSA-1 that is none of the original mode, by its bytes.
fn code_of(content: &[u8]) -> Unacknowledged {
    let at = match find(content, b"\rMSA") {
        Some(at) => at.saturating_add(5),
        None => return Unacknowledged::NoCode,
    };
    match content.get(at..at.saturating_add(2)) {
        Some([b'C', code]) if matches!(*code, b'A' | b'E' | b'R') => {
            Unacknowledged::Accept { code: *code }
        }
        _ => Unacknowledged::NoCode,
    }
}

/// Why a block doesn't acknowledge its message. The message's control id isn't needed: where the block has a code, its control id is another.
fn judged(alloc: Global, content: &[u8]) -> Unacknowledged {
    match read_ack(alloc, content, b"") {
        Err(AckFault::Memory) => Unacknowledged::Unknown,
        Err(AckFault::Unreadable) => Unacknowledged::Unreadable,
        Err(AckFault::NotAnAck) => code_of(content),
        Ok(_) | Err(AckFault::OtherMessage) => Unacknowledged::OtherMessage,
    }
}

/// How many messages were given out to be sent.
pub(crate) fn sent_in(notes: &[Note]) -> u64 {
    let mut sent = 0u64;
    for note in notes {
        if let Note::Added(receipt) = note
            && matches!(receipt.entry, Entry::Out { .. })
        {
            sent = sent.saturating_add(1);
        }
    }
    sent
}
