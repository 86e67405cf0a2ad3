//! What a session read last, and why a message in it can't be read.
//!
//! All messages that one read brings are answered before the next. Of an answer that has to have its reason the message is read once more.
use gw_er7::{ReadFault, read};
use gw_mllp::Decoder;
use memchr::memmem::rfind;
use std::alloc::{AllocError, Global};
use std::cell::Cell;

/// The bytes that end a block (MLLP Release 1).
const END: &[u8] = b"\x1c\r";

/// How many bytes at most keep their memory for what comes next.
const SHORT: usize = 65_536;

/// A message that can't be read: why, and its bytes.
#[derive(Drop)]
pub(crate) struct Unread {
    pub(crate) fault: ReadFault,
    pub(crate) bytes: Vec<u8>,
}

/// The number of the segment that has this byte, from 1.
fn segment_at(bytes: &[u8], at: usize) -> u64 {
    let (mut number, mut is_within) = (1_u64, false);
    for byte in bytes.get(..at).unwrap_or(bytes) {
        let is_end = *byte == b'\r' || *byte == b'\n';
        if is_end && is_within {
            number = number.saturating_add(1);
        }
        is_within = !is_end;
    }
    number
}

impl Unread {
    /// The fault's number, and where it is: `message refused 3 in segment 2 at byte 51`. The byte is counted from 0, in the message.
    pub(crate) fn words(&self, alloc: Global) -> Result<String, AllocError> {
        let number = self.fault.number();
        let at = match self.fault {
            ReadFault::Control { at } => at,
            ReadFault::BadSegment { at } => at,
            _ => return format!(in alloc; "message refused {number}"),
        };
        let segment = segment_at(&self.bytes, at);
        format!(in alloc; "message refused {number} in segment {segment} at byte {at}")
    }
}

/// The bytes from the beginning of the message that was open before the last read. As many of the blocks in them were answered.
#[derive(Drop)]
struct Pile {
    bytes: Vec<u8>,
    // where the message begins that is open
    open: usize,
    // the blocks in them, once one is looked for, and how many were taken out
    blocks: Option<Decoder>,
    taken: u64,
    answered: u64,
    // whether memory lacked: nothing is known from there on
    is_lost: bool,
}

impl Pile {
    fn new(alloc: Global, is_lost: bool) -> Self {
        Pile {
            bytes: Vec::new(alloc),
            open: 0,
            blocks: None,
            taken: 0,
            answered: 0,
            is_lost,
        }
    }

    // A piece was read: the blocks that ended before it were answered.
    fn add(&mut self, alloc: Global, piece: &[u8]) -> Result<(), AllocError> {
        self.blocks = None;
        self.taken = 0;
        self.answered = 0;
        if self.open > 0 {
            let rest = self.bytes.get(self.open..).unwrap_or(&[]);
            if rest.is_empty() && self.bytes.len() <= SHORT {
                self.bytes.clear();
            } else {
                self.bytes = Vec::from_slice(alloc, rest)?;
            }
        }
        let from = self.bytes.len().saturating_sub(1);
        self.bytes.extend_from_slice(piece)?;
        self.open = match rfind(self.bytes.get(from..).unwrap_or(&[]), END) {
            Some(end) => from.saturating_add(end).saturating_add(END.len()),
            None => 0,
        };
        Ok(())
    }

    // The block that was answered last.
    fn last(&mut self, alloc: Global) -> Option<Vec<u8>> {
        let mut blocks = match self.blocks.take() {
            Some(blocks) => blocks,
            None => {
                let mut blocks = Decoder::new(alloc);
                let _ = blocks.feed(&self.bytes);
                blocks
            }
        };
        for _ in self.taken.saturating_add(1)..self.answered {
            let _ = blocks.next_block();
        }
        let last = blocks.next_block();
        self.taken = self.answered;
        self.blocks = Some(blocks);
        last
    }
}

/// What a session read last, up to the answers that went out.
#[derive(Drop)]
pub(crate) struct Came {
    alloc: Global,
    pile: Cell<Pile>,
    // whether it is a message that is too long
    is_long: bool,
}

impl Came {
    /// Nothing was read yet; or a message that is too long.
    pub(crate) fn new(alloc: Global, is_long: bool) -> Self {
        Came {
            alloc,
            pile: Cell::new(Pile::new(alloc, is_long)),
            is_long,
        }
    }

    /// Why a message that can be read is answered AR with 207, where that is known. `is_short`: the disk has no room.
    pub(crate) fn words(&self, is_short: bool) -> Result<String, AllocError> {
        if self.is_long {
            return String::from_str(self.alloc, "longer than 1048576 bytes");
        }
        let words = if is_short { "no room on the disk" } else { "" };
        String::from_str(self.alloc, words)
    }

    /// Nothing is known of this session's messages any more.
    pub(crate) fn lose(&self) {
        self.pile.set(Pile::new(self.alloc, true));
    }

    /// A piece was read. Where memory lacks for it, nothing is known from there on.
    pub(crate) fn add(&self, piece: &[u8]) {
        let mut pile = self.pile.replace(Pile::new(self.alloc, true));
        if !pile.is_lost && pile.add(self.alloc, piece).is_ok() {
            self.pile.set(pile);
        }
    }

    /// The next message was answered.
    pub(crate) fn answer(&self) {
        let mut pile = self.pile.replace(Pile::new(self.alloc, true));
        pile.answered = pile.answered.saturating_add(1);
        self.pile.set(pile);
    }

    /// The message that was answered last, where it can't be read.
    pub(crate) fn unread(&self) -> Option<Unread> {
        let mut pile = self.pile.replace(Pile::new(self.alloc, true));
        let last = if pile.is_lost {
            None
        } else {
            pile.last(self.alloc)
        };
        self.pile.set(pile);
        let bytes = last?;
        match read(self.alloc, &bytes) {
            Ok(_message) => None,
            Err(ReadFault::Memory) => None,
            Err(fault) => Some(Unread { fault, bytes }),
        }
    }
}
