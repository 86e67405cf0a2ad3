//! The decoder: a stream in pieces, and its blocks.
ghost use Rattle.std.specs.Prelude.{◌≡◌, ◌+◌, ◌≤◌, ◌++◌, length, IfOk, IfErr, OnErr};
ghost use Rattle.gw_mllp.specs.Stream.{Between, Within};
ghost use Rattle.gw_mllp.specs.Taken.{EndsAt, TakesOn};

use crate::blocks::{end_content, take_blocks};
use crate::fault::FrameFault;
use crate::reach::{Reach, lone_byte, reach_into};
use crate::tail::Tail;
use std::alloc::Global;
use std::collections::VecDeque;
use std::marker::Model;
use std::mem;

/// Reads a stream in pieces of any size, and returns its blocks.
pub struct Decoder {
    alloc: Global,
    waiting: VecDeque<Vec<u8>>,
    tail: Tail,
}

// Written out, so that no crate above proves again how its fields are dropped.
impl Drop for Decoder {
    fn drop(self) {
        let Decoder {
            alloc: _,
            waiting: _,
            tail: _,
        } = self;
    }
}

impl Model for Decoder {
    ghost use Rattle.gw_mllp.specs.Stream.{Held};
    ghost use Rattle.gw_mllp.specs.Taken.{contents, tail_view};

    ghost Value = { Held };

    ghost view = { λ d. record { waiting = contents d.waiting.items; tail = tail_view d.tail } };
}

/// Reads a piece that follows a block or a gap, and adds the blocks that end in it.
fn add_blocks(
    alloc: Global,
    waiting: &mut VecDeque<Vec<u8>>,
    piece: &[u8],
) -> Result<Tail, FrameFault>
    ensures ok { IfOk result (λ tail. TakesOn waiting.old.items Between piece.now waiting.new.items tail) }
    ensures err { OnErr result (waiting.new.items ≡ waiting.old.items) }
    ensures memory { IfErr result (λ e. e ≡ FrameFault.Memory) }
{
    let mut made = VecDeque::new(alloc);
    let tail = take_blocks(alloc, &mut made, piece)?;
    waiting.append(&mut made)?;
    Ok(tail)
}

/// Ends the open block with the run, and reads the bytes that follow it.
fn end_block(
    alloc: Global,
    waiting: &mut VecDeque<Vec<u8>>,
    content: &mut Vec<u8>,
    run: &[u8],
    after: &[u8],
) -> Result<Tail, FrameFault>
    requires run { EndsAt content.old.items run.now }
    requires short { length content.old.items + length run.now ≤ 1048578 }
    ensures ok { IfOk result (λ tail. TakesOn waiting.old.items (Within content.old.items) (run.now ++ after.now) waiting.new.items tail) }
    ensures waiting { OnErr result (waiting.new.items ≡ waiting.old.items) }
    ensures content { OnErr result (content.new.items ≡ content.old.items) }
    ensures memory { IfErr result (λ e. e ≡ FrameFault.Memory) }
{
    let mut made = VecDeque::new(alloc);
    let tail = take_blocks(alloc, &mut made, after)?;
    waiting.reserve(made.len() + 1)?;
    end_content(content, run)?;
    waiting.push_back_reserved(mem::replace(content, Vec::new(alloc)));
    waiting.append(&mut made)?;
    Ok(tail)
}

impl Decoder {
    ghost use Rattle.std.specs.Prelude.{◌≡◌, ◌≢◌, ◌↔◌, ◌∷◌, [], List, ℕ, IfErr, IfNone, IfSome, IsErrOf, IsOk, OnOk, OnErr};
    ghost use Rattle.gw_mllp.specs.Stream.{Stands, Between, Within, Overlong, IsFed, HasGiven};
    ghost use Rattle.gw_mllp.specs.Taken.{Adds};

    /// A decoder of an empty stream. It takes no memory.
    pub fn new(alloc: Global) -> Decoder
        ensures stands { Stands [] [] result }
        ensures empty { result ≡ record { waiting = []; tail = Between } }
    {
        Decoder {
            alloc,
            waiting: VecDeque::new(alloc),
            tail: Tail::Between,
        }
    }

    /// Reads the next piece of the stream. On `Memory` nothing has changed, and the piece may be fed again. After `TooLong` each further call
    /// fails with it; the blocks that ended before are still returned.
    pub fn feed(&mut self, piece: &[u8]) -> Result<(), FrameFault>
        // However the stream was cut, the decoder is then at the end of the stream with this piece.
        ensures fed { result ≢ Err FrameFault.Memory → IsFed piece.now self.old self.new }
        ensures ok { OnOk result (self.new.tail ≢ Overlong) }
        ensures too_long { IsErrOf result FrameFault.TooLong → self.new.tail ≡ Overlong }
        ensures for_ever { self.old.tail ≡ Overlong → IsErrOf result FrameFault.TooLong }
        ensures memory { IsErrOf result FrameFault.Memory → self.new ≡ self.old }
        ensures not_truncated { result ≢ Err FrameFault.Truncated }
    {
        self.take(piece)?;
        match self.tail {
            Tail::Overlong => Err(FrameFault::TooLong),
            _ => Ok(()),
        }
    }

    /// Reads the next piece of the stream, however long the open block gets.
    fn take(&mut self, piece: &[u8]) -> Result<(), FrameFault>
        ensures ok { OnOk result (Adds self.old.waiting self.old.tail piece.now self.new.waiting self.new.tail) }
        ensures err { OnErr result (self.new ≡ self.old) }
        ensures overlong { self.old.tail ≡ Overlong → IsOk result }
        ensures stays { self.old.tail ≡ Overlong → self.new.tail ≡ Overlong }
        ensures memory { IfErr result (λ e. e ≡ FrameFault.Memory) }
    {
        match &mut self.tail {
            Tail::Between => {
                let tail = add_blocks(self.alloc, &mut self.waiting, piece)?;
                self.tail = tail;
                Ok(())
            }
            Tail::Within(content) => match lone_byte(content, piece) {
                Some(byte) => {
                    content.push(byte)?;
                    Ok(())
                }
                None => self.take_within(piece),
            },
            Tail::Overlong => Ok(()),
        }
    }

    /// Reads the next piece of the stream within an open block.
    fn take_within(&mut self, piece: &[u8]) -> Result<(), FrameFault>
        requires { (t : List ℕ) × (self.old.tail ≡ Within t) }
        ensures ok { OnOk result (Adds self.old.waiting self.old.tail piece.now self.new.waiting self.new.tail) }
        ensures err { OnErr result (self.new ≡ self.old) }
        ensures memory { IfErr result (λ e. e ≡ FrameFault.Memory) }
    {
        let Tail::Within(content) = &mut self.tail else {
            return Ok(());
        };
        match reach_into(content, piece) {
            Reach::Open => {
                content.extend_from_slice(piece)?;
                Ok(())
            }
            Reach::TooLong => {
                self.tail = Tail::Overlong;
                Ok(())
            }
            Reach::Ends(run, after) => {
                let tail = end_block(self.alloc, &mut self.waiting, content, run, after)?;
                self.tail = tail;
                Ok(())
            }
        }
    }

    /// Returns the next block that has ended. It takes no memory.
    pub fn next_block(&mut self) -> Option<Vec<u8>>
        ensures given { IfSome result (λ block. HasGiven block.items self.old self.new) }
        ensures some { IfSome result (λ block. self.old ≡ record self.new { waiting = block.items ∷ self.new.waiting }) }
        ensures none { IfNone result ((self.old.waiting ≡ []) × (self.new ≡ self.old)) }
    {
        self.waiting.pop_front()
    }

    /// Whether the stream may end here: `Truncated` within a block, `TooLong` behind one that was too long. It takes no memory.
    pub fn at_end(&self) -> Result<(), FrameFault>
        ensures ok { IsOk result ↔ (self.now.tail ≡ Between) }
        ensures truncated { IsErrOf result FrameFault.Truncated ↔ ((t : List ℕ) × (self.now.tail ≡ Within t)) }
        ensures too_long { IsErrOf result FrameFault.TooLong ↔ (self.now.tail ≡ Overlong) }
        ensures not_memory { result ≢ Err FrameFault.Memory }
    {
        match self.tail {
            Tail::Between => Ok(()),
            Tail::Within(_) => Err(FrameFault::Truncated),
            Tail::Overlong => Err(FrameFault::TooLong),
        }
    }
}
