//! The blocks of a stream, read one by one.
ghost use Rattle.std.specs.Prelude.{◌≡◌, ◌≢◌, ◌↔◌, ◌<◌, ◌+◌, [], ℕ, List, Option, OnOk, OnErr, IfErr, IfSome, IfNone, IsTrue, IsErrOf, false, true, Ok};
ghost use Rattle.gw_mllp.specs.Stream.{Between, IsFed, Within, Overlong};
ghost use Rattle.gw_stream.specs.Walked.{EndsAt, Gives, Goes, Stops, Walks, WithinReads, at, place};

use crate::fault::RunFault;
use crate::source::Source;
use gw_mllp::{Decoder, FrameFault};
use std::alloc::{AllocError, Global};

/// The most reads of a run.
const MAX_READS: usize = 1_000_000;

/// The most bytes of a read.
const READ_SIZE: usize = 16_384;

/// Reads a stream, and gives its blocks one by one.
#[derive(Drop)]
pub(crate) struct BlockReader {
    decoder: Decoder,
    buffer: [u8; READ_SIZE],
    turns: usize,
}

/// Takes a piece of the stream. What it holds too much of is reported once its blocks are given.
fn take_piece(decoder: &mut Decoder, piece: &[u8]) -> Result<(), AllocError>
    ensures fed { OnOk result (IsFed piece.now decoder.old decoder.new) }
    ensures err { OnErr result (decoder.new ≡ decoder.old) }
{
    match decoder.feed(piece) {
        Err(FrameFault::Memory) => Err(AllocError),
        Err(_) => Ok(()),
        Ok(()) => Ok(()),
    }
}

/// Whether a stream may end here, which has no more bytes.
fn end_of(decoder: &Decoder) -> Result<(), RunFault>
    requires { decoder.now.tail ≢ Overlong }
    ensures ok { OnOk result (decoder.now.tail ≡ Between) }
    ensures err { IfErr result (λ e. (e ≡ RunFault.Frame 3) × (t : List ℕ) × (decoder.now.tail ≡ Within t)) }
{
    match decoder.at_end() {
        Ok(()) => Ok(()),
        Err(_) => Err(RunFault::Frame(3)),
    }
}

impl BlockReader {
    /// Before the first read. It takes no memory.
    pub(crate) fn new(alloc: Global) -> BlockReader
        ensures { (left : Option (List ℕ)) (reads : ℕ) → Walks left reads (at left reads result) [] }
    {
        BlockReader {
            decoder: Decoder::new(alloc),
            buffer: [0u8; READ_SIZE],
            turns: 0,
        }
    }

    /// The next block of what was read. It takes no memory.
    pub(crate) fn ready(&mut self) -> Option<Vec<u8>>
        ensures goes { IfSome result (λ content. Gives self.old self.new content.items) }
        ensures none { IfNone result ((self.old.decoder.waiting ≡ []) × (self.new ≡ self.old)) }
        ensures turns { self.new.turns ≡ self.old.turns }
    {
        self.decoder.next_block()
    }

    /// Reads a piece behind which blocks may end. False says that the stream has no more bytes.
    /// The faults are those of a run over a stream but `Write`: `Memory`, `Read`, `Frame(2)`, `Frame(3)` and `Turns`.
    #[tactic(auto, using(crate::specs::Walked::memory, crate::specs::Walked::read, crate::specs::Walked::turns, crate::proofs::Walking::goes_nowhere))]
    pub(crate) fn fill<R: Source>(&mut self, reader: &mut R) -> Result<bool, RunFault>
        requires works { R.has_failed reader.old ≡ false }
        requires none { self.old.decoder.waiting ≡ [] }
        ensures goes { result ≡ Ok true → Goes (place R.Source reader.old self.old) (place R.Source reader.new self.new) [] }
        ensures early { result ≡ Ok true → self.old.turns < 1000000 }
        ensures turn { result ≡ Ok true → self.new.turns ≡ self.old.turns + 1 }
        ensures end { result ≡ Ok false → EndsAt (place R.Source reader.old self.old) Between }
        ensures stops { IfErr result (Stops (place R.Source reader.old self.old) (place R.Source reader.new self.new)) }
        ensures most { WithinReads (place R.Source reader.old self.old) (R.reads reader.new) }
        ensures read { IsErrOf result RunFault.Read ↔ IsTrue (R.has_failed reader.new) }
    {
        if self.decoder.at_end() == Err(FrameFault::TooLong) {
            return Err(RunFault::Frame(2));
        }
        if self.turns >= MAX_READS {
            return Err(RunFault::Turns);
        }
        let Ok(count) = reader.read(&mut self.buffer) else {
            return Err(RunFault::Read);
        };
        if count == 0 {
            return match end_of(&self.decoder) {
                Ok(()) => Ok(false),
                Err(fault) => Err(fault),
            };
        }
        let Ok(()) = take_piece(&mut self.decoder, &self.buffer[..count]) else {
            return Err(RunFault::Memory);
        };
        self.turns += 1;
        Ok(true)
    }
}
