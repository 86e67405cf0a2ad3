//! The blocks that come back on a line.
ghost use Rattle.std.specs.Prelude.{◌≡◌, OnOk, OnErr, IfOk, IfErr, false, Ok};
ghost use Rattle.gw_mllp.specs.Stream.{IsFed, Overlong};
ghost use Rattle.gw_crew.specs.Carries.{Acked, Denies, GivesNext, GivesNoBlock, GivesNone};
ghost use Rattle.gw_crew.specs.Streams.{spot};
ghost use Rattle.gw_ack.specs.Acknowledged.{Acknowledges};

use gw_ack::{Ack, AckFault, read_ack};
use gw_er7::reads_or_fails;
use gw_mllp::{Decoder, FrameFault};
use gw_stream::{RunFault, Source};
use std::alloc::{AllocError, Global};

/// The most reads for one block.
const READS: usize = 1_000_000;

/// The most bytes of a read.
const PIECE: usize = 4_096;

// Takes a piece of the stream. Says whether the stream can be read on.
fn take_piece(decoder: &mut Decoder, piece: &[u8]) -> Result<bool, AllocError>
    ensures stands { OnOk result (IsFed piece.now decoder.old decoder.new) }
    ensures over { result ≡ Ok false → decoder.new.tail ≡ Overlong }
    ensures err { OnErr result (decoder.new ≡ decoder.old) }
{
    match decoder.feed(piece) {
        Err(FrameFault::Memory) => Err(AllocError),
        Err(_) => Ok(false),
        Ok(()) => Ok(true),
    }
}

// The next block, which comes back for the message of this number.
#[tactic(auto, using(crate::proofs::Carrying::first_so))]
fn next_block<R: Source>(decoder: &mut Decoder, reader: &mut R, n: u64) -> Result<Vec<u8>, RunFault>
    requires { R.has_failed reader.old ≡ false }
    ensures next { IfOk result (λ content. GivesNext (spot R.Source reader.old) (spot R.Source reader.new)
        decoder.old decoder.new content.items) }
    ensures none { IfErr result (GivesNoBlock n (R.has_failed reader.new) (R.reads reader.new) (spot R.Source reader.old) decoder.old) }
    ensures works { OnOk result (R.has_failed reader.new ≡ false) }
{
    if let Some(content) = decoder.next_block() {
        return Ok(content);
    }
    let mut buffer = [0u8; PIECE];
    'reads: for _read in 0..READS {
        let Ok(count) = reader.read(&mut buffer) else {
            return Err(RunFault::Line { n });
        };
        if count == 0 {
            return Err(RunFault::Line { n });
        }
        let Ok(on) = take_piece(decoder, &buffer[..count]) else {
            return Err(RunFault::Memory);
        };
        if let Some(content) = decoder.next_block() {
            return Ok(content);
        }
        if !on {
            return Err(RunFault::Line { n });
        }
    }
    Err(RunFault::Turns)
}

// What a content says as the acknowledgment of the message of this number and control id.
#[tactic(auto, using(crate::specs::Carries::no_memory))]
fn read_answer(alloc: Global, content: &[u8], control: &[u8], n: u64) -> Result<Ack, RunFault>
    ensures says { IfOk result (Acknowledges content.now control.now) }
    ensures not { IfErr result (Denies n content.now control.now) }
{
    // (a law: each content reads as a message or has a fault)
    reads_or_fails();
    match read_ack(alloc, content, control) {
        Ok(ack) => Ok(ack),
        Err(AckFault::Memory) => Err(RunFault::Memory),
        Err(_) => Err(RunFault::Line { n }),
    }
}

// The next block as the acknowledgment of the message of this number and control id.
pub(crate) fn answered<R: Source>(
    alloc: Global,
    decoder: &mut Decoder,
    reader: &mut R,
    control: &[u8],
    n: u64,
) -> Result<Ack, RunFault>
    requires { R.has_failed reader.old ≡ false }
    ensures acked { IfOk result (Acked (spot R.Source reader.old) (spot R.Source reader.new)
        decoder.old decoder.new control.now) }
    ensures none { IfErr result (GivesNone n false (R.has_failed reader.new) (R.reads reader.new) (spot R.Source reader.old)
        decoder.old control.now) }
    ensures works { OnOk result (R.has_failed reader.new ≡ false) }
{
    match next_block(decoder, reader, n) {
        Err(fault) => Err(fault),
        Ok(content) => read_answer(alloc, &content, control, n),
    }
}
