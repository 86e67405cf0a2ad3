//! Couriers.
ghost use Rattle.std.specs.Prelude.{◌≡◌, ◌+◌, ◌<◌, ◌^◌, IfOk, IfErr, OnErr, OnOk, false};
ghost use Rattle.gw_gate.specs.Values.{reply_seen};
ghost use Rattle.gw_stream.specs.declared.fault.RunFault.TheVariants.{Memory};
ghost use Rattle.gw_crew.specs.Carries.{BreaksBy, CarriesBy, SentBy, UnsentBy, with_sent};
ghost use Rattle.gw_crew.specs.own.Turns.{Adds, BreaksMessage, Comes, SendsMessage, Waits, out_seen};
ghost use Rattle.gw_crew.specs.Releases.{GaveOut, release_reply, release_reply_seen};
ghost use Rattle.std.specs.Option.{option_map};

use crate::blocks::answered;
use crate::door::{Door, Phase};
use gw_ack::{Ack, control_of};
use gw_er7::Message;
use gw_gate::{Event, Reply};
use gw_mllp::Decoder;
use gw_plan::Translated;
use gw_stream::{Counts, RunFault, Sink, Source, block_of, send_all};
use std::alloc::Global;
use std::sync::Arc;

/// What a gate replies to Release: the number and translation that it gives out, nothing, or that the journal is full.
#[derive(Drop)]
pub enum ReleaseReply {
    Out(u64, Arc<Translated>),
    Nothing,
    Full,
}

// Reads a reply to Release.
fn release_reply(reply: Reply) -> ReleaseReply
    ensures { release_reply_seen result ≡ release_reply (reply_seen reply) }
{
    match reply {
        Reply::Out { n, translated } => ReleaseReply::Out(n, translated),
        Reply::Nothing => ReleaseReply::Nothing,
        _ => ReleaseReply::Full,
    }
}

/// Asks for what is next for a receiver. The one fault is `Memory`.
pub fn release<D: Door>(door: &mut D, receiver: usize) -> Result<ReleaseReply, RunFault>
    ensures gave { IfOk result (λ g. GaveOut receiver (release_reply_seen g) (D.noted door.old) (D.noted door.new)) }
    ensures err { OnErr result (D.noted door.new ≡ D.noted door.old) }
    ensures memory { IfErr result (λ e. e ≡ Memory) }
{
    match door.call(Event::Release(receiver)) {
        Ok(reply) => Ok(release_reply(reply)),
        Err(_) => Err(RunFault::Memory),
    }
}

/// Writes a block, and reads its acknowledgment, which has to name this control id. The number is reported with a fault of the line.
///
/// The faults are those of a courier.
#[tactic(auto, using(crate::proofs::Carrying::line_unsent, crate::proofs::Carrying::answer_unsent))]
pub fn carry<R: Source, W: Sink>(
    alloc: Global,
    decoder: &mut Decoder,
    reader: &mut R,
    writer: &mut W,
    bytes: &[u8],
    control: &[u8],
    n: u64,
) -> Result<Ack, RunFault>
    requires reads { R.has_failed reader.old ≡ false }
    requires writes { W.has_failed writer.old ≡ false }
    ensures sent { IfOk result (SentBy R.Source W.Sink bytes.now control.now
        reader.old reader.new writer.old writer.new decoder.old decoder.new) }
    ensures unsent { IfErr result (UnsentBy R.Source W.Sink n bytes.now control.now
        reader.old reader.new writer.old writer.new decoder.old) }
    ensures reader { OnOk result (R.has_failed reader.new ≡ false) }
    ensures writer { OnOk result (W.has_failed writer.new ≡ false) }
{
    match send_all(writer, bytes) {
        Err(_) => Err(RunFault::Line { n }),
        Ok(()) => answered(alloc, decoder, reader, control, n),
    }
}

// Writes the block of the message of this number, and reads its acknowledgment.
#[tactic(auto, using(crate::proofs::Carrying::memory_unsent))]
fn carry_message<R: Source, W: Sink>(
    alloc: Global,
    decoder: &mut Decoder,
    reader: &mut R,
    writer: &mut W,
    message: &Message,
    n: u64,
) -> Result<Ack, RunFault>
    requires reads { R.has_failed reader.old ≡ false }
    requires writes { W.has_failed writer.old ≡ false }
    ensures sent { IfOk result (SendsMessage R.Source W.Sink message.now
        reader.old reader.new writer.old writer.new decoder.old decoder.new) }
    ensures unsent { IfErr result (BreaksMessage R.Source W.Sink n message.now
        reader.old reader.new writer.old writer.new decoder.old) }
    ensures reader { OnOk result (R.has_failed reader.new ≡ false) }
    ensures writer { OnOk result (W.has_failed writer.new ≡ false) }
{
    match block_of(alloc, message) {
        Err(_) => Err(RunFault::Memory),
        Ok(bytes) => carry(
            alloc,
            decoder,
            reader,
            writer,
            &bytes,
            control_of(message),
            n,
        ),
    }
}

// Counts a block that was sent and acknowledged with this code.
fn count(counts: &mut Counts, ack: Ack)
    requires sent { counts.old.sent + 1 < 2 ^ 64 }
    requires codes { counts.old.aa + counts.old.ae + counts.old.ar ≡ counts.old.sent }
    ensures { counts.new ≡ with_sent ack counts.old }
{
    counts.sent += 1;
    match ack {
        Ack::AA => counts.aa += 1,
        Ack::AE => counts.ae += 1,
        Ack::AR => counts.ar += 1,
    }
}

// Waits for what is next for a receiver, with its number: None where the courier ends.
fn next<D: Door>(door: &mut D, receiver: usize) -> Result<Option<(u64, Arc<Translated>)>, RunFault>
    ensures comes { IfOk result (λ o. Comes receiver (option_map out_seen o) (D.noted door.old) (D.noted door.new)) }
    ensures err { OnErr result (Adds (Waits receiver) (D.noted door.old) (D.noted door.new)) }
    ensures memory { IfErr result (λ e. e ≡ Memory) }
{
    'waits: loop {
        match release(door, receiver)? {
            ReleaseReply::Out(n, translated) => return Ok(Some((n, translated))),
            ReleaseReply::Full => return Ok(None),
            ReleaseReply::Nothing => {}
        }
        // (each turn leaves a note, and no more notes than this can be)
        let _noted = door.notes().len();
        if !door.wait(Phase::NoResults) {
            return Ok(None);
        }
    }
}

/// Writes the block of each translation that is given out for a receiver, and reads its acknowledgment, until there is none;
/// then it waits for results, and goes on.
/// It counts the blocks that it wrote, and the acknowledgments by their codes. Where the gate is full it ends without a fault.
///
/// The faults are `Memory`, `Turns` after 1,000,000 reads for one acknowledgment, and `Line` with the message's number:
/// the writer or the reader failed, the stream ended, or its next block isn't the acknowledgment.
pub fn courier<D: Door, R: Source, W: Sink>(
    alloc: Global,
    door: &mut D,
    receiver: usize,
    reader: &mut R,
    writer: &mut W,
) -> Result<Counts, RunFault>
    requires reads { R.has_failed reader.old ≡ false }
    requires writes { W.has_failed writer.old ≡ false }
    ensures carries { IfOk result (CarriesBy D.Door R.Source W.Sink receiver
        door.old door.new reader.old writer.old writer.new) }
    ensures breaks { IfErr result (BreaksBy D.Door R.Source W.Sink receiver
        door.old door.new reader.old reader.new writer.old writer.new) }
    ensures reader { OnOk result (R.has_failed reader.new ≡ false) }
    ensures writer { OnOk result (W.has_failed writer.new ≡ false) }
{
    let mut decoder = Decoder::new(alloc);
    let mut counts = Counts::none();
    'rounds: loop {
        let Some((n, translated)) = next(door, receiver)? else {
            return Ok(counts);
        };
        // (each round leaves a note, and no more notes than this can be)
        let _noted = door.notes().len();
        let ack = carry_message(alloc, &mut decoder, reader, writer, translated.message(), n)?;
        count(&mut counts, ack);
    }
}
