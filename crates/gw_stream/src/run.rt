//! A stream, settled block by block by a judge.
ghost use Rattle.std.specs.Prelude.{◌≡◌, ◌↔◌, ◌+◌, ◌<◌, ◌^◌, ◌∷◌, [], OnOk, OnErr, IsTrue, IsErrOf, false};
ghost use Rattle.gw_stream.specs.Counted.{IsTotal};
ghost use Rattle.gw_stream.specs.Exchanges.{Begins, EndsExchanged};
ghost use Rattle.gw_stream.specs.Reading.{ReadUpTo, ReadsTooOften};
ghost use Rattle.gw_stream.specs.own.Gathered.{Gathers, SentAtLast};

use crate::block_reader::BlockReader;
use crate::counts::Counts;
use crate::exchange::exchange;
use crate::fault::RunFault;
use crate::judge::Judge;
use crate::send::send_all;
use crate::sink::Sink;
use crate::source::{Failed, Source};
use gw_mllp::write_block;
use std::alloc::{AllocError, Global};

// Answers a content, adds the answer's block to those that were gathered, and counts it.
fn gather<J: Judge>(
    alloc: Global,
    judge: &mut J,
    counts: &mut Counts,
    gathered: &mut Vec<u8>,
    content: Vec<u8>,
) -> Result<(), AllocError>
    requires total { IsTotal counts.old }
    requires room { counts.old.answered < 2 ^ 60 }
    ensures ok { OnOk result (Gathers J.settles judge.old judge.new content.items gathered.old.items gathered.new.items counts.old counts.new) }
    ensures begun { OnErr result (Begins J.settles J.breaks (counts.old.answered + 1) judge.old (content.items ∷ []) judge.new) }
    ensures same { OnErr result (gathered.new.items ≡ gathered.old.items) }
{
    let answer = exchange(alloc, judge, counts.answered + 1, content)?;
    write_block(gathered, &answer.content)?;
    counts.add(answer.code);
    Ok(())
}

// Writes what was gathered when an allocation failed, and gives the fault that ends the run.
#[tactic(auto, using(crate::proofs::Gathering::sent_so, crate::proofs::Gathering::cut_so, crate::proofs::Gathering::held_so))]
fn send_last<J: Judge, W: Sink>(judge: &mut J, writer: &mut W, gathered: &[u8]) -> RunFault
    requires works { W.has_failed writer.old ≡ false }
    ensures { SentAtLast J.secures J.withholds judge.old judge.new (W.contents writer.old) (W.contents writer.new) gathered.now (W.has_failed writer.new) result }
{
    let Ok(()) = judge.secure() else {
        return RunFault::Withheld;
    };
    match send_all(writer, gathered) {
        Ok(()) => RunFault::Memory,
        Err(Failed) => RunFault::Write,
    }
}

/// Answers each block of a stream as the judge settles it. At the end of the stream it gives its counts.
///
/// No answer goes out before the judge has secured what it settled up to it: what was written is a beginning of the answers to what was secured.
///
/// Answers are gathered, and written before the next read and before each fault. So a sender gets one write for what one read brought,
/// and no answer waits for input.
///
/// The faults are `Memory`, `Read`, `Write`, `Frame(2)` at a block that is too long, `Frame(3)` at the end of the stream within a block,
/// `Turns` after 1,000,000 reads, and `Withheld` where the judge can't secure what it settled.
pub fn answer_blocks<J: Judge, R: Source, W: Sink>(
    alloc: Global,
    judge: &mut J,
    reader: &mut R,
    writer: &mut W,
) -> Result<Counts, RunFault>
    requires reads { R.has_failed reader.old ≡ false }
    requires writes { W.has_failed writer.old ≡ false }
    ensures ends { EndsExchanged J.settles J.secures J.breaks J.withholds
        (R.remaining reader.old) judge.old judge.new (W.contents writer.old) (W.contents writer.new) result }
    ensures read { IsErrOf result RunFault.Read ↔ IsTrue (R.has_failed reader.new) }
    ensures write { IsErrOf result RunFault.Write ↔ IsTrue (W.has_failed writer.new) }
    ensures withheld { IsErrOf result RunFault.Withheld → (mid : J) × J.withholds mid judge.new }
    ensures turns { IsErrOf result RunFault.Turns → ReadsTooOften (R.remaining reader.old) (R.reads reader.old) (R.reads reader.new) }
    ensures most { ReadUpTo 1000000 (R.reads reader.old) (R.reads reader.new) }
{
    let mut blocks = BlockReader::new(alloc);
    let mut counts = Counts::none();
    let mut gathered = Vec::new(alloc);
    'each: loop {
        match blocks.ready() {
            Some(content) => match gather(alloc, judge, &mut counts, &mut gathered, content) {
                Ok(()) => continue,
                Err(_) => return Err(send_last(judge, writer, &gathered)),
            },
            None => {
                let Ok(()) = judge.secure() else {
                    return Err(RunFault::Withheld);
                };
                let Ok(()) = send_all(writer, &gathered) else {
                    return Err(RunFault::Write);
                };
                gathered.clear();
                match blocks.fill(reader) {
                    Ok(true) => continue,
                    Ok(false) => return Ok(counts),
                    Err(fault) => return Err(fault),
                }
            }
        }
    }
}
