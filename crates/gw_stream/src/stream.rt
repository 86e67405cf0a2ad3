//! A stream, answered or served block by block.
ghost use Rattle.std.specs.Prelude.{◌≡◌, ◌↔◌, ◌<◌, ◌^◌, length, OnOk, IfErr, IsTrue, IsErrOf, false};
ghost use Rattle.std.specs.Arc.{arc_value};
ghost use Rattle.std.specs.List.{All, list_any};
ghost use Rattle.gw_plan.specs.Held.{plan_value};
ghost use Rattle.gw_stream.specs.Answers.{ValidatedBy};
ghost use Rattle.gw_stream.specs.own.Prepared.{ServesBy, ServesNotBy};
ghost use Rattle.gw_stream.specs.Counted.{IsTotal};
ghost use Rattle.gw_stream.specs.Exchanges.{EndsAnswered};
ghost use Rattle.gw_stream.specs.Posts.{Changes, some_failed};
ghost use Rattle.gw_stream.specs.Reading.{ReadUpTo, ReadsTooOften};
ghost use Rattle.gw_stream.specs.Served.{EndsServed};

use crate::block_reader::BlockReader;
use crate::by_profile::ByProfile;
use crate::counts::Counts;
use crate::exchange::exchange;
use crate::fault::RunFault;
use crate::frame::framed;
use crate::run::answer_blocks;
use crate::send::send_outcome;
use crate::sink::Sink;
use crate::source::{Failed, Source};
use crate::under_plan::UnderPlan;
use gw_ack::Stamp;
use gw_plan::Plan;
use gw_profile::Profile;
use std::alloc::Global;
use std::sync::Arc;

/// Answers each block of a stream by one profile, without routing. At the end of the stream it gives its counts.
/// Answers are gathered and written as `answer_blocks` says.
///
/// The faults are `Memory`, `Read`, `Write`, `Frame(2)` at a block that is too long, `Frame(3)` at the end of the stream within a block,
/// and `Turns` after 1,000,000 reads.
pub fn answer_stream<R: Source, W: Sink>(
    alloc: Global,
    profile: Arc<Profile>,
    stamp: Stamp,
    reader: &mut R,
    writer: &mut W,
) -> Result<Counts, RunFault>
    requires reads { R.has_failed reader.old ≡ false }
    requires writes { W.has_failed writer.old ≡ false }
    ensures ends { EndsAnswered (ValidatedBy profile) stamp (R.remaining reader.old) (W.contents writer.old) (W.contents writer.new) result }
    ensures read { IsErrOf result RunFault.Read ↔ IsTrue (R.has_failed reader.new) }
    ensures write { IsErrOf result RunFault.Write ↔ IsTrue (W.has_failed writer.new) }
    ensures turns { IsErrOf result RunFault.Turns → ReadsTooOften (R.remaining reader.old) (R.reads reader.old) (R.reads reader.new) }
    ensures most { ReadUpTo 1000000 (R.reads reader.old) (R.reads reader.new) }
{
    let mut judge = ByProfile { profile, stamp };
    answer_blocks(alloc, &mut judge, reader, writer)
}

// Serves a content: makes all that it gets, writes that, and counts it.
#[tactic(auto, using(crate::specs::own::Prepared::nothing_sent, crate::proofs::Preparing::serves_cut))]
fn serve_content<A: Sink, W: Sink>(
    alloc: Global,
    judge: &mut UnderPlan,
    counts: &mut Counts,
    content: Vec<u8>,
    answers: &mut A,
    outs: &mut Vec<W>,
) -> Result<(), RunFault>
    requires total { IsTotal counts.old }
    requires room { counts.old.answered < 2 ^ 60 }
    requires answers { A.has_failed answers.old ≡ false }
    requires outs { list_any W.has_failed outs.old.items ≡ false }
    requires one_each { length outs.old.items ≡ length (arc_value judge.old.plan).receivers }
    ensures plan { OnOk result (judge.new.plan ≡ judge.old.plan) }
    ensures stamp { OnOk result (judge.new.stamp ≡ judge.old.stamp) }
    ensures count { length outs.new.items ≡ length outs.old.items }
    ensures ok { OnOk result (Changes A.Sink W.Sink answers.old answers.new outs.old outs.new
        (ServesBy judge.old content.items counts.old counts.new)) }
    ensures err { IfErr result (λ e. Changes A.Sink W.Sink answers.old answers.new outs.old outs.new
        (ServesNotBy judge.old content.items counts.old e)) }
    ensures write { IsErrOf result RunFault.Write ↔ IsTrue (some_failed A.has_failed W.has_failed answers.new outs.new.items) }
{
    let Ok(answer) = exchange(alloc, judge, counts.answered + 1, content) else {
        return Err(RunFault::Memory);
    };
    let Ok(block) = framed(alloc, &answer.content) else {
        return Err(RunFault::Memory);
    };
    match send_outcome(answers, outs, &judge.deliveries, &block) {
        Ok(()) => {
            counts.add(answer.code);
            counts.add_sent(judge.deliveries.len());
            Ok(())
        }
        Err(Failed) => Err(RunFault::Write),
    }
}

/// Serves each block of a stream under a plan, on one thread: it is answered, and where it is accepted,
/// each receiver of its route is sent the translation for it.
/// There is one writer for each receiver of the plan, in the plan's order. Arrivals are numbered from 1. At the end of the stream it gives its counts.
///
/// All that a block gets is made before any byte of it is written. Then the receivers' blocks go out in the order of the route, and then the answer.
///
/// The faults are `Memory`, `Read`, `Write`, `Frame(2)` at a block that is too long, `Frame(3)` at the end of the stream within a block,
/// and `Turns` after 1,000,000 reads.
pub fn serve_once<R: Source, A: Sink, W: Sink>(
    alloc: Global,
    plan: Plan,
    stamp: Stamp,
    reader: &mut R,
    answers: &mut A,
    outs: &mut Vec<W>,
) -> Result<Counts, RunFault>
    requires reads { R.has_failed reader.old ≡ false }
    requires answers { A.has_failed answers.old ≡ false }
    requires outs { All (λ w. W.has_failed w ≡ false) outs.old.items }
    requires one_each { length outs.old.items ≡ length plan.receivers }
    ensures ends { Changes A.Sink W.Sink answers.old answers.new outs.old outs.new
        (EndsServed (plan_value plan) stamp (R.remaining reader.old) result) }
    ensures read { IsErrOf result RunFault.Read ↔ IsTrue (R.has_failed reader.new) }
    ensures write { IsErrOf result RunFault.Write ↔ IsTrue (some_failed A.has_failed W.has_failed answers.new outs.new.items) }
    ensures turns { IsErrOf result RunFault.Turns → ReadsTooOften (R.remaining reader.old) (R.reads reader.old) (R.reads reader.new) }
    ensures most { ReadUpTo 1000000 (R.reads reader.old) (R.reads reader.new) }
    ensures writers { length outs.new.items ≡ length outs.old.items }
{
    let mut blocks = BlockReader::new(alloc);
    let mut counts = Counts::none();
    let Ok(plan) = Arc::new(alloc, plan) else {
        return Err(RunFault::Memory);
    };
    let deliveries = Vec::new(alloc);
    let mut judge = UnderPlan {
        plan,
        stamp,
        deliveries,
    };
    'each: loop {
        match blocks.ready() {
            Some(content) => {
                match serve_content(alloc, &mut judge, &mut counts, content, answers, outs) {
                    Ok(()) => continue,
                    Err(fault) => return Err(fault),
                }
            }
            None => match blocks.fill(reader) {
                Ok(true) => continue,
                Ok(false) => return Ok(counts),
                Err(fault) => return Err(fault),
            },
        }
    }
}
