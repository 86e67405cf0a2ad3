//! The answers to a sender.
ghost use Rattle.std.specs.Prelude.{◌≡◌, ◌↔◌, IsErrOf, IsTrue, false};
ghost use Rattle.gw_stream.specs.Reading.{ReadUpTo, ReadsTooOften};
ghost use Rattle.gw_gateway.specs.Senders.{Answers};
ghost use Rattle.gw_gateway.specs.Waiting.{GoesOn};

use crate::judge::{AtLog, Bells, Times};
use gw_crew::Clock;
use gw_journal::{Naming, Storage};
use gw_stream::{Counts, RunFault, Sink, Source, answer_blocks};
use std::alloc::Global;
use std::sync::Wait;

/// Answers each block of a sender's stream. At the end of the stream it gives its counts.
///
/// A message that the plan in force accepts is answered AA once its record is on the disk. What went out is a beginning of the answers to the first messages,
/// and each record of an AA among them stands in what any crash leaves from then on.
///
/// The faults are those of `answer_blocks`. `Withheld`: the disk failed, so that nothing is known of what was accepted last. It wasn't answered.
pub fn answer_sender<
    J: Naming,
    S: Storage + Drop,
    R: Wait,
    C: Clock + Times + Drop,
    B: Bells,
    I: Source,
    W: Sink,
>(
    alloc: Global,
    judge: &mut AtLog<'_, J, S, R, C, B>,
    reader: &mut I,
    writer: &mut W,
) -> Result<Counts, RunFault>
    requires reads { I.has_failed reader.old ≡ false }
    requires writes { W.has_failed writer.old ≡ false }
    ensures answers { Answers J.before judge.new.waiting.history (I.remaining reader.old)
        (W.contents writer.old) (W.contents writer.new) result }
    ensures on { GoesOn judge.old.waiting judge.new.waiting }
    ensures read { IsErrOf result RunFault.Read ↔ IsTrue (I.has_failed reader.new) }
    ensures write { IsErrOf result RunFault.Write ↔ IsTrue (W.has_failed writer.new) }
    ensures turns { IsErrOf result RunFault.Turns → ReadsTooOften (I.remaining reader.old) (I.reads reader.old) (I.reads reader.new) }
    ensures most { ReadUpTo 1000000 (I.reads reader.old) (I.reads reader.new) }
{
    answer_blocks(alloc, judge, reader, writer)
}
