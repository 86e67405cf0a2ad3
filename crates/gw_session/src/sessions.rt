//! A session: the blocks of a stream, one by one.
ghost use Rattle.std.specs.Prelude.{◌≡◌, ◌↔◌, IsTrue, IsErrOf, false};
ghost use Rattle.gw_stream.specs.Reading.{ReadUpTo, ReadsTooOften};
ghost use Rattle.gw_session.specs.Sessions.{IsSession};

use crate::at_door::AtDoor;
use gw_crew::{Clock, Door};
use gw_stream::{Counts, RunFault, Sink, Source, answer_blocks};
use std::alloc::Global;

// Answers each block of a stream as the judge at a door settles it.
fn answer_all<D: Door, C: Clock, R: Source, W: Sink>(
    alloc: Global,
    judge: &mut AtDoor<'_, D, C>,
    reader: &mut R,
    writer: &mut W,
) -> Result<Counts, RunFault>
    requires reads { R.has_failed reader.old ≡ false }
    requires writes { W.has_failed writer.old ≡ false }
    ensures door { judge.new.door.ghost_name ≡ judge.old.door.ghost_name }
    ensures ends { IsSession D.Door C.Clock R.Source W.Sink judge.old.door.now judge.new.door.now judge.old.clock.now
        reader.old writer.old writer.new result }
    ensures read { IsErrOf result RunFault.Read ↔ IsTrue (R.has_failed reader.new) }
    ensures write { IsErrOf result RunFault.Write ↔ IsTrue (W.has_failed writer.new) }
    ensures turns { IsErrOf result RunFault.Turns → ReadsTooOften (R.remaining reader.old) (R.reads reader.old) (R.reads reader.new) }
    ensures most { ReadUpTo 1000000 (R.reads reader.old) (R.reads reader.new) }
{
    answer_blocks(alloc, judge, reader, writer)
}

/// Answers each block of a stream, as the gate behind the door settles it. At the end of the stream it gives its counts.
///
/// For each block it reads the content, looks up the plan in force, and has the message arrive under it. Where the plan was swapped in between,
/// it looks and has it arrive again, four times in all, and then refuses it (207). What is refused is noted under the code of its answer's ERR-3.
/// A content that can't be read is refused at once (207). The answer has the number of the arrival. Where the journal is full, it is AR (207) under number 0.
///
/// Answers are gathered, and written before the next read and before each fault.
///
/// The faults are `Memory`, `Read`, `Write`, `Frame(2)` at a block that is too long, `Frame(3)` at the end of the stream within a block,
/// and `Turns` after 1,000,000 reads. What was accepted stays so.
pub fn session<D: Door, C: Clock, R: Source, W: Sink>(
    alloc: Global,
    door: &mut D,
    clock: &mut C,
    reader: &mut R,
    writer: &mut W,
) -> Result<Counts, RunFault>
    requires reads { R.has_failed reader.old ≡ false }
    requires writes { W.has_failed writer.old ≡ false }
    ensures ends { IsSession D.Door C.Clock R.Source W.Sink door.old door.new clock.old
        reader.old writer.old writer.new result }
    ensures read { IsErrOf result RunFault.Read ↔ IsTrue (R.has_failed reader.new) }
    ensures write { IsErrOf result RunFault.Write ↔ IsTrue (W.has_failed writer.new) }
    ensures turns { IsErrOf result RunFault.Turns → ReadsTooOften (R.remaining reader.old) (R.reads reader.old) (R.reads reader.new) }
    ensures most { ReadUpTo 1000000 (R.reads reader.old) (R.reads reader.new) }
{
    let mut judge = AtDoor { door, clock };
    answer_all(alloc, &mut judge, reader, writer)
}
