//! What the head of a file says of the files beside it.
ghost use Rattle.std.specs.Prelude.{IfOk, IsErrOf};
ghost use Rattle.gw_log.specs.File.{OnDamaged};
ghost use Rattle.gw_log.specs.Opening.{BeginsAs};
ghost use Rattle.gw_log.specs.own.Opens.{HasNoHead, Reads};

use crate::disk::Disk;
use crate::fault::LogFault;
use crate::head::read_head;
use crate::reading::record_at;
use std::alloc::Global;

/// What the head of a file says, but for the file's number and the log's.
#[derive(Clone, Copy)]
pub(crate) struct Place {
    pub first: u64,
    pub before: u64,
    pub keep: u64,
}

/// What the head of a file says, which has to be of this log and of the file's own number.
pub(crate) fn head_of<D: Disk>(
    alloc: Global,
    disk: &mut D,
    id: u64,
    number: u64,
) -> Result<Place, LogFault>
    ensures begins { D.honest disk.new → IfOk result (λ p.
        BeginsAs id number p.first p.before p.keep (D.seen disk.old number)) }
    ensures damaged { D.honest disk.new → OnDamaged result (HasNoHead id number (D.seen disk.old number)) }
    ensures reads { Reads D.seen D.may_leave D.moment D.left_since D.honest disk.old disk.new }
    ensures missing { IsErrOf result LogFault.Missing → ⊥ }
{
    let (bytes, _) = record_at(alloc, disk, number, 0)?;
    let misplaced = LogFault::Damaged {
        segment: number,
        at: 0,
    };
    let Some(head) = read_head(&bytes) else {
        return Err(misplaced);
    };
    if head.number != number || head.id != id {
        return Err(misplaced);
    }
    Ok(Place {
        first: head.first,
        before: head.before,
        keep: head.keep,
    })
}
