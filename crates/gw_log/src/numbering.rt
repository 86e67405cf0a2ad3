//! The number of the log that a folder is.
ghost use Rattle.std.specs.Prelude.{◌≡◌, [], ℕ, IfOk, IfSome, IfNone, IsErrOf};
ghost use Rattle.gw_log.specs.Chain.{IsNoLog};
ghost use Rattle.gw_log.specs.Disk.{LeavesOnly, Only};
ghost use Rattle.gw_log.specs.File.{OnDamaged};
ghost use Rattle.gw_log.specs.Opening.{IsOnlyOf};
ghost use Rattle.gw_log.specs.own.Opens.{HasNoHead, IsHeadedBy, Reads};

use crate::disk::Disk;
use crate::fault::LogFault;
use crate::head::read_head;
use crate::reading::record_at;
use std::alloc::Global;

// The number of the log that a file is of, by its head.
fn id_in<D: Disk>(alloc: Global, disk: &mut D, number: u64) -> Result<u64, LogFault>
    ensures id { D.honest disk.new → IfOk result (λ id. IsHeadedBy id (D.seen disk.old number)) }
    ensures damaged { D.honest disk.new →
        OnDamaged result ((id n : ℕ) → HasNoHead id n (D.seen disk.old number)) }
    ensures reads { Reads D.seen D.may_leave D.moment D.left_since D.honest disk.old disk.new }
    ensures missing { IsErrOf result LogFault.Missing → ⊥ }
{
    let (bytes, _) = record_at(alloc, disk, number, 0)?;
    match read_head(&bytes) {
        Some(head) => Ok(head.id),
        None => Err(LogFault::Damaged {
            segment: number,
            at: 0,
        }),
    }
}

/// The number of the log that the folder is, by the head of its first file. `None`: no file has a byte.
///
/// The folder stays as it was.
pub fn find_id<D: Disk>(alloc: Global, disk: &mut D) -> Result<Option<u64>, LogFault>
    ensures id { D.honest disk.new → IfOk result (λ found. IfSome found (λ id.
        IsOnlyOf id (D.seen disk.old))) }
    ensures some { D.honest disk.new → IfOk result (λ found. IfSome found (λ id.
        ((n : ℕ) → D.seen disk.old n ≡ []) → ⊥)) }
    ensures none { D.honest disk.new → IfOk result (λ found. IfNone found
        ((n : ℕ) → D.seen disk.old n ≡ [])) }
    ensures damaged { D.honest disk.new → OnDamaged result ((id : ℕ) → IsNoLog id (D.seen disk.old)) }
    ensures missing { IsErrOf result LogFault.Missing → ⊥ }
    ensures seen { D.seen disk.new ≡ D.seen disk.old }
    ensures durable { Only (D.seen disk.old) (D.may_leave disk.old) →
        Only (D.seen disk.new) (D.may_leave disk.new) }
    ensures any_moment { LeavesOnly D.moment D.left_since disk.old disk.new (D.may_leave disk.old) }
    ensures back { D.honest disk.new → D.honest disk.old }
{
    let (first, last) = disk.ends()?;
    if last < first {
        return Ok(None);
    }
    let id = id_in(alloc, disk, first)?;
    Ok(Some(id))
}
