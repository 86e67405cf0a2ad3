//! Steps on the disk: a batch is added, a gate is opened, the end of a file is repaired.
//!
//! A record counts behind an open gate (1), and in a whole batch: one with a gate of 2 behind it. That gate is the next batch's own.
ghost use Rattle.std.specs.Prelude.{◌≡◌, ◌≢◌, ◌<◌, ◌≤◌, ◌^◌, [], ℕ, take, OnOk, IsErrOf};
ghost use Rattle.gw_log.specs.Disk.{Files, Changes, IsWritten, Torn, Cut, IsGone, After, Follows, Only, LeavesOnly, LeavesOf};
ghost use Rattle.gw_log.specs.own.Steps.{OpensGate, LeavesOpening, AddsBatch, LeavesAdding, BeginsFile, LeavesBeginning, Repairs, LeavesRepairing};

use crate::disk::{Disk, DiskFault};
use crate::reading::End;
use crate::writing::{OPEN, SHUT};

// Writes, and syncs.
fn write_synced<D: Disk>(
    disk: &mut D,
    number: u64,
    at: usize,
    bytes: &[u8],
) -> Result<(), DiskFault>
    ensures written { OnOk result
        (Changes number (IsWritten at bytes.now (D.seen disk.old number)) (D.seen disk.old) (D.seen disk.new)) }
    ensures durable { OnOk result
        ((c : Files) → D.may_leave disk.new c → c number ≡ D.seen disk.new number) }
    ensures crash { Follows number (Torn at bytes.now)
        (D.may_leave disk.old) (D.may_leave disk.new) }
    ensures any_moment { LeavesOnly D.moment D.left_since disk.old disk.new
        (After number (Torn at bytes.now) (D.may_leave disk.old)) }
    ensures back { D.honest disk.new → D.honest disk.old }
    ensures later { D.faults disk.old ≤ D.faults disk.new }
    ensures failed { IsErrOf result DiskFault.Failed → D.faults disk.old < D.faults disk.new }
{
    disk.write_at(number, at, bytes)?;
    disk.sync(number)
}

// Cuts, and syncs.
fn cut_synced<D: Disk>(disk: &mut D, number: u64, len: usize) -> Result<(), DiskFault>
    ensures cut { OnOk result
        (Changes number (λ file. file ≡ take len (D.seen disk.old number)) (D.seen disk.old) (D.seen disk.new)) }
    ensures durable { OnOk result
        ((c : Files) → D.may_leave disk.new c → c number ≡ D.seen disk.new number) }
    ensures crash { Follows number (Cut len) (D.may_leave disk.old) (D.may_leave disk.new) }
    ensures any_moment { LeavesOnly D.moment D.left_since disk.old disk.new
        (After number (Cut len) (D.may_leave disk.old)) }
    ensures back { D.honest disk.new → D.honest disk.old }
    ensures later { D.faults disk.old ≤ D.faults disk.new }
    ensures failed { IsErrOf result DiskFault.Failed → D.faults disk.old < D.faults disk.new }
{
    disk.cut(number, len)?;
    disk.sync(number)
}

/// Opens the gate of the last batch, and syncs.
pub(crate) fn settle<D: Disk>(disk: &mut D, number: u64, end: usize) -> Result<(), DiskFault>
    ensures ok { OpensGate D.seen D.may_leave number end disk.old disk.new result }
    ensures any_moment { LeavesOpening D.seen D.may_leave D.moment D.left_since number end disk.old disk.new }
    ensures others { OnOk result
        ((other : ℕ) → other ≢ number → D.seen disk.new other ≡ D.seen disk.old other) }
    ensures back { D.honest disk.new → D.honest disk.old }
    ensures later { D.faults disk.old ≤ D.faults disk.new }
    ensures failed { IsErrOf result DiskFault.Failed → D.faults disk.old < D.faults disk.new }
{
    write_synced(disk, number, end, &[OPEN])?;
    Ok(())
}

/// Adds a batch behind the last one, whose gate is opened by the same sync. The bytes are those behind the batch's own gate.
pub(crate) fn put<D: Disk>(
    disk: &mut D,
    number: u64,
    end: usize,
    reach: usize,
    bytes: &[u8],
) -> Result<(), DiskFault>
    requires { reach < 2 ^ 60 }
    ensures ok { AddsBatch D.seen D.may_leave number end reach bytes.now disk.old disk.new result }
    ensures any_moment { LeavesAdding D.seen D.may_leave D.moment D.left_since number end reach bytes.now disk.old disk.new }
    ensures others { OnOk result
        ((other : ℕ) → other ≢ number → D.seen disk.new other ≡ D.seen disk.old other) }
    ensures back { D.honest disk.new → D.honest disk.old }
    ensures later { D.faults disk.old ≤ D.faults disk.new }
    ensures failed { IsErrOf result DiskFault.Failed → D.faults disk.old < D.faults disk.new }
{
    disk.write_at(number, reach + 1, bytes)?;
    if end == reach {
        disk.sync(number)?;
        return Ok(());
    }
    write_synced(disk, number, end, &[OPEN])?;
    Ok(())
}

/// Removes a file.
pub(crate) fn remove<D: Disk>(disk: &mut D, number: u64) -> Result<(), DiskFault>
    ensures only { Only (D.seen disk.old) (D.may_leave disk.old) →
        OnOk result (Only (D.seen disk.new) (D.may_leave disk.new)) }
    ensures removed { OnOk result (Changes number (λ file. file ≡ []) (D.seen disk.old) (D.seen disk.new)) }
    ensures any_moment { LeavesOf D.seen D.may_leave D.moment D.left_since disk.old disk.new
        number (IsGone (D.seen disk.old number)) }
    ensures back { D.honest disk.new → D.honest disk.old }
{
    disk.remove(number)?;
    disk.sync(number)?;
    Ok(())
}

/// Begins a file with these records, whose bytes are given but for the first gate. It has no byte yet.
pub(crate) fn begin<D: Disk>(disk: &mut D, number: u64, bytes: &[u8]) -> Result<(), DiskFault>
    ensures ok { BeginsFile D.seen D.may_leave number bytes.now disk.old disk.new result }
    ensures any_moment { LeavesBeginning D.seen D.may_leave D.moment D.left_since number bytes.now disk.old disk.new }
    ensures others { OnOk result
        ((other : ℕ) → other ≢ number → D.seen disk.new other ≡ D.seen disk.old other) }
    ensures back { D.honest disk.new → D.honest disk.old }
    ensures failed { IsErrOf result DiskFault.Failed → D.faults disk.old < D.faults disk.new }
{
    let none = End {
        gate: 0,
        reach: 0,
        size: 0,
    };
    repair(disk, number, none)?;
    put(disk, number, 0, 0, bytes)?;
    Ok(())
}

/// Cuts off what stands behind the records, and opens the last batch's gate, or sets one of 2 behind the records.
pub(crate) fn repair<D: Disk>(disk: &mut D, number: u64, end: End) -> Result<(), DiskFault>
    ensures repaired { Repairs D.seen D.may_leave number end.gate end.reach end.size disk.old disk.new result }
    ensures any_moment { LeavesRepairing D.seen D.may_leave D.moment D.left_since
        number end.gate end.reach end.size disk.old disk.new }
    ensures others { OnOk result
        ((other : ℕ) → other ≢ number → D.seen disk.new other ≡ D.seen disk.old other) }
    ensures back { D.honest disk.new → D.honest disk.old }
    ensures later { D.faults disk.old ≤ D.faults disk.new }
    ensures failed { IsErrOf result DiskFault.Failed → D.faults disk.old < D.faults disk.new }
{
    // The cut has to be on the disk first: behind an open gate, what was there might count.
    cut_synced(disk, number, end.size)?;
    if end.gate == end.reach {
        write_synced(disk, number, end.reach, &[SHUT])?;
        return Ok(());
    }
    write_synced(disk, number, end.gate, &[OPEN])?;
    Ok(())
}
