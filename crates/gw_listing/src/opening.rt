//! How a log is opened whose number isn't known.
ghost use Rattle.std.specs.Prelude.{◌≡◌, [], List, ℕ, IfOk};
ghost use Rattle.gw_log.specs.Chain.{Head, Origin, IsLog};
ghost use Rattle.gw_log.specs.Disk.{AreEnds, Only};
ghost use Rattle.gw_listing.specs.Walks.{AreAllListed, IsListed};

use crate::fault::ListFault;
use crate::walk::{Walk, begin_file, damaged};
use gw_log::{Disk, Log, LogFault, find_id, read_head};
use std::alloc::Global;

// The first file of a folder, and the number of the log that its head names. Nothing is changed.
fn look<D: Disk>(alloc: Global, disk: &mut D) -> Result<(u64, u64), LogFault>
    ensures only { Only (D.seen disk.old) (D.may_leave disk.old) → Only (D.seen disk.new) (D.may_leave disk.new) }
    ensures first { D.honest disk.new → IfOk result (λ r. (last : ℕ) × AreEnds r.0 last (D.seen disk.old)) }
    ensures seen { D.seen disk.new ≡ D.seen disk.old }
    ensures back { D.honest disk.new → D.honest disk.old }
{
    let (first, last) = disk.ends()?;
    if last < first {
        return Err(LogFault::Missing);
    }
    match find_id(alloc, disk)? {
        Some(id) => Ok((first, id)),
        None => Err(LogFault::Missing),
    }
}

// The log of a folder, before its first record.
fn open_found<D: Disk>(alloc: Global, disk: D) -> Result<Walk<D>, (LogFault, D)>
    // After a restart, what is read is what is on the disk.
    requires { Only (D.seen disk) (D.may_leave disk) }
    // Nothing was given yet.
    ensures listed { IfOk result (λ w. D.honest w.reader.disk → IsListed D.seen w []) }
    // What the folder is a log of, its files have up to the last.
    ensures log { IfOk result (λ w. D.honest w.reader.disk → (from : Origin) (head : Head) (records : List (List ℕ)) →
        IsLog w.id (D.seen disk) from head records → (w.first ≡ from.number) × AreAllListed (D.seen w.reader.disk) w.first w.last records) }
    ensures back { IfOk result (λ w. D.honest w.reader.disk → D.honest disk) }
{
    let mut disk = disk;
    let (first, id) = match look(alloc, &mut disk) {
        Ok(found) => found,
        Err(fault) => return Err((fault, disk)),
    };
    let (log, _) = Log::open(alloc, disk, id)?;
    let last = log.number();
    let walk = Walk::over(alloc, log.into_disk(), id, first, last)?;
    Ok(walk)
}

// The number of the log that the head of a file names, which is as it was written.
fn log_of<D: Disk>(alloc: Global, disk: D, number: u64) -> Result<(u64, D), (LogFault, D)> {
    let (reader, head, _) = begin_file(alloc, disk, number)?;
    match read_head(&head) {
        Some(head) => Ok((head.id, reader.into_disk())),
        None => Err((damaged(number), reader.into_disk())),
    }
}

// Whether a file and the next one are of different logs.
fn are_apart<D: Disk>(alloc: Global, disk: D, number: u64) -> Result<(bool, D), (LogFault, D)> {
    let (this, disk) = log_of(alloc, disk, number)?;
    let (next, disk) = log_of(alloc, disk, number.saturating_add(1))?;
    Ok((this != next, disk))
}

// The fault of files of which this one isn't in its place: the first of them that has no head, or is of another log than the one before it.
fn misplaced<D: Disk>(alloc: Global, disk: D, first: u64, segment: u64) -> (ListFault, D) {
    let mut disk = disk;
    for number in first..segment {
        let (is_apart, back) = match are_apart(alloc, disk, number) {
            Ok(found) => found,
            Err((fault, disk)) => return (ListFault::Log(fault), disk),
        };
        if is_apart {
            return (ListFault::Mixed { segment: number }, back);
        }
        disk = back;
    }
    (ListFault::Log(damaged(segment)), disk)
}

// Whether a file may be the last one: behind it stands none, or one that a crash may have left unborn.
fn may_be_last<D: Disk>(
    alloc: Global,
    disk: D,
    number: u64,
    top: u64,
) -> Result<(bool, D), (LogFault, D)> {
    if top <= number {
        return Ok((true, disk));
    }
    if top - number > 1 {
        return Ok((false, disk));
    }
    match begin_file(alloc, disk, top) {
        Ok((reader, _, upto)) => Ok((upto <= reader.place(), reader.into_disk())),
        Err((LogFault::Damaged { .. }, disk)) => Ok((true, disk)),
        Err(failed) => Err(failed),
    }
}

// What is said of a log that isn't opened.
fn explained<D: Disk>(alloc: Global, disk: D, fault: LogFault) -> (ListFault, D) {
    let LogFault::Damaged { segment, at } = fault else {
        return (ListFault::Log(fault), disk);
    };
    let mut disk = disk;
    let (first, top) = match disk.ends() {
        Ok(ends) => ends,
        Err(fault) => return (ListFault::Log(LogFault::from(fault)), disk),
    };
    let (is_last, disk) = match may_be_last(alloc, disk, segment, top) {
        Ok(found) => found,
        Err((fault, disk)) => return (ListFault::Log(fault), disk),
    };
    if at == 0 {
        let (found, disk) = misplaced(alloc, disk, first, segment);
        return (found.of_last(is_last), disk);
    }
    (ListFault::Log(fault).of_last(is_last), disk)
}

/// The log of a folder, before its first record. A torn end is cut off, as `Log::open` does.
pub fn open_log<D: Disk>(alloc: Global, disk: D) -> Result<Walk<D>, (ListFault, D)>
    // After a restart, what is read is what is on the disk.
    requires { Only (D.seen disk) (D.may_leave disk) }
    // Nothing was given yet.
    ensures listed { IfOk result (λ w. D.honest w.reader.disk → IsListed D.seen w []) }
    // What the folder is a log of, its files have up to the last.
    ensures log { IfOk result (λ w. D.honest w.reader.disk → (from : Origin) (head : Head) (records : List (List ℕ)) →
        IsLog w.id (D.seen disk) from head records → (w.first ≡ from.number) × AreAllListed (D.seen w.reader.disk) w.first w.last records) }
    ensures back { IfOk result (λ w. D.honest w.reader.disk → D.honest disk) }
{
    match open_found(alloc, disk) {
        Ok(walk) => Ok(walk),
        Err((fault, disk)) => Err(explained(alloc, disk, fault)),
    }
}
