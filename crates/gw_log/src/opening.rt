//! What is found in a folder when a log is opened, and what a crash left there that has to go.
ghost use Rattle.std.specs.Prelude.{◌≡◌, ◌≢◌, ◌+◌, ◌<◌, ◌≤◌, [], ℕ, IfOk, OnOk, IsErrOf, IsTrue, IsFalse};
ghost use Rattle.gw_log.specs.Chain.{IsNoLog, LeavesLog};
ghost use Rattle.gw_log.specs.Disk.{Only};
ghost use Rattle.gw_log.specs.File.{Has, IsDamagedAt, OnDamaged};
ghost use Rattle.gw_log.specs.Opening.{BeginsAs, BeginsBy, AreLinked, IsSealed};
ghost use Rattle.gw_log.specs.State.{IsStaged, records_of};
ghost use Rattle.gw_log.specs.own.Opens.{Reads, LeavesTrimmed, Finds, IsLastOf, IsTop, IsNoLogOf, IsNoLogUpTo};
ghost use Rattle.gw_log.specs.own.Steps.{UpTo};

use crate::disk::{Disk, DiskFault};
use crate::fault::LogFault;
use crate::place::{Place, head_of};
use crate::reading::{End, read_records};
use crate::segment::read_all;
use crate::steps;
use std::alloc::Global;

/// The last file of a folder: its number, its records, where they end, what its head says, and the least number of a file.
#[derive(Drop)]
pub(crate) struct Found {
    pub number: u64,
    pub records: Vec<Vec<u8>>,
    pub end: End,
    pub place: Place,
    pub least: u64,
    pub top: u64,
}

// The records of a file, and where they end. It stays as it is.
fn read_file<D: Disk>(
    alloc: Global,
    disk: &mut D,
    number: u64,
) -> Result<(Vec<Vec<u8>>, End), LogFault>
    ensures up { D.honest disk.new → IfOk result (λ r.
        UpTo (D.seen disk.old number) r.1.gate r.1.reach r.1.size (records_of r.0.items)) }
    ensures damaged { D.honest disk.new → (segment at : ℕ) → IsErrOf result (LogFault.Damaged segment at) →
        IsDamagedAt at (D.seen disk.old number) }
    ensures reads { Reads D.seen D.may_leave D.moment D.left_since D.honest disk.old disk.new }
    ensures missing { IsErrOf result LogFault.Missing → ⊥ }
{
    let bytes = read_all(alloc, disk, number)?;
    read_records(alloc, number, &bytes)
}

// Whether an empty record ends them.
fn is_sealed(records: &[Vec<u8>]) -> bool
    ensures sealed { IsTrue result → IsSealed (records_of records.now) }
    ensures not { IsFalse result → IsSealed (records_of records.now) → ⊥ }
{
    let size = records.len();
    if size == 0 {
        return false;
    }
    records[size - 1].is_empty()
}

// What the head of the last file says. Each file from the first on has to have the head that follows on the file before it.
fn linked<D: Disk>(
    alloc: Global,
    disk: &mut D,
    id: u64,
    first: u64,
    last: u64,
) -> Result<Place, LogFault>
    requires { first ≤ last }
    ensures begins { D.honest disk.new → IfOk result (λ p.
        BeginsAs id last p.first p.before p.keep (D.seen disk.old last)) }
    ensures linked { D.honest disk.new → OnOk result (AreLinked id (D.seen disk.old) first last) }
    ensures there { D.honest disk.new → IfOk result (λ p.
        BeginsBy id first p.keep (D.seen disk.old first)) }
    ensures damaged { D.honest disk.new → OnDamaged result (IsNoLogOf id first last (D.seen disk.old)) }
    ensures reads { Reads D.seen D.may_leave D.moment D.left_since D.honest disk.old disk.new }
    ensures missing { IsErrOf result LogFault.Missing → ⊥ }
{
    let start = head_of(alloc, disk, id, first)?;
    let mut place = start;
    let mut number = first;
    while number < last {
        let size = disk.size(number)?;
        let next = head_of(alloc, disk, id, number + 1)?;
        if next.before != size as u64 {
            return Err(LogFault::Damaged {
                segment: number,
                at: size,
            });
        }
        place = next;
        number += 1;
    }
    if place.keep < start.first {
        return Err(LogFault::Damaged {
            segment: first.saturating_sub(1),
            at: 0,
        });
    }
    Ok(place)
}

// The last file that was born, of those from the first to the top: its number, its records, and where they end.
fn last_born<D: Disk>(
    alloc: Global,
    disk: &mut D,
    first: u64,
    top: u64,
) -> Result<(u64, Vec<Vec<u8>>, End), LogFault>
    requires { first ≤ top }
    ensures up { D.honest disk.new → IfOk result (λ r.
        UpTo (D.seen disk.old r.0) r.2.gate r.2.reach r.2.size (records_of r.1.items)) }
    ensures last { D.honest disk.new → IfOk result (λ r. IsLastOf first top r.0 (D.seen disk.old)) }
    ensures low { IfOk result (λ r. first ≤ r.0) }
    ensures near { IfOk result (λ r. r.0 ≤ top) }
    ensures next { IfOk result (λ r. top ≤ r.0 + 1) }
    ensures open { IfOk result (λ r. IsSealed (records_of r.1.items) → ⊥) }
    ensures damaged { D.honest disk.new → OnDamaged result (IsNoLogUpTo first top (D.seen disk.old)) }
    ensures reads { Reads D.seen D.may_leave D.moment D.left_since D.honest disk.old disk.new }
    ensures missing { IsErrOf result LogFault.Missing → ⊥ }
{
    let (records, end) = read_file(alloc, disk, top)?;
    if records.len() <= 1 && first < top {
        let (former, former_end) = read_file(alloc, disk, top - 1)?;
        if !is_sealed(&former) {
            return Ok((top - 1, former, former_end));
        }
    }
    if is_sealed(&records) {
        return Err(LogFault::Damaged {
            segment: top.saturating_add(1),
            at: 0,
        });
    }
    Ok((top, records, end))
}

// The last file of a folder. Nothing is changed.
fn find<D: Disk>(alloc: Global, disk: &mut D, id: u64) -> Result<Found, LogFault>
    ensures up { D.honest disk.new → IfOk result (λ f.
        UpTo (D.seen disk.old f.number) f.end.gate f.end.reach f.end.size (records_of f.records.items)) }
    ensures found { D.honest disk.new → IfOk result (λ f.
        Finds id (D.seen disk.old) f.number f.place.first f.place.keep f.least) }
    ensures linked { D.honest disk.new → IfOk result (λ f. AreLinked id (D.seen disk.old) f.least f.number) }
    ensures head { D.honest disk.new → IfOk result (λ f.
        BeginsAs id f.number f.place.first f.place.before f.place.keep (D.seen disk.old f.number)) }
    ensures there { D.honest disk.new → IfOk result (λ f.
        BeginsBy id f.least f.place.keep (D.seen disk.old f.least)) }
    ensures top { D.honest disk.new → IfOk result (λ f. IsTop (D.seen disk.old) f.number f.top) }
    ensures open { IfOk result (λ f. IsSealed (records_of f.records.items) → ⊥) }
    ensures missing { D.honest disk.new → IsErrOf result LogFault.Missing → (n : ℕ) → D.seen disk.old n ≡ [] }
    ensures damaged { D.honest disk.new → OnDamaged result (IsNoLog id (D.seen disk.old)) }
    ensures reads { Reads D.seen D.may_leave D.moment D.left_since D.honest disk.old disk.new }
{
    let (least, top) = disk.ends()?;
    if top < least {
        return Err(LogFault::Missing);
    }
    let (number, records, end) = last_born(alloc, disk, least, top)?;
    let place = linked(alloc, disk, id, least, number)?;
    Ok(Found {
        number,
        records,
        end,
        place,
        least,
        top,
    })
}

// Removes the top file, unless it is the last.
fn trim<D: Disk>(disk: &mut D, last: u64, top: u64) -> Result<(), DiskFault>
    ensures only { Only (D.seen disk.old) (D.may_leave disk.old) →
        OnOk result (Only (D.seen disk.new) (D.may_leave disk.new)) }
    ensures others { OnOk result ((m : ℕ) → m ≢ top → D.seen disk.new m ≡ D.seen disk.old m) }
    ensures gone { OnOk result (top ≢ last → D.seen disk.new top ≡ []) }
    ensures kept { OnOk result (top ≡ last → D.seen disk.new top ≡ D.seen disk.old top) }
    ensures any_moment { LeavesTrimmed D.seen D.may_leave D.moment D.left_since last top disk.old disk.new }
    ensures back { D.honest disk.new → D.honest disk.old }
{
    if top == last {
        return Ok(());
    }
    steps::remove(disk, top)
}

/// The last file of a folder, which is as it was before a crash tore its end.
pub(crate) fn open_folder<D: Disk>(alloc: Global, disk: &mut D, id: u64) -> Result<Found, LogFault>
    requires { Only (D.seen disk.old) (D.may_leave disk.old) }
    ensures has { D.honest disk.new → IfOk result (λ f.
        Has (records_of f.records.items) (D.seen disk.old f.number)) }
    ensures staged { D.honest disk.new → IfOk result (λ f.
        IsStaged D.seen D.may_leave 2 disk.new f.number f.end.reach f.end.reach (records_of f.records.items) []) }
    ensures found { D.honest disk.new → IfOk result (λ f.
        Finds id (D.seen disk.old) f.number f.place.first f.place.keep f.least) }
    ensures below { D.honest disk.new → IfOk result (λ f.
        (m : ℕ) → m < f.number → D.seen disk.new m ≡ D.seen disk.old m) }
    ensures above { D.honest disk.new → IfOk result (λ f. (m : ℕ) → f.number < m → D.seen disk.new m ≡ []) }
    ensures linked { D.honest disk.new → IfOk result (λ f. AreLinked id (D.seen disk.old) f.least f.number) }
    ensures head { D.honest disk.new → IfOk result (λ f.
        BeginsAs id f.number f.place.first f.place.before f.place.keep (D.seen disk.old f.number)) }
    ensures there { D.honest disk.new → IfOk result (λ f.
        BeginsBy id f.least f.place.keep (D.seen disk.old f.least)) }
    ensures behind { D.honest disk.new → IfOk result (λ f. IsTop (D.seen disk.old) f.number f.top) }
    ensures open { IfOk result (λ f. IsSealed (records_of f.records.items) → ⊥) }
    ensures any_moment { D.honest disk.new → LeavesLog D.seen D.moment D.left_since id disk.old disk.new }
    ensures damaged { D.honest disk.new → OnDamaged result (IsNoLog id (D.seen disk.old)) }
    ensures untouched { OnDamaged result (Only (D.seen disk.old) (D.may_leave disk.new)) }
    ensures missing { D.honest disk.new → IsErrOf result LogFault.Missing → (n : ℕ) → D.seen disk.old n ≡ [] }
    ensures back { D.honest disk.new → D.honest disk.old }
{
    let found = find(alloc, disk, id)?;
    trim(disk, found.number, found.top)?;
    steps::repair(disk, found.number, found.end)?;
    Ok(found)
}
