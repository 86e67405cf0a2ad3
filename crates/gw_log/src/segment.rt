//! A segment of a log: the records of one file.
ghost use Rattle.std.specs.Prelude.{◌≡◌, ◌<◌, ◌≤◌, ◌≢◌, [], ℕ, length, drop, IfOk, IsErrOf, OnOk};
ghost use Rattle.gw_log.specs.Disk.{Only, LeavesOnly, LeavesOf};
ghost use Rattle.gw_log.specs.File.{Has, KeepsRecords, IsDamagedAt};
ghost use Rattle.gw_log.specs.State.{IsStaged, records_of};
ghost use Rattle.gw_log.specs.own.Opens.{Reads};

use crate::disk::{Disk, DiskFault};
use crate::fault::LogFault;
use crate::place::{Place, head_of};
use crate::reading::{End, read_records};
use crate::steps;
use crate::writing::{END, SHUT, spell};
use std::alloc::Global;
use std::marker::Model;

/// The most bytes of a file, without the gate at its end.
const MOST: usize = 1 << 60;

/// The records of one file of a disk. They lie on the disk alone.
#[derive(Drop)]
pub struct Segment<D: Disk> {
    alloc: Global,
    disk: D,
    number: u64,
    end: usize,
    reach: usize,
    broken: bool,
}

impl<D: Disk> Model for Segment<D> {
    ghost use Rattle.gw_log.specs.State.{SegmentState};

    ghost Value = { SegmentState D };

    ghost view = { λ s. record { disk = s.disk; number = s.number; end = s.end; reach = s.reach; broken = s.broken } };
}

/// All the bytes of a file, which stays as it is.
pub(crate) fn read_all<D: Disk>(
    alloc: Global,
    disk: &mut D,
    number: u64,
) -> Result<Vec<u8>, DiskFault>
    ensures reads { Reads D.seen D.may_leave D.moment D.left_since D.honest disk.old disk.new }
    ensures bytes { D.honest disk.new → IfOk result (λ bytes. bytes.items ≡ D.seen disk.old number) }
    ensures seen { D.seen disk.new ≡ D.seen disk.old }
    ensures durable { Only (D.seen disk.old) (D.may_leave disk.old) →
        Only (D.seen disk.old) (D.may_leave disk.new) }
    ensures any_moment { LeavesOf D.seen D.may_leave D.moment D.left_since disk.old disk.new
        number (λ file. file ≡ D.seen disk.old number) }
    ensures back { D.honest disk.new → D.honest disk.old }
    ensures later { D.faults disk.old ≤ D.faults disk.new }
    ensures failed { IsErrOf result DiskFault.Failed → D.faults disk.old < D.faults disk.new }
{
    let size = disk.size(number)?;
    disk.read(alloc, number, 0, size)
}

// What stands behind the first gate.
fn behind_gate(bytes: &[u8]) -> &[u8]
    requires { 1 ≤ length bytes.now }
    ensures { result.now ≡ drop 1 bytes.now }
{
    let (_gate, tail) = bytes.split_at(1);
    tail
}

// The records of a file, and where they end. What stands behind them is cut off.
fn open_file<D: Disk>(
    alloc: Global,
    disk: &mut D,
    number: u64,
) -> Result<(Vec<Vec<u8>>, End), LogFault>
    requires { Only (D.seen disk.old) (D.may_leave disk.old) }
    ensures has { D.honest disk.new → IfOk result (λ r. Has (records_of r.0.items) (D.seen disk.old number)) }
    ensures staged { D.honest disk.new → IfOk result (λ r.
        IsStaged D.seen D.may_leave 2 disk.new number r.1.reach r.1.reach (records_of r.0.items) []) }
    ensures any_moment { D.honest disk.new → LeavesOnly D.moment D.left_since disk.old disk.new
        (KeepsRecords number (D.seen disk.old)) }
    ensures others { D.honest disk.new → OnOk result
        ((other : ℕ) → other ≢ number → D.seen disk.new other ≡ D.seen disk.old other) }
    ensures damaged { D.honest disk.new → (segment at : ℕ) →
        IsErrOf result (LogFault.Damaged segment at) → IsDamagedAt at (D.seen disk.old number) }
    ensures untouched { (segment at : ℕ) → IsErrOf result (LogFault.Damaged segment at) →
        Only (D.seen disk.old) (D.may_leave disk.new) }
    ensures back { D.honest disk.new → D.honest disk.old }
    ensures failed { IsErrOf result LogFault.Device → D.faults disk.old < D.faults disk.new }
{
    let bytes = read_all(alloc, disk, number)?;
    let (records, end) = read_records(alloc, number, &bytes)?;
    steps::repair(disk, number, end)?;
    Ok((records, end))
}

impl<D: Disk> Segment<D> {
    ghost use Rattle.std.specs.Prelude.{◌≡◌, ◌≢◌, ◌⊎◌, ◌+◌, ◌<◌, ◌≤◌, ◌^◌, ◌∷◌, [], true, false, ℕ};
    ghost use Rattle.std.specs.Prelude.{IfOk, IfErr, IsErrOf, OnOk, OnErr};
    ghost use Rattle.gw_log.specs.Disk.{Changes, LeavesOnly, Only};
    ghost use Rattle.gw_log.specs.File.{Has, AreInLimit, KeepsRecords, IsDamagedAt};
    ghost use Rattle.gw_log.specs.State.{Stands, Secures, LeavesFile, records_of};
    ghost use Rattle.gw_log.specs.own.Turns.{IfAlone, LeavesTurn, Ends, Turned};
    ghost use Rattle.gw_log.specs.Opening.{BeginsAs};
    ghost use Rattle.gw_log.specs.own.Opens.{Reads};
    ghost use Rattle.gw_log.specs.own.Steps.{LeavesBegun, Spares, LeavesRemoved};

    /// The records of a file, of a disk that a crash may have left. It may crash too. After `Damaged` the file is as it was.
    pub fn open(
        alloc: Global,
        disk: D,
        number: u64,
    ) -> Result<(Segment<D>, Vec<Vec<u8>>), (LogFault, D)>
        // After a restart, what is read is what is on the disk.
        requires { Only (D.seen disk) (D.may_leave disk) }
        ensures has { IfOk result (λ r.
            D.honest r.0.disk → Has (records_of r.1.items) (D.seen disk number)) }
        ensures stands { IfOk result (λ r.
            D.honest r.0.disk → Stands D.seen D.may_leave r.0 (records_of r.1.items)) }
        ensures number { IfOk result (λ r. r.0.number ≡ number) }
        ensures any_moment { IfOk result (λ r. D.honest r.0.disk →
            LeavesOnly D.moment D.left_since disk r.0.disk
            (KeepsRecords number (D.seen disk))) }
        ensures any_moment_err { IfErr result (λ e. D.honest e.1 →
            LeavesOnly D.moment D.left_since disk e.1
            (KeepsRecords number (D.seen disk))) }
        ensures damaged { IfErr result (λ e. D.honest e.1 → (segment at : ℕ) →
            e.0 ≡ LogFault.Damaged segment at → IsDamagedAt at (D.seen disk number)) }
        ensures untouched { IfErr result (λ e. (segment at : ℕ) →
            e.0 ≡ LogFault.Damaged segment at → Only (D.seen disk) (D.may_leave e.1)) }
    {
        let mut disk = disk;
        match open_file(alloc, &mut disk, number) {
            Ok((records, end)) => Ok((
                Segment {
                    alloc,
                    disk,
                    number,
                    end: end.reach,
                    reach: end.reach,
                    broken: false,
                },
                records,
            )),
            Err(fault) => Err((fault, disk)),
        }
    }

    /// The segment over a file whose records end here.
    pub(crate) fn over(alloc: Global, disk: D, number: u64, end: usize) -> Segment<D>
        ensures { result ≡ record { disk = disk; number = number; end = end; reach = end; broken = false } }
    {
        Segment {
            alloc,
            disk,
            number,
            end,
            reach: end,
            broken: false,
        }
    }

    /// Begins the file of a number, which has no byte yet, with these records. They count.
    pub(crate) fn create(
        alloc: Global,
        disk: D,
        number: u64,
        records: &[Vec<u8>],
    ) -> Result<Segment<D>, (LogFault, D)>
        requires { Only (D.seen disk) (D.may_leave disk) }
        ensures stands { IfOk result (λ s. D.seen disk number ≡ [] →
            Stands D.seen D.may_leave s (records_of records.now)) }
        ensures number { IfOk result (λ s. s.number ≡ number) }
        ensures any_moment { IfOk result (λ s.
            LeavesBegun D.seen D.moment D.left_since number (records_of records.now) disk s.disk) }
        ensures others { IfOk result (λ s. (other : ℕ) → other ≢ number → D.seen s.disk other ≡ D.seen disk other) }
        ensures taken { IfErr result (λ e. e.0 ≡ LogFault.Taken → ⊥) }
        ensures back { IfOk result (λ s. D.honest s.disk → D.honest disk) }
        ensures back_err { IfErr result (λ e. D.honest e.1 → D.honest disk) }
    {
        let mut disk = disk;
        let bytes = match spell(alloc, records, SHUT) {
            Ok(bytes) => bytes,
            Err(fault) => return Err((fault, disk)),
        };
        let tail = behind_gate(&bytes);
        match steps::begin(&mut disk, number, tail) {
            Err(fault) => Err((LogFault::from(fault), disk)),
            Ok(()) => Ok(Segment {
                alloc,
                disk,
                number,
                end: 0,
                reach: tail.len(),
                broken: false,
            }),
        }
    }

    // Begins the file of the next number with these records, and ends this one. The end counts once its gate is open.
    fn turn(&mut self, next: &[Vec<u8>], end: &[Vec<u8>]) -> Result<usize, LogFault>
        requires room { self.old.number < 2 ^ 63 }
        requires size { self.old.reach < 2 ^ 60 }
        requires end { records_of end.now ≡ [] ∷ [] }
        ensures ok { Turned D.seen D.may_leave self.old self.new (records_of next.now) result }
        ensures any_moment { LeavesTurn D.seen D.may_leave D.moment D.left_since
            self.old self.new (records_of next.now) }
        ensures kept { self.new ≡ record self.old { disk = self.new.disk } }
        ensures full { IsErrOf result LogFault.Full → ⊥ }
        ensures long { IsErrOf result LogFault.TooLong → AreInLimit (records_of next.now) → ⊥ }
        ensures back { D.honest self.new.disk → D.honest self.old.disk }
    {
        let bytes = spell(self.alloc, next, SHUT)?;
        let ending = spell(self.alloc, end, END)?;
        let tail = behind_gate(&bytes);
        steps::begin(&mut self.disk, self.number + 1, tail)?;
        steps::put(
            &mut self.disk,
            self.number,
            self.end,
            self.reach,
            behind_gate(&ending),
        )?;
        steps::settle(&mut self.disk, self.number, self.reach)?;
        Ok(tail.len())
    }

    /// Begins the file of the next number, which has no byte yet, with these records, ends its own, and goes on to it.
    pub(crate) fn follow(&mut self, next: &[Vec<u8>], end: &[Vec<u8>]) -> Result<(), LogFault>
        requires room { self.old.number < 2 ^ 63 }
        requires size { self.old.reach < 2 ^ 60 }
        requires end { records_of end.now ≡ [] ∷ [] }
        ensures stands { IfAlone D.seen D.may_leave self.old (λ these.
            OnOk result (Stands D.seen D.may_leave self.new (records_of next.now))) }
        ensures ended { Ends D.seen D.may_leave self.old self.new result }
        ensures number { OnOk result (self.new.number ≡ self.old.number + 1) }
        ensures any_moment { LeavesTurn D.seen D.may_leave D.moment D.left_since
            self.old self.new (records_of next.now) }
        ensures full { IsErrOf result LogFault.Full → ⊥ }
        ensures long { IsErrOf result LogFault.TooLong → AreInLimit (records_of next.now) → ⊥ }
        ensures back { D.honest self.new.disk → D.honest self.old.disk }
    {
        let size = self.turn(next, end)?;
        self.number += 1;
        self.end = 0;
        self.reach = size;
        Ok(())
    }

    /// Removes the file of another number.
    pub(crate) fn remove(&mut self, number: u64) -> Result<(), LogFault>
        ensures stands { Spares D.seen D.may_leave number self.old self.new result }
        ensures removed { OnOk result (Changes number (λ file. file ≡ []) (D.seen self.old.disk) (D.seen self.new.disk)) }
        ensures number { self.new.number ≡ self.old.number }
        ensures err { OnErr result (self.new.broken ≡ true) }
        ensures any_moment { LeavesRemoved D.seen D.may_leave D.moment D.left_since number self.old self.new }
        ensures back { D.honest self.new.disk → D.honest self.old.disk }
    {
        if self.broken {
            return Err(LogFault::Device);
        }
        match steps::remove(&mut self.disk, number) {
            Ok(()) => Ok(()),
            Err(fault) => {
                self.broken = true;
                Err(LogFault::from(fault))
            }
        }
    }

    /// What the head of a file says, which has to be of this log and of the file's own number. No file changes.
    pub(crate) fn place_of(&mut self, id: u64, number: u64) -> Result<Place, LogFault>
        ensures begins { D.honest self.new.disk → IfOk result (λ p.
            BeginsAs id number p.first p.before p.keep (D.seen self.old.disk number)) }
        ensures reads { Reads D.seen D.may_leave D.moment D.left_since D.honest self.old.disk self.new.disk }
        ensures kept { self.new ≡ record self.old { disk = self.new.disk } }
    {
        if self.broken {
            return Err(LogFault::Device);
        }
        head_of(self.alloc, &mut self.disk, id, number)
    }

    /// Nothing is asked of it any more.
    pub(crate) fn fail(&mut self)
        ensures { self.new ≡ record self.old { broken = true } }
    {
        self.broken = true;
    }

    /// The number of its file.
    pub fn number(&self) -> u64
        ensures { result ≡ self.now.number }
    {
        self.number
    }

    /// Puts a batch behind the others, and brings it to the disk by one sync.
    pub fn put(&mut self, batch: &[Vec<u8>]) -> Result<(), LogFault>
        // At `Ok` the batch counts, whatever crash comes.
        ensures ok { Secures D.seen D.may_leave self.old self.new (records_of batch.now) result }
        ensures err { OnErr result ((self.new ≡ self.old) ⊎ (self.new.broken ≡ true)) }
        ensures number { self.new.number ≡ self.old.number }
        ensures full { IsErrOf result LogFault.Full → 2 ^ 60 ≤ self.old.reach }
        ensures empty { IsErrOf result LogFault.Empty → ⊥ }
        ensures long { IsErrOf result LogFault.TooLong → AreInLimit (records_of batch.now) → ⊥ }

        // A crash at any moment leaves what there was, or that with the batch.
        ensures any_moment { LeavesFile D.seen D.may_leave D.moment D.left_since
            self.old self.new (records_of batch.now) }
        ensures others { OnOk result ((other : ℕ) → other ≢ self.old.number →
            D.seen self.new.disk other ≡ D.seen self.old.disk other) }
        ensures back { D.honest self.new.disk → D.honest self.old.disk }
        ensures failed { IsErrOf result LogFault.Device →
            (self.old.broken ≡ true) ⊎ (D.faults self.old.disk < D.faults self.new.disk) }
    {
        if self.broken {
            return Err(LogFault::Device);
        }
        if self.reach >= MOST {
            return Err(LogFault::Full);
        }
        let bytes = spell(self.alloc, batch, SHUT)?;
        let tail = behind_gate(&bytes);
        match steps::put(&mut self.disk, self.number, self.end, self.reach, tail) {
            Ok(()) => {
                self.end = self.reach;
                self.reach += tail.len();
                Ok(())
            }
            Err(fault) => {
                self.broken = true; // it is never asked again
                Err(LogFault::from(fault))
            }
        }
    }

    /// How many bytes the file has, but for the gate at its end.
    pub fn size(&self) -> usize
        ensures { result ≡ self.now.reach }
    {
        self.reach
    }

    /// Gives the disk back.
    pub fn into_disk(self) -> D
        ensures { result ≡ self.disk }
    {
        let Segment {
            alloc: _,
            disk,
            number: _,
            end: _,
            reach: _,
            broken: _,
        } = self;
        disk
    }
}
