//! A log over the files of a folder.
ghost use Rattle.std.specs.Prelude.{◌≡◌, ◌<◌, ◌≤◌, ◌^◌, ◌∷◌, [], ℕ, IsTrue, IsFalse, IsErrOf, IfOk, OnOk};
ghost use Rattle.gw_log.specs.Chain.{AreSome, IsWide, spelled, first_head};
ghost use Rattle.gw_log.specs.Disk.{Only};
ghost use Rattle.gw_log.specs.State.{records_of};

use crate::disk::Disk;
use crate::fault::LogFault;
use crate::head::{Head, seal, spell_head};
use crate::opening::{Found, open_folder};
use crate::segment::Segment;
use crate::writing::BEFORE;
use std::alloc::Global;
use std::marker::Model;

/// The most records of a file, of files, and of records before a file.
const MOST: u64 = 1 << 62;

/// The most bytes of a file that another may follow.
const LONGEST: usize = 1 << 60;

/// Records in the files of a folder, of which the last is open. They lie on the disk alone.
#[derive(Drop)]
pub struct Log<D: Disk> {
    alloc: Global,
    segment: Segment<D>,
    id: u64,
    first: u64,
    count: u64,
    keep: u64,
    least: u64,
}

impl<D: Disk> Model for Log<D> {
    ghost use Rattle.gw_log.specs.Chain.{LogState};

    ghost Value = { LogState D };

    ghost view = { λ l. record { segment = l.segment; id = l.id; first = l.first; count = l.count; keep = l.keep; least = l.least } };
}

// Whether no record is empty.
fn are_some(batch: &[Vec<u8>]) -> bool
    ensures some { IsTrue result → AreSome (records_of batch.now) }
    ensures empty { IsFalse result → AreSome (records_of batch.now) → ⊥ }
{
    for bytes in batch {
        if bytes.is_empty() {
            return false;
        }
    }
    true
}

// Whether a batch may be put behind this count of records.
fn test_batch(count: u64, batch: &[Vec<u8>]) -> Result<(), LogFault>
    ensures room { OnOk result (count < 2 ^ 62) }
    ensures some { OnOk result (AreSome (records_of batch.now)) }
    ensures full { IsErrOf result LogFault.Full → 2 ^ 62 ≤ count }
    ensures empty { IsErrOf result LogFault.Empty → AreSome (records_of batch.now) → ⊥ }
    ensures long { IsErrOf result LogFault.TooLong → ⊥ }
{
    if count >= MOST {
        return Err(LogFault::Full);
    }
    if !are_some(batch) {
        return Err(LogFault::Empty);
    }
    Ok(())
}

// The head of a log's first file, as a batch. The folder may have no file.
fn head_alone<D: Disk>(
    alloc: Global,
    disk: &mut D,
    id: u64,
    checkpoint: &[u8],
) -> Result<Vec<Vec<u8>>, LogFault>
    ensures head { IfOk result (λ out. records_of out.items ≡ spelled (first_head id checkpoint.now) ∷ []) }
    ensures wide { OnOk result (IsWide (first_head id checkpoint.now)) }
    ensures none { D.honest disk.new → OnOk result ((number : ℕ) → D.seen disk.old number ≡ []) }
    ensures seen { D.seen disk.new ≡ D.seen disk.old }
    ensures durable { Only (D.seen disk.old) (D.may_leave disk.old) →
        Only (D.seen disk.new) (D.may_leave disk.new) }
    ensures taken { D.honest disk.new → IsErrOf result LogFault.Taken → ((number : ℕ) → D.seen disk.old number ≡ []) → ⊥ }
    ensures back { D.honest disk.new → D.honest disk.old }
{
    let (first, last) = disk.ends()?;
    if first <= last {
        return Err(LogFault::Taken);
    }
    let head = Head {
        number: 1,
        first: 0,
        before: 0,
        keep: 0,
        id,
        checkpoint,
    };
    Ok(spell_head(alloc, &head)?)
}

impl<D: Disk> Log<D> {
    ghost use Rattle.std.specs.Prelude.{◌≡◌, ◌⊎◌, ◌+◌, ◌-◌, ◌<◌, ◌≤◌, ◌^◌, min, max, [], true, ℕ, IsFalse, IsErrOf, IfOk, IfErr, OnOk, OnErr, length};
    ghost use Rattle.gw_log.specs.Chain.{AreSome, Holds, HoldsAll, IsNoLog, LeavesLog, Commits, LeavesCounted, GoesOn, LeavesGoing};
    ghost use Rattle.gw_log.specs.Chain.{Retires, LeavesFewer, beginning, first_head, next_head, with_disk};
    ghost use Rattle.gw_log.specs.own.Opens.{Reads};
    ghost use Rattle.gw_log.specs.own.Turns.{IsNext};
    ghost use Rattle.gw_log.specs.File.{Has, AreInLimit};
    ghost use Rattle.gw_log.specs.Opening.{BeginsBy, HasItsHead, GivesLast, AreLinked, IsSealed};
    ghost use Rattle.gw_log.specs.Disk.{Only};
    ghost use Rattle.gw_log.specs.State.{records_of};

    /// A new log of this number, in a folder without a file. Its first head has this checkpoint. After a fault the folder has to be cleared.
    pub fn create(
        alloc: Global,
        disk: D,
        id: u64,
        checkpoint: &[u8],
    ) -> Result<Log<D>, (LogFault, D)>
        // After a restart, what is read is what is on the disk.
        requires { Only (D.seen disk) (D.may_leave disk) }
        ensures ok { IfOk result (λ log.
            D.honest log.segment.disk →
            Holds D.seen D.may_leave log beginning (first_head id checkpoint.now) []) }
        ensures id { IfOk result (λ log. log.id ≡ id) }

        // `Taken` comes only where a file has a byte, and leaves the folder as it was.
        ensures taken { IfErr result (λ e. D.honest e.1 → e.0 ≡ LogFault.Taken → ((n : ℕ) → D.seen disk n ≡ []) → ⊥) }
        ensures untouched { IfErr result (λ e. e.0 ≡ LogFault.Taken → Only (D.seen disk) (D.may_leave e.1)) }
        ensures seen { IfErr result (λ e. e.0 ≡ LogFault.Taken → D.seen e.1 ≡ D.seen disk) }
        ensures back { IfOk result (λ log. D.honest log.segment.disk → D.honest disk) }
        ensures back_err { IfErr result (λ e. D.honest e.1 → D.honest disk) }
    {
        let mut disk = disk;
        let head = match head_alone(alloc, &mut disk, id, checkpoint) {
            Ok(head) => head,
            Err(fault) => return Err((fault, disk)),
        };
        match Segment::create(alloc, disk, 1, &head) {
            Err(failed) => Err(failed),
            Ok(segment) => Ok(Log {
                alloc,
                segment,
                id,
                first: 0,
                count: 0,
                keep: 0,
                least: 1,
            }),
        }
    }

    /// The log of this number that a crash left in a folder, and the records of its last file, of which the first is the head. It may crash too.
    ///
    /// After `Damaged` or `Missing` the folder is as it was.
    pub fn open(alloc: Global, disk: D, id: u64) -> Result<(Log<D>, Vec<Vec<u8>>), (LogFault, D)>
        // After a restart, what is read is what is on the disk.
        requires { Only (D.seen disk) (D.may_leave disk) }
        // What the folder is a log of, the log holds.
        ensures ok { IfOk result (λ r.
            D.honest r.0.segment.disk → HoldsAll D.seen D.may_leave id disk r.0) }
        ensures id { IfOk result (λ r. r.0.id ≡ id) }
        ensures last { IfOk result (λ r. D.honest r.0.segment.disk →
            Has (records_of r.1.items) (D.seen disk r.0.segment.number)) }
        // The records that it returns are the last file's: its head, and all from the place on that the head says.
        ensures records { IfOk result (λ r. D.honest r.0.segment.disk →
            GivesLast D.seen id disk (records_of r.1.items)) }
        // No file is missing, cut, exchanged or another log's, and the last one isn't ended.
        ensures linked { IfOk result (λ r. D.honest r.0.segment.disk →
            AreLinked id (D.seen disk) r.0.least r.0.segment.number) }
        ensures head { IfOk result (λ r. D.honest r.0.segment.disk → HasItsHead D.seen id disk r.0) }
        // No record is gone but before the place from which on they have to be there.
        ensures there { IfOk result (λ r. D.honest r.0.segment.disk →
            BeginsBy id r.0.least r.0.keep (D.seen disk r.0.least)) }
        ensures behind { IfOk result (λ r. D.honest r.0.segment.disk → (n : ℕ) →
            r.0.segment.number + 1 < n → D.seen disk n ≡ []) }
        ensures unsealed { IfOk result (λ r. IsSealed (records_of r.1.items) → ⊥) }

        // A crash at any moment leaves a log of the same records.
        ensures any_moment { IfOk result (λ r. D.honest r.0.segment.disk →
            LeavesLog D.seen D.moment D.left_since id disk r.0.segment.disk) }
        ensures any_moment_err { IfErr result (λ e. D.honest e.1 →
            LeavesLog D.seen D.moment D.left_since id disk e.1) }
        // A log isn't reported damaged.
        ensures undamaged { IfErr result (λ e. D.honest e.1 → (segment at : ℕ) →
            e.0 ≡ LogFault.Damaged segment at → IsNoLog id (D.seen disk)) }
        ensures untouched { IfErr result (λ e. (segment at : ℕ) →
            e.0 ≡ LogFault.Damaged segment at → Only (D.seen disk) (D.may_leave e.1)) }
        ensures missing { IfErr result (λ e. D.honest e.1 → e.0 ≡ LogFault.Missing → (n : ℕ) → D.seen disk n ≡ []) }
        ensures back { IfOk result (λ r. D.honest r.0.segment.disk → D.honest disk) }
        ensures back_err { IfErr result (λ e. D.honest e.1 → D.honest disk) }
    {
        let mut disk = disk;
        let found = match open_folder(alloc, &mut disk, id) {
            Ok(found) => found,
            Err(fault) => return Err((fault, disk)),
        };
        let Found {
            number,
            records,
            end,
            place,
            least,
            top: _,
        } = found;
        let log = Log {
            alloc,
            segment: Segment::over(alloc, disk, number, end.reach),
            id,
            first: place.first,
            count: (records.len() as u64).saturating_sub(1),
            keep: place.keep,
            least,
        };
        Ok((log, records))
    }

    /// Puts a batch behind the others, and brings it to the disk by one sync.
    pub fn put(&mut self, batch: &[Vec<u8>]) -> Result<(), LogFault>
        // At `Ok` the batch counts, whatever crash comes.
        ensures ok { Commits D.seen D.may_leave self.old self.new (records_of batch.now) result }
        ensures err { OnErr result ((self.new ≡ self.old) ⊎ (self.new.segment.broken ≡ true)) }
        ensures full { IsErrOf result LogFault.Full →
            (2 ^ 62 ≤ self.old.count) ⊎ (2 ^ 60 ≤ self.old.segment.reach) }
        ensures empty { IsErrOf result LogFault.Empty → AreSome (records_of batch.now) → ⊥ }
        ensures long { IsErrOf result LogFault.TooLong → AreInLimit (records_of batch.now) → ⊥ }

        // A crash at any moment leaves a log of what there was, or of that with the batch.
        ensures any_moment { LeavesCounted D.seen D.may_leave D.moment D.left_since
            self.old self.new (records_of batch.now) }
        ensures back { D.honest self.new.segment.disk → D.honest self.old.segment.disk }
    {
        test_batch(self.count, batch)?;
        self.segment.put(batch)?;
        self.count += batch.len() as u64;
        Ok(())
    }

    // The head of the file behind the last one, as a batch.
    fn next_head(&self, keep: u64, checkpoint: &[u8]) -> Result<Vec<Vec<u8>>, LogFault>
        ensures ok { IfOk result (λ out. IsNext self.now keep checkpoint.now (records_of out.items)) }
        ensures room { OnOk result (self.now.segment.number < 2 ^ 62) }
        ensures size { OnOk result (self.now.segment.reach < 2 ^ 60) }
        ensures full { IsErrOf result LogFault.Full →
            (2 ^ 62 ≤ self.now.segment.number) ⊎ (2 ^ 62 ≤ self.now.first)
            ⊎ (2 ^ 63 ≤ self.now.count) ⊎ (2 ^ 60 ≤ self.now.segment.reach) }
        ensures long { IsErrOf result LogFault.TooLong → ⊥ }
    {
        let (number, size) = (self.segment.number(), self.segment.size());
        if number >= MOST || self.first >= MOST || self.count >= 2 * MOST || size >= LONGEST {
            return Err(LogFault::Full);
        }
        let head = Head {
            number: number + 1,
            first: self.first + self.count,
            before: (size + BEFORE + 1) as u64,
            keep,
            id: self.id,
            checkpoint,
        };
        Ok(spell_head(self.alloc, &head)?)
    }

    // Goes on to the next file.
    fn go_on(&mut self, keep: u64, checkpoint: &[u8]) -> Result<(), LogFault>
        requires { self.old.keep ≤ keep }
        ensures ok { GoesOn D.seen D.may_leave self.old self.new
            (next_head self.old keep checkpoint.now) result }
        ensures any_moment { LeavesGoing D.seen D.may_leave D.moment D.left_since self.old self.new
            (next_head self.old keep checkpoint.now) }
        ensures full { IsErrOf result LogFault.Full →
            (2 ^ 62 ≤ self.old.segment.number) ⊎ (2 ^ 62 ≤ self.old.first)
            ⊎ (2 ^ 63 ≤ self.old.count) ⊎ (2 ^ 60 ≤ self.old.segment.reach) }
        ensures long { IsErrOf result LogFault.TooLong → 2 ^ 31 < length checkpoint.now + 40 }
        ensures back { D.honest self.new.segment.disk → D.honest self.old.segment.disk }
    {
        let next = self.next_head(keep, checkpoint)?;
        let end = seal(self.alloc)?;
        self.segment.follow(&next, &end)?;
        self.first += self.count;
        self.count = 0;
        self.keep = keep;
        Ok(())
    }

    /// Ends the last file, and begins the next one, whose head has this checkpoint. Files may go whose records all stand at places below `keep`.
    pub fn begin_next(&mut self, keep: u64, checkpoint: &[u8]) -> Result<(), LogFault>
        ensures ok { GoesOn D.seen D.may_leave self.old self.new
            (next_head self.old (max keep self.old.keep) checkpoint.now) result }
        ensures err { OnErr result (self.new.segment.broken ≡ true) }
        ensures full { IsErrOf result LogFault.Full →
            (2 ^ 62 ≤ self.old.segment.number) ⊎ (2 ^ 62 ≤ self.old.first)
            ⊎ (2 ^ 63 ≤ self.old.count) ⊎ (2 ^ 60 ≤ self.old.segment.reach) }
        ensures long { IsErrOf result LogFault.TooLong → 2 ^ 31 < length checkpoint.now + 40 }

        // A crash at any moment leaves a log of the same records, with the old head or the new one.
        ensures any_moment { LeavesGoing D.seen D.may_leave D.moment D.left_since self.old self.new
            (next_head self.old (max keep self.old.keep) checkpoint.now) }
        ensures back { D.honest self.new.segment.disk → D.honest self.old.segment.disk }
    {
        match self.go_on(keep.max(self.keep), checkpoint) {
            Ok(()) => Ok(()),
            Err(fault) => {
                self.segment.fail();
                Err(fault)
            }
        }
    }

    // Whether the first file may go: it isn't the last, and the next one begins no later than at the place from which on records are kept.
    fn may_go(&mut self) -> Result<bool, LogFault>
        ensures next { D.honest self.new.segment.disk → IfOk result (λ may. IsTrue may →
            BeginsBy self.old.id (self.old.least + 1) self.old.keep (D.seen self.old.segment.disk (self.old.least + 1))) }
        ensures behind { IfOk result (λ may. IsTrue may → self.old.least < self.old.segment.number) }
        ensures room { IfOk result (λ may. IsTrue may → self.new.least < 2 ^ 64 - 1) }
        ensures reads { Reads D.seen D.may_leave D.moment D.left_since D.honest
            self.old.segment.disk self.new.segment.disk }
        ensures kept { OnOk result (self.new ≡ with_disk self.new.segment.disk self.old) }
        ensures err { OnErr result (self.new.segment.broken ≡ true) }
    {
        if self.least >= self.segment.number() {
            return Ok(false);
        }
        match self.segment.place_of(self.id, self.least + 1) {
            Ok(next) => Ok(next.first <= self.keep),
            Err(LogFault::Memory) => Ok(false),
            Err(fault) => {
                self.segment.fail();
                Err(fault)
            }
        }
    }

    /// Removes the first file, if all its records stand before the place that the last head names. It reads the head of the next one.
    /// False: no file was changed.
    pub fn retire(&mut self) -> Result<bool, LogFault>
        ensures ok { D.honest self.new.segment.disk → Retires D.seen D.may_leave self.old self.new result }
        ensures next { D.honest self.new.segment.disk → IfOk result (λ done. IsTrue done →
            BeginsBy self.old.id (self.old.least + 1) self.old.keep (D.seen self.old.segment.disk (self.old.least + 1))) }
        ensures none { IfOk result (λ done. IsFalse done → self.new ≡ with_disk self.new.segment.disk self.old) }
        ensures none_seen { IfOk result (λ done. IsFalse done → D.seen self.new.segment.disk ≡ D.seen self.old.segment.disk) }
        ensures err { OnErr result (self.new.segment.broken ≡ true) }

        // A crash leaves the log as it was, or without the records of the first file.
        ensures any_moment { D.honest self.new.segment.disk →
            LeavesFewer D.seen D.may_leave D.moment D.left_since self.old self.new }
        ensures back { D.honest self.new.segment.disk → D.honest self.old.segment.disk }
    {
        let may = self.may_go()?;
        if !may {
            return Ok(false);
        }
        self.segment.remove(self.least)?;
        self.least += 1;
        Ok(true)
    }

    /// How many records stand in the log.
    pub fn len(&self) -> u64
        ensures { result ≡ min (self.now.first + self.now.count) (2 ^ 64 - 1) }
    {
        self.first.saturating_add(self.count)
    }

    /// How many bytes the last file has, but for the gate at its end.
    pub fn size(&self) -> usize
        ensures { result ≡ self.now.segment.reach }
    {
        self.segment.size()
    }

    /// The number of the last file.
    pub fn number(&self) -> u64
        ensures { result ≡ self.now.segment.number }
    {
        self.segment.number()
    }

    /// Gives the disk back.
    pub fn into_disk(self) -> D
        ensures { result ≡ self.segment.disk }
    {
        let Log {
            alloc: _,
            segment,
            id: _,
            first: _,
            count: _,
            keep: _,
            least: _,
        } = self;
        segment.into_disk()
    }
}
