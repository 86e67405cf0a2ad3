//! A log on a disk as the storage of a journal.
ghost use Rattle.std.specs.Prelude.{◌≡◌, [], List, ℕ, IfOk, IfErr};
ghost use Rattle.gw_log.specs.Chain.{IsNoLog};
ghost use Rattle.gw_log.specs.Disk.{Only};
ghost use Rattle.gw_journal.specs.Stored.{Held, IsKept, LeavesKept, TellsLast, disk_of};
ghost use Rattle.gw_log.specs.declared.fault.LogFault.{LogFault};
ghost use Rattle.gw_log.specs.State.{records_of};

use crate::fault::JournalFault;
use crate::storage::Storage;
use crate::summary::Summary;
use gw_log::{Disk, Log, LogFault, read_head};
use std::alloc::Global;
use std::marker::{Model, PhantomData};

/// What a log's fault is to a journal.
impl From<LogFault> for JournalFault {
    ghost from_gives = { λ _ _. Unit {0} };

    fn from(fault: LogFault) -> JournalFault {
        match fault {
            LogFault::Memory => JournalFault::Memory,
            LogFault::Device | LogFault::Damaged { .. } => JournalFault::Disk,
            LogFault::Empty => JournalFault::Empty,
            LogFault::TooLong => JournalFault::TooLong,
            _ => JournalFault::Full,
        }
    }
}

/// The last file of a log as it was found: what its head says, and the records behind that.
#[derive(Drop)]
pub struct LastFile {
    rows: Vec<Vec<u8>>,
}

impl Model for LastFile {
    ghost use Rattle.gw_log.specs.State.{records_of};
    ghost use Rattle.gw_journal.specs.Stored.{LastState, last_of};

    ghost Value = { LastState };

    ghost view = { λ f. last_of (records_of f.rows.items) };
}

impl LastFile {
    /// What the head says of all records before the file.
    pub fn checkpoint(&self) -> &[u8]
        ensures { result.now ≡ self.now.checkpoint }
    {
        let Some((head, _)) = self.rows.split_first() else {
            return &[];
        };
        match read_head(head) {
            None => &[],
            Some(head) => head.checkpoint,
        }
    }

    /// The records behind the head.
    pub fn records(&self) -> &[Vec<u8>]
        ensures { records_of result.now ≡ self.now.records }
    {
        match self.rows.split_first() {
            None => &[],
            Some((_, rest)) => rest,
        }
    }
}

/// A log on a disk, whose checkpoints say of the records before them what `K` says that they may.
pub struct Stored<K: Summary, D: Disk> {
    log: Log<D>,
    id: u64,
    of: PhantomData<K>,
}

// (by hand, so that no crate above proves again how its fields are dropped)
impl<K: Summary, D: Disk + Drop> Drop for Stored<K, D> {
    fn drop(self) {
        let Stored {
            log: _,
            id: _,
            of: _,
        } = self;
    }
}

impl<K: Summary, D: Disk> Model for Stored<K, D> {
    ghost use Rattle.gw_journal.specs.Stored.{StoredState};

    ghost Value = { StoredState D };

    ghost view = { λ s. record { log = s.log; id = s.id } };
}

impl<K: Summary, D: Disk> Stored<K, D> {
    /// A new log of this number, in a folder without a file. After a fault the folder has to be cleared.
    pub fn create(
        alloc: Global,
        disk: D,
        id: u64,
        checkpoint: &[u8],
    ) -> Result<Stored<K, D>, (LogFault, D)>
        // After a restart, what is read is what is on the disk.
        requires durable { Only (D.seen disk) (D.may_leave disk) }
        requires told { K.tells [] checkpoint.now }
        ensures ok { IfOk result (λ s. Held K.tells K.spares D.honest D.seen D.may_leave s []) }
        ensures id { IfOk result (λ s. s.id ≡ id) }
        ensures back { IfOk result (λ s. D.honest (disk_of s) → D.honest disk) }
        ensures back_err { IfErr result (λ e. D.honest e.1 → D.honest disk) }
    {
        match Log::create(alloc, disk, id, checkpoint) {
            Err(failed) => Err(failed),
            Ok(log) => Ok(Stored {
                log,
                id,
                of: PhantomData,
            }),
        }
    }

    /// The log of this number that a crash left in a folder, and its last file. It may crash too.
    ///
    /// After `Damaged` or `Missing` the folder is as it was.
    pub fn open(alloc: Global, disk: D, id: u64) -> Result<(Stored<K, D>, LastFile), (LogFault, D)>
        // After a restart, what is read is what is on the disk.
        requires { Only (D.seen disk) (D.may_leave disk) }
        // All records of the log that the folder is stand in it, and what it returns tells of them all.
        ensures ok { IfOk result (λ r. (all : List (List ℕ)) → IsKept K.tells K.spares id (D.seen disk) all →
            Held K.tells K.spares D.honest D.seen D.may_leave r.0 all) }
        ensures last { IfOk result (λ r. D.honest (disk_of r.0) →
            TellsLast K.tells K.spares id (D.seen disk) r.1) }
        ensures id { IfOk result (λ r. r.0.id ≡ id) }

        // A crash at any moment leaves a log of the same records.
        ensures any_moment { IfOk result (λ r. D.honest (disk_of r.0) →
            LeavesKept K.tells K.spares D.seen D.moment D.left_since id disk (disk_of r.0)) }
        ensures any_moment_err { IfErr result (λ e. D.honest e.1 →
            LeavesKept K.tells K.spares D.seen D.moment D.left_since id disk e.1) }
        // A log isn't reported damaged.
        ensures undamaged { IfErr result (λ e. D.honest e.1 → (segment at : ℕ) →
            e.0 ≡ LogFault.Damaged segment at → IsNoLog id (D.seen disk)) }
        ensures untouched { IfErr result (λ e. (segment at : ℕ) →
            e.0 ≡ LogFault.Damaged segment at → Only (D.seen disk) (D.may_leave e.1)) }
        ensures missing { IfErr result (λ e. D.honest e.1 → e.0 ≡ LogFault.Missing → (n : ℕ) → D.seen disk n ≡ []) }
        ensures back { IfOk result (λ r. D.honest (disk_of r.0) → D.honest disk) }
        ensures back_err { IfErr result (λ e. D.honest e.1 → D.honest disk) }
    {
        match Log::open(alloc, disk, id) {
            Err(failed) => Err(failed),
            Ok((log, rows)) => {
                let stored = Stored {
                    log,
                    id,
                    of: PhantomData,
                };
                Ok((stored, LastFile { rows }))
            }
        }
    }

    /// Gives the disk back.
    pub fn into_disk(self) -> D
        ensures { result ≡ disk_of self }
    {
        let Stored { log, id: _, of: _ } = self;
        log.into_disk()
    }
}

/// All that it says holds if the disk did what its calls answered.
impl<K: Summary, D: Disk> Storage for Stored<K, D> {
    ghost use Rattle.gw_journal.specs.Stored.{Fails, Held, LeavesOne};
    ghost use Rattle.gw_journal.specs.own.Laws.{one_at_rest, one_goes_on, one_widens};

    ghost stands = { Held K.tells K.spares D.honest D.seen D.may_leave };

    ghost leaves = { LeavesOne K.tells K.spares D.honest D.moment D.left_since };

    ghost fails = { λ old new fault. Fails old new };

    ghost tells = { K.tells };

    ghost spares = { K.spares };

    fn put(&mut self, batch: &[Vec<u8>]) -> Result<(), JournalFault> {
        self.log.put(batch)?;
        Ok(())
    }

    fn begin_next(&mut self, keep: u64, checkpoint: &[u8]) -> Result<(), JournalFault> {
        self.log.begin_next(keep, checkpoint)?;
        Ok(())
    }

    fn retire(&mut self) -> Result<bool, JournalFault> {
        let done = self.log.retire()?;
        Ok(done)
    }

    fn size(&self) -> usize {
        self.log.size()
    }

    fn tail(&self) -> (u64, usize) {
        (self.log.number(), self.log.size())
    }

    ghost at_rest = { one_at_rest K.tells K.spares D.honest D.seen D.may_leave D.moment D.left_since D.only_now };

    ghost goes_on = { one_goes_on K.tells K.spares D.honest D.seen D.may_leave D.moment D.left_since };

    ghost widens = { one_widens K.tells K.spares D.honest D.seen D.may_leave D.moment D.left_since };
}
