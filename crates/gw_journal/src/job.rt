//! What a thread takes from under the lock, to bring it to the disk with the lock free.
ghost use Rattle.std.specs.Prelude.{◌≡◌, ◌++◌, ◌∷◌, [], is_some, length, IfOk, IfErr, IsNone, OnOk, Some, ℕ, List};
ghost use Rattle.gw_journal.specs.Logs.{AreFit, HasFailed, NoneIsLost, log_in, outcomes, records_of};

use crate::book::{Front, Naming};
use crate::fault::JournalFault;
use crate::storage::Storage;
use std::marker::Model;

/// The most files that are removed for one file that is begun.
const MOST: u8 = 4;

/// The storage with a batch that it is to be given. It may have to begin the next file too.
pub struct Job<J: Naming, S: Storage + Drop> {
    pub(crate) storage: S,
    pub(crate) batch: Vec<Vec<u8>>,
    pub(crate) given: u64,
    pub(crate) front: Front<J>,
    pub(crate) keep: u64,
    pub(crate) checkpoint: Option<Vec<u8>>,
}

// (by hand, so that no crate above proves again how its fields are dropped)
impl<J: Naming, S: Storage + Drop> Drop for Job<J, S> {
    fn drop(self) {
        let Job {
            storage: _,
            batch: _,
            given: _,
            front: _,
            keep: _,
            checkpoint: _,
        } = self;
    }
}

impl<J: Naming, S: Storage + Drop> Model for Job<J, S> {
    ghost use Rattle.gw_journal.specs.Logs.{JobState, IsJob, bytes_of, log_in, records_of};

    ghost Value = { JobState S };

    ghost view = { λ j. record {
      storage = j.storage;
      batch = records_of j.batch.items;
      given = j.given;
      history = j.front;
      next = bytes_of j.checkpoint;
      keep = j.keep;
    } };

    ghost invariant = { λ j. IsJob S.stands S.tells S.spares (record {
      storage = j.storage;
      batch = records_of j.batch.items;
      given = j.given;
      history = j.front;
      next = bytes_of j.checkpoint;
      keep = j.keep;
    }) (log_in J.before j.front) };
}

/// The storage, which has all that was put when it was taken.
#[derive(Drop)]
pub struct Done<J: Naming, S: Storage + Drop> {
    pub(crate) storage: S,
    pub(crate) given: u64,
    pub(crate) front: Front<J>,
}

impl<J: Naming, S: Storage + Drop> Model for Done<J, S> {
    ghost use Rattle.gw_journal.specs.Logs.{DoneState, IsDone, log_in};

    ghost Value = { DoneState S };

    ghost view = { λ d. record { storage = d.storage; given = d.given; history = d.front } };

    ghost invariant = { λ d. IsDone S.stands (record { storage = d.storage; given = d.given; history = d.front })
        (log_in J.before d.front) };
}

impl<J: Naming, S: Storage + Drop> Done<J, S> {
    /// The number of the storage's last file, and how many bytes it has. All of them count.
    pub fn tail(&self) -> (u64, usize) {
        self.storage.tail()
    }
}

// Removes the first files of those of which no record is needed.
fn retire<S: Storage>(storage: &mut S) -> Result<(), JournalFault>
    ensures ok { (these : List (List ℕ)) → S.stands storage.old these →
        OnOk result (S.stands storage.new these) }
    ensures any_moment { (these : List (List ℕ)) → S.stands storage.old these →
        S.leaves storage.old storage.new (these ∷ []) }
    ensures err { IfErr result (λ fault. HasFailed S.fails storage.new fault) }
{
    for _ in 0..MOST {
        if !storage.retire()? {
            break;
        }
    }
    Ok(())
}

// Gives a storage a batch, and begins the next file.
fn turn<S: Storage>(
    storage: &mut S,
    batch: &[Vec<u8>],
    keep: u64,
    checkpoint: &[u8],
) -> Result<(), JournalFault>
    requires { AreFit (records_of batch.now) }
    ensures ok { (these : List (List ℕ)) → S.stands storage.old these →
        S.tells (these ++ records_of batch.now) checkpoint.now → S.spares (these ++ records_of batch.now) keep →
        OnOk result (S.stands storage.new (these ++ records_of batch.now)) }
    ensures any_moment { (these : List (List ℕ)) → S.stands storage.old these →
        S.tells (these ++ records_of batch.now) checkpoint.now → S.spares (these ++ records_of batch.now) keep →
        S.leaves storage.old storage.new (these ∷ (these ++ records_of batch.now) ∷ []) }
    ensures err { IfErr result (λ fault. HasFailed S.fails storage.new fault) }
{
    storage.put(batch)?;
    storage.begin_next(keep, checkpoint)?;
    retire(storage)
}

impl<J: Naming, S: Storage + Drop> Job<J, S> {
    /// How many bytes the last file of the storage has.
    pub fn size(&self) -> usize {
        self.storage.size()
    }

    /// Whether it begins the next file.
    pub fn is_turning(&self) -> bool
        ensures { result ≡ is_some self.now.next }
    {
        self.checkpoint.is_some()
    }

    /// The same job, which also begins the next file behind its batch, and removes up to four of which no record is needed.
    /// Its checkpoint tells of all records.
    ///
    /// Records at places below `keep` are needed no more.
    pub fn turning(mut self, keep: u64, checkpoint: Vec<u8>) -> Job<J, S>
        requires told { S.tells (log_in J.before self.history).records checkpoint.items }
        requires spared { S.spares (log_in J.before self.history).records keep }
        ensures { result ≡ record self { next = Some checkpoint.items; keep = keep } }
    {
        self.keep = keep;
        self.checkpoint = Some(checkpoint);
        self
    }

    /// Gives the storage its batch, and begins the next file, where it is to. A crash at any moment leaves each record that there was a receipt for.
    pub fn run(self) -> Result<Done<J, S>, (JournalFault, S)>
        ensures same { IfOk result (λ done. done.history ≡ self.history) }
        // All that was put counts.
        ensures given { IfOk result (λ done. done.given ≡ length (log_in J.before self.history).records) }

        // What a crash leaves, also where the call fails: nothing of it lacks a record that there was a receipt for.
        ensures any_moment { IfOk result (λ done. S.leaves self.storage done.storage
            (outcomes self.given (log_in J.before self.history).records)) }
        ensures any_moment_err { IfErr result (λ e. S.leaves self.storage e.1
            (outcomes self.given (log_in J.before self.history).records)) }
        ensures none_is_lost { NoneIsLost (log_in J.before self.history)
            (outcomes self.given (log_in J.before self.history).records) }

        // A fault is the storage's own.
        ensures err { IfErr result (λ e. HasFailed S.fails e.1 e.0) }
        ensures err_at_once { IsNone self.next → IfErr result (λ e. S.fails self.storage e.1 e.0) }
    {
        let Job {
            storage,
            batch,
            given,
            front,
            keep,
            checkpoint,
        } = self;
        let mut storage = storage;
        let count = given + batch.len() as u64;
        match checkpoint {
            None => match storage.put(&batch) {
                Err(fault) => Err((fault, storage)),
                Ok(()) => Ok(Done {
                    storage,
                    given: count,
                    front,
                }),
            },
            Some(checkpoint) => match turn(&mut storage, &batch, keep, &checkpoint) {
                Err(fault) => Err((fault, storage)),
                Ok(()) => Ok(Done {
                    storage,
                    given: count,
                    front,
                }),
            },
        }
    }
}
