//! What lies under the lock of a journal, and what threads take from it.
ghost use Rattle.std.specs.Prelude.{◌≡◌, ◌≤◌, ◌<◌, ◌^◌, ◌⊎◌, ◌↔◌, ◌+◌, [], IfOk, IfSome, IsErrOf, IsNone, IsSome, OnOk, OnErr, Some, IsTrue, IsFalse, length, ◌++◌, ◌∷◌};
ghost use mathlib.Core.List.{IsPrefix};
ghost use Rattle.gw_journal.specs.declared.event.Event.TheVariants.{Put, Synced, Read};
ghost use Rattle.gw_journal.specs.Logs.{AllStand, ComesBack, Confirms, Fits, HasGrown, IsAt, IsFull, IsIdle, IsSpent, log_in};

use crate::book::{Front, History, Naming, Opened, Putting, Reading, Syncing};
use crate::fault::JournalFault;
use crate::job::{Done, Job};
use crate::storage::Storage;
use std::alloc::Global;
use std::marker::Model;
use std::mem::replace;

/// The most records of a journal.
const MOST: u64 = 1 << 62;

/// The most bytes of a record.
const LONGEST: usize = 1 << 31;

/// A record that was put, at its place in the journal. It need not be on the disk yet.
pub struct Ticket<J: Naming> {
    front: Front<J>,
    place: u64,
}

// (by hand, so that no crate above proves again how its fields are dropped)
impl<J: Naming> Drop for Ticket<J> {
    fn drop(self) {
        let Ticket { front: _, place: _ } = self;
    }
}

impl<J: Naming> Model for Ticket<J> {
    ghost use Rattle.gw_journal.specs.Logs.{TicketState};

    ghost Value = { TicketState };

    ghost view = { λ t. record { history = t.front; place = t.place } };
}

/// What was seen of a journal, with a record that is on the disk, at its place. It stays there.
pub struct Receipt<J: Naming> {
    front: Front<J>,
    place: u64,
}

// (by hand, so that no crate above proves again how its fields are dropped)
impl<J: Naming> Drop for Receipt<J> {
    fn drop(self) {
        let Receipt { front: _, place: _ } = self;
    }
}

impl<J: Naming> Model for Receipt<J> {
    ghost use Rattle.gw_journal.specs.Logs.{TicketState};

    ghost Value = { TicketState };

    ghost view = { λ t. record { history = t.front; place = t.place } };
}

/// What lies under the lock: the storage, where no thread has it, and the records that it wasn't given.
pub struct Desk<J: Naming, S: Storage + Drop> {
    storage: Option<S>,
    batch: Vec<Vec<u8>>,
    given: u64,
    settled: u64,
    history: History<J>,
    fault: Option<JournalFault>,
}

// (by hand, so that no crate above proves again how its fields are dropped)
impl<J: Naming, S: Storage + Drop> Drop for Desk<J, S> {
    fn drop(self) {
        let Desk {
            storage: _,
            batch: _,
            given: _,
            settled: _,
            history: _,
            fault: _,
        } = self;
    }
}

impl<J: Naming, S: Storage + Drop> Model for Desk<J, S> {
    ghost use Rattle.std.specs.Prelude.{◌≡◌, ◌≤◌, false, is_some};
    ghost use Rattle.gw_journal.specs.Logs.{DeskState, IsTrue, log_in, records_of};

    ghost Value = { DeskState S };

    ghost view = { λ d. record {
      storage = d.storage;
      batch = records_of d.batch.items;
      given = d.given;
      settled = d.settled;
      history = d.history;
      fault = d.fault;
    } };

    ghost invariant = { λ d. (is_some d.fault ≡ false → IsTrue S.stands d.storage (records_of d.batch.items) d.given d.settled (log_in J.before d.history))
        × (d.settled ≤ (log_in J.before d.history).synced) };
}

impl<J: Naming> Ticket<J> {
    /// The place of its record in the journal.
    pub fn place(&self) -> u64
        ensures { result ≡ self.now.place }
    {
        self.place
    }

    /// What was seen of the journal, with its record.
    pub fn front(&self) -> &Front<J>
        ensures { result.now ≡ self.now.history }
    {
        &self.front
    }

    /// The same once more. It takes no memory.
    pub fn again(&self) -> Ticket<J>
        ensures { result ≡ self.now }
    {
        Ticket {
            front: self.front.again(),
            place: self.place,
        }
    }
}

impl<J: Naming> Receipt<J> {
    /// The place of its record in the journal.
    pub fn place(&self) -> u64
        ensures { result ≡ self.now.place }
    {
        self.place
    }

    /// What was seen of the journal, with its record on the disk.
    pub fn front(&self) -> &Front<J>
        ensures { result.now ≡ self.now.history }
    {
        &self.front
    }
}

// The longer of two beginnings of the history, where the one has the record at its place, and by the other this many are on the disk.
#[tactic(auto, using(crate::proofs::Logging::stored_by, crate::proofs::Logging::stored_same))]
fn stored<J: Naming>(ticket: &Ticket<J>, front: &Front<J>, synced: u64) -> Option<Receipt<J>>
    requires { synced ≤ (log_in J.before front.now).synced }
    ensures none { IsNone result ↔ synced ≤ ticket.now.place }
    ensures place { IfSome result (λ r. r.place ≡ ticket.now.place) }
    ensures stored { IfSome result (λ r. Confirms J.before ticket.now r) }
{
    if synced <= ticket.place {
        return None;
    }
    let place = ticket.place;
    if ticket.front.begins(front) {
        return Some(Receipt {
            front: front.again(),
            place,
        });
    }
    Some(Receipt {
        front: ticket.front.again(),
        place,
    })
}

impl<J: Naming, S: Storage + Drop> Desk<J, S> {
    /// The journal over a storage that has this many records.
    #[tactic(auto, using(crate::proofs::Logging::true_opened))]
    pub fn open(alloc: Global, opened: Opened, storage: S, count: u64) -> Desk<J, S>
        requires book { opened.seen.book ≡ J.book }
        requires stands { S.stands storage J.before }
        requires count { count ≡ length J.before }
        ensures history { result.history ≡ [] }
        ensures full { (result.fault ≡ Some JournalFault.Full) ↔ 2 ^ 62 < count }
        ensures well { IsNone result.fault ↔ count ≤ 2 ^ 62 }
    {
        Desk {
            storage: Some(storage),
            batch: Vec::new(alloc),
            given: count,
            settled: count,
            history: opened.named::<J>(),
            fault: if count > MOST {
                Some(JournalFault::Full)
            } else {
                None
            },
        }
    }

    /// Why nothing more is asked of the journal, if that is so.
    pub fn fault(&self) -> Option<JournalFault>
        ensures { result ≡ self.now.fault }
    {
        self.fault
    }

    /// How many records were put, those that the log had included.
    pub fn count(&self) -> u64
        ensures { IsNone self.now.fault → result ≡ self.now.given + length self.now.batch }
    {
        self.given.saturating_add(self.batch.len() as u64)
    }

    /// The whole history.
    pub fn front(&self) -> &Front<J>
        ensures { result.now ≡ self.now.history }
    {
        self.history.front()
    }

    /// Puts a record of 1 to 2,147,483,648 bytes after the others. An allocation failure leaves the journal as it was.
    pub fn put(&mut self, bytes: Vec<u8>) -> Result<Ticket<J>, JournalFault>
        ensures put { IfOk result (λ t. IsAt t.place bytes.items (log_in J.before t.history)) }
        ensures seen { IfOk result (λ t. t.history ≡ self.new.history) }
        ensures later { IsPrefix self.old.history self.new.history }
        ensures place { IfOk result (λ t. t.place ≡ length (log_in J.before self.old.history).records) }
        ensures ok { OnOk result (self.new ≡ record self.old {
          batch = self.old.batch ++ bytes.items ∷ [];
          history = self.old.history ++ Put bytes.items ∷ [];
        }) }

        // Once there was a fault, it is the answer.
        ensures faulty { IfSome self.old.fault (λ fault. IsErrOf result fault) }
        ensures disk { IsErrOf result JournalFault.Disk ↔ (self.old.fault ≡ Some JournalFault.Disk) }
        ensures empty { IsNone self.old.fault → (IsErrOf result JournalFault.Empty ↔ (bytes.items ≡ [])) }
        ensures long { IsNone self.old.fault → (IsErrOf result JournalFault.TooLong ↔ (2 ^ 31 < length bytes.items)) }
        ensures full { IsNone self.old.fault → Fits bytes.items → IsFull self.old → IsErrOf result JournalFault.Full }
        ensures full_only { IsErrOf result JournalFault.Full →
            (self.old.fault ≡ Some JournalFault.Full) ⊎ IsFull self.old ⊎ HasGrown self.old self.new }

        // An error leaves all as it was, unless another than this desk added to the history.
        ensures memory { IsErrOf result JournalFault.Memory → self.new ≡ self.old }
        ensures no_bytes { IsErrOf result JournalFault.Empty → self.new ≡ self.old }
        ensures too_many { IsErrOf result JournalFault.TooLong → self.new ≡ self.old }
        ensures err { OnErr result ((self.new ≡ self.old) ⊎ HasGrown self.old self.new) }
        ensures failed { OnErr result ((self.new ≡ self.old) ⊎ IsSome self.new.fault) }
    {
        if let Some(fault) = self.fault {
            return Err(fault);
        }
        if bytes.is_empty() {
            return Err(JournalFault::Empty);
        }
        if bytes.len() > LONGEST {
            return Err(JournalFault::TooLong);
        }
        let place = self.given + self.batch.len() as u64;
        if place >= MOST || self.history.is_full() {
            return Err(JournalFault::Full);
        }
        if self.batch.reserve(1).is_err() {
            return Err(JournalFault::Memory);
        }
        if !self.history.add(&Putting { bytes: &bytes }) {
            self.fault = Some(JournalFault::Full);
            return Err(JournalFault::Full);
        }
        self.batch.push_reserved(bytes);
        Ok(Ticket {
            front: self.history.front().again(),
            place,
        })
    }

    /// The storage, with what it wasn't given yet. None: another thread has it, or it has all that was put, or there was a fault.
    #[tactic(auto, using(crate::proofs::Logging::job_taken))]
    pub fn take(&mut self, alloc: Global) -> Option<Job<J, S>>
        ensures same { self.new.history ≡ self.old.history }
        ensures seen { IfSome result (λ job. job.history ≡ self.old.history) }
        ensures next { IfSome result (λ job. IsNone job.next) }
        ensures none { IsNone result ↔ IsIdle self.old }
        ensures fault { self.new.fault ≡ self.old.fault }
    {
        if self.fault.is_some() || self.batch.is_empty() {
            return None;
        }
        let storage = self.storage.take()?;
        let given = self.given;
        self.given = given + self.batch.len() as u64;
        Some(Job {
            storage,
            batch: replace(&mut self.batch, Vec::new(alloc)),
            given,
            front: self.history.front().again(),
            keep: 0,
            checkpoint: None,
        })
    }

    // Whether this is what a thread took last.
    #[tactic(auto, using(crate::proofs::Fronts::prefix_length))]
    fn is_ours(&self, done: &Done<J, S>) -> bool
        ensures { IsTrue result ↔ ComesBack self.now done.now }
    {
        self.fault.is_none() && done.given == self.given && done.front.begins(self.history.front())
    }

    /// The storage comes back.
    pub fn give_back(&mut self, done: Done<J, S>)
        ensures later { IsPrefix self.old.history self.new.history }
        ensures back { IsNone self.new.fault → self.new ≡ record self.old {
          storage = Some done.storage;
          settled = done.given;
          history = self.old.history ++ Synced done.given ∷ [];
        } }
        ensures faulty { IsSome self.old.fault → self.new.fault ≡ self.old.fault }
        ensures disk { self.new.fault ≡ Some JournalFault.Disk →
            (self.old.fault ≡ Some JournalFault.Disk) ⊎ (ComesBack self.old done → ⊥) }
        ensures full { self.new.fault ≡ Some JournalFault.Full →
            (self.old.fault ≡ Some JournalFault.Full) ⊎ IsSpent self.old ⊎ HasGrown self.old self.new }
    {
        if !self.is_ours(&done) {
            self.fail(JournalFault::Disk);
            return;
        }
        let Done { storage, given, .. } = done;
        if !self.history.add(&Syncing { count: given }) {
            self.fault = Some(JournalFault::Full);
            return;
        }
        self.storage = Some(storage);
        self.settled = given;
    }

    /// The storage didn't come back: this is why. Only the first fault is kept.
    pub fn fail(&mut self, fault: JournalFault)
        ensures same { self.new ≡ record self.old { fault = self.new.fault } }
        ensures first { IsNone self.old.fault → self.new.fault ≡ Some fault }
        ensures later { IsSome self.old.fault → self.new.fault ≡ self.old.fault }
    {
        if self.fault.is_none() {
            self.fault = Some(fault);
        }
    }

    /// Notes that these bytes were read from the files, as the record at this place. It takes no memory.
    /// False: it isn't noted, since there are 2^62 events.
    pub fn note(&mut self, place: u64, bytes: &[u8]) -> bool
        ensures later { IsPrefix self.old.history self.new.history }
        ensures noted { IsTrue result → self.new ≡ record self.old {
          history = self.old.history ++ Read place bytes.now ∷ [];
        } }
        ensures faulty { IsSome self.old.fault → self.new.fault ≡ self.old.fault }
        ensures full { IsFalse result → IsSpent self.old ⊎ HasGrown self.old self.new }
        ensures failed { IsFalse result → (self.new ≡ self.old) ⊎ IsSome self.new.fault }
    {
        if self.history.is_full() {
            return false;
        }
        if !self.history.add(&Reading { place, bytes }) {
            self.fault = Some(self.fault.unwrap_or(JournalFault::Full));
            return false;
        }
        true
    }

    /// The receipt of a record, where it is on the disk.
    pub fn receipt(&self, ticket: &Ticket<J>) -> Option<Receipt<J>>
        ensures none { IsNone result ↔ self.now.settled ≤ ticket.now.place }
        ensures place { IfSome result (λ r. r.place ≡ ticket.now.place) }
        ensures stored { IfSome result (λ r. Confirms J.before ticket.now r) }
    {
        stored(ticket, self.history.front(), self.settled)
    }

    /// Whether all records up to this place are on the disk, by what is known.
    pub fn is_stored(&self, place: u64) -> bool
        ensures test { IsTrue result ↔ place < self.now.settled }
        ensures stored { IsTrue result → place < (log_in J.before self.now.history).synced }
    {
        place < self.settled
    }

    /// Gives the storage back, where it is here and the receipt is one of this journal: its record stands at its place.
    pub fn close(self, receipt: &Receipt<J>) -> Option<S>
        ensures { IfSome result (λ s. AllStand S.stands (log_in J.before receipt.now.history) s) }
    {
        if self.fault.is_some() || !receipt.front.begins(self.history.front()) {
            return None;
        }
        let Desk {
            storage,
            batch: _,
            given: _,
            settled: _,
            history: _,
            fault: _,
        } = self;
        storage
    }
}
