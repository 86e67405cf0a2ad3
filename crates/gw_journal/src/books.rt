//! What threads share under a lock.
ghost use Rattle.std.specs.Prelude.{◌≡◌, IfSome};
ghost use Rattle.gw_journal.specs.Logs.{Confirms};

use crate::book::Naming;
use crate::desk::{Desk, Receipt, Ticket};
use crate::fault::JournalFault;
use crate::job::{Done, Job};
use crate::storage::Storage;
use std::alloc::Global;

/// What lies under the lock of a journal: a desk, or what has one inside.
pub trait Books<J: Naming> {
    /// What a thread takes, to do it with the lock free.
    type Job: Drop;

    /// What it brings back.
    type Done: Drop;

    /// Why nothing more is asked of the journal, if that is so.
    fn fault(&self) -> Option<JournalFault>;

    /// How many records were put, those that the log had included.
    fn count(&self) -> u64;

    /// The receipt of a record, where it is on the disk.
    fn receipt(&self, ticket: &Ticket<J>) -> Option<Receipt<J>>
        ensures place { IfSome result (λ r. r.place ≡ ticket.now.place) }
        ensures stored { IfSome result (λ r. Confirms J.before ticket.now r) };

    /// The storage with what it is to do, where it is here.
    fn take(&mut self, alloc: Global) -> Option<Self::Job>;

    /// Has the storage do it. It is called with the lock free.
    fn run(job: Self::Job) -> Result<Self::Done, JournalFault>;

    /// The storage comes back.
    fn give_back(&mut self, done: Self::Done);

    /// The storage didn't come back: this is why.
    fn fail(&mut self, fault: JournalFault);
}

impl<J: Naming, S: Storage + Drop> Books<J> for Desk<J, S> {
    type Job = Job<J, S>;

    type Done = Done<J, S>;

    fn fault(&self) -> Option<JournalFault> {
        Desk::fault(self)
    }

    fn count(&self) -> u64 {
        Desk::count(self)
    }

    fn receipt(&self, ticket: &Ticket<J>) -> Option<Receipt<J>> {
        Desk::receipt(self, ticket)
    }

    fn take(&mut self, alloc: Global) -> Option<Job<J, S>> {
        Desk::take(self, alloc)
    }

    fn run(job: Job<J, S>) -> Result<Done<J, S>, JournalFault> {
        match job.run() {
            Ok(done) => Ok(done),
            Err((fault, _storage)) => Err(fault),
        }
    }

    fn give_back(&mut self, done: Done<J, S>) {
        Desk::give_back(self, done);
    }

    fn fail(&mut self, fault: JournalFault) {
        Desk::fail(self, fault);
    }
}
