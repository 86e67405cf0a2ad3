//! A ledger as what lies under a journal's lock.
use crate::ledger::Ledger;
use gw_due::laws::Rules;
use gw_journal::{Books, Done, Job, JournalFault, Naming, Receipt, Storage, Ticket};
use std::alloc::Global;

impl<J: Naming, S: Storage + Drop, R: Rules> Books<J> for Ledger<J, S, R> {
    type Job = Job<J, S>;

    type Done = Done<J, S>;

    fn fault(&self) -> Option<JournalFault> {
        Ledger::fault(self)
    }

    fn count(&self) -> u64 {
        Ledger::count(self)
    }

    fn receipt(&self, ticket: &Ticket<J>) -> Option<Receipt<J>> {
        Ledger::receipt(self, ticket)
    }

    fn take(&mut self, alloc: Global) -> Option<Job<J, S>> {
        Ledger::take(self, alloc)
    }

    fn run(job: Job<J, S>) -> Result<Done<J, S>, JournalFault> {
        match job.run() {
            Ok(done) => Ok(done),
            Err((fault, _storage)) => Err(fault),
        }
    }

    fn give_back(&mut self, done: Done<J, S>) {
        Ledger::give_back(self, done);
    }

    fn fail(&mut self, fault: JournalFault) {
        Ledger::fail(self, fault);
    }
}
