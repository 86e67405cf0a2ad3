//! A journal that threads share.
ghost use Rattle.gw_journal.specs.Logs.{Confirms, IsAt, log_in};

use crate::book::Naming;
use crate::books::Books;
use crate::desk::{Desk, Receipt, Ticket};
use crate::fault::JournalFault;
use crate::storage::Storage;
use std::alloc::Global;
use std::marker::PhantomData;
use std::sync::atomic::{AtomicU64, Ordering};
use std::sync::{Condvar, Mutex, MutexGuard, Wait};

/// A journal that threads share: a desk, or what has one inside, under a lock.
pub struct Journal<J: Naming, B: Books<J> + Drop> {
    alloc: Global,
    books: Mutex<B>,
    // how many batches were begun, and how many records the last of them ends with: both change with the lock held
    batches: AtomicU64,
    given: AtomicU64,
    // who waits for a batch, by its number: for the one that is written, and for the next
    even: Condvar,
    odd: Condvar,
    of: PhantomData<J>,
}

// (by hand, so that no crate above proves again how its fields are dropped)
impl<J: Naming, B: Books<J> + Drop> Drop for Journal<J, B> {
    fn drop(self) {
        let Journal {
            alloc: _,
            books: _,
            batches: _,
            given: _,
            even: _,
            odd: _,
            of: _,
        } = self;
    }
}

impl<J: Naming, B: Books<J> + Drop> Journal<J, B> {
    ghost use Rattle.std.specs.Prelude.{◌≡◌, IfOk};

    /// A journal under a lock.
    pub fn new(alloc: Global, books: B) -> Journal<J, B> {
        Journal {
            alloc,
            books: Mutex::new(books),
            batches: AtomicU64::new(0),
            given: AtomicU64::new(0),
            even: Condvar::new(),
            odd: Condvar::new(),
            of: PhantomData,
        }
    }

    /// Waits for the lock.
    pub fn lock<R: Wait>(&self, rt: &R) -> MutexGuard<'_, B> {
        self.books.lock(rt)
    }

    // Who waits for the batch of this number.
    fn bell(&self, batch: u64) -> &Condvar {
        if batch % 2 == 0 {
            &self.even
        } else {
            &self.odd
        }
    }

    // The bell of the batch that this record is in: the one that was begun last, or the next.
    fn bell_of(&self, ticket: &Ticket<J>) -> &Condvar {
        let batch = self.batches.load(Ordering::SeqCst);
        if ticket.place() < self.given.load(Ordering::SeqCst) {
            self.bell(batch)
        } else {
            self.bell(batch.wrapping_add(1))
        }
    }

    // The batch of this number is on the disk, or there was a fault: who waits for it goes on, and one of those who wait for the next begins that.
    fn ring(&self, batch: u64, is_well: bool) {
        self.bell(batch).notify_all();
        let next = self.bell(batch.wrapping_add(1));
        if is_well {
            next.notify_one();
        } else {
            next.notify_all();
        }
    }

    /// Waits until a record is on the disk. The first who waits brings all that was put to the disk, for all.
    pub fn settle<R: Wait>(&self, rt: &R, ticket: &Ticket<J>) -> Result<Receipt<J>, JournalFault>
        ensures place { IfOk result (λ r. r.place ≡ ticket.now.place) }
        ensures stored { IfOk result (λ r. Confirms J.before ticket.now r) }
    {
        let mut books = self.books.lock(rt);
        for _ in rt.forever() {
            if let Some(receipt) = books.receipt(ticket) {
                return Ok(receipt);
            }
            if let Some(fault) = books.fault() {
                return Err(fault);
            }
            let count = books.count();
            match books.take(self.alloc) {
                Some(job) => {
                    let batch = self.batches.fetch_add(1, Ordering::SeqCst);
                    self.given.store(count, Ordering::SeqCst);
                    drop(books);
                    let done = B::run(job);
                    books = self.books.lock(rt);
                    match done {
                        Ok(done) => books.give_back(done),
                        Err(fault) => books.fail(fault),
                    }
                    let is_well = books.fault().is_none();
                    // (who is woken needs the lock)
                    drop(books);
                    self.ring(batch.wrapping_add(1), is_well);
                    books = self.books.lock(rt);
                }
                None => books = self.bell_of(ticket).wait(rt, books),
            }
        }
        unreachable!()
    }

    /// What lay under the lock, once no thread has the journal any more.
    pub fn into_books(self) -> B {
        let Journal {
            alloc: _,
            books,
            batches: _,
            given: _,
            even: _,
            odd: _,
            of: _,
        } = self;
        books.into_inner()
    }
}

impl<J: Naming, S: Storage + Drop> Journal<J, Desk<J, S>> {
    ghost use Rattle.std.specs.Prelude.{IfOk};

    /// Puts a record of 1 to 2,147,483,648 bytes after the others. It need not be on the disk yet.
    pub fn put<R: Wait>(&self, rt: &R, bytes: Vec<u8>) -> Result<Ticket<J>, JournalFault>
        ensures { IfOk result (λ t. IsAt t.place bytes.items (log_in J.before t.history)) }
    {
        self.books.lock(rt).put(bytes)
    }
}
