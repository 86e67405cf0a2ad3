//! A gate that several threads step, one event at a time.
use crate::awaited::{Awaited, Missed, News, ROW, pairs_of, receiver_of};
use crate::counted::Counted;
use crate::pass::Pass;
use gw_crew::{Note, Phase};
use gw_gate::{Event, Gate, Reply};
use std::alloc::Global;
use std::array;
use std::sync::ledger::{Book, Ledger, Share};
use std::sync::{Condvar, Mutex, Wait};

// What lies under the lock.
#[derive(Drop)]
struct Locked<L: Ledger> {
    counted: Counted<L>,
    awaited: Awaited,
    phase: Phase,
}

/// A gate that several threads step, one event at a time, each through a pass of its own.
pub struct LockedGate<L: Ledger> {
    inner: Mutex<Locked<L>>,
    issued: Condvar,
    // (one for each rest, shared by the receivers whose numbers leave it)
    kept: [Condvar; ROW],
}

// (by hand, so that no crate above proves again how its fields are dropped)
impl<L: Ledger> Drop for LockedGate<L> {
    fn drop(self) {
        let LockedGate {
            inner: _,
            issued: _,
            kept: _,
        } = self;
    }
}

impl<L: Ledger> LockedGate<L> {
    ghost use Rattle.std.specs.Prelude.{◌≡◌, ◌<◌, ◌+◌, []};
    ghost use Rattle.gw_gate.specs.Values.{event_seen};
    ghost use Rattle.gw_run.specs.own.Steps.{StepsSomewhere, counted_by};

    /// The gate behind a lock, with a ledger's book of the entries that are added from here on. It takes no memory.
    pub fn new(gate: Gate, book: Book<L>) -> Self
        requires { book.total ≡ 0 }
    {
        LockedGate {
            inner: Mutex::new(Locked {
                counted: Counted::begin(gate, book),
                awaited: Awaited::nothing(),
                phase: Phase::Running,
            }),
            issued: Condvar::new(),
            kept: array::from_fn(|_rest| Condvar::new()),
        }
    }

    /// A pass with this share of the ledger, which has counted nothing yet. It takes no memory.
    pub fn pass<'a, R: Wait>(&'a self, alloc: Global, rt: &'a R, share: Share<L>) -> Pass<'a, L, R>
        requires part { 0 < share.parts }
        requires none { share.amount ≡ 0 }
        ensures { result ≡ record { parts = share.parts; amount = 0; notes = [] } }
    {
        Pass::new(alloc, self, rt, share)
    }

    /// Moves the gate on to this phase, and wakes all who wait. It takes no memory.
    pub fn close<R: Wait>(&self, rt: &R, phase: Phase) {
        let mut locked = self.inner.lock(rt);
        if locked.phase < phase {
            locked.phase = phase;
        }
        drop(locked);
        self.issued.notify_all();
        for condition in &self.kept {
            condition.notify_all();
        }
    }

    /// The gate, which no pass steps any more, with the book. It takes no memory.
    pub fn into_counted(self) -> Counted<L> {
        let LockedGate {
            inner,
            issued: _,
            kept: _,
        } = self;
        let Locked { counted, .. } = inner.into_inner();
        counted
    }

    // One step under the lock, with its note, of a pass with this last `Nothing`. An entry is counted in the share.
    pub(crate) fn step<R: Wait>(
        &self,
        rt: &R,
        event: Event,
        share: &mut Share<L>,
        missed: &mut Missed,
    ) -> Result<(Reply, Option<Note>), Event>
        requires { 0 < share.old.parts }
        ensures step { StepsSomewhere (event_seen event) result }
        ensures parts { share.new.parts ≡ share.old.parts }
        ensures amount { share.new.amount ≡ share.old.amount + counted_by result }
    {
        let pairs = pairs_of(&event);
        let receiver = receiver_of(&event);
        let mut locked = self.inner.lock(rt);
        let answer = locked.counted.step(event, share);
        let news = News::of(&answer, pairs, receiver);
        locked.awaited.enter(news, missed);
        drop(locked);
        self.wake(news);
        answer
    }

    // Wakes one worker for each pair that was issued, or all who wait for a result of this receiver.
    fn wake(&self, news: News) {
        match news {
            News::Issued(pairs) => self.wake_workers(pairs),
            News::Kept(receiver) => self.kept[receiver % ROW].notify_all(),
            _ => (),
        }
    }

    fn wake_workers(&self, pairs: usize) {
        for _pair in 0..pairs {
            self.issued.notify_one();
        }
    }

    // Wakes all who wait for a pair: the pass that ends may have been woken for one that it didn't take.
    pub(crate) fn left(&self) {
        self.issued.notify_all();
    }

    // Waits until the phase, unless there may be something for a pass with this last `Nothing`, or the phase was reached.
    pub(crate) fn wait<R: Wait>(&self, rt: &R, missed: Missed, phase: Phase) -> bool {
        let locked = self.inner.lock(rt);
        if locked.awaited.has(missed, phase) {
            return true;
        }
        if locked.phase >= phase {
            return false;
        }
        let condition = if phase == Phase::NoArrivals {
            &self.issued
        } else {
            &self.kept[missed.receiver % ROW]
        };
        let _locked = condition.wait(rt, locked);
        true
    }
}
