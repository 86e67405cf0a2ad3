//! A thread's handle of a locked gate, and what it leaves.
ghost use Rattle.std.specs.Prelude.{◌≡◌, ◌<◌, [], length, IfOk};
ghost use Rattle.gw_run.specs.Passes.{IsCounted, PassSeen, MayCount, receipts, IsReplyTo};
ghost use Rattle.gw_crew.specs.Seen.{notes_seen};
ghost use Rattle.gw_gate.specs.Values.{event_seen, reply_seen, answer_seen};
ghost use Rattle.gw_crew.specs.Notes.{Calls};

use crate::awaited::Missed;
use crate::locked::LockedGate;
use gw_crew::{Door, Note, Phase, keep, room_for};
use gw_gate::{Event, Reply};
use std::alloc::Global;
use std::marker::Model;
use std::sync::Wait;
use std::sync::ledger::{Ledger, Share};

/// A thread's handle of a locked gate. Its share of the ledger counts the receipts among its notes.
pub struct Pass<'a, L: Ledger, R: Wait> {
    gate: &'a LockedGate<L>,
    rt: &'a R,
    share: Share<L>,
    notes: Vec<Note>,
    missed: Missed,
}

// (by hand, so that no crate above proves again how its fields are dropped)
impl<'a, L: Ledger, R: Wait> Drop for Pass<'a, L, R> {
    fn drop(self) {
        let Pass {
            gate: _,
            rt: _,
            share: _,
            notes: _,
            missed: _,
        } = self;
    }
}

impl<'a, L: Ledger, R: Wait> Model for Pass<'a, L, R> {
    ghost Value = { PassSeen };

    ghost view = { λ p. record { parts = p.share.parts; amount = p.share.amount; notes = notes_seen p.notes.items } };

    ghost invariant = { λ p. MayCount (record { parts = p.share.parts; amount = p.share.amount; notes = notes_seen p.notes.items }) };
}

/// What a pass leaves: its share, which counts the receipts among its notes, and the notes in order.
pub struct Receipts<L: Ledger> {
    share: Share<L>,
    notes: Vec<Note>,
}

// (by hand, so that no crate above proves again how its fields are dropped)
impl<L: Ledger> Drop for Receipts<L> {
    fn drop(self) {
        let Receipts { share: _, notes: _ } = self;
    }
}

impl<L: Ledger> Model for Receipts<L> {
    ghost Value = { PassSeen };

    ghost view = { λ r. record { parts = r.share.parts; amount = r.share.amount; notes = notes_seen r.notes.items } };

    ghost invariant = { λ r. IsCounted (record { parts = r.share.parts; amount = r.share.amount; notes = notes_seen r.notes.items }) };
}

impl<L: Ledger> Receipts<L> {
    /// The notes, in order. It takes no memory.
    pub fn notes(&self) -> &[Note]
        ensures notes { notes_seen result.now ≡ self.now.notes }
        ensures counted { IsCounted self.now }
    {
        self.notes.as_slice()
    }

    /// The share, without the notes. It takes no memory.
    pub fn into_share(self) -> Share<L>
        ensures parts { result.parts ≡ self.parts }
        ensures amount { result.amount ≡ length (receipts self.notes) }
    {
        let Receipts { share, notes: _ } = self;
        share
    }
}

impl<'a, L: Ledger, R: Wait> Pass<'a, L, R> {
    pub(crate) fn new(alloc: Global, gate: &'a LockedGate<L>, rt: &'a R, share: Share<L>) -> Self
        requires part { 0 < share.parts }
        requires none { share.amount ≡ 0 }
        ensures { result ≡ record { parts = share.parts; amount = 0; notes = [] } }
    {
        Pass {
            gate,
            rt,
            share,
            notes: Vec::new(alloc),
            missed: Missed::none(),
        }
    }

    /// The share and the notes. It takes no memory.
    pub fn end(self) -> Receipts<L>
        ensures { result ≡ self.entry }
    {
        let Pass {
            gate,
            rt: _,
            share,
            notes,
            missed: _,
        } = self;
        gate.left();
        Receipts { share, notes }
    }
}

impl<'a, L: Ledger, R: Wait> Door for Pass<'a, L, R> {
    ghost noted = { λ p. p.notes };

    /// One step of the gate under the lock. The reply is the one that a lawful journal gives. No clause says that it is this gate's journal.
    /// An entry is noted with its receipt, and counted by the share. An error is an allocation failure: the event comes back.
    fn call(&mut self, event: Event) -> Result<Reply, Event>
        ensures reply { IfOk result (λ reply. IsReplyTo (event_seen event) (reply_seen reply)) }
        ensures calls { Calls self.old.notes (event_seen event) (answer_seen result) self.new.notes }
        ensures counted { IsCounted self.new }
        ensures parts { self.new.parts ≡ self.old.parts }
    {
        if !room_for(&mut self.notes, &event) {
            return Err(event);
        }
        let answer = self
            .gate
            .step(self.rt, event, &mut self.share, &mut self.missed);
        keep(&mut self.notes, answer)
    }

    /// True at once where there may be something for its caller: for `NoArrivals` a pair that was issued and isn't taken,
    /// for `NoResults` a result that was kept for the receiver of its last `Nothing`. Else false where the phase was reached, else true after a sleep.
    fn wait(&mut self, phase: Phase) -> bool
        ensures { self.new ≡ self.old }
    {
        self.gate.wait(self.rt, self.missed, phase)
    }

    /// The notes so far. It takes no memory.
    fn notes(&self) -> &[Note] {
        self.notes.as_slice()
    }
}
