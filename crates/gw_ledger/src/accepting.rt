//! Numbers of answers, and messages that are accepted.
ghost use Rattle.std.specs.Prelude.{◌≡◌, ◌↔◌, ◌⊎◌, ◌+◌, ◌<◌, ◌^◌, IfOk, IfErr, IfSome, IsErrOf, IsNone, IsSome, IsTrue, OnOk, Some};
ghost use mathlib.Core.List.{IsPrefix};
ghost use Rattle.gw_due.specs.Events as events;
ghost use Rattle.gw_due.specs.Spelling as spelling;
ghost use Rattle.gw_journal.specs.Logs.{HasGrown, IsAt, log_in};
ghost use Rattle.gw_ledger.specs.Accepting.{IsInForce, IsRouted};
ghost use Rattle.gw_ledger.specs.Finding.{InJournal};
ghost use Rattle.gw_ledger.specs.Ledgers.{IsMargin};
ghost use Rattle.gw_ledger.specs.Putting.{Puts, timed};

use crate::fault::LedgerFault;
use crate::ledger::Ledger;
use gw_due::laws::Rules;
use gw_due::{Entry, Event};
use gw_journal::{Front, JournalFault, Naming, Storage, Ticket};
use std::marker::Model;

/// How far the margin of numbers is put ahead.
const AHEAD: u64 = 10_000;

/// What was seen of the plan in force: its place.
pub struct Look<J: Naming> {
    place: u64,
    front: Front<J>,
}

// (by hand, so that no crate above proves again how its fields are dropped)
impl<J: Naming> Drop for Look<J> {
    fn drop(self) {
        let Look { place: _, front: _ } = self;
    }
}

impl<J: Naming> Model for Look<J> {
    ghost use Rattle.gw_ledger.specs.Accepting.{IsLook, LookState};

    ghost Value = { LookState };

    ghost view = { λ l. record { place = l.place; history = l.front } };

    ghost invariant = { λ l. IsLook J.before (record { place = l.place; history = l.front }) };
}

impl<J: Naming> Look<J> {
    /// The place of the plan.
    pub fn place(&self) -> u64
        ensures { result ≡ self.now.place }
    {
        self.place
    }

    /// The same once more. It takes no memory.
    pub fn again(&self) -> Look<J>
        ensures { result ≡ self.now }
    {
        Look {
            place: self.place,
            front: self.front.again(),
        }
    }

    /// What was seen of the journal.
    pub fn front(&self) -> &Front<J>
        ensures { result.now ≡ self.now.history }
    {
        &self.front
    }
}

impl<J: Naming, S: Storage + Drop, R: Rules> Ledger<J, S, R> {
    /// The plan in force, where there is one and there was no fault.
    pub fn look(&self) -> Option<Look<J>>
        ensures look { IfSome result (λ look. (self.now.state.plan ≡ Some look.place)
            × (look.history ≡ self.now.desk.history)) }
        ensures none { IsNone result → IsSome self.now.desk.fault ⊎ IsNone self.now.state.plan }
    {
        if self.desk.fault().is_some() {
            return None;
        }
        let place = self.state.plan()?;
        Some(Look {
            place,
            front: self.desk.front().again(),
        })
    }

    // Whether the plan that was looked up is in force.
    fn is_in_force(&self, look: &Look<J>) -> bool
        ensures { IsTrue result ↔ IsInForce self.now look.now }
    {
        match self.state.plan() {
            Some(place) => place == look.place && look.front.begins(self.desk.front()),
            None => false,
        }
    }

    // Puts a margin ahead of the number, where that isn't below the one that there is.
    fn put_margin(&mut self, time: u64, number: u64) -> Result<(), LedgerFault>
        requires well { IsNone self.old.desk.fault }
        ensures plan { OnOk result (self.new.state.plan ≡ self.old.state.plan) }
        ensures later { OnOk result (IsPrefix self.old.desk.history self.new.desk.history) }
        ensures well { OnOk result (IsNone self.new.desk.fault) }
        ensures number { OnOk result (self.new.number ≡ self.old.number) }
        ensures below { OnOk result (number < self.new.state.margin) }
        ensures room { OnOk result (number + 1 < 2 ^ 64) }
        ensures grown { (self.new ≡ self.old) ⊎ HasGrown self.old.desk self.new.desk }
        ensures current { IsErrOf result LedgerFault.Stale → ⊥ }
    {
        if number < self.state.margin() {
            return Ok(());
        }
        if number > u64::MAX - AHEAD {
            return Err(LedgerFault::Journal(JournalFault::Full));
        }
        match self.margin(time, number + AHEAD) {
            Ok(_) => Ok(()),
            Err(fault) => Err(fault),
        }
    }

    // Puts an accepted message, of which it was seen how the plan in force routes it.
    fn put_accepted(
        &mut self,
        time: u64,
        number: u64,
        look: &Look<J>,
        to: Vec<u32>,
        bytes: &[u8],
    ) -> Result<Ticket<J>, LedgerFault>
        requires well { IsNone self.old.desk.fault }
        requires in_force { IsInForce self.old look.now }
        requires routed { InJournal (IsRouted R.routes look.now.place to.items bytes.now) J.before look.now.history }
        ensures { Puts J.before self.old self.new
            (timed time (events.Accepted number to.items bytes.now)) result }
    {
        // (what holds of both is known from here on)
        let (_place, _alloc) = (look.place, self.alloc);
        let event = Event::Accepted { number, to, bytes };
        self.put(&Entry { time, event })
    }

    /// Accepts a message for these receivers, by the plan that was looked up for it: a number is given to it, above all before.
    /// `Stale`: that plan isn't in force any more.
    ///
    /// Who accepts has seen that by the plan at that place these are the receivers of the message, whatever names are given later.
    pub fn accept(
        &mut self,
        time: u64,
        look: &Look<J>,
        to: Vec<u32>,
        bytes: &[u8],
    ) -> Result<(u64, Ticket<J>), LedgerFault>
        requires routed { InJournal (IsRouted R.routes look.now.place to.items bytes.now) J.before look.now.history }
        ensures put { IfOk result (λ x. IsAt x.1.place
            (spelling.spelled (timed time (events.Accepted x.0 to.items bytes.now))) (log_in J.before x.1.history)) }
        ensures seen { IfOk result (λ x. x.1.history ≡ self.new.desk.history) }
        ensures number { IfOk result (λ x. x.0 ≡ self.old.number) }
        ensures on { OnOk result (self.new.number ≡ self.old.number + 1) }
        ensures stale { IsNone self.old.desk.fault → (IsInForce self.old look.now → ⊥) →
            IsErrOf result LedgerFault.Stale }
        ensures same { IsErrOf result LedgerFault.Stale → self.new ≡ self.old }
        ensures faulty { IfSome self.old.desk.fault (λ fault. IsErrOf result (LedgerFault.Journal fault)) }
        ensures err { IfErr result (λ fault. (self.new ≡ self.old) ⊎ HasGrown self.old.desk self.new.desk) }
    {
        if let Some(fault) = self.desk.fault() {
            return Err(LedgerFault::Journal(fault));
        }
        if !self.is_in_force(look) {
            return Err(LedgerFault::Stale);
        }
        let number = self.number;
        if let Err(fault) = self.put_margin(time, number) {
            return Err(fault);
        }
        match self.put_accepted(time, number, look, to, bytes) {
            Ok(ticket) => Ok((number, ticket)),
            Err(fault) => Err(fault),
        }
    }

    // The ticket of the last margin, where its record isn't known to be on the disk.
    fn awaited_margin(&self) -> Option<Ticket<J>>
        ensures some { IfSome result (λ t. self.now.margin_at ≡ Some t) }
        ensures none { IsNone result → IfSome self.now.margin_at (λ t. t.place < self.now.desk.settled) }
    {
        let ticket = self.margin_at.as_ref()?;
        if self.desk.receipt(ticket).is_some() {
            return None;
        }
        Some(ticket.again())
    }

    /// A number for an answer that accepts nothing, above all before and below the margin.
    ///
    /// The ticket is that of the margin's record. It has to be on the disk before the answer goes out. None: it is, by what is known.
    pub fn refuse(&mut self, time: u64) -> Result<(u64, Option<Ticket<J>>), LedgerFault>
        ensures number { IfOk result (λ x. x.0 ≡ self.old.number) }
        ensures on { OnOk result (self.new.number ≡ self.old.number + 1) }
        ensures below { IfOk result (λ x. x.0 < self.new.state.margin) }
        ensures margin { IfOk result (λ x. IfSome x.1 (IsMargin J.before self.new.state.margin)) }
        ensures none { IfOk result (λ x. IsNone x.1 →
            IfSome self.new.margin_at (λ t. t.place < self.new.desk.settled)) }
        ensures later { OnOk result (IsPrefix self.old.desk.history self.new.desk.history) }
        ensures faulty { IfSome self.old.desk.fault (λ fault. IsErrOf result (LedgerFault.Journal fault)) }
        ensures err { IfErr result (λ fault. (self.new ≡ self.old) ⊎ HasGrown self.old.desk self.new.desk) }
    {
        if let Some(fault) = self.desk.fault() {
            return Err(LedgerFault::Journal(fault));
        }
        let number = self.number;
        if let Err(fault) = self.put_margin(time, number) {
            return Err(fault);
        }
        let ticket = self.awaited_margin();
        self.number = number + 1;
        Ok((number, ticket))
    }
}
