//! What is left for a receiver, and that what was found in the log's files is the first of it.
ghost use Rattle.std.specs.Prelude.{◌≡◌, ◌<◌, ◌∷◌, [], IfOk, IfSome, IsErrOf, IsNone, IsSome, IsTrue, OnOk};
ghost use Rattle.gw_due.specs.Spelling as spelling;
ghost use Rattle.gw_due.specs.Views as view;
ghost use Rattle.gw_journal.specs.Logs.{IsAt, log_in};
ghost use Rattle.gw_ledger.specs.Backlogs.{BeginsWith, GoesOn, HasPassedWithin, IsFirstLeft, WasFirst, is_at_rest, left_from};
ghost use Rattle.gw_ledger.specs.Finding.{InJournal, from_of, was_passed};
ghost use Rattle.gw_ledger.specs.Putting.{timed};
ghost use Rattle.gw_ledger.specs.own.Steps.{IsFirstFrom};

use crate::fault::LedgerFault;
use crate::ledger::Ledger;
use crate::scans::{Found, Scan, from_of};
use gw_due::laws::Rules;
use gw_due::{How, Receiver};
use gw_journal::{Front, Naming, Storage, Ticket};
use std::marker::Model;

/// What is left for a receiver, as it was seen of a journal: what is due to it from a place on, if what was read of the log is what was written.
pub struct Backlog<J: Naming> {
    receiver: u32,
    from: u64,
    // all that the receiver passed, it passed by the first records of the log, as many as this
    count: u64,
    front: Front<J>,
}

// (by hand, so that no crate above proves again how its fields are dropped)
impl<J: Naming> Drop for Backlog<J> {
    fn drop(self) {
        let Backlog {
            receiver: _,
            from: _,
            count: _,
            front: _,
        } = self;
    }
}

impl<J: Naming> Model for Backlog<J> {
    ghost use Rattle.gw_ledger.specs.Backlogs.{BacklogState, HasPassedWithin, IsBacklog};
    ghost use Rattle.gw_ledger.specs.Finding.{InJournal};

    ghost Value = { BacklogState };

    ghost view = { λ b. record { receiver = b.receiver; from = b.from; history = b.front } };

    ghost invariant = { λ b. IsBacklog J.before (record { receiver = b.receiver; from = b.from; history = b.front })
        × InJournal (HasPassedWithin b.receiver b.count) J.before b.front };
}

impl<J: Naming> Backlog<J> {
    ghost use Rattle.std.specs.Prelude.{◌≡◌};
    ghost use Rattle.gw_ledger.specs.Backlogs.{IsBacklog, scan_of};

    /// The number of the receiver.
    pub fn receiver(&self) -> u32
        ensures { result ≡ self.now.receiver }
    {
        self.receiver
    }

    /// The place from which on what is due to it is left.
    pub fn from(&self) -> u64
        ensures from { result ≡ self.now.from }
        ensures left { IsBacklog J.before self.now }
    {
        self.from
    }

    /// What was seen of the journal.
    pub fn front(&self) -> &Front<J>
        ensures { result.now ≡ self.now.history }
    {
        &self.front
    }

    /// Begins to look for the first of it.
    pub fn scan(&self) -> Scan<J>
        ensures { result ≡ scan_of self.now }
    {
        Scan {
            receiver: self.receiver,
            from: self.from,
            at: self.from,
            front: self.front.again(),
        }
    }
}

// From where on what is due to the receiver of this number is left. `next`: how many records were put.
fn left_from(receivers: &[Receiver], number: u32, next: u64) -> u64
    ensures { result ≡ left_from number next receivers.now }
{
    for one in receivers {
        if one.number() == number {
            if one.left() == 0 {
                return next;
            }
            return one.from();
        }
    }
    next
}

// Whether nothing is left for the receiver of this number, and what it passed stands before this place.
fn is_at_rest(receivers: &[Receiver], number: u32, place: u64) -> bool
    ensures { result ≡ is_at_rest number place receivers.now }
{
    for one in receivers {
        if one.number() == number {
            return one.left() == 0 && one.from() <= place;
        }
    }
    true
}

impl<J: Naming, S: Storage + Drop, R: Rules> Ledger<J, S, R> {
    /// What is left for the receiver of this number. None: there was a fault.
    pub fn backlog(&self, receiver: u32) -> Option<Backlog<J>>
        ensures none { IsNone result → IsSome self.now.desk.fault }
        ensures receiver { IfSome result (λ b. b.receiver ≡ receiver) }
        ensures from { IfSome result (λ b. b.from ≡ left_from receiver self.now.state.next self.now.state.receivers) }
        ensures seen { IfSome result (λ b. b.history ≡ self.now.desk.history) }
    {
        if self.desk.fault().is_some() {
            return None;
        }
        Some(Backlog {
            receiver,
            from: left_from(self.state.receivers(), receiver, self.state.next()),
            count: self.state.next(),
            front: self.desk.front().again(),
        })
    }

    /// What is left, as it is seen now, where that is nothing, and nothing was passed since. It begins behind all that was put.
    pub fn at_rest(&self, backlog: &Backlog<J>) -> Option<Backlog<J>>
        ensures on { IfSome result (λ now. GoesOn J.before backlog.now now []) }
        ensures seen { IfSome result (λ now. now.history ≡ self.now.desk.history) }
    {
        if self.desk.fault().is_some() || !backlog.front.begins(self.desk.front()) {
            return None;
        }
        if !is_at_rest(self.state.receivers(), backlog.receiver, backlog.from) {
            return None;
        }
        self.backlog(backlog.receiver)
    }

    /// Whether all that the receiver had passed is on the disk, and what was found for it.
    pub fn is_stored(&self, backlog: &Backlog<J>, found: &Found<J>) -> bool
        ensures found { IsTrue result → found.now.place < (log_in J.before self.now.desk.history).synced }
        ensures passed { IsTrue result → InJournal
            (HasPassedWithin backlog.now.receiver (log_in J.before self.now.desk.history).synced) J.before backlog.now.history }
    {
        if !self.desk.is_stored(found.place) {
            return false;
        }
        if backlog.count == 0 {
            return true;
        }
        self.desk.is_stored(backlog.count - 1)
    }

    // Where what is left for the receiver begins by the state, if what was found is the first of it, and nothing was passed since.
    // It is the first by what is on the disk, too.
    fn first_from(&self, backlog: &Backlog<J>, found: &Found<J>) -> Option<u64>
        ensures first { IfSome result (λ from. IsFirstFrom J.before backlog.now found.now.place from self.now.desk.history) }
        ensures well { IsSome result → IsNone self.now.desk.fault }
        ensures receiver { IsSome result → found.now.receiver ≡ backlog.now.receiver }
        ensures from { IfSome result (λ from. from_of backlog.now.receiver self.now.state.receivers ≡ Some from) }
    {
        if self.desk.fault().is_some() || !backlog.front.begins(self.desk.front()) {
            return None;
        }
        if found.receiver != backlog.receiver || found.from != backlog.from {
            return None;
        }
        if !found.front.begins(self.desk.front()) {
            return None;
        }
        if !self.is_stored(backlog, found) {
            return None;
        }
        match from_of(self.state.receivers(), backlog.receiver) {
            Some(from) if backlog.from <= from && from <= found.place => Some(from),
            _ => None,
        }
    }

    /// What is left, as it is seen now, where what was found is the first of it, and nothing was passed since.
    /// None: it isn't so, or not yet on the disk, or there was a fault.
    pub fn begins_with(&self, backlog: &Backlog<J>, found: &Found<J>) -> Option<Backlog<J>>
        ensures first { IfSome result (λ now. BeginsWith J.before backlog.now now found.now.place) }
        ensures from { IfSome result (λ now. now.from ≡ backlog.now.from) }
        ensures seen { IfSome result (λ now. now.history ≡ self.now.desk.history) }
        ensures receiver { IsSome result → found.now.receiver ≡ backlog.now.receiver }
    {
        let _from = self.first_from(backlog, found)?;
        Some(Backlog {
            receiver: backlog.receiver,
            from: backlog.from,
            count: backlog.count,
            front: self.desk.front().again(),
        })
    }

    /// The receiver passed what was found for it, where that is the first that is left, and nothing was passed since. What is left then.
    /// `Stale`: it isn't so, or not yet on the disk.
    pub fn pass_first(
        &mut self,
        time: u64,
        backlog: &Backlog<J>,
        found: &Found<J>,
        how: How<'_>,
    ) -> Result<(Ticket<J>, Backlog<J>), LedgerFault>
        ensures passed { IfOk result (λ x. GoesOn J.before backlog.now x.1 (found.now.place ∷ [])) }
        ensures receiver { OnOk result (found.now.receiver ≡ backlog.now.receiver) }
        ensures first { OnOk result (InJournal (IsFirstLeft backlog.now.receiver found.now.place) J.before self.old.desk.history) }
        ensures kept { IfOk result (λ x. WasFirst J.before backlog.now.receiver found.now.place x.1.history) }
        ensures there { IfOk result (λ x. IsAt x.0.place
            (spelling.spelled (timed time (was_passed found.now (view.how how.entry)))) (log_in J.before x.0.history)) }
        ensures seen { IfOk result (λ x. x.1.history ≡ x.0.history) }
        ensures same { IsErrOf result LedgerFault.Stale → self.new ≡ self.old }
        ensures faulty { IfSome self.old.desk.fault (λ fault. IsErrOf result (LedgerFault.Journal fault)) }
    {
        if let Some(fault) = self.desk.fault() {
            return Err(LedgerFault::Journal(fault));
        }
        let Some(from) = self.first_from(backlog, found) else {
            return Err(LedgerFault::Stale);
        };
        let current = Found {
            receiver: found.receiver,
            from,
            place: found.place,
            front: self.desk.front().again(),
        };
        let ticket = self.pass(time, &current, how)?;
        match self.backlog(backlog.receiver) {
            Some(left) => Ok((ticket, left)),
            None => unreachable!(),
        }
    }
}
