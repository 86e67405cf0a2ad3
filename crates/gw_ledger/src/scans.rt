//! What a forwarder finds in the files of the log: the next for its receiver.
ghost use Rattle.std.specs.Prelude.{◌≡◌, ◌+◌, ◌↔◌, ◌⊎◌, is_some, IfOk, IfSome, IsErrOf, IsNone, IsSome, IsTrue, OnOk, OnErr};
ghost use Rattle.gw_due.specs.Due.{is_among};
ghost use Rattle.gw_due.specs.Views as view;
ghost use Rattle.gw_ledger.specs.Backlogs.{IsLeftFrom};
ghost use Rattle.gw_ledger.specs.Finding.{InJournal, IsBegun, IsCurrent, OfSpelled, found_at, from_of, makes_due, was_passed, with_read};
ghost use Rattle.gw_ledger.specs.Putting.{Puts, timed};

use crate::fault::{LedgerFault, ScanFault};
use crate::ledger::Ledger;
use gw_due::laws::Rules;
use gw_due::{Entry, Event, How, ReadFault, Receiver, read};
use gw_journal::{Front, Naming, Storage, Ticket};
use std::marker::Model;

/// What was looked through for a receiver: from where what is left for it begins, up to another place. Nothing is due to it there.
pub struct Scan<J: Naming> {
    pub(crate) receiver: u32,
    pub(crate) from: u64,
    pub(crate) at: u64,
    pub(crate) front: Front<J>,
}

// (by hand, so that no crate above proves again how its fields are dropped)
impl<J: Naming> Drop for Scan<J> {
    fn drop(self) {
        let Scan {
            receiver: _,
            from: _,
            at: _,
            front: _,
        } = self;
    }
}

impl<J: Naming> Model for Scan<J> {
    ghost use Rattle.gw_ledger.specs.Finding.{IsScan, ScanState};

    ghost Value = { ScanState };

    ghost view = { λ s. record { receiver = s.receiver; from = s.from; at = s.at; history = s.front } };

    ghost invariant = { λ s. IsScan J.before (record { receiver = s.receiver; from = s.from; at = s.at; history = s.front }) };
}

impl<J: Naming> Scan<J> {
    /// The place of the record that is to be shown to it next.
    pub fn at(&self) -> u64
        ensures { result ≡ self.now.at }
    {
        self.at
    }
}

/// The next for a receiver, at its place in the log, if what was read of the log is what was written.
pub struct Found<J: Naming> {
    pub(crate) receiver: u32,
    pub(crate) from: u64,
    pub(crate) place: u64,
    pub(crate) front: Front<J>,
}

// (by hand, so that no crate above proves again how its fields are dropped)
impl<J: Naming> Drop for Found<J> {
    fn drop(self) {
        let Found {
            receiver: _,
            from: _,
            place: _,
            front: _,
        } = self;
    }
}

impl<J: Naming> Model for Found<J> {
    ghost use Rattle.gw_ledger.specs.Finding.{FoundState, IsFound};

    ghost Value = { FoundState };

    ghost view = { λ f. record { receiver = f.receiver; from = f.from; place = f.place; history = f.front } };

    ghost invariant = { λ f. IsFound J.before (record { receiver = f.receiver; from = f.from; place = f.place; history = f.front }) };
}

impl<J: Naming> Found<J> {
    ghost use Rattle.std.specs.Prelude.{◌≡◌};
    ghost use Rattle.gw_ledger.specs.Finding.{IsFound};

    /// The place at which it is due.
    pub fn place(&self) -> u64
        ensures place { result ≡ self.now.place }
        ensures found { IsFound J.before self.now }
    {
        self.place
    }

    /// The number of its receiver.
    pub fn receiver(&self) -> u32
        ensures { result ≡ self.now.receiver }
    {
        self.receiver
    }

    /// From where on it is the first that is due.
    pub fn from(&self) -> u64
        ensures { result ≡ self.now.from }
    {
        self.from
    }

    /// What was seen of the journal.
    pub fn front(&self) -> &Front<J>
        ensures { result.now ≡ self.now.history }
    {
        &self.front
    }
}

fn is_among(number: u32, to: &[u32]) -> bool
    ensures { result ≡ is_among number to.now }
{
    to.contains(&number)
}

// Whether the event makes something due to the receiver.
fn makes_due(number: u32, event: &Event<'_>) -> bool
    ensures { result ≡ makes_due number (view.event event.now) }
{
    match event {
        Event::Accepted { to, .. } => is_among(number, to),
        Event::Again { receiver, .. } => *receiver == number,
        _ => false,
    }
}

// Where what is left for the receiver of this number begins.
pub(crate) fn from_of(receivers: &[Receiver], number: u32) -> Option<u64>
    ensures { result ≡ from_of number receivers.now }
{
    for one in receivers {
        if one.number() == number {
            return Some(one.from());
        }
    }
    None
}

impl<J: Naming, S: Storage + Drop, R: Rules> Ledger<J, S, R> {
    /// Begins to look for the next for the receiver of this number, where it has a name.
    pub fn scan(&self, receiver: u32) -> Option<Scan<J>>
        ensures none { IsNone result → IsNone (from_of receiver self.now.state.receivers) }
        ensures scan { IfSome result (IsBegun self.now receiver) }
        // From there on all that is due to the receiver is left for it.
        ensures left { IsNone self.now.desk.fault → IfSome result (λ s.
            InJournal (IsLeftFrom s.receiver s.from) J.before s.history) }
    {
        let from = from_of(self.state.receivers(), receiver)?;
        Some(Scan {
            receiver,
            from,
            at: from,
            front: self.desk.front().again(),
        })
    }

    /// Goes over a record that was read from the files, at the place of the scan. It is what the journal has there: that is noted in its history,
    /// and what is found holds only if it is so.
    pub fn over(&mut self, scan: &mut Scan<J>, bytes: &[u8]) -> Result<Option<Found<J>>, ScanFault>
        // Whether the record makes something due to the receiver.
        ensures due { IfOk result (λ found. OfSpelled bytes.now (λ e.
            is_some found ≡ makes_due scan.old.receiver e.event)) }
        ensures found { IfOk result (λ found. IfSome found (λ f. f ≡ found_at scan.old self.new)) }
        ensures on { IfOk result (λ found. IsNone found →
            scan.new ≡ record scan.old { at = scan.old.at + 1; history = self.new.desk.history }) }
        ensures noted { OnOk result (self.new ≡ with_read scan.old.at bytes.now self.old) }
        ensures unreadable { IsErrOf result ScanFault.Unreadable →
            OfSpelled bytes.now (λ e. ⊥) }
        // An error leaves the scan as it was, and all that was put.
        ensures state { self.new.state ≡ self.old.state }
        ensures err { OnErr result (scan.new ≡ scan.old) }
        ensures failed { OnErr result ((self.new ≡ self.old) ⊎ IsSome self.new.desk.fault) }
    {
        let entry = match read(self.alloc, bytes) {
            Ok(entry) => entry,
            Err(ReadFault::Memory) => return Err(ScanFault::Memory),
            Err(ReadFault::Unreadable) => return Err(ScanFault::Unreadable),
        };
        if !scan.front.begins(self.desk.front()) {
            return Err(ScanFault::Stale);
        }
        if scan.at == u64::MAX || !self.note_read(scan.at, bytes) {
            return Err(ScanFault::Full);
        }
        let front = self.desk.front().again();
        if makes_due(scan.receiver, &entry.event) {
            return Ok(Some(Found {
                receiver: scan.receiver,
                from: scan.from,
                place: scan.at,
                front,
            }));
        }
        scan.at += 1;
        scan.front = front;
        Ok(None)
    }

    // Whether it was found in this journal, from where what is left for its receiver still begins.
    fn is_current(&self, found: &Found<J>) -> bool
        ensures { IsTrue result ↔ IsCurrent self.now found.now }
    {
        match from_of(self.state.receivers(), found.receiver) {
            Some(from) => from == found.from && found.front.begins(self.desk.front()),
            None => false,
        }
    }

    /// The receiver passed what was found for it. `Stale`: it passed that already, or the next was found in another way.
    pub fn pass(
        &mut self,
        time: u64,
        found: &Found<J>,
        how: How<'_>,
    ) -> Result<Ticket<J>, LedgerFault>
        ensures ok { OnOk result (IsCurrent self.old found.now) }
        ensures current { IsCurrent self.old found.now → Puts J.before self.old self.new
            (timed time (was_passed found.now (view.how how.entry))) result }
        ensures stale { IsNone self.old.desk.fault → (IsCurrent self.old found.now → ⊥) →
            IsErrOf result LedgerFault.Stale }
        ensures same { IsErrOf result LedgerFault.Stale → self.new ≡ self.old }
        ensures faulty { IfSome self.old.desk.fault (λ fault. IsErrOf result (LedgerFault.Journal fault)) }
    {
        if let Some(fault) = self.desk.fault() {
            return Err(LedgerFault::Journal(fault));
        }
        if !self.is_current(found) {
            return Err(LedgerFault::Stale);
        }
        let event = Event::Passed {
            receiver: found.receiver,
            place: found.place,
            how,
        };
        self.put(&Entry { time, event })
    }
}
