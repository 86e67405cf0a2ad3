//! Messages that are due once more.
ghost use Rattle.std.specs.Prelude.{◌≡◌, ◌↔◌, ◌⊎◌, is_some, IfOk, IfSome, IsErrOf, IsNone, IsSome, IsTrue, OnOk, OnErr};
ghost use Rattle.gw_due.specs.Events as events;
ghost use Rattle.gw_due.specs.Views as view;
ghost use Rattle.gw_ledger.specs.Finding.{IsSeenBy, OfSpelled, is_acceptance, with_read};
ghost use Rattle.gw_ledger.specs.Putting.{Puts, timed};

use crate::fault::{LedgerFault, ScanFault};
use crate::ledger::Ledger;
use gw_due::laws::Rules;
use gw_due::{Entry, Event, ReadFault, read};
use gw_journal::{Front, Naming, Storage, Ticket};
use std::marker::Model;

/// A message that was accepted, at its place in the log, if what was read of the log is what was written.
pub struct Message<J: Naming> {
    place: u64,
    front: Front<J>,
}

// (by hand, so that no crate above proves again how its fields are dropped)
impl<J: Naming> Drop for Message<J> {
    fn drop(self) {
        let Message { place: _, front: _ } = self;
    }
}

impl<J: Naming> Model for Message<J> {
    ghost use Rattle.gw_ledger.specs.Finding.{IsMessage, MessageState};

    ghost Value = { MessageState };

    ghost view = { λ m. record { place = m.place; history = m.front } };

    ghost invariant = { λ m. IsMessage J.before (record { place = m.place; history = m.front }) };
}

fn is_acceptance(event: &Event<'_>) -> bool
    ensures { result ≡ is_acceptance (view.event event.now) }
{
    match event {
        Event::Accepted { .. } => true,
        _ => false,
    }
}

impl<J: Naming, S: Storage + Drop, R: Rules> Ledger<J, S, R> {
    /// The message of the record that was read from the files, at this place. It is what the journal has there: that is noted in its history.
    pub fn message(&mut self, place: u64, bytes: &[u8]) -> Result<Option<Message<J>>, ScanFault>
        // Whether the record is an acceptance.
        ensures accepted { IfOk result (λ found. OfSpelled bytes.now (λ e.
            is_some found ≡ is_acceptance e.event)) }
        ensures found { IfOk result (λ found. IfSome found (λ m. m ≡ record { place = place; history = self.new.desk.history })) }
        ensures noted { OnOk result (self.new ≡ with_read place bytes.now self.old) }
        ensures unreadable { IsErrOf result ScanFault.Unreadable →
            OfSpelled bytes.now (λ e. ⊥) }
        // An error leaves all that was put.
        ensures state { self.new.state ≡ self.old.state }
        ensures failed { OnErr result ((self.new ≡ self.old) ⊎ IsSome self.new.desk.fault) }
    {
        let entry = match read(self.alloc, bytes) {
            Ok(entry) => entry,
            Err(ReadFault::Memory) => return Err(ScanFault::Memory),
            Err(ReadFault::Unreadable) => return Err(ScanFault::Unreadable),
        };
        if !self.note_read(place, bytes) {
            return Err(ScanFault::Full);
        }
        if !is_acceptance(&entry.event) {
            return Ok(None);
        }
        Ok(Some(Message {
            place,
            front: self.desk.front().again(),
        }))
    }

    // Whether it was seen in this journal.
    fn has_seen(&self, message: &Message<J>) -> bool
        ensures { IsTrue result ↔ IsSeenBy self.now message.now }
    {
        message.front.begins(self.desk.front())
    }

    /// The message is due to a receiver once more. `Stale`: it was seen in a journal that goes on from this one.
    pub fn again(
        &mut self,
        time: u64,
        receiver: u32,
        message: &Message<J>,
    ) -> Result<Ticket<J>, LedgerFault>
        ensures current { IsSeenBy self.old message.now → Puts J.before self.old self.new
            (timed time (events.Again receiver message.now.place)) result }
        ensures stale { IsNone self.old.desk.fault → (IsSeenBy self.old message.now → ⊥) →
            IsErrOf result LedgerFault.Stale }
        ensures same { IsErrOf result LedgerFault.Stale → self.new ≡ self.old }
        ensures faulty { IfSome self.old.desk.fault (λ fault. IsErrOf result (LedgerFault.Journal fault)) }
    {
        if let Some(fault) = self.desk.fault() {
            return Err(LedgerFault::Journal(fault));
        }
        if !self.has_seen(message) {
            return Err(LedgerFault::Stale);
        }
        let event = Event::Again {
            receiver,
            place: message.place,
        };
        self.put(&Entry { time, event })
    }
}
