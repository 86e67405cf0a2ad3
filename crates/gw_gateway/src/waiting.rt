//! What the answers of a sender wait for.
ghost use Rattle.std.specs.Prelude.{◌≡◌, ◌<◌, ◌+◌, IfSome, None};
ghost use mathlib.Core.List.{IsPrefix};
ghost use Rattle.gw_journal.specs.Logs.{Confirms};
ghost use Rattle.gw_gateway.specs.Waiting.{AllStored, GoesOn, IsPut, seen_in};

use gw_journal::{Front, Naming, Receipt, Ticket};
use std::marker::Model;

/// What the answers of a sender wait for: what was seen of the journal, and the last record that has to be on the disk.
pub struct Waiting<J: Naming> {
    front: Option<Front<J>>,
    last: Option<Ticket<J>>,
    waits: bool,
}

// (by hand, so that no crate above proves again how its fields are dropped)
impl<J: Naming> Drop for Waiting<J> {
    fn drop(self) {
        let Waiting {
            front: _,
            last: _,
            waits: _,
        } = self;
    }
}

impl<J: Naming> Model for Waiting<J> {
    ghost use Rattle.gw_gateway.specs.Waiting.{IsWaiting, WaitState, waiting};

    ghost Value = { WaitState };

    ghost view = { λ w. waiting w.front w.last };

    ghost invariant = { λ w. IsWaiting J.before w.front w.last w.waits };
}

// The longer of two beginnings of the history.
fn longer<J: Naming>(seen: &Option<Front<J>>, front: &Front<J>) -> Front<J>
    ensures seen { IsPrefix (seen_in seen.now) result }
    ensures front { IsPrefix front.now result }
{
    match seen {
        Some(seen) => {
            if seen.begins(front) {
                return front.again();
            }
            seen.again()
        }
        None => front.again(),
    }
}

impl<J: Naming> Waiting<J> {
    // Nothing was seen, and nothing is waited for.
    pub(crate) fn new() -> Waiting<J> {
        Waiting {
            front: None,
            last: None,
            waits: false,
        }
    }

    // More was seen of the journal.
    pub(crate) fn see(&mut self, front: &Front<J>)
        ensures on { GoesOn self.old self.new }
        ensures seen { IsPrefix front.now self.new.history }
        ensures upto { self.new.upto ≡ self.old.upto }
    {
        self.front = Some(longer(&self.front, front));
    }

    // Answers wait for this record too.
    pub(crate) fn wait_for(&mut self, ticket: &Ticket<J>)
        requires put { IsPut J.before ticket.now }
        ensures on { GoesOn self.old self.new }
        ensures seen { IsPrefix ticket.now.history self.new.history }
        ensures below { ticket.now.place < self.new.upto }
    {
        self.see(ticket.front());
        let later = match &self.last {
            Some(last) => last.place() > ticket.place(),
            None => false,
        };
        if !later {
            self.last = Some(ticket.again());
        }
        self.waits = true;
    }

    // The record that is waited for, if there is one.
    pub(crate) fn awaited(&self) -> Option<Ticket<J>>
        ensures none { result ≡ None → AllStored J.before self.now }
        ensures last { IfSome result (λ ticket. self.now.upto ≡ ticket.place + 1) }
        ensures put { IfSome result (IsPut J.before) }
    {
        if !self.waits {
            return None;
        }
        let last = self.last.as_ref()?;
        Some(last.again())
    }

    // What is waited for is on the disk.
    pub(crate) fn settle(&mut self, ticket: &Ticket<J>, receipt: &Receipt<J>)
        requires last { self.old.upto ≡ ticket.now.place + 1 }
        requires put { IsPut J.before ticket.now }
        requires stored { Confirms J.before ticket.now receipt.now }
        ensures on { GoesOn self.old self.new }
        ensures stored { AllStored J.before self.new }
    {
        self.see(receipt.front());
        self.waits = false;
    }
}
