//! A gate with the book of the entries that were added to it.
ghost use Rattle.std.specs.Prelude.{◌≡◌, ◌+◌, ◌<◌};
ghost use Rattle.std.specs.Option.{option_map};
ghost use Rattle.gw_crew.specs.Seen.{note_seen};
ghost use Rattle.gw_run.specs.own.Steps.{added_by, counted_by};
ghost use Rattle.gw_gate.specs.Journal.{end};
ghost use Rattle.gw_run.specs.Passes.{CountedSeen};
ghost use Rattle.gw_gate.specs.Headline.{IsTranslated};
ghost use Rattle.gw_gate.specs.Lawful.{IsLawful};
ghost use Rattle.gw_gate.specs.Meaning.{Makes};
ghost use Rattle.gw_gate.specs.Values.{event_seen};
ghost use Rattle.gw_crew.specs.Solos.{StepsOnce};

use gw_crew::{Note, step};
use gw_gate::{Event, Gate, Reply};
use std::marker::Model;
use std::sync::ledger::{Book, Ledger, Share};

/// A gate whose passes have ended, with the book of the entries that they added.
/// Behind the lock it is the same gate, and no call changes how many entries it had before.
pub struct Counted<L: Ledger> {
    gate: Gate,
    since: usize,
    book: Book<L>,
}

// (by hand, so that no crate above proves again how its fields are dropped)
impl<L: Ledger> Drop for Counted<L> {
    fn drop(self) {
        let Counted {
            gate: _,
            since: _,
            book: _,
        } = self;
    }
}

impl<L: Ledger> Model for Counted<L> {
    ghost Value = { CountedSeen };

    ghost view = { λ c. record { gate = c.gate; since = c.since; total = c.book.total } };

    ghost invariant = { λ c. c.since + c.book.total ≡ end c.gate };
}

// How many entries a note is the receipt of.
fn entries_in(note: &Option<Note>) -> u64
    ensures { result ≡ added_by (option_map note_seen note.now) }
{
    match note {
        Some(Note::Added(_)) => 1,
        _ => 0,
    }
}

impl<L: Ledger> Counted<L> {
    // The book counts the entries that are added from here on.
    pub(crate) fn begin(gate: Gate, book: Book<L>) -> Self
        requires { book.total ≡ 0 }
        ensures { result ≡ record { gate = gate; since = end gate; total = 0 } }
    {
        let since = gate.end() as usize;
        Counted { gate, since, book }
    }

    // One step of the gate, with its note. An entry is counted in the book and in the share.
    #[tactic(auto, using(crate::proofs::Counting::step_grows))]
    pub(crate) fn step(
        &mut self,
        event: Event,
        share: &mut Share<L>,
    ) -> Result<(Reply, Option<Note>), Event>
        requires { 0 < share.old.parts }
        ensures step { StepsOnce self.old.gate (event_seen event) result self.new.gate }
        ensures lawful { IsLawful (IsTranslated Makes) self.old.gate }
        ensures since { self.new.since ≡ self.old.since }
        ensures parts { share.new.parts ≡ share.old.parts }
        ensures amount { share.new.amount ≡ share.old.amount + counted_by result }
    {
        let Counted { gate, book, .. } = self;
        // (for the clause that its journal is lawful)
        gate.journal();
        let (reply, note) = step(gate, event)?;
        book.add(share, entries_in(&note));
        Ok((reply, note))
    }

    /// The gate. It takes no memory.
    pub fn gate(&self) -> &Gate
        ensures { result.now ≡ self.now.gate }
    {
        &self.gate
    }

    /// The gate, without the book. It takes no memory.
    pub fn into_gate(self) -> Gate
        ensures { result ≡ self.gate }
    {
        let Counted {
            gate,
            since: _,
            book: _,
        } = self;
        gate
    }

    /// Where the share has every part of the ledger, it counts each entry that was added. It takes no memory.
    pub fn audit(&mut self, share: &mut Share<L>)
        ensures same { self.new ≡ self.old }
        ensures whole { share.old.parts ≡ L.parts → self.old.since + share.old.amount ≡ end self.old.gate }
    {
        self.book.audit(share);
    }

    /// How many entries were made before the passes, over all chapters; the book has the others. It takes no memory.
    pub fn since(&self) -> usize
        ensures since { result ≡ self.now.since }
        ensures counted { result + self.now.total ≡ end self.now.gate }
    {
        self.since
    }
}
