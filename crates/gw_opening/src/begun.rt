//! A log that is open, and the state of all that stands in it.
ghost use Rattle.std.specs.Prelude.{◌≡◌, ◌↔◌, ◌≤◌, ◌^◌, [], max, IsNone};

use crate::found::{Found, Had};
use gw_due::State;
use gw_due::laws::Rules;
use gw_journal::{Naming, Opened, Storage, Stored};
use gw_ledger::{Checkpoints, Ledger};
use gw_log::{Calls, Recorded};
use std::alloc::Global;
use std::marker::Model;

/// The log of a folder, open, and the state of all its records.
pub struct Begun<F: Found<R>, R: Rules, C: Calls + Drop> {
    pub(crate) stored: Stored<Checkpoints, Recorded<C, Had<F, R>>>,
    pub(crate) state: State,
}

// (by hand, so that no crate above proves again how its fields are dropped)
impl<F: Found<R>, R: Rules, C: Calls + Drop> Drop for Begun<F, R, C> {
    fn drop(self) {
        let Begun {
            stored: _,
            state: _,
        } = self;
    }
}

impl<F: Found<R>, R: Rules, C: Calls + Drop> Model for Begun<F, R, C> {
    ghost use Rattle.std.specs.Prelude.{List};
    ghost use Rattle.gw_log.specs.History as history;
    ghost use Rattle.gw_opening.specs.Begun.{BegunState, IsBegun};
    ghost use Rattle.gw_opening.specs.own.Alike.{before_of};

    ghost Value = { BegunState (List history.Event) };

    ghost view = { λ b. record { stored = b.stored; state = b.state; before = before_of F.entries b.state } };

    ghost invariant = { λ b.
        IsBegun R.routes (history.IsHonest F.files) (history.seen_after F.files) (history.may_after F.files)
        (record { stored = b.stored; state = b.state; before = before_of F.entries b.state }) };
}

impl<F: Found<R>, R: Rules, C: Calls + Drop> Begun<F, R, C> {
    /// The state of all records.
    pub fn state(&self) -> &State
        ensures { result.now ≡ self.now.state }
    {
        &self.state
    }

    /// The number of the log's last file, and how many of its bytes count.
    pub fn tail(&self) -> (u64, usize) {
        self.stored.tail()
    }

    /// The ledger of a journal that goes on from the log. Its next file is begun where the last one has more bytes than `limit`.
    pub fn into_ledger<J: Naming>(
        self,
        alloc: Global,
        opened: Opened,
        limit: usize,
    ) -> Ledger<J, Stored<Checkpoints, Recorded<C, Had<F, R>>>, R>
        requires book { opened.seen.book ≡ J.book }
        requires before { J.before ≡ self.before }
        ensures history { result.desk.history ≡ [] }
        ensures state { result.state ≡ self.state }
        ensures limit { result.limit ≡ limit }
        // All numbers below the margin may have been given.
        ensures number { result.number ≡ max 1 self.state.margin }
        ensures well { IsNone result.desk.fault ↔ self.state.next ≤ 2 ^ 62 }
    {
        let Begun { stored, state } = self;
        Ledger::open(alloc, opened, stored, state, limit)
    }
}
