//! Where a journal starts, and a journal that was closed.

use crate::event::Entry;
use gw_plan::Plan;
use std::alloc::AllocError;
use std::marker::Model;
use std::sync::Arc;

/// Where a journal starts: the version and the plan in force, and the numbers of acceptances, arrivals and entries before it.
#[derive(Drop)]
pub struct Start {
    pub version: u64,
    pub plan: Arc<Plan>,
    pub acceptances: u64,
    pub arrivals: u64,
    pub entries: u64,
}

// A journal is closed, and starts, only up to this number of entries in all chapters.
pub(crate) const MOST_IN_ALL: u64 = 9_000_000_000_000_000_000;

impl Start {
    ghost use Rattle.std.specs.Prelude.{◌↔◌, ◌≡◌, IfOk, IsTrue};
    ghost use Rattle.std.specs.Arc.{arc_value};
    ghost use Rattle.gw_gate.specs.Chapters.{CanStart};
    ghost use Rattle.gw_gate.specs.Entries.{start_seen};
    ghost use Rattle.gw_gate.specs.Journal.{opening};
    ghost use Rattle.gw_gate.specs.Seen.{plan_seen};

    /// The start of a gate that opens with this plan. It takes no memory.
    pub fn opening(plan: Arc<Plan>) -> Start
        ensures seen { start_seen result ≡ opening (plan_seen (arc_value plan)) }
        ensures plan { result.plan ≡ plan }
    {
        Start {
            version: 0,
            plan,
            acceptances: 0,
            arrivals: 0,
            entries: 0,
        }
    }

    /// Whether a journal can start so. There were at least as many entries as acceptances, as arrivals, and as plans that were swapped in;
    /// and there were at most 9,000,000,000,000,000,000. It takes no memory.
    pub fn can_start(&self) -> bool
        ensures { IsTrue result ↔ CanStart (start_seen self.now) }
    {
        self.version <= self.entries
            && self.acceptances <= self.entries
            && self.arrivals <= self.entries
            && self.entries <= MOST_IN_ALL
    }

    // The same start. The one error is an allocation failure.
    pub(crate) fn try_clone(&self) -> Result<Start, AllocError>
        ensures { IfOk result (λ s. start_seen s ≡ start_seen self.now) }
    {
        Ok(Start {
            version: self.version,
            plan: Arc::try_clone(&self.plan)?,
            acceptances: self.acceptances,
            arrivals: self.arrivals,
            entries: self.entries,
        })
    }
}

/// A journal that was closed. By its type it is lawful, and nothing in it was left undone.
pub struct Chapter {
    start: Start,
    entries: Vec<Entry>,
}

// Written out, so that no crate above proves again how its parts are dropped.
impl Drop for Chapter {
    fn drop(self) {
        let Chapter {
            start: _,
            entries: _,
        } = self;
    }
}

impl Model for Chapter {
    ghost use Rattle.gw_gate.specs.Journal.{Journal};
    ghost use Rattle.gw_gate.specs.Entries.{entries_seen, start_seen};
    ghost use Rattle.gw_gate.specs.Closing.{IsChapter};

    ghost Value = { Journal };

    ghost view = { λ c. record { start = start_seen c.start; entries = entries_seen c.entries.items } };

    ghost invariant = { λ c. IsChapter (record { start = start_seen c.start; entries = entries_seen c.entries.items }) };
}

impl Chapter {
    ghost use Rattle.std.specs.Prelude.{◌≡◌};
    ghost use Rattle.gw_gate.specs.Entries.{entries_seen, start_seen};
    ghost use Rattle.gw_gate.specs.Closing.{IsChapter};

    // The chapter of a journal that a gate closed.
    pub(crate) fn of(start: Start, entries: Vec<Entry>) -> Self
        requires { IsChapter (record { start = start_seen start; entries = entries_seen entries.items }) }
        ensures { result ≡ record { start = start_seen start; entries = entries_seen entries.items } }
    {
        Chapter { start, entries }
    }

    /// Where it starts. It takes no memory.
    pub fn start(&self) -> &Start
        ensures { start_seen result.now ≡ self.now.start }
    {
        &self.start
    }

    /// Its entries. It is lawful, and nothing was pending when it was closed. It takes no memory.
    pub fn entries(&self) -> &[Entry]
        ensures entries { entries_seen result.now ≡ self.now.entries }
        ensures closed { IsChapter self.now }
    {
        self.entries.as_slice()
    }
}
