//! The gate: a journal, and the one step by which it grows.
ghost use Rattle.std.specs.Prelude.{◌≡◌, ℕ, true, IfOk, IfErr};
ghost use Rattle.std.specs.Arc.{arc_value};
ghost use Rattle.gw_gate.specs.Seen.{plan_seen};
ghost use Rattle.gw_gate.specs.Journal.{opening, from, end};
ghost use Rattle.gw_gate.specs.Chapters.{CanStart};
ghost use Rattle.gw_gate.specs.Replies.{Steps, StepsNoted};
ghost use Rattle.gw_gate.specs.Lawful.{IsLawful, IsEvent};
ghost use Rattle.gw_gate.specs.Headline.{InOrder, IsTranslated, Numbered, VersionsRise};
ghost use Rattle.gw_gate.specs.Meaning.{Makes};
ghost use Rattle.gw_gate.specs.Entries.{entries_seen, start_seen};
ghost use Rattle.gw_gate.specs.Values.{event_seen, answer_seen, noted_seen};

use crate::books::Books;
use crate::chapter::Start;
use crate::event::{Entry, Event, Reply};
use crate::plans::{admitted_by_plan, made_by_plan};
use gw_plan::Plan;
use std::alloc::{AllocError, Global};
use std::marker::Model;
use std::sync::Arc;

/// A gate: the one place to which all events of a service come, one at a time. It enters each change in its journal, which is lawful by
/// its type.
pub struct Gate {
    books: Books,
}

// Written out, so that no crate above proves again how its parts are dropped.
impl Drop for Gate {
    fn drop(self) {
        let Gate { books: _ } = self;
    }
}

impl Model for Gate {
    ghost use Rattle.gw_gate.specs.Journal.{Journal};
    ghost use Rattle.gw_gate.specs.Lawful.{IsLawful};
    ghost use Rattle.gw_gate.specs.Headline.{IsTranslated};
    ghost use Rattle.gw_gate.specs.Meaning.{Makes};

    ghost Value = { Journal };

    ghost view = { λ g. g.books };

    ghost invariant = { λ g. IsLawful (IsTranslated Makes) g.books };
}

// By their types, what arrives was admitted by a plan, and what is put is what a plan makes.
fn known(event: &Event)
    ensures { IsEvent (IsTranslated Makes) (event_seen event.now) }
{
    match event {
        Event::Arrive(conforming) => admitted_by_plan(conforming),
        Event::Put { translated, .. } => made_by_plan(translated),
        _ => {}
    }
}

impl Gate {
    /// A gate that opens with this plan, as version 0. The one error is an allocation failure, which returns the plan.
    pub fn begin(alloc: Global, plan: Arc<Plan>) -> Result<Self, Arc<Plan>>
        ensures gate { IfOk result (λ g. g ≡ from (opening (plan_seen (arc_value plan)))) }
        ensures back { IfErr result (λ p. p ≡ plan) }
    {
        match Gate::begin_from(alloc, Start::opening(plan)) {
            Ok(gate) => Ok(gate),
            Err(Start { plan, .. }) => Err(plan),
        }
    }

    /// A gate whose journal is empty and starts so: its numbers go on from these. The one error is an allocation failure, which returns the start.
    pub fn begin_from(alloc: Global, start: Start) -> Result<Self, Start>
        requires { CanStart (start_seen start) }
        ensures gate { IfOk result (λ g. g ≡ from (start_seen start)) }
        ensures back { IfErr result (λ s. s ≡ start) }
    {
        match Arc::try_clone(&start.plan) {
            Ok(plan) => Ok(Gate {
                books: Books::open(alloc, start, plan),
            }),
            Err(_) => Err(start),
        }
    }

    /// Another gate, whose journal is empty and starts where this one's does. So behind a cut the numbers go on in it, as they would in this one.
    /// The one error is an allocation failure.
    pub fn begin_beside(&self, alloc: Global) -> Result<Self, AllocError>
        ensures { IfOk result (λ g. g ≡ from self.now.start) }
    {
        match Gate::begin_from(alloc, self.books.start().try_clone()?) {
            Ok(gate) => Ok(gate),
            Err(_) => Err(AllocError),
        }
    }

    /// The entries so far. The journal is lawful: what each receiver was sent is a beginning of what is due to it, in order and each once.
    /// Each translation was made by the plan under which its message was accepted. It takes no memory.
    pub fn journal(&self) -> &[Entry]
        ensures entries { entries_seen result.now ≡ self.now.entries }
        ensures lawful { IsLawful (IsTranslated Makes) self.now }
        ensures in_order { (r : ℕ) → InOrder Makes self.now r }
        ensures versions { VersionsRise self.now }
        ensures numbered { Numbered self.now }
    {
        self.books.journal()
    }

    /// Where the open journal starts. It takes no memory.
    pub fn start(&self) -> &Start
        ensures { start_seen result.now ≡ self.now.start }
    {
        self.books.start()
    }

    /// The plan that the open journal starts with. It takes no memory.
    pub fn opening(&self) -> &Arc<Plan>
        ensures { plan_seen (arc_value result.now) ≡ self.now.start.plan }
    {
        &self.books.start().plan
    }

    /// The number of entries in all, those of closed journals included. It takes no memory.
    pub fn end(&self) -> u64
        ensures { result ≡ end self.now }
    {
        self.books.end()
    }

    /// Makes one step: returns the reply to the event, and adds its entry. The one error is an allocation failure, which returns the event and
    /// changes nothing. Only a reply that adds an entry, Current and Closed can fail so.
    ///
    /// The time doesn't depend on the journal's length, except for finding a number among those due.
    pub fn step(&mut self, event: Event) -> Result<Reply, Event>
        ensures { Steps self.old (event_seen event) (answer_seen result) self.new }
    {
        known(&event);
        match self.books.step(event, false) {
            Ok((reply, _)) => Ok(reply),
            Err(event) => Err(event),
        }
    }

    /// The same step, with a copy of the entry that it adds. The copy is made before anything changes.
    pub fn step_noted(&mut self, event: Event) -> Result<(Reply, Option<Entry>), Event>
        ensures { StepsNoted true self.old (event_seen event) (noted_seen result) self.new }
    {
        known(&event);
        self.books.step(event, true)
    }
}
