//! The chapters of a gate, the open one last, and the first numbers of a chapter's entries at which a note fits it.
ghost use Rattle.std.specs.Prelude.{◌≡◌, ◌+◌, ◌++◌, ◌∷◌, ◌↔◌, [], IfOk, IsTrue, bytes_eq, slice_get, ◌<◌, ◌^◌};
ghost use Rattle.std.specs.Option.{option_map};
ghost use Rattle.std.specs.Arc.{arc_value};
ghost use Rattle.gw_gate.specs.Journal.{end, start_after, Journal};
ghost use Rattle.gw_gate.specs.Seen.{plan_seen};
ghost use Rattle.gw_crew.specs.Seen.{note_seen};
ghost use Rattle.gw_audit.specs.Settled.{GoOn, first_of, last_end};
ghost use Rattle.gw_audit.specs.own.Joins.{is_suited, plans_at, suits, Tells, IsFirstIn, in_force};
ghost use Rattle.gw_audit.specs.own.Queues.{queue_at};
ghost use Rattle.gw_gate.specs.own.Books.{journal_of};
ghost use Rattle.gw_gate.specs.Entries.{entries_seen, start_seen};
ghost use Rattle.gw_gate.specs.Headline.{IsTranslated};
ghost use Rattle.gw_gate.specs.Lawful.{IsLawful};
ghost use Rattle.gw_gate.specs.Meaning.{Makes};
ghost use Rattle.gw_crew.specs.Notes.{WasFull, WasIdle, WasNothing};
ghost use Rattle.gw_audit.specs.Turns.{IsFirstFrom};

use crate::delivery_queue::{Queue, queues_of};
use crate::job_index::idle_in;
use crate::plan_index::{plans_in, swaps_in};
use crate::report::{Kind, count};
use crate::turning_points::{first_even, first_with, passed};
use gw_crew::Note;
use gw_gate::{Chapter, Entry, Gate, MAX_ENTRIES, Start, is_under};
use gw_plan::Plan;
use std::alloc::{AllocError, Global};
use std::marker::Model;
use std::sync::Arc;

// A chapter: where it starts, its entries, and at which numbers of these it changed what a note may say.
#[derive(Drop)]
pub(crate) struct Part<'a> {
    start: &'a Start,
    entries: &'a [Entry],
    swaps: Vec<usize>,
    plans: Vec<Arc<Plan>>,
    idle: Vec<usize>,
    queues: Vec<Queue>,
}

impl<'a> Model for Part<'a> {
    ghost Value = { Journal };

    ghost view = { λ p. journal_of (start_seen p.start.now) (entries_seen p.entries.now) };

    ghost invariant = { λ p. Tells (journal_of (start_seen p.start.now) (entries_seen p.entries.now)) p.swaps.items
        (plans_at p.plans.items) p.idle.items p.queues.items };
}

// The plan at this place.
fn plan_at(plans: &[Arc<Plan>], place: u64) -> Option<&Arc<Plan>>
    ensures { option_map (λ p. plan_seen (arc_value p.now)) result ≡ slice_get (plans_at plans.now) place }
{
    plans.get(place as usize)
}

// The numbers for this receiver at which there began or ceased to be nothing to be given out.
fn turns_for(queues: &[Queue], receiver: usize) -> &[usize]
    ensures { result.now ≡ (queue_at queues.now receiver).turns }
{
    match queues.get(receiver) {
        Some(queue) => queue.turns(),
        None => &[],
    }
}

// Whether the plans have the same text.
fn have_same_text(plan: &Plan, other: &Plan) -> bool
    ensures { result ≡ bytes_eq (plan_seen plan.now).text (plan_seen other.now).text }
{
    plan.text() == other.text()
}

// Whether the plans have the same text, and so the same receivers.
fn are_same(plan: &Plan, other: &Plan) -> bool
    ensures { IsTrue result ↔ (plan_seen plan.now ≡ plan_seen other.now) }
{
    plan.is_spelled();
    other.is_spelled();
    have_same_text(plan, other)
}

// Whether a note that names a version fits, where this is that version's plan.
fn suits(note: &Note, there: &Plan) -> bool
    ensures { result ≡ suits (note_seen note.now) (plan_seen there.now) }
{
    match note {
        Note::Look(_, plan) => have_same_text(there, plan),
        Note::Stale(version, conforming) => !is_under(conforming, *version, there),
        _ => false,
    }
}

// Whether there is a plan at this place, and it suits the note.
fn is_suited(plans: &[Arc<Plan>], place: u64, note: &Note) -> bool
    ensures { result ≡ is_suited (suits (note_seen note.now)) (slice_get (plans_at plans.now) place) }
{
    match plan_at(plans, place) {
        Some(there) => suits(note, there),
        None => false,
    }
}

impl<'a> Part<'a> {
    // The chapter of these entries.
    fn of(alloc: Global, start: &'a Start, entries: &'a [Entry]) -> Result<Self, AllocError>
        requires lawful { IsLawful (IsTranslated Makes) (journal_of (start_seen start.now) (entries_seen entries.now)) }
        requires few { end (journal_of (start_seen start.now) (entries_seen entries.now)) < 2 ^ 64 }
        ensures { IfOk result (λ part. part ≡ journal_of (start_seen start.now) (entries_seen entries.now)) }
    {
        let swaps = swaps_in(alloc, entries)?;
        let plans = plans_in(alloc, start, entries)?;
        let idle = idle_in(alloc, entries)?;
        let queues = queues_of(alloc, entries)?;
        Ok(Part {
            start,
            entries,
            swaps,
            plans,
            idle,
            queues,
        })
    }

    // Its entries.
    pub(crate) fn entries(&self) -> &[Entry]
        ensures { entries_seen result.now ≡ self.now.entries }
    {
        self.entries
    }

    // How many entries were made in all before it.
    pub(crate) fn start(&self) -> usize
        ensures { result ≡ self.now.start.entries }
    {
        self.start.entries as usize
    }

    // How many entries were made in all with it.
    pub(crate) fn end(&self) -> usize
        ensures { result ≡ end self.now }
    {
        self.start.entries as usize + self.entries.len()
    }

    // The first number of its entries, from low on, at which the plan of this version was in force, and suits the note.
    pub(crate) fn first_in_force(&self, low: usize, version: u64, note: &Note) -> Option<usize>
        ensures { IsFirstFrom low (in_force self.now version (suits (note_seen note.now))) result }
    {
        if version < self.start.version {
            return None;
        }
        let place = version - self.start.version;
        if !is_suited(&self.plans, place, note) {
            return None;
        }
        first_with(&self.swaps, low, place)
    }

    // The first at which it was full.
    pub(crate) fn first_full(&self, low: usize) -> Option<usize>
        ensures { IsFirstIn self.now low WasFull result }
    {
        if self.entries.len() < MAX_ENTRIES {
            return None;
        }
        if low <= MAX_ENTRIES {
            return Some(MAX_ENTRIES);
        }
        if self.entries.len() == MAX_ENTRIES {
            return Some(low);
        }
        None
    }

    // The first at which there was no pair to be taken.
    pub(crate) fn first_idle(&self, low: usize) -> Option<usize>
        ensures { IsFirstIn self.now low WasIdle result }
    {
        first_even(&self.idle, low)
    }

    // The first at which there was nothing to be given out for the receiver.
    pub(crate) fn first_nothing(&self, low: usize, receiver: usize) -> Option<usize>
        ensures { IsFirstIn self.now low (WasNothing receiver) result }
    {
        first_even(turns_for(&self.queues, receiver), low)
    }
}

// A chapter that was closed.
fn closed_part<'a>(alloc: Global, chapter: &'a Chapter) -> Result<Part<'a>, AllocError>
    ensures { IfOk result (λ part. part ≡ chapter.now) }
{
    Part::of(alloc, chapter.start(), chapter.entries())
}

// The chapter that is open.
fn open_part<'a>(alloc: Global, gate: &'a Gate) -> Result<Part<'a>, AllocError>
    ensures { IfOk result (λ part. part ≡ gate.now) }
{
    // (its clause bounds the number of its entries)
    let _end = gate.end();
    Part::of(alloc, gate.start(), gate.journal())
}

// The chapters that were closed, and the open one.
pub(crate) fn parts_of<'a>(
    alloc: Global,
    chapters: &'a [Chapter],
    gate: &'a Gate,
) -> Result<Vec<Part<'a>>, AllocError>
    ensures { IfOk result (λ parts. parts.items ≡ chapters.now ++ gate.now ∷ []) }
{
    let mut parts = Vec::new(alloc);
    for chapter in chapters {
        let part = closed_part(alloc, chapter)?;
        parts.push(part)?;
    }
    let open = open_part(alloc, gate)?;
    parts.push(open)?;
    Ok(parts)
}

// Whether a number is so much above another.
fn is_above(from: u64, count: u64, to: u64) -> bool
    ensures { IsTrue result ↔ (to ≡ from + count) }
{
    from <= to && to - from == count
}

// Whether a chapter starts where another one ended.
fn is_next(part: &Part, next: &Part) -> bool
    ensures { IsTrue result ↔ (next.now.start ≡ start_after part.now) }
{
    let turn = passed(&part.swaps, part.entries.len()) as u64;
    let Some(plan) = plan_at(&part.plans, turn) else {
        return false;
    };
    if !is_above(part.start.version, turn, next.start.version) {
        return false;
    }
    if !are_same(plan, &next.start.plan) {
        return false;
    }
    let accepted = count(Kind::Accepted, part.entries);
    if !is_above(part.start.acceptances, accepted, next.start.acceptances) {
        return false;
    }
    let arrived = count(Kind::Arrived, part.entries);
    if !is_above(part.start.arrivals, arrived, next.start.arrivals) {
        return false;
    }
    next.start() == part.end()
}

// Whether each chapter starts where the one before it ended.
pub(crate) fn go_on(parts: &[Part]) -> bool
    ensures { IsTrue result ↔ GoOn parts.now }
{
    for place in 1..parts.len() {
        if !is_next(&parts[place - 1], &parts[place]) {
            return false;
        }
    }
    true
}

// How many entries were made in all before the first of the chapters.
pub(crate) fn first_of(parts: &[Part]) -> usize
    ensures { result ≡ first_of parts.now }
{
    match parts.first() {
        Some(part) => part.start(),
        None => 0,
    }
}

// How many entries were made in all with the last of the chapters.
pub(crate) fn last_of(parts: &[Part]) -> usize
    ensures { result ≡ last_end 0 parts.now }
{
    let mut last = 0;
    for part in parts {
        last = part.end();
    }
    last
}
