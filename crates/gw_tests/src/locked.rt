//! A gate that threads step behind its lock.
ghost use Rattle.std.specs.Prelude.{◌≡◌};

use crate::gates::{HISTORIES, History, Step, begun, event, plan, said};
use crate::refusals::{holds, refuse};
use gw_audit::{Report, join_all};
use gw_gate::{Chapter, Event, Gate, Reply};
use gw_plan::Plan;
use gw_run::{Door, LockedGate, Pass, Phase, RunFault};
use std::alloc::Global;
use std::marker::Brand;
use std::sync::ledger::{Blank, Ledger};
use std::sync::{Arc, Wait};
use std::test::Fail;

// Whether a door replies so to the event.
pub(crate) fn replies<D: Door>(door: &mut D, event: Event, reply: (&'static str, u64)) -> bool {
    match door.call(event) {
        Ok(found) => said(&found) == reply,
        Err(_) => false,
    }
}

// The chapter that a reply gives.
fn closed_in(reply: Reply) -> Option<Chapter> {
    match reply {
        Reply::Closed(chapter) => Some(chapter),
        _ => None,
    }
}

// What a step closes, where the pass replies so.
fn stepped<L: Ledger, R: Wait>(
    pass: &mut Pass<'_, L, R>,
    event: Event,
    reply: (&'static str, u64),
) -> Result<Option<Chapter>, Fail> {
    match pass.call(event) {
        Ok(found) => {
            if said(&found) == reply {
                Ok(closed_in(found))
            } else {
                Err("another reply".into())
            }
        }
        Err(_event) => Err("no memory".into()),
    }
}

// The chapters that were closed, where the pass replies so to all steps, in order.
fn replies_to_all<L: Ledger, R: Wait>(
    alloc: Global,
    pass: &mut Pass<'_, L, R>,
    plans: (&Arc<Plan>, &Arc<Plan>),
    steps: &[(Step, (&'static str, u64))],
) -> Result<Vec<Chapter>, Fail> {
    let mut chapters = Vec::new(alloc);
    for (step, reply) in steps {
        let event = event(alloc, plans.0, plans.1, *step)?;
        if let Some(chapter) = stepped(pass, event, *reply)? {
            chapters.push(chapter)?;
        }
    }
    Ok(chapters)
}

// What is reported of a gate to which one pass replies as is said. Of the growths of `join_all` this one is refused, if it isn't 0.
pub(crate) fn through_one<L: Ledger, R: Wait + AllocGlobal>(
    rt: &R,
    gate: Gate,
    blank: Blank,
    plans: (&Arc<Plan>, &Arc<Plan>),
    history: &History,
    growth: u32,
) -> Result<Result<Report, RunFault>, Fail>
    requires name { blank.name ≡ L.name }
    requires parts { blank.parts ≡ L.parts }
    requires one { blank.parts ≡ 1 }
{
    let alloc = rt.alloc();
    let (book, all) = blank.open::<L>();
    let gate = LockedGate::new(gate, book);
    let mut pass = gate.pass(alloc, rt, all);
    let mut chapters = replies_to_all(alloc, &mut pass, plans, history.steps)?;
    let mut passes = Vec::new(alloc);
    passes.push(pass.end())?;
    refuse(alloc, growth);
    let mut counted = gate.into_counted();
    let joined = join_all(alloc, &mut counted, passes, chapters);
    refuse(alloc, 0);
    holds(
        counted.since() == 0 && counted.gate().end() == history.counts[3],
        "another gate",
    )?;
    Ok(joined)
}

// What is reported of it.
pub(crate) fn report_of(history: &History) -> Report {
    let [accepted, kept, released, entries] = history.counts;
    Report {
        accepted,
        refused: 0,
        kept,
        released,
        entries,
    }
}

#[test]
fn one_pass_replies_as_its_gate(rt: HostRuntime) -> Result<(), Fail> {
    let alloc = rt.alloc();
    let first = plan(alloc, "ONE")?;
    let later = plan(alloc, "TWO")?;
    for history in &HISTORIES {
        let gate = begun(alloc, &first)?;
        let plans = (&first, &later);
        let joined = through_one::<Brand, _>(&rt, gate, Blank::new(1), plans, history, 0)?;
        assert_eq!(rt; joined, Ok(report_of(history)));
    }
    Ok(())
}

// How many entries a locked gate had before.
fn since_of<L: Ledger>(gate: Gate, blank: Blank) -> usize
    requires name { blank.name ≡ L.name }
    requires parts { blank.parts ≡ L.parts }
{
    let (book, _all) = blank.open::<L>();
    LockedGate::new(gate, book).into_counted().since()
}

#[test]
fn entries_before_the_lock_are_counted(rt: HostRuntime) -> Result<(), Fail> {
    let alloc = rt.alloc();
    let plan = plan(alloc, "ONE")?;
    let mut gate = begun(alloc, &plan)?;
    for _entry in 0..3 {
        if gate.step(Event::Refuse(207)).is_err() {
            return Err("no memory".into());
        }
    }
    assert_eq!(rt; since_of::<Brand>(gate, Blank::new(1)), 3);
    Ok(())
}

/// What comes through a pass, what it replies, and what it answers where it waits then for what comes before this phase, which was reached.
const WAITS: [(Step, (&str, u64), Phase, bool); 10] = [
    (Step::Take, ("Idle", 0), Phase::NoArrivals, false),
    (Step::Release, ("Nothing", 0), Phase::NoResults, false),
    (Step::Arrive(0), ("Accepted", 0), Phase::NoArrivals, true),
    (Step::Look, ("Current", 0), Phase::NoResults, false),
    (Step::Take, ("Job", 0), Phase::NoArrivals, false),
    (
        Step::Put { n: 0, control: 0 },
        ("Kept", 0),
        Phase::NoResults,
        true,
    ),
    (Step::Release, ("Out", 0), Phase::NoArrivals, false),
    (Step::Release, ("Nothing", 0), Phase::NoResults, false),
    (Step::Cut, ("Closed", 4), Phase::NoArrivals, false),
    (Step::Arrive(1), ("Accepted", 1), Phase::NoArrivals, true),
];

// Whether a pass replies and answers so.
fn waits_so<L: Ledger, R: Wait + AllocGlobal>(
    rt: &R,
    gate: Gate,
    blank: Blank,
    plan: &Arc<Plan>,
) -> Result<bool, Fail>
    requires name { blank.name ≡ L.name }
    requires parts { blank.parts ≡ L.parts }
    requires one { blank.parts ≡ 1 }
{
    let alloc = rt.alloc();
    let (book, all) = blank.open::<L>();
    let gate = LockedGate::new(gate, book);
    gate.close(rt, Phase::NoResults);
    let mut pass = gate.pass(alloc, rt, all);
    for (step, reply, phase, answer) in &WAITS {
        let event = event(alloc, plan, plan, *step)?;
        if !replies(&mut pass, event, *reply) || pass.wait(*phase) != *answer {
            return Ok(false);
        }
    }
    Ok(true)
}

#[test]
fn a_pass_waits_only_for_what_it_may_act_on(rt: HostRuntime) -> Result<(), Fail> {
    let alloc = rt.alloc();
    let plan = plan(alloc, "ONE")?;
    let gate = begun(alloc, &plan)?;
    assert!(rt; waits_so::<Brand, _>(&rt, gate, Blank::new(1), &plan)?);
    Ok(())
}
