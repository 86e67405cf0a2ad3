//! What a gate replies, and what its receivers are sent.
use crate::worked;
use gw_gate::{Event, Gate, Reply};
use gw_plan::{Conforming, Plan, Translated, translate_for};
use std::alloc::Global;
use std::sync::Arc;
use std::test::Fail;

/// A plan of one receiver, whose map says a word.
const PLAN: [&str; 2] = [
    "plan G\nreceiver A x\nbegin profile\nprofile P\nsegment MSH R 1..1\n  field 10 R 1..1\nstop\nbegin map\nmap M from P to P\nsegment MSH from MSH\n  copy 10 from MSH-10\n  build 5 const ",
    "\nstop\nroute ADT A01 from P\nto A by M\n",
];

// The plan whose map says this word.
pub(crate) fn plan(alloc: Global, word: &str) -> Result<Arc<Plan>, Fail> {
    let [before, behind] = PLAN;
    let text = format!(in alloc; "{before}{word}{behind}")?;
    let shared = Arc::new(alloc, worked::plan(alloc, text.as_bytes())?)?;
    Ok(shared)
}

/// A plan of another receiver.
const OTHER: &[u8] = b"plan G\nreceiver B x\nbegin profile\nprofile P\nsegment MSH R 1..1\nstop\n";

// A message with this control id, admitted under the first version of the plan.
pub(crate) fn admitted(
    alloc: Global,
    plan: &Arc<Plan>,
    control: u64,
) -> Result<Arc<Conforming>, Fail> {
    let content = format!(in alloc; "MSH|^~\\&|||||||ADT^A01|{control}\r")?;
    worked::admitted(alloc, plan, 0, content.as_bytes())
}

// What its receiver is sent.
pub(crate) fn made(alloc: Global, conforming: &Arc<Conforming>) -> Result<Arc<Translated>, Fail> {
    if !conforming.goes_to(0) {
        return Err("no receiver".into());
    }
    let translated = translate_for(alloc, conforming, 0)?;
    Ok(translated)
}

// A gate that opens with this plan.
pub(crate) fn begun(alloc: Global, plan: &Arc<Plan>) -> Result<Gate, Fail> {
    match Gate::begin(alloc, plan.clone()?) {
        Ok(gate) => Ok(gate),
        Err(_) => Err("no memory".into()),
    }
}

// The reply's name, with its first number.
pub(crate) fn said(reply: &Reply) -> (&'static str, u64) {
    match reply {
        Reply::Current { version, .. } => ("Current", *version),
        Reply::Accepted { n, .. } => ("Accepted", *n),
        Reply::Stale { version, .. } => ("Stale", *version),
        Reply::Refused { arrival } => ("Refused", *arrival),
        Reply::Swapped { version } => ("Swapped", *version),
        Reply::Unlike(_) => ("Unlike", 0),
        Reply::Job { n, .. } => ("Job", *n),
        Reply::Idle => ("Idle", 0),
        Reply::Kept => ("Kept", 0),
        Reply::Repeat(_) => ("Repeat", 0),
        Reply::Stranger(_) => ("Stranger", 0),
        Reply::Issued => ("Issued", 0),
        Reply::Done => ("Done", 0),
        Reply::Out { n, .. } => ("Out", *n),
        Reply::Nothing => ("Nothing", 0),
        Reply::Pending => ("Pending", 0),
        Reply::Closed(chapter) => ("Closed", chapter.entries().len() as u64),
        Reply::Full(_) => ("Full", 0),
    }
}

/// What comes to a gate.
#[derive(Clone, Copy)]
pub(crate) enum Step {
    Look,
    /// The message with this control id.
    Arrive(u64),
    /// The plan that takes the place of the first.
    Later,
    /// The plan of another receiver.
    Other,
    Take,
    /// Under this number what is made of the message with this control id.
    Put { n: u64, control: u64 },
    /// The pair of this number.
    Reissue(u64),
    Release,
    Cut,
}

/// What comes to a gate, what it replies to each, and how many messages it accepted, results it kept, results it gave out and entries it made.
#[derive(Clone, Copy)]
pub(crate) struct History {
    pub(crate) steps: &'static [(Step, (&'static str, u64))],
    pub(crate) counts: [u64; 4],
}

/// Three messages, whose results come in another order, one of them twice.
pub(crate) const OUT_OF_ORDER: History = History {
    steps: &[
        (Step::Arrive(0), ("Accepted", 0)),
        (Step::Arrive(1), ("Accepted", 1)),
        (Step::Arrive(2), ("Accepted", 2)),
        (Step::Put { n: 2, control: 2 }, ("Kept", 0)),
        (Step::Put { n: 0, control: 0 }, ("Kept", 0)),
        (Step::Put { n: 0, control: 0 }, ("Repeat", 0)),
        (Step::Put { n: 1, control: 1 }, ("Kept", 0)),
        (Step::Release, ("Out", 0)),
        (Step::Release, ("Out", 1)),
        (Step::Release, ("Out", 2)),
        (Step::Release, ("Nothing", 0)),
    ],
    counts: [3, 3, 3, 9],
};

/// A pair is issued again before its result and after it, and one that isn't due; a plan of another receiver comes.
const ISSUED_AGAIN: History = History {
    steps: &[
        (Step::Arrive(0), ("Accepted", 0)),
        (Step::Take, ("Job", 0)),
        (Step::Take, ("Idle", 0)),
        (Step::Reissue(0), ("Issued", 0)),
        (Step::Take, ("Job", 0)),
        (Step::Put { n: 0, control: 0 }, ("Kept", 0)),
        (Step::Put { n: 0, control: 0 }, ("Repeat", 0)),
        (Step::Reissue(0), ("Done", 0)),
        (Step::Reissue(5), ("Stranger", 0)),
        (Step::Other, ("Unlike", 0)),
    ],
    counts: [1, 1, 0, 5],
};

/// A plan is swapped in over a message that was accepted.
const SWAPPED: History = History {
    steps: &[
        (Step::Look, ("Current", 0)),
        (Step::Arrive(7), ("Accepted", 0)),
        (Step::Later, ("Swapped", 1)),
        (Step::Arrive(8), ("Stale", 1)),
        (Step::Look, ("Current", 1)),
        (Step::Take, ("Job", 0)),
        (Step::Put { n: 0, control: 7 }, ("Kept", 0)),
        (Step::Release, ("Out", 0)),
    ],
    counts: [1, 1, 1, 5],
};

/// The journal is cut before the jobs of these messages are taken, and after it; then nothing of them is due, and numbers go on.
pub(crate) const CUT: History = History {
    steps: &[
        (Step::Arrive(0), ("Accepted", 0)),
        (Step::Arrive(1), ("Accepted", 1)),
        (Step::Arrive(2), ("Accepted", 2)),
        (Step::Put { n: 2, control: 2 }, ("Kept", 0)),
        (Step::Put { n: 0, control: 0 }, ("Kept", 0)),
        (Step::Put { n: 0, control: 0 }, ("Repeat", 0)),
        (Step::Put { n: 1, control: 1 }, ("Kept", 0)),
        (Step::Release, ("Out", 0)),
        (Step::Release, ("Out", 1)),
        (Step::Release, ("Out", 2)),
        (Step::Release, ("Nothing", 0)),
        (Step::Cut, ("Pending", 0)),
        (Step::Take, ("Job", 0)),
        (Step::Take, ("Job", 1)),
        (Step::Take, ("Job", 2)),
        (Step::Cut, ("Closed", 12)),
        (Step::Arrive(3), ("Accepted", 3)),
        (Step::Put { n: 0, control: 0 }, ("Stranger", 0)),
        (Step::Reissue(0), ("Stranger", 0)),
        (Step::Release, ("Nothing", 0)),
        (Step::Take, ("Job", 3)),
    ],
    counts: [4, 3, 3, 14],
};

/// What may happen at a gate.
pub(crate) const HISTORIES: [History; 4] = [OUT_OF_ORDER, ISSUED_AGAIN, SWAPPED, CUT];

// The event of a step at a gate that opens with the first plan.
pub(crate) fn event(
    alloc: Global,
    first: &Arc<Plan>,
    later: &Arc<Plan>,
    step: Step,
) -> Result<Event, Fail> {
    match step {
        Step::Look => Ok(Event::Look),
        Step::Arrive(control) => Ok(Event::Arrive(admitted(alloc, first, control)?)),
        Step::Later => Ok(Event::Swap(later.clone()?)),
        Step::Other => Ok(Event::Swap(Arc::new(alloc, worked::plan(alloc, OTHER)?)?)),
        Step::Take => Ok(Event::Take),
        Step::Put { n, control } => {
            let translated = made(alloc, &admitted(alloc, first, control)?)?;
            Ok(Event::Put { n, translated })
        }
        Step::Reissue(n) => Ok(Event::Reissue { n, receiver: 0 }),
        Step::Release => Ok(Event::Release(0)),
        Step::Cut => Ok(Event::Cut),
    }
}

// What a gate replies to an event.
fn replied(gate: &mut Gate, event: Event) -> Result<(&'static str, u64), Fail> {
    match gate.step(event) {
        Ok(reply) => Ok(said(&reply)),
        Err(_) => Err("no memory".into()),
    }
}

#[test]
fn a_gate_replies_in_turn(rt: HostRuntime) -> Result<(), Fail> {
    let alloc = rt.alloc();
    let first = plan(alloc, "ONE")?;
    let later = plan(alloc, "TWO")?;
    for history in &HISTORIES {
        let mut gate = begun(alloc, &first)?;
        for (step, reply) in history.steps {
            let event = event(alloc, &first, &later, *step)?;
            assert_eq!(rt; replied(&mut gate, event)?, *reply);
        }
    }
    Ok(())
}

// The events by which a gate is opened and a history goes on.
pub(crate) fn opened(alloc: Global, history: &History) -> Result<Vec<Event>, Fail> {
    let first = plan(alloc, "ONE")?;
    let later = plan(alloc, "TWO")?;
    let mut events = Vec::new(alloc);
    events.push(Event::Swap(first.clone()?))?;
    for (step, _) in history.steps {
        events.push(event(alloc, &first, &later, *step)?)?;
    }
    Ok(events)
}
