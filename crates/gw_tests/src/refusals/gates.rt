//! The replay of a gate, and what a pass through it leaves.

use super::{Call, MOST, holds, refuse, sweep, was_refused};
use crate::gates::{CUT, HISTORIES, History, begun, opened, plan, said};
use crate::locked::{report_of, through_one};
use gw_audit::Report;
use gw_gate::{ReplayFault, replay};
use gw_plan::Plan;
use gw_run::RunFault;
use std::alloc::Global;
use std::marker::Brand;
use std::sync::ledger::Blank;
use std::sync::{Arc, Wait};
use std::test::Fail;

/// The replay of a history.
#[derive(Clone, Copy)]
struct Replayed(History);

impl Call for Replayed {
    fn is_refused(&self, alloc: Global, growth: u32) -> Result<bool, Fail> {
        let events = opened(alloc, &self.0)?;
        let anew = opened(alloc, &self.0)?;
        refuse(alloc, growth);
        let (refused, found) = match replay(alloc, events) {
            Err(ReplayFault::Memory) => (true, replay(alloc, anew)),
            found => (false, found),
        };
        refuse(alloc, 0);
        let Ok((_, replies)) = found else {
            return Err("it is no replay".into());
        };
        for (reply, (_, want)) in replies.iter().zip(self.0.steps.iter()) {
            holds(said(reply) == *want, "another reply")?;
        }
        holds(replies.len() == self.0.steps.len(), "fewer replies")?;
        Ok(refused)
    }
}

#[test]
fn replay_refused(rt: HostRuntime) -> Result<(), Fail> {
    for history in HISTORIES {
        sweep(rt.alloc(), &Replayed(history))?;
    }
    Ok(())
}

// What is reported of a history through one pass, whose growth of this number is refused, if it isn't 0.
fn joined<R: Wait + AllocGlobal>(
    rt: &R,
    plan: &Arc<Plan>,
    growth: u32,
) -> Result<Result<Report, RunFault>, Fail> {
    let gate = begun(rt.alloc(), plan)?;
    let plans = (plan, plan);
    through_one::<Brand, _>(rt, gate, Blank::new(1), plans, &CUT, growth)
}

#[test]
fn join_refused(rt: HostRuntime) -> Result<(), Fail> {
    let plan = plan(rt.alloc(), "ONE")?;
    for growth in 1..MOST {
        let found = joined(&rt, &plan, growth)?;
        if !was_refused(rt.alloc()) {
            assert_eq!(rt; found, Ok(report_of(&CUT)));
            return Ok(());
        }
        assert_eq!(rt; found, Err(RunFault::Memory));
    }
    Err("there are more growths".into())
}
