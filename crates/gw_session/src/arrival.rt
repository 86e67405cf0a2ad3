//! How a message arrives.
ghost use Rattle.std.specs.Prelude.{IfOk, OnErr, Some};
ghost use Rattle.std.specs.Arc.{arc_value};
ghost use Rattle.gw_crew.specs.own.Turns.{Adds};
ghost use Rattle.gw_gate.specs.Seen.{plan_seen};
ghost use Rattle.gw_session.specs.Sessions.{IsCutShort};
ghost use Rattle.gw_session.specs.own.Steps.{Asks, Attempts, CutsShort, IsSettled, Judges, judgement_seen};

use crate::doors::{ArriveReply, CurrentPlan, NumberedReply, arrive, look, refuse};
use gw_ack::{INTERNAL, Reply};
use gw_crew::Door;
use gw_er7::Message;
use gw_plan::{Conforming, Refusal, admit};
use std::alloc::{AllocError, Global};
use std::sync::Arc;

/// How often a message arrives that is stale each time.
const MAX_TRIES: usize = 4;

// What the plan in force says of a message: it is admitted, or what is said to it, with the condition's code.
#[derive(Drop)]
enum Judgement {
    Admitted(Arc<Conforming>),
    Refused(Reply, u16),
}

// What came of an arrival: it is settled, or the message was stale, and comes back.
#[derive(Drop)]
enum Attempt {
    Done(NumberedReply),
    Stale(Message),
}

// What the plan in force says of a message.
fn judge(alloc: Global, current: &CurrentPlan, message: Message) -> Result<Judgement, AllocError>
    ensures { IfOk result (λ judgement. Judges message current.now.version (plan_seen (arc_value current.now.plan)) (judgement_seen judgement)) }
{
    current.plan.is_spelled();
    match admit(alloc, &current.plan, current.version, message) {
        Ok(conforming) => Ok(Judgement::Admitted(conforming)),
        Err(Refusal::Memory(_message)) => Err(AllocError),
        Err(Refusal::Route(code, _message)) => Ok(Judgement::Refused(Reply::Reject(code), code)),
        Err(Refusal::Breaks(breach, _message)) => {
            Ok(Judgement::Refused(Reply::Refuse(breach), breach.code()))
        }
    }
}

// Looks up the plan in force, and asks what it says of a message.
#[tactic(auto, using(gw_stream::proofs::Posting::err_gives, crate::proofs::Arriving::cuts_none, crate::proofs::Arriving::cuts_looked))]
fn ask<D: Door>(alloc: Global, door: &mut D, message: Message) -> Result<Judgement, AllocError>
    ensures asked { IfOk result (λ judgement. Adds (Asks message (judgement_seen judgement)) (D.noted door.old) (D.noted door.new)) }
    ensures err { OnErr result (Adds (CutsShort message) (D.noted door.old) (D.noted door.new)) }
{
    let current = look(door)?;
    judge(alloc, &current, message)
}

// Has a message arrive once, under the plan in force.
#[tactic(auto, using(gw_stream::proofs::Posting::err_gives, crate::proofs::Arriving::cuts_after_look))]
fn try_once<D: Door>(alloc: Global, door: &mut D, message: Message) -> Result<Attempt, AllocError>
    ensures tried { IfOk result (λ attempt. Adds (Attempts message attempt) (D.noted door.old) (D.noted door.new)) }
    ensures err { OnErr result (Adds (CutsShort message) (D.noted door.old) (D.noted door.new)) }
{
    match ask(alloc, door, message)? {
        Judgement::Refused(why, code) => Ok(Attempt::Done(refuse(door, why, code)?)),
        Judgement::Admitted(conforming) => match arrive(door, conforming)? {
            ArriveReply::Accepted(number) => Ok(Attempt::Done(NumberedReply {
                number,
                reply: Reply::Accept,
            })),
            ArriveReply::Full => Ok(Attempt::Done(NumberedReply {
                number: 0,
                reply: Reply::Reject(INTERNAL),
            })),
            ArriveReply::Stale(conforming) => Ok(Attempt::Stale(conforming.message().copy(alloc)?)),
        },
    }
}

// Has a message arrive, under the plan in force each time: where it is stale, again, four times at most; then it is rejected.
#[tactic(auto, using(crate::proofs::Arriving::unless_gives_up))]
fn arrive_in_time<D: Door>(
    alloc: Global,
    door: &mut D,
    message: Message,
) -> Result<NumberedReply, AllocError>
    ensures settled { IfOk result (λ settled.
        Adds (IsSettled (Some message) settled) (D.noted door.old) (D.noted door.new)) }
    ensures err { OnErr result (Adds (IsCutShort (Some message)) (D.noted door.old) (D.noted door.new)) }
{
    let mut message = message;
    'tries: for _try in 0..MAX_TRIES {
        match try_once(alloc, door, message)? {
            Attempt::Done(settled) => return Ok(settled),
            Attempt::Stale(back) => message = back,
        }
    }
    refuse(door, Reply::Reject(INTERNAL), INTERNAL)
}

/// Has what was read arrive: a message, or none, which is rejected at once.
#[tactic(auto, using(crate::proofs::Arriving::unless_unreadable))]
pub(crate) fn settle<D: Door>(
    alloc: Global,
    door: &mut D,
    what: Option<Message>,
) -> Result<NumberedReply, AllocError>
    ensures settled { IfOk result (λ settled. Adds (IsSettled what settled) (D.noted door.old) (D.noted door.new)) }
    ensures err { OnErr result (Adds (IsCutShort what) (D.noted door.old) (D.noted door.new)) }
{
    match what {
        Some(message) => arrive_in_time(alloc, door, message),
        None => refuse(door, Reply::Reject(INTERNAL), INTERNAL),
    }
}
