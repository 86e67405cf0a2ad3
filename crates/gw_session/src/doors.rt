//! What a session asks of a door.
ghost use Rattle.std.specs.Prelude.{◌≡◌, ◌++◌, ◌∷◌, [], IfOk, OnErr};
ghost use Rattle.std.specs.Arc.{arc_value};
ghost use Rattle.std.specs.Option.{option_map};
ghost use Rattle.gw_gate.specs.Seen.{plan_seen};
ghost use Rattle.gw_gate.specs.Values.{conforming_at, reply_seen};
ghost use Rattle.gw_crew.specs.Notes.{Looked};
ghost use Rattle.gw_crew.specs.own.Turns.{Adds};
ghost use Rattle.gw_session.specs.Sessions.{HasCode};
ghost use Rattle.gw_session.specs.own.Steps.{ComesTo, EndsIn, arrival_of, arrive_of, arrive_seen, current_of, current_seen};

use gw_ack::{INTERNAL, Reply};
use gw_crew::Door;
use gw_gate::{Event, Reply as GateReply};
use gw_plan::{Conforming, Plan};
use std::alloc::AllocError;
use std::sync::Arc;

/// What is said to what was read, and the number of its arrival: 0 where the journal is full.
#[derive(Clone, Copy)]
pub(crate) struct NumberedReply {
    pub(crate) number: u64,
    pub(crate) reply: Reply,
}

/// The plan in force, with its version.
#[derive(Drop)]
pub(crate) struct CurrentPlan {
    pub(crate) version: u64,
    pub(crate) plan: Arc<Plan>,
}

/// The reply to an arrival.
#[derive(Drop)]
pub(crate) enum ArriveReply {
    /// It was accepted, and is the arrival of this number.
    Accepted(u64),
    /// Its plan isn't in force any more.
    Stale(Arc<Conforming>),
    /// The journal is full.
    Full,
}

// What a reply to Look says.
fn current_plan(reply: GateReply) -> Option<CurrentPlan>
    ensures { option_map current_seen result ≡ current_of (reply_seen reply) }
{
    match reply {
        GateReply::Current { version, plan } => Some(CurrentPlan { version, plan }),
        _ => None,
    }
}

// What a reply to Arrive says.
fn arrive_reply(reply: GateReply) -> ArriveReply
    ensures { arrive_seen result ≡ arrive_of (reply_seen reply) }
{
    match reply {
        GateReply::Accepted { arrival, .. } => ArriveReply::Accepted(arrival),
        GateReply::Stale { conforming, .. } => ArriveReply::Stale(conforming),
        _ => ArriveReply::Full,
    }
}

// The number in a reply to Refuse.
fn refused_number(reply: GateReply) -> Option<u64>
    ensures { result ≡ arrival_of (reply_seen reply) }
{
    match reply {
        GateReply::Refused { arrival } => Some(arrival),
        _ => None,
    }
}

/// Asks for the plan in force.
pub(crate) fn look<D: Door>(door: &mut D) -> Result<CurrentPlan, AllocError>
    ensures looked { IfOk result (λ now. D.noted door.new ≡ D.noted door.old ++ Looked now.version (plan_seen (arc_value now.plan)) ∷ []) }
    ensures err { OnErr result (D.noted door.new ≡ D.noted door.old) }
{
    match door.call(Event::Look) {
        Ok(reply) => match current_plan(reply) {
            Some(current) => Ok(current),
            // (it doesn't come: the reply to Look is the plan in force)
            None => Err(AllocError),
        },
        Err(_) => Err(AllocError),
    }
}

/// Has an admitted message arrive.
#[tactic(auto, using(crate::proofs::Asking::arrive_noted))]
pub(crate) fn arrive<D: Door>(
    door: &mut D,
    conforming: Arc<Conforming>,
) -> Result<ArriveReply, AllocError>
    ensures replied { IfOk result (λ reply. Adds (ComesTo (conforming_at conforming) (arrive_seen reply)) (D.noted door.old) (D.noted door.new)) }
    ensures err { OnErr result (D.noted door.new ≡ D.noted door.old) }
{
    match door.call(Event::Arrive(conforming)) {
        Ok(reply) => Ok(arrive_reply(reply)),
        Err(_) => Err(AllocError),
    }
}

/// Has a refusal noted, under the condition code of its reply.
#[tactic(auto, using(crate::proofs::Asking::ended_so))]
pub(crate) fn refuse<D: Door>(
    door: &mut D,
    reply: Reply,
    code: u16,
) -> Result<NumberedReply, AllocError>
    requires { HasCode reply code }
    ensures refused { IfOk result (λ settled. Adds (EndsIn reply settled.number settled.reply) (D.noted door.old) (D.noted door.new)) }
    ensures err { OnErr result (D.noted door.new ≡ D.noted door.old) }
{
    match door.call(Event::Refuse(code)) {
        Ok(replied) => match refused_number(replied) {
            Some(number) => Ok(NumberedReply { number, reply }),
            None => Ok(NumberedReply {
                number: 0,
                reply: Reply::Reject(INTERNAL),
            }),
        },
        Err(_) => Err(AllocError),
    }
}
