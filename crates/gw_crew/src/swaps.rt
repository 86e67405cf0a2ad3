//! Swaps of plans.
ghost use Rattle.std.specs.Prelude.{◌≡◌, IfOk, IfErr, Ok};
ghost use Rattle.std.specs.Arc.{arc_value};
ghost use Rattle.gw_gate.specs.Values.{reply_seen};
ghost use Rattle.gw_plan.specs.Held.{plan_value};
ghost use Rattle.gw_plan.specs.Whole.{spelled};
ghost use Rattle.gw_crew.specs.Swapping.{IsRefused, Swaps, number_of, swap_reply};

use crate::door::Door;
use gw_gate::{Event, Reply};
use gw_plan::{Plan, PlanFault};
use std::alloc::Global;
use std::sync::Arc;
use thiserror::Error;

/// Why a plan isn't swapped in. The numbers are 1 to 4, in this order.
#[derive(Clone, Copy, PartialEq, Eq, Debug, Drop, Error)]
pub enum SwapFault {
    /// A growth was refused.
    #[error("out of memory")]
    Memory,
    /// The text is no plan.
    #[error("the plan is refused: {0}")]
    Plan(PlanFault),
    /// Its receivers aren't the gate's.
    #[error("the plan has other receivers")]
    Unlike,
    /// The journal has no room for an entry.
    #[error("the journal is full")]
    Full,
}

impl SwapFault {
    /// The number of the fault. It takes no memory.
    pub fn number(&self) -> u8
        ensures { result ≡ number_of self.now }
    {
        match self {
            SwapFault::Memory => 1,
            SwapFault::Plan(_) => 2,
            SwapFault::Unlike => 3,
            SwapFault::Full => 4,
        }
    }
}

// The plan that the text spells.
fn parsed(alloc: Global, text: &[u8]) -> Result<Arc<Plan>, SwapFault>
    ensures plan { IfOk result (λ p. spelled text.now ≡ Ok (plan_value (arc_value p))) }
    ensures text { IfOk result (λ p. (arc_value p).text ≡ text.now) }
    ensures err { IfErr result (IsRefused text.now) }
{
    match Plan::parse(alloc, text) {
        Ok(plan) => match Arc::new(alloc, plan) {
            Ok(shared) => Ok(shared),
            Err(_) => Err(SwapFault::Memory),
        },
        Err(PlanFault::Memory) => Err(SwapFault::Memory),
        Err(fault) => Err(SwapFault::Plan(fault)),
    }
}

// Reads a reply to Swap.
fn swap_reply(reply: &Reply) -> Result<u64, SwapFault>
    ensures { result ≡ swap_reply (reply_seen reply.now) }
{
    match reply {
        Reply::Swapped { version } => Ok(*version),
        Reply::Unlike(_) => Err(SwapFault::Unlike),
        _ => Err(SwapFault::Full),
    }
}

/// Swaps in the plan that the text spells, in one event, and gives its version.
/// The fault says why the text is no plan, that its receivers aren't the gate's, that the journal is full, or that an allocation failed.
#[tactic(auto, using(crate::proofs::Swapped::refused_so, crate::proofs::Swapped::short_so))]
pub fn swap<D: Door>(alloc: Global, door: &mut D, text: &[u8]) -> Result<u64, SwapFault>
    ensures { Swaps text.now (D.noted door.old) result (D.noted door.new) }
{
    match parsed(alloc, text) {
        Err(fault) => Err(fault),
        Ok(plan) => match door.call(Event::Swap(plan)) {
            Ok(reply) => swap_reply(&reply),
            Err(_) => Err(SwapFault::Memory),
        },
    }
}
