//! What receivers are sent of a message.
ghost use Rattle.std.specs.Prelude.{IfOk, length};
ghost use Rattle.std.specs.Arc.{arc_value};
ghost use Rattle.gw_plan.specs.Admitted.{IsOf};
ghost use Rattle.gw_plan.specs.Held.{plan_value};
ghost use Rattle.gw_stream.specs.own.Prepared.{ArePrepared, AreWithin, PreparesFor};

use crate::frame::block_of;
use gw_plan::{Conforming, translate_for};
use std::alloc::{AllocError, Global};
use std::sync::Arc;

/// A block for a receiver, whose number is its place in the plan.
#[derive(Drop)]
pub(crate) struct Delivery {
    pub(crate) receiver: usize,
    pub(crate) block: Vec<u8>,
}

/// The delivery of an admitted message to one receiver of its route.
#[tactic(auto, using(crate::proofs::Preparing::is_prepared))]
fn prepare_delivery(
    alloc: Global,
    conforming: &Arc<Conforming>,
    receiver: usize,
) -> Result<Delivery, AllocError>
    requires { IsOf (arc_value conforming.now) receiver }
    ensures { PreparesFor (arc_value conforming.now) receiver result }
{
    let translated = translate_for(alloc, conforming, receiver)?;
    let block = block_of(alloc, translated.message())?;
    Ok(Delivery { receiver, block })
}

/// The deliveries of an admitted message to the receivers of its route, in the order of the route.
pub(crate) fn prepare_deliveries(
    alloc: Global,
    conforming: &Arc<Conforming>,
) -> Result<Vec<Delivery>, AllocError>
    ensures made { IfOk result (λ all. ArePrepared (plan_value (arc_value conforming.now).plan) (arc_value conforming.now).tree.message all.items) }
    ensures within { IfOk result (λ all. AreWithin (length (arc_value conforming.now).plan.receivers) all.items) }
{
    let route = conforming.route();
    let mut all = Vec::new(alloc);
    'legs: for i in 0..route.len() {
        let receiver = route.receiver(i);
        prove!(conforming.goes_to(receiver));
        let delivery = prepare_delivery(alloc, conforming, receiver)?;
        all.push(delivery)?;
    }
    Ok(all)
}
