//! What a receiver is sent of a message.
ghost use Rattle.std.specs.Prelude.{IfOk, IfSome, map};
ghost use Rattle.std.specs.Arc.{arc_value};
ghost use Rattle.gw_er7.specs.Reading.{Reads};
ghost use Rattle.gw_plan.specs.Admitted.{IsAdmitted, IsOf};
ghost use Rattle.gw_plan.specs.Seen.{receiver_value};
ghost use Rattle.gw_delivery.specs.Made.{IsMade, IsNamed, IsWrittenFor};

use crate::fault::PageFault;
use gw_er7::{Message, ReadFault, read, write};
use gw_plan::{Conforming, Plan, Receiver, Refusal, admit, translate_for};
use std::alloc::{AllocError, Global};
use std::sync::Arc;

// Which of the receivers has this name.
fn named(receivers: &[Receiver], name: &[u8]) -> Option<usize>
    ensures { IfSome result (λ at. IsNamed (map receiver_value receivers.now) at name.now) }
{
    for at in 0..receivers.len() {
        if receivers[at].name.as_slice() == name {
            return Some(at);
        }
    }
    None
}

// The message of these bytes, which was accepted at this place.
fn accepted(alloc: Global, place: u64, bytes: &[u8]) -> Result<Message, PageFault>
    ensures { IfOk result (λ message. Reads bytes.now message) }
{
    match read(alloc, bytes) {
        Ok(message) => Ok(message),
        Err(ReadFault::Memory) => Err(PageFault::Memory),
        Err(_) => Err(PageFault::Message { place }),
    }
}

// The same, admitted under a plan.
fn admitted(
    alloc: Global,
    plan: &Arc<Plan>,
    place: u64,
    message: Message,
) -> Result<Arc<Conforming>, PageFault>
    ensures { IfOk result (λ c. IsAdmitted (arc_value plan.now) 0 message (arc_value c)) }
{
    match admit(alloc, plan, 0, message) {
        Ok(conforming) => Ok(conforming),
        Err(Refusal::Memory(_)) => Err(PageFault::Memory),
        Err(Refusal::Route(_, _)) => Err(PageFault::Message { place }),
        Err(Refusal::Breaks(_, _)) => Err(PageFault::Message { place }),
    }
}

// What is made of it for a receiver to which its route goes.
fn written_for(
    alloc: Global,
    conforming: &Arc<Conforming>,
    receiver: usize,
) -> Result<Vec<u8>, AllocError>
    requires { IsOf (arc_value conforming.now) receiver }
    ensures { IfOk result (λ bytes. IsWrittenFor (arc_value conforming.now) receiver bytes.items) }
{
    let translated = translate_for(alloc, conforming, receiver)?;
    write(alloc, translated.message())
}

/// What the plan makes of the message of these bytes, which was accepted at this place, for the receiver of this name.
pub(crate) fn made(
    alloc: Global,
    plan: &Arc<Plan>,
    place: u64,
    name: &[u8],
    bytes: &[u8],
) -> Result<Vec<u8>, PageFault>
    ensures { IfOk result (λ made. IsMade (arc_value plan.now).text name.now bytes.now made.items) }
{
    let message = accepted(alloc, place, bytes)?;
    let conforming = admitted(alloc, plan, place, message)?;
    let Some(receiver) = named(conforming.receivers(), name) else {
        return Err(PageFault::Message { place });
    };
    if !conforming.goes_to(receiver) {
        return Err(PageFault::Message { place });
    }
    Ok(written_for(alloc, &conforming, receiver)?)
}
