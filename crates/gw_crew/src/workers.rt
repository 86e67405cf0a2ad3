//! Workers.
ghost use Rattle.std.specs.Prelude.{◌≡◌, IfOk, IfErr, OnErr, false};
ghost use Rattle.std.specs.Arc.{arc_value};
ghost use Rattle.gw_gate.specs.Values.{reply_seen};
ghost use Rattle.gw_plan.specs.Admitted.{IsOf};
ghost use Rattle.gw_stream.specs.declared.fault.RunFault.TheVariants.{Memory};
ghost use Rattle.gw_crew.specs.own.Turns.{Adds, Finishes, Took, Turn, put_reply, take_reply, take_reply_seen};
ghost use Rattle.gw_crew.specs.Works.{Breaks, InHand, Works};

use crate::door::{Door, Phase};
use crate::pause::Pause;
use gw_gate::{Event, Reply};
use gw_plan::{Conforming, translate_for};
use gw_stream::{Counts, RunFault};
use std::alloc::Global;
use std::sync::Arc;

// An allocation failure, with the job that the worker had, if it had one: its number and receiver.
type Fault = (RunFault, Option<(u64, usize)>);

// A job: the number, the receiver and the message.
#[derive(Drop)]
struct Job {
    n: u64,
    receiver: usize,
    conforming: Arc<Conforming>,
}

// A reply to Take.
#[derive(Drop)]
enum TakeReply {
    Job(Job),
    Idle,
    Full,
}

// Reads a reply to Take.
fn take_reply(reply: Reply) -> TakeReply
    ensures { take_reply_seen result ≡ take_reply (reply_seen reply) }
{
    match reply {
        Reply::Job {
            n,
            receiver,
            conforming,
        } => TakeReply::Job(Job {
            n,
            receiver,
            conforming,
        }),
        Reply::Idle => TakeReply::Idle,
        _ => TakeReply::Full,
    }
}

// How many results a reply to Put says that were kept, where the worker goes on.
fn put_reply(reply: &Reply) -> Option<u64>
    ensures { result ≡ put_reply (reply_seen reply.now) }
{
    match reply {
        Reply::Kept => Some(1),
        Reply::Full(_) => None,
        _ => Some(0),
    }
}

// Asks for the next job.
fn take<D: Door>(door: &mut D) -> Result<TakeReply, RunFault>
    ensures took { IfOk result (λ t. Took (take_reply_seen t) (D.noted door.old) (D.noted door.new)) }
    ensures err { OnErr result (D.noted door.new ≡ D.noted door.old) }
    ensures memory { IfErr result (λ e. e ≡ Memory) }
{
    match door.call(Event::Take) {
        Ok(reply) => Ok(take_reply(reply)),
        Err(_) => Err(RunFault::Memory),
    }
}

// Brings the result of a job. Says how many results were kept, where the worker goes on.
#[tactic(auto, using(crate::proofs::Working::put_so))]
fn put<D: Door>(alloc: Global, door: &mut D, job: &Job) -> Result<Option<u64>, RunFault>
    requires { IsOf (arc_value job.now.conforming) job.now.receiver }
    ensures put { IfOk result (λ kept. Adds (Finishes job.now.n job.now.receiver kept false) (D.noted door.old) (D.noted door.new)) }
    ensures err { OnErr result (D.noted door.new ≡ D.noted door.old) }
    ensures memory { IfErr result (λ e. e ≡ Memory) }
{
    let translated = translate_for(alloc, &job.conforming, job.receiver)?;
    match door.call(Event::Put {
        n: job.n,
        translated,
    }) {
        Ok(reply) => Ok(put_reply(&reply)),
        Err(_) => Err(RunFault::Memory),
    }
}

// Works on a job, unless the pause ends the worker. Says how many results were kept, where the worker goes on.
fn finish<D: Door, P: Pause>(
    alloc: Global,
    door: &mut D,
    pause: &mut P,
    job: &Job,
) -> Result<Option<u64>, RunFault>
    requires { IsOf (arc_value job.now.conforming) job.now.receiver }
    ensures finished { IfOk result (λ kept. Adds (Finishes job.now.n job.now.receiver kept (P.has_stopped pause.new)) (D.noted door.old) (D.noted door.new)) }
    ensures err { OnErr result (D.noted door.new ≡ D.noted door.old) }
    ensures memory { IfErr result (λ e. e ≡ Memory) }
{
    if !pause.pause(job.n) {
        return Ok(None);
    }
    put(alloc, door, job)
}

// One round. Says how many results were kept, where the worker goes on.
#[tactic(auto, using(crate::proofs::Working::rounds))]
fn turn<D: Door, P: Pause>(alloc: Global, door: &mut D, pause: &mut P) -> Result<Option<u64>, Fault>
    requires { P.has_stopped pause.old ≡ false }
    ensures turn { IfOk result (λ kept. Adds (Turn kept (P.has_stopped pause.new)) (D.noted door.old) (D.noted door.new)) }
    ensures err { IfErr result (λ e. Adds (InHand e.1) (D.noted door.old) (D.noted door.new)) }
    ensures memory { IfErr result (λ e. e.0 ≡ Memory) }
{
    match take(door) {
        Err(fault) => Err((fault, None)),
        Ok(TakeReply::Full) => Ok(None),
        Ok(TakeReply::Idle) => {
            if door.wait(Phase::NoArrivals) {
                Ok(Some(0))
            } else {
                Ok(None)
            }
        }
        Ok(TakeReply::Job(job)) => match finish(alloc, door, pause, &job) {
            Ok(kept) => Ok(kept),
            Err(fault) => Err((fault, Some((job.n, job.receiver)))),
        },
    }
}

/// Takes jobs, and puts what each is translated to, until there is none; then it waits for arrivals, and goes on. It counts the results that were kept.
/// A result that isn't kept is dropped. Where the gate is full, or the pause says so, it ends without a fault.
///
/// The one fault is an allocation failure, with the number and receiver of the job that it had, if it had one.
#[tactic(auto, using(crate::proofs::Bounds::noted_few, crate::proofs::Bounds::falls, crate::proofs::Working::longer))]
pub fn worker<D: Door, P: Pause>(
    alloc: Global,
    door: &mut D,
    pause: &mut P,
) -> Result<Counts, (RunFault, Option<(u64, usize)>)>
    requires { P.has_stopped pause.old ≡ false }
    ensures works { IfOk result (λ counts. Works (P.has_stopped pause.new) (D.noted door.old) (D.noted door.new) counts) }
    ensures breaks { IfErr result (λ e. Breaks e.1 (D.noted door.old) (D.noted door.new)) }
    ensures memory { IfErr result (λ e. e.0 ≡ Memory) }
{
    let mut counts = Counts::none();
    'rounds: loop {
        // (each round leaves a note, and no more notes than this can be)
        let _noted = door.notes().len();
        let Some(kept) = turn(alloc, door, pause)? else {
            return Ok(counts);
        };
        counts.put += kept;
    }
}
