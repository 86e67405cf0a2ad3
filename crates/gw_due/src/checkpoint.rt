//! A state as bytes.
ghost use Rattle.std.specs.Prelude.{◌≡◌, ◌++◌, [], IfOk, OnOk, OnErr, IsErrOf, Some};
ghost use Rattle.gw_due.specs.Checkpoint.{checkpoint, eight, perhaps, counts, receiver, receivers, ReceiverFits, ReceiversFit, StateFits};
ghost use Rattle.gw_due.specs.State as spec;
ghost use Rattle.gw_due.specs.own.Reading.{Gives};
ghost use Rattle.gw_due.specs.own.StateReading.{perhaps_at, receiver_at, many_at, all_at, state_at, state_in};

use crate::fault::{ReadFault, SpellFault};
use crate::reading::{byte_at, text_at, u32_at, u64_at};
use crate::receiver::Receiver;
use crate::state::State;
use crate::writing::{is_short, put_text};
use std::alloc::{AllocError, Global};

// ---- reading

#[tactic(auto, unfolding(crate::specs::own::StateReading::perhaps_at, crate::specs::own::StateReading::perhaps_of))]
fn perhaps_at(bytes: &[u8]) -> Result<(Option<u64>, &[u8]), ReadFault>
    ensures { Gives (λ x. (x.0, x.1.now)) result (perhaps_at bytes.now) }
{
    let (flag, rest) = byte_at(bytes)?;
    match flag {
        0 => Ok((None, rest)),
        1 => {
            let (number, rest) = u64_at(rest)?;
            Ok((Some(number), rest))
        }
        _ => Err(ReadFault::Unreadable),
    }
}

#[tactic(auto, unfolding(crate::specs::own::StateReading::receiver_at))]
fn receiver_at(alloc: Global, bytes: &[u8]) -> Result<(Receiver, &[u8]), ReadFault>
    ensures { Gives (λ x. (x.0, x.1.now)) result (receiver_at bytes.now) }
{
    let (number, rest) = u32_at(bytes)?;
    let (name, rest) = text_at(rest)?;
    let (address, rest) = text_at(rest)?;
    let (from, rest) = u64_at(rest)?;
    let (left, rest) = u64_at(rest)?;
    let (refused, rest) = u64_at(rest)?;
    let one = Receiver::new(alloc, number, name, address)?;
    Ok((one.with_counts(from, left, refused), rest))
}

fn many_at(alloc: Global, count: u32, bytes: &[u8]) -> Result<(Vec<Receiver>, &[u8]), ReadFault>
    ensures { Gives (λ x. (x.0.items, x.1.now)) result (many_at count bytes.now) }
{
    let mut all = Vec::new(alloc);
    let mut rest = bytes;
    for _ in 0..count {
        let (one, after) = receiver_at(alloc, rest)?;
        all.push(one)?;
        rest = after;
    }
    Ok((all, rest))
}

#[tactic(auto, unfolding(crate::specs::own::StateReading::all_at))]
fn all_at(alloc: Global, bytes: &[u8]) -> Result<(Vec<Receiver>, &[u8]), ReadFault>
    ensures { Gives (λ x. (x.0.items, x.1.now)) result (all_at bytes.now) }
{
    let (count, rest) = u32_at(bytes)?;
    many_at(alloc, count, rest)
}

#[tactic(auto, unfolding(crate::specs::own::StateReading::state_at))]
fn state_at(alloc: Global, bytes: &[u8]) -> Result<(State, &[u8]), ReadFault>
    ensures { Gives (λ x. (x.0, x.1.now)) result (state_at bytes.now) }
{
    let (next, rest) = u64_at(bytes)?;
    let (plan, rest) = perhaps_at(rest)?;
    let (last, rest) = perhaps_at(rest)?;
    let (margin, rest) = u64_at(rest)?;
    let (oldest, rest) = u64_at(rest)?;
    let (receivers, rest) = all_at(alloc, rest)?;
    Ok((
        State::restored(next, plan, last, margin, oldest, receivers),
        rest,
    ))
}

#[tactic(auto, unfolding(crate::specs::own::StateReading::state_in))]
fn state_in(alloc: Global, bytes: &[u8]) -> Result<State, ReadFault>
    ensures { Gives (λ s. s) result (state_in bytes.now) }
{
    let (state, rest) = state_at(alloc, bytes)?;
    if !rest.is_empty() {
        return Err(ReadFault::Unreadable);
    }
    Ok(state)
}

// ---- writing

#[tactic(auto, unfolding(crate::specs::Checkpoint::eight))]
fn put_eight(out: &mut Vec<u8>, number: u64) -> Result<(), AllocError>
    ensures { OnOk result (out.new.items ≡ out.old.items ++ eight number) }
{
    out.extend_from_slice(&number.to_be_bytes())
}

fn put_perhaps(out: &mut Vec<u8>, number: Option<u64>) -> Result<(), AllocError>
    ensures { OnOk result (out.new.items ≡ out.old.items ++ perhaps number) }
{
    match number {
        None => Ok(out.push(0)?),
        Some(number) => {
            out.push(1)?;
            put_eight(out, number)
        }
    }
}

fn put_counts(out: &mut Vec<u8>, from: u64, left: u64, refused: u64) -> Result<(), AllocError>
    ensures { OnOk result (out.new.items ≡ out.old.items ++ counts from left refused) }
{
    put_eight(out, from)?;
    put_eight(out, left)?;
    put_eight(out, refused)
}

fn put_receiver(out: &mut Vec<u8>, one: &Receiver) -> Result<(), SpellFault>
    ensures ok { OnOk result (out.new.items ≡ out.old.items ++ receiver one.now) }
    ensures fits { OnOk result (ReceiverFits one.now) }
    ensures too_long { IsErrOf result SpellFault.TooLong → ReceiverFits one.now → ⊥ }
{
    if !is_short(one.name()) || !is_short(one.address()) {
        return Err(SpellFault::TooLong);
    }
    out.extend_from_slice(&one.number().to_be_bytes())?;
    put_text(out, one.name())?;
    put_text(out, one.address())?;
    put_counts(out, one.from(), one.left(), one.refused())?;
    Ok(())
}

fn put_all(out: &mut Vec<u8>, all: &[Receiver]) -> Result<(), SpellFault>
    ensures ok { OnOk result (out.new.items ≡ out.old.items ++ receivers all.now) }
    ensures fits { OnOk result (ReceiversFit all.now) }
    ensures too_long { IsErrOf result SpellFault.TooLong → ReceiversFit all.now → ⊥ }
{
    if all.len() > u32::MAX as usize {
        return Err(SpellFault::TooLong);
    }
    out.extend_from_slice(&(all.len() as u32).to_be_bytes())?;
    for one in all {
        put_receiver(out, one)?;
    }
    Ok(())
}

fn put(out: &mut Vec<u8>, state: &State) -> Result<(), SpellFault>
    ensures ok { OnOk result (out.new.items ≡ out.old.items ++ checkpoint state.now) }
    ensures fits { OnOk result (StateFits state.now) }
    ensures too_long { IsErrOf result SpellFault.TooLong → StateFits state.now → ⊥ }
{
    put_eight(out, state.next())?;
    put_perhaps(out, state.plan())?;
    put_perhaps(out, state.last())?;
    put_eight(out, state.margin())?;
    put_eight(out, state.oldest())?;
    put_all(out, state.receivers())
}

impl State {
    /// Writes the state into the buffer, whose bytes it replaces. After a fault the buffer is empty.
    pub fn spell(&self, buffer: &mut Vec<u8>) -> Result<(), SpellFault>
        ensures ok { OnOk result (buffer.new.items ≡ checkpoint self.now) }
        ensures fits { OnOk result (StateFits self.now) }
        ensures err { OnErr result (buffer.new.items ≡ []) }
        ensures too_long { IsErrOf result SpellFault.TooLong → StateFits self.now → ⊥ }
    {
        buffer.clear();
        match put(buffer, self) {
            Ok(()) => Ok(()),
            Err(fault) => {
                buffer.clear();
                Err(fault)
            }
        }
    }

    /// The state that the bytes spell, all of the bytes.
    pub fn read(alloc: Global, bytes: &[u8]) -> Result<State, ReadFault>
        // What is read is spelled so, and nothing else is.
        ensures found { IfOk result (λ s. StateFits s × (bytes.now ≡ checkpoint s)) }
        ensures only { (s : spec.State) → StateFits s → bytes.now ≡ checkpoint s → Gives (λ s. s) result (Some s) }
        // What isn't read has no spelling.
        ensures refused { IsErrOf result ReadFault.Unreadable →
            (s : spec.State) → StateFits s → bytes.now ≡ checkpoint s → ⊥ }
    {
        state_in(alloc, bytes)
    }
}
