//! What bytes say.
ghost use Rattle.std.specs.Prelude.{◌≡◌, ◌≤◌, ◌*◌, length, IfOk, IsErrOf, Some};
ghost use Rattle.std.specs.Int.{w32, w64, from_be_bytes};
ghost use Rattle.gw_due.specs.Spelling.{spelled, Fits};
ghost use Rattle.gw_due.specs.Spelling as spelling;
ghost use Rattle.gw_due.specs.Views as view;
ghost use Rattle.gw_due.specs.own.Reading.{Gives, byte_at, number_at, text_at, numbers, receivers_at, how_at, accepted_at, passed_at, named_at, again_at, event_at, entry_of};

use crate::event::{Entry, Event, How};
use crate::fault::ReadFault;
use std::alloc::Global;

pub(crate) fn byte_at(bytes: &[u8]) -> Result<(u8, &[u8]), ReadFault>
    ensures { Gives (λ x. (x.0, x.1.now)) result (byte_at bytes.now) }
{
    match bytes {
        [] => Err(ReadFault::Unreadable),
        [byte, rest @ ..] => Ok((*byte, rest)),
    }
}

fn u32_of(bytes: &[u8]) -> u32
    requires { length bytes.now ≡ 4 }
    ensures { result ≡ from_be_bytes w32 bytes.now }
{
    u32::from_be_bytes([bytes[0], bytes[1], bytes[2], bytes[3]])
}

pub(crate) fn u32_at(bytes: &[u8]) -> Result<(u32, &[u8]), ReadFault>
    ensures { Gives (λ x. (x.0, x.1.now)) result (number_at w32 bytes.now) }
{
    if bytes.len() < 4 {
        return Err(ReadFault::Unreadable);
    }
    let (front, rest) = bytes.split_at(4);
    Ok((u32_of(front), rest))
}

pub(crate) fn u64_at(bytes: &[u8]) -> Result<(u64, &[u8]), ReadFault>
    ensures { Gives (λ x. (x.0, x.1.now)) result (number_at w64 bytes.now) }
{
    if bytes.len() < 8 {
        return Err(ReadFault::Unreadable);
    }
    let (front, rest) = bytes.split_at(8);
    let number = u64::from_be_bytes([
        front[0], front[1], front[2], front[3], front[4], front[5], front[6], front[7],
    ]);
    Ok((number, rest))
}

#[tactic(auto, unfolding(crate::specs::own::Reading::text_at))]
pub(crate) fn text_at(bytes: &[u8]) -> Result<(&[u8], &[u8]), ReadFault>
    ensures { Gives (λ x. (x.0.now, x.1.now)) result (text_at bytes.now) }
{
    let (len, rest) = u32_at(bytes)?;
    let len = len as usize;
    if rest.len() < len {
        return Err(ReadFault::Unreadable);
    }
    Ok(rest.split_at(len))
}

// So many numbers, of which all bytes are there.
fn numbers(alloc: Global, count: usize, bytes: &[u8]) -> Result<Vec<u32>, ReadFault>
    requires { 4 * count ≤ length bytes.now }
    ensures { Gives (λ x. x.items) result (Some (numbers count bytes.now)) }
{
    let mut to = Vec::with_capacity(alloc, count)?;
    let mut rest = bytes;
    for _ in 0..count {
        let (front, after) = rest.split_at(4);
        to.push(u32_of(front))?;
        rest = after;
    }
    Ok(to)
}

// The bytes are counted before room is made for the numbers.
#[tactic(auto, unfolding(crate::specs::own::Reading::receivers_at))]
fn receivers_at(alloc: Global, bytes: &[u8]) -> Result<(Vec<u32>, &[u8]), ReadFault>
    ensures { Gives (λ x. (x.0.items, x.1.now)) result (receivers_at bytes.now) }
{
    let (count, rest) = u32_at(bytes)?;
    let count = count as usize;
    if rest.len() < 4 * count {
        return Err(ReadFault::Unreadable);
    }
    let to = numbers(alloc, count, rest)?;
    Ok((to, &rest[4 * count..]))
}

#[tactic(auto, unfolding(crate::specs::own::Reading::how_at, crate::specs::own::Reading::how_of))]
fn how_at(bytes: &[u8]) -> Result<(How<'_>, &[u8]), ReadFault>
    ensures { Gives (λ x. (view.how x.0, x.1.now)) result (how_at bytes.now) }
{
    let (flag, rest) = byte_at(bytes)?;
    match flag {
        0 => Ok((How::Taken, rest)),
        1 => {
            let (code, rest) = u32_at(rest)?;
            let (reason, rest) = text_at(rest)?;
            Ok((How::Refused { code, reason }, rest))
        }
        2 => Ok((How::Skipped, rest)),
        _ => Err(ReadFault::Unreadable),
    }
}

#[tactic(auto, unfolding(crate::specs::own::Reading::accepted_at))]
fn accepted_at(alloc: Global, bytes: &[u8]) -> Result<(Event<'_>, &[u8]), ReadFault>
    ensures { Gives (λ x. (view.event x.0, x.1.now)) result (accepted_at bytes.now) }
{
    let (number, rest) = u64_at(bytes)?;
    let (to, rest) = receivers_at(alloc, rest)?;
    let (bytes, rest) = text_at(rest)?;
    Ok((Event::Accepted { number, to, bytes }, rest))
}

#[tactic(auto, unfolding(crate::specs::own::Reading::again_at))]
fn again_at(bytes: &[u8]) -> Result<(Event<'_>, &[u8]), ReadFault>
    ensures { Gives (λ x. (view.event x.0, x.1.now)) result (again_at bytes.now) }
{
    let (receiver, rest) = u32_at(bytes)?;
    let (place, rest) = u64_at(rest)?;
    Ok((Event::Again { receiver, place }, rest))
}

#[tactic(auto, unfolding(crate::specs::own::Reading::passed_at))]
fn passed_at(bytes: &[u8]) -> Result<(Event<'_>, &[u8]), ReadFault>
    ensures { Gives (λ x. (view.event x.0, x.1.now)) result (passed_at bytes.now) }
{
    let (receiver, rest) = u32_at(bytes)?;
    let (place, rest) = u64_at(rest)?;
    let (how, rest) = how_at(rest)?;
    let passed = Event::Passed {
        receiver,
        place,
        how,
    };
    Ok((passed, rest))
}

#[tactic(auto, unfolding(crate::specs::own::Reading::named_at))]
fn named_at(bytes: &[u8]) -> Result<(Event<'_>, &[u8]), ReadFault>
    ensures { Gives (λ x. (view.event x.0, x.1.now)) result (named_at bytes.now) }
{
    let (receiver, rest) = u32_at(bytes)?;
    let (name, rest) = text_at(rest)?;
    let (address, rest) = text_at(rest)?;
    let named = Event::Named {
        receiver,
        name,
        address,
    };
    Ok((named, rest))
}

#[tactic(auto, unfolding(crate::specs::own::Reading::event_at, crate::specs::own::Reading::event_of))]
fn event_at(alloc: Global, bytes: &[u8]) -> Result<(Event<'_>, &[u8]), ReadFault>
    ensures { Gives (λ x. (view.event x.0, x.1.now)) result (event_at bytes.now) }
{
    let (tag, rest) = byte_at(bytes)?;
    match tag {
        1 => {
            let (text, rest) = text_at(rest)?;
            Ok((Event::Planned { text }, rest))
        }
        2 => accepted_at(alloc, rest),
        3 => again_at(rest),
        4 => passed_at(rest),
        5 => named_at(rest),
        6 => {
            let (number, rest) = u64_at(rest)?;
            Ok((Event::Margin { number }, rest))
        }
        7 => {
            let (segment, rest) = u64_at(rest)?;
            Ok((Event::Retired { segment }, rest))
        }
        _ => Err(ReadFault::Unreadable),
    }
}

#[tactic(auto, unfolding(crate::specs::own::Reading::entry_of))]
fn entry_of(alloc: Global, bytes: &[u8]) -> Result<Entry<'_>, ReadFault>
    ensures { Gives view.entry result (entry_of bytes.now) }
{
    let (time, rest) = u64_at(bytes)?;
    let (event, rest) = event_at(alloc, rest)?;
    if !rest.is_empty() {
        return Err(ReadFault::Unreadable);
    }
    Ok(Entry { time, event })
}

/// The record that the bytes spell, all of the bytes. It borrows its texts from them, and takes memory for its receivers alone,
/// no more than they have bytes.
pub fn read(alloc: Global, bytes: &[u8]) -> Result<Entry<'_>, ReadFault>
    // What is read is spelled so, and nothing else is.
    ensures found { IfOk result (λ e. Fits (view.entry e) × (bytes.now ≡ spelled (view.entry e))) }
    ensures only { (e : spelling.Entry) → Fits e → bytes.now ≡ spelled e → Gives view.entry result (Some e) }
    // What isn't read has no spelling.
    ensures refused { IsErrOf result ReadFault.Unreadable →
        (e : spelling.Entry) → Fits e → bytes.now ≡ spelled e → ⊥ }
{
    entry_of(alloc, bytes)
}
