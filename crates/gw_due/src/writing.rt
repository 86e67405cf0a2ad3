//! How a record is written.
ghost use Rattle.std.specs.Prelude.{◌≡◌, ◌↔◌, ◌++◌, ◌<◌, ◌^◌, [], length, OnOk, OnErr, IsErrOf, IsTrue};
ghost use Rattle.std.specs.Int.{w32, w64, to_be_bytes};
ghost use Rattle.gw_due.specs.Spelling.{spelled, Fits, EventFits, HowFits, IsShort, AreShort};
ghost use Rattle.gw_due.specs.Spelling as spelling;
ghost use Rattle.gw_due.specs.Views as view;

use crate::event::{Entry, Event, How};
use crate::fault::SpellFault;
use std::alloc::AllocError;

pub(crate) fn is_short(bytes: &[u8]) -> bool
    ensures { IsTrue result ↔ IsShort bytes.now }
{
    bytes.len() <= u32::MAX as usize
}

fn are_short(to: &[u32]) -> bool
    ensures { IsTrue result ↔ AreShort to.now }
{
    to.len() <= u32::MAX as usize
}

fn how_fits(how: &How<'_>) -> bool
    ensures { IsTrue result ↔ HowFits (view.how how.now) }
{
    match how {
        How::Taken => true,
        How::Refused { code, reason } => {
            let _code = *code;
            is_short(reason)
        }
        How::Skipped => true,
    }
}

fn fits(event: &Event<'_>) -> bool
    ensures { IsTrue result ↔ EventFits (view.event event.now) }
{
    match event {
        Event::Planned { text } => is_short(text),
        Event::Accepted { number, to, bytes } => {
            let _number = *number;
            are_short(to) && is_short(bytes)
        }
        Event::Again { receiver, place } => {
            let (_receiver, _place) = (*receiver, *place);
            true
        }
        Event::Passed {
            receiver,
            place,
            how,
        } => {
            let (_receiver, _place) = (*receiver, *place);
            how_fits(how)
        }
        Event::Named {
            receiver,
            name,
            address,
        } => {
            let _receiver = *receiver;
            is_short(name) && is_short(address)
        }
        Event::Margin { number } => {
            let _number = *number;
            true
        }
        Event::Retired { segment } => {
            let _segment = *segment;
            true
        }
    }
}

pub(crate) fn put_text(out: &mut Vec<u8>, text: &[u8]) -> Result<(), AllocError>
    requires { IsShort text.now }
    ensures { OnOk result (out.new.items ≡ out.old.items ++ spelling.text text.now) }
{
    out.extend_from_slice(&(text.len() as u32).to_be_bytes())?;
    out.extend_from_slice(text)
}

fn put_receivers(out: &mut Vec<u8>, to: &[u32]) -> Result<(), AllocError>
    requires { length to.now < 2 ^ 32 }
    ensures { OnOk result (out.new.items ≡ out.old.items ++ spelling.receivers to.now) }
{
    out.extend_from_slice(&(to.len() as u32).to_be_bytes())?;
    for receiver in to {
        out.extend_from_slice(&receiver.to_be_bytes())?;
    }
    Ok(())
}

fn put_how(out: &mut Vec<u8>, how: &How<'_>) -> Result<(), AllocError>
    requires { HowFits (view.how how.now) }
    ensures { OnOk result (out.new.items ≡ out.old.items ++ spelling.how (view.how how.now)) }
{
    match how {
        How::Taken => Ok(out.push(0)?),
        How::Refused { code, reason } => {
            out.push(1)?;
            out.extend_from_slice(&code.to_be_bytes())?;
            put_text(out, reason)
        }
        How::Skipped => Ok(out.push(2)?),
    }
}

fn put_message(out: &mut Vec<u8>, to: &[u32], bytes: &[u8]) -> Result<(), AllocError>
    requires to { length to.now < 2 ^ 32 }
    requires bytes { IsShort bytes.now }
    ensures { OnOk result (out.new.items ≡
        out.old.items ++ (spelling.receivers to.now ++ spelling.text bytes.now)) }
{
    put_receivers(out, to)?;
    put_text(out, bytes)
}

fn put_place(out: &mut Vec<u8>, receiver: u32, place: u64) -> Result<(), AllocError>
    ensures { OnOk result (out.new.items ≡
        out.old.items ++ (to_be_bytes w32 receiver ++ to_be_bytes w64 place)) }
{
    out.extend_from_slice(&receiver.to_be_bytes())?;
    out.extend_from_slice(&place.to_be_bytes())
}

fn put_event(out: &mut Vec<u8>, event: &Event<'_>) -> Result<(), AllocError>
    requires { EventFits (view.event event.now) }
    ensures { OnOk result (out.new.items ≡ out.old.items ++ spelling.event (view.event event.now)) }
{
    match event {
        Event::Planned { text } => {
            out.push(1)?;
            put_text(out, text)
        }
        Event::Accepted { number, to, bytes } => {
            out.push(2)?;
            out.extend_from_slice(&number.to_be_bytes())?;
            put_message(out, to, bytes)
        }
        Event::Again { receiver, place } => {
            out.push(3)?;
            put_place(out, *receiver, *place)
        }
        Event::Passed {
            receiver,
            place,
            how,
        } => {
            out.push(4)?;
            put_place(out, *receiver, *place)?;
            put_how(out, how)
        }
        Event::Named {
            receiver,
            name,
            address,
        } => {
            out.push(5)?;
            out.extend_from_slice(&receiver.to_be_bytes())?;
            put_text(out, name)?;
            put_text(out, address)
        }
        Event::Margin { number } => {
            out.push(6)?;
            out.extend_from_slice(&number.to_be_bytes())
        }
        Event::Retired { segment } => {
            out.push(7)?;
            out.extend_from_slice(&segment.to_be_bytes())
        }
    }
}

fn put(out: &mut Vec<u8>, entry: &Entry<'_>) -> Result<(), AllocError>
    requires { EventFits (view.event entry.now.event) }
    ensures { OnOk result (out.new.items ≡ out.old.items ++ spelled (view.entry entry.now)) }
{
    out.extend_from_slice(&entry.time.to_be_bytes())?;
    put_event(out, &entry.event)
}

/// Writes the record into the buffer, whose bytes it replaces. After a fault the buffer is empty.
pub fn spell(entry: &Entry<'_>, buffer: &mut Vec<u8>) -> Result<(), SpellFault>
    ensures ok { OnOk result (buffer.new.items ≡ spelled (view.entry entry.now)) }
    ensures fits { OnOk result (Fits (view.entry entry.now)) }
    ensures err { OnErr result (buffer.new.items ≡ []) }
    ensures too_long { IsErrOf result SpellFault.TooLong → Fits (view.entry entry.now) → ⊥ }
{
    buffer.clear();
    if !fits(&entry.event) {
        return Err(SpellFault::TooLong);
    }
    let _time = entry.time;
    match put(buffer, entry) {
        Ok(()) => Ok(()),
        Err(_) => {
            buffer.clear();
            Err(SpellFault::Memory)
        }
    }
}
