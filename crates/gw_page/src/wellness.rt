//! Whether a gateway is well, and why not.
ghost use Rattle.std.specs.Prelude.{◌≡◌, ◌++◌, IfOk, OnOk, flat_map};
ghost use Rattle.std.specs.List.{list_all};
ghost use Rattle.gw_page.specs.Health.{is_here, is_near, is_well, why, hold, complaint, reason, failure, shortage, reasons, lain, note, notes, verdict, health};

use crate::state::put_field;
use crate::texts::{put, put_number};
use crate::{Figures, Receiver};
use std::alloc::{AllocError, Global};

fn is_here(late: u64, receiver: &Receiver) -> bool
    ensures { result ≡ is_here late receiver.now }
{
    receiver.is_connected || receiver.down <= late
}

fn is_near(late: u64, receiver: &Receiver) -> bool
    ensures { result ≡ is_near late receiver.now }
{
    is_here(late, receiver) && receiver.oldest <= late
}

fn are_near(late: u64, receivers: &[Receiver]) -> bool
    ensures { result ≡ list_all (is_near late) receivers.now }
{
    for receiver in receivers {
        if !is_near(late, receiver) {
            return false;
        }
    }
    true
}

/// Whether the gateway goes on, its disk has room, and no receiver is late.
/// A receiver is late where it hasn't been connected for more than `late` seconds, or its first waits for longer.
pub fn is_well(figures: &Figures) -> bool
    ensures { result ≡ is_well figures.now }
{
    !figures.has_failed && !figures.is_short && are_near(figures.late, &figures.receivers)
}

#[tactic(auto, unfolding(crate::specs::Health::why))]
fn put_why(out: &mut Vec<u8>, here: bool, receiver: &Receiver) -> Result<(), AllocError>
    ensures { OnOk result (out.new.items ≡ out.old.items ++ why here receiver.now) }
{
    if here {
        return put_field(out, b" has taken nothing for ", receiver.oldest);
    }
    put_field(out, b" has not been connected for ", receiver.down)
}

#[tactic(auto, unfolding(crate::specs::Health::hold))]
fn put_hold(out: &mut Vec<u8>, receiver: &Receiver) -> Result<(), AllocError>
    ensures { OnOk result (out.new.items ≡ out.old.items ++ hold receiver.now) }
{
    if receiver.is_held {
        return put(out, b" s; it is held\n");
    }
    put(out, b" s\n")
}

fn put_complaint(out: &mut Vec<u8>, late: u64, receiver: &Receiver) -> Result<(), AllocError>
    ensures { OnOk result (out.new.items ≡ out.old.items ++ complaint late receiver.now) }
{
    put(out, b"receiver ")?;
    put(out, receiver.name.as_slice())?;
    put_why(out, is_here(late, receiver), receiver)?;
    put_hold(out, receiver)
}

#[tactic(auto, unfolding(crate::specs::Health::reason))]
fn put_reason(out: &mut Vec<u8>, late: u64, receiver: &Receiver) -> Result<(), AllocError>
    ensures { OnOk result (out.new.items ≡ out.old.items ++ reason late receiver.now) }
{
    if is_near(late, receiver) {
        return Ok(());
    }
    put_complaint(out, late, receiver)
}

fn put_late(out: &mut Vec<u8>, late: u64, receivers: &[Receiver]) -> Result<(), AllocError>
    ensures { OnOk result (out.new.items ≡ out.old.items ++ flat_map (reason late) receivers.now) }
{
    for receiver in receivers {
        put_reason(out, late, receiver)?;
    }
    Ok(())
}

#[tactic(auto, unfolding(crate::specs::Health::failure))]
fn put_failure(out: &mut Vec<u8>, figures: &Figures) -> Result<(), AllocError>
    ensures { OnOk result (out.new.items ≡ out.old.items ++ failure figures.now) }
{
    if figures.has_failed {
        return put(out, b"the gateway can't go on\n");
    }
    Ok(())
}

#[tactic(auto, unfolding(crate::specs::Health::shortage))]
fn put_shortage(out: &mut Vec<u8>, figures: &Figures) -> Result<(), AllocError>
    ensures { OnOk result (out.new.items ≡ out.old.items ++ shortage figures.now) }
{
    if figures.is_short {
        return put(out, b"the disk is short of room\n");
    }
    Ok(())
}

fn put_reasons(out: &mut Vec<u8>, figures: &Figures) -> Result<(), AllocError>
    ensures { OnOk result (out.new.items ≡ out.old.items ++ reasons figures.now) }
{
    put_failure(out, figures)?;
    put_shortage(out, figures)?;
    put_late(out, figures.late, &figures.receivers)
}

fn put_lain(out: &mut Vec<u8>, receiver: &Receiver) -> Result<(), AllocError>
    ensures { OnOk result (out.new.items ≡ out.old.items ++ lain receiver.now) }
{
    put(out, b"receiver ")?;
    put(out, receiver.name.as_slice())?;
    put(out, b": messages refused and not sent again: ")?;
    put_number(out, receiver.lying)?;
    put(out, b"\n")
}

#[tactic(auto, unfolding(crate::specs::Health::note))]
fn put_note(out: &mut Vec<u8>, receiver: &Receiver) -> Result<(), AllocError>
    ensures { OnOk result (out.new.items ≡ out.old.items ++ note receiver.now) }
{
    if receiver.lying == 0 {
        return Ok(());
    }
    put_lain(out, receiver)
}

/// Adds a line for each receiver by which something lies refused.
pub(crate) fn put_notes(out: &mut Vec<u8>, receivers: &[Receiver]) -> Result<(), AllocError>
    ensures { OnOk result (out.new.items ≡ out.old.items ++ notes receivers.now) }
{
    for receiver in receivers {
        put_note(out, receiver)?;
    }
    Ok(())
}

#[tactic(auto, unfolding(crate::specs::Health::verdict))]
fn put_verdict(out: &mut Vec<u8>, figures: &Figures) -> Result<(), AllocError>
    ensures { OnOk result (out.new.items ≡ out.old.items ++ verdict figures.now) }
{
    if is_well(figures) {
        return put(out, b"ok\n");
    }
    put_reasons(out, figures)
}

/// `ok`, or a line for each reason why the gateway isn't well. Behind it comes a line for each receiver by which something lies refused.
/// The one error is an allocation failure.
#[tactic(auto, unfolding(crate::specs::Health::health))]
pub fn health(alloc: Global, figures: &Figures) -> Result<Vec<u8>, AllocError>
    ensures { IfOk result (λ text. text.items ≡ health figures.now) }
{
    let mut out = Vec::new(alloc);
    put_verdict(&mut out, figures)?;
    put_notes(&mut out, &figures.receivers)?;
    Ok(out)
}
