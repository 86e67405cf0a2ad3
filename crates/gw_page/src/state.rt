//! How a gateway stands: a text to be read, and the same as JSON.
ghost use Rattle.std.specs.Prelude.{◌≡◌, ◌++◌, IfOk, OnOk, codes, flat_map};
ghost use Rattle.gw_page.specs.Status.{field, flag, who, stand, numbers, line, lines, traffic, room, summary, member, counted, object, next, objects, totals, head};

use crate::texts::{put, put_number, put_printed};
use crate::{Figures, Receiver};
use std::alloc::{AllocError, Global};

/// Adds words with a number behind them.
#[tactic(auto, unfolding(crate::specs::Status::field))]
pub(crate) fn put_field(out: &mut Vec<u8>, words: &[u8], number: u64) -> Result<(), AllocError>
    ensures { OnOk result (out.new.items ≡ out.old.items ++ field words.now number) }
{
    put(out, words)?;
    put_number(out, number)
}

#[tactic(auto, unfolding(crate::specs::Status::flag))]
fn put_flag(out: &mut Vec<u8>, words: &[u8], is_so: bool) -> Result<(), AllocError>
    ensures { OnOk result (out.new.items ≡ out.old.items ++ flag words.now is_so) }
{
    put(out, words)?;
    if is_so {
        return put(out, b"true");
    }
    put(out, b"false")
}

fn put_who(out: &mut Vec<u8>, receiver: &Receiver) -> Result<(), AllocError>
    ensures { OnOk result (out.new.items ≡ out.old.items ++ who receiver.now) }
{
    put_printed(out, receiver.name.as_slice())?;
    put(out, b" at ")?;
    put_printed(out, receiver.address.as_slice())?;
    put(out, b": ")
}

#[tactic(auto, unfolding(crate::specs::Status::stand))]
fn put_stand(out: &mut Vec<u8>, receiver: &Receiver) -> Result<(), AllocError>
    ensures { OnOk result (out.new.items ≡ out.old.items ++ stand receiver.now) }
{
    if receiver.is_held {
        return put(out, b"held");
    }
    if receiver.is_connected {
        return put(out, b"connected");
    }
    put(out, b"not connected")
}

fn put_numbers(out: &mut Vec<u8>, receiver: &Receiver) -> Result<(), AllocError>
    ensures { OnOk result (out.new.items ≡ out.old.items ++ numbers receiver.now) }
{
    put_field(out, b", ", receiver.waiting)?;
    put_field(out, b" wait, the first for ", receiver.oldest)?;
    put_field(out, b" s, taken ", receiver.aa)?;
    put_field(out, b", refused ", receiver.refused)?;
    put_field(out, b", lie refused ", receiver.lying)?;
    put(out, b"\n")
}

fn put_line(out: &mut Vec<u8>, receiver: &Receiver) -> Result<(), AllocError>
    ensures { OnOk result (out.new.items ≡ out.old.items ++ line receiver.now) }
{
    put_who(out, receiver)?;
    put_stand(out, receiver)?;
    put_numbers(out, receiver)
}

fn put_lines(out: &mut Vec<u8>, receivers: &[Receiver]) -> Result<(), AllocError>
    ensures { OnOk result (out.new.items ≡ out.old.items ++ lines receivers.now) }
{
    for receiver in receivers {
        put_line(out, receiver)?;
    }
    Ok(())
}

fn put_traffic(out: &mut Vec<u8>, of: &Figures) -> Result<(), AllocError>
    ensures { OnOk result (out.new.items ≡ out.old.items ++ traffic of.now) }
{
    put_field(out, b"plan ", of.plan)?;
    put_field(out, b", accepted ", of.accepted)?;
    put_field(out, b", refused ", of.refused)?;
    put_field(out, b", ", of.open)?;
    put_field(out, b" connections of ", of.sessions)
}

#[tactic(auto, unfolding(crate::specs::Status::room))]
fn put_room(out: &mut Vec<u8>, of: &Figures) -> Result<(), AllocError>
    ensures { OnOk result (out.new.items ≡ out.old.items ++ room of.now) }
{
    if of.is_short {
        return put(out, b", disk is short of room\n");
    }
    put(out, b", disk has room\n")
}

#[tactic(auto, unfolding(crate::specs::Status::summary))]
fn put_summary(out: &mut Vec<u8>, of: &Figures) -> Result<(), AllocError>
    ensures { OnOk result (out.new.items ≡ out.old.items ++ summary of.now) }
{
    put_traffic(out, of)?;
    put_room(out, of)
}

/// How the gateway stands, to be read: a line for the whole, and one for each receiver. The one error is an allocation failure.
pub fn status(alloc: Global, figures: &Figures) -> Result<Vec<u8>, AllocError>
    ensures { IfOk result (λ text. text.items ≡ summary figures.now ++ lines figures.now.receivers.items) }
{
    let mut out = Vec::new(alloc);
    put_summary(&mut out, figures)?;
    put_lines(&mut out, &figures.receivers)?;
    Ok(out)
}

fn put_member(out: &mut Vec<u8>, receiver: &Receiver) -> Result<(), AllocError>
    ensures { OnOk result (out.new.items ≡ out.old.items ++ member receiver.now) }
{
    put(out, b"{\"name\":\"")?;
    put_printed(out, receiver.name.as_slice())?;
    put(out, b"\"")
}

fn put_counted(out: &mut Vec<u8>, receiver: &Receiver) -> Result<(), AllocError>
    ensures { OnOk result (out.new.items ≡ out.old.items ++ counted receiver.now) }
{
    put_field(out, b",\"waiting\":", receiver.waiting)?;
    put_field(out, b",\"first_waits_seconds\":", receiver.oldest)?;
    put_field(out, b",\"taken\":", receiver.aa)?;
    put_field(out, b",\"refused\":", receiver.refused)?;
    put_field(out, b",\"lie_refused\":", receiver.lying)?;
    put(out, b"}")
}

fn put_object(out: &mut Vec<u8>, receiver: &Receiver) -> Result<(), AllocError>
    ensures { OnOk result (out.new.items ≡ out.old.items ++ object receiver.now) }
{
    put_member(out, receiver)?;
    put_flag(out, b",\"connected\":", receiver.is_connected)?;
    put_flag(out, b",\"held\":", receiver.is_held)?;
    put_counted(out, receiver)
}

#[tactic(auto, unfolding(crate::specs::Status::next))]
fn put_next(out: &mut Vec<u8>, receiver: &Receiver) -> Result<(), AllocError>
    ensures { OnOk result (out.new.items ≡ out.old.items ++ next receiver.now) }
{
    put(out, b",")?;
    put_object(out, receiver)
}

fn put_others(out: &mut Vec<u8>, receivers: &[Receiver]) -> Result<(), AllocError>
    ensures { OnOk result (out.new.items ≡ out.old.items ++ flat_map next receivers.now) }
{
    for receiver in receivers {
        put_next(out, receiver)?;
    }
    Ok(())
}

fn put_objects(out: &mut Vec<u8>, receivers: &[Receiver]) -> Result<(), AllocError>
    ensures { OnOk result (out.new.items ≡ out.old.items ++ objects receivers.now) }
{
    let Some((first, others)) = receivers.split_first() else {
        return Ok(());
    };
    put_object(out, first)?;
    put_others(out, others)
}

fn put_totals(out: &mut Vec<u8>, of: &Figures) -> Result<(), AllocError>
    ensures { OnOk result (out.new.items ≡ out.old.items ++ totals of.now) }
{
    put_field(out, b"{\"plan\":", of.plan)?;
    put_field(out, b",\"accepted\":", of.accepted)?;
    put_field(out, b",\"refused\":", of.refused)?;
    put_field(out, b",\"connections\":", of.open)?;
    put_field(out, b",\"sessions\":", of.sessions)
}

fn put_head(out: &mut Vec<u8>, of: &Figures) -> Result<(), AllocError>
    ensures { OnOk result (out.new.items ≡ out.old.items ++ head of.now) }
{
    put_totals(out, of)?;
    put_flag(out, b",\"short_of_room\":", of.is_short)?;
    put(out, b",\"receivers\":[")
}

/// How the gateway stands, as JSON in one line. The one error is an allocation failure.
pub fn status_json(alloc: Global, figures: &Figures) -> Result<Vec<u8>, AllocError>
    ensures { IfOk result (λ text. text.items ≡ head figures.now ++ objects figures.now.receivers.items ++ codes "]}\n") }
{
    let mut out = Vec::new(alloc);
    put_head(&mut out, figures)?;
    put_objects(&mut out, &figures.receivers)?;
    put(&mut out, b"]}\n")?;
    Ok(out)
}
