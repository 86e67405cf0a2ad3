//! The rows of the page.
ghost use Rattle.std.specs.Prelude.{◌≡◌, ◌++◌, OnOk, decimal};
ghost use Rattle.gw_page.specs.Escapes.{escaped};
ghost use Rattle.gw_page.specs.Rows.{cell, connection, standing, header, counts, row, rows, date, clock, readable, rejected, meaning, reason, entry, entries};

use crate::texts::{put, put_escaped, put_number};
use crate::{Receiver, Refusal};
use std::alloc::AllocError;

#[tactic(auto, unfolding(crate::specs::Rows::cell))]
fn put_count(out: &mut Vec<u8>, count: u64) -> Result<(), AllocError>
    ensures { OnOk result (out.new.items ≡ out.old.items ++ cell (decimal count)) }
{
    put(out, b"<td>")?;
    put_number(out, count)?;
    put(out, b"</td>")
}

#[tactic(auto, unfolding(crate::specs::Rows::cell))]
fn put_cell(out: &mut Vec<u8>, text: &[u8]) -> Result<(), AllocError>
    ensures { OnOk result (out.new.items ≡ out.old.items ++ cell (escaped text.now)) }
{
    put(out, b"<td>")?;
    put_escaped(out, text)?;
    put(out, b"</td>")
}

#[tactic(auto, unfolding(crate::specs::Rows::connection))]
fn put_connection(out: &mut Vec<u8>, receiver: &Receiver) -> Result<(), AllocError>
    ensures { OnOk result (out.new.items ≡ out.old.items ++ connection receiver.now) }
{
    if receiver.is_connected {
        return put(out, b"connected");
    }
    put(out, b"<strong>not connected</strong> for ")?;
    put_number(out, receiver.down)?;
    put(out, b" s")
}

#[tactic(auto, unfolding(crate::specs::Rows::standing))]
fn put_standing(out: &mut Vec<u8>, receiver: &Receiver) -> Result<(), AllocError>
    ensures { OnOk result (out.new.items ≡ out.old.items ++ standing receiver.now) }
{
    put_connection(out, receiver)?;
    if receiver.is_held {
        return put(out, b", held");
    }
    Ok(())
}

fn put_header(out: &mut Vec<u8>, receiver: &Receiver) -> Result<(), AllocError>
    ensures { OnOk result (out.new.items ≡ out.old.items ++ header receiver.now) }
{
    put(out, b"<th scope=\"row\">")?;
    put_escaped(out, receiver.name.as_slice())?;
    put(out, b"</th><td>")?;
    put_standing(out, receiver)?;
    put(out, b"</td>")
}

fn put_counts(out: &mut Vec<u8>, receiver: &Receiver) -> Result<(), AllocError>
    ensures { OnOk result (out.new.items ≡ out.old.items ++ counts receiver.now) }
{
    put_count(out, receiver.waiting)?;
    put_count(out, receiver.oldest)?;
    put_count(out, receiver.sent)?;
    put_count(out, receiver.aa)?;
    put_count(out, receiver.ae)?;
    put_count(out, receiver.ar)?;
    put_count(out, receiver.lying)
}

fn put_row(out: &mut Vec<u8>, receiver: &Receiver) -> Result<(), AllocError>
    ensures { OnOk result (out.new.items ≡ out.old.items ++ row receiver.now) }
{
    put(out, b"<tr>")?;
    put_header(out, receiver)?;
    put_counts(out, receiver)?;
    put_cell(out, receiver.why.as_slice())?;
    put(out, b"</tr>\n")
}

/// Adds a row for each receiver.
pub(crate) fn put_rows(out: &mut Vec<u8>, receivers: &[Receiver]) -> Result<(), AllocError>
    ensures { OnOk result (out.new.items ≡ out.old.items ++ rows receivers.now) }
{
    for receiver in receivers {
        put_row(out, receiver)?;
    }
    Ok(())
}

fn put_date(out: &mut Vec<u8>, time: &[u8; 14]) -> Result<(), AllocError>
    ensures { OnOk result (out.new.items ≡ out.old.items ++ date time.now) }
{
    put(out, &time[..4])?;
    put(out, b"-")?;
    put(out, &time[4..6])?;
    put(out, b"-")?;
    put(out, &time[6..8])
}

fn put_clock(out: &mut Vec<u8>, time: &[u8; 14]) -> Result<(), AllocError>
    ensures { OnOk result (out.new.items ≡ out.old.items ++ clock time.now) }
{
    put(out, &time[8..10])?;
    put(out, b":")?;
    put(out, &time[10..12])?;
    put(out, b":")?;
    put(out, &time[12..])
}

/// Adds a time as it is read: YYYY-MM-DD HH:MM:SS.
pub(crate) fn put_time(out: &mut Vec<u8>, time: &[u8; 14]) -> Result<(), AllocError>
    ensures { OnOk result (out.new.items ≡ out.old.items ++ readable time.now) }
{
    put_date(out, time)?;
    put(out, b" ")?;
    put_clock(out, time)
}

#[tactic(auto, unfolding(crate::specs::Rows::cell))]
fn put_moment(out: &mut Vec<u8>, time: &[u8; 14]) -> Result<(), AllocError>
    ensures { OnOk result (out.new.items ≡ out.old.items ++ cell (readable time.now)) }
{
    put(out, b"<td>")?;
    put_time(out, time)?;
    put(out, b"</td>")
}

#[tactic(auto, unfolding(crate::specs::Rows::rejected))]
fn rejected(code: &[u8]) -> &'static [u8]
    ensures { result.now ≡ rejected code.now }
{
    if code == b"200".as_slice() {
        return b" Unsupported message type";
    }
    if code == b"201".as_slice() {
        return b" Unsupported event code";
    }
    if code == b"202".as_slice() {
        return b" Unsupported processing id";
    }
    if code == b"203".as_slice() {
        return b" Unsupported version id";
    }
    if code == b"204".as_slice() {
        return b" Unknown key identifier";
    }
    if code == b"205".as_slice() {
        return b" Duplicate key identifier";
    }
    if code == b"206".as_slice() {
        return b" Application record locked";
    }
    if code == b"207".as_slice() {
        return b" Application internal error";
    }
    &[]
}

/// What a condition code says (HL7 table 0357), behind a space. Nothing of another one.
#[tactic(auto, unfolding(crate::specs::Rows::meaning))]
fn meaning(code: &[u8]) -> &'static [u8]
    ensures { result.now ≡ meaning code.now }
{
    if code == b"100".as_slice() {
        return b" Segment sequence error";
    }
    if code == b"101".as_slice() {
        return b" Required field missing";
    }
    if code == b"102".as_slice() {
        return b" Data type error";
    }
    if code == b"103".as_slice() {
        return b" Table value not found";
    }
    rejected(code)
}

fn put_reason(out: &mut Vec<u8>, code: &[u8]) -> Result<(), AllocError>
    ensures { OnOk result (out.new.items ≡ out.old.items ++ reason code.now) }
{
    put(out, b"<td>")?;
    put_escaped(out, code)?;
    put(out, meaning(code))?;
    put(out, b"</td>")
}

fn put_entry(out: &mut Vec<u8>, refusal: &Refusal) -> Result<(), AllocError>
    ensures { OnOk result (out.new.items ≡ out.old.items ++ entry refusal.now) }
{
    put(out, b"<tr>")?;
    put_moment(out, &refusal.time)?;
    put_count(out, refusal.session)?;
    put_cell(out, &refusal.from)?;
    put_cell(out, &refusal.number)?;
    put_cell(out, &refusal.answer)?;
    put_reason(out, &refusal.code)?;
    put_cell(out, &refusal.place)?;
    put(out, b"</tr>\n")
}

/// Adds a row for each refusal.
pub(crate) fn put_entries(out: &mut Vec<u8>, refusals: &[Refusal]) -> Result<(), AllocError>
    ensures { OnOk result (out.new.items ≡ out.old.items ++ entries refusals.now) }
{
    for refusal in refusals {
        put_entry(out, refusal)?;
    }
    Ok(())
}
