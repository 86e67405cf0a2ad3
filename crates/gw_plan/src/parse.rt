//! Parsing of a plan.
ghost use Rattle.std.specs.Prelude.{◌≡◌, ◌<◌, ◌≤◌, ◌+◌, map, length, IfOk, OnOk, Some};
ghost use Rattle.gw_lines.specs.Reading.{Gives};
ghost use Rattle.gw_lines.specs.Seen.{word};
ghost use Rattle.gw_lines.specs.Words.{words};
ghost use Rattle.gw_plan.specs.declared.fault.PlanFault.TheVariants as fault;
ghost use Rattle.gw_plan.specs.Draft.{nothing};
ghost use Rattle.gw_plan.specs.own.SoFar.{draft_value, IsKept, Makes, MakesBy};
ghost use Rattle.gw_plan.specs.Held.{plan_value};
ghost use Rattle.gw_plan.specs.Line as lines;
ghost use Rattle.gw_plan.specs.own.Made.{inner};
ghost use Rattle.gw_plan.specs.Seen.{line, now_all};
ghost use Rattle.gw_plan.specs.Whole as spec;

use crate::draft::Draft;
use crate::fault::PlanFault;
use crate::form::{Kind, Line, form, is_stop};
use crate::inner::Inner;
use crate::plan::Plan;
use gw_lines::{Word, lines_of, words_of};
use std::alloc::{AllocError, Global};

const MAX_BYTES: usize = 4_194_304;

const MAX_LINES: usize = 40_000;

// Whether a line is the word `stop`.
fn stops(alloc: Global, bytes: &[u8]) -> Result<bool, AllocError>
    ensures { IfOk result (λ b. b ≡ lines.is_stop bytes.now) }
{
    let words = words_of(alloc, bytes)?;
    Ok(is_stop(&words))
}

// The inner text after the `begin` line of this number, among the lines that follow.
fn inner_at<'x, 'a>(
    alloc: Global,
    at: u64,
    more: &'x [&'a [u8]],
) -> Result<Inner<'x, 'a>, AllocError>
    ensures { IfOk result (λ p. inner p ≡ spec.inner at (now_all more.now)) }
{
    for (i, bytes) in more.iter().enumerate() {
        if stops(alloc, bytes)? {
            return Ok(Inner {
                at,
                lines: &more[..i],
                stopped: true,
            });
        }
    }
    Ok(Inner {
        at,
        lines: more,
        stopped: false,
    })
}

// Adds a profile or a map. Returns how many of the following lines it has.
fn take_inner(
    alloc: Global,
    draft: &mut Draft,
    at: u64,
    kind: &Kind,
    more: &[&[u8]],
) -> Result<usize, PlanFault>
    requires kept { IsKept draft.old }
    requires few { at + length more.now < 4294967296 }
    ensures value { MakesBy draft.new result (spec.takes_inner (draft_value draft.old) at kind.now (now_all more.now)) }
    ensures kept { OnOk result (IsKept draft.new) }
{
    if !draft.begun {
        return Err(PlanFault::Syntax(at));
    }
    let part = inner_at(alloc, at, more)?;
    draft.add(alloc, kind, &part)?;
    Ok(part.lines.len() + 1)
}

// Adds a line. Returns how many of the following lines belong to it.
fn take_line(
    alloc: Global,
    draft: &mut Draft,
    at: u64,
    whole: &Line<'_>,
    more: &[&[u8]],
) -> Result<usize, PlanFault>
    requires kept { IsKept draft.old }
    requires few { at + length more.now < 4294967296 }
    ensures value { MakesBy draft.new result (spec.takes_line (draft_value draft.old) at (Some (line whole.now)) (now_all more.now)) }
    ensures kept { OnOk result (IsKept draft.new) }
{
    match whole {
        Line::Opens(kind) => take_inner(alloc, draft, at, kind, more),
        _ => {
            draft.take(alloc, at, whole)?;
            Ok(0)
        }
    }
}

// The same for the words of a line that isn't passed over.
fn take_words(
    alloc: Global,
    draft: &mut Draft,
    at: u64,
    words: &[Word<'_>],
    more: &[&[u8]],
) -> Result<usize, PlanFault>
    requires kept { IsKept draft.old }
    requires few { at + length more.now < 4294967296 }
    ensures value { MakesBy draft.new result (spec.takes_line (draft_value draft.old) at (lines.form (map word words.now)) (now_all more.now)) }
    ensures kept { OnOk result (IsKept draft.new) }
{
    let Some(whole) = form(alloc, words)? else {
        return Err(PlanFault::Syntax(at));
    };
    take_line(alloc, draft, at, &whole, more)
}

// The same for the bytes of a line.
fn take_bytes(
    alloc: Global,
    draft: &mut Draft,
    at: u64,
    bytes: &[u8],
    more: &[&[u8]],
) -> Result<usize, PlanFault>
    requires kept { IsKept draft.old }
    requires few { at + length more.now < 4294967296 }
    ensures value { MakesBy draft.new result (spec.takes_words (draft_value draft.old) at (words bytes.now) (now_all more.now)) }
    ensures kept { OnOk result (IsKept draft.new) }
{
    let Some(words) = words_of(alloc, bytes)? else {
        return Err(PlanFault::Syntax(at));
    };
    if words.is_empty() {
        return Ok(0);
    }
    take_words(alloc, draft, at, &words, more)
}

// Adds a line, or skips it while `skip` isn't 0. Returns how many of the following lines to skip.
fn take_next(
    alloc: Global,
    draft: &mut Draft,
    skip: usize,
    at: u64,
    bytes: &[u8],
    more: &[&[u8]],
) -> Result<usize, PlanFault>
    requires kept { IsKept draft.old }
    requires few { at + length more.now < 4294967296 }
    ensures value { MakesBy draft.new result (spec.takes_next (draft_value draft.old) skip at bytes.now (now_all more.now)) }
    ensures kept { OnOk result (IsKept draft.new) }
{
    if skip > 0 {
        return Ok(skip - 1);
    }
    take_bytes(alloc, draft, at, bytes, more)
}

// Adds all lines.
fn take_lines(alloc: Global, draft: &mut Draft, all: &[&[u8]]) -> Result<(), PlanFault>
    requires kept { IsKept draft.old }
    requires few { length all.now ≤ spec.most_lines }
    ensures value { Makes draft.new result (spec.reads (draft_value draft.old) 0 1 (now_all all.now)) }
    ensures kept { OnOk result (IsKept draft.new) }
{
    let mut skip: usize = 0;
    for (i, bytes) in all.iter().enumerate() {
        skip = take_next(alloc, draft, skip, i as u64 + 1, bytes, &all[i + 1..])?;
    }
    Ok(())
}

// Adds the lines of a text. The first one is the plan's own first line.
fn take_text(alloc: Global, draft: &mut Draft, text: &[u8]) -> Result<(), PlanFault>
    requires kept { IsKept draft.old }
    requires nothing { draft_value draft.old ≡ nothing }
    ensures value { Makes draft.new result (spec.drafted text.now) }
    ensures kept { OnOk result (IsKept draft.new) }
{
    if text.len() > MAX_BYTES {
        return Err(PlanFault::TooLarge);
    }
    let all = lines_of(alloc, text)?;
    if all.len() > MAX_LINES {
        return Err(PlanFault::TooLarge);
    }
    take_lines(alloc, draft, &all)?;
    if !draft.begun {
        return Err(PlanFault::Syntax(all.len() as u64 + 1));
    }
    Ok(())
}

// Adds the lines of a text. Returns a copy of the text.
fn take_copy(alloc: Global, draft: &mut Draft, text: &[u8]) -> Result<Vec<u8>, PlanFault>
    requires kept { IsKept draft.old }
    requires nothing { draft_value draft.old ≡ nothing }
    ensures value { Makes draft.new result (spec.drafted text.now) }
    ensures copy { IfOk result (λ copy. copy.items ≡ text.now) }
    ensures kept { OnOk result (IsKept draft.new) }
{
    take_text(alloc, draft, text)?;
    Ok(Vec::from_slice(alloc, text)?)
}

impl Plan {
    /// Parses a plan. Returns it, or the first fault of the text.
    pub fn parse(alloc: Global, text: &[u8]) -> Result<Plan, PlanFault>
        ensures value { Gives fault.Memory plan_value result (spec.spelled text.now) }
        ensures text { IfOk result (λ p. p.text ≡ text.now) }
    {
        let mut draft = Draft::new(alloc);
        match take_copy(alloc, &mut draft, text) {
            Err(fault) => Err(fault),
            Ok(copy) => Ok(Plan::of(alloc, draft, copy)?),
        }
    }
}
