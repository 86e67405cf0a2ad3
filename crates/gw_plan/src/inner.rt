//! The profiles and maps of a plan: texts of their own between `begin` and `stop`.
ghost use Rattle.std.specs.Prelude.{◌≡◌, ◌+◌, ◌<◌, ◌^◌, map, length, IfOk, is_some};
ghost use Rattle.std.specs.Option.{option_map};
ghost use Rattle.gw_lines.specs.Seen.{word};
ghost use Rattle.gw_lines.specs.Words.{words};
ghost use Rattle.gw_plan.specs.Inner as spec;
ghost use Rattle.gw_plan.specs.Joined.{joined};
ghost use Rattle.gw_plan.specs.own.Made.{inner, IsNumbered};

use crate::fault::PlanFault;
use crate::fault_order::earliest;
use gw_lines::{Word, words_of};
use std::alloc::{AllocError, Global};

/// The lines between the `begin` line of this number and its `stop` line; or up to the end of the plan, if no `stop` follows.
#[derive(Clone, Copy, Drop)]
pub(crate) struct Inner<'x, 'a> {
    pub(crate) at: u64,
    pub(crate) lines: &'x [&'a [u8]],
    pub(crate) stopped: bool,
}

/// The lines joined to one text, each with its end.
pub(crate) fn joined(alloc: Global, lines: &[&[u8]]) -> Result<Vec<u8>, AllocError>
    ensures { IfOk result (λ text. text.items ≡ joined (map (λ line. line.now) lines.now)) }
{
    let mut text = Vec::new(alloc);
    for line in lines {
        text.extend_from_slice(line)?;
        text.push(b'\n')?;
    }
    Ok(text)
}

// Whether a line has only bytes and quotes that are allowed.
fn is_lawful(alloc: Global, line: &[u8]) -> Result<bool, AllocError>
    ensures { IfOk result (λ lawful. lawful ≡ is_some (words line.now)) }
{
    let words = words_of(alloc, line)?;
    Ok(words.is_some())
}

// The number of the first line with a byte or a quote that isn't allowed. The lines are numbered from `at` on.
fn broken(alloc: Global, first: u64, lines: &[&[u8]]) -> Result<Option<PlanFault>, AllocError>
    requires { first + length lines.now < 2 ^ 64 }
    ensures { IfOk result (λ fault. fault ≡ spec.broken first (map (λ line. line.now) lines.now)) }
{
    for (i, line) in lines.iter().enumerate() {
        if !is_lawful(alloc, line)? {
            return Ok(Some(PlanFault::Syntax(first + i as u64)));
        }
    }
    Ok(None)
}

/// The number of the line after the last.
pub(crate) fn line_after(part: &Inner<'_, '_>) -> u64
    requires { IsNumbered (inner part.now) }
    ensures { result ≡ part.now.at + length part.now.lines.now + 1 }
{
    part.at + part.lines.len() as u64 + 1
}

// The fault that no `stop` line follows.
fn unstopped(part: &Inner<'_, '_>) -> Option<PlanFault>
    requires { IsNumbered (inner part.now) }
    ensures { result ≡ spec.unstopped (inner part.now) }
{
    if part.stopped {
        None
    } else {
        Some(PlanFault::Syntax(line_after(part)))
    }
}

/// The first fault that doesn't depend on the language of the inner text.
pub(crate) fn common(alloc: Global, part: &Inner<'_, '_>) -> Result<Option<PlanFault>, AllocError>
    requires { IsNumbered (inner part.now) }
    ensures { IfOk result (λ fault. fault ≡ spec.common (inner part.now)) }
{
    let found = broken(alloc, part.at + 1, part.lines)?;
    Ok(earliest(found, unstopped(part)))
}

/// The words of the first line that isn't passed over, with its number; `None` if that line is broken. The lines are numbered from `at` on.
pub(crate) fn first_said<'a>(
    alloc: Global,
    first: u64,
    lines: &[&'a [u8]],
) -> Result<Option<(u64, Vec<Word<'a>>)>, AllocError>
    requires { first + length lines.now < 2 ^ 64 }
    ensures { IfOk result (λ said. option_map (λ s. (s.0, map word s.1.items)) said ≡ spec.first_said first (map (λ line. line.now) lines.now)) }
{
    for (i, line) in lines.iter().enumerate() {
        let Some(words) = words_of(alloc, line)? else {
            return Ok(None);
        };
        if !words.is_empty() {
            return Ok(Some((first + i as u64, words)));
        }
    }
    Ok(None)
}
