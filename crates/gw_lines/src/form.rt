//! Text forms: parsers that take the lines of a text in turn, and then return the value of the whole.
ghost use Rattle.std.specs.Prelude.{◌<◌, ◌+◌, ◌^◌, map, length};
ghost use Rattle.gw_lines.specs.Words.{words, lines};
ghost use Rattle.gw_lines.specs.Reading.{Gives, AnswersLines, AnswersText, with_line, with_lines, is_too_large, Unless};

use crate::lines::lines_of;
use crate::words::{Word, words_of};
use std::alloc::Global;

/// The faults that every text form has. Each form adds its own.
pub trait TextFault: Drop {
    ghost use Rattle.std.specs.Prelude.{◌≡◌, ℕ};

    ghost memory: { Self };

    ghost broken: { ℕ → Self };

    ghost too_large: { Self };

    /// An allocation failed.
    fn memory() -> Self
        ensures { result ≡ memory };

    /// The line of this number has a byte or a quote that no line may have.
    fn broken(at: u32) -> Self
        ensures { result ≡ broken at };

    /// The text has too many bytes or lines.
    fn too_large() -> Self
        ensures { result ≡ too_large };
}

/// A parser of one text form, line by line.
pub trait Form<'a>: Drop {
    ghost use Rattle.std.specs.Prelude.{ℕ, Result, map};
    ghost use Rattle.gw_lines.specs.Seen.{word};
    ghost use Rattle.gw_lines.specs.Reading.{Gives, Step};

    type Value: Drop;

    type Fault: TextFault;

    // The state after a line, by the state before it.
    ghost step: { Step Self Self.Fault };

    // Which results `finish` may return, by the state after the last line.
    ghost gives: { Self → ℕ → Result Self.Value Self.Fault → Type 0 };

    /// Adds a line, by its words.
    fn take(self, at: u32, words: &[Word<'a>]) -> Result<Self, Self::Fault>
        ensures { Gives Self.Fault.memory (λ next. next) result (step self at (map word words.now)) };

    /// The value of all lines; `at` is the number of the line after the last.
    fn finish(self, at: u32) -> Result<Self::Value, Self::Fault>
        ensures { gives self at result };
}

/// Adds a line. Returns the parser with it, or the fault of the line, or the allocation failure.
pub fn take_line<'a, F: Form<'a>>(
    alloc: Global,
    form: F,
    at: u32,
    bytes: &'a [u8],
) -> Result<F, F::Fault>
    ensures { Gives F.Fault.memory (λ next. next) result (with_line (F.Fault.broken at) F.step form at (words bytes.now)) }
{
    match words_of(alloc, bytes) {
        Err(_) => Err(F::Fault::memory()),
        Ok(None) => Err(F::Fault::broken(at)),
        Ok(Some(words)) => {
            if words.is_empty() {
                return Ok(form);
            }
            form.take(at, &words)
        }
    }
}

/// Adds these lines, numbered from `first` on. Returns the parser with all of them, or the fault of the first faulty one, or the allocation
/// failure.
pub fn take_lines<'a, F: Form<'a>>(
    alloc: Global,
    form: F,
    first: u32,
    all: &[&'a [u8]],
) -> Result<F, F::Fault>
    requires { first + length all.now < 2 ^ 32 }
    ensures { Gives F.Fault.memory (λ next. next) result (with_lines F.Fault.broken F.step form first (map (λ line. line.now) all.now)) }
{
    let mut form = form;
    let mut at = first;
    for bytes in all {
        form = match take_line(alloc, form, at, bytes) {
            Err(fault) => return Err(fault),
            Ok(next) => next,
        };
        at += 1;
    }
    Ok(form)
}

fn finish_lines<'a, F: Form<'a>>(
    alloc: Global,
    form: F,
    all: &[&'a [u8]],
) -> Result<F::Value, F::Fault>
    requires { 1 + length all.now < 2 ^ 32 }
    ensures { Unless F.Fault.memory result (AnswersLines F.Fault.broken F.step F.gives form (map (λ line. line.now) all.now) result) }
{
    match take_lines(alloc, form, 1, all) {
        Err(fault) => Err(fault),
        Ok(last) => last.finish(all.len() as u32 + 1),
    }
}

/// Parses a text. Returns its value, or its first fault: it is too large, a line is faulty, or its end is. Or the allocation failure.
pub fn read_text<'a, F: Form<'a>>(
    alloc: Global,
    form: F,
    most_bytes: usize,
    most_lines: usize,
    text: &'a [u8],
) -> Result<F::Value, F::Fault>
    requires { 1 + most_lines < 2 ^ 32 }
    ensures { Unless F.Fault.memory result (AnswersText F.Fault.too_large F.gives (is_too_large most_bytes most_lines text.now)
        (1 + length (lines text.now)) (with_lines F.Fault.broken F.step form 1 (lines text.now)) result) }
{
    if text.len() > most_bytes {
        return Err(F::Fault::too_large());
    }
    let Ok(all) = lines_of(alloc, text) else {
        return Err(F::Fault::memory());
    };
    if all.len() > most_lines {
        return Err(F::Fault::too_large());
    }
    finish_lines(alloc, form, &all)
}
