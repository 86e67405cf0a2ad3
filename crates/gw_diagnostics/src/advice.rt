//! What a person needs of a map that a rule refuses: the file and its line, what the rule demands, and what to do.
ghost use Rattle.std.specs.Prelude.{◌≡◌, ◌+◌, ◌-◌, ◌^◌, min, IfOk};
ghost use Rattle.gw_diagnostics.specs.Order.{place_of, AreInOrder};

use crate::elements::Named;
use crate::judged::ProfilePair;
use crate::subjects::{Telling, first_absent};
use crate::words::say;
use gw_check::{Site, SourceUse, site_at};
use gw_maplang::Map;
use gw_resolve::Failure;
use std::alloc::{AllocError, Global};
use std::collections::BTreeMap;
use std::io::Write;

/// The rules up to this one are on labels: of them the line itself says what they speak of.
const LAST_OF_LABELS: u8 = 3;

/// What each rule demands, and behind the colon what to do.
const ADVICE: [&str; 13] = [
    "each path leads somewhere in the source: write its labels as the source profile has them; a field is read of a segment",
    "what is read comes once: walk it by `segment .. from` or `flat each` and read below that, read what comes once, or take the `first`",
    "target labels stand at this level of the target profile and in its order, and those in a `flat` are one: move or rename the item",
    "no more than the target takes: of a field take `first`, of a segment or group walk what comes less often or leave an item out, or let the target profile take more",
    "what the target requires is always there: read what the source requires, or let the source profile require it or the target profile ask for less",
    "each value stands in the target's table: translate by a `lookup`, or list the source's values in its profile",
    "no value is longer than the target takes: give the source a length in its profile that the target takes, or let the target profile take more",
    "what the target asks for is said: add an item or a rule for it, or make it O in the target profile",
    "what the source requires is read or dropped: add a rule that reads it, or a `drop`",
    "each value that is looked up has a row: add the row, or an `else`",
    "the target doesn't want this: leave the rule out",
    "a constant stands in the target's table and is no longer than the target takes: write another",
    "a condition can hold, and an alternative can be reached: mend the value, or leave the line out",
];

/// The file of a map, its text, and how many lines of the file come before it.
pub struct Written<'a> {
    pub path: &'a str,
    pub text: Vec<u8>,
    pub above: u32,
}

// (this and the next by hand, so that no crate above proves again how their fields are dropped)
impl Drop for Written<'_> {
    fn drop(self) {
        let Written {
            path: _,
            text: _,
            above: _,
        } = self;
    }
}

/// A map that a rule refuses: the least failure, all of them, and what the map makes of its source.
pub struct Refused {
    pub least: Failure,
    pub failures: Vec<Failure>,
    pub used: SourceUse,
    pub map: Map,
}

impl Drop for Refused {
    fn drop(self) {
        let Refused {
            least: _,
            failures: _,
            used: _,
            map: _,
        } = self;
    }
}

/// A map that a rule refuses, with its text and its profiles.
#[derive(Clone, Copy)]
pub struct Refusal<'a> {
    pub sides: &'a ProfilePair,
    pub written: &'a Written<'a>,
    pub refused: &'a Refused,
}

/// What a rule demands, and what to do.
pub(crate) fn advice(rule: u8) -> &'static str {
    ADVICE
        .get(usize::from(rule).wrapping_sub(1))
        .map_or("", |said| *said)
}

/// What stands before the first of these bytes, and what stands behind it; without one all stands before it.
fn cut(text: &[u8], byte: u8) -> (&[u8], &[u8]) {
    match text.iter().position(|found| *found == byte) {
        None => (text, &[]),
        Some(at) => (&text[..at], &text[at + 1..]),
    }
}

/// What comes behind the first `lines` lines.
pub(crate) fn behind(text: &[u8], lines: u32) -> &[u8] {
    let mut rest = text;
    for _ in 0..lines {
        rest = cut(rest, b'\n').1;
    }
    rest
}

/// The line of this number, from 1, without the blanks around it.
pub(crate) fn line_at(text: &[u8], number: u32) -> &[u8] {
    if number == 0 {
        return &[];
    }
    cut(behind(text, number - 1), b'\n').0.trim_ascii()
}

/// The place of a failure in the report: by line, and of a line by rule.
fn place_of(failure: &Failure) -> u64
    ensures { result ≡ place_of failure.now }
{
    let (line, rule): (u32, u8) = (failure.mark.line, failure.rule);
    u64::from(line) * 256 + u64::from(rule)
}

/// Whether failures are of one rule at one line: these are reported together.
fn is_alike(one: &Failure, other: &Failure) -> bool {
    place_of(one) == place_of(other)
}

impl Refusal<'_> {
    /// The number of the least rule that fails, and the line of the file at which it fails first.
    pub fn rule(&self) -> (u8, u32)
        ensures rule { result.0 ≡ self.now.refused.now.least.rule }
        ensures line { result.1 ≡ min (self.now.written.now.above + self.now.refused.now.least.mark.line) (2 ^ 32 - 1) }
    {
        let Failure { rule, mark } = self.refused.least;
        (rule, self.written.above.saturating_add(mark.line))
    }

    /// The failures in the order in which they are reported: by line, of a line by rule, of a rule as the definition has them.
    pub fn in_order(&self, alloc: Global) -> Result<Vec<Failure>, AllocError>
        ensures { IfOk result (λ failures. AreInOrder self.now.refused.now.failures.items failures.items) }
    {
        let mut failures = Vec::from_slice(alloc, &self.refused.failures)?;
        failures.sort_by_key(
            |failure: &Failure| -> u64
                ensures { result ≡ place_of failure.now }
            { place_of(failure) },
        )?;
        Ok(failures)
    }

    /// Reports the file with its line, what the failure speaks of, what to do, and what fails as well. It flushes the writer.
    pub fn tell<E: Write>(self, alloc: Global, errors: &mut E, failures: &[Failure]) {
        let Failure { rule, mark } = self.refused.least;
        let mut telling = Telling {
            refusal: self,
            errors,
            searches: BTreeMap::new(alloc),
        };
        telling.print_line(mark.line);
        say(telling.errors, line_at(&self.written.text, mark.line));
        say(telling.errors, b"\n");
        for alike in failures.chunk_by(is_alike) {
            if rule > LAST_OF_LABELS
                && alike
                    .first()
                    .is_some_and(|first| is_alike(first, &self.refused.least))
            {
                telling.print_subject(mark.line, alike);
                say(telling.errors, b"\n");
            }
        }
        let _ = writeln!(telling.errors, "{}", advice(rule));
        telling.print_others(failures);
        let _ = telling.errors.flush();
    }
}

impl<'a, E: Write> Telling<'a, '_, E> {
    /// Reports where a line of the map stands: its file, and its number there.
    fn print_line(&mut self, line: u32) {
        let Written { path, above, .. } = self.refusal.written;
        let number = above.saturating_add(line);
        let _ = write!(self.errors, "{path}:{number}: ");
    }

    /// Reports the fields that are passed over, each as the line that drops it.
    fn print_unread(&mut self) {
        let Refusal { sides, refused, .. } = self.refusal;
        say(self.errors, b"neither read nor dropped:");
        for field in refused.used.unread.as_slice() {
            let named = Named::whole(&sides.source, &field.at, field.field);
            let _ = write!(self.errors, "\ndrop {named}");
        }
    }

    /// Reports what nothing gives, of the failures of a rule at the line that makes this. False where something gives it all.
    fn print_missing(&mut self, made: Option<&Site>, failures: &[Failure]) -> bool {
        let at = made.map(|site| site.target.at.as_slice()).unwrap_or(&[]);
        let mut any = false;
        for Failure { mark, .. } in failures {
            if mark.missing {
                if any {
                    say(self.errors, b", ");
                }
                any = true;
                let named = Named {
                    child: mark.child,
                    ..Named::whole(&self.refusal.sides.target, at, mark.field)
                };
                let _ = write!(self.errors, "{named}");
            }
        }
        if any {
            say(self.errors, b": no item and no rule gives it");
        }
        any
    }

    /// Reports what the failures of a rule at a line speak of: all that nothing gives, and the first part that something gives.
    /// Of a segment or group that may be absent that is what lets it be absent.
    fn print_subject(&mut self, line: u32, failures: &[Failure]) {
        let Refusal { sides, refused, .. } = self.refusal;
        let sites = refused.used.sites.as_slice();
        let made = site_at(sites, line);
        let is_reported = self.print_missing(made, failures);
        let Some(given) = failures.iter().find(|failure| !failure.mark.missing) else {
            return;
        };
        if is_reported {
            say(self.errors, b"; ");
        }
        if given.rule == 9 {
            self.print_unread();
        } else if given.rule == 13 {
            self.print_unreached(made, given.mark);
        } else if let Some(made) = made {
            let may_be_absent = given.rule == 5 && given.mark.field == 0;
            let site = if may_be_absent {
                first_absent(&sides.source, sites, made)
            } else {
                made
            };
            self.print_given(site, *given);
        }
    }

    /// Reports how many more rules fail, and each in a line of its own: of a label the line itself, and what the rule demands.
    fn print_others(&mut self, failures: &[Failure]) {
        let Refusal {
            written,
            refused,
            ..
        } = self.refusal;
        let more = failures.chunk_by(is_alike).count().saturating_sub(1);
        if more == 0 {
            return;
        }
        let _ = writeln!(self.errors, "and {more} more:");
        let mut text = written.text.as_slice();
        let mut at = 1;
        for alike in failures.chunk_by(is_alike) {
            let Some(first) = alike.first() else {
                break;
            };
            let (line, rule) = (first.mark.line, first.rule);
            text = behind(text, line.saturating_sub(at));
            at = line;
            if !is_alike(first, &refused.least) {
                self.print_line(line);
                let _ = write!(self.errors, "K{rule}: ");
                if rule <= LAST_OF_LABELS {
                    say(self.errors, line_at(text, 1));
                    say(self.errors, b": ");
                    say(self.errors, cut(advice(rule).as_bytes(), b':').0);
                } else {
                    self.print_subject(line, alike);
                }
                say(self.errors, b"\n");
            }
        }
    }
}
