//! What a message breaks of its profile: a line for each breach, and how often each place was broken.
ghost use Rattle.std.specs.Prelude.{◌≡◌, false, None};

use crate::places::PlaceLines;
use crate::refusals::write_place;
use crate::words::in_memory;
use gw_er7::{Message, Place, ReadFault, read_block};
use gw_profile::Profile;
use gw_validate::{Breach, Kind, breaches, next_names};
use std::alloc::{AllocError, Global};
use std::collections::BTreeMap;
use std::io;
use std::io::Write;
use std::sync::Arc;

/// Where messages break a profile: the condition code, the letters of the segment's name, the field, the component, the subcomponent.
pub(crate) type Spot = [usize; 7];

/// What a line shows: JSON or words, the values that break the profile, and colours.
#[derive(Clone, Copy)]
pub struct Form {
    pub is_json: bool,
    pub has_values: bool,
    pub has_colours: bool,
}

/// A report of what messages break of a profile: what was reported so far, with the lines of the profile's text.
pub struct BreachReport {
    profile: Arc<Profile>,
    lines: PlaceLines,
    form: Form,
    messages: u64,
    conforming: u64,
    breaches: u64,
    spots: BTreeMap<Spot, u64>,
}

// (by hand, so that no crate above proves again how its fields are dropped)
impl Drop for BreachReport {
    fn drop(self) {
        let BreachReport {
            profile: _,
            lines: _,
            form: _,
            messages: _,
            conforming: _,
            breaches: _,
            spots: _,
        } = self;
    }
}

/// A breach of a message, with the line of the profile, the value and the names that may stand there, where they are said.
#[derive(Clone, Copy)]
struct BreachLine<'a> {
    arrival: u64,
    breach: Breach,
    line: Option<u32>,
    text: Option<&'a [u8]>,
    next: &'a [[u8; 3]],
}

/// What a kind of breach is, in words.
pub(crate) fn words_of(kind: Kind) -> &'static str {
    match kind {
        Kind::OutOfOrder => "no segment of this name may stand here",
        Kind::MissingSegment => "the message ends where this segment has to come",
        Kind::MissingValue => "has to be there, and isn't",
        Kind::Forbidden => "may not be there, and is",
        Kind::TooManyReps => "one repetition more than there may be",
        Kind::TooLong => "longer than it may be",
        Kind::NotInTable => "not in its table",
    }
}

/// A number that is said, or 1: the first is meant where none is said.
fn said(number: usize) -> usize {
    if number == 0 { 1 } else { number }
}

/// The text at the place of a breach, where values are asked for and one is there.
fn text_of(message: &Message, number: usize, breach: Breach, form: Form) -> Option<&[u8]>
    ensures unasked { form.has_values ≡ false → result ≡ None }
{
    if !form.has_values || number >= message.segment_count() || breach.field == 0 {
        return None;
    }
    let text = message.segment(number).text(Place {
        field: breach.field,
        rep: said(breach.rep),
        comp: said(breach.comp),
        sub: said(breach.sub),
    });
    if text.is_empty() { None } else { Some(text) }
}

/// The letters of a segment name, as numbers.
pub(crate) fn spot_of(breach: Breach) -> Spot {
    let [first, second, third] = breach.segment;
    [
        usize::from(breach.code()),
        usize::from(first),
        usize::from(second),
        usize::from(third),
        breach.field,
        breach.comp,
        breach.sub,
    ]
}

/// A breach as JSON.
fn write_json(out: &mut Vec<u8>, said: BreachLine<'_>) -> io::Result<()> {
    let BreachLine {
        arrival,
        breach,
        line,
        text,
        next,
    } = said;
    let code = breach.code();
    let words = words_of(breach.kind);
    let segment = breach.segment.escape_ascii();
    let Breach {
        sequence,
        field,
        rep,
        comp,
        sub,
        ..
    } = breach;
    write!(
        out,
        "{{\"message\":{arrival},\"code\":{code},\"segment\":\"{segment}\",\"sequence\":{sequence},"
    )?;
    write!(
        out,
        "\"field\":{field},\"repetition\":{rep},\"component\":{comp},\"subcomponent\":{sub},\"rule\":\"{words}\""
    )?;
    write_next_json(out, next)?;
    if let Some(line) = line {
        write!(out, ",\"line\":{line}")?;
    }
    if let Some(text) = text {
        write!(out, ",\"value\":\"")?;
        write_text(out, text)?;
        write!(out, "\"")?;
    }
    writeln!(out, "}}")
}

/// The names that may stand there, as a list, where there are any.
fn write_next_json(out: &mut Vec<u8>, next: &[[u8; 3]]) -> io::Result<()> {
    for (i, name) in next.iter().enumerate() {
        let name = name.escape_ascii();
        let before = if i == 0 { ",\"may\":[" } else { "," };
        write!(out, "{before}\"{name}\"")?;
    }
    if next.is_empty() {
        return Ok(());
    }
    write!(out, "]")
}

/// The names that may stand there, in words: ` (PID may)`, ` (NK1 or PV1 may)`.
fn write_next(out: &mut Vec<u8>, next: &[[u8; 3]]) -> io::Result<()> {
    for (i, name) in next.iter().enumerate() {
        let name = name.escape_ascii();
        let before = if i == 0 {
            " ("
        } else if next.len() - i == 1 {
            " or "
        } else {
            ", "
        };
        write!(out, "{before}{name}")?;
    }
    if next.is_empty() {
        return Ok(());
    }
    write!(out, " may)")
}

/// A breach in words.
fn write_words(out: &mut Vec<u8>, form: Form, said: BreachLine<'_>) -> io::Result<()> {
    let arrival = said.arrival;
    let words = words_of(said.breach.kind);
    let code = said.breach.code();
    if form.has_colours {
        write!(out, "message {arrival}: \x1b[31m{code}\x1b[0m ")?;
    } else {
        write!(out, "message {arrival}: {code} ")?;
    }
    write_place(out, said.breach)?;
    write!(out, ": {words}")?;
    write_next(out, said.next)?;
    if let Some(line) = said.line {
        write!(out, " (profile line {line})")?;
    }
    if let Some(text) = said.text {
        write!(out, ": ")?;
        write_text(out, text)?;
    }
    writeln!(out)
}

/// A text as its printable characters; each other byte, and each quote and backslash, as `\u00` and two digits. So JSON can have it too.
fn write_text(out: &mut Vec<u8>, text: &[u8]) -> io::Result<()> {
    for byte in text {
        match *byte {
            b'"' | b'\\' => write!(out, "\\u00{byte:02x}")?,
            b' '..=b'~' => write!(out, "{}", char::from(*byte))?,
            _ => write!(out, "\\u00{byte:02x}")?,
        }
    }
    Ok(())
}

impl BreachReport {
    /// A report in which nothing stands yet, by a profile and its text.
    pub fn new(
        alloc: Global,
        profile: Arc<Profile>,
        text: &[u8],
        form: Form,
    ) -> Result<Self, AllocError> {
        let lines = PlaceLines::of(alloc, text)?;
        Ok(BreachReport {
            profile,
            lines,
            form,
            messages: 0,
            conforming: 0,
            breaches: 0,
            spots: BTreeMap::new(alloc),
        })
    }

    /// How many messages there were.
    pub fn messages(&self) -> u64 {
        self.messages
    }

    /// Whether there was a message, and each conforms.
    pub fn all_conform(&self) -> bool {
        self.messages > 0 && self.conforming == self.messages
    }

    /// Adds the lines of the next message's breaches to `out`.
    fn add_message(
        &mut self,
        alloc: Global,
        message: &Message,
        out: &mut Vec<u8>,
    ) -> Result<(), AllocError> {
        let found = breaches(alloc, &self.profile, message)?;
        if found.is_empty() {
            self.conforming = self.conforming.saturating_add(1);
        }
        for place in &found {
            let (number, breach) = *place;
            let next = match breach.kind {
                Kind::OutOfOrder | Kind::MissingSegment => {
                    next_names(alloc, &self.profile, message, number)?
                }
                _ => Vec::new(alloc),
            };
            let said = BreachLine {
                arrival: self.messages,
                breach,
                line: self.lines.line_of(breach),
                text: text_of(message, number, breach, self.form),
                next: &next,
            };
            let written = if self.form.is_json {
                write_json(out, said)
            } else {
                write_words(out, self.form, said)
            };
            if written.is_err() {
                return Err(AllocError);
            }
            self.breaches = self.breaches.saturating_add(1);
            let spot = spot_of(breach);
            let before = self.spots.get(&spot).copied().unwrap_or(0);
            self.spots.insert(spot, before.saturating_add(1))?;
        }
        Ok(())
    }

    /// Adds the lines of what came in the next frame to `out`: its breaches, or that it can't be read. The one error is an allocation failure.
    pub fn add(
        &mut self,
        alloc: Global,
        content: Vec<u8>,
        out: &mut Vec<u8>,
    ) -> Result<(), AllocError> {
        self.messages = self.messages.saturating_add(1);
        let arrival = self.messages;
        let fault = match read_block(content) {
            Ok(message) => return self.add_message(alloc, &message, out),
            Err((ReadFault::Memory, _)) => return Err(AllocError),
            Err((fault, _)) => fault,
        };
        let written = if self.form.is_json {
            writeln!(out, "{{\"message\":{arrival},\"unreadable\":\"{fault}\"}}")
        } else {
            writeln!(out, "message {arrival}: can't be read: {fault}")
        };
        written.map_err(|_| AllocError)
    }

    /// The last line: how many messages there were, and how often each place was broken.
    pub fn end(&self, alloc: Global) -> Result<Vec<u8>, AllocError> {
        let mut out = Vec::new(alloc);
        let written = self.write_end(&mut out);
        in_memory(out, written)
    }

    fn write_end(&self, out: &mut Vec<u8>) -> io::Result<()> {
        let BreachReport {
            messages,
            conforming,
            breaches,
            ..
        } = self;
        let is_json = self.form.is_json;
        if is_json {
            write!(
                out,
                "{{\"messages\":{messages},\"conforming\":{conforming},\"breaches\":{breaches},\"places\":["
            )?;
        } else {
            write!(
                out,
                "messages {messages}, conforming {conforming}, breaches {breaches}"
            )?;
        }
        let mut before: &[u8] = if is_json { b"" } else { b": " };
        for (spot, count) in self.spots.iter() {
            out.write_all(before)?;
            write_spot(out, is_json, *spot, *count)?;
            before = if is_json { b"," } else { b", " };
        }
        writeln!(out, "{}", if is_json { "]}" } else { "" })
    }
}

/// How often a place was broken.
fn write_spot(out: &mut Vec<u8>, is_json: bool, spot: Spot, count: u64) -> io::Result<()> {
    let [code, first, second, third, field, comp, sub] = spot;
    let name = [letter(first), letter(second), letter(third)];
    let name = name.escape_ascii();
    if is_json {
        return write!(
            out,
            "{{\"code\":{code},\"segment\":\"{name}\",\"field\":{field},\"component\":{comp},\"subcomponent\":{sub},\"count\":{count}}}"
        );
    }
    write!(out, "{code} {name}")?;
    if field > 0 {
        write!(out, "-{field}")?;
    }
    if comp > 0 {
        write!(out, ".{comp}")?;
    }
    if sub > 0 {
        write!(out, ".{sub}")?;
    }
    write!(out, " {count}")
}

/// The letter of a number.
fn letter(number: usize) -> u8 {
    u8::try_from(number).unwrap_or(b'?')
}
