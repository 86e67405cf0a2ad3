//! The texts of a segment's fields.
ghost use Rattle.std.specs.Prelude.{◌≡◌, ◌==◌, ◌||◌, ◌+◌, ◌<◌, ◌≤◌, ◌^◌, ◌++◌, ◌-◌, true, false, get_or, length, position, OnOk, IfOk};
ghost use Rattle.std.specs.List.{list_any, position_or_len};
ghost use Rattle.gw_er7.specs.Message.{numbers};
ghost use Rattle.gw_er7.specs.Entries.{fields};
ghost use Rattle.gw_er7.specs.Text.{is_special};
ghost use Rattle.gw_er7.specs.own.Separators.{separators, is_separator, is_mark, next_numbers, value_at, bytes_of, held_in, taken_by, Keeps, IsPlainTo, IsCut, Lies, TakesOne};
ghost use Rattle.gw_er7.specs.View.{AreInside};

use crate::classes::{ByteClasses, Class};
use crate::delimiters::Delimiters;
use crate::escapes::{is_special, push_canonical};
use crate::place::Place;
use crate::spans::{MessageSpans, Store, TextSpan};
use std::alloc::{AllocError, Global};

fn is_separator(classes: &ByteClasses, byte: u8) -> bool
    ensures { result ≡ is_separator (separators classes.now) byte }
{
    !matches!(classes.class(byte), Class::Text | Class::Escape)
}

fn first_separator(classes: &ByteClasses, bytes: &[u8]) -> Option<usize>
    ensures { result ≡ position (λ b. is_separator (separators classes.now) b) bytes.now }
{
    bytes.iter().position(|byte| is_separator(classes, *byte))
}

/// The bytes up to the first separator, and the separator and the bytes behind it where there is one.
fn cut_at_separator<'a>(
    classes: &ByteClasses,
    bytes: &'a [u8],
) -> (&'a [u8], Option<(u8, &'a [u8])>)
    ensures { IsCut (separators classes.now) bytes.now result.0.now result.1 }
{
    match first_separator(classes, bytes) {
        None => (bytes, None),
        Some(at) => (&bytes[..at], Some((bytes[at], &bytes[at + 1..]))),
    }
}

// Whether the byte ends a value, or doesn't stand for itself.
#[inline(always)]
fn is_mark(classes: &ByteClasses, byte: u8) -> bool
    ensures { result ≡ is_mark classes.now byte }
{
    !matches!(classes.class(byte), Class::Text)
}

/// How many bytes stand before where a value ends, or its first byte that doesn't stand for itself, or how many there are where there is none.
/// The first `from` bytes are none of these.
#[inline(always)]
fn plain_from(classes: &ByteClasses, bytes: &[u8], from: usize) -> usize
    requires within { from ≤ length bytes.now }
    requires before { IsPlainTo classes.now bytes.now from }
    ensures { result ≡ position_or_len (λ b. is_mark classes.now b) bytes.now }
{
    let mut at = from;
    // (where the bytes end is tested once for four of them)
    while bytes.len() - at >= 4 {
        if is_mark(classes, bytes[at]) {
            return at;
        }
        if is_mark(classes, bytes[at + 1]) {
            return at + 1;
        }
        if is_mark(classes, bytes[at + 2]) {
            return at + 2;
        }
        if is_mark(classes, bytes[at + 3]) {
            return at + 3;
        }
        at += 4;
    }
    while at < bytes.len() {
        if is_mark(classes, bytes[at]) {
            return at;
        }
        at += 1;
    }
    at
}

/// How many bytes are tested together, where a segment is long.
const CHUNK: usize = 32;

// As `is_mark`, without the table: many bytes are compared at a time.
fn is_mark_of(delimiters: Delimiters, byte: u8) -> bool
    ensures { result ≡ is_mark delimiters byte }
{
    let ends = (byte == delimiters.field)
        | (byte == delimiters.repetition)
        | (byte == delimiters.component)
        | (byte == delimiters.subcomponent);
    is_special(byte) | (byte == delimiters.escape) | ends
}

// Whether some byte is a mark. It looks at all of them, so that many are tested at a time.
fn has_mark(delimiters: Delimiters, bytes: &[u8]) -> bool
    ensures { result ≡ list_any (λ b. is_mark delimiters b) bytes.now }
{
    let mut found = false;
    for byte in bytes {
        found = found | is_mark_of(delimiters, *byte);
    }
    found
}

// As `plain_from`, of a value that may be a document.
#[cold]
#[inline(never)]
fn plain_behind(classes: &ByteClasses, bytes: &[u8], from: usize) -> usize
    requires within { from ≤ length bytes.now }
    requires before { IsPlainTo classes.now bytes.now from }
    ensures { result ≡ position_or_len (λ b. is_mark classes.now b) bytes.now }
{
    let delimiters = classes.delimiters();
    let mut at = from;
    while bytes.len() - at >= CHUNK {
        if has_mark(delimiters, &bytes[at..at + CHUNK]) {
            return plain_from(classes, bytes, at);
        }
        at += CHUNK;
    }
    plain_from(classes, bytes, at)
}

/// As `plain_from` from the first byte on, of a value in a long segment.
#[inline(always)]
fn plain_far(classes: &ByteClasses, bytes: &[u8]) -> usize
    ensures { result ≡ position_or_len (λ b. is_mark classes.now b) bytes.now }
{
    if bytes.len() < CHUNK {
        return plain_from(classes, bytes, 0);
    }
    let near = plain_from(classes, &bytes[..CHUNK], 0);
    if near < CHUNK {
        return near;
    }
    plain_behind(classes, bytes, CHUNK)
}

/// The same of a value in a segment that is long or isn't.
#[inline(always)]
fn plain_in(classes: &ByteClasses, bytes: &[u8], is_long: bool) -> usize
    ensures { result ≡ position_or_len (λ b. is_mark classes.now b) bytes.now }
{
    if is_long {
        return plain_far(classes, bytes);
    }
    plain_from(classes, bytes, 0)
}

/// The place behind a separator, in a segment that is long or isn't: its own number is one more, and the lower ones begin again.
#[inline(always)]
fn next_place(classes: &ByteClasses, place: Place, separator: u8, is_long: bool) -> Place
    requires field { place.field < 2 ^ 64 - 1 }
    requires rep { place.rep < 2 ^ 64 - 1 }
    requires comp { place.comp < 2 ^ 64 - 1 }
    requires sub { place.sub < 2 ^ 64 - 1 }
    requires separates { is_separator (separators classes.now) separator ≡ true }
    ensures next { numbers result ≡ next_numbers (separators classes.now) (numbers place) separator }
    ensures field { result.field ≤ place.field + 1 }
    ensures rep { result.rep ≤ place.rep + 1 }
    ensures comp { result.comp ≤ place.comp + 1 }
    ensures sub { result.sub ≤ place.sub + 1 }
{
    let class = classes.class(separator);
    if is_long {
        // (in a long segment most separators are of one kind)
        let Place {
            field,
            rep,
            comp,
            sub,
        } = place;
        let (field, rep, comp, sub) = match class {
            Class::Field => (field + 1, 1, 1, 1),
            Class::Repetition => (field, rep + 1, 1, 1),
            Class::Component => (field, rep, comp + 1, 1),
            _ => (field, rep, comp, sub + 1),
        };
        return Place {
            field,
            rep,
            comp,
            sub,
        };
    }
    // (sums in place of cases: which separator comes next is hard to predict)
    let field = matches!(class, Class::Field);
    let rep = field | matches!(class, Class::Repetition);
    let comp = rep | matches!(class, Class::Component);
    Place {
        field: place.field + field as usize,
        rep: if field { 1 } else { place.rep + rep as usize },
        comp: if rep { 1 } else { place.comp + comp as usize },
        sub: if comp { 1 } else { place.sub + 1 },
    }
}

/// The texts of the message that is being read. Most lie among the message bytes, and those that differ from their raw values lie behind these.
#[derive(Drop)]
pub(crate) struct SegmentTexts<'a> {
    pub(crate) spans: MessageSpans,
    pub(crate) content: &'a [u8],
    pub(crate) others: Vec<u8>,
}

impl<'a> SegmentTexts<'a> {
    ghost use Rattle.std.specs.Prelude.{[]};

    /// No text, with capacity for the usual number of texts in the message bytes: one for every six bytes, in steps of 32.
    /// (Then the memory that one message gives back fits the next, whose length differs.)
    pub(crate) fn with_room(
        alloc: Global,
        content: &'a [u8],
    ) -> Result<SegmentTexts<'a>, AllocError>
        ensures inside { IfOk result (λ t. AreInside (bytes_of t) t.spans) }
        ensures none { IfOk result (λ t. held_in t ≡ []) }
        ensures content { IfOk result (λ t. t.content.now ≡ content.now) }
    {
        let spans = MessageSpans::with_room(alloc, content.len() / 192 * 32 + 32)?;
        Ok(SegmentTexts {
            spans,
            content,
            others: Vec::new(alloc),
        })
    }
}

/// Reads a raw value whose text isn't the value itself: the text is put behind all bytes.
#[cold]
#[inline(never)]
fn push_other(
    taken: &mut SegmentTexts<'_>,
    classes: &ByteClasses,
    place: Place,
    raw: &[u8],
    plain: usize,
) -> Result<(), AllocError>
    requires inside { AreInside (bytes_of taken.old) taken.old.spans }
    requires some { 0 < length raw.now }
    requires plain { plain ≡ position_or_len (λ b. is_special b || b == classes.now.escape) raw.now }
    ensures inside { OnOk result (AreInside (bytes_of taken.new) taken.new.spans) }
    ensures content { OnOk result (taken.new.content.now ≡ taken.old.content.now) }
    ensures kept { OnOk result (Keeps taken.old taken.new) }
    ensures entries { OnOk result (taken_by taken.new ≡ taken_by taken.old ++ value_at classes.now (numbers place) raw.now) }
{
    let from = taken.others.len();
    push_canonical(&mut taken.others, classes.delimiters(), raw, plain)?;
    let span = TextSpan {
        place,
        from: taken.content.len() + from,
        len: taken.others.len() - from,
    };
    taken.spans.push(span)?;
    Ok(())
}

/// Reads the raw value at a place, which lies among the message bytes, of a segment that is long or isn't.
/// Its first `plain` bytes stand for themselves: where all do, it is its own text.
#[inline(always)]
fn push_value(
    taken: &mut SegmentTexts<'_>,
    classes: &ByteClasses,
    place: Place,
    at: usize,
    raw: &[u8],
    plain: usize,
    is_long: bool,
) -> Result<(), AllocError>
    requires inside { AreInside (bytes_of taken.old) taken.old.spans }
    requires lies { Lies taken.old.content.now at raw.now }
    requires plain { plain ≡ position_or_len (λ b. is_special b || b == classes.now.escape) raw.now }
    ensures inside { OnOk result (AreInside (bytes_of taken.new) taken.new.spans) }
    ensures content { OnOk result (taken.new.content.now ≡ taken.old.content.now) }
    ensures kept { OnOk result (Keeps taken.old taken.new) }
    ensures entries { OnOk result (taken_by taken.new ≡ taken_by taken.old ++ value_at classes.now (numbers place) raw.now) }
{
    if raw.is_empty() {
        return Ok(());
    }
    if plain < raw.len() {
        let Place {
            field,
            rep,
            comp,
            sub,
        } = place;
        let there = Place {
            field,
            rep,
            comp,
            sub,
        };
        return push_other(taken, classes, there, raw, plain);
    }
    let span = TextSpan {
        place,
        from: at,
        len: raw.len(),
    };
    taken.spans.push_in(span, is_long)?;
    Ok(())
}

/// Reads the value with which bytes begin, where it doesn't stand for itself. Gives the separator and the bytes behind it, where there is one.
#[cold]
#[inline(never)]
fn take_other<'a>(
    taken: &mut SegmentTexts<'_>,
    classes: &ByteClasses,
    place: Place,
    at: usize,
    bytes: &'a [u8],
    plain: usize,
) -> Result<Option<(u8, &'a [u8])>, AllocError>
    requires inside { AreInside (bytes_of taken.old) taken.old.spans }
    requires lies { Lies taken.old.content.now at bytes.now }
    requires plain { plain ≡ position_or_len (λ b. is_mark classes.now b) bytes.now }
    requires short { plain < length bytes.now }
    requires other { is_separator (separators classes.now) (get_or bytes.now plain 0) ≡ false }
    ensures inside { OnOk result (AreInside (bytes_of taken.new) taken.new.spans) }
    ensures content { OnOk result (taken.new.content.now ≡ taken.old.content.now) }
    ensures kept { OnOk result (Keeps taken.old taken.new) }
    ensures entries { IfOk result (TakesOne classes.now (numbers place) bytes.now (taken_by taken.old) (taken_by taken.new)) }
{
    let (raw, behind) = cut_at_separator(classes, bytes);
    // (as in a long segment, whichever it is: that differs in time alone)
    push_value(taken, classes, place, at, raw, plain, true)?;
    Ok(behind)
}

/// Takes in the fields of a segment that is long or isn't.
#[inline(always)]
fn take_values(
    taken: &mut SegmentTexts<'_>,
    classes: &ByteClasses,
    first: usize,
    at: usize,
    bytes: &[u8],
    is_long: bool,
) -> Result<(), AllocError>
    requires first { first ≤ 3 }
    requires inside { AreInside (bytes_of taken.old) taken.old.spans }
    requires lies { Lies taken.old.content.now at bytes.now }
    ensures inside { OnOk result (AreInside (bytes_of taken.new) taken.new.spans) }
    ensures content { OnOk result (taken.new.content.now ≡ taken.old.content.now) }
    ensures kept { OnOk result (Keeps taken.old taken.new) }
    ensures entries { OnOk result (taken_by taken.new ≡ taken_by taken.old ++ fields classes.now first bytes.now) }
{
    let mut place = Place {
        field: first,
        rep: 1,
        comp: 1,
        sub: 1,
    };
    let mut here = at;
    let mut rest = bytes;
    loop {
        let plain = plain_in(classes, rest, is_long);
        if plain >= rest.len() {
            push_value(taken, classes, place, here, rest, plain, is_long)?;
            return Ok(());
        }
        if is_separator(classes, rest[plain]) {
            push_value(taken, classes, place, here, &rest[..plain], plain, is_long)?;
            place = next_place(classes, place, rest[plain], is_long);
            here += plain + 1;
            rest = &rest[plain + 1..];
            continue;
        }
        // (put together anew, so that the numbers stay in registers)
        let Place {
            field,
            rep,
            comp,
            sub,
        } = place;
        let there = Place {
            field,
            rep,
            comp,
            sub,
        };
        let Some((separator, later)) = take_other(taken, classes, there, here, rest, plain)? else {
            return Ok(());
        };
        place = next_place(classes, place, separator, is_long);
        here += rest.len() - later.len();
        rest = later;
    }
}

/// A segment with more bytes is long: a value in it may be a document.
const LONG: usize = 4096;

/// Takes in the fields of a segment, which lie among the message bytes; the first of them has this number.
pub(crate) fn take_fields(
    taken: &mut SegmentTexts<'_>,
    classes: &ByteClasses,
    first: usize,
    at: usize,
    bytes: &[u8],
) -> Result<(), AllocError>
    requires first { first ≤ 3 }
    requires inside { AreInside (bytes_of taken.old) taken.old.spans }
    requires lies { Lies taken.old.content.now at bytes.now }
    ensures inside { OnOk result (AreInside (bytes_of taken.new) taken.new.spans) }
    ensures content { OnOk result (taken.new.content.now ≡ taken.old.content.now) }
    ensures kept { OnOk result (Keeps taken.old taken.new) }
    ensures entries { OnOk result (taken_by taken.new ≡ taken_by taken.old ++ fields classes.now first bytes.now) }
{
    if bytes.len() > LONG {
        return take_values(taken, classes, first, at, bytes, true);
    }
    take_values(taken, classes, first, at, bytes, false)
}
