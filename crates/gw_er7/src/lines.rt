//! The lines of a message: the parts of its bytes between CR and LF that aren't empty.
ghost use Rattle.std.specs.Prelude.{◌≡◌, ℕ, ◌+◌, ◌-◌, ◌^◌, ◌≤◌, ◌<◌, [], ◌∷◌, None, Some, length, MatchOption, MatchResult};
ghost use Rattle.std.specs.List.{list_any, position_or_len, slice_split};
ghost use Rattle.gw_er7.specs.Content.{is_line_end, placed, lines_from, Begins, first_bad};
ghost use Rattle.gw_er7.specs.Faults.{Faulty, Passes};
ghost use Rattle.gw_er7.specs.own.Gathered.{HasHeader};
ghost use Rattle.gw_er7.specs.own.Scanned.{FailsTo};

use crate::checks::{first_control, header_delimiters, is_header, is_segment_line};
use crate::delimiters::Delimiters;
use crate::fault::ReadFault;

/// A line, its place, and the bytes behind its end.
#[derive(Clone, Copy)]
pub(crate) struct NextLine<'a> {
    pub(crate) at: usize,
    pub(crate) bytes: &'a [u8],
    pub(crate) behind: &'a [u8],
}

/// How many bytes are tested together.
const CHUNK: usize = 16;

fn is_line_end(byte: u8) -> bool
    ensures { result ≡ is_line_end byte }
{
    byte == b'\r' || byte == b'\n'
}

// As `is_line_end`, of one byte among many that are larger.
#[inline(always)]
fn ends_line(byte: u8) -> bool
    ensures { result ≡ is_line_end byte }
{
    byte <= b'\r' && is_line_end(byte)
}

// Whether some byte ends a line. It looks at all of them, so that many are tested at a time.
fn has_line_end(bytes: &[u8]) -> bool
    ensures { result ≡ list_any is_line_end bytes.now }
{
    let mut found = false;
    for byte in bytes {
        found = found | is_line_end(*byte);
    }
    found
}

// How many bytes stand before the first line end, where none is among the first `from`.
fn line_from(bytes: &[u8], from: usize) -> usize
    requires within { from ≤ length bytes.now }
    requires before { FailsTo is_line_end bytes.now from }
    ensures first { result ≡ position_or_len is_line_end bytes.now }
    ensures within { result ≤ length bytes.now }
{
    let mut at = from;
    while at < bytes.len() {
        if ends_line(bytes[at]) {
            return at;
        }
        at += 1;
    }
    at
}

// As `line_from`, where some byte behind the first `from` ends the line.
fn line_within(bytes: &[u8], from: usize) -> usize
    requires before { FailsTo is_line_end bytes.now from }
    requires there { position_or_len is_line_end bytes.now < length bytes.now }
    ensures first { result ≡ position_or_len is_line_end bytes.now }
    ensures within { result ≤ length bytes.now }
{
    let mut at = from;
    while !ends_line(bytes[at]) {
        at += 1;
    }
    at
}

/// How many bytes stand before the first line end, or how many there are where there is none.
#[inline(never)]
fn line_len(bytes: &[u8]) -> usize
    ensures first { result ≡ position_or_len is_line_end bytes.now }
    ensures within { result ≤ length bytes.now }
{
    let mut at = 0;
    while bytes.len() - at >= CHUNK {
        if has_line_end(&bytes[at..at + CHUNK]) {
            return line_within(bytes, at);
        }
        at += CHUNK;
    }
    line_from(bytes, at)
}

/// The bytes up to the first line end, and those behind it.
#[inline(always)]
fn cut_line(bytes: &[u8]) -> (&[u8], &[u8])
    ensures whole { (at : ℕ) → lines_from at bytes.now ≡ placed at (result.0.now ∷ slice_split is_line_end result.1.now) }
    ensures shorter { 0 < length bytes.now → length result.1.now < length bytes.now }
    ensures within { length result.0.now ≤ length bytes.now }
    ensures later { 0 < length result.1.now → length result.0.now + 1 + length result.1.now ≤ length bytes.now }
{
    let end = line_len(bytes);
    if end == bytes.len() {
        return (bytes, &[]);
    }
    (&bytes[..end], &bytes[end + 1..])
}

/// The first line of bytes that begin at a place.
#[inline(always)]
pub(crate) fn next_line(at: usize, bytes: &[u8]) -> Option<NextLine<'_>>
    requires room { at < 2 ^ 64 }
    requires later { 0 < length bytes.now → at + length bytes.now < 2 ^ 64 }
    ensures { MatchOption result (lines_from at bytes.now ≡ []) (λ l. Begins at bytes.now (record { at = l.at; bytes = l.bytes.now }) l.behind.now) }
{
    let mut here = at;
    let mut rest = bytes;
    while !rest.is_empty() {
        let (part, behind) = cut_line(rest);
        if !part.is_empty() {
            return Some(NextLine {
                at: here,
                bytes: part,
                behind,
            });
        }
        here += 1;
        rest = behind;
    }
    None
}

/// How many lines there are, where each is that of a segment.
pub(crate) fn count_segments(field: u8, at: usize, bytes: &[u8]) -> Result<usize, ReadFault>
    requires room { at < 2 ^ 64 - 1 }
    requires later { 0 < length bytes.now → at + length bytes.now < 2 ^ 64 - 1 }
    ensures { MatchResult result
        (λ n. (first_bad field (lines_from at bytes.now) ≡ None) × (length (lines_from at bytes.now) ≡ n))
        (λ f. (place : ℕ) × ((first_bad field (lines_from at bytes.now) ≡ Some place) × (f ≡ ReadFault.BadSegment place))) }
{
    let mut here = at;
    let mut rest = bytes;
    let mut count = 0;
    while let Some(line) = next_line(here, rest) {
        if !is_segment_line(field, line.bytes) {
            return Err(ReadFault::BadSegment { at: line.at });
        }
        count += 1;
        here = line.at + line.bytes.len() + 1;
        rest = line.behind;
    }
    Ok(count)
}

/// The delimiters and the first line of message bytes without a fault.
#[derive(Clone, Copy)]
pub(crate) struct Checked<'a> {
    pub(crate) delimiters: Delimiters,
    pub(crate) header: NextLine<'a>,
}

/// Tests message bytes for the faults that come before those of the lines behind the first.
pub(crate) fn check_header(content: &[u8]) -> Result<Checked<'_>, ReadFault>
    ensures { MatchResult result (HasHeader content.now) (Faulty content.now) }
{
    let Some(header) = next_line(0, content) else {
        return Err(ReadFault::Empty);
    };
    if let Some(at) = first_control(content) {
        return Err(ReadFault::Control { at });
    }
    if !is_header(header.bytes) {
        return Err(ReadFault::NoHeader);
    }
    let Some(delimiters) = header_delimiters(header.bytes) else {
        return Err(ReadFault::BadDelimiters);
    };
    Ok(Checked { delimiters, header })
}

/// Tests message bytes for their faults, in order.
pub(crate) fn check(content: &[u8]) -> Result<Checked<'_>, ReadFault>
    ensures { MatchResult result (Passes content.now) (Faulty content.now) }
{
    let checked = check_header(content)?;
    let header = checked.header;
    let behind = header.at + header.bytes.len() + 1;
    let count = count_segments(checked.delimiters.field, behind, header.behind)?;
    if count >= 10_000 {
        return Err(ReadFault::TooManySegments);
    }
    Ok(checked)
}
