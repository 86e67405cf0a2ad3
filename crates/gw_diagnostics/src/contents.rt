//! What the text of a profile, a map or a plan has, and the texts within a plan.
use crate::above::begin_above;
use crate::advice::{Written, behind, line_at};
use crate::expected::up_to_stop;
use crate::words::in_memory;
use gw_lines::keyword_of;
use std::alloc::{AllocError, Global};
use std::io;
use std::io::Write;

/// A kind of lines that is counted: its name, and the keywords with which they begin.
type Kind = (&'static str, &'static [&'static [u8]]);

/// What is counted in a profile.
const IN_PROFILE: &[Kind] = &[
    ("segments", &[b"segment"]),
    ("groups", &[b"group"]),
    ("fields", &[b"field"]),
    ("tables", &[b"table"]),
];

/// What is counted in a map.
const IN_MAP: &[Kind] = &[
    ("items", &[b"segment", b"group", b"flat"]),
    ("rules", &[b"copy", b"first", b"repeat", b"build"]),
    ("tables", &[b"table"]),
    ("drops", &[b"drop"]),
];

/// What is counted in a plan. No line of a profile or a map begins so, but for the first.
const IN_PLAN: &[Kind] = &[
    ("receivers", &[b"receiver"]),
    ("profiles", &[b"profile"]),
    ("maps", &[b"map"]),
    ("routes", &[b"route"]),
];

/// How many lines of a text begin with one of these keywords.
fn count_lines(text: &[u8], keywords: &[&[u8]]) -> usize {
    text.split(|byte| *byte == b'\n')
        .filter(|line| keywords.contains(&keyword_of(line)))
        .count()
}

/// The first line of a text that says anything, without the blanks around it.
fn first_said(text: &[u8]) -> &[u8] {
    let mut rest = text;
    for _ in 0..text.len() {
        let line = line_at(rest, 1);
        if !line.is_empty() && !line.starts_with(b"#") {
            return line;
        }
        rest = behind(rest, 1);
    }
    &[]
}

/// The first line of a text, how many lines of each kind it has, and how many bytes.
fn write_counts(out: &mut Vec<u8>, text: &[u8], kinds: &[Kind]) -> io::Result<()> {
    out.write_all(first_said(text))?;
    out.write_all(b": ")?;
    for (name, keywords) in kinds {
        let count = count_lines(text, keywords);
        write!(out, "{name} {count}, ")?;
    }
    let size = text.len();
    writeln!(out, "bytes {size}")
}

/// The keywords of the lines of a plan that are printed.
const PRINTED: &[&[u8]] = &[b"receiver", b"accept", b"route", b"to"];

/// What a plan has, in the order of its lines: its own, those of a route further in, and of each profile and map what it has.
fn write_plan(out: &mut Vec<u8>, text: &[u8]) -> io::Result<()> {
    write_counts(out, text, IN_PLAN)?;
    let mut rest = text;
    for _ in 0..text.len() {
        let line = line_at(rest, 1);
        rest = behind(rest, 1);
        let keyword = keyword_of(line);
        if keyword == b"begin".as_slice() {
            let inner = up_to_stop(rest);
            let is_profile = first_said(inner).starts_with(b"profile");
            write_counts(out, inner, if is_profile { IN_PROFILE } else { IN_MAP })?;
        } else if PRINTED.contains(&keyword) {
            let before: &[u8] = if keyword == b"to".as_slice() {
                b"  "
            } else {
                b""
            };
            out.write_all(before)?;
            out.write_all(line)?;
            out.write_all(b"\n")?;
        }
    }
    Ok(())
}

/// What a profile has.
pub fn profile_contents(alloc: Global, text: &[u8]) -> Result<Vec<u8>, AllocError> {
    let mut out = Vec::new(alloc);
    let written = write_counts(&mut out, text, IN_PROFILE);
    in_memory(out, written)
}

/// What a map has.
pub fn map_contents(alloc: Global, text: &[u8]) -> Result<Vec<u8>, AllocError> {
    let mut out = Vec::new(alloc);
    let written = write_counts(&mut out, text, IN_MAP);
    in_memory(out, written)
}

/// What a plan has, in the order of its lines.
pub fn plan_contents(alloc: Global, text: &[u8]) -> Result<Vec<u8>, AllocError> {
    let mut out = Vec::new(alloc);
    let written = write_plan(&mut out, text);
    in_memory(out, written)
}

/// The text of the profile of this name in a plan.
pub fn profile_named<'t>(text: &'t [u8], name: &[u8]) -> &'t [u8] {
    let mut rest = text;
    for _ in 0..text.len() {
        let line = line_at(rest, 1);
        rest = behind(rest, 1);
        if keyword_of(line) == b"begin".as_slice() {
            let inner = up_to_stop(rest);
            if let Some(named) = first_said(inner).strip_prefix(b"profile".as_slice())
                && named.trim_ascii() == name
            {
                return inner;
            }
        }
    }
    &[]
}

/// The map of a plan around this line.
pub fn map_at<'a>(
    alloc: Global,
    path: &'a str,
    text: &[u8],
    line: u32,
) -> Result<Written<'a>, AllocError> {
    let above = begin_above(text, line);
    let text = Vec::from_slice(alloc, up_to_stop(behind(text, above)))?;
    Ok(Written { path, text, above })
}
