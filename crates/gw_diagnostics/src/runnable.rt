//! A map as it can be run where the target demands nothing of fields, so that what it makes of a message can be looked at.
use crate::elements::Named;
use crate::judged::ProfilePair;
use crate::skeleton::write_skeleton;
use gw_check::{CheckedMap, FieldAt};
use gw_maplang::{Map, MapFault};
use gw_profile::{Profile, ProfileFault};
use std::alloc::{AllocError, Global};
use std::io;
use std::io::Write;
use std::sync::Arc;

/// A map that can be run, or why there is none.
#[derive(Drop)]
pub(crate) enum Runnable {
    Checked(CheckedMap),
    /// A rule fails whatever the target demands of fields: its number, and the line.
    Broken(u8, u32),
    /// The text that is made of the map is too large for one.
    TooLarge,
}

/// The text of a map without the lines that say nothing, and the number that each of its lines has in the map.
#[derive(Drop)]
struct Compact {
    text: Vec<u8>,
    lines: Vec<u32>,
}

/// The map of a text that is made here. None where it isn't one.
pub(crate) fn map_of(alloc: Global, text: &[u8]) -> Result<Option<Map>, AllocError> {
    match gw_maplang::parse(alloc, text) {
        Ok(map) => Ok(Some(map)),
        Err(MapFault::Memory) => Err(AllocError),
        Err(_) => Ok(None),
    }
}

/// A profile of the same segments and groups, which demands nothing of their fields. None where its text would be too large.
pub(crate) fn skeleton(
    alloc: Global,
    profile: &Profile,
    has_fields: bool,
) -> Result<Option<Arc<Profile>>, AllocError> {
    let mut text = Vec::new(alloc);
    if write_skeleton(&mut text, profile, has_fields).is_err() {
        return Err(AllocError);
    }
    match gw_profile::parse(alloc, &text) {
        Ok(profile) => Ok(Some(Arc::new(alloc, profile)?)),
        Err(ProfileFault::Memory) => Err(AllocError),
        Err(_) => Ok(None),
    }
}

/// Adds a line to a text.
pub(crate) fn add_line(text: &mut Vec<u8>, line: &[u8]) -> Result<(), AllocError> {
    if !text.is_empty() {
        text.extend_from_slice(b"\n")?;
    }
    text.extend_from_slice(line)?;
    Ok(())
}

/// Whether a line of a map is neither blank nor a comment.
pub(crate) fn says_something(line: &[u8]) -> bool {
    let line = line.trim_ascii_start();
    !line.is_empty() && !line.starts_with(b"#")
}

impl Compact {
    /// The lines of a map that say something.
    fn of(alloc: Global, map: &[u8]) -> Result<Compact, AllocError> {
        let mut text = Vec::with_capacity(alloc, map.len())?;
        let mut lines = Vec::new(alloc);
        let mut number: u32 = 0;
        for line in map.split(|byte| *byte == b'\n') {
            number = number.saturating_add(1);
            if says_something(line) {
                add_line(&mut text, line)?;
                lines.push(number)?;
            }
        }
        Ok(Compact { text, lines })
    }
}

/// Adds a `drop` of each top segment or group with a field that the map passes over.
fn write_drops(out: &mut Vec<u8>, source: &Profile, unread: &[FieldAt]) -> io::Result<()> {
    let mut last = None;
    for field in unread {
        let top = field.at.first().copied();
        let at = field.at.get(..1).unwrap_or(&[]);
        if top != last {
            let named = Named::whole(source, at, 0);
            write!(out, "\ndrop {named}")?;
        }
        last = top;
    }
    Ok(())
}

/// The map between these profiles, where its target demands nothing of fields. `unread` are the fields of the source that it passes over.
pub(crate) fn make_runnable(
    alloc: Global,
    sides: &ProfilePair,
    map: &[u8],
    unread: &[FieldAt],
) -> Result<Runnable, AllocError> {
    let mut compact = Compact::of(alloc, map)?;
    if write_drops(&mut compact.text, &sides.source, unread).is_err() {
        return Err(AllocError);
    }
    let Some(map) = map_of(alloc, &compact.text)? else {
        return Ok(Runnable::TooLarge);
    };
    let Some(target) = skeleton(alloc, &sides.target, false)? else {
        return Ok(Runnable::TooLarge);
    };
    match gw_check::examine(alloc, sides.source.clone()?, target, map) {
        Ok(checked) => Ok(Runnable::Checked(checked)),
        Err(gw_check::Refusal::Memory(_)) => Err(AllocError),
        Err(gw_check::Refusal::Rules { least, .. }) => {
            // (its line in the map, 0 where the map has no such line)
            let number = (least.mark.line as usize).wrapping_sub(1);
            let line = compact.lines.get(number).copied().unwrap_or(0);
            Ok(Runnable::Broken(least.rule, line))
        }
    }
}
