//! What an accepted map leaves out of its source.
use crate::advice::Written;
use crate::chosen::{Conditions, chosen_by, conditions_of, write_values};
use crate::elements::Named;
use crate::judged::ProfilePair;
use crate::runnable::{add_line, map_of, says_something, skeleton};
use crate::words::in_memory;
use gw_check::{CheckedMap, FieldAt, Site, sites};
use gw_lines::keyword_of;
use gw_profile::Profile;
use std::alloc::{AllocError, Global};
use std::io;
use std::io::Write;

/// The lines of a map that say something, and drop nothing. They are no longer than the map.
fn without_drops(alloc: Global, text: &[u8]) -> Result<Vec<u8>, AllocError> {
    let mut kept = Vec::with_capacity(alloc, text.len())?;
    for line in text.split(|byte| *byte == b'\n') {
        if says_something(line) && keyword_of(line) != b"drop".as_slice() {
            add_line(&mut kept, line)?;
        }
    }
    Ok(kept)
}

/// The fields of the source that no rule of a map reads, dropped or not, whether they are asked for or not.
fn left_out(
    alloc: Global,
    sides: &ProfilePair,
    written: &Written<'_>,
) -> Result<Vec<FieldAt>, AllocError> {
    let text = without_drops(alloc, &written.text)?;
    let Some(map) = map_of(alloc, &text)? else {
        return Ok(Vec::new(alloc));
    };
    let Some(source) = skeleton(alloc, &sides.source, true)? else {
        return Ok(Vec::new(alloc));
    };
    match gw_check::examine(alloc, source, sides.target.clone()?, map) {
        Err(gw_check::Refusal::Memory(_)) => Err(AllocError),
        Err(gw_check::Refusal::Rules { used, .. }) => Ok(used.unread),
        Ok(_) => Ok(Vec::new(alloc)),
    }
}

/// The fields that an accepted map leaves out, a line each.
fn write_left_out(out: &mut Vec<u8>, source: &Profile, fields: &[FieldAt]) -> io::Result<()> {
    for field in fields {
        let named = Named::whole(source, &field.at, field.field);
        writeln!(out, "{named}: left out")?;
    }
    Ok(())
}

/// What each `where` of a map chooses, a line each.
fn write_chosen(
    out: &mut Vec<u8>,
    source: &Profile,
    sites: &[Site],
    conditions: &Conditions<'_>,
) -> io::Result<()> {
    for site in sites {
        if let Some(condition) = conditions.get(&site.line)
            && let Some(named) = chosen_by(source, site, condition)
        {
            let line = site.line;
            write!(out, "{named}: only ")?;
            write_values(out, condition.values.values())?;
            writeln!(out, " (line {line})")?;
        }
    }
    Ok(())
}

/// What an accepted map leaves out, as text.
pub fn leavings(
    alloc: Global,
    sides: &ProfilePair,
    written: &Written<'_>,
    map: &CheckedMap,
) -> Result<Vec<u8>, AllocError> {
    let fields = left_out(alloc, sides, written)?;
    let sites = sites(alloc, map.items())?;
    let conditions = conditions_of(alloc, map.map().items())?;
    let mut out = Vec::new(alloc);
    let said = write_left_out(&mut out, &sides.source, &fields).and_then(|_| write_chosen(
        &mut out,
        &sides.source,
        &sites,
        &conditions,
    ));
    in_memory(out, said)
}
