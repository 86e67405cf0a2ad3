//! The map from a profile to itself, as text to start from.
use crate::words::in_memory;
use gw_profile::{Node, Profile, SegNode, Usage};
use std::alloc::{AllocError, Global};
use std::io;
use std::io::{ErrorKind, Write};

/// Two blanks for each group that is open.
fn indent(out: &mut Vec<u8>, groups: usize) -> io::Result<()> {
    for _ in 0..groups {
        out.write_all(b"  ")?;
    }
    Ok(())
}

/// A segment from itself, and a copy of each field that may come.
fn write_segment(out: &mut Vec<u8>, groups: usize, segment: &SegNode) -> io::Result<()> {
    if segment.usage == Usage::X {
        return Ok(());
    }
    indent(out, groups)?;
    out.write_all(b"segment ")?;
    out.write_all(&segment.label)?;
    out.write_all(b" from ")?;
    out.write_all(&segment.label)?;
    out.write_all(b"\n")?;
    for field in segment.fields.as_slice() {
        if field.usage != Usage::X {
            let number = field.number;
            indent(out, groups)?;
            write!(out, "  copy {number} from ")?;
            out.write_all(&segment.label)?;
            writeln!(out, "-{number}")?;
        }
    }
    Ok(())
}

/// Puts what is left of one level more behind the others.
fn push<'p>(levels: &mut Vec<&'p [Node]>, level: &'p [Node]) -> io::Result<()> {
    match levels.push(level) {
        Ok(()) => Ok(()),
        Err(_) => Err(io::Error::from(ErrorKind::OutOfMemory)),
    }
}

/// The items of a profile's nodes, those of a group up to its `end`.
fn write_items(alloc: Global, profile: &Profile, out: &mut Vec<u8>) -> io::Result<()> {
    // (what is left of each group that is open, and of the whole profile)
    let mut levels: Vec<&[Node]> = Vec::new(alloc);
    push(&mut levels, profile.nodes())?;
    for _ in 0..u64::MAX {
        let Some(level) = levels.pop() else {
            return Ok(());
        };
        let groups = levels.len();
        let Some((node, rest)) = level.split_first() else {
            if groups > 0 {
                indent(out, groups - 1)?;
                out.write_all(b"end\n")?;
            }
            continue;
        };
        push(&mut levels, rest)?;
        match node {
            Node::Seg(segment) => write_segment(out, groups, segment)?,
            Node::Group(group) => {
                indent(out, groups)?;
                out.write_all(b"group ")?;
                out.write_all(&group.label)?;
                out.write_all(b" each ")?;
                out.write_all(&group.label)?;
                out.write_all(b"\n")?;
                push(&mut levels, &group.nodes)?;
            }
        }
    }
    Ok(())
}

/// The map's first line, and its items.
fn write_map(alloc: Global, profile: &Profile, out: &mut Vec<u8>) -> io::Result<()> {
    for word in ["map ", " from ", " to "] {
        out.write_all(word.as_bytes())?;
        out.write_all(profile.name())?;
    }
    out.write_all(b"\n")?;
    write_items(alloc, profile, out)
}

/// The map from a profile to itself: each segment and group from itself, with a copy of each field. What is X is left out.
pub fn identity_map(alloc: Global, profile: &Profile) -> Result<Vec<u8>, AllocError> {
    let mut out = Vec::new(alloc);
    let written = write_map(alloc, profile, &mut out);
    in_memory(out, written)
}
