//! What `check --hints` says of a map that the rules allow: what its lines may not mean, which `drop` lines name what is read too,
//! and that the source doesn't list MSH-18.
use crate::advice::Written;
use crate::elements::parts_of;
use crate::line_hints::{print_conditions, print_leaves};
use crate::subjects::read_of;
use gw_check::{CheckedMap, Site, sites};
use gw_maplang::Dropped;
use gw_profile::{Node, Profile};
use std::alloc::{AllocError, Global};
use std::collections::BTreeMap;
use std::io::Write;

/// The character set of a message (chapter 2, 2.15.9.18).
const CHARACTER_SET: u32 = 18;

/// The number of the node with this label, and the nodes below it.
fn labelled<'p>(level: &'p [Node], label: &[u8]) -> Option<(usize, &'p [Node])> {
    for (number, node) in level.iter().enumerate() {
        let (found, _, below) = parts_of(node);
        if found == label {
            return Some((number, below));
        }
    }
    None
}

/// The numbers of the nodes that lead to what a `drop` names, and that of its field, where it names one.
fn place_of(alloc: Global, profile: &Profile, dropped: &Dropped) -> Result<Vec<usize>, AllocError> {
    let mut place = Vec::new(alloc);
    let mut level = profile.nodes();
    for label in dropped.path.as_slice() {
        if let Some((number, below)) = labelled(level, label) {
            place.push(number)?;
            level = below;
        }
    }
    if let Some(field) = dropped.field {
        place.push(field as usize)?;
    }
    Ok(place)
}

/// Notes that a line reads a field: by the place of the field, and by that of each node around it.
fn note_read(
    alloc: Global,
    reads: &mut BTreeMap<Vec<usize>, u32>,
    site: &Site,
) -> Result<(), AllocError> {
    let Some(from) = read_of(site) else {
        return Ok(());
    };
    if from.field == 0 {
        return Ok(());
    }
    let mut place = Vec::new(alloc);
    for number in from.at.as_slice() {
        place.push(*number)?;
        reads.insert(Vec::from_slice(alloc, &place)?, site.line)?;
    }
    place.push(from.field as usize)?;
    reads.insert(place, site.line)?;
    Ok(())
}

/// Reports each `drop` of what is read too.
fn print_drops<E: Write>(
    alloc: Global,
    written: &Written<'_>,
    map: &CheckedMap,
    sites: &[Site],
    errors: &mut E,
) -> Result<(), AllocError> {
    let path = written.path;
    let mut reads = BTreeMap::new(alloc);
    for site in sites {
        note_read(alloc, &mut reads, site)?;
    }
    for dropped in map.map().drops() {
        let place = place_of(alloc, map.source(), dropped)?;
        if let Some(reader) = reads.get(&place) {
            let line = dropped.line;
            let _ = writeln!(
                errors,
                "{path}:{line}: hint: line {reader} reads what this drops"
            );
        }
    }
    Ok(())
}

/// Reports what a person may want to look at in a map that the rules allow.
pub fn print_hints<E: Write>(
    alloc: Global,
    written: &Written<'_>,
    map: &CheckedMap,
    errors: &mut E,
) -> Result<(), AllocError> {
    let sites = sites(alloc, map.items())?;
    print_conditions(alloc, written, map, &sites, errors)?;
    print_leaves(written, map.source(), &sites, errors);
    print_drops(alloc, written, map, &sites, errors)?;
    let lists_characters = match map.source().nodes().first() {
        Some(Node::Seg(header)) => {
            header
                .fields
                .iter()
                .any(|field| field.number == CHARACTER_SET)
        }
        _ => false,
    };
    if !lists_characters {
        let _ = writeln!(
            errors,
            "hint: the source doesn't list MSH-18, so the rules don't ask for it: without it a receiver takes each text for ASCII"
        );
    }
    Ok(())
}
