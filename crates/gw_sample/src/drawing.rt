//! A sample as it is written: its segments, fields, components and subcomponents between the separators (HL7 v2.5.1 chapter 2, 2.5.4).

use crate::extent::{Extent, count, field_count, is_beyond, is_within};
use crate::leaf::{Texts, Values};
use crate::parts::{Filler, filler_of, is_drawn};
use crate::text::{Undrawn, put, separate};
use gw_profile::{CompShape, FieldShape, Node, Profile, SegNode, SubShape};
use std::alloc::Global;

/// What a sample is drawn from.
#[derive(Drop)]
struct Sketch<'p> {
    extent: Extent,
    values: Values<'p>,
}

/// The name of the header segment.
const HEADER: [u8; 3] = [77, 83, 72];

/// The last component, and the last subcomponent, that a sample may have beyond those that the profile lists.
const LAST: u32 = 9;

// The usual text of a leaf of the header: MSH-11 is for production, MSH-12 is this version.
fn usual(segment: [u8; 3], field: u32) -> Option<&'static [u8]> {
    if segment != HEADER {
        return None;
    }
    match field {
        11 => Some(b"P"),
        12 => Some(b"2.5.1"),
        _ => None,
    }
}

// What no profile lists, where it has to be there.
fn draw_filler(
    sketch: &Sketch<'_>,
    text: &mut Vec<u8>,
    separator: u8,
    filler: Filler,
) -> Result<(), Undrawn> {
    match filler {
        Filler::Unlisted(number) => {
            separate(text, separator, 1, number)?;
            sketch.values.put_unlisted(text)
        }
        _ => Ok(()),
    }
}

// The subcomponents from one number up to another, of which the profile lists none: where they are asked for, each is there.
// Answers the number of the last subcomponent that is there, which was `at`.
fn draw_within(
    sketch: &Sketch<'_>,
    text: &mut Vec<u8>,
    at: u32,
    from: u32,
    to: u32,
) -> Result<u32, Undrawn> {
    if !is_within(sketch.extent) {
        return Ok(at);
    }
    let mut at = at;
    for number in from..to {
        if number <= LAST {
            separate(text, b'&', at, number)?;
            sketch.values.put_unlisted(text)?;
            at = number;
        }
    }
    Ok(at)
}

// The first subcomponent that a component may have beyond those that are listed: the second, so that one is there without a first, but for long texts.
fn first_within(sketch: &Sketch<'_>) -> u32 {
    if sketch.values.are_long() { 1 } else { 2 }
}

// A component that is present.
fn draw_comp(
    sketch: &Sketch<'_>,
    text: &mut Vec<u8>,
    usual: Option<&'static [u8]>,
    subs: &[SubShape],
) -> Result<(), Undrawn> {
    let filler = filler_of(sketch.extent, subs);
    let mut at = 1;
    let mut next = first_within(sketch);
    for sub in subs {
        at = draw_within(sketch, text, at, next, sub.number)?;
        next = sub.number.saturating_add(1);
        if is_drawn(sketch.extent, filler, sub) {
            separate(text, b'&', at, sub.number)?;
            sketch.values.put(text, usual, sub)?;
            at = sub.number;
        }
    }
    if is_within(sketch.extent) && next <= LAST {
        draw_within(sketch, text, at, next, LAST + 1)?;
        return Ok(());
    }
    draw_filler(sketch, text, b'&', filler)
}

// A component that the profile doesn't list: a long text, or a second subcomponent without a first; where further ones are asked for
// long texts, or each subcomponent but the second.
fn draw_unlisted(sketch: &Sketch<'_>, text: &mut Vec<u8>) -> Result<(), Undrawn> {
    if !is_within(sketch.extent) {
        return sketch.values.put_beyond(text);
    }
    let at = draw_within(sketch, text, 1, 1, 2)?;
    let next = if sketch.values.are_long() { 2 } else { 3 };
    draw_within(sketch, text, at, next, LAST + 1)?;
    Ok(())
}

// The components from one number up to another, of which the profile lists none: where they are asked for, each is there.
// Answers the number of the last component that is there, which was `at`.
fn draw_beyond(
    sketch: &Sketch<'_>,
    text: &mut Vec<u8>,
    at: u32,
    from: u32,
    to: u32,
) -> Result<u32, Undrawn> {
    if !is_beyond(sketch.extent) {
        return Ok(at);
    }
    let mut at = at;
    for number in from..to {
        if number <= LAST {
            separate(text, b'^', at, number)?;
            draw_unlisted(sketch, text)?;
            at = number;
        }
    }
    Ok(at)
}

// A repetition that is present.
fn draw_rep(
    sketch: &Sketch<'_>,
    text: &mut Vec<u8>,
    usual: Option<&'static [u8]>,
    comps: &[CompShape],
) -> Result<(), Undrawn> {
    let filler = filler_of(sketch.extent, comps);
    let mut at = 1;
    let mut next = 1;
    for comp in comps {
        at = draw_beyond(sketch, text, at, next, comp.number)?;
        next = comp.number.saturating_add(1);
        if is_drawn(sketch.extent, filler, comp) {
            separate(text, b'^', at, comp.number)?;
            draw_comp(sketch, text, usual, &comp.subs)?;
            at = comp.number;
        }
    }
    if is_beyond(sketch.extent) && next <= LAST {
        draw_beyond(sketch, text, at, next, LAST + 1)?;
        return Ok(());
    }
    draw_filler(sketch, text, b'^', filler)
}

// The repetitions of a field, as many as there are to be.
fn draw_reps(
    sketch: &Sketch<'_>,
    text: &mut Vec<u8>,
    usual: Option<&'static [u8]>,
    field: &FieldShape,
    reps: u32,
) -> Result<(), Undrawn> {
    for rep in 0..reps {
        if rep > 0 {
            put(text, b"~")?;
        }
        draw_rep(sketch, text, usual, &field.comps)?;
    }
    Ok(())
}

// The fields of a segment, the first of which is behind `at`.
fn draw_fields(
    sketch: &Sketch<'_>,
    text: &mut Vec<u8>,
    segment: &SegNode,
    first: u32,
) -> Result<(), Undrawn> {
    let mut at = first;
    for field in &segment.fields {
        let reps = field_count(sketch.extent, field.card);
        if reps > 0 {
            separate(text, b'|', at, field.number)?;
            draw_reps(sketch, text, usual(segment.name, field.number), field, reps)?;
            at = field.number;
        }
    }
    Ok(())
}

// One segment, with the CR behind it. Fields 1 and 2 of MSH are the delimiters.
fn draw_segment(sketch: &Sketch<'_>, text: &mut Vec<u8>, segment: &SegNode) -> Result<(), Undrawn> {
    put(text, &segment.name)?;
    if segment.name == HEADER {
        put(text, b"|^~\\&")?;
        draw_fields(sketch, text, segment, 2)?;
    } else {
        draw_fields(sketch, text, segment, 0)?;
    }
    put(text, b"\r")
}

// A segment or group, as often as it is to be.
#[cycle(draw)]
fn draw_node(sketch: &Sketch<'_>, text: &mut Vec<u8>, node: &Node) -> Result<(), Undrawn> {
    match node {
        Node::Seg(segment) => {
            for _ in 0..count(sketch.extent, segment.card) {
                draw_segment(sketch, text, segment)?;
            }
            Ok(())
        }
        Node::Group(group) => {
            for _ in 0..count(sketch.extent, group.card) {
                draw_nodes(sketch, text, &group.nodes)?;
            }
            Ok(())
        }
    }
}

#[cycle(draw)]
fn draw_nodes(sketch: &Sketch<'_>, text: &mut Vec<u8>, nodes: &[Node]) -> Result<(), Undrawn> {
    for node in nodes {
        draw_node(sketch, text, node)?;
    }
    Ok(())
}

/// The bytes of a sample of this extent, with these texts.
pub(crate) fn draw(
    alloc: Global,
    profile: &Profile,
    extent: Extent,
    texts: Texts,
) -> Result<Vec<u8>, Undrawn> {
    let values = Values::of(alloc, profile, texts)?;
    let sketch = Sketch { extent, values };
    let mut text = Vec::new(alloc);
    draw_nodes(&sketch, &mut text, profile.nodes())?;
    Ok(text)
}
