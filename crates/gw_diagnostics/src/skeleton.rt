//! A profile without what it demands below its segments, or below its fields, as text.
use gw_profile::{Card, Node, Profile, SegNode, Usage};
use std::io;
use std::io::Write;

/// The usage and the cardinality of a segment or group, none of which is asked for where it may be absent, and the end of the line.
fn write_often(out: &mut Vec<u8>, usage: Usage, card: Card) -> io::Result<()> {
    match usage {
        Usage::R => out.write_all(b" R ")?,
        Usage::X => out.write_all(b" X ")?,
        _ => out.write_all(b" O ")?,
    }
    let Card { min, max } = card;
    match max {
        None => writeln!(out, "{min}..*"),
        Some(max) => writeln!(out, "{min}..{max}"),
    }
}

/// A segment, with each field that may come where they are asked for.
fn write_segment(out: &mut Vec<u8>, segment: &SegNode, has_fields: bool) -> io::Result<()> {
    out.write_all(b"segment ")?;
    out.write_all(&segment.name)?;
    if segment.label.as_slice() != segment.name.as_slice() {
        out.write_all(b" as ")?;
        out.write_all(&segment.label)?;
    }
    write_often(out, segment.usage, segment.card)?;
    if !has_fields {
        return Ok(());
    }
    for field in segment.fields.as_slice() {
        if field.usage != Usage::X {
            let number = field.number;
            writeln!(out, "field {number} R 1..1")?;
        }
    }
    Ok(())
}

/// A node, with those in it.
#[cycle(skeleton)]
fn write_node(out: &mut Vec<u8>, node: &Node, has_fields: bool) -> io::Result<()> {
    match node {
        Node::Seg(segment) => write_segment(out, segment, has_fields),
        Node::Group(group) => {
            out.write_all(b"group ")?;
            out.write_all(&group.label)?;
            write_often(out, group.usage, group.card)?;
            write_nodes(out, &group.nodes, has_fields)?;
            out.write_all(b"end\n")
        }
    }
}

#[cycle(skeleton)]
fn write_nodes(out: &mut Vec<u8>, nodes: &[Node], has_fields: bool) -> io::Result<()> {
    for node in nodes {
        write_node(out, node, has_fields)?;
    }
    Ok(())
}

/// The text of a profile with the same segments and groups. It demands nothing of their fields, and lists those that may come as R where they are asked for.
/// It is no longer than the text of the profile.
pub(crate) fn write_skeleton(
    out: &mut Vec<u8>,
    profile: &Profile,
    has_fields: bool,
) -> io::Result<()> {
    out.write_all(b"profile ")?;
    out.write_all(profile.name())?;
    out.write_all(b"\n")?;
    write_nodes(out, profile.nodes(), has_fields)
}
