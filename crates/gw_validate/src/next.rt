//! The names with which the segments of a message may go on.
ghost use Rattle.std.specs.Prelude.{◌≡◌, ◌++◌, IfOk, OnOk, take};
ghost use Rattle.gw_profile.specs.Deterministic.{Determined, NoName};
ghost use Rattle.gw_profile.specs.LookAhead.{first_names, is_optional};
ghost use Rattle.gw_profile.specs.Seen.{forest, profile_value};
ghost use Rattle.gw_profile.specs.Shapes.{nothing};
ghost use Rattle.gw_validate.specs.Conforming.{names};
ghost use Rattle.gw_validate.specs.Next.{AreNext, AreNextAt};
ghost use Rattle.gw_validate.specs.own.Firsts.{first_of};
ghost use Rattle.gw_validate.specs.own.State.{frame_forest, stack_on};

use crate::listing::name_at;
use crate::walk::{Frame, advance, has_room, start};
use gw_er7::Message;
use gw_profile::{Card, Node, Profile, add_first_names, is_optional};
use std::alloc::{AllocError, Global};

// Adds the names that can begin an occurrence of the node.
fn add_of_node(found: &mut Vec<[u8; 3]>, node: &Node, due: Card) -> Result<(), AllocError>
    ensures { OnOk result (found.new.items ≡ found.old.items ++ first_of node.now due.max) }
{
    if !has_room(due) {
        return Ok(());
    }
    match node {
        Node::Seg(segment) => {
            found.push(segment.name)?;
            Ok(())
        }
        Node::Group(group) => add_first_names(found, &group.nodes),
    }
}

// Adds the names that can begin what is left of the frame, and gives whether all of that may be absent.
fn add_of_frame(found: &mut Vec<[u8; 3]>, frame: Frame) -> Result<bool, AllocError>
    ensures names { OnOk result (found.new.items ≡ found.old.items ++ first_names (frame_forest frame.entry)) }
    ensures optional { IfOk result (λ absent. absent ≡ is_optional (frame_forest frame.entry)) }
{
    add_of_node(found, frame.node, frame.due)?;
    if frame.due.min > 0 {
        return Ok(false);
    }
    add_first_names(found, frame.rest)?;
    Ok(is_optional(frame.rest))
}

// The names that can begin what is left.
fn first_of_stack(alloc: Global, mut stack: Vec<Frame>) -> Result<Vec<[u8; 3]>, AllocError>
    ensures { IfOk result (λ found. found.items ≡ first_names (stack_on stack.entry.items nothing)) }
{
    let mut found = Vec::new(alloc);
    while let Some(frame) = stack.pop() {
        if !add_of_frame(&mut found, frame)? {
            return Ok(found);
        }
    }
    Ok(found)
}

// The names behind these names.
fn next_of(alloc: Global, nodes: &[Node], names: &[[u8; 3]]) -> Result<Vec<[u8; 3]>, AllocError>
    requires { Determined (forest nodes.now) NoName }
    ensures { IfOk result (λ found. AreNext (forest nodes.now) names.now found.items) }
{
    let mut stack = start(alloc, nodes)?;
    for name in names {
        let Some(_) = advance(&mut stack, *name)? else {
            return Ok(Vec::new(alloc));
        };
    }
    first_of_stack(alloc, stack)
}

// The names of the segments before the one of this number that the profile knows.
fn names_before(
    alloc: Global,
    profile: &Profile,
    message: &Message,
    number: usize,
) -> Result<Vec<[u8; 3]>, AllocError>
    ensures { IfOk result (λ found. found.items ≡ names (forest profile.now.nodes) (take number message.now)) }
{
    let mut found = Vec::new(alloc);
    for i in 0..message.segment_count() {
        if i == number {
            return Ok(found);
        }
        let name = name_at(message, i);
        if profile.knows(name) {
            found.push(name)?;
        }
    }
    Ok(found)
}

/// The names of the segments that may come behind those before the one of this number (from 0): with which of the profile's names
/// these begin a list that fits. There is none where they begin no such list. The one error is an allocation failure.
pub fn next_names(
    alloc: Global,
    profile: &Profile,
    message: &Message,
    number: usize,
) -> Result<Vec<[u8; 3]>, AllocError>
    ensures { IfOk result (λ found. AreNextAt (profile_value profile.now) message.now number found.items) }
{
    let names = names_before(alloc, profile, message, number)?;
    next_of(alloc, profile.nodes(), &names)
}
