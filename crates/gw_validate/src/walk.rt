//! A walk over a profile by one name of look-ahead.
ghost use Rattle.std.specs.Prelude.{◌≡◌, ◌++◌, ◌∷◌, [], IfOk, ◌-◌, map, true, List, None, Some, IfSome, IsNone};
ghost use Rattle.std.specs.Str.{bytes_eq};
ghost use Rattle.gw_validate.specs.own.Residual.{has_room, less, after_name};
ghost use Rattle.gw_validate.specs.declared.walk.Frame.{Frame};
ghost use Rattle.gw_validate.specs.declared.walk.Step.TheVariants.{Taken, Passed};
ghost use Rattle.gw_profile.specs.Seen.{forest};
ghost use Rattle.gw_validate.specs.own.State.{Tries, TriesNode, left_out, frame_forest, stack_on, Advances};
ghost use Rattle.gw_profile.specs.Shapes.{nothing};
ghost use Rattle.gw_validate.specs.own.Shortest.{head, several, shortest, shortest_node};
ghost use Rattle.gw_validate.specs.own.Answers.{Answers};
ghost use Rattle.gw_profile.specs.Deterministic.{Determined, NoName, Optional};
ghost use Rattle.gw_validate.specs.Conforming.{named};

use crate::listing::name_at;
use gw_er7::Message;
use gw_profile::{Card, FieldShape, Node};
use std::alloc::{AllocError, Global};

/// A node with how often it may still come, and the nodes behind it.
#[derive(Clone, Copy)]
pub(crate) struct Frame<'a> {
    pub(crate) node: &'a Node,
    pub(crate) due: Card,
    pub(crate) rest: &'a [Node],
}

/// What the names of a list of segments are.
#[derive(Drop)]
pub(crate) enum Answer<'a> {
    /// It fits, and the segment of each name has these fields.
    Fits(Vec<&'a [FieldShape]>),
    /// The names up to this one begin no list that fits, and those before it begin one.
    OutOfOrder(usize),
    /// The names begin a list that fits, and the shortest completion begins with this name.
    Missing([u8; 3]),
}

/// What came of a name.
#[derive(Clone, Copy, Drop)]
enum Step<'a> {
    /// A segment of these fields takes it.
    Taken(&'a [FieldShape]),
    /// It cannot come here, but what stands here may be left out.
    Passed,
    /// It cannot come here, and something else must.
    Stuck,
}

pub(crate) fn same_name(a: [u8; 3], b: [u8; 3]) -> bool
    ensures { result ≡ bytes_eq a b }
{
    a == b
}

// Whether one more occurrence is allowed.
pub(crate) fn has_room(due: Card) -> bool
    ensures { result ≡ has_room due.max }
{
    match due.max {
        None => true,
        Some(max) => max > 0,
    }
}

// What is left after one more occurrence.
pub(crate) fn less_one(due: Card) -> Card
    ensures min { result.min ≡ due.min - 1 }
    ensures max { result.max ≡ less due.max }
{
    let max = match due.max {
        None => None,
        Some(max) => Some(max.saturating_sub(1)),
    };
    Card {
        min: due.min.saturating_sub(1),
        max,
    }
}

// What comes of a name that the node does not take.
fn left_out<'a>(due: Card) -> Step<'a>
    ensures { result ≡ left_out due.min }
{
    if due.min == 0 {
        Step::Passed
    } else {
        Step::Stuck
    }
}

#[cycle(take)]
#[inline(always)]
fn take_node<'a>(
    stack: &mut Vec<Frame<'a>>,
    frame: Frame<'a>,
    name: [u8; 3],
) -> Result<Step<'a>, AllocError>
    ensures { IfOk result (λ s. TriesNode frame.entry name stack.old.items stack.new.items s) }
{
    if !has_room(frame.due) {
        return Ok(left_out(frame.due));
    }
    let left = Frame {
        due: less_one(frame.due),
        ..frame
    };
    match frame.node {
        Node::Seg(segment) => {
            if same_name(segment.name, name) {
                stack.push(left)?;
                return Ok(Step::Taken(&segment.fields));
            }
            Ok(left_out(frame.due))
        }
        Node::Group(group) => {
            let depth = stack.len();
            stack.push(left)?;
            match take_nodes(stack, &group.nodes, name)? {
                Step::Taken(fields) => Ok(Step::Taken(fields)),
                _ => {
                    stack.truncate(depth);
                    Ok(left_out(frame.due))
                }
            }
        }
    }
}

#[cycle(take)]
fn take_nodes<'a>(
    stack: &mut Vec<Frame<'a>>,
    nodes: &'a [Node],
    name: [u8; 3],
) -> Result<Step<'a>, AllocError>
    ensures { IfOk result (λ s. Tries (forest nodes.now) name stack.old.items stack.new.items s) }
{
    for (i, node) in nodes.iter().enumerate() {
        let frame = Frame {
            node,
            due: node.card(),
            rest: &nodes[i + 1..],
        };
        match take_node(stack, frame, name)? {
            Step::Passed => {}
            taken => return Ok(taken),
        }
    }
    Ok(Step::Passed)
}

// A name, tried on a frame.
#[inline(always)]
fn take_frame<'a>(
    stack: &mut Vec<Frame<'a>>,
    frame: Frame<'a>,
    name: [u8; 3],
) -> Result<Step<'a>, AllocError>
    ensures { IfOk result (λ s. Tries (frame_forest frame.entry) name stack.old.items stack.new.items s) }
{
    match take_node(stack, frame, name)? {
        Step::Passed => take_nodes(stack, frame.rest, name),
        Step::Taken(fields) => Ok(Step::Taken(fields)),
        Step::Stuck => Ok(Step::Stuck),
    }
}

// Whether these nodes are segments of other names that may be left out.
#[inline(always)]
fn are_passed(nodes: &[Node], name: [u8; 3]) -> bool
    ensures { result ≡ true → (after_name (forest nodes.now) name ≡ None) × Optional (forest nodes.now) }
{
    for node in nodes {
        let Node::Seg(segment) = node else {
            return false;
        };
        if segment.card.min > 0 {
            return false;
        }
        if same_name(segment.name, name) {
            return false;
        }
    }
    true
}

// Whether nothing of the frame can come with this name, and all of it may be left out.
#[inline(always)]
fn is_spent(frame: Frame, name: [u8; 3]) -> bool
    ensures { result ≡ true → (stack : List Frame) → Tries (frame_forest frame.entry) name stack stack Passed }
{
    if has_room(frame.due) {
        return false;
    }
    if frame.due.min > 0 {
        return false;
    }
    are_passed(frame.rest, name)
}

// What stands in place of a frame whose group came once more, by its first segment, which has these fields.
#[derive(Clone, Copy)]
struct Begun<'a> {
    outer: Frame<'a>,
    inner: Frame<'a>,
    fields: &'a [FieldShape],
}

// Takes the name where the frame's group may come once more, and its first node is a segment of this name.
#[inline(always)]
fn begin_again<'a>(frame: Frame<'a>, name: [u8; 3]) -> Option<Begun<'a>>
    ensures { IfSome result (λ begun. (stack : List Frame) → TriesNode frame.entry name stack (stack ++ begun.outer ∷ begun.inner ∷ []) (Taken begun.fields)) }
{
    if !has_room(frame.due) {
        return None;
    }
    let Node::Group(group) = frame.node else {
        return None;
    };
    let Some((node, rest)) = group.nodes.split_first() else {
        return None;
    };
    let Node::Seg(segment) = node else {
        return None;
    };
    if !same_name(segment.name, name) {
        return None;
    }
    if !has_room(segment.card) {
        return None;
    }
    Some(Begun {
        outer: Frame {
            due: less_one(frame.due),
            ..frame
        },
        inner: Frame {
            node,
            due: less_one(segment.card),
            rest,
        },
        fields: &segment.fields,
    })
}

// Takes the name where nothing else can come on top, and the group below comes once more by this name: the fields of its first segment.
#[inline(always)]
fn take_anew<'a>(stack: &mut Vec<Frame<'a>>, name: [u8; 3]) -> Option<&'a [FieldShape]>
    ensures taken { IfSome result (λ fields. Advances (stack_on stack.old.items nothing) name
        (stack_on stack.new.items nothing) (Some fields)) }
    ensures kept { IsNone result → stack.new.items ≡ stack.old.items }
{
    let depth = stack.len();
    if depth < 2 {
        return None;
    }
    let top = stack[depth - 1];
    if !is_spent(top, name) {
        return None;
    }
    let below = stack[depth - 2];
    let Some(begun) = begin_again(below, name) else {
        return None;
    };
    stack[depth - 2] = begun.outer;
    stack[depth - 1] = begun.inner;
    Some(begun.fields)
}

// Takes the name where the node on top is a segment of this name that may still come: its fields.
#[inline(always)]
fn take_again<'a>(stack: &mut Vec<Frame<'a>>, name: [u8; 3]) -> Option<&'a [FieldShape]>
    ensures taken { IfSome result (λ fields. Advances (stack_on stack.old.items nothing) name
        (stack_on stack.new.items nothing) (Some fields)) }
    ensures kept { IsNone result → stack.new.items ≡ stack.old.items }
{
    let depth = stack.len();
    if depth == 0 {
        return None;
    }
    let frame = stack[depth - 1];
    let Node::Seg(segment) = frame.node else {
        return None;
    };
    if !same_name(segment.name, name) {
        return None;
    }
    if !has_room(frame.due) {
        return None;
    }
    stack[depth - 1] = Frame {
        due: less_one(frame.due),
        ..frame
    };
    Some(&segment.fields)
}

// Goes on by one name, as `advance` does, whatever is on top.
fn advance_on<'a>(
    stack: &mut Vec<Frame<'a>>,
    name: [u8; 3],
) -> Result<Option<&'a [FieldShape]>, AllocError>
    ensures { IfOk result (Advances (stack_on stack.old.items nothing) name
        (stack_on stack.new.items nothing)) }
{
    while let Some(frame) = stack.pop() {
        match take_frame(stack, frame, name)? {
            Step::Taken(fields) => return Ok(Some(fields)),
            Step::Stuck => return Ok(None),
            Step::Passed => {}
        }
    }
    Ok(None)
}

// Goes on by one name, if the names so far and this one begin a list that fits: the fields of its segment.
#[inline(always)]
pub(crate) fn advance<'a>(
    stack: &mut Vec<Frame<'a>>,
    name: [u8; 3],
) -> Result<Option<&'a [FieldShape]>, AllocError>
    ensures { IfOk result (Advances (stack_on stack.old.items nothing) name
        (stack_on stack.new.items nothing)) }
{
    if let Some(fields) = take_again(stack, name) {
        return Ok(Some(fields));
    }
    if let Some(fields) = take_anew(stack, name) {
        return Ok(Some(fields));
    }
    advance_on(stack, name)
}

// The first name of the fewest occurrences that are still due.
#[cycle(missing)]
fn missing_node(node: &Node, due: Card) -> Option<[u8; 3]>
    ensures { result ≡ head (several due.min (shortest_node node.now)) }
{
    if due.min == 0 {
        return None;
    }
    match node {
        Node::Seg(segment) => Some(segment.name),
        Node::Group(group) => missing_nodes(&group.nodes),
    }
}

#[cycle(missing)]
fn missing_nodes(nodes: &[Node]) -> Option<[u8; 3]>
    ensures { result ≡ head (shortest (forest nodes.now)) }
{
    for node in nodes {
        let name = missing_node(node, node.card());
        if name.is_some() {
            return name;
        }
    }
    None
}

// The first name of the shortest completion.
fn missing(mut stack: Vec<Frame>) -> Option<[u8; 3]>
    ensures { result ≡ head (shortest (stack_on stack.entry.items nothing)) }
{
    while let Some(frame) = stack.pop() {
        if let Some(name) = missing_node(frame.node, frame.due) {
            return Some(name);
        }
        if let Some(name) = missing_nodes(frame.rest) {
            return Some(name);
        }
    }
    None
}

// Where nothing was read yet.
pub(crate) fn start(alloc: Global, nodes: &[Node]) -> Result<Vec<Frame<'_>>, AllocError>
    ensures { IfOk result (λ stack. stack_on stack.items nothing ≡ forest nodes.now) }
{
    let mut stack = Vec::with_capacity(alloc, 8)?;
    let Some((node, rest)) = nodes.split_first() else {
        return Ok(stack);
    };
    stack.push(Frame {
        node,
        due: node.card(),
        rest,
    })?;
    Ok(stack)
}

/// What the names of these segments of the message are.
pub(crate) fn walk<'a>(
    alloc: Global,
    nodes: &'a [Node],
    message: &Message,
    taken: &[usize],
) -> Result<Answer<'a>, AllocError>
    requires { Determined (forest nodes.now) NoName }
    ensures { IfOk result (Answers (forest nodes.now) (map (named message.now) taken.now)) }
{
    let mut stack = start(alloc, nodes)?;
    let mut shapes = Vec::with_capacity(alloc, taken.len())?;
    for (i, number) in taken.iter().enumerate() {
        let Some(fields) = advance(&mut stack, name_at(message, *number))? else {
            return Ok(Answer::OutOfOrder(i));
        };
        shapes.push(fields)?;
    }
    match missing(stack) {
        None => Ok(Answer::Fits(shapes)),
        Some(name) => Ok(Answer::Missing(name)),
    }
}
