//! Determinism by one name of look-ahead.
ghost use Rattle.std.specs.Prelude.{◌≡◌, ◌++◌, ◌∷◌, ◌+◌, ◌==◌, [], IfOk, OnOk, if◌then◌else◌, length, drop, ◌≤◌, Some};
ghost use Rattle.gw_profile.specs.Seen.{forest};
ghost use Rattle.gw_profile.specs.Fault as fault;
ghost use Rattle.gw_profile.specs.Line as line_of;
ghost use Rattle.gw_profile.specs.LookAhead as spec;
ghost use Rattle.gw_profile.specs.Nodes as node_spec;
ghost use Rattle.gw_profile.specs.Nodes.{Joins, joined, TakesBack};

use crate::form::allows;
use crate::node::Node;
use crate::shape::Card;
use indexmap::IndexSet;
use std::alloc::{AllocError, Global};
use std::mem;

impl Node {
    ghost use Rattle.std.specs.Prelude.{◌≡◌};
    ghost use Rattle.gw_profile.specs.Nodes.{card_of};

    /// How often the node may occur.
    pub fn card(&self) -> Card
        ensures { result ≡ card_of self.now }
    {
        match self {
            Node::Seg(segment) => segment.card,
            Node::Group(group) => group.card,
        }
    }
}

/// Whether each of these nodes may be absent: none has a least number above 0.
pub fn is_optional(nodes: &[Node]) -> bool
    ensures { result ≡ spec.is_optional (forest nodes.now) }
{
    for node in nodes {
        if node.card().min != 0 {
            return false;
        }
    }
    true
}

// Adds the names that can begin an occurrence of the node.
#[cycle(first)]
fn add_first_of(out: &mut Vec<[u8; 3]>, node: &Node) -> Result<(), AllocError>
    ensures { OnOk result (out.new.items ≡ out.old.items ++ node_spec.first_of_node node.now) }
{
    if !allows(node.card().max, 1) {
        return Ok(());
    }
    match node {
        Node::Seg(segment) => {
            out.push(segment.name)?;
            Ok(())
        }
        Node::Group(group) => add_first_names(out, &group.nodes),
    }
}

/// Adds the names that can begin a list of these nodes: of each node up to and with the first that has to come.
/// The one error is an allocation failure.
#[cycle(first)]
pub fn add_first_names(out: &mut Vec<[u8; 3]>, nodes: &[Node]) -> Result<(), AllocError>
    ensures { OnOk result (out.new.items ≡ out.old.items ++ spec.first_names (forest nodes.now)) }
{
    for node in nodes {
        add_first_of(out, node)?;
        if node.card().min > 0 {
            return Ok(());
        }
    }
    Ok(())
}

// Adds these names to the set.
fn put_names(held: &mut IndexSet<[u8; 3]>, names: &[[u8; 3]]) -> Result<(), AllocError>
    ensures { OnOk result (Joins names.now held.old.keys held.new.keys) }
{
    for name in names {
        held.insert(*name)?;
    }
    Ok(())
}

// The names that can begin one more occurrence of a group.
fn again(alloc: Global, card: Card, first: &[[u8; 3]]) -> Result<IndexSet<[u8; 3]>, AllocError>
    ensures { IfOk result (λ names. Joins (if line_of.allows card.max 2 then first.now else []) [] names.keys) }
{
    let mut names = IndexSet::new(alloc);
    if allows(card.max, 2) {
        put_names(&mut names, first)?;
        return Ok(names);
    }
    Ok(names)
}

// Restores `near` from the last set of `far`.
fn take_back(near: &mut IndexSet<[u8; 3]>, far: &mut Vec<IndexSet<[u8; 3]>>)
    ensures { TakesBack far.old.items near.new far.new.items }
{
    if let Some(held) = far.pop() {
        *near = held;
    }
}

// Clears the names that can follow, if the node has to occur.
fn forget(alloc: Global, min: u32, follow: &mut IndexSet<[u8; 3]>)
    ensures { follow.new.keys ≡ (if min == 0 then follow.old.keys else []) }
{
    if min == 0 {
        return;
    }
    *follow = IndexSet::new(alloc);
}

// The names that can come before the node: those that can begin it, and those of its later siblings if it may be absent.
fn put_before(alloc: Global, node: &Node, follow: &mut IndexSet<[u8; 3]>) -> Result<(), AllocError>
    ensures { OnOk result (Joins (node_spec.first_of_node node.now) (if (node_spec.card_of node.now).min == 0 then follow.old.keys else []) follow.new.keys) }
{
    let mut first = Vec::new(alloc);
    add_first_of(&mut first, node)?;
    forget(alloc, node.card().min, follow);
    put_names(follow, &first)?;
    Ok(())
}

fn is_before(name: &[u8], other: &[u8]) -> bool
    ensures { result ≡ spec.is_before name.now other.now }
{
    let [x, xs @ ..] = name else {
        return true;
    };
    let [y, ys @ ..] = other else {
        return false;
    };
    if *x < *y {
        return true;
    }
    *x == *y && is_before(xs, ys)
}

fn least(name: [u8; 3], found: Option<[u8; 3]>) -> [u8; 3]
    ensures { result ≡ spec.least name found }
{
    match found {
        None => name,
        Some(other) => {
            if is_before(&name, &other) {
                return name;
            }
            other
        }
    }
}

fn in_some(name: [u8; 3], sets: &[IndexSet<[u8; 3]>]) -> bool
    ensures { result ≡ fault.is_among name (joined sets.now) }
{
    for names in sets {
        if names.contains(&name) {
            return true;
        }
    }
    false
}

fn has_name(name: [u8; 3], near: &IndexSet<[u8; 3]>, far: &[IndexSet<[u8; 3]>]) -> bool
    ensures { result ≡ fault.is_among name (near.now.keys ++ joined far.now) }
{
    near.contains(&name) || in_some(name, far)
}

fn least_shared(
    names: &[[u8; 3]],
    near: &IndexSet<[u8; 3]>,
    far: &[IndexSet<[u8; 3]>],
) -> Option<[u8; 3]>
    ensures { result ≡ spec.least_shared names.now (near.now.keys ++ joined far.now) }
{
    let mut found = None;
    let mut left = names.len();
    while left > 0 {
        left -= 1;
        let is_shared = has_name(names[left], near, far);
        found = with_shared(names[left], is_shared, found);
    }
    found
}

fn with_shared(name: [u8; 3], is_shared: bool, found: Option<[u8; 3]>) -> Option<[u8; 3]>
    ensures { result ≡ (if is_shared then Some (spec.least name found) else found) }
{
    if is_shared {
        return Some(least(name, found));
    }
    found
}

// Whether a node may occur more often than `min`.
fn is_open(card: Card) -> bool
    ensures { result ≡ line_of.allows card.max (card.min + 1) }
{
    match card.max {
        None => true,
        Some(max) => card.min < max,
    }
}

fn clash(
    card: Card,
    names: &[[u8; 3]],
    near: &IndexSet<[u8; 3]>,
    far: &[IndexSet<[u8; 3]>],
) -> Option<[u8; 3]>
    ensures { result ≡ spec.clash card names.now (near.now.keys ++ joined far.now) }
{
    if is_open(card) {
        return least_shared(names, near, far);
    }
    None
}

// The ambiguous name of a node, else the one that was found in a later node.
fn or_else(name: Option<[u8; 3]>, found: Option<[u8; 3]>) -> Option<[u8; 3]>
    ensures { result ≡ spec.or_else name found }
{
    match name {
        None => found,
        Some(name) => Some(name),
    }
}

// The first set of `far` whose names can come before a node of this `min` and all that follows.
fn passed(min: u32, start: usize, far: &[IndexSet<[u8; 3]>]) -> usize
    ensures { result ≡ (if min == 0 then start else length far.now) }
{
    if min == 0 { start } else { far.len() }
}

/// The least ambiguous name of the first node for which one name of look-ahead isn't enough.
///
/// The names that can follow these nodes are those of `follow`, and of the sets of `far` from `start` on. The nodes are walked from the last
/// to the first, and `follow` gets the names of later siblings. Those of the levels around stay in their sets.
#[cycle(ambiguous)]
pub(crate) fn ambiguous(
    alloc: Global,
    nodes: &[Node],
    follow: &mut IndexSet<[u8; 3]>,
    far: &mut Vec<IndexSet<[u8; 3]>>,
    start: usize,
) -> Result<Option<[u8; 3]>, AllocError>
    requires { start ≤ length far.old.items }
    ensures found { IfOk result (λ found. found ≡ spec.ambiguous (forest nodes.now) (follow.old.keys ++ joined (drop start far.old.items))) }
    ensures kept { OnOk result (far.new.items ≡ far.old.items) }
{
    let mut from = start;
    let mut found = None;
    let mut left = nodes.len();
    while left > 0 {
        left -= 1;
        let node = &nodes[left];
        let name = node_ambiguous(alloc, node, follow, far, from)?;
        found = or_else(name, found);
        put_before(alloc, node, follow)?;
        from = passed(node.card().min, from, far);
    }
    Ok(found)
}

#[cycle(ambiguous)]
fn node_ambiguous(
    alloc: Global,
    node: &Node,
    near: &mut IndexSet<[u8; 3]>,
    far: &mut Vec<IndexSet<[u8; 3]>>,
    start: usize,
) -> Result<Option<[u8; 3]>, AllocError>
    requires { start ≤ length far.old.items }
    ensures found { IfOk result (λ found. found ≡ node_spec.node_ambiguous node.now (near.old.keys ++ joined (drop start far.old.items))) }
    ensures near { OnOk result (near.new ≡ near.old) }
    ensures kept { OnOk result (far.new.items ≡ far.old.items) }
{
    match node {
        Node::Seg(segment) => Ok(clash(segment.card, &[segment.name], near, &far[start..])),
        Node::Group(group) => group_ambiguous(alloc, group.card, &group.nodes, near, far, start),
    }
}

#[cycle(ambiguous)]
fn group_ambiguous(
    alloc: Global,
    card: Card,
    nodes: &[Node],
    near: &mut IndexSet<[u8; 3]>,
    far: &mut Vec<IndexSet<[u8; 3]>>,
    start: usize,
) -> Result<Option<[u8; 3]>, AllocError>
    requires { start ≤ length far.old.items }
    ensures found { IfOk result (λ found. found ≡ spec.group_ambiguous card (forest nodes.now) (near.old.keys ++ joined (drop start far.old.items))) }
    ensures near { OnOk result (near.new ≡ near.old) }
    ensures kept { OnOk result (far.new.items ≡ far.old.items) }
{
    let mut first = Vec::new(alloc);
    add_first_names(&mut first, nodes)?;
    if let Some(name) = clash(card, &first, near, &far[start..]) {
        return Ok(Some(name));
    }
    let mut again = again(alloc, card, &first)?;
    inner_ambiguous(alloc, nodes, &mut again, near, far, start)
}

// The same for the nodes of a group. They can be followed by the names of `again`, and by those that can follow the group.
#[cycle(ambiguous)]
fn inner_ambiguous(
    alloc: Global,
    nodes: &[Node],
    again: &mut IndexSet<[u8; 3]>,
    near: &mut IndexSet<[u8; 3]>,
    far: &mut Vec<IndexSet<[u8; 3]>>,
    start: usize,
) -> Result<Option<[u8; 3]>, AllocError>
    requires { start ≤ length far.old.items }
    ensures found { IfOk result (λ found. found ≡ spec.ambiguous (forest nodes.now) (again.old.keys ++ joined (drop start (far.old.items ++ near.old ∷ [])))) }
    ensures near { OnOk result (near.new ≡ near.old) }
    ensures kept { OnOk result (far.new.items ≡ far.old.items) }
{
    let held = mem::replace(near, IndexSet::new(alloc));
    far.push(held)?;
    let found = ambiguous(alloc, nodes, again, far, start)?;
    take_back(near, far);
    Ok(found)
}
