//! The occurrences of a profile's nodes in a message, as they are kept: those of each node that occurs.
ghost use Rattle.std.specs.Prelude.{◌≡◌, ℕ, List, ◌+◌, ◌-◌, ◌≤◌, ◌<◌, [], ◌∷◌, ◌++◌, take, drop, Some, IfOk, OnOk};
ghost use Rattle.std.specs.Option.{option_copied};
ghost use Rattle.gw_validate.specs.own.Occurring.{Rising, children_of, kept, numbers_of, found_of, IsUpTo};

use std::alloc::{AllocError, Global};
use std::slice;

/// The occurrences of one node, in order.
#[derive(Drop)]
#[cycle(tree)]
pub(crate) enum Occurrences {
    /// Those of a segment: `count` of the listed numbers, from the index `from`.
    Segments { from: usize, count: usize },
    /// The one of a group that occurs once.
    OneGroup(Found),
    /// Those of a group that occurs more than once.
    Groups(Vec<Found>),
}

/// A child node that occurs: its number, from 0, and its occurrences.
#[derive(Drop)]
#[cycle(tree)]
pub(crate) struct Child {
    pub(crate) node: usize,
    pub(crate) occurrences: Occurrences,
}

/// One occurrence of a group, or of the whole profile: the child nodes that occur, whose numbers rise.
#[derive(Drop)]
#[cycle(tree)]
pub(crate) struct Found {
    pub(crate) children: Vec<Child>,
}

/// The occurrences of a segment: of what is listed, from one place up to another.
pub(crate) fn of_segment(from: usize, to: usize) -> Option<Occurrences>
    requires { from ≤ to }
    ensures numbers { (listed : List ℕ) → numbers_of listed result ≡ take (to - from) (drop from listed) }
    ensures groups { found_of result ≡ [] }
{
    if from == to {
        return None;
    }
    Some(Occurrences::Segments {
        from,
        count: to - from,
    })
}

// Two occurrences of a group.
fn two_groups(alloc: Global, first: Found, second: Found) -> Result<Occurrences, AllocError>
    ensures { IfOk result (λ all. found_of (Some all) ≡ first ∷ second ∷ []) }
{
    let mut found = Vec::new(alloc);
    found.push(first)?;
    found.push(second)?;
    Ok(Occurrences::Groups(found))
}

/// The occurrences of a group, and one more behind them.
pub(crate) fn one_more(
    alloc: Global,
    before: Option<Occurrences>,
    one: Found,
) -> Result<Occurrences, AllocError>
    ensures { IfOk result (λ all. found_of (Some all) ≡ found_of before ++ one ∷ []) }
{
    match before {
        Some(Occurrences::OneGroup(first)) => two_groups(alloc, first, one),
        Some(Occurrences::Groups(mut found)) => {
            found.push(one)?;
            Ok(Occurrences::Groups(found))
        }
        _ => Ok(Occurrences::OneGroup(one)),
    }
}

// `count` of the numbers, from one on.
#[inline]
fn part(numbers: &[usize], from: usize, count: usize) -> &[usize]
    ensures { result.now ≡ take count (drop from numbers.now) }
{
    if from >= numbers.len() {
        return &[];
    }
    let behind = &numbers[from..];
    if count >= behind.len() {
        return behind;
    }
    &behind[..count]
}

impl Found {
    /// No node occurs.
    pub(crate) fn none(alloc: Global) -> Found
        ensures { children_of result ≡ [] }
    {
        Found {
            children: Vec::new(alloc),
        }
    }

    /// Puts the occurrences of the node of this number, where it occurs, behind those of the nodes before it.
    pub(crate) fn put(&mut self, node: usize, one: Option<Occurrences>) -> Result<(), AllocError>
        requires { IsUpTo node self.old }
        ensures up_to { OnOk result (IsUpTo (node + 1) self.new) }
        ensures here { OnOk result (kept self.new node ≡ one) }
        ensures before { OnOk result ((k : ℕ) → k < node → kept self.new k ≡ kept self.old k) }
    {
        let Some(occurrences) = one else {
            return Ok(());
        };
        self.children.push(Child { node, occurrences })?;
        Ok(())
    }

    // The occurrences of the node of this number.
    fn of_node(&self, node: usize) -> Option<&Occurrences>
        requires { Rising (children_of self.now) }
        ensures { option_copied result ≡ kept self.now node }
    {
        match self
            .children
            .binary_search_by_key(&node, |child| child.node)
        {
            Ok(place) => Some(&self.children[place].occurrences),
            Err(_) => None,
        }
    }

    /// The numbers of a node's segments, of those that are listed.
    #[inline]
    pub(crate) fn segments<'a>(&self, listed: &'a [usize], node: usize) -> &'a [usize]
        requires { Rising (children_of self.now) }
        ensures { result.now ≡ numbers_of listed.now (kept self.now node) }
    {
        let Some(one) = self.of_node(node) else {
            return &[];
        };
        match one {
            Occurrences::Segments { from, count } => part(listed, *from, *count),
            _ => &[],
        }
    }

    /// The occurrences of a group's node.
    #[inline]
    pub(crate) fn groups(&self, node: usize) -> &[Found]
        requires { Rising (children_of self.now) }
        ensures { result.now ≡ found_of (kept self.now node) }
    {
        let Some(one) = self.of_node(node) else {
            return &[];
        };
        match one {
            Occurrences::Segments { .. } => &[],
            Occurrences::OneGroup(found) => slice::from_ref(found),
            Occurrences::Groups(found) => found,
        }
    }
}
