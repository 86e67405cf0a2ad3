//! The nodes of a profile, looked up by their labels.
ghost use Rattle.std.specs.Prelude.{◌≡◌, [], IfOk, OnOk, map};
ghost use Rattle.gw_profile.specs.Labels.{Numbers, PutsNumber, IsLabel, inner};
ghost use Rattle.gw_profile.specs.Seen.{forest};

use crate::node::Node;
use crate::profile::Profile;
use indexmap::IndexMap;
use std::alloc::{AllocError, Global};
use std::marker::Model;

/// The nodes of one level of a profile, with the level within each. A label is looked up by its hash.
#[derive(Drop)]
pub struct Level<'p> {
    nodes: &'p [Node],
    numbers: IndexMap<&'p [u8], usize>,
    below: Vec<Level<'p>>,
}

impl<'p> Model for Level<'p> {
    ghost use Rattle.std.specs.Prelude.{List};
    ghost use Rattle.std.specs.Coded.{coded_list};
    ghost use Rattle.std.proofs.Common.{arith};
    ghost use Rattle.gw_profile.specs.declared.node.Node.{Node};
    ghost use Rattle.gw_profile.specs.contracts.node.Node as node;
    ghost use Rattle.gw_profile.specs.Seen.{forest};
    ghost use Rattle.gw_profile.specs.Labels.{IsIndexed};
    ghost use Rattle.gw_profile.specs.Heights.{height, below_height};

    ghost Value = { List Node };

    ghost coded = { coded_list node.the_row.coded };

    ghost view = { λ l. l.nodes.now };

    ghost invariant = { λ l. IsIndexed l.nodes.now l.numbers.entries l.below.items };

    ghost size = { λ nodes. height (forest nodes) };

    ghost size_decreases = { λ l h. omega (arith, below_height l.nodes.now l.below.items h.are_below) };
}

// The node's label.
fn label_of(node: &Node) -> &[u8]
    ensures { IsLabel result.now node.now }
{
    match node {
        Node::Seg(segment) => &segment.label,
        Node::Group(group) => &group.label,
    }
}

// Sets the number for a label, and replaces an earlier one.
fn put_number<'p>(
    numbers: &mut IndexMap<&'p [u8], usize>,
    label: &'p [u8],
    number: usize,
) -> Result<(), AllocError>
    ensures { OnOk result (PutsNumber label.now number numbers.old.entries numbers.new.entries) }
{
    numbers.insert(label, number)?;
    Ok(())
}

// The numbers of the nodes by their labels. It goes from the last node to the first, so the first of a label is kept.
fn numbers_of<'p>(alloc: Global, nodes: &'p [Node]) -> Result<IndexMap<&'p [u8], usize>, AllocError>
    ensures { IfOk result (λ numbers. Numbers numbers.entries nodes.now) }
{
    let mut numbers = IndexMap::new(alloc);
    let mut left = nodes.len();
    while left > 0 {
        left -= 1;
        put_number(&mut numbers, label_of(&nodes[left]), left)?;
    }
    Ok(numbers)
}

fn nothing_within<'p>(alloc: Global) -> Level<'p>
    ensures { result ≡ [] }
{
    Level {
        nodes: &[],
        numbers: IndexMap::new(alloc),
        below: Vec::new(alloc),
    }
}

// The level within a node.
#[cycle(index)]
fn within<'p>(alloc: Global, node: &'p Node) -> Result<Level<'p>, AllocError>
    ensures { IfOk result (λ made. forest made ≡ inner node.now) }
{
    match node {
        Node::Seg(_) => Ok(nothing_within(alloc)),
        Node::Group(group) => index(alloc, &group.nodes),
    }
}

// The level within each node.
#[cycle(index)]
fn each_within<'p>(alloc: Global, nodes: &'p [Node]) -> Result<Vec<Level<'p>>, AllocError>
    ensures { IfOk result (λ below. map forest below.items ≡ map inner nodes.now) }
{
    let mut below = Vec::new(alloc);
    for node in nodes {
        let one = within(alloc, node)?;
        below.push(one)?;
    }
    Ok(below)
}

// The level of these nodes.
#[cycle(index)]
fn index<'p>(alloc: Global, nodes: &'p [Node]) -> Result<Level<'p>, AllocError>
    ensures { IfOk result (λ made. made ≡ nodes.now) }
{
    let numbers = numbers_of(alloc, nodes)?;
    let below = each_within(alloc, nodes)?;
    Ok(Level {
        nodes,
        numbers,
        below,
    })
}

impl<'p> Level<'p> {
    ghost use Rattle.std.specs.Prelude.{◌≡◌, IfOk};
    ghost use Rattle.gw_profile.specs.Seen.{forest};
    ghost use Rattle.gw_profile.specs.Labels as spec;

    /// The top level of a profile, with all levels within it. It takes time linear in the number of nodes. The one error is allocation failure.
    pub fn of(alloc: Global, profile: &'p Profile) -> Result<Level<'p>, AllocError>
        ensures { IfOk result (λ made. made ≡ profile.now.nodes) }
    {
        index(alloc, profile.nodes())
    }

    /// The nodes, in order. It takes no memory.
    pub fn nodes(&self) -> &'p [Node]
        ensures { result.now ≡ self.now }
    {
        self.nodes
    }

    /// The number, from 0, of the node with this label. It takes no memory.
    pub fn number_of(&self, label: &[u8]) -> Option<usize>
        ensures { result ≡ spec.labelled (forest self.now) label.now }
    {
        self.numbers.get(label).copied()
    }

    /// The level within the node of this number; `None` where there is no such node. It takes no memory.
    pub fn within(&self, number: usize) -> Option<&Level<'p>>
        ensures { spec.nodes_in result ≡ spec.within (forest self.now) number }
    {
        if number >= self.below.len() {
            return None;
        }
        Some(&self.below[number])
    }
}
