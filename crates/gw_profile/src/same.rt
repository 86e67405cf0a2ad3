//! Whether two profiles are equal.
ghost use Rattle.std.specs.Prelude.{◌≡◌, ◌↔◌, IsTrue, map, slice_get};
ghost use Rattle.std.specs.Option.{option_map};
ghost use Rattle.gw_profile.specs.Seen.{segment_value, table, forest};
ghost use Rattle.gw_profile.specs.own.Same.{SameNode, group_of, lent_table};
ghost use Rattle.gw_profile.specs.declared.node.Node.{Seg, Group};

use crate::node::{GroupNode, Node, SegNode};
use crate::shape::{Card, CompShape, Count, FieldShape, SubShape, Usage};
use crate::table::Table;
use gw_er7::same::{Part, are_same, same_bytes};
use indexmap::IndexMap;

fn same_usage(one: Usage, other: Usage) -> bool
    ensures { IsTrue result ↔ (one ≡ other) }
{
    one == other
}

/// Whether the counts are equal.
pub(crate) fn same_count(one: Count, other: Count) -> bool
    ensures { IsTrue result ↔ (one ≡ other) }
{
    one == other
}

fn same_card(one: Card, other: Card) -> bool
    ensures { IsTrue result ↔ (one ≡ other) }
{
    one == other
}

impl Part for SubShape {
    ghost use Rattle.std.specs.Prelude.{◌≡◌};
    ghost use Rattle.gw_profile.specs.Seen.{sub};

    ghost same = { λ one other. sub one ≡ sub other };

    fn is(&self, other: &SubShape) -> bool {
        *self == *other
    }
}

impl Part for CompShape {
    ghost use Rattle.std.specs.Prelude.{◌≡◌};
    ghost use Rattle.gw_profile.specs.Seen.{comp};

    ghost same = { λ one other. comp one ≡ comp other };

    fn is(&self, other: &CompShape) -> bool {
        if self.number != other.number {
            return false;
        }
        if !same_usage(self.usage, other.usage) {
            return false;
        }
        are_same(&self.subs, &other.subs)
    }
}

impl Part for FieldShape {
    ghost use Rattle.std.specs.Prelude.{◌≡◌};
    ghost use Rattle.gw_profile.specs.Seen.{field};

    ghost same = { λ one other. field one ≡ field other };

    fn is(&self, other: &FieldShape) -> bool {
        if self.number != other.number {
            return false;
        }
        if !same_usage(self.usage, other.usage) {
            return false;
        }
        if !same_card(self.card, other.card) {
            return false;
        }
        are_same(&self.comps, &other.comps)
    }
}

fn same_segment(one: &SegNode, other: &SegNode) -> bool
    ensures { IsTrue result ↔ (segment_value one.now ≡ segment_value other.now) }
{
    if !same_bytes(&one.name, &other.name) {
        return false;
    }
    if !same_bytes(&one.label, &other.label) {
        return false;
    }
    if !same_usage(one.usage, other.usage) {
        return false;
    }
    if !same_card(one.card, other.card) {
        return false;
    }
    are_same(&one.fields, &other.fields)
}

fn is_segment(one: &SegNode, node: &Node) -> bool
    ensures { IsTrue result ↔ SameNode (Seg one.now) node.now }
{
    match node {
        Node::Seg(other) => same_segment(one, other),
        Node::Group(_) => false,
    }
}

// Whether label, usage and cardinality are equal.
fn same_head(one: &GroupNode, other: &GroupNode) -> bool
    ensures { IsTrue result ↔ (group_of one.now ≡ group_of other.now) }
{
    if !same_bytes(&one.label, &other.label) {
        return false;
    }
    if !same_usage(one.usage, other.usage) {
        return false;
    }
    same_card(one.card, other.card)
}

#[cycle(same)]
fn is_group(one: &GroupNode, node: &Node) -> bool
    ensures { IsTrue result ↔ SameNode (Group one.now) node.now }
{
    match node {
        Node::Seg(_) => false,
        Node::Group(other) => {
            if !same_head(one, other) {
                return false;
            }
            same_nodes(&one.nodes, &other.nodes)
        }
    }
}

#[cycle(same)]
fn same_node(one: &Node, other: &Node) -> bool
    ensures { IsTrue result ↔ SameNode one.now other.now }
{
    match one {
        Node::Seg(one) => is_segment(one, other),
        Node::Group(one) => is_group(one, other),
    }
}

/// Whether the nodes are equal.
#[cycle(same)]
pub(crate) fn same_nodes(nodes: &[Node], others: &[Node]) -> bool
    ensures { IsTrue result ↔ (forest nodes.now ≡ forest others.now) }
{
    if nodes.len() != others.len() {
        return false;
    }
    for (i, node) in nodes.iter().enumerate() {
        if !same_node(node, &others[i]) {
            return false;
        }
    }
    true
}

// The table of this number: its name and its values.
fn table_at(tables: &IndexMap<Vec<u8>, Table>, i: usize) -> Option<(&[u8], &[Vec<u8>])>
    ensures { option_map lent_table result ≡ slice_get (map table tables.now.entries) i }
{
    let (name, held) = tables.get_index(i)?;
    Some((name.as_slice(), held.values()))
}

// Whether the tables are equal.
fn same_table(one: (&[u8], &[Vec<u8>]), other: (&[u8], &[Vec<u8>])) -> bool
    ensures { IsTrue result ↔ (lent_table one.entry ≡ lent_table other.entry) }
{
    if !same_bytes(one.0, other.0) {
        return false;
    }
    are_same(one.1, other.1)
}

// Whether the tables are equal, or both absent.
fn same_some(one: Option<(&[u8], &[Vec<u8>])>, other: Option<(&[u8], &[Vec<u8>])>) -> bool
    ensures { IsTrue result ↔ (option_map lent_table one.entry ≡ option_map lent_table other.entry) }
{
    match one {
        None => other.is_none(),
        Some(one) => match other {
            None => false,
            Some(other) => same_table(one, other),
        },
    }
}

/// Whether these are equal tables in the same order.
pub(crate) fn same_tables(
    tables: &IndexMap<Vec<u8>, Table>,
    others: &IndexMap<Vec<u8>, Table>,
) -> bool
    ensures { IsTrue result ↔ (map table tables.now.entries ≡ map table others.now.entries) }
{
    if tables.len() != others.len() {
        return false;
    }
    for i in 0..tables.len() {
        if !same_some(table_at(tables, i), table_at(others, i)) {
            return false;
        }
    }
    true
}
