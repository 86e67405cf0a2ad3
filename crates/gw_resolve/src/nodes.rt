//! What is within the nodes of a level: nodes and fields.
ghost use Rattle.std.specs.Prelude.{◌≡◌, map};
ghost use Rattle.gw_profile.specs.Seen.{forest, node_forest, field};
ghost use Rattle.gw_profile.specs.Shapes.{nothing};
ghost use Rattle.gw_resolve.specs.Places as places;

use gw_profile::{FieldShape, Node};

// The nodes within a node.
fn within_node(node: &Node) -> &[Node]
    ensures { forest result.now ≡ places.nodes_of_child (node_forest node.now nothing) 0 }
{
    match node {
        Node::Seg(_) => &[],
        Node::Group(group) => &group.nodes,
    }
}

/// The nodes within the node of this number. It takes no memory.
#[tactic(auto, using(crate::proofs::Children::child_past, crate::proofs::Children::child_at))]
pub fn nodes_within(nodes: &[Node], number: usize) -> &[Node]
    ensures { forest result.now ≡ places.nodes_of_child (forest nodes.now) number }
{
    match nodes.get(number) {
        None => &[],
        Some(node) => within_node(node),
    }
}

fn fields_of(node: &Node) -> &[FieldShape]
    ensures { map field result.now ≡ places.fields_of (places.child (node_forest node.now nothing) 0) }
{
    match node {
        Node::Seg(segment) => &segment.fields,
        Node::Group(_) => &[],
    }
}

/// The fields of the target node of this number; none where it is a group, or there is no such node. It takes no memory.
#[tactic(auto, using(crate::proofs::Children::child_past, crate::proofs::Children::child_at))]
pub fn fields_at(nodes: &[Node], number: usize) -> &[FieldShape]
    ensures { map field result.now ≡ places.fields_of (places.child (forest nodes.now) number) }
{
    match nodes.get(number) {
        None => &[],
        Some(node) => fields_of(node),
    }
}
