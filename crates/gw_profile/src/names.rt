//! The names of a profile's segments.
ghost use Rattle.std.specs.Prelude.{OnOk, IfOk};
ghost use Rattle.gw_profile.specs.Names.{Adds, Holds};
ghost use Rattle.gw_profile.specs.Seen.{forest, node_forest};
ghost use Rattle.gw_profile.specs.Shapes.{nothing};

use crate::node::Node;
use indexmap::IndexSet;
use std::alloc::{AllocError, Global};

// Adds the names of the segments at and below a node.
#[cycle(add)]
fn add_node(names: &mut IndexSet<[u8; 3]>, node: &Node) -> Result<(), AllocError>
    ensures { OnOk result (Adds names.old names.new (node_forest node.now nothing)) }
{
    match node {
        Node::Seg(segment) => {
            names.insert(segment.name)?;
            Ok(())
        }
        Node::Group(group) => {
            add_names(names, &group.nodes)?;
            Ok(())
        }
    }
}

#[cycle(add)]
fn add_names(names: &mut IndexSet<[u8; 3]>, nodes: &[Node]) -> Result<(), AllocError>
    ensures { OnOk result (Adds names.old names.new (forest nodes.now)) }
{
    for node in nodes {
        add_node(names, node)?;
    }
    Ok(())
}

/// The names of the segments at and below these nodes.
pub(crate) fn names_of(alloc: Global, nodes: &[Node]) -> Result<IndexSet<[u8; 3]>, AllocError>
    ensures { IfOk result (λ names. Holds names (forest nodes.now)) }
{
    let mut names = IndexSet::new(alloc);
    add_names(&mut names, nodes)?;
    Ok(names)
}
