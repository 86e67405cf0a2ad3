//! The rules within the items of a map.
ghost use Rattle.std.specs.Prelude.{OnOk};
ghost use Rattle.gw_profile.specs.Seen.{forest};
ghost use Rattle.gw_check.specs.Found.{NotesItem, NotesItems};
ghost use Rattle.gw_resolve.specs.Seen.{scope as walked};

use crate::field::check_segment;
use crate::level::check_level;
use gw_leaves::{MapContext, Sources, enter_if};
use gw_profile::Node;
use gw_resolve::{Failure, Item, ScopeNode, enter, fields_at, nodes_within};
use std::alloc::{AllocError, Global};

// The failures of the rules on what one item gives.
#[cycle(inside)]
fn check_item(
    alloc: Global,
    found: &mut Vec<Failure>,
    context: &MapContext<'_>,
    scope: &[ScopeNode<'_, '_>],
    nodes: &[Node],
    item: &Item,
) -> Result<(), AllocError>
    ensures { OnOk result (NotesItem context.now (walked scope.now) (forest nodes.now) item.now found.old found.new) }
{
    match item {
        Item::Segment(segment) => {
            let inner = enter_if(alloc, scope, &segment.place)?;
            let sources = Sources {
                alloc,
                context,
                scope: &inner,
                current: None,
            };
            let fields = fields_at(nodes, segment.child);
            check_segment(found, sources, segment.line, &segment.rules, fields)
        }
        Item::Group(group) => {
            let inner = enter(alloc, scope, &group.place)?;
            let below = nodes_within(nodes, group.child);
            check_level(alloc, found, &inner, group.line, below, &group.items)?;
            check_items(alloc, found, context, &inner, &group.items, below)
        }
        Item::Flat(flat) => {
            let inner = enter(alloc, scope, &flat.place)?;
            check_items(alloc, found, context, &inner, &flat.items, nodes)
        }
    }
}

/// The failures of the rules on what the items give, where the target's nodes of their level are these.
#[cycle(inside)]
#[tactic(auto, using(crate::proofs::Within::items_more))]
pub(crate) fn check_items(
    alloc: Global,
    found: &mut Vec<Failure>,
    context: &MapContext<'_>,
    scope: &[ScopeNode<'_, '_>],
    items: &[Item],
    nodes: &[Node],
) -> Result<(), AllocError>
    ensures { OnOk result (NotesItems context.now (walked scope.now) (forest nodes.now) items.now found.old found.new) }
{
    for item in items {
        check_item(alloc, found, context, scope, nodes, item)?;
    }
    Ok(())
}
