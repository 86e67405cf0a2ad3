//! The rule on conditions and alternatives, within the items of a map.
ghost use Rattle.std.specs.Prelude.{OnOk};
ghost use Rattle.gw_check.specs.Found.{NotesReached, NotesReachedAll};
ghost use Rattle.gw_check.specs.own.Seen as seen;
ghost use Rattle.gw_resolve.specs.Seen.{Notes, scope as walked, some_condition};

use gw_leaves::{MapContext, Sources, check_condition, check_reached, enter_if};
use gw_resolve::{Failure, FieldCondition, Item, ScopeNode, at_line, enter};
use std::alloc::{AllocError, Global};

// The failure of the condition of an item at this line, in what it walks.
fn check_asked(
    found: &mut Vec<Failure>,
    sources: Sources<'_, '_, '_, '_, '_>,
    line: u32,
    condition: &Option<FieldCondition>,
) -> Result<(), AllocError>
    ensures { OnOk result (Notes found.old found.new (seen.asked_failures sources.entry line (some_condition condition.now))) }
{
    let Some(asked) = condition else {
        return Ok(());
    };
    check_condition(found, sources, at_line(line), &asked.from, &asked.condition)
}

#[cycle(reach)]
fn reach_item(
    alloc: Global,
    found: &mut Vec<Failure>,
    context: &MapContext<'_>,
    scope: &[ScopeNode<'_, '_>],
    item: &Item,
) -> Result<(), AllocError>
    ensures { OnOk result (NotesReached context.now (walked scope.now) item.now found.old found.new) }
{
    match item {
        Item::Segment(segment) => {
            let inner = enter_if(alloc, scope, &segment.place)?;
            let sources = Sources {
                alloc,
                context,
                scope: &inner,
                current: None,
            };
            check_asked(found, sources, segment.line, &segment.condition)?;
            check_reached(found, sources, &segment.rules)
        }
        Item::Group(group) => {
            let inner = enter(alloc, scope, &group.place)?;
            let sources = Sources {
                alloc,
                context,
                scope: &inner,
                current: None,
            };
            check_asked(found, sources, group.line, &group.condition)?;
            reach_items(alloc, found, context, &inner, &group.items)
        }
        Item::Flat(flat) => {
            let inner = enter(alloc, scope, &flat.place)?;
            let sources = Sources {
                alloc,
                context,
                scope: &inner,
                current: None,
            };
            check_asked(found, sources, flat.line, &flat.condition)?;
            reach_items(alloc, found, context, &inner, &flat.items)
        }
    }
}

/// The failures of the conditions and alternatives of items, where this is walked.
#[cycle(reach)]
#[tactic(auto, using(crate::proofs::Reaching::items_more))]
pub(crate) fn reach_items(
    alloc: Global,
    found: &mut Vec<Failure>,
    context: &MapContext<'_>,
    scope: &[ScopeNode<'_, '_>],
    items: &[Item],
) -> Result<(), AllocError>
    ensures { OnOk result (NotesReachedAll context.now (walked scope.now) items.now found.old found.new) }
{
    for item in items {
        reach_item(alloc, found, context, scope, item)?;
    }
    Ok(())
}
