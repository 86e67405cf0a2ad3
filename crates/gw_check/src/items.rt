//! The items of a level: how often they come, and for which target node.
ghost use Rattle.std.specs.Prelude.{◌≡◌, IfOk};
ghost use Rattle.gw_check.specs.own.ItemByItem.{CountsChosen, CountsOne, CountsAll, Leads};
ghost use Rattle.gw_resolve.specs.Seen.{scope as walked};
ghost use Rattle.gw_check.specs.Levels.{is_of};

use crate::level::{count_at, count_if};
use gw_resolve::{FieldCondition, Interval, Item, ScopeNode, child_of, enter, never};
use std::alloc::{AllocError, Global};

// How often of these come that meet a condition, where there is one.
fn chosen(condition: &Option<FieldCondition>, count: Interval) -> Interval
    ensures { CountsChosen condition.now count result }
{
    match condition {
        None => count,
        Some(_) => count.or_none(),
    }
}

// How often one item comes.
#[cycle(count)]
fn item_count(
    alloc: Global,
    scope: &[ScopeNode<'_, '_>],
    item: &Item,
) -> Result<Interval, AllocError>
    ensures { IfOk result (λ c. CountsOne (walked scope.now) item.now c) }
{
    match item {
        Item::Segment(segment) => Ok(chosen(&segment.condition, count_if(scope, &segment.place))),
        Item::Group(group) => Ok(chosen(&group.condition, count_at(scope, &group.place))),
        Item::Flat(flat) => {
            let inner = enter(alloc, scope, &flat.place)?;
            let each = items_count(alloc, &inner, &flat.items)?;
            Ok(chosen(&flat.condition, count_at(scope, &flat.place)).times(each))
        }
    }
}

/// How often the items come together.
#[cycle(count)]
pub(crate) fn items_count(
    alloc: Global,
    scope: &[ScopeNode<'_, '_>],
    items: &[Item],
) -> Result<Interval, AllocError>
    ensures { IfOk result (λ c. CountsAll (walked scope.now) items.now c) }
{
    let mut total = never();
    let mut left = items.len();
    while left > 0 {
        left -= 1;
        let one = item_count(alloc, scope, &items[left])?;
        total = one.plus(total);
    }
    Ok(total)
}

fn is_of(node: usize, child: Option<usize>) -> bool
    ensures { result ≡ is_of node child }
{
    match child {
        None => false,
        Some(child) => child == node,
    }
}

/// How many of the items, in the order of the nodes, are of this node.
#[tactic(auto, using(crate::proofs::Counted::leads_start, crate::proofs::Counted::leads_here, crate::proofs::Counted::leads_more, crate::proofs::Counted::leads_to_end))]
pub(crate) fn leading(items: &[Item], node: usize) -> usize
    ensures { Leads node items.now result }
{
    for (i, item) in items.iter().enumerate() {
        if !is_of(node, child_of(item)) {
            return i;
        }
    }
    items.len()
}
