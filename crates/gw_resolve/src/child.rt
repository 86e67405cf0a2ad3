//! The target nodes of items.
ghost use Rattle.gw_resolve.specs.Seen.{ChildOf, FirstChild};

use crate::resolved::Item;

/// The target node of an item; all items of a flat have one. It takes no memory.
#[cycle(child)]
pub fn child_of(item: &Item) -> Option<usize>
    ensures { ChildOf item.now result }
{
    match item {
        Item::Segment(segment) => Some(segment.child),
        Item::Group(group) => Some(group.child),
        Item::Flat(flat) => first_child(&flat.items),
    }
}

/// The target node of the first item. It takes no memory.
#[cycle(child)]
pub fn first_child(items: &[Item]) -> Option<usize>
    ensures { FirstChild items.now result }
{
    let [item, ..] = items else {
        return None;
    };
    child_of(item)
}
