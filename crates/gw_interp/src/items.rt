//! What the items of a map make, in their order.
ghost use Rattle.std.specs.Prelude.{◌≡◌, [], ◌∷◌, unwrap_or, OnOk};
ghost use Rattle.gw_er7.specs.Building.{IsBegun};
ghost use Rattle.gw_profile.specs.Shapes.{nothing};
ghost use Rattle.gw_profile.specs.Seen.{forest, node_forest};
ghost use Rattle.gw_resolve.specs.Places.{child, name_of};
ghost use Rattle.gw_resolve.specs.Resolved.{no_items};
ghost use Rattle.gw_resolve.specs.Seen.{some_condition, with_item, all_items};
ghost use Rattle.gw_interp.specs.Occurrences.{below};
ghost use Rattle.gw_interp.specs.own.Borrowed.{occurrence, scope as walked_in, AreOf};
ghost use Rattle.gw_interp.specs.own.Filling.{message_of};
ghost use Rattle.gw_interp.specs.own.Ready.{MayBegin, Adds};
ghost use Rattle.gw_interp.specs.own.Parts.{items_names, MayItems, ItemsGive, found_at, node_name, segments_names};
ghost use Rattle.gw_interp.specs.own.Parts.{MaySegment, GivesSegment, MaySegmentsOf, SegmentsOf, condition_of, chosen_names, MayChosen, ChosenGives};
ghost use Rattle.gw_interp.specs.own.Parts.{names_within, MayWithin, GivesWithin, each_names, MayEach, EachGives};

use crate::places::walked_at;
use crate::reading::is_met;
use crate::segments::put_segment;
use gw_er7::Builder;
use gw_maplang::Map;
use gw_profile::Node;
use gw_resolve::{FieldCondition, Item, ScopePath, SegmentItem, nodes_within};
use gw_validate::Occ;
use std::alloc::AllocError;

/// What is made within each occurrence at a place that meets the condition, if there is one. The nodes are those of the target's level.
#[derive(Drop)]
pub(crate) enum Part<'a> {
    /// The segment of an item.
    OneSegment(&'a [Node], &'a SegmentItem),
    /// What several items make.
    Level(&'a [Node], &'a [Item], &'a Option<FieldCondition>),
}

fn condition_of<'p>(part: &'p Part<'_>) -> &'p Option<FieldCondition>
    ensures { some_condition result.now ≡ condition_of part.now }
{
    match part {
        Part::OneSegment(_, item) => &item.condition,
        Part::Level(_, _, condition) => condition,
    }
}

// The name of a node, if it is a segment.
fn name_of_node(node: &Node) -> Option<[u8; 3]>
    ensures { unwrap_or result [] ≡ name_of (child (node_forest node.now nothing) 0) }
{
    match node {
        Node::Seg(segment) => Some(segment.name),
        Node::Group(_) => None,
    }
}

// The name of the node of this number, if it is a segment.
fn name_at(nodes: &[Node], number: usize) -> Option<[u8; 3]>
    ensures { unwrap_or result [] ≡ name_of (child (forest nodes.now) number) }
{
    match nodes.get(number) {
        None => None,
        Some(node) => name_of_node(node),
    }
}

// Makes the segment of an item.
fn put_one<'a>(
    rows: &'a Map,
    scope: &[Occ<'a>],
    builder: &mut Builder,
    nodes: &[Node],
    item: &'a SegmentItem,
) -> Result<(), AllocError>
    requires of { AreOf (message_of scope.now) scope.now }
    requires lawful { IsBegun builder.old }
    requires begin { MayBegin builder.old (node_name nodes.now item.now ∷ []) }
    requires may { MaySegment rows.now.tables nodes.now item.now scope.now }
    ensures adds { OnOk result (Adds (GivesSegment rows.now.tables nodes.now item.now scope.now) builder.old builder.new) }
    ensures lawful { OnOk result (IsBegun builder.new) }
{
    let Some(name) = name_at(nodes, item.child) else {
        return Ok(());
    };
    put_segment(rows, scope, builder, name, &item.rules)
}

// Makes a part within the occurrences of `scope`, where its condition holds.
#[cycle(items)]
fn put_part<'a>(
    rows: &'a Map,
    scope: &mut Vec<Occ<'a>>,
    builder: &mut Builder,
    part: &Part<'a>,
) -> Result<(), AllocError>
    requires of { AreOf (message_of scope.old.items) scope.old.items }
    requires lawful { IsBegun builder.old }
    requires begin { MayBegin builder.old (chosen_names rows.now.tables part.now (message_of scope.old.items) (walked_in scope.old.items)) }
    requires may { MayChosen rows.now.tables part.now (message_of scope.old.items) (walked_in scope.old.items) }
    ensures kept { scope.new.items ≡ scope.old.items }
    ensures adds { OnOk result (Adds (ChosenGives rows.now.tables part.now (message_of scope.old.items) (walked_in scope.old.items)) builder.old builder.new) }
    ensures lawful { OnOk result (IsBegun builder.new) }
{
    if !is_met(scope, condition_of(part)) {
        return Ok(());
    }
    match part {
        Part::OneSegment(nodes, item) => put_one(rows, scope, builder, nodes, item),
        Part::Level(nodes, items, _) => put_items(rows, scope, builder, nodes, items),
    }
}

// Makes a part within one more occurrence, which is in scope only meanwhile.
#[cycle(items)]
fn enter<'a>(
    rows: &'a Map,
    scope: &mut Vec<Occ<'a>>,
    builder: &mut Builder,
    part: &Part<'a>,
    each: &Occ<'a>,
) -> Result<(), AllocError>
    requires of { AreOf (message_of scope.old.items) scope.old.items }
    requires each { each.now.message ≡ message_of scope.old.items }
    requires lawful { IsBegun builder.old }
    requires begin { MayBegin builder.old (names_within rows.now.tables part.now scope.old.items (occurrence each.now)) }
    requires may { MayWithin rows.now.tables part.now scope.old.items (occurrence each.now) }
    ensures kept { scope.new.items ≡ scope.old.items }
    ensures adds { OnOk result (Adds (GivesWithin rows.now.tables part.now scope.old.items (occurrence each.now)) builder.old builder.new) }
    ensures lawful { OnOk result (IsBegun builder.new) }
{
    let depth = scope.len();
    scope.push(each.reborrow())?;
    let put = put_part(rows, scope, builder, part);
    scope.truncate(depth);
    put
}

// Makes a part within each occurrence to which the steps lead from this one.
#[cycle(items)]
fn put_below<'a>(
    rows: &'a Map,
    scope: &mut Vec<Occ<'a>>,
    builder: &mut Builder,
    part: &Part<'a>,
    from: &Occ<'a>,
    steps: &[usize],
) -> Result<(), AllocError>
    requires of { AreOf (message_of scope.old.items) scope.old.items }
    requires from { from.now.message ≡ message_of scope.old.items }
    requires lawful { IsBegun builder.old }
    requires begin { MayBegin builder.old (each_names rows.now.tables part.now scope.old.items (below steps.now (occurrence from.now))) }
    requires may { MayEach rows.now.tables part.now scope.old.items (below steps.now (occurrence from.now)) }
    ensures kept { scope.new.items ≡ scope.old.items }
    ensures adds { OnOk result (Adds (EachGives rows.now.tables part.now scope.old.items (below steps.now (occurrence from.now))) builder.old builder.new) }
    ensures lawful { OnOk result (IsBegun builder.new) }
{
    match steps {
        [] => enter(rows, scope, builder, part, from),
        [child, later @ ..] => {
            if *child >= from.children() {
                return Ok(());
            }
            for k in 0..from.count(*child) {
                let each = from.child(*child, k);
                put_below(rows, scope, builder, part, &each, later)?;
            }
            Ok(())
        }
    }
}

// Makes a part within each occurrence at a place, in the order of the message.
#[cycle(items)]
fn put_each<'a>(
    rows: &'a Map,
    scope: &mut Vec<Occ<'a>>,
    builder: &mut Builder,
    part: &Part<'a>,
    place: &ScopePath,
) -> Result<(), AllocError>
    requires of { AreOf (message_of scope.old.items) scope.old.items }
    requires lawful { IsBegun builder.old }
    requires begin { MayBegin builder.old (each_names rows.now.tables part.now scope.old.items (found_at scope.old.items place.now)) }
    requires may { MayEach rows.now.tables part.now scope.old.items (found_at scope.old.items place.now) }
    ensures kept { scope.new.items ≡ scope.old.items }
    ensures adds { OnOk result (Adds (EachGives rows.now.tables part.now scope.old.items (found_at scope.old.items place.now)) builder.old builder.new) }
    ensures lawful { OnOk result (IsBegun builder.new) }
{
    match walked_at(scope, place.out) {
        None => Ok(()),
        Some(from) => put_below(rows, scope, builder, part, &from, &place.steps),
    }
}

// Makes the segments of an item.
#[cycle(items)]
fn put_segments<'a>(
    rows: &'a Map,
    scope: &mut Vec<Occ<'a>>,
    builder: &mut Builder,
    nodes: &'a [Node],
    item: &'a SegmentItem,
) -> Result<(), AllocError>
    requires of { AreOf (message_of scope.old.items) scope.old.items }
    requires lawful { IsBegun builder.old }
    requires begin { MayBegin builder.old (segments_names nodes.now item.now scope.old.items) }
    requires may { MaySegmentsOf rows.now.tables nodes.now item.now scope.old.items }
    ensures kept { scope.new.items ≡ scope.old.items }
    ensures adds { OnOk result (Adds (SegmentsOf rows.now.tables nodes.now item.now scope.old.items) builder.old builder.new) }
    ensures lawful { OnOk result (IsBegun builder.new) }
{
    match &item.place {
        None => put_one(rows, scope, builder, nodes, item),
        Some(place) => {
            let part = Part::OneSegment(nodes, item);
            put_each(rows, scope, builder, &part, place)
        }
    }
}

// Makes what one item makes.
#[cycle(items)]
fn put_item<'a>(
    rows: &'a Map,
    scope: &mut Vec<Occ<'a>>,
    builder: &mut Builder,
    nodes: &'a [Node],
    item: &'a Item,
) -> Result<(), AllocError>
    requires of { AreOf (message_of scope.old.items) scope.old.items }
    requires lawful { IsBegun builder.old }
    requires begin { MayBegin builder.old (items_names nodes.now (with_item rows.now.tables item.now no_items) scope.old.items) }
    requires may { MayItems nodes.now (with_item rows.now.tables item.now no_items) scope.old.items }
    ensures kept { scope.new.items ≡ scope.old.items }
    ensures adds { OnOk result (Adds (ItemsGive nodes.now (with_item rows.now.tables item.now no_items) scope.old.items) builder.old builder.new) }
    ensures lawful { OnOk result (IsBegun builder.new) }
{
    match item {
        Item::Segment(item) => put_segments(rows, scope, builder, nodes, item),
        Item::Group(group) => {
            let part = Part::Level(
                nodes_within(nodes, group.child),
                &group.items,
                &group.condition,
            );
            put_each(rows, scope, builder, &part, &group.place)
        }
        Item::Flat(flat) => {
            let part = Part::Level(nodes, &flat.items, &flat.condition);
            put_each(rows, scope, builder, &part, &flat.place)
        }
    }
}

/// Appends what the items of a level make to the builder.
#[cycle(items)]
pub(crate) fn put_items<'a>(
    rows: &'a Map,
    scope: &mut Vec<Occ<'a>>,
    builder: &mut Builder,
    nodes: &'a [Node],
    items: &'a [Item],
) -> Result<(), AllocError>
    requires of { AreOf (message_of scope.old.items) scope.old.items }
    requires lawful { IsBegun builder.old }
    requires begin { MayBegin builder.old (items_names nodes.now (all_items rows.now.tables items.now) scope.old.items) }
    requires may { MayItems nodes.now (all_items rows.now.tables items.now) scope.old.items }
    ensures kept { scope.new.items ≡ scope.old.items }
    ensures adds { OnOk result (Adds (ItemsGive nodes.now (all_items rows.now.tables items.now) scope.old.items) builder.old builder.new) }
    ensures lawful { OnOk result (IsBegun builder.new) }
{
    for item in items {
        put_item(rows, scope, builder, nodes, item)?;
    }
    Ok(())
}
