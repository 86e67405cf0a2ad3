//! The least message of a profile: each element as often as it has to come, and each text `""`.
ghost use Rattle.std.specs.Prelude.{◌≡◌, ◌++◌, ◌∷◌, [], ◌≤◌, ◌↔◌, length, map, min, OnOk, IfOk, IsTrue};
ghost use Rattle.std.specs.FinMap as texts;
ghost use Rattle.std.specs.List.{flat_map, sum_by};
ghost use Rattle.gw_er7.specs.Building.{IsBegun};
ghost use Rattle.gw_er7.specs.Message.{first_field, numbers};
ghost use Rattle.gw_profile.specs.Seen.{sub as seen_sub, comp as seen_comp, field as seen_field, segment_value, node_forest, forest, profile_value};
ghost use Rattle.gw_profile.specs.Shapes as shapes;
ghost use Rattle.gw_profile.specs.Shapes.{nothing};
ghost use Rattle.gw_profile.specs.WellFormed.{Headed};
ghost use Rattle.gw_validate.specs.Breaches as breaches;
ghost use Rattle.gw_sample.specs.FewestTexts.{of_field};
ghost use Rattle.gw_sample.specs.own.Least.{keys, AreListed, sub_keys, comp_keys, rep_keys, field_keys, keys_of, with_nulls, one_of, several_of, least, HasOneBehind, ArePlaces, MayFollow, MayHead, Adds, Fits};

use crate::leaf::NULL;
use gw_er7::{Builder, Message, Place};
use gw_profile::{CompShape, FieldShape, Node, Profile, SegNode, SubShape, Usage};
use std::alloc::{AllocError, Global};

/// How many segments a message has at most (`gw_er7`).
const MOST: u64 = 10_000;

/// A component, and a subcomponent, that no profile lists: one behind the last that it may.
const UNLISTED: usize = 100;

/// Whether an element has to come.
pub(crate) fn is_required(usage: Usage) -> bool
    ensures { result ≡ breaches.is_required usage }
{
    match usage {
        Usage::R => true,
        Usage::RE | Usage::O | Usage::X => false,
    }
}

// Adds the place of a subcomponent that has to come, in the component at a place.
fn add_sub(places: &mut Vec<Place>, at: Place, sub: &SubShape) -> Result<(), AllocError>
    ensures { OnOk result (AreListed places.old.items places.new.items
        (sub_keys at.field at.rep at.comp (seen_sub sub.now))) }
{
    if !is_required(sub.usage) {
        return Ok(());
    }
    places.push(Place {
        field: at.field,
        rep: at.rep,
        comp: at.comp,
        sub: sub.number as usize,
    })?;
    Ok(())
}

// Adds the places of the subcomponents that have to come.
fn add_subs(places: &mut Vec<Place>, at: Place, subs: &[SubShape]) -> Result<(), AllocError>
    ensures { OnOk result (AreListed places.old.items places.new.items
        (flat_map (sub_keys at.field at.rep at.comp) (map seen_sub subs.now))) }
{
    for sub in subs {
        add_sub(places, at, sub)?;
    }
    Ok(())
}

// Adds a place where none was added behind the first ones.
fn add_if_none(places: &mut Vec<Place>, before: usize, at: Place) -> Result<(), AllocError>
    ensures { OnOk result (HasOneBehind before (numbers at) places.old.items places.new.items) }
{
    if places.len() > before {
        return Ok(());
    }
    places.push(at)?;
    Ok(())
}

// Adds the places of a component that has to come, in a repetition.
fn add_comp(
    places: &mut Vec<Place>,
    field: usize,
    rep: usize,
    comp: &CompShape,
) -> Result<(), AllocError>
    ensures { OnOk result (AreListed places.old.items places.new.items
        (comp_keys field rep (seen_comp comp.now))) }
{
    if !is_required(comp.usage) {
        return Ok(());
    }
    let at = Place {
        field,
        rep,
        comp: comp.number as usize,
        sub: UNLISTED,
    };
    let before = places.len();
    add_subs(places, at, &comp.subs)?;
    add_if_none(places, before, at)
}

// Adds the places of the components that have to come.
fn add_comps(
    places: &mut Vec<Place>,
    field: usize,
    rep: usize,
    comps: &[CompShape],
) -> Result<(), AllocError>
    ensures { OnOk result (AreListed places.old.items places.new.items
        (flat_map (comp_keys field rep) (map seen_comp comps.now))) }
{
    for comp in comps {
        add_comp(places, field, rep, comp)?;
    }
    Ok(())
}

// Adds the places of a repetition of a field.
fn add_rep(places: &mut Vec<Place>, field: &FieldShape, rep: usize) -> Result<(), AllocError>
    ensures { OnOk result (AreListed places.old.items places.new.items
        (rep_keys (seen_field field.now) rep)) }
{
    let at = Place {
        field: field.number as usize,
        rep,
        comp: UNLISTED,
        sub: 1,
    };
    let before = places.len();
    add_comps(places, at.field, rep, &field.comps)?;
    add_if_none(places, before, at)
}

// Adds the places of a field.
fn add_field(places: &mut Vec<Place>, field: &FieldShape) -> Result<(), AllocError>
    ensures { OnOk result (AreListed places.old.items places.new.items
        (field_keys (seen_field field.now))) }
{
    for rep in 0..field.card.min {
        add_rep(places, field, rep as usize + 1)?;
    }
    Ok(())
}

// The places of the texts that have to come in a segment with these fields.
fn places_of(alloc: Global, fields: &[FieldShape]) -> Result<Vec<Place>, AllocError>
    ensures keys { IfOk result (λ places. keys places.items ≡ keys_of (map seen_field fields.now)) }
    ensures count { IfOk result (λ places. length places.items ≡ sum_by of_field (map seen_field fields.now)) }
{
    let mut places = Vec::new(alloc);
    for field in fields {
        add_field(&mut places, field)?;
    }
    Ok(places)
}

// Adds a segment with `""` at each of these places.
fn add_segment(builder: &mut Builder, name: [u8; 3], places: &[Place]) -> Result<(), AllocError>
    requires begun { IsBegun (builder.old ++ record { name = name; at = texts.empty } ∷ []) }
    requires places { ArePlaces (first_field name) (keys places.now) }
    ensures { OnOk result (builder.new ≡ builder.old ++ with_nulls name (keys places.now) ∷ []) }
{
    builder.begin(name)?;
    for place in places {
        builder.put(*place, NULL)?;
    }
    Ok(())
}

// Adds a segment as often as it has to come.
fn add_segments(alloc: Global, builder: &mut Builder, segment: &SegNode) -> Result<(), AllocError>
    requires { MayFollow (shapes.segment (segment_value segment.now) nothing) builder.old }
    ensures { OnOk result (Adds (several_of segment.now.card.min (one_of (segment_value segment.now) ∷ []))
        builder.old builder.new) }
{
    if segment.card.min == 0 {
        return Ok(());
    }
    let places = places_of(alloc, &segment.fields)?;
    for _time in 0..segment.card.min {
        add_segment(builder, segment.name, &places)?;
    }
    Ok(())
}

// Adds a node, as often as it has to come.
#[cycle(add)]
fn add_node(alloc: Global, builder: &mut Builder, node: &Node) -> Result<(), AllocError>
    requires { MayFollow (node_forest node.now nothing) builder.old }
    ensures { OnOk result (Adds (least (node_forest node.now nothing)) builder.old builder.new) }
{
    match node {
        Node::Seg(segment) => add_segments(alloc, builder, segment),
        Node::Group(group) => {
            for _time in 0..group.card.min {
                add_nodes(alloc, builder, &group.nodes)?;
            }
            Ok(())
        }
    }
}

// Adds nodes.
#[cycle(add)]
fn add_nodes(alloc: Global, builder: &mut Builder, nodes: &[Node]) -> Result<(), AllocError>
    requires { MayFollow (forest nodes.now) builder.old }
    ensures { OnOk result (Adds (least (forest nodes.now)) builder.old builder.new) }
{
    for node in nodes {
        add_node(alloc, builder, node)?;
    }
    Ok(())
}

// How many segments a node has at least, or one more than a message has where they are more.
#[cycle(count)]
fn count_node(node: &Node) -> u64
    ensures { result ≡ min (length (least (node_forest node.now nothing))) 10001 }
{
    match node {
        Node::Seg(segment) => u64::from(segment.card.min).min(MOST + 1),
        Node::Group(group) => {
            let each = count_nodes(&group.nodes);
            (u64::from(group.card.min) * each).min(MOST + 1)
        }
    }
}

// The same of nodes.
#[cycle(count)]
fn count_nodes(nodes: &[Node]) -> u64
    ensures { result ≡ min (length (least (forest nodes.now))) 10001 }
{
    let mut count = 0;
    for node in nodes {
        count = (count + count_node(node)).min(MOST + 1);
    }
    count
}

/// Whether the least message of a profile isn't larger than a message.
pub(crate) fn has_room(profile: &Profile) -> bool
    ensures { IsTrue result ↔ (length (least (forest profile.now.nodes)) ≤ 10000) }
{
    count_nodes(profile.nodes()) <= MOST
}

// The header of a profile, and the nodes behind it.
fn headed(nodes: &[Node]) -> (&SegNode, &[Node])
    requires { Headed (forest nodes.now) }
    ensures { forest nodes.now ≡ shapes.segment (segment_value result.0.now) (forest result.1.now) }
{
    let [first, rest @ ..] = nodes else {
        unreachable!()
    };
    match first {
        Node::Seg(header) => (header, rest),
        Node::Group(_) => unreachable!(),
    }
}

// The message of a header and the nodes behind it.
fn message_of(alloc: Global, header: &SegNode, rest: &[Node]) -> Result<Message, AllocError>
    requires { MayHead (segment_value header.now) (forest rest.now) }
    ensures { IfOk result (Adds (least (shapes.segment (segment_value header.now) (forest rest.now)))
        []) }
{
    let mut builder = Builder::new(alloc);
    let places = places_of(alloc, &header.fields)?;
    add_segment(&mut builder, header.name, &places)?;
    add_nodes(alloc, &mut builder, rest)?;
    Ok(builder.finish())
}

/// The least message of a profile, which isn't larger than a message.
pub(crate) fn least_message(alloc: Global, profile: &Profile) -> Result<Message, AllocError>
    requires { length (least (forest profile.now.nodes)) ≤ 10000 }
    ensures { IfOk result (Fits (profile_value profile.now)) }
{
    let (header, rest) = headed(profile.nodes());
    message_of(alloc, header, rest)
}
