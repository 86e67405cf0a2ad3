//! Whether a text stands at a place.
ghost use Rattle.std.specs.Prelude.{◌≡◌, ◌&&◌, nat_le, if◌then◌else◌};
ghost use Rattle.gw_resolve.specs.Intervals.{is_sure};
ghost use Rattle.gw_leaves.specs.Leaves as spec;
ghost use Rattle.gw_leaves.specs.own.Held.{known_value, others_value, shape_at, presence_at};
ghost use Rattle.gw_profile.specs.Numbered.{some_field, some_comp, some_sub};
ghost use Rattle.gw_leaves.specs.Uses.{sources_value, map_tables};
ghost use Rattle.gw_resolve.specs.Resolved.{of_field};
ghost use Rattle.gw_resolve.specs.Seen.{interval, reference, leaf as seen_leaf};
ghost use Rattle.gw_leaves.specs.declared.shape.Presence.TheVariants as presences;

use crate::known::{Known, at_field, segment_at};
use crate::shape::Presence;
use crate::sources::Sources;
use gw_maplang::LeafPlace;
use gw_profile::{Card, CompShape, FieldShape, SubShape, Usage, comp_of, field_of, sub_of};
use gw_resolve::{Alternative, At, Interval, Reference, ResolvedLeaf, Source};

fn by_usage(usage: Option<Usage>) -> Presence
    ensures { result ≡ spec.by_usage usage }
{
    match usage {
        Some(Usage::R) => Presence::Always,
        Some(Usage::X) => Presence::Never,
        _ => Presence::Maybe,
    }
}

pub(crate) fn is_always(presence: Presence) -> bool
    ensures { result ≡ spec.is_always presence }
{
    matches!(presence, Presence::Always)
}

pub(crate) fn is_absent(presence: Presence) -> bool
    ensures { result ≡ spec.is_absent presence }
{
    matches!(presence, Presence::Never)
}

// Of something that is there only where two things are.
fn both(one: Presence, other: Presence) -> Presence
    ensures { result ≡ spec.both one other }
{
    match (one, other) {
        (Presence::Never, _) => Presence::Never,
        (Presence::Always, other) => other,
        (Presence::Maybe, Presence::Never) => Presence::Never,
        (Presence::Maybe, _) => Presence::Maybe,
    }
}

/// Of a component.
pub(crate) fn comp_presence(comp: Option<&CompShape>) -> Presence
    ensures { result ≡ spec.comp_presence (some_comp comp.entry) }
{
    by_usage(comp.map(|comp| comp.usage))
}

fn sub_usage(sub: Option<&SubShape>) -> Presence
    ensures { result ≡ spec.sub_usage (some_sub sub.entry) }
{
    by_usage(sub.map(|sub| sub.usage))
}

/// Of a subcomponent where its component is there.
pub(crate) fn sub_presence(comp: Option<&CompShape>, sub: Option<&SubShape>) -> Presence
    ensures { result ≡ spec.sub_presence (some_comp comp.entry) (some_sub sub.entry) }
{
    if is_absent(comp_presence(comp)) {
        return Presence::Never;
    }
    sub_usage(sub)
}

// Of a subcomponent in a repetition that is there.
fn rep_presence(field: Option<&FieldShape>, comp: u32, sub: u32) -> Presence
    ensures { result ≡ spec.rep_presence (some_field field.entry) comp sub }
{
    let shape = comp_of(field, comp);
    both(comp_presence(shape), sub_usage(sub_of(shape, sub)))
}

// Of the first repetition of a field that may come so often, in a segment that is there so often.
fn first_presence(count: Interval, card: Card) -> Presence
    ensures { result ≡ (if is_sure (interval count) && nat_le 1 card.min then presences.Always else presences.Maybe) }
{
    if count.is_sure() && card.min >= 1 {
        return Presence::Always;
    }
    Presence::Maybe
}

// Of the first repetition of a field.
fn field_presence(known: Known<'_>, field: Option<&FieldShape>) -> Presence
    ensures { result ≡ spec.field_presence (known_value known.entry) (some_field field.entry) }
{
    if known.count.is_never() {
        return Presence::Never;
    }
    match field {
        None => Presence::Maybe,
        Some(field) => both(
            by_usage(Some(field.usage)),
            first_presence(known.count, field.card),
        ),
    }
}

// Of the first repetition of the field of a reference.
fn reference_presence(sources: Sources<'_, '_, '_, '_, '_>, from: &Reference) -> Presence
    ensures { result ≡ spec.reference_presence (sources_value sources.entry) (reference from.now) }
{
    let known = segment_at(sources.scope, &from.place);
    field_presence(known, field_of(known.fields, from.field))
}

/// Of the text at this place of the first repetition of a field.
pub(crate) fn place_presence(
    sources: Sources<'_, '_, '_, '_, '_>,
    from: &Reference,
    at: LeafPlace,
) -> Presence
    ensures { result ≡ (spec.source_shape (sources_value sources.entry) (of_field (reference from.now) at.comp at.sub)).presence }
{
    both(
        reference_presence(sources, from),
        rep_presence(at_field(sources, from), at.comp, at.sub),
    )
}

/// Of the text of a source.
pub(crate) fn source_presence(sources: Sources<'_, '_, '_, '_, '_>, source: &Source) -> Presence
    ensures { result ≡ (shape_at sources.entry source.now).presence }
{
    match source {
        Source::OfField(from, at) => place_presence(sources, from, *at),
        Source::OfCurrent(at) => rep_presence(sources.current, at.comp, at.sub),
    }
}

// Of a text that may be left out.
fn perhaps(presence: Presence) -> Presence
    ensures { result ≡ spec.perhaps presence }
{
    match presence {
        Presence::Never => Presence::Never,
        _ => Presence::Maybe,
    }
}

/// Of the text of a leaf.
pub(crate) fn leaf_presence(sources: Sources<'_, '_, '_, '_, '_>, leaf: &ResolvedLeaf) -> Presence
    ensures { result ≡ (spec.leaf_shape (sources_value sources.entry) (seen_leaf (map_tables sources.entry) leaf.now)).presence }
{
    match leaf {
        ResolvedLeaf::Const(_) => Presence::Always,
        ResolvedLeaf::Copied(source) => source_presence(sources, source),
        ResolvedLeaf::LookedUp(_, source) => source_presence(sources, source),
        ResolvedLeaf::Dated(_, source) => perhaps(source_presence(sources, source)),
    }
}

// Of the first of two texts that is there.
fn either(one: Presence, other: Presence) -> Presence
    ensures { result ≡ spec.either one other }
{
    match (one, other) {
        (Presence::Always, _) => Presence::Always,
        (Presence::Never, other) => other,
        (Presence::Maybe, Presence::Always) => Presence::Always,
        (Presence::Maybe, _) => Presence::Maybe,
    }
}

// Of the first text that one of these leaves gives.
fn others_presence(sources: Sources<'_, '_, '_, '_, '_>, others: &[Alternative]) -> Presence
    ensures { result ≡ spec.first_presence (sources_value sources.entry) (others_value sources.entry others.now) }
{
    let mut presence = Presence::Never;
    for other in others {
        presence = either(presence, leaf_presence(sources, &other.leaf));
    }
    presence
}

/// Of the text of a place.
pub(crate) fn at_presence(sources: Sources<'_, '_, '_, '_, '_>, at: &At) -> Presence
    ensures { result ≡ presence_at sources.entry at.now }
{
    either(
        leaf_presence(sources, &at.leaf),
        others_presence(sources, &at.others),
    )
}
