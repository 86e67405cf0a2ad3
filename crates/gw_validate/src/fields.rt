//! A walk over a segment beside its shape, which comes to each breach in order.
ghost use Rattle.std.specs.Prelude.{◌≡◌, ℕ, ◌<◌, ◌≤◌, ◌+◌, ◌-◌, ◌∷◌, [], false, true, map, OnOk, IfSome};
ghost use Rattle.std.specs.List.{AllByRecursion};
ghost use Rattle.std.specs.FinMap as texts;
ghost use Rattle.gw_er7.specs.Presence.{FieldAt, RepAt, CompAt, IsStart};
ghost use Rattle.gw_profile.specs.Seen.{sub, comp as comp_value, field as field_value, items_of};
ghost use Rattle.gw_validate.specs.Breaches.{is_required, is_forbidden, is_long, is_unlisted, is_null, Counted};
ghost use Rattle.gw_validate.specs.own.Least.{is_full, CompRises, FieldRises, ShapeRises, Rises};
ghost use Rattle.gw_validate.specs.own.Gathering.{Visits};
ghost use Rattle.gw_validate.specs.own.Visiting.{AtPlace, AtSub, AtSubs, AtComp, AtComps, AtRep, AtReps, AtField, AtFields};
ghost use Rattle.gw_validate.specs.own.Walk.{IsBefore, IsBeforeField, IsBeforeRep, IsBeforeComp, IsBeforeFound};
ghost use Rattle.gw_validate.specs.own.Walk.{IsOnly, IsValueAt, IsNextFound, IsCount, IsShort};

use crate::breach::Kind;
use crate::cursor::{first_from, first_rep, is_there, next_rep, text_from};
use crate::visitor::AtBreach;
use gw_er7::{Place, Segment, Value};
use gw_profile::{CompShape, Count, FieldShape, Profile, SubShape, Usage, measure};

/// Where a breach stands, with 0 for a number that is not said, and its kind.
#[derive(Clone, Copy, Drop)]
pub(crate) struct Spot {
    pub(crate) field: usize,
    pub(crate) rep: usize,
    pub(crate) comp: usize,
    pub(crate) sub: usize,
    pub(crate) kind: Kind,
}

// A spot of which only the kind is said.
pub(crate) fn of_kind(kind: Kind) -> Spot
    ensures { result ≡ record { field = 0; rep = 0; comp = 0; sub = 0; kind = kind } }
{
    Spot {
        field: 0,
        rep: 0,
        comp: 0,
        sub: 0,
        kind,
    }
}

fn is_required(usage: Usage) -> bool
    ensures { result ≡ is_required usage }
{
    match usage {
        Usage::R => true,
        _ => false,
    }
}

fn is_forbidden(usage: Usage) -> bool
    ensures { result ≡ is_forbidden usage }
{
    match usage {
        Usage::X => true,
        _ => false,
    }
}

fn is_null(text: &[u8]) -> bool
    ensures { result ≡ is_null text.now }
{
    text == b"\"\"".as_slice()
}

fn is_long(count: Count, len: Option<u32>, text: &[u8]) -> bool
    ensures { result ≡ is_long count len text.now }
{
    match len {
        None => false,
        Some(most) => u64::from(most) < measure(count, text),
    }
}

#[inline(always)]
fn is_unlisted(profile: &Profile, table: &Option<Vec<u8>>, text: &[u8]) -> bool
    ensures { result ≡ is_unlisted profile.now.tables (items_of table.now) text.now }
{
    let Some(name) = table else {
        return false;
    };
    match profile.table(name) {
        None => false,
        Some(table) => !table.contains(text),
    }
}

// Visits the breach of this kind at a place, where the test holds.
#[inline(always)]
fn visit_if<V: AtBreach>(
    visitor: &mut V,
    test: bool,
    place: Place,
    kind: Kind,
) -> Result<(), V::Stop>
    ensures { Visits V.stopped (AtPlace test place kind) (V.seen visitor.old) (V.seen visitor.new) result }
{
    if test {
        return visitor.breach(Spot {
            field: place.field,
            rep: place.rep,
            comp: place.comp,
            sub: place.sub,
            kind,
        });
    }
    Ok(())
}

// Visits the breaches at a leaf.
#[inline(always)]
fn visit_leaf<V: AtBreach>(
    profile: &Profile,
    shape: &SubShape,
    text: &[u8],
    place: Place,
    visitor: &mut V,
) -> Result<(), V::Stop>
    ensures { Visits V.stopped (AtSub profile.now place shape.now text.now) (V.seen visitor.old) (V.seen visitor.new) result }
{
    if text.len() == 0 {
        return visit_if(visitor, is_required(shape.usage), place, Kind::MissingValue);
    }
    visit_if(visitor, is_forbidden(shape.usage), place, Kind::Forbidden)?;
    if is_null(text) {
        return Ok(());
    }
    let is_long = is_long(profile.count(), shape.len, text);
    visit_if(visitor, is_long, place, Kind::TooLong)?;
    let is_unlisted = is_unlisted(profile, &shape.table, text);
    visit_if(visitor, is_unlisted, place, Kind::NotInTable)
}

// Visits the breaches at the leaves of a component that is present. Its texts are looked for from the number `near` on, which rises to the text behind them.
fn visit_leaves<V: AtBreach>(
    profile: &Profile,
    segment: &Segment<'_>,
    near: &mut usize,
    comp: Place,
    subs: &[SubShape],
    visitor: &mut V,
) -> Result<(), V::Stop>
    requires rises { Rises (λ s. s.number) 0 (map sub subs.now) }
    requires near { IsBefore (comp.field ∷ comp.rep ∷ comp.comp ∷ 1 ∷ []) (texts.entries segment.now.at) near.old }
    ensures all { Visits V.stopped (AtSubs profile.now segment.now.at comp subs.now) (V.seen visitor.old) (V.seen visitor.new) result }
    ensures near { OnOk result (IsBeforeComp segment.now.at comp.field comp.rep (comp.comp + 1) near.new) }
{
    for sub in subs {
        let place = Place {
            sub: sub.number as usize,
            ..comp
        };
        let text = text_from(segment, near, place);
        visit_leaf(profile, sub, text, place, visitor)?;
    }
    Ok(())
}

// The leaf of a component, where it has this one alone and its number is the one given.
fn only_leaf(subs: &[SubShape], number: usize) -> Option<&SubShape>
    ensures { IfSome result (λ leaf. IsOnly (map sub subs.now) (sub leaf.now) number) }
{
    match subs {
        [leaf] => {
            if leaf.number as usize != number {
                return None;
            }
            Some(leaf)
        }
        _ => None,
    }
}

// Visits the same breaches, where the first text of the component is known, with its number `near`: one leaf alone takes this text.
fn visit_texts<V: AtBreach>(
    profile: &Profile,
    segment: &Segment<'_>,
    near: &mut usize,
    found: Option<Value<'_>>,
    comp: Place,
    subs: &[SubShape],
    visitor: &mut V,
) -> Result<(), V::Stop>
    requires rises { Rises (λ s. s.number) 0 (map sub subs.now) }
    requires there { CompAt segment.now.at comp.field comp.rep comp.comp }
    requires start { IsStart (comp.field ∷ comp.rep ∷ comp.comp ∷ 0 ∷ []) (texts.entries segment.now.at) near.old }
    requires value { IsValueAt (texts.entries segment.now.at) near.old found }
    ensures all { Visits V.stopped (AtSubs profile.now segment.now.at comp subs.now) (V.seen visitor.old) (V.seen visitor.new) result }
    ensures near { OnOk result (IsBeforeComp segment.now.at comp.field comp.rep (comp.comp + 1) near.new) }
{
    // (its clause says what every segment keeps)
    let _count = segment.value_count();
    let Some(value) = found else {
        return Ok(());
    };
    let Some(leaf) = only_leaf(subs, value.place.sub) else {
        return visit_leaves(profile, segment, near, comp, subs, visitor);
    };
    *near += 1;
    let place = Place {
        sub: value.place.sub,
        ..comp
    };
    visit_leaf(profile, leaf, value.text, place, visitor)
}

// Whether a place is of a component.
fn is_of(place: Place, field: usize, rep: usize, comp: usize) -> bool
    ensures yes { result ≡ true → (place.field ≡ field) × (place.rep ≡ rep) × (place.comp ≡ comp) }
    ensures no { result ≡ false → (place.field ≡ field) × (place.rep ≡ rep) × (place.comp ≡ comp) → ⊥ }
{
    if place.field != field {
        return false;
    }
    if place.rep != rep {
        return false;
    }
    place.comp == comp
}

// Whether a component is present, where the first text from it on is known, with its number.
#[inline(always)]
fn has_comp(
    segment: &Segment<'_>,
    at: usize,
    found: Option<Value<'_>>,
    field: usize,
    rep: usize,
    comp: usize,
) -> bool
    requires start { IsStart (field ∷ rep ∷ comp ∷ 0 ∷ []) (texts.entries segment.now.at) at }
    requires value { IsValueAt (texts.entries segment.now.at) at found }
    ensures yes { result ≡ true → CompAt segment.now.at field rep comp }
    ensures no { result ≡ false → CompAt segment.now.at field rep comp → ⊥ }
{
    // (its clause says what every segment keeps)
    let _count = segment.value_count();
    match found {
        Some(value) => is_of(value.place, field, rep, comp),
        None => false,
    }
}

// Visits the breaches of a component.
fn visit_comp<V: AtBreach>(
    profile: &Profile,
    segment: &Segment<'_>,
    near: &mut usize,
    field: usize,
    rep: usize,
    shape: &CompShape,
    visitor: &mut V,
) -> Result<(), V::Stop>
    requires rises { CompRises (comp_value shape.now) }
    requires near { IsBeforeComp segment.now.at field rep shape.now.number near.old }
    ensures all { Visits V.stopped (AtComp profile.now segment.now.at field rep shape.now) (V.seen visitor.old) (V.seen visitor.new) result }
    ensures near { OnOk result (IsBeforeComp segment.now.at field rep (shape.now.number + 1) near.new) }
{
    let place = Place {
        field,
        rep,
        comp: shape.number as usize,
        sub: 0,
    };
    let (at, found) = first_from(segment, *near, place);
    *near = at;
    if !has_comp(segment, at, found, field, rep, place.comp) {
        return visit_if(visitor, is_required(shape.usage), place, Kind::MissingValue);
    }
    visit_if(visitor, is_forbidden(shape.usage), place, Kind::Forbidden)?;
    visit_texts(profile, segment, near, found, place, &shape.subs, visitor)
}

// Visits the breaches at the components of a repetition.
fn visit_comps<V: AtBreach>(
    profile: &Profile,
    segment: &Segment<'_>,
    near: &mut usize,
    field: usize,
    rep: usize,
    comps: &[CompShape],
    visitor: &mut V,
) -> Result<(), V::Stop>
    requires rises { Rises (λ c. c.number) 0 (map comp_value comps.now) }
    requires each { AllByRecursion CompRises (map comp_value comps.now) }
    requires near { IsBeforeRep segment.now.at field rep near.old }
    ensures all { Visits V.stopped (AtComps profile.now segment.now.at field rep comps.now) (V.seen visitor.old) (V.seen visitor.new) result }
    ensures near { OnOk result (IsBeforeRep segment.now.at field (rep + 1) near.new) }
{
    for comp in comps {
        visit_comp(profile, segment, near, field, rep, comp, visitor)?;
    }
    Ok(())
}

// Whether this many are all that may come.
fn is_full(max: Option<u32>, count: usize) -> bool
    ensures { result ≡ is_full max count }
{
    match max {
        None => false,
        Some(most) => u64::from(most) == count as u64,
    }
}

// Whether a repetition with this many before it is one too many.
fn is_beyond(shape: &FieldShape, before: usize) -> bool
    ensures yes { result ≡ true → (is_forbidden shape.now.usage ≡ false) × (is_full shape.now.card.max before ≡ true) }
    ensures no { result ≡ false → is_forbidden shape.now.usage ≡ false → is_full shape.now.card.max before ≡ true → ⊥ }
{
    if is_forbidden(shape.usage) {
        return false;
    }
    is_full(shape.card.max, before)
}

// Visits the breaches of a repetition that is present, with this many before it.
fn visit_rep<V: AtBreach>(
    profile: &Profile,
    segment: &Segment<'_>,
    near: &mut usize,
    shape: &FieldShape,
    rep: usize,
    before: usize,
    visitor: &mut V,
) -> Result<(), V::Stop>
    requires rises { FieldRises (field_value shape.now) }
    requires before { Counted (RepAt segment.now.at shape.now.number) (rep - 1) before }
    requires near { IsBeforeRep segment.now.at shape.now.number rep near.old }
    ensures all { Visits V.stopped (AtRep profile.now segment.now.at shape.now rep) (V.seen visitor.old) (V.seen visitor.new) result }
    ensures near { OnOk result (IsBeforeRep segment.now.at shape.now.number (rep + 1) near.new) }
{
    let field = shape.number as usize;
    let place = Place {
        field,
        rep,
        comp: 0,
        sub: 0,
    };
    visit_if(visitor, is_beyond(shape, before), place, Kind::TooManyReps)?;
    visit_comps(profile, segment, near, field, rep, &shape.comps, visitor)
}

// Visits the breaches in the repetitions of a field, of which the first that is present is known.
fn visit_reps<V: AtBreach>(
    profile: &Profile,
    segment: &Segment<'_>,
    near: &mut usize,
    shape: &FieldShape,
    first: Option<usize>,
    visitor: &mut V,
) -> Result<(), V::Stop>
    requires rises { FieldRises (field_value shape.now) }
    requires some { (rep : ℕ) → RepAt segment.now.at shape.now.number rep → 0 < rep }
    requires next { IsNextFound segment.now.at shape.now.number 0 first }
    requires here { IsBeforeFound segment.now.at shape.now.number first near.old }
    ensures all { Visits V.stopped (AtReps profile.now segment.now.at shape.now) (V.seen visitor.old) (V.seen visitor.new) result }
    ensures near { OnOk result (IsBeforeField segment.now.at (shape.now.number + 1) near.new) }
{
    let field = shape.number as usize;
    let mut before = 0;
    let mut rep = 0;
    let mut found = first;
    while let Some(next) = found {
        rep = next;
        visit_rep(profile, segment, near, shape, rep, before, visitor)?;
        before += 1;
        found = next_rep(segment, near, field, rep);
    }
    Ok(())
}

// How many repetitions of a field are present. They are looked for from the text of this number on.
fn count_reps(segment: &Segment<'_>, near: usize, field: usize) -> usize
    requires { IsBeforeRep segment.now.at field 1 near }
    ensures { IsCount (RepAt segment.now.at field) result }
{
    let mut at = near;
    let mut count = 0;
    let mut rep = 0;
    while let Some(next) = next_rep(segment, &mut at, field, rep) {
        rep = next;
        count += 1;
    }
    count
}

// Whether fewer repetitions of a field are present than must be. Where one is enough, none is counted.
fn comes_short(segment: &Segment<'_>, near: usize, shape: &FieldShape, present: bool) -> bool
    requires near { IsBeforeRep segment.now.at shape.now.number 1 near }
    requires present { present ≡ true → FieldAt segment.now.at shape.now.number }
    requires some { (rep : ℕ) → RepAt segment.now.at shape.now.number rep → 0 < rep }
    ensures yes { result ≡ true → IsShort (RepAt segment.now.at shape.now.number) shape.now.card.min }
    ensures no { result ≡ false → (count : ℕ) → IsCount (RepAt segment.now.at shape.now.number) count → shape.now.card.min ≤ count }
{
    if shape.card.min == 0 {
        return false;
    }
    if present && shape.card.min == 1 {
        return false;
    }
    let count = count_reps(segment, near, shape.number as usize);
    (count as u64) < u64::from(shape.card.min)
}

// Whether a field of which no repetition is present has to come.
fn has_to_come(shape: &FieldShape) -> bool
    ensures yes { result ≡ true → (is_forbidden shape.now.usage ≡ false) × (0 < shape.now.card.min) }
    ensures no { result ≡ false → is_forbidden shape.now.usage ≡ false → 0 < shape.now.card.min → ⊥ }
{
    if is_forbidden(shape.usage) {
        return false;
    }
    shape.card.min != 0
}

// Visits the breaches of a field. Its texts are looked for from the number `near` on, which rises to the text behind them.
fn visit_field<V: AtBreach>(
    profile: &Profile,
    segment: &Segment<'_>,
    near: &mut usize,
    shape: &FieldShape,
    visitor: &mut V,
) -> Result<(), V::Stop>
    requires rises { FieldRises (field_value shape.now) }
    requires near { IsBeforeRep segment.now.at shape.now.number 1 near.old }
    ensures all { Visits V.stopped (AtField profile.now segment.now.at shape.now) (V.seen visitor.old) (V.seen visitor.new) result }
    ensures near { OnOk result (IsBeforeField segment.now.at (shape.now.number + 1) near.new) }
{
    let place = Place {
        field: shape.number as usize,
        rep: 0,
        comp: 0,
        sub: 0,
    };
    // (behind the last text no field is present)
    if *near >= segment.value_count() {
        return visit_if(visitor, has_to_come(shape), place, Kind::MissingValue);
    }
    let first = first_rep(segment, near, place.field);
    let present = is_there(segment, place.field, first);
    if is_forbidden(shape.usage) {
        visit_if(visitor, present, place, Kind::Forbidden)?;
        return visit_reps(profile, segment, near, shape, first, visitor);
    }
    let is_short = comes_short(segment, *near, shape, present);
    visit_if(visitor, is_short, place, Kind::MissingValue)?;
    visit_reps(profile, segment, near, shape, first, visitor)
}

/// Visits the breaches of a segment's shape, in order.
pub(crate) fn visit_fields<V: AtBreach>(
    profile: &Profile,
    segment: &Segment<'_>,
    fields: &[FieldShape],
    visitor: &mut V,
) -> Result<(), V::Stop>
    requires { ShapeRises (map field_value fields.now) }
    ensures { Visits V.stopped (AtFields profile.now segment.now.at fields.now) (V.seen visitor.old) (V.seen visitor.new) result }
{
    let mut near = 0;
    for field in fields {
        visit_field(profile, segment, &mut near, field, visitor)?;
    }
    Ok(())
}
