//! A walk over the texts of a segment, in order: what is looked for next stands at no earlier place.
ghost use Rattle.std.specs.Prelude.{◌≡◌, ℕ, ◌<◌, ◌+◌, ◌∷◌, [], true, false};
ghost use Rattle.std.specs.FinMap as texts;
ghost use Rattle.std.specs.Ordering.{nat_cmp, is_lt};
ghost use Rattle.std.specs.Cmp.Lexicographic.{slice_cmp};
ghost use Rattle.gw_er7.specs.Message.{numbers, text_of};
ghost use Rattle.gw_er7.specs.Presence.{FieldAt, RepAt, IsStart};
ghost use Rattle.gw_validate.specs.own.Walk.{IsBefore, IsBeforeRep, IsBeforeFound, IsValueAt, IsNextFound};

use gw_er7::{Place, Segment, Value};

#[inline(always)]
fn is_below(here: Place, place: Place) -> bool
    ensures { result ≡ is_lt (slice_cmp nat_cmp (numbers here) (numbers place)) }
{
    if here.field != place.field {
        return here.field < place.field;
    }
    if here.rep != place.rep {
        return here.rep < place.rep;
    }
    if here.comp != place.comp {
        return here.comp < place.comp;
    }
    here.sub < place.sub
}

/// The first text at a place or behind it, with its number. Those before the number `near` stand below the place.
#[inline(always)]
pub(crate) fn first_from<'a>(
    segment: &Segment<'a>,
    near: usize,
    place: Place,
) -> (usize, Option<Value<'a>>)
    requires { IsBefore (numbers place) (texts.entries segment.now.at) near }
    ensures start { IsStart (numbers place) (texts.entries segment.now.at) result.0 }
    ensures value { IsValueAt (texts.entries segment.now.at) result.0 result.1 }
{
    // (its clause says what every segment keeps)
    let _count = segment.value_count();
    let mut at = near;
    while let Some(value) = segment.get_value(at) {
        if !is_below(value.place, place) {
            return (at, Some(value));
        }
        at += 1;
    }
    (at, None)
}

// Whether a place isn't behind this repetition.
#[inline(always)]
fn is_up_to(here: Place, field: usize, rep: usize) -> bool
    ensures { result ≡ is_lt (slice_cmp nat_cmp (numbers here) (field ∷ (rep + 1) ∷ 0 ∷ 0 ∷ [])) }
{
    if here.field > field {
        return false;
    }
    if here.field == field && here.rep > rep {
        return false;
    }
    true
}

// The first text behind a repetition, with its number. Those before the number `near` aren't behind it.
#[inline(always)]
fn first_behind<'a>(
    segment: &Segment<'a>,
    near: usize,
    field: usize,
    rep: usize,
) -> (usize, Option<Value<'a>>)
    requires { IsBeforeRep segment.now.at field (rep + 1) near }
    ensures start { IsStart (field ∷ (rep + 1) ∷ 0 ∷ 0 ∷ []) (texts.entries segment.now.at) result.0 }
    ensures value { IsValueAt (texts.entries segment.now.at) result.0 result.1 }
{
    // (its clause says what every segment keeps)
    let _count = segment.value_count();
    let mut at = near;
    while let Some(value) = segment.get_value(at) {
        if !is_up_to(value.place, field, rep) {
            return (at, Some(value));
        }
        at += 1;
    }
    (at, None)
}

/// The text at a place, empty where it is absent. It is looked for from the number `near` on, which rises to the first text behind the place.
#[inline(always)]
pub(crate) fn text_from<'a>(segment: &Segment<'a>, near: &mut usize, place: Place) -> &'a [u8]
    requires { IsBefore (numbers place) (texts.entries segment.now.at) near.old }
    ensures text { result.now ≡ text_of segment.now.at place.field place.rep place.comp place.sub }
    ensures near { IsBefore (place.field ∷ place.rep ∷ place.comp ∷ (place.sub + 1) ∷ []) (texts.entries segment.now.at) near.new }
{
    let (at, found) = first_from(segment, *near, place);
    *near = at;
    let Some(value) = found else {
        return &[];
    };
    if value.place != place {
        return &[];
    }
    *near = at + 1;
    value.text
}

/// The first repetition of a field that is present after this one. It is looked for from the number `near` on, which rises to its first text.
#[inline(always)]
pub(crate) fn next_rep(
    segment: &Segment<'_>,
    near: &mut usize,
    field: usize,
    after: usize,
) -> Option<usize>
    requires { IsBeforeRep segment.now.at field (after + 1) near.old }
    ensures next { IsNextFound segment.now.at field after result }
    ensures here { IsBeforeFound segment.now.at field result near.new }
{
    // (its clause says what every segment keeps)
    let _count = segment.value_count();
    let (at, found) = first_behind(segment, *near, field, after);
    *near = at;
    let Some(value) = found else {
        return None;
    };
    if value.place.field != field {
        return None;
    }
    Some(value.place.rep)
}

// The first text of a field or behind it, with its number. Those before the number `near` stand below the field.
#[inline(always)]
fn first_of<'a>(segment: &Segment<'a>, near: usize, field: usize) -> (usize, Option<Value<'a>>)
    requires { IsBeforeRep segment.now.at field 1 near }
    ensures start { IsStart (field ∷ 1 ∷ 0 ∷ 0 ∷ []) (texts.entries segment.now.at) result.0 }
    ensures value { IsValueAt (texts.entries segment.now.at) result.0 result.1 }
{
    // (its clause says what every segment keeps)
    let _count = segment.value_count();
    let mut at = near;
    while let Some(value) = segment.get_value(at) {
        if value.place.field >= field {
            return (at, Some(value));
        }
        at += 1;
    }
    (at, None)
}

/// The first repetition of a field that is present. It is looked for from the number `near` on, which rises to its first text.
#[inline(always)]
pub(crate) fn first_rep(segment: &Segment<'_>, near: &mut usize, field: usize) -> Option<usize>
    requires { IsBeforeRep segment.now.at field 1 near.old }
    ensures next { IsNextFound segment.now.at field 0 result }
    ensures here { IsBeforeFound segment.now.at field result near.new }
    ensures near { IsBeforeRep segment.now.at field 1 near.new }
{
    // (its clause says what every segment keeps)
    let _count = segment.value_count();
    let (at, found) = first_of(segment, *near, field);
    *near = at;
    let Some(value) = found else {
        return None;
    };
    if value.place.field != field {
        return None;
    }
    Some(value.place.rep)
}

/// Whether a field is present, by its first repetition that is.
#[inline(always)]
pub(crate) fn is_there(segment: &Segment<'_>, field: usize, first: Option<usize>) -> bool
    requires { IsNextFound segment.now.at field 0 first }
    ensures yes { result ≡ true → FieldAt segment.now.at field }
    ensures no { result ≡ false → FieldAt segment.now.at field → ⊥ }
    ensures some { (rep : ℕ) → RepAt segment.now.at field rep → 0 < rep }
{
    first.is_some()
}
