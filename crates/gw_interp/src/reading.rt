//! Reads the texts at a map's sources.
ghost use Rattle.std.specs.Prelude.{◌≡◌, ℕ, ◌<◌, ◌≤◌, List, Some};
ghost use Rattle.gw_er7.specs.Message.{SegmentValue, text_of};
ghost use Rattle.gw_er7.specs.Presence.{RepAt, IsLast};
ghost use Rattle.gw_maplang.specs.Seen.{condition as seen_condition, condition_some};
ghost use Rattle.gw_resolve.specs.Seen.{place as seen_place, source as seen_source, condition as field_condition, some_condition};
ghost use Rattle.gw_interp.specs.Occurrences.{texts_at};
ghost use Rattle.gw_interp.specs.own.Borrowed.{scope as walked, AreOf};
ghost use Rattle.gw_interp.specs.Meaning as meaning;
ghost use Rattle.gw_interp.specs.Meaning.{InFirst, IsChosen, SourceMeans};
ghost use Rattle.gw_interp.specs.own.Sourced.{texts_of, IsFirstOne, IsFirstRep, IsNextOne, current_texts, walks, is_met};

use crate::places::first_at_place;
use gw_er7::Segment;
use gw_maplang::{ChosenValues, Condition, LeafPlace};
use gw_resolve::{FieldCondition, ScopePath, Source};
use gw_validate::Occ;

/// A repetition of a field.
#[derive(Drop)]
pub(crate) struct Repetition<'a> {
    pub(crate) segment: Segment<'a>,
    pub(crate) field: usize,
    pub(crate) rep: usize,
}

/// Where a rule reads: the occurrences that are walked, the innermost last, and the current repetition of a `repeat`.
#[derive(Drop)]
pub(crate) struct Reading<'s, 'a> {
    pub(crate) scope: &'s [Occ<'a>],
    pub(crate) current: Option<Repetition<'a>>,
}

/// The segment at a place, if there is one. It takes no memory.
pub(crate) fn segment_at<'a>(scope: &[Occ<'a>], place: &ScopePath) -> Option<Segment<'a>>
    ensures { (m : List SegmentValue) → AreOf m scope.now → texts_of result ≡ texts_at m (walked scope.now) (seen_place place.now) }
{
    match first_at_place(scope, place) {
        None => None,
        Some(first) => first.segment(),
    }
}

/// The first present repetition of a field after this one. The last present one is `last`.
/// It takes time logarithmic in the number of the segment's values.
pub(crate) fn next_rep(segment: &Segment<'_>, field: usize, after: usize, last: usize) -> usize
    requires last { IsLast (RepAt segment.now.at field) last }
    requires after { after < last }
    ensures there { RepAt segment.now.at field result }
    ensures after { after < result }
    ensures first { (rep : ℕ) → after < rep → RepAt segment.now.at field rep → result ≤ rep }
{
    let place = gw_er7::Place {
        field,
        rep: after + 1,
        comp: 0,
        sub: 0,
    };
    let at = segment.values_before(place);
    let holds = at < segment.value_count();
    prove!(holds);
    segment.value(at).place.rep
}

/// The first present repetition of a field.
pub(crate) fn first_rep(segment: &Segment<'_>, field: usize) -> Option<usize>
    ensures { IsFirstRep segment.now.at field result }
{
    let last = segment.reps(field);
    if last == 0 {
        return None;
    }
    Some(next_rep(segment, field, 0, last))
}

// The text of a subcomponent of a repetition.
fn text_at<'a>(segment: &Segment<'a>, field: usize, rep: usize, at: LeafPlace) -> &'a [u8]
    ensures { result.now ≡ text_of segment.now.at field rep at.comp at.sub }
{
    segment.text(gw_er7::Place {
        field,
        rep,
        comp: at.comp as usize,
        sub: at.sub as usize,
    })
}

// Whether the text is one of the values. An absent text is none of them.
fn is_one(values: &ChosenValues, text: &[u8]) -> bool
    ensures { result ≡ meaning.is_one values.now text.now }
{
    match text {
        [] => false,
        [_, ..] => values.contains(text),
    }
}

// Whether a repetition meets the condition.
fn meets(condition: &Condition, segment: &Segment<'_>, field: usize, rep: usize) -> bool
    ensures { result ≡ meaning.is_one condition.now.values (text_of segment.now.at field rep condition.now.place.comp condition.now.place.sub) }
{
    is_one(
        &condition.values,
        text_at(segment, field, rep, condition.place),
    )
}

/// The first repetition of a field after this one that meets the condition. The last present one is `last`.
/// It takes time linear in the number of repetitions that it passes over.
pub(crate) fn next_chosen(
    condition: &Condition,
    segment: &Segment<'_>,
    field: usize,
    after: usize,
    last: usize,
) -> Option<usize>
    requires { IsLast (RepAt segment.now.at field) last }
    ensures { IsNextOne (IsChosen (Some (seen_condition condition.now)) segment.now.at field) after result }
{
    let mut rep = after;
    while rep < last {
        rep = next_rep(segment, field, rep, last);
        if meets(condition, segment, field, rep) {
            return Some(rep);
        }
    }
    None
}

/// The first present repetition of a field, or the first that meets the condition.
pub(crate) fn first_chosen(
    condition: &Option<Condition>,
    segment: &Segment<'_>,
    field: usize,
) -> Option<usize>
    ensures { IsFirstOne (IsChosen (condition_some condition.now) segment.now.at field) result }
{
    match condition {
        None => first_rep(segment, field),
        Some(condition) => next_chosen(condition, segment, field, 0, segment.reps(field)),
    }
}

// The text of a subcomponent in the first present repetition of a field; empty if there is none.
fn first_text<'a>(segment: &Option<Segment<'a>>, field: u32, at: LeafPlace) -> &'a [u8]
    ensures means { InFirst (texts_of segment.now) field at.comp at.sub result.now }
    ensures value { result.now ≡ meaning.first_text (texts_of segment.now) field at.comp at.sub }
{
    let Some(segment) = segment else {
        return &[];
    };
    // Called for its clause, which says what every segment keeps.
    let _values = segment.value_count();
    let Some(rep) = first_rep(segment, field as usize) else {
        return &[];
    };
    text_at(segment, field as usize, rep, at)
}

// The text of a subcomponent in the current repetition.
fn current_text<'a>(current: &Option<Repetition<'a>>, at: LeafPlace) -> &'a [u8]
    ensures { result.now ≡ current_texts current.now at.comp at.sub }
{
    match current {
        None => &[],
        Some(repetition) => text_at(&repetition.segment, repetition.field, repetition.rep, at),
    }
}

/// The text of a source, empty where it is absent. It takes no memory.
pub(crate) fn source_text<'a>(reading: &Reading<'_, 'a>, source: &Source) -> &'a [u8]
    ensures { (m : List SegmentValue) → AreOf m reading.now.scope.now → SourceMeans (walks m reading.now) (seen_source source.now) result.now }
{
    match source {
        Source::OfField(from, at) => {
            let segment = segment_at(reading.scope, &from.place);
            first_text(&segment, from.field, *at)
        }
        Source::OfCurrent(at) => current_text(&reading.current, *at),
    }
}

fn meets_within(scope: &[Occ<'_>], asked: &FieldCondition) -> bool
    ensures { (m : List SegmentValue) → AreOf m scope.now → result ≡ meaning.meets m (walked scope.now) (field_condition asked.now) }
{
    let segment = segment_at(scope, &asked.from.place);
    let text = first_text(&segment, asked.from.field, asked.condition.place);
    is_one(&asked.condition.values, text)
}

/// Whether a condition holds within the innermost occurrence, or there is none. It takes no memory.
pub(crate) fn is_met(scope: &[Occ<'_>], condition: &Option<FieldCondition>) -> bool
    ensures { (m : List SegmentValue) → AreOf m scope.now → result ≡ is_met m (walked scope.now) (some_condition condition.now) }
{
    match condition {
        None => true,
        Some(asked) => meets_within(scope, asked),
    }
}
