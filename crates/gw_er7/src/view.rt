//! Borrowed segments.

use crate::counts::{count_within, last_under};
use crate::layout::write_line;
use crate::place::Place;
use crate::same::{same_bytes, same_values};
use crate::search::{count_below, text_behind};
use crate::values::Values;
use std::alloc::AllocError;
use std::marker::Model;

/// A segment, borrowed from its message: its name, and texts at places.
#[derive(Drop)]
pub struct Segment<'a> {
    name: [u8; 3],
    values: Values<'a>,
}

impl<'a> Model for Segment<'a> {
    ghost use Rattle.gw_er7.specs.Message.{SegmentValue, segment_code};
    ghost use Rattle.gw_er7.specs.View.{stored, IsLent};

    ghost Value = { SegmentValue };

    ghost coded = { segment_code };

    ghost view = { λ s. stored s.name s.values };

    ghost invariant = { λ s. IsLent s.name s.values };
}

/// A text and its place.
#[derive(Clone, Copy)]
pub struct Value<'a> {
    pub place: Place,
    pub text: &'a [u8],
}

impl<'a> Segment<'a> {
    ghost use Rattle.std.specs.Prelude.{◌≡◌, ◌↔◌, ◌+◌, ◌-◌, ◌*◌, ◌^◌, ◌<◌, ◌≤◌, [], ◌∷◌, ◌++◌, Some, IfSome, MatchOption, length, min, slice_get, IsTrue, OnOk};
    ghost use Rattle.std.specs.FinMap as texts;
    ghost use Rattle.gw_er7.specs.Message.{numbers, text_at, IsSegment};
    ghost use Rattle.gw_er7.specs.Presence.{SubAt, CompAt, RepAt, FieldAt, IsLast, IsStart};
    ghost use Rattle.gw_er7.specs.View.{stored, IsLent};
    ghost use Rattle.gw_er7.specs.Written.{line_text};
    ghost use Rattle.gw_er7.specs.own.Standing.{StandsUnder};

    pub(crate) fn of(name: [u8; 3], values: Values<'a>) -> Segment<'a>
        requires { IsLent name values }
        ensures { result ≡ stored name values.entry }
    {
        Segment { name, values }
    }

    /// The same segment, borrowed once more, without an allocation.
    pub fn reborrow(&self) -> Segment<'a>
        ensures { result ≡ self.now }
    {
        Segment {
            name: self.name,
            values: self.values.reborrow(),
        }
    }

    /// Whether the segments are equal: one name, and the same texts at the same places.
    pub(crate) fn is(&self, other: &Segment<'_>) -> bool
        ensures { IsTrue result ↔ (self.now ≡ other.now) }
    {
        if !same_bytes(&self.name, &other.name) {
            return false;
        }
        same_values(&self.values, &other.values)
    }

    /// Room for the segment's line: eight bytes for each text with its separators, which is about what texts take, and four for the name and the end.
    pub(crate) fn room(&self) -> usize
        ensures { result ≡ min (length (texts.entries self.now.at) * 8 + 4) (2 ^ 64 - 1) }
    {
        self.values.len().saturating_mul(8).saturating_add(4)
    }

    /// Writes the segment's line, and its end.
    pub(crate) fn write(&self, out: &mut Vec<u8>) -> Result<(), AllocError>
        ensures { OnOk result (out.new.items ≡ out.old.items ++ (line_text self.now ++ 13 ∷ [])) }
    {
        write_line(out, self.name, &self.values)
    }

    /// The name. It takes no memory.
    #[inline(always)]
    pub fn name(&self) -> [u8; 3]
        ensures value { result ≡ self.now.name }
        ensures segment { IsSegment self.now }
    {
        self.name
    }

    /// The text at a place, empty where it is absent. It takes no memory, and time by the logarithm of the segment's values.
    pub fn text(&self, place: Place) -> &'a [u8]
        ensures { result.now ≡ text_at self.now place }
    {
        text_behind(&self.values, count_below(&self.values, place), place)
    }

    // The last number behind these under which a text stands, 0 where none does.
    fn last(&self, prefix: &[usize]) -> usize
        requires { length prefix.now < 4 }
        ensures { IsLast (λ n. StandsUnder self.now.at (3 - length prefix.now) (prefix.now ++ n ∷ [])) result }
    {
        match last_under(&self.values, prefix) {
            Some(place) => [place.field, place.rep, place.comp, place.sub][prefix.len()],
            None => 0,
        }
    }

    /// The number of the last field that is present, 0 where none is. It takes no memory.
    pub fn field_count(&self) -> usize
        ensures { IsLast (FieldAt self.now.at) result }
    {
        self.last(&[])
    }

    /// The number of the last repetition of a field that is present, 0 where none is. It takes no memory.
    pub fn reps(&self, field: usize) -> usize
        ensures { IsLast (RepAt self.now.at field) result }
    {
        self.last(&[field])
    }

    /// The number of the last component of a repetition that is present, 0 where none is. It takes no memory.
    pub fn comps(&self, field: usize, rep: usize) -> usize
        ensures { IsLast (CompAt self.now.at field rep) result }
    {
        self.last(&[field, rep])
    }

    /// The number of the last subcomponent of a component that is present, 0 where none is. It takes no memory.
    pub fn subs(&self, field: usize, rep: usize, comp: usize) -> usize
        ensures { IsLast (SubAt self.now.at field rep comp) result }
    {
        self.last(&[field, rep, comp])
    }

    /// How many texts the segment has. It takes no memory.
    #[inline(always)]
    pub fn value_count(&self) -> usize
        ensures count { result ≡ length (texts.entries self.now.at) }
        ensures segment { IsSegment self.now }
    {
        self.values.len()
    }

    /// The text of this number, from 0, in order of place. It takes no memory, and a constant time.
    #[inline(always)]
    pub fn value(&self, i: usize) -> Value<'a>
        requires { i < length (texts.entries self.now.at) }
        ensures { slice_get (texts.entries self.now.at) i ≡ Some (numbers result.place, result.text.now) }
    {
        self.values.at(i)
    }

    /// The text of this number, from 0, in order of place; `None` where there are no more. It takes no memory, and a constant time.
    #[inline(always)]
    pub fn get_value(&self, i: usize) -> Option<Value<'a>>
        ensures there { MatchOption result (length (texts.entries self.now.at) ≤ i) (λ value. i < length (texts.entries self.now.at)) }
        ensures value { IfSome result (λ value. slice_get (texts.entries self.now.at) i ≡ Some (numbers value.place, value.text.now)) }
    {
        match self.values.get(i) {
            Some(value) => Some(value),
            None => None,
        }
    }

    /// How many texts stand at places below this one: the number of the first text from there on.
    /// It takes no memory, and time by the logarithm of the segment's values.
    pub fn values_before(&self, place: Place) -> usize
        ensures { IsStart (numbers place) (texts.entries self.now.at) result }
    {
        count_below(&self.values, place)
    }

    /// The numbers of the first text of a field and of the first text behind the field: the texts of the field stand between.
    /// It takes no memory, and time by the logarithm of the segment's values.
    pub fn field_values(&self, field: usize) -> (usize, usize)
        ensures first { IsStart (field ∷ []) (texts.entries self.now.at) result.0 }
        ensures behind { IsStart ((field + 1) ∷ []) (texts.entries self.now.at) result.1 }
    {
        let behind = count_within(&self.values, &[field]);
        if field == 0 {
            return (0, behind);
        }
        (count_within(&self.values, &[field - 1]), behind)
    }

    /// The numbers of the first text of a repetition and of the first text behind it: the texts of the repetition stand between.
    /// It takes no memory, and time by the logarithm of the segment's values.
    pub fn rep_values(&self, field: usize, rep: usize) -> (usize, usize)
        ensures first { IsStart (field ∷ rep ∷ []) (texts.entries self.now.at) result.0 }
        ensures behind { IsStart (field ∷ (rep + 1) ∷ []) (texts.entries self.now.at) result.1 }
    {
        let place = Place {
            field,
            rep,
            comp: 0,
            sub: 0,
        };
        (
            count_below(&self.values, place),
            count_within(&self.values, &[field, rep]),
        )
    }
}
