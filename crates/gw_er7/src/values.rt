//! Borrowed texts at places.
ghost use Rattle.std.specs.Prelude.{◌≡◌, ◌+◌, ◌≤◌, length};
ghost use Rattle.gw_er7.specs.View.{held_at};
ghost use Rattle.gw_er7.specs.own.Spans.{AreOf, long_span};

use crate::spans::{LongSpan, MessageSpans, ShortSpan, Store, TextSpan, Width};
use crate::view::Value;
use std::marker::Model;

/// Borrowed texts at places: the spans from one number up to another, and the bytes in which their texts lie.
/// Where they are in 12 bytes each, or in 16, they are kept as a slice too: so one is found by one test, or two.
#[derive(Drop)]
pub(crate) struct Values<'a> {
    spans: &'a MessageSpans,
    short: &'a [ShortSpan],
    long: &'a [LongSpan],
    bytes: &'a [u8],
    from: usize,
    to: usize,
}

impl<'a> Model for Values<'a> {
    ghost use Rattle.std.specs.Prelude.{List};
    ghost use Rattle.std.specs.Coded.{coded_list};
    ghost use Rattle.gw_er7.specs.View.{Held, held_code, held, between};
    ghost use Rattle.gw_er7.specs.own.Borrowed.{AreBorrowed};

    ghost Value = { List Held };

    ghost coded = { coded_list held_code };

    ghost view = { λ v. between v.from v.to (held v.bytes.now v.spans.now) };

    ghost invariant = { λ v. AreBorrowed v.bytes.now v.from v.to v.short.now v.long.now v.spans.now };
}

// The text to which a span points.
#[inline(always)]
fn text_at(bytes: &[u8], span: TextSpan) -> Value<'_>
    requires { span.from + span.len ≤ length bytes.now }
    ensures { record { place = result.place; text = result.text.now } ≡ held_at bytes.now span }
{
    Value {
        place: span.place,
        text: &bytes[span.from..span.from + span.len],
    }
}

// The spans from one number up to another, where they are in 16 bytes; else none.
#[inline(always)]
fn long_between(spans: &MessageSpans, from: usize, to: usize) -> &[LongSpan]
    requires { from ≤ to }
    ensures { AreOf long_span from to result.now spans.now }
{
    match spans.wider() {
        Some(others) => others.narrow_between(from, to),
        None => &[],
    }
}

impl<'a> Values<'a> {
    ghost use Rattle.std.specs.Prelude.{◌≡◌, ◌<◌, ◌≤◌, length, slice_index_or, MatchOption};
    ghost use Rattle.gw_er7.specs.View.{Held, held, between, AreWithin};
    ghost use Rattle.gw_er7.specs.own.Borrowed.{IsNumbered};

    /// The texts that the spans from one number up to another say of these bytes.
    pub(crate) fn of(spans: &'a MessageSpans, bytes: &'a [u8], from: usize, to: usize) -> Values<'a>
        requires { AreWithin bytes.now from to spans.now }
        ensures { result ≡ between from to (held bytes.now spans.now) }
    {
        Values {
            spans,
            short: spans.narrow_between(from, to),
            long: long_between(spans, from, to),
            bytes,
            from,
            to,
        }
    }

    /// The same texts, borrowed once more.
    pub(crate) fn reborrow(&self) -> Values<'a>
        ensures { result ≡ self.now }
    {
        Values {
            spans: self.spans,
            short: self.short,
            long: self.long,
            bytes: self.bytes,
            from: self.from,
            to: self.to,
        }
    }

    #[inline(always)]
    pub(crate) fn len(&self) -> usize
        ensures { result ≡ length self.now }
    {
        self.to - self.from
    }

    /// The text of this number, from 0, with its place.
    #[inline(always)]
    pub(crate) fn at(&self, i: usize) -> Value<'a>
        requires { i < length self.now }
        ensures { (other : Held) → slice_index_or self.now i other ≡ record { place = result.place; text = result.text.now } }
    {
        let spans = self.spans;
        text_at(self.bytes, spans.at(self.from + i))
    }

    // As `at`, of spans that are kept as no slice: few messages have them.
    #[cold]
    #[inline(never)]
    fn far(&self, i: usize) -> Value<'a>
        requires { i < length self.now }
        ensures { (other : Held) → slice_index_or self.now i other ≡ record { place = result.place; text = result.text.now } }
    {
        self.at(i)
    }

    /// The text of this number, from 0, with its place, where there is one.
    #[inline(always)]
    pub(crate) fn get(&self, i: usize) -> Option<Value<'a>>
        ensures { MatchOption result (length self.now ≤ i) (λ value. IsNumbered self.now i (record { place = value.place; text = value.text.now })) }
    {
        if i < self.short.len() {
            return Some(text_at(self.bytes, self.short[i].widened()));
        }
        if i < self.long.len() {
            return Some(text_at(self.bytes, self.long[i].widened()));
        }
        if i >= self.len() {
            return None;
        }
        Some(self.far(i))
    }
}
