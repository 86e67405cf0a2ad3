//! Where the texts of a message lie among its bytes.
//!
//! A text takes 12 bytes where the numbers of places fit 8 bits and the others 32, 16 where those fit 20 and these 24, else 48.
ghost use Rattle.std.specs.Prelude.{◌≡◌, ◌↔◌, ◌++◌, ◌<◌, ◌≤◌, length, map, IsTrue, OnOk};
ghost use Rattle.std.specs.List.{AllZip};
ghost use Rattle.std.specs.List.Sorted.{IsPermutation, IsSortedBy};
ghost use Rattle.std.specs.Ordering.{nat_cmp, is_lt};
ghost use Rattle.std.specs.Cmp.Lexicographic.{slice_cmp};
ghost use Rattle.gw_er7.specs.Message.{numbers};
ghost use Rattle.gw_er7.specs.own.Spans.{AreSortedFrom, lows, higher, low_of, middle_of, high_of};

use crate::place::Place;
use crate::search::compare_places;
use std::alloc::{AllocError, Global};
use std::cmp::Ordering;
use std::marker::Model;

/// Where the text at a place lies: `len` bytes from the byte `from`.
#[derive(Clone, Copy)]
pub(crate) struct TextSpan {
    pub(crate) place: Place,
    pub(crate) from: usize,
    pub(crate) len: usize,
}

/// The same in 12 bytes.
#[derive(Clone, Copy)]
pub(crate) struct ShortSpan {
    field: u8,
    rep: u8,
    comp: u8,
    sub: u8,
    from: u32,
    len: u32,
}

/// The same in 16 bytes.
#[derive(Clone, Copy)]
pub(crate) struct LongSpan {
    /// Where the text begins, with the numbers of the field and the repetition.
    from: u64,
    /// How many bytes it has, with the numbers of the component and the subcomponent.
    len: u64,
}

/// A width of spans: `said` is what one says, as a span of 48 bytes; the largest number of a place that fits is `farthest`, and of the others `largest`.
pub(crate) trait Width: Copy {
    ghost use Rattle.std.specs.Prelude.{◌≡◌, ◌↔◌, ℕ, IsTrue};
    ghost use Rattle.gw_er7.specs.declared.spans.TextSpan.{TextSpan};
    ghost use Rattle.gw_er7.specs.own.Spans.{IsUpTo};

    ghost said: { Self → TextSpan };

    ghost farthest: { ℕ };

    ghost largest: { ℕ };

    /// Whether the numbers of the span fit in this width.
    fn fits(span: TextSpan) -> bool
        ensures { IsTrue result ↔ IsUpTo farthest largest span };

    /// The span in this width.
    fn narrowed(span: TextSpan) -> Self
        requires { IsUpTo farthest largest span }
        ensures { said result ≡ span };

    fn widened(self) -> TextSpan
        ensures { result ≡ said self };
}

impl Width for ShortSpan {
    ghost use Rattle.std.specs.Prelude.{◌-◌, ◌^◌};
    ghost use Rattle.gw_er7.specs.own.Spans.{short_span};

    ghost said = { short_span };

    ghost farthest = { 2 ^ 8 - 1 };

    ghost largest = { 2 ^ 32 - 1 };

    #[inline(always)]
    fn fits(span: TextSpan) -> bool {
        (span.place.field <= u8::MAX as usize)
            & (span.place.rep <= u8::MAX as usize)
            & (span.place.comp <= u8::MAX as usize)
            & (span.place.sub <= u8::MAX as usize)
            & (span.from <= u32::MAX as usize)
            & (span.len <= u32::MAX as usize)
    }

    #[inline(always)]
    fn narrowed(span: TextSpan) -> ShortSpan {
        ShortSpan {
            field: span.place.field as u8,
            rep: span.place.rep as u8,
            comp: span.place.comp as u8,
            sub: span.place.sub as u8,
            from: span.from as u32,
            len: span.len as u32,
        }
    }

    #[inline(always)]
    fn widened(self) -> TextSpan {
        TextSpan {
            place: Place {
                field: self.field as usize,
                rep: self.rep as usize,
                comp: self.comp as usize,
                sub: self.sub as usize,
            },
            from: self.from as usize,
            len: self.len as usize,
        }
    }
}

/// Of three numbers in 64 bits the lowest has 24 bits, so it is below this.
const LOWS: u64 = 16_777_216;

/// Each of the two above it has 20 bits, so it is below this. A message of 1 MB has no place with a larger number.
const HIGHER: u64 = 1_048_576;

/// Three numbers in 64 bits.
#[inline(always)]
fn packed(low: usize, middle: usize, high: usize) -> u64
    requires low { low < lows }
    requires middle { middle < higher }
    requires high { high < higher }
    ensures low { low_of result ≡ low }
    ensures middle { middle_of result ≡ middle }
    ensures high { high_of result ≡ high }
{
    (high as u64 * HIGHER + middle as u64) * LOWS + low as u64
}

/// The lowest of three numbers in 64 bits.
#[inline(always)]
fn low(three: u64) -> usize
    ensures { result ≡ low_of three }
{
    (three % LOWS) as usize
}

/// The one above it.
#[inline(always)]
fn middle(three: u64) -> usize
    ensures { result ≡ middle_of three }
{
    (three / LOWS % HIGHER) as usize
}

/// The highest.
#[inline(always)]
fn high(three: u64) -> usize
    ensures { result ≡ high_of three }
{
    (three / LOWS / HIGHER) as usize
}

impl Width for LongSpan {
    ghost use Rattle.std.specs.Prelude.{◌-◌};
    ghost use Rattle.gw_er7.specs.own.Spans.{long_span, lows, higher};

    ghost said = { long_span };

    ghost farthest = { higher - 1 };

    ghost largest = { lows - 1 };

    #[inline(always)]
    fn fits(span: TextSpan) -> bool {
        (span.place.field < HIGHER as usize)
            & (span.place.rep < HIGHER as usize)
            & (span.place.comp < HIGHER as usize)
            & (span.place.sub < HIGHER as usize)
            & (span.from < LOWS as usize)
            & (span.len < LOWS as usize)
    }

    #[inline(always)]
    fn narrowed(span: TextSpan) -> LongSpan {
        LongSpan {
            from: packed(span.from, span.place.field, span.place.rep),
            len: packed(span.len, span.place.comp, span.place.sub),
        }
    }

    #[inline(always)]
    fn widened(self) -> TextSpan {
        TextSpan {
            place: Place {
                field: middle(self.from),
                rep: high(self.from),
                comp: middle(self.len),
                sub: high(self.len),
            },
            from: low(self.from),
            len: low(self.len),
        }
    }
}

/// The widest of all.
impl Width for TextSpan {
    ghost use Rattle.std.specs.Prelude.{◌-◌, ◌^◌};

    ghost said = { λ span. span };

    ghost farthest = { 2 ^ 64 - 1 };

    ghost largest = { 2 ^ 64 - 1 };

    fn fits(span: TextSpan) -> bool {
        true
    }

    fn narrowed(span: TextSpan) -> TextSpan {
        span
    }

    fn widened(self) -> TextSpan {
        self
    }
}

fn same_span(one: TextSpan, other: TextSpan) -> bool
    ensures { IsTrue result ↔ (one ≡ other) }
{
    one.place == other.place && one.from == other.from && one.len == other.len
}

fn same_spans<N: Width>(spans: &[N], others: &[N]) -> bool
    ensures { IsTrue result ↔ AllZip (λ a b. N.said a ≡ N.said b) spans.now others.now }
{
    if spans.len() != others.len() {
        return false;
    }
    for (i, span) in spans.iter().enumerate() {
        if !same_span(span.widened(), others[i].widened()) {
            return false;
        }
    }
    true
}

fn sort_spans<N: Width>(spans: &mut [N])
    ensures permutation { IsPermutation spans.old spans.new }
    ensures sorted { IsSortedBy (λ a b. is_lt (slice_cmp nat_cmp (numbers (N.said a).place) (numbers (N.said b).place))) spans.new }
{
    spans.sort_unstable_by(
        |a: &N, b: &N| -> Ordering
            ensures { result ≡ slice_cmp nat_cmp (numbers (N.said a.now).place) (numbers (N.said b.now).place) }
        { compare_places(a.widened().place, b.widened().place) },
    );
}

fn sort_spans_from<N: Width>(spans: &mut Vec<N>, first: usize)
    requires { first ≤ length spans.old.items }
    ensures { AreSortedFrom (λ l. (N.said l).place) first spans.old.items spans.new.items }
{
    let (_, tail) = spans.split_at_mut(first);
    sort_spans(tail);
}

/// Spans one behind the other, in whatever width: `spans` is what they say.
pub(crate) trait Store: Drop {
    ghost use Rattle.std.specs.Prelude.{◌≡◌, ◌<◌, ◌≤◌, ◌++◌, ◌∷◌, [], List, length, slice_index_or, IsTrue, OnOk, OnErr, IfOk};
    ghost use Rattle.gw_er7.specs.declared.spans.TextSpan.{TextSpan};
    ghost use Rattle.gw_er7.specs.own.Spans.{AreSortedFrom};

    ghost spans: { Self → List TextSpan };

    /// No span. It takes no memory.
    fn new(alloc: Global) -> Self
        ensures { spans result ≡ [] };

    /// No span, with capacity for `room` spans of the narrowest width.
    fn with_room(alloc: Global, room: usize) -> Result<Self, AllocError>
        ensures { IfOk result (λ made. spans made ≡ []) };

    /// Takes memory for `room` more spans of the narrowest width.
    fn take_room(&mut self, room: usize) -> Result<(), AllocError>
        ensures { spans self.new ≡ spans self.old };

    /// Puts a span behind the others.
    fn push(&mut self, span: TextSpan) -> Result<(), AllocError>
        ensures ok { OnOk result (spans self.new ≡ spans self.old ++ span ∷ []) }
        ensures err { OnErr result (spans self.new ≡ spans self.old) };

    /// Puts the spans from this number on in the order of their places. It takes no memory.
    fn sort_from(&mut self, first: usize)
        requires { first ≤ length (spans self.old) }
        ensures { AreSortedFrom (λ l. l.place) first (spans self.old) (spans self.new) };

    /// Gives back the memory that the spans don't take.
    fn fit(&mut self)
        ensures { spans self.new ≡ spans self.old };

    /// The same spans once more, in memory that fits them.
    fn copy(&self, alloc: Global) -> Result<Self, AllocError>
        ensures { IfOk result (λ copied. spans copied ≡ spans self.now) };

    /// Whether these are known to be the same spans: only those of one width are compared. It takes no memory.
    fn are_alike(&self, other: &Self) -> bool
        ensures { IsTrue result → spans self.now ≡ spans other.now };

    fn len(&self) -> usize
        ensures { result ≡ length (spans self.now) };

    /// The span of this number, from 0.
    fn at(&self, i: usize) -> TextSpan
        requires { i < length (spans self.now) }
        ensures { (other : TextSpan) → slice_index_or (spans self.now) i other ≡ result };
}

/// All in 48 bytes.
impl Store for Vec<TextSpan> {
    ghost spans = { λ v. v.items };

    fn new(alloc: Global) -> Vec<TextSpan> {
        Vec::new(alloc)
    }

    fn with_room(alloc: Global, room: usize) -> Result<Vec<TextSpan>, AllocError> {
        Ok(Vec::with_capacity(alloc, room)?)
    }

    fn take_room(&mut self, room: usize) -> Result<(), AllocError> {
        self.reserve(room)
    }

    fn push(&mut self, span: TextSpan) -> Result<(), AllocError> {
        self.push(span)?;
        Ok(())
    }

    fn sort_from(&mut self, first: usize) {
        sort_spans_from(self, first);
    }

    fn fit(&mut self) {
        self.shrink_to_fit();
    }

    fn copy(&self, alloc: Global) -> Result<Vec<TextSpan>, AllocError> {
        Ok(Vec::from_slice(alloc, self)?)
    }

    fn are_alike(&self, other: &Vec<TextSpan>) -> bool {
        same_spans(self, other)
    }

    fn len(&self) -> usize {
        self.len()
    }

    // Few messages have spans so wide, so walks over the others stay short.
    #[cold]
    #[inline(never)]
    fn at(&self, i: usize) -> TextSpan {
        self[i]
    }
}

/// Puts spans behind others, in their width.
fn widen_into<N: Width, L: Store>(others: &mut L, narrow: &[N]) -> Result<(), AllocError>
    ensures { OnOk result (L.spans others.new ≡ L.spans others.old ++ map N.said narrow.now) }
{
    for span in narrow {
        others.push(span.widened())?;
    }
    Ok(())
}

/// Spans in two widths: all are in the narrow one, or none is.
#[derive(Drop)]
pub(crate) struct Spans<N: Width, L: Store> {
    alloc: Global,
    narrow: Vec<N>,
    others: L,
}

impl<N: Width, L: Store> Model for Spans<N, L> {
    ghost use Rattle.std.specs.Prelude.{List};
    ghost use Rattle.std.specs.Coded.{coded_list};
    ghost use Rattle.gw_er7.specs.declared.spans.TextSpan.{TextSpan};
    ghost use Rattle.gw_er7.specs.own.Spans.{span_code, all_said, AreAlike};

    ghost Value = { List TextSpan };

    ghost coded = { coded_list span_code };

    ghost view = { λ l. all_said N.said l.narrow.items (L.spans l.others) };

    ghost invariant = { λ l. AreAlike l.narrow.items (L.spans l.others) };
}

impl<N: Width, L: Store> Spans<N, L> {
    ghost use Rattle.std.specs.Prelude.{◌≡◌, ◌≤◌, ◌++◌, ◌∷◌, [], IfSome, OnOk, OnErr};
    ghost use Rattle.gw_er7.specs.own.Spans.{AreOf};

    /// Puts a span behind the others that doesn't fit in the narrow width: none is narrow from now on.
    fn push_wide(&mut self, span: TextSpan) -> Result<(), AllocError>
        ensures ok { OnOk result (self.new ≡ self.old ++ span ∷ []) }
        ensures err { OnErr result (self.new ≡ self.old) }
    {
        if self.narrow.is_empty() {
            return self.others.push(span);
        }
        // (the narrow ones have capacity for a text in six bytes, and a text with its separator takes two)
        let room = self.narrow.capacity().saturating_mul(3);
        let mut others = L::with_room(self.alloc, room)?;
        widen_into(&mut others, &self.narrow)?;
        others.push(span)?;
        self.others = others;
        self.narrow = Vec::new(self.alloc);
        Ok(())
    }

    /// The spans from one number up to another, where all are narrow; else none.
    #[inline(always)]
    pub(crate) fn narrow_between(&self, from: usize, to: usize) -> &[N]
        requires { from ≤ to }
        ensures { AreOf N.said from to result.now self.now }
    {
        if to > self.narrow.len() {
            return &[];
        }
        &self.narrow[from..to]
    }

    /// The wider spans, where none is narrow.
    #[inline(always)]
    pub(crate) fn wider(&self) -> Option<&L>
        ensures { IfSome result (λ others. L.spans others.now ≡ self.now) }
    {
        if self.narrow.is_empty() {
            return Some(&self.others);
        }
        None
    }

    /// Puts a span behind the others, whatever its width.
    #[cold]
    #[inline(never)]
    fn push_any(&mut self, span: TextSpan) -> Result<(), AllocError>
        ensures ok { OnOk result (self.new ≡ self.old ++ span ∷ []) }
        ensures err { OnErr result (self.new ≡ self.old) }
    {
        if self.narrow.is_empty() && self.others.len() > 0 {
            return self.others.push(span);
        }
        if !N::fits(span) {
            return self.push_wide(span);
        }
        self.narrow.push(N::narrowed(span))?;
        Ok(())
    }

    /// As `push`, of a text in a segment that is long or isn't. In a long one the numbers of places may be large, so the wider spans are tried first.
    #[inline(always)]
    pub(crate) fn push_in(&mut self, span: TextSpan, is_long: bool) -> Result<(), AllocError>
        ensures ok { OnOk result (self.new ≡ self.old ++ span ∷ []) }
        ensures err { OnErr result (self.new ≡ self.old) }
    {
        if is_long && self.narrow.is_empty() && self.others.len() > 0 {
            return self.others.push(span);
        }
        self.push(span)
    }
}

impl<N: Width, L: Store> Store for Spans<N, L> {
    ghost spans = { λ spans. spans };

    fn new(alloc: Global) -> Spans<N, L> {
        Spans {
            alloc,
            narrow: Vec::new(alloc),
            others: L::new(alloc),
        }
    }

    fn with_room(alloc: Global, room: usize) -> Result<Spans<N, L>, AllocError> {
        let narrow = Vec::with_capacity(alloc, room)?;
        Ok(Spans {
            alloc,
            narrow,
            others: L::new(alloc),
        })
    }

    fn take_room(&mut self, room: usize) -> Result<(), AllocError> {
        self.narrow.reserve(room)
    }

    // Most spans are narrow, and there is room for them. For the others the span is put together anew: so its numbers stay in registers here.
    #[inline(always)]
    fn push(&mut self, span: TextSpan) -> Result<(), AllocError> {
        let len = self.narrow.len();
        if 0 < len && len < self.narrow.capacity() && N::fits(span) {
            self.narrow.push_reserved(N::narrowed(span));
            return Ok(());
        }
        let Place {
            field,
            rep,
            comp,
            sub,
        } = span.place;
        let place = Place {
            field,
            rep,
            comp,
            sub,
        };
        self.push_any(TextSpan {
            place,
            from: span.from,
            len: span.len,
        })
    }

    fn sort_from(&mut self, first: usize) {
        if self.narrow.is_empty() {
            self.others.sort_from(first);
        } else {
            sort_spans_from(&mut self.narrow, first);
        }
    }

    fn fit(&mut self) {
        self.narrow.shrink_to_fit();
        self.others.fit();
    }

    fn copy(&self, alloc: Global) -> Result<Spans<N, L>, AllocError> {
        let narrow = Vec::from_slice(alloc, &self.narrow)?;
        let others = self.others.copy(alloc)?;
        Ok(Spans {
            alloc,
            narrow,
            others,
        })
    }

    fn are_alike(&self, other: &Spans<N, L>) -> bool {
        same_spans(&self.narrow, &other.narrow) && self.others.are_alike(&other.others)
    }

    fn len(&self) -> usize {
        if self.narrow.is_empty() {
            return self.others.len();
        }
        self.narrow.len()
    }

    #[inline(always)]
    fn at(&self, i: usize) -> TextSpan {
        if i < self.narrow.len() {
            return self.narrow[i].widened();
        }
        self.others.at(i)
    }
}

/// The spans of a message: all in 12 bytes, in 16, or in 48.
pub(crate) type MessageSpans = Spans<ShortSpan, Spans<LongSpan, Vec<TextSpan>>>;
