//! Copies of a segment's texts, as they are written.
ghost use Rattle.std.specs.Prelude.{◌≡◌, ◌-◌, ◌+◌, ◌++◌, ◌∷◌, [], replicate, List, IfOk, OnOk};
ghost use Rattle.std.specs.FinMap as texts;
ghost use Rattle.gw_er7.specs.Entries.{Entry};
ghost use Rattle.gw_er7.specs.Message.{numbers};
ghost use Rattle.gw_er7.specs.Written.{repetition_text};
ghost use Rattle.gw_er7.specs.own.Gaps.{gaps};
ghost use Rattle.gw_ack.specs.Headers.{first_repetition};
ghost use Rattle.gw_ack.specs.own.Kept.{marks, written_behind, Lies, IsReached};

use crate::header::Span;
use gw_er7::{Place, Segment, Value};
use std::alloc::AllocError;

/// Copies a text behind the others; gives where it lies.
pub(crate) fn copy_text(bytes: &mut Vec<u8>, text: &[u8]) -> Result<Span, AllocError>
    ensures lies { IfOk result (λ span. Lies bytes.new.items span text.now) }
    ensures behind { OnOk result (bytes.new.items ≡ bytes.old.items ++ text.now) }
{
    let span = Span {
        from: bytes.len(),
        len: text.len(),
    };
    bytes.extend_from_slice(text)?;
    Ok(span)
}

/// Writes the separators of a level that lead from one number to another.
fn push_times(out: &mut Vec<u8>, separator: u8, from: usize, to: usize) -> Result<(), AllocError>
    ensures { OnOk result (out.new.items ≡ out.old.items ++ replicate (to - from) separator) }
{
    let mut number = from;
    while number < to {
        out.push(separator)?;
        number += 1;
    }
    Ok(())
}

/// Writes the separators that lead from one text of a repetition to another.
fn push_gap(out: &mut Vec<u8>, from: Place, to: Place) -> Result<(), AllocError>
    ensures { OnOk result (out.new.items ≡ out.old.items ++ gaps marks (from.comp ∷ from.sub ∷ []) (to.comp ∷ to.sub ∷ [])) }
{
    if to.comp == from.comp {
        return push_times(out, b'&', from.sub, to.sub);
    }
    push_times(out, b'^', from.comp, to.comp)?;
    push_times(out, b'&', 1, to.sub)
}

/// Writes a text where it is of repetition 1 of the field; gives the place behind which the next one stands.
fn push_value(
    out: &mut Vec<u8>,
    here: Place,
    field: usize,
    value: Value<'_>,
) -> Result<Place, AllocError>
    ensures { (es : List Entry) → IfOk result (λ there.
        out.new.items ++ written_behind (there.comp ∷ there.sub ∷ []) (first_repetition field es)
        ≡ out.old.items ++ written_behind (here.comp ∷ here.sub ∷ []) (first_repetition field ((numbers value.entry.place, value.entry.text.now) ∷ es))) }
{
    if value.place.field != field {
        return Ok(here);
    }
    if value.place.rep != 1 {
        return Ok(here);
    }
    push_gap(out, here, value.place)?;
    out.extend_from_slice(value.text)?;
    Ok(value.place)
}

/// Writes repetition 1 of a field, from this text on; gives the number of the first text behind the field.
fn push_repetition(
    out: &mut Vec<u8>,
    from: usize,
    segment: &Segment<'_>,
    field: usize,
) -> Result<usize, AllocError>
    requires { IsReached field (texts.entries segment.now.at) from }
    ensures behind { OnOk result (out.new.items
        ≡ out.old.items ++ written_behind (1 ∷ 1 ∷ []) (first_repetition field (texts.entries segment.now.at))) }
    ensures next { IfOk result (λ next. IsReached (field + 1) (texts.entries segment.now.at) next) }
{
    let mut here = Place {
        field,
        rep: 1,
        comp: 1,
        sub: 1,
    };
    for i in from..segment.value_count() {
        let value = segment.value(i);
        if value.place.field > field {
            return Ok(i);
        }
        here = push_value(out, here, field, value)?;
    }
    Ok(segment.value_count())
}

/// Copies repetition 1 of a field, as it is written, behind the others; gives where it lies. `next` goes on to the first text behind the field.
pub(crate) fn copy_repetition(
    bytes: &mut Vec<u8>,
    next: &mut usize,
    segment: &Segment<'_>,
    field: usize,
) -> Result<Span, AllocError>
    requires { IsReached field (texts.entries segment.now.at) next.old }
    ensures lies { IfOk result (λ span. Lies bytes.new.items span (repetition_text (first_repetition field (texts.entries segment.now.at)))) }
    ensures behind { OnOk result (bytes.new.items
        ≡ bytes.old.items ++ repetition_text (first_repetition field (texts.entries segment.now.at))) }
    ensures next { OnOk result (IsReached (field + 1) (texts.entries segment.now.at) next.new) }
{
    // (its clause says what every segment keeps)
    let _values = segment.value_count();
    let from = bytes.len();
    let behind = push_repetition(bytes, *next, segment, field)?;
    *next = behind;
    let len = bytes.len() - from;
    Ok(Span { from, len })
}
