//! How texts are written.
ghost use Rattle.std.specs.Prelude.{◌≡◌, ◌-◌, ◌<◌, ◌++◌, ◌==◌, ◌&&◌, if◌then◌else◌, replicate, OnOk, IfOk, MatchResult};
ghost use Rattle.std.specs.Prelude.{T};
ghost use Rattle.std.specs.List.{AllByRecursion};
ghost use Rattle.std.specs.Ordering.{nat_cmp};
ghost use Rattle.std.specs.Cmp.Lexicographic.{slice_cmp};
ghost use Rattle.std.specs.FinMap.{is_sorted};
ghost use Rattle.gw_er7.specs.Message.{first_field, numbers, IsEntry};
ghost use Rattle.gw_er7.specs.View.{entries_of, placed};
ghost use Rattle.gw_er7.specs.Written.{fields_text, behind_separator, delimiters_text, closed_line};
ghost use Rattle.gw_er7.specs.own.Ordered.{IsOrdered};
ghost use Rattle.gw_er7.specs.own.Gaps.{levels, gaps};

use crate::checks::is_header;
use crate::place::Place;
use crate::values::Values;
use crate::view::Value;
use std::alloc::AllocError;

/// Writes the separators of a level that lead from one number to another.
fn write_gap(out: &mut Vec<u8>, separator: u8, from: usize, to: usize) -> Result<(), AllocError>
    ensures { OnOk result (out.new.items ≡ out.old.items ++ replicate (to - from) separator) }
{
    let mut number = from;
    while number < to {
        out.push(separator)?;
        number += 1;
    }
    Ok(())
}

fn start(same: bool, number: usize) -> usize
    ensures { result ≡ (if same then number else 1) }
{
    if same { number } else { 1 }
}

/// Writes the separators of a level, counted from 1 where the places differ above it; gives whether they are the same up to it.
fn write_level(
    out: &mut Vec<u8>,
    separator: u8,
    same: bool,
    from: usize,
    to: usize,
) -> Result<bool, AllocError>
    ensures same { IfOk result (λ still. still ≡ (same && (to == from))) }
    ensures gap { OnOk result (out.new.items ≡ out.old.items ++ replicate (to - (if same then from else 1)) separator) }
{
    write_gap(out, separator, start(same, from), to)?;
    if !same {
        return Ok(false);
    }
    Ok(to == from)
}

/// Writes the separators that lead from one place to another.
#[inline(always)]
fn write_gaps(out: &mut Vec<u8>, from: Place, to: Place) -> Result<(), AllocError>
    ensures { OnOk result (out.new.items ≡ out.old.items ++ gaps levels (numbers from) (numbers to)) }
{
    let field = write_level(out, b'|', true, from.field, to.field)?;
    let rep = write_level(out, b'~', field, from.rep, to.rep)?;
    let comp = write_level(out, b'^', rep, from.comp, to.comp)?;
    let _ = write_level(out, b'&', comp, from.sub, to.sub)?;
    Ok(())
}

/// Writes the fields of these texts, the first of which has this number: each text behind the separators that lead to it.
fn write_fields(out: &mut Vec<u8>, first: usize, values: &Values<'_>) -> Result<(), AllocError>
    requires from { 0 < first }
    requires ordered { IsOrdered first (entries_of values.now) }
    ensures { OnOk result (out.new.items ≡ out.old.items ++ fields_text first (entries_of values.now)) }
{
    let mut here = Place {
        field: first,
        rep: 1,
        comp: 1,
        sub: 1,
    };
    for i in 0..values.len() {
        let value = values.at(i);
        write_gaps(out, here, value.place)?;
        out.extend_from_slice(value.text)?;
        here = value.place;
    }
    Ok(())
}

/// Writes the fields of texts as `write_fields` does.
fn write_texts(out: &mut Vec<u8>, first: usize, texts: &[Value<'_>]) -> Result<(), AllocError>
    requires from { 0 < first }
    requires ordered { IsOrdered first (placed texts.now) }
    ensures { OnOk result (out.new.items ≡ out.old.items ++ fields_text first (placed texts.now)) }
{
    let mut here = Place {
        field: first,
        rep: 1,
        comp: 1,
        sub: 1,
    };
    for value in texts {
        write_gaps(out, here, value.place)?;
        out.extend_from_slice(value.text)?;
        here = value.place;
    }
    Ok(())
}

/// Writes a name, and in MSH the delimiters; gives the number of the first field behind them.
fn write_name(out: &mut Vec<u8>, name: [u8; 3]) -> Result<usize, AllocError>
    ensures { MatchResult result (λ first. (first ≡ first_field name) × (out.new.items ≡ out.old.items ++ (name ++ delimiters_text name))) (λ _. Unit {0}) }
{
    out.extend_from_slice(&name)?;
    if is_header(&name) {
        out.extend_from_slice(b"|^~\\&")?;
        return Ok(3);
    }
    Ok(1)
}

/// Writes the fields behind a separator, where there are some.
fn write_behind(out: &mut Vec<u8>, first: usize, values: &Values<'_>) -> Result<(), AllocError>
    requires from { 0 < first }
    requires ordered { IsOrdered first (entries_of values.now) }
    ensures { OnOk result (out.new.items ≡ out.old.items ++ behind_separator first (entries_of values.now)) }
{
    if values.len() == 0 {
        return Ok(());
    }
    out.push(b'|')?;
    write_fields(out, first, values)
}

/// Writes the fields of texts behind a separator, where there are some.
fn write_texts_behind(
    out: &mut Vec<u8>,
    first: usize,
    texts: &[Value<'_>],
) -> Result<(), AllocError>
    requires from { 0 < first }
    requires ordered { IsOrdered first (placed texts.now) }
    ensures { OnOk result (out.new.items ≡ out.old.items ++ behind_separator first (placed texts.now)) }
{
    if texts.is_empty() {
        return Ok(());
    }
    out.push(b'|')?;
    write_texts(out, first, texts)
}

/// Writes the line of a segment, and its end.
pub(crate) fn write_line(
    out: &mut Vec<u8>,
    name: [u8; 3],
    values: &Values<'_>,
) -> Result<(), AllocError>
    requires { IsOrdered (first_field name) (entries_of values.now) }
    ensures { OnOk result (out.new.items ≡ out.old.items ++ closed_line name (entries_of values.now)) }
{
    let first = write_name(out, name)?;
    write_behind(out, first, values)?;
    out.push(b'\r')?;
    Ok(())
}

/// Writes the line of a segment with these texts, which stand in order of place, and its end (chapter 2, 2.6).
/// The one error is an allocation failure; then the line may be there in part.
pub fn write_segment(
    out: &mut Vec<u8>,
    name: [u8; 3],
    texts: &[Value<'_>],
) -> Result<(), AllocError>
    requires sorted { T (is_sorted (slice_cmp nat_cmp) (placed texts.now)) }
    requires each { AllByRecursion (IsEntry (first_field name)) (placed texts.now) }
    ensures { OnOk result (out.new.items ≡ out.old.items ++ closed_line name (placed texts.now)) }
{
    let first = write_name(out, name)?;
    write_texts_behind(out, first, texts)?;
    out.push(b'\r')?;
    Ok(())
}
