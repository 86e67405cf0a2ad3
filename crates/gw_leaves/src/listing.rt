//! The values of a table of the source, the shortest first.
ghost use Rattle.std.specs.Prelude.{◌≡◌, ◌&&◌, map, IfOk};
ghost use Rattle.std.specs.List.{list_any};
ghost use Rattle.gw_profile.specs.Lengths.{measure as measured};
ghost use Rattle.gw_leaves.specs.Texts.{items_all, rows_value};
ghost use Rattle.gw_leaves.specs.own.Comparisons as spec;

use crate::comparison::{fits, is_listed};
use gw_maplang::Table as Rows;
use gw_profile::{Count, Table, measure};
use std::alloc::{AllocError, Global};

/// Values, each behind its length.
pub(crate) type Listing = Vec<(u64, Vec<u8>)>;

// These values, each behind its length.
fn measured(alloc: Global, count: Count, texts: &[Vec<u8>]) -> Result<Listing, AllocError>
    ensures { IfOk result (λ made. map spec.sized made.items ≡ map (λ v. (measured count v.items, v.items)) texts.now) }
{
    let mut made = Vec::new(alloc);
    for text in texts {
        made.push((measure(count, text), Vec::from_slice(alloc, text)?))?;
    }
    Ok(made)
}

/// These values, the shortest first.
pub(crate) fn by_length(
    alloc: Global,
    count: Count,
    texts: &[Vec<u8>],
) -> Result<Listing, AllocError>
    ensures { IfOk result (λ made. spec.IsListing count (items_all texts.now) made.items) }
{
    let mut made = measured(alloc, count, texts)?;
    made.sort_unstable_by_key(|value| value.0);
    Ok(made)
}

fn has_row(rows: Option<&Rows>, text: &[u8]) -> bool
    ensures { result ≡ spec.is_rowed (rows_value rows.entry) text.now }
{
    rows.is_some_and(|rows| rows.second(text).is_some())
}

/// The length of the first of these values that has no row.
pub(crate) fn first_unrowed(rows: Option<&Rows>, values: &[(u64, Vec<u8>)]) -> Option<u64>
    ensures { result ≡ spec.first_length (spec.is_lacking (rows_value rows.entry)) values.now }
{
    for value in values {
        if !has_row(rows, value.1.as_slice()) {
            return Some(value.0);
        }
    }
    None
}

/// The length of the first of these values that isn't in the table.
pub(crate) fn first_unlisted(table: Option<&Table>, values: &[(u64, Vec<u8>)]) -> Option<u64>
    ensures { result ≡ spec.first_length (spec.is_missing (spec.some_values table.entry)) values.now }
{
    for value in values {
        if !is_listed(table, value.1.as_slice()) {
            return Some(value.0);
        }
    }
    None
}

/// Whether one of these texts that isn't longer has no row.
pub(crate) fn some_unrowed(
    count: Count,
    len: Option<u32>,
    rows: Option<&Rows>,
    texts: &[Vec<u8>],
) -> bool
    ensures { result ≡ list_any (λ v. spec.fits len (measured count v.items) && spec.is_lacking (rows_value rows.entry) v.items) texts.now }
{
    texts.iter().any(|text| fits(len, measure(count, text)) && !has_row(rows, text))
}
