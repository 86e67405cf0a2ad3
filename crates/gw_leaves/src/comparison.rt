//! Texts of the source compared with tables of the target, whatever the length at which a place reads them.
ghost use Rattle.std.specs.Prelude.{◌≡◌, IfOk, OnOk, unwrap_or, option_map, map, []};
ghost use Rattle.gw_profile.specs.Fault.{is_among};
ghost use Rattle.gw_profile.specs.Value.{table_of as table_in};
ghost use Rattle.gw_maplang.specs.Seen.{now};
ghost use Rattle.gw_leaves.specs.Context.{context_of};
ghost use Rattle.gw_leaves.specs.Texts.{items_all, rows_value};
ghost use Rattle.gw_leaves.specs.own.Comparisons as spec;

use crate::leaf::table_named;
use crate::listing::{first_unlisted, first_unrowed};
use gw_maplang::{Map, Table as Rows};
use gw_profile::{Count, Profile, Table, measure};
use indexmap::IndexSet;
use std::alloc::{AllocError, Global};

/// Where texts are from: the table of the map in which they are looked up, and the table of the source that lists them.
pub(crate) type Origin<'a> = (Option<&'a [u8]>, Option<&'a [u8]>);

/// Where texts are from, and the table of the target with which they are compared, by its name.
pub(crate) type Comparison<'a> = (Origin<'a>, Option<&'a [u8]>);

/// Lengths of texts by the count of the source, each with that of what is given for it by the count of the target.
pub(crate) type Lengths = IndexSet<(u64, u64)>;

/// What is found by a comparison.
#[derive(Drop)]
pub(crate) struct Found {
    /// The lengths where what is given isn't in the table of the target; where that has a name, only the least.
    pub(crate) lengths: Lengths,
    /// The length of the shortest text that has no row, where texts are looked up.
    pub(crate) unrowed: Option<u64>,
}

/// Texts of a table of the source by their count, and the rows in which they are looked up.
#[derive(Clone, Copy)]
struct LookedUp<'a> {
    count: Count,
    rows: Option<&'a Rows>,
    listed: Option<&'a Table>,
}

// ---- what is asked

/// Whether a length isn't greater, where there is a greatest.
pub(crate) fn fits(len: Option<u32>, size: u64) -> bool
    ensures { result ≡ spec.fits len size }
{
    len.is_none_or(|len| size <= u64::from(len))
}

/// Whether there is a length, and it isn't greater.
pub(crate) fn is_within(len: Option<u32>, size: Option<u64>) -> bool
    ensures { result ≡ spec.is_within len size }
{
    match size {
        None => false,
        Some(size) => fits(len, size),
    }
}

fn exceeds(most: Option<u32>, size: u64) -> bool
    ensures { result ≡ spec.exceeds most size }
{
    most.is_none_or(|most| u64::from(most) < size)
}

/// Whether what is given for a text that isn't longer than the one is longer than the other, each where there is one.
pub(crate) fn some_length(lengths: &[(u64, u64)], len: Option<u32>, most: Option<u32>) -> bool
    ensures { result ≡ spec.some_length len most lengths.now }
{
    lengths
        .iter()
        .any(|pair| fits(len, pair.0) && exceeds(most, pair.1))
}

// ---- what is found

/// The values of the source's table of this name, none where it has no such table. It takes no memory.
pub fn values_of<'a>(source: &'a Profile, name: &[u8]) -> &'a [Vec<u8>]
    ensures { items_all result.now ≡ unwrap_or (table_in name.now source.now.tables) [] }
{
    match source.table(name) {
        None => &[],
        Some(table) => table.values(),
    }
}

/// The values of the source's table of this name, none where no name is said.
pub(crate) fn listed_in<'a>(source: &'a Profile, name: Option<&[u8]>) -> &'a [Vec<u8>]
    ensures { items_all result.now ≡ spec.values_named source.now.tables (now name.entry) }
{
    match name {
        None => &[],
        Some(name) => values_of(source, name),
    }
}

/// Whether the table has this text.
pub(crate) fn is_listed(table: Option<&Table>, text: &[u8]) -> bool
    ensures { result ≡ is_among text.now (spec.some_values table.entry) }
{
    table.is_some_and(|table| table.contains(text))
}

fn size_of(count: Option<Count>, text: &[u8]) -> u64
    ensures { result ≡ spec.size_of count text.now }
{
    count.map_or(0, |count| measure(count, text))
}

// The rows of this name, where texts are looked up in some.
fn looked_up<'a>(map: &'a Map, rows: Option<&[u8]>) -> Option<Option<&'a Rows>>
    ensures { option_map rows_value result ≡ option_map (spec.rows_named map.now.tables) (now rows.entry) }
{
    match rows {
        None => None,
        Some(name) => Some(map.table(name)),
    }
}

// A text as it is, or what the rows give for it.
fn given<'a>(rows: Option<Option<&'a Rows>>, text: &'a [u8]) -> Option<&'a [u8]>
    ensures { now result ≡ spec.given_by (option_map rows_value rows.entry) text.now }
{
    let Some(rows) = rows else {
        return Some(text);
    };
    let rows = rows?;
    match rows.second(text) {
        None => rows.other(),
        Some(second) => Some(second),
    }
}

// Adds the length of a text and that of what is given for it, where that isn't in the table.
fn add(
    lengths: &mut Lengths,
    to: Count,
    table: Option<&Table>,
    size: u64,
    text: Option<&[u8]>,
) -> Result<(), AllocError>
    ensures { OnOk result (spec.Adds to (spec.some_values table.entry) lengths.old.keys lengths.new.keys size (now text.entry)) }
{
    let Some(text) = text else {
        return Ok(());
    };
    if is_listed(table, text) {
        return Ok(());
    }
    lengths.insert((size, measure(to, text)))?;
    Ok(())
}

// Of these texts, as they are or by rows; where no count says how long they are, each is as short as one likes.
fn of_values(
    alloc: Global,
    count: Option<Count>,
    to: Count,
    table: Option<&Table>,
    rows: Option<Option<&Rows>>,
    texts: &[Vec<u8>],
) -> Result<Lengths, AllocError>
    ensures { IfOk result (λ made. spec.AreOfValues count to (spec.some_values table.entry) (option_map rows_value rows.entry) texts.now made.keys) }
{
    let mut made = IndexSet::new(alloc);
    for text in texts {
        let size = size_of(count, text);
        add(&mut made, to, table, size, given(rows, text))?;
    }
    Ok(made)
}

// What the rows give.
fn seconds_of(rows: &Rows) -> &[Vec<u8>]
    ensures { items_all result.now ≡ map (λ r. r.second) rows.now.rows }
{
    rows.rows().values().as_slice()
}

// Of all that the rows give.
fn of_rows(
    alloc: Global,
    to: Count,
    table: Option<&Table>,
    rows: Option<Option<&Rows>>,
) -> Result<Lengths, AllocError>
    ensures { IfOk result (λ made. spec.AreOfRows to (spec.some_values table.entry) (option_map rows_value rows.entry) made.keys) }
{
    let Some(found) = rows else {
        return Ok(IndexSet::new(alloc));
    };
    let Some(rows) = found else {
        return Ok(IndexSet::new(alloc));
    };
    let mut made = of_values(alloc, None, to, table, None, seconds_of(rows))?;
    add(&mut made, to, table, 0, rows.other())?;
    Ok(made)
}

// The texts that have a row.
fn firsts_of(rows: Option<&Rows>) -> &[Vec<u8>]
    ensures { items_all result.now ≡ map (λ r. r.first) (rows_value rows.entry).rows }
{
    match rows {
        None => &[],
        Some(rows) => rows.rows().keys().as_slice(),
    }
}

// What the rows give for all other texts.
fn other_of(rows: Option<&Rows>) -> Option<&[u8]>
    ensures { now result ≡ (rows_value rows.entry).other }
{
    rows?.other()
}

// Adds what the rows give for a text, where that is one of the source's table.
fn add_first(
    lengths: &mut Lengths,
    to: Count,
    table: Option<&Table>,
    texts: LookedUp<'_>,
    first: &[u8],
) -> Result<(), AllocError>
    ensures { OnOk result (spec.AddsFirstOf texts.entry to (spec.some_values table.entry) lengths.old.keys lengths.new.keys first.now) }
{
    if !is_listed(texts.listed, first) {
        return Ok(());
    }
    let size = measure(texts.count, first);
    add(lengths, to, table, size, given(Some(texts.rows), first))?;
    Ok(())
}

// Of those of these texts that are in the source's table, by rows.
fn of_firsts(
    alloc: Global,
    to: Count,
    table: Option<&Table>,
    texts: LookedUp<'_>,
    firsts: &[Vec<u8>],
) -> Result<Lengths, AllocError>
    ensures { IfOk result (λ made. spec.AreFirstsOf texts.entry to (spec.some_values table.entry) firsts.now made.keys) }
{
    let mut made = IndexSet::new(alloc);
    for first in firsts {
        add_first(&mut made, to, table, texts, first)?;
    }
    Ok(made)
}

// Of the source's table, by rows. Texts that have no row are given the same: the shortest of them stands for all.
fn of_looked_up(
    alloc: Global,
    to: Count,
    table: Option<&Table>,
    texts: LookedUp<'_>,
    values: &[(u64, Vec<u8>)],
) -> Result<Lengths, AllocError>
    requires { spec.IsListing texts.count (spec.some_values texts.listed) values.now }
    ensures { IfOk result (λ made. spec.AreAllOf texts.entry to (spec.some_values table.entry) made.keys) }
{
    let rows = texts.rows;
    let mut made = of_firsts(alloc, to, table, texts, firsts_of(rows))?;
    let Some(size) = first_unrowed(rows, values) else {
        return Ok(made);
    };
    add(&mut made, to, table, size, other_of(rows))?;
    Ok(made)
}

// Of these texts as they are, the shortest first: of the first that isn't in the table.
fn of_unlisted(
    alloc: Global,
    table: Option<&Table>,
    values: &[(u64, Vec<u8>)],
) -> Result<Lengths, AllocError>
    ensures { IfOk result (λ made. spec.AreUnlisted (spec.some_values table.entry) values.now made.keys) }
{
    let mut made = IndexSet::new(alloc);
    let Some(size) = first_unlisted(table, values) else {
        return Ok(made);
    };
    made.insert((size, 0))?;
    Ok(made)
}

// The lengths where what is given isn't in the table of the target.
fn lengths_of(
    alloc: Global,
    source: &Profile,
    target: &Profile,
    map: &Map,
    comparison: Comparison<'_>,
    values: &[(u64, Vec<u8>)],
) -> Result<Lengths, AllocError>
    requires { spec.IsListed source.now (now comparison.0.1) values.now }
    ensures { IfOk result (λ made. spec.IsCompared (context_of source.now target.now map.now) comparison.entry made.keys) }
{
    let ((rows, listed), name) = comparison;
    let (to, table) = (target.count(), table_named(target, name));
    let rows = looked_up(map, rows);
    let Some(listed) = listed else {
        return of_rows(alloc, to, table, rows);
    };
    let count = source.count();
    if let Some(rows) = rows {
        let listed = source.table(listed);
        let texts = LookedUp {
            count,
            rows,
            listed,
        };
        return of_looked_up(alloc, to, table, texts, values);
    }
    match name {
        None => of_values(
            alloc,
            Some(count),
            to,
            table,
            None,
            values_of(source, listed),
        ),
        Some(_) => of_unlisted(alloc, table, values),
    }
}

// The length of the shortest of these texts that has no row in the table of this name.
fn unrowed_of(map: &Map, name: Option<&[u8]>, values: &[(u64, Vec<u8>)]) -> Option<u64>
    ensures { result ≡ spec.unrowed_by map.now.tables (now name.entry) values.now }
{
    first_unrowed(map.table(name?), values)
}

/// What is found by a comparison, where these are the values of the source's table, the shortest first.
pub(crate) fn compare(
    alloc: Global,
    source: &Profile,
    target: &Profile,
    map: &Map,
    comparison: Comparison<'_>,
    values: &[(u64, Vec<u8>)],
) -> Result<Found, AllocError>
    requires { spec.IsListed source.now (now comparison.0.1) values.now }
    ensures { IfOk result (λ made. spec.IsFound (context_of source.now target.now map.now) comparison.entry made) }
{
    let lengths = lengths_of(alloc, source, target, map, comparison, values)?;
    let unrowed = unrowed_of(map, comparison.0.0, values);
    Ok(Found { lengths, unrowed })
}
