//! Tables as their lines say them, and the tables that their columns are.
ghost use Rattle.std.specs.Prelude.{◌≡◌, ◌<◌, ◌++◌, [], map, IfOk, OnOk, None, false};
ghost use Rattle.std.specs.Option.{option_map};
ghost use Rattle.gw_maplang.specs.Among.{Distinct};
ghost use Rattle.gw_maplang.specs.Columns as spec;
ghost use Rattle.gw_maplang.specs.Fault.{is_among, is_said, wide_firsts};
ghost use Rattle.gw_maplang.specs.Lawful.{table_names};
ghost use Rattle.gw_maplang.specs.Seen.{now_all, items_all, table, wide_row, wide_table};
ghost use Rattle.gw_maplang.specs.own.Widths.{LawfulWide, LawfulWides, rows_with, other_with, wide_named};

use crate::parts::copies;
use crate::table::Table;
use indexmap::IndexMap;
use std::alloc::{AllocError, Global};
use std::marker::Model;

/// A table as its lines say it: how many columns it has (0 so far, if no line says it), each first value with one value for each column,
/// and the values of its `else` line.
#[derive(Drop)]
pub(crate) struct Wide {
    width: usize,
    rows: IndexMap<Vec<u8>, Vec<Vec<u8>>>,
    other: Option<Vec<Vec<u8>>>,
}

impl Model for Wide {
    ghost use Rattle.std.specs.Prelude.{map};
    ghost use Rattle.gw_maplang.specs.Columns.{WideRows};
    ghost use Rattle.gw_maplang.specs.Seen.{path_some, wide_row};

    ghost Value = { WideRows };

    ghost view = { λ t. record { width = t.width; rows = map wide_row t.rows.entries; other = path_some t.other } };
}

fn widened(width: usize, count: usize) -> usize
    ensures { result ≡ spec.widened width count }
{
    if width == 0 { count } else { width }
}

// The value in this column, from 0.
fn value_in(k: usize, values: &[Vec<u8>]) -> &[u8]
    ensures { result.now ≡ spec.value_in k (items_all values.now) }
{
    match values.get(k) {
        None => &[],
        Some(value) => value.as_slice(),
    }
}

// The rows of a column, from 0, as a table.
fn rows_in(
    alloc: Global,
    k: usize,
    rows: &IndexMap<Vec<u8>, Vec<Vec<u8>>>,
) -> Result<Table, AllocError>
    requires { Distinct (wide_firsts (map wide_row rows.now.entries)) }
    ensures { IfOk result (λ t. t ≡ record { rows = map (spec.row_in k) (map wide_row rows.now.entries); other = None }) }
{
    let mut table = Table::new(alloc);
    for i in 0..rows.len() {
        let Some((first, seconds)) = rows.get_index(i) else {
            return Ok(table);
        };
        table.put_row(alloc, first, value_in(k, seconds))?;
    }
    Ok(table)
}

impl Wide {
    /// A table without rows.
    pub(crate) fn new(alloc: Global) -> Wide
        ensures { result ≡ record { width = 0; rows = []; other = None } }
    {
        Wide {
            width: 0,
            rows: IndexMap::new(alloc),
            other: None,
        }
    }

    /// How many columns there are, 0 so far.
    pub(crate) fn width(&self) -> usize
        ensures { result ≡ self.now.width }
    {
        self.width
    }

    /// Whether there is a row of this value.
    pub(crate) fn has_row(&self, value: &[u8]) -> bool
        ensures { result ≡ is_among value.now (wide_firsts self.now.rows) }
    {
        self.rows.contains_key(value)
    }

    /// Whether there is an `else` line.
    pub(crate) fn has_other(&self) -> bool
        ensures { result ≡ is_said self.now.other }
    {
        self.other.is_some()
    }

    /// Appends a new row.
    pub(crate) fn put_row(
        &mut self,
        alloc: Global,
        first: &[u8],
        seconds: &[&[u8]],
    ) -> Result<(), AllocError>
        requires { is_among first.now (wide_firsts self.old.rows) ≡ false }
        ensures { OnOk result (self.new ≡ rows_with (spec.wide_row_of first.now (now_all seconds.now)) self.old) }
    {
        let width = widened(self.width, seconds.len());
        let first = Vec::from_slice(alloc, first)?;
        let seconds = copies(alloc, seconds)?;
        self.rows.insert(first, seconds)?;
        self.width = width;
        Ok(())
    }

    /// Sets the values of the `else` line.
    pub(crate) fn put_other(&mut self, alloc: Global, values: &[&[u8]]) -> Result<(), AllocError>
        ensures { OnOk result (self.new ≡ other_with (now_all values.now) self.old) }
    {
        let width = widened(self.width, values.len());
        let values = copies(alloc, values)?;
        self.other = Some(values);
        self.width = width;
        Ok(())
    }

    // A column, from 0, as a table of its own.
    fn column(&self, alloc: Global, k: usize) -> Result<Table, AllocError>
        requires { Distinct (wide_firsts self.now.rows) }
        ensures { IfOk result (λ t. t ≡ record { rows = map (spec.row_in k) self.now.rows; other = option_map (spec.value_in k) self.now.other }) }
    {
        let mut table = rows_in(alloc, k, &self.rows)?;
        match &self.other {
            None => Ok(table),
            Some(values) => {
                table.put_other(alloc, value_in(k, values))?;
                Ok(table)
            }
        }
    }
}

// The name of a column, from 0.
fn column_name(alloc: Global, name: &[u8], k: usize) -> Result<Vec<u8>, AllocError>
    requires { k < 9 }
    ensures { IfOk result (λ v. v.items ≡ spec.column_name name.now k) }
{
    let mut all = Vec::from_slice(alloc, name)?;
    all.push(b'.')?;
    all.push(b'1' + k as u8)?;
    Ok(all)
}

// With the columns of a table under their numbers.
fn with_numbered(
    alloc: Global,
    start: Vec<(Vec<u8>, Table)>,
    name: &[u8],
    wide: &Wide,
) -> Result<Vec<(Vec<u8>, Table)>, AllocError>
    requires { LawfulWide (wide_named name.now wide.now) }
    ensures { IfOk result (λ v. map table v.items ≡ map table start.items ++ spec.numbered wide.now.width (wide_named name.now wide.now)) }
{
    let mut all = start;
    for k in 0..wide.width() {
        let column = wide.column(alloc, k)?;
        let name = column_name(alloc, name, k)?;
        all.push((name, column))?;
    }
    Ok(all)
}

// With the tables of a map that a table is.
fn with_columns(
    alloc: Global,
    second: bool,
    start: Vec<(Vec<u8>, Table)>,
    name: &[u8],
    wide: &Wide,
) -> Result<Vec<(Vec<u8>, Table)>, AllocError>
    requires { LawfulWide (wide_named name.now wide.now) }
    ensures { IfOk result (λ v. map table v.items ≡ map table start.items ++ spec.columns second (wide_named name.now wide.now)) }
{
    let mut all = start;
    let column = wide.column(alloc, 0)?;
    let own = Vec::from_slice(alloc, name)?;
    all.push((own, column))?;
    if second {
        return with_numbered(alloc, all, name, wide);
    }
    Ok(all)
}

// The tables of a map, in order.
fn all_columns(
    alloc: Global,
    second: bool,
    tables: &IndexMap<Vec<u8>, Wide>,
) -> Result<Vec<(Vec<u8>, Table)>, AllocError>
    requires { LawfulWides (map wide_table tables.now.entries) }
    ensures { IfOk result (λ v. map table v.items ≡ spec.all_columns second (map wide_table tables.now.entries)) }
{
    let mut all = Vec::new(alloc);
    for i in 0..tables.len() {
        let Some((name, wide)) = tables.get_index(i) else {
            return Ok(all);
        };
        all = with_columns(alloc, second, all, name, wide)?;
    }
    Ok(all)
}

// The tables under their names.
fn by_names(
    alloc: Global,
    all: Vec<(Vec<u8>, Table)>,
) -> Result<IndexMap<Vec<u8>, Table>, AllocError>
    requires { Distinct (table_names (map table all.items)) }
    ensures { IfOk result (λ m. map table m.entries ≡ map table all.items) }
{
    let mut tables = IndexMap::new(alloc);
    let mut left = all;
    left.reverse();
    while let Some((name, table)) = left.pop() {
        tables.insert(name, table)?;
    }
    Ok(tables)
}

/// The tables of a map under their names: each table as its first column, and in the second language each column under its number too.
pub(crate) fn columns(
    alloc: Global,
    second: bool,
    tables: &IndexMap<Vec<u8>, Wide>,
) -> Result<IndexMap<Vec<u8>, Table>, AllocError>
    requires { LawfulWides (map wide_table tables.now.entries) }
    ensures { IfOk result (λ m. map table m.entries ≡ spec.all_columns second (map wide_table tables.now.entries)) }
{
    let all = all_columns(alloc, second, tables)?;
    by_names(alloc, all)
}
