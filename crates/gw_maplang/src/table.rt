//! Tables of a map.
ghost use Rattle.std.specs.Prelude.{◌≡◌, ◌++◌, ◌∷◌, [], map, OnOk, None, Some, false};
ghost use Rattle.gw_maplang.specs.Fault.{is_among};
ghost use Rattle.gw_maplang.specs.Shapes.{row_of, second_of};
ghost use Rattle.gw_maplang.specs.Seen.{row, now};

use indexmap::IndexMap;
use std::alloc::{AllocError, Global};
use std::marker::Model;

/// A table: rows in order, each first value once, and the value of its `else` line for all others. A value is looked up by its hash.
#[derive(Drop)]
pub struct Table {
    pub(crate) rows: IndexMap<Vec<u8>, Vec<u8>>,
    pub(crate) other: Option<Vec<u8>>,
}

impl Model for Table {
    ghost use Rattle.std.specs.Prelude.{map};
    ghost use Rattle.gw_maplang.specs.Shapes.{Rows};
    ghost use Rattle.gw_maplang.specs.Seen.{row, items_of};

    ghost Value = { Rows };

    ghost view = { λ t. record { rows = map row t.rows.entries; other = items_of t.other } };
}

impl Table {
    /// A table without rows.
    pub(crate) fn new(alloc: Global) -> Table
        ensures { result ≡ record { rows = []; other = None } }
    {
        Table {
            rows: IndexMap::new(alloc),
            other: None,
        }
    }

    /// Appends a new row.
    pub(crate) fn put_row(
        &mut self,
        alloc: Global,
        first: &[u8],
        second: &[u8],
    ) -> Result<(), AllocError>
        requires { is_among first.now (map (λ r. r.first) self.old.rows) ≡ false }
        ensures { OnOk result (self.new ≡ record { rows = self.old.rows ++ row_of first.now second.now ∷ []; other = self.old.other }) }
    {
        let first = Vec::from_slice(alloc, first)?;
        let second = Vec::from_slice(alloc, second)?;
        self.rows.insert(first, second)?;
        Ok(())
    }

    /// Sets the value of the `else` line.
    pub(crate) fn put_other(&mut self, alloc: Global, value: &[u8]) -> Result<(), AllocError>
        ensures { OnOk result (self.new ≡ record { rows = self.old.rows; other = Some value.now }) }
    {
        let value = Vec::from_slice(alloc, value)?;
        self.other = Some(value);
        Ok(())
    }

    /// The rows, in order. It takes no memory.
    pub fn rows(&self) -> &IndexMap<Vec<u8>, Vec<u8>>
        ensures { map row result.now.entries ≡ self.now.rows }
    {
        &self.rows
    }

    /// The value of the `else` line, for values without a row. It takes no memory.
    pub fn other(&self) -> Option<&[u8]>
        ensures { now result ≡ self.now.other }
    {
        match &self.other {
            None => None,
            Some(value) => Some(value.as_slice()),
        }
    }

    /// The second value of the row of this value. It takes no memory.
    pub fn second(&self, value: &[u8]) -> Option<&[u8]>
        ensures { now result ≡ second_of value.now self.now.rows }
    {
        match self.rows.get(value) {
            None => None,
            Some(second) => Some(second.as_slice()),
        }
    }
}
