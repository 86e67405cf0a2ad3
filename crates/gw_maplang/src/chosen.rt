//! The values of a condition.
ghost use Rattle.std.specs.Prelude.{IfOk, OnOk};
ghost use Rattle.gw_maplang.specs.Seen.{items_all};
ghost use Rattle.gw_maplang.specs.own.Finding as spec;

use indexmap::IndexSet;
use std::alloc::{AllocError, Global};
use std::marker::Model;

/// The values of a condition, in the order of its line. One is looked up by its hash.
pub struct ChosenValues {
    values: Vec<Vec<u8>>,
    found: IndexSet<Vec<u8>>,
}

// Written out, so that no crate above proves again how its fields are dropped.
impl Drop for ChosenValues {
    fn drop(self) {
        let ChosenValues {
            values: _,
            found: _,
        } = self;
    }
}

impl Model for ChosenValues {
    // (nothing of `Seen`, which speaks of conditions and so of this type)
    ghost use Rattle.std.specs.Prelude.{ℕ, List, map};
    ghost use Rattle.gw_maplang.specs.own.Finding.{AreFound};

    ghost Value = { List (List ℕ) };

    ghost view = { λ c. map (λ v. v.items) c.values.items };

    ghost invariant = { λ c. AreFound (map (λ v. v.items) c.values.items) (map (λ v. v.items) c.found.keys) };
}

// Adds a copy of a value.
fn add(alloc: Global, found: &mut IndexSet<Vec<u8>>, value: &[u8]) -> Result<(), AllocError>
    ensures { OnOk result (spec.IsAdded value.now (items_all found.old.keys) (items_all found.new.keys)) }
{
    found.insert(Vec::from_slice(alloc, value)?)?;
    Ok(())
}

// Copies of these values, each once.
fn found_of(alloc: Global, values: &[Vec<u8>]) -> Result<IndexSet<Vec<u8>>, AllocError>
    ensures { IfOk result (λ found. spec.AreFound (items_all values.now) (items_all found.keys)) }
{
    let mut found = IndexSet::new(alloc);
    for value in values {
        add(alloc, &mut found, value)?;
    }
    Ok(found)
}

impl ChosenValues {
    ghost use Rattle.std.specs.Prelude.{◌≡◌, IfOk};
    ghost use Rattle.gw_maplang.specs.Fault.{is_among};
    ghost use Rattle.gw_maplang.specs.Seen.{items_all};

    /// These values. The one error is allocation failure.
    pub fn of(alloc: Global, values: Vec<Vec<u8>>) -> Result<ChosenValues, AllocError>
        ensures { IfOk result (λ made. made ≡ items_all values.items) }
    {
        let found = found_of(alloc, &values)?;
        Ok(ChosenValues { values, found })
    }

    /// The values, in order. It takes no memory.
    pub fn values(&self) -> &[Vec<u8>]
        ensures { items_all result.now ≡ self.now }
    {
        self.values.as_slice()
    }

    /// Whether this is one of the values. It takes no memory.
    pub fn contains(&self, value: &[u8]) -> bool
        ensures { result ≡ is_among value.now self.now }
    {
        self.found.contains(value)
    }
}
