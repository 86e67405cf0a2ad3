//! Tables of values.
ghost use Rattle.std.specs.Prelude.{◌≡◌, ◌++◌, ◌∷◌, [], map, not, true, IfOk, if◌then◌else◌, None, Some};
ghost use Rattle.gw_profile.specs.Fault.{is_among, has_repeat};
ghost use Rattle.gw_profile.specs.Seen.{now_all};

use crate::near::NearValues;
use indexmap::IndexSet;
use std::alloc::{AllocError, Global};
use std::marker::Model;

/// The values of a table, in order and each once. A value is looked up where it most likely lies, then by its hash.
#[derive(Drop)]
pub struct Table {
    pub(crate) values: IndexSet<Vec<u8>>,
    near: NearValues,
}

impl Model for Table {
    ghost use Rattle.std.specs.Prelude.{ℕ, List, map};

    ghost Value = { List (List ℕ) };

    ghost view = { λ t. map (λ v. v.items) t.values.keys };
}

// Appends a copy of the value, if it is new; whether it was.
fn put(alloc: Global, values: &mut IndexSet<Vec<u8>>, value: &[u8]) -> Result<bool, AllocError>
    ensures new { IfOk result (λ new. new ≡ not (is_among value.now (map (λ v. v.items) values.old.keys))) }
    ensures put { IfOk result (λ new. new ≡ true → map (λ v. v.items) values.new.keys ≡ map (λ v. v.items) values.old.keys ++ value.now ∷ []) }
{
    let copy = Vec::from_slice(alloc, value)?;
    let new = values.insert(copy)?;
    Ok(new)
}

impl Table {
    /// The table of these values; `None` if one occurs twice.
    pub(crate) fn of(alloc: Global, values: &[&[u8]]) -> Result<Option<Table>, AllocError>
        ensures { IfOk result (λ made. made ≡ (if has_repeat (now_all values.now) then None else Some (now_all values.now))) }
    {
        let mut held = IndexSet::new(alloc);
        for value in values {
            if !put(alloc, &mut held, value)? {
                return Ok(None);
            }
        }
        let near = NearValues::of(held.as_slice());
        Ok(Some(Table { values: held, near }))
    }

    /// Whether this is one of the values. It takes no memory.
    pub fn contains(&self, value: &[u8]) -> bool
        ensures { result ≡ is_among value.now self.now }
    {
        if self.near.has(self.values.as_slice(), value) {
            return true;
        }
        self.has_by_hash(value)
    }

    // Seldom reached: by a value that isn't in the table, or that another one hides.
    #[cold]
    #[inline(never)]
    fn has_by_hash(&self, value: &[u8]) -> bool
        ensures { result ≡ is_among value.now self.now }
    {
        self.values.contains(value)
    }

    /// The values, in order. It takes no memory.
    pub fn values(&self) -> &[Vec<u8>]
        ensures { map (λ v. v.items) result.now ≡ self.now }
    {
        self.values.as_slice()
    }
}
