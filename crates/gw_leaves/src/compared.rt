//! What is found of the tables of two profiles, whatever the map between them.
ghost use Rattle.std.specs.Prelude.{◌≡◌, IfOk, IfSome};
ghost use Rattle.std.specs.Arc.{arc_value};
ghost use Rattle.gw_profile.specs.Seen.{Contents};
ghost use Rattle.gw_maplang.specs.Seen.{now};
ghost use Rattle.gw_leaves.specs.own.Comparisons as spec;

use crate::comparison::{Comparison, Found, listed_in};
use crate::listing::{Listing, by_length};
use gw_profile::Profile;
use indexmap::IndexMap;
use std::alloc::{AllocError, Global};
use std::sync::Arc;

/// The table of the source whose texts are copied, and the table of the target with which they are compared, if one is named.
type Copied = (Vec<u8>, Option<Vec<u8>>);

/// What is found of the texts that maps copy from one profile to another, and the source's tables by their lengths.
pub struct Compared {
    alloc: Global,
    copies: IndexMap<Copied, Arc<Found>>,
    lists: IndexMap<Option<Vec<u8>>, Arc<Listing>>,
}

// (by hand, so that no crate above proves again how its fields are dropped)
impl Drop for Compared {
    fn drop(self) {
        let Compared {
            alloc: _,
            copies: _,
            lists: _,
        } = self;
    }
}

// A copy of a name, if there is one.
fn name_in(alloc: Global, name: Option<&[u8]>) -> Result<Option<Vec<u8>>, AllocError>
    ensures { IfOk result (λ copy. spec.name_of copy ≡ now name.entry) }
{
    match name {
        None => Ok(None),
        Some(name) => Ok(Some(Vec::from_slice(alloc, name)?)),
    }
}

// The tables of a comparison by their names, where texts of a table are copied.
fn copied(alloc: Global, comparison: Comparison<'_>) -> Result<Option<Copied>, AllocError>
    ensures { IfOk result (λ o. IfSome o (spec.IsCopyOf comparison.entry)) }
{
    let ((None, Some(listed)), name) = comparison else {
        return Ok(None);
    };
    let listed = Vec::from_slice(alloc, listed)?;
    Ok(Some((listed, name_in(alloc, name)?)))
}

impl Compared {
    /// Nothing is found so far.
    pub fn new(alloc: Global) -> Compared
        ensures { (source target : Contents) → spec.AreCompared source target result }
    {
        Compared {
            alloc,
            copies: IndexMap::new(alloc),
            lists: IndexMap::new(alloc),
        }
    }

    /// The allocator.
    pub fn alloc(&self) -> Global {
        self.alloc
    }

    /// The values of the source's table of this name, the shortest first: as they were listed, or as they are listed now, which is kept.
    pub(crate) fn listing(
        &mut self,
        source: &Profile,
        name: Option<&[u8]>,
    ) -> Result<Arc<Listing>, AllocError>
        requires { spec.AreLists source.now self.old.lists.entries }
        ensures lists { spec.AreLists source.now self.new.lists.entries }
        ensures copies { self.new.copies.entries ≡ self.old.copies.entries }
        ensures all { IfOk result (λ all. spec.IsListed source.now (now name.entry) (arc_value all).items) }
    {
        let key = name_in(self.alloc, name)?;
        if let Some(all) = self.lists.get(&key) {
            return Ok(Arc::try_clone(all)?);
        }
        let texts = listed_in(source, name);
        let values = by_length(self.alloc, source.count(), texts)?;
        let made = Arc::new(self.alloc, values)?;
        let kept = Arc::try_clone(&made)?;
        self.lists.insert(key, kept)?;
        Ok(made)
    }

    /// What is found by a comparison without rows, if that was kept.
    pub(crate) fn recalled(
        &self,
        comparison: Comparison<'_>,
    ) -> Result<Option<Arc<Found>>, AllocError>
        ensures { IfOk result (spec.IsRecalled self.now comparison.entry) }
    {
        let Some(key) = copied(self.alloc, comparison)? else {
            return Ok(None);
        };
        match self.copies.get(&key) {
            None => Ok(None),
            Some(found) => Ok(Some(Arc::try_clone(found)?)),
        }
    }

    /// Keeps what is found by a comparison, where that has no rows.
    pub(crate) fn keep(
        &mut self,
        comparison: Comparison<'_>,
        found: &Arc<Found>,
    ) -> Result<(), AllocError>
        ensures { spec.Keeps self.old self.new comparison.entry (arc_value found.now) }
    {
        let Some(key) = copied(self.alloc, comparison)? else {
            return Ok(());
        };
        let found = Arc::try_clone(found)?;
        self.copies.insert(key, found)?;
        Ok(())
    }
}
