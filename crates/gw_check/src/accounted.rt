//! What a map accounts for in its source, looked up by hash.
ghost use Rattle.std.specs.Prelude.{◌≡◌, [], IfOk, OnOk, map};
ghost use Rattle.gw_check.specs.Reads as spec;
ghost use Rattle.gw_check.specs.Seen.{all_sites};
ghost use Rattle.gw_check.specs.Collected.{Accounts, Gains, no_field, no_element, has_field, has_element};
ghost use Rattle.gw_resolve.specs.Seen.{left_out as seen_drop};

use crate::site::{Origin, Site};
use gw_resolve::LeftOut;
use indexmap::IndexSet;
use std::alloc::{AllocError, Global};

/// A field of the segment at a position: the numbers of the nodes that lead to it, from the profile's top on and each from 0.
#[derive(PartialEq, Eq, Hash)]
pub struct FieldAt {
    pub at: Vec<usize>,
    pub field: u32,
}

// (by hand, so that no crate above proves again how its fields are dropped)
impl Drop for FieldAt {
    fn drop(self) {
        let FieldAt { at: _, field: _ } = self;
    }
}

/// The fields that are read or dropped by themselves, and the positions of the elements that are dropped with all that is in them.
#[derive(Drop)]
pub(crate) struct Accounted {
    pub(crate) alloc: Global,
    fields: IndexSet<FieldAt>,
    elements: IndexSet<Vec<usize>>,
}

fn add_field(known: &mut Accounted, at: &[usize], field: u32) -> Result<(), AllocError>
    ensures { OnOk result (Gains known.old known.new (spec.is_field at.now field) no_element) }
{
    let at = Vec::from_slice(known.alloc, at)?;
    known.fields.insert(FieldAt { at, field })?;
    Ok(())
}

fn add_element(known: &mut Accounted, at: &[usize]) -> Result<(), AllocError>
    ensures { OnOk result (Gains known.old known.new no_field (spec.is_element at.now)) }
{
    let at = Vec::from_slice(known.alloc, at)?;
    known.elements.insert(at)?;
    Ok(())
}

fn add_sites(known: &mut Accounted, sites: &[Site]) -> Result<(), AllocError>
    ensures { OnOk result (Gains known.old known.new (spec.is_read (all_sites [] sites.now)) no_element) }
{
    for site in sites {
        match &site.origin {
            Origin::Unsaid | Origin::Text(_) => continue,
            Origin::Read(from)
            | Origin::Repeated(from)
            | Origin::LookedUp(_, from)
            | Origin::Dated(_, from) => add_field(known, &from.at, from.field)?,
        }
    }
    Ok(())
}

fn add_drops(known: &mut Accounted, drops: &[LeftOut]) -> Result<(), AllocError>
    ensures { OnOk result (Gains known.old known.new (spec.drops_field (map seen_drop drops.now)) (spec.drops_element (map seen_drop drops.now))) }
{
    for dropped in drops {
        let Some(field) = dropped.field else {
            add_element(known, &dropped.steps)?;
            continue;
        };
        add_field(known, &dropped.steps, field)?;
    }
    Ok(())
}

impl Accounted {
    /// What these lines and drops account for.
    pub(crate) fn of(
        alloc: Global,
        sites: &[Site],
        drops: &[LeftOut],
    ) -> Result<Accounted, AllocError>
        ensures { IfOk result (λ known. Accounts known (all_sites [] sites.now) (map seen_drop drops.now)) }
    {
        let mut known = Accounted {
            alloc,
            fields: IndexSet::new(alloc),
            elements: IndexSet::new(alloc),
        };
        add_sites(&mut known, sites)?;
        add_drops(&mut known, drops)?;
        Ok(known)
    }

    /// Whether this field is read, or dropped by itself.
    pub(crate) fn has_field(&self, at: &[usize], field: u32) -> Result<bool, AllocError>
        ensures { IfOk result (λ b. b ≡ has_field self.now at.now field) }
    {
        let at = Vec::from_slice(self.alloc, at)?;
        Ok(self.fields.contains(&FieldAt { at, field }))
    }

    /// Whether the element at this position is dropped, with all that is in it. It takes no memory.
    pub(crate) fn has_element(&self, at: &[usize]) -> bool
        ensures { result ≡ has_element self.now at.now }
    {
        self.elements.contains(at)
    }
}
