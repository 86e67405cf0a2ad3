//! A map with its profiles, while it is checked.

use crate::compared::Compared;
use crate::comparison::{
    Comparison, Found, Origin, compare, is_within, listed_in, some_length, values_of,
};
use crate::listing::{Listing, by_length, some_unrowed};
use crate::meeting::add_items;
use gw_maplang::Map;
use gw_profile::{Level, Profile};
use gw_resolve::{Item, ScopeNode};
use indexmap::{IndexMap, IndexSet};
use std::alloc::{AllocError, Global};
use std::marker::Model;
use std::sync::Arc;

/// A map with its profiles, and what is found of the tables that it brings together.
pub struct MapContext<'a> {
    alloc: Global,
    source: &'a Profile,
    target: &'a Profile,
    map: &'a Map,
    known: IndexMap<Comparison<'a>, Arc<Found>>,
}

// (by hand, so that no crate above proves again how its fields are dropped)
impl<'a> Drop for MapContext<'a> {
    fn drop(self) {
        let MapContext {
            alloc: _,
            source: _,
            target: _,
            map: _,
            known: _,
        } = self;
    }
}

impl<'a> Model for MapContext<'a> {
    ghost use Rattle.std.specs.Coded.{codes};
    ghost use Rattle.gw_profile.specs.contracts.node.Node as node;
    ghost use Rattle.gw_maplang.specs.contracts.item.Item as raw_item;
    ghost use Rattle.gw_leaves.specs.own.Comparisons.{AreKept};
    ghost use Rattle.gw_leaves.specs.Context.{ContextValue, context_of};

    ghost Value = { ContextValue };

    ghost coded = { Prim.hlevel (codes, node.the_row.coded, raw_item.the_row.coded) };

    ghost view = { λ s. context_of s.source.now s.target.now s.map.now };

    ghost invariant = { λ s. AreKept (context_of s.source.now s.target.now s.map.now) s.known.entries };
}

impl<'a> MapContext<'a> {
    ghost use Rattle.std.specs.Prelude.{◌≡◌, IfOk};
    ghost use Rattle.gw_maplang.specs.Seen.{now};
    ghost use Rattle.std.specs.Arc.{arc_value};
    ghost use Rattle.gw_leaves.specs.own.Comparisons.{AreCompared, Asks, IsFound, IsListed, some_given, some_value_unrowed};
    ghost use Rattle.gw_leaves.specs.Context.{context_of};

    /// The map with its profiles, and what is found of the tables that its items bring together, where this is the level of the source's nodes.
    /// Copies of texts that were compared before aren't compared again, and those that weren't are kept. The one error is allocation failure.
    pub fn of(
        compared: &mut Compared,
        source: &'a Profile,
        target: &'a Profile,
        map: &'a Map,
        level: &'a Level<'_>,
        items: &'a [Item],
    ) -> Result<MapContext<'a>, AllocError>
        requires { AreCompared source.now target.now compared.old }
        ensures context { IfOk result (λ context. context ≡ context_of source.now target.now map.now) }
        ensures compared { AreCompared source.now target.now compared.new }
    {
        let alloc = compared.alloc();
        let context = MapContext {
            alloc,
            source,
            target,
            map,
            known: IndexMap::new(alloc),
        };
        let mut comparisons = IndexSet::new(alloc);
        let (scope, nodes) = ([ScopeNode::Whole(Some(level))], target.nodes());
        add_items(alloc, &mut comparisons, &context, &scope, nodes, items)?;
        context.knowing(compared, comparisons)
    }

    // The values of the source's table of this name, the shortest first. They are listed once for all maps between the two profiles.
    fn listing(
        &self,
        compared: &mut Compared,
        name: Option<&[u8]>,
    ) -> Result<Arc<Listing>, AllocError>
        requires { AreCompared self.now.source self.now.target compared.old }
        ensures compared { AreCompared self.now.source self.now.target compared.new }
        ensures all { IfOk result (λ all. IsListed self.now.source (now name.entry) (arc_value all).items) }
    {
        compared.listing(self.source, name)
    }

    // What is found by a comparison, where these are the values of the source's table, the shortest first.
    fn find(&self, comparison: Comparison<'_>, all: &[(u64, Vec<u8>)]) -> Result<Found, AllocError>
        requires { IsListed self.now.source (now comparison.0.1) all.now }
        ensures { IfOk result (λ found. IsFound self.now comparison.entry found) }
    {
        compare(
            self.alloc,
            self.source,
            self.target,
            self.map,
            comparison,
            all,
        )
    }

    // The same, where the source's table isn't listed.
    fn list_and_find(&self, comparison: Comparison<'_>) -> Result<Found, AllocError>
        ensures { IfOk result (λ found. IsFound self.now comparison.entry found) }
    {
        let texts = listed_in(self.source, comparison.0.1);
        let all = by_length(self.alloc, self.source.count(), texts)?;
        self.find(comparison, all.as_slice())
    }

    // What is found by a comparison: what was kept, or what is found now, which is kept where it depends on the profiles alone.
    fn recall_or_find(
        &self,
        compared: &mut Compared,
        comparison: Comparison<'a>,
    ) -> Result<Arc<Found>, AllocError>
        requires { AreCompared self.now.source self.now.target compared.old }
        ensures compared { AreCompared self.now.source self.now.target compared.new }
        ensures found { IfOk result (λ found. IsFound self.now comparison.entry (arc_value found)) }
    {
        if let Some(kept) = compared.recalled(comparison)? {
            return Ok(kept);
        }
        let all = self.listing(compared, comparison.0.1)?;
        let found = Arc::new(self.alloc, self.find(comparison, all.as_slice())?)?;
        compared.keep(comparison, &found)?;
        Ok(found)
    }

    // The same, with what is found by these comparisons.
    fn knowing(
        &self,
        compared: &mut Compared,
        comparisons: IndexSet<Comparison<'a>>,
    ) -> Result<MapContext<'a>, AllocError>
        requires { AreCompared self.now.source self.now.target compared.old }
        ensures context { IfOk result (λ s. s ≡ self.now) }
        ensures compared { AreCompared self.now.source self.now.target compared.new }
    {
        let mut known = IndexMap::with_capacity(self.alloc, comparisons.len())?;
        for comparison in comparisons {
            let found = self.recall_or_find(compared, comparison)?;
            known.insert(comparison, found)?;
        }
        Ok(MapContext {
            alloc: self.alloc,
            source: self.source,
            target: self.target,
            map: self.map,
            known,
        })
    }

    /// The source's profile. It takes no memory.
    pub fn source(&self) -> &'a Profile
        ensures { result.now ≡ self.now.source }
    {
        self.source
    }

    /// The target's profile. It takes no memory.
    pub fn target(&self) -> &'a Profile
        ensures { result.now ≡ self.now.target }
    {
        self.target
    }

    /// The map. It takes no memory.
    pub fn map(&self) -> &'a Map
        ensures { result.now ≡ self.now.map }
    {
        self.map
    }

    /// Whether a text that isn't longer than the length is given something that isn't in the target's table of this name, where one is named.
    /// Where there is a most, what is given is longer than that as well.
    pub(crate) fn some_given(
        &self,
        origin: Origin<'_>,
        name: Option<&[u8]>,
        len: Option<u32>,
        most: Option<u32>,
    ) -> Result<bool, AllocError>
        requires { Asks (now name) most }
        ensures { IfOk result (λ b. b ≡ some_given self.now (origin.entry, name.entry) len most) }
    {
        let comparison = (origin, name);
        if let Some(found) = self.known.get(&comparison) {
            return Ok(some_length(found.lengths.as_slice(), len, most));
        }
        let found = self.list_and_find(comparison)?;
        Ok(some_length(found.lengths.as_slice(), len, most))
    }

    /// Whether a text of the source's table that isn't longer than the length has no row in the table of the map.
    pub(crate) fn some_unrowed<'n>(
        &self,
        rows: &'n [u8],
        listed: &'n [u8],
        len: Option<u32>,
    ) -> bool
        ensures { result ≡ some_value_unrowed self.now rows.now listed.now len }
    {
        let origin: Origin<'n> = (Some(rows), Some(listed));
        let comparison: Comparison<'n> = (origin, None);
        if let Some(found) = self.known.get(&comparison) {
            return is_within(len, found.unrowed);
        }
        let (count, texts) = (self.source.count(), values_of(self.source, listed));
        some_unrowed(count, len, self.map.table(rows), texts)
    }
}
