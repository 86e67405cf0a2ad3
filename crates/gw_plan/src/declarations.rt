//! The profiles and maps that a plan has declared so far, by name.
ghost use Rattle.std.specs.Prelude.{◌≡◌, IfOk, IfSome, OnOk, OnErr};
ghost use Rattle.std.specs.Arc.{arc_value};
ghost use Rattle.std.specs.Option.{option_map};
ghost use Rattle.gw_profile.specs.Seen.{profile_value};
ghost use Rattle.gw_plan.specs.Declarations.{empty, with_profile, with_map, profiles_of, maps_of, named_profile, named_map, IsBetween, IsNewProfile, IsNewMap, BeginsAt};
ghost use Rattle.gw_plan.specs.Held.{map_between};

use gw_check::{Between, CheckedMap};
use gw_maplang::Map;
use gw_profile::Profile;
use indexmap::IndexMap;
use std::alloc::{AllocError, Global};
use std::marker::Model;
use std::sync::Arc;

/// The names of a source and of a target.
type Names = (Vec<u8>, Vec<u8>);

/// The profiles and maps that a plan has declared so far, in order. Each map's source is one of the profiles.
/// Maps between the same two profiles share what is found of these.
pub(crate) struct Declarations {
    profiles: IndexMap<Vec<u8>, Arc<Profile>>,
    maps: IndexMap<Vec<u8>, Arc<CheckedMap>>,
    between: IndexMap<Names, Between>,
}

// Written out, so that what holds one is dropped by a call.
impl Drop for Declarations {
    fn drop(self) {
        let Declarations {
            profiles: _,
            maps: _,
            between: _,
        } = self;
    }
}

impl Model for Declarations {
    ghost use Rattle.std.specs.Coded.{codes};
    ghost use Rattle.std.specs.Prelude.{map};
    ghost use Rattle.std.specs.Arc.{arc_value};
    ghost use Rattle.gw_profile.specs.contracts.node.Node as node;
    ghost use Rattle.gw_maplang.specs.contracts.item.Item as raw_item;
    ghost use Rattle.gw_resolve.specs.contracts.resolved.Item as item;
    ghost use Rattle.gw_plan.specs.Declarations.{DeclarationsHeld, AreDeclared};

    ghost Value = { DeclarationsHeld };

    ghost coded = { Prim.hlevel (codes, node.the_row.coded, raw_item.the_row.coded, item.the_row.coded) };

    ghost view = { λ a. record { profiles = map (λ e. arc_value e.1) a.profiles.entries; maps = map (λ e. arc_value e.1) a.maps.entries } };

    ghost invariant = { λ a. AreDeclared
        (map (λ e. (e.0.items, arc_value e.1)) a.profiles.entries)
        (map (λ e. (e.0.items, arc_value e.1)) a.maps.entries)
        a.between.entries };
}

// The names of the profiles that a map names.
fn names_of(alloc: Global, map: &Map) -> Result<Names, AllocError>
    ensures source { IfOk result (λ names. names.0.items ≡ map.now.source) }
    ensures target { IfOk result (λ names. names.1.items ≡ map.now.target) }
{
    let source = Vec::from_slice(alloc, map.source())?;
    Ok((source, Vec::from_slice(alloc, map.target())?))
}

impl Declarations {
    /// No declarations.
    pub(crate) fn new(alloc: Global) -> Declarations
        ensures { result ≡ empty }
    {
        Declarations {
            profiles: IndexMap::new(alloc),
            maps: IndexMap::new(alloc),
            between: IndexMap::new(alloc),
        }
    }

    /// The profile of this name. It takes no memory, and looks the name up by its hash.
    pub(crate) fn profile(&self, name: &[u8]) -> Option<&Arc<Profile>>
        ensures { option_map (λ p. profile_value (arc_value p.now)) result ≡ named_profile name.now (profiles_of self.now) }
    {
        self.profiles.get(name)
    }

    /// The map of this name. It takes no memory, and looks the name up by its hash.
    pub(crate) fn map(&self, name: &[u8]) -> Option<&Arc<CheckedMap>>
        ensures named { option_map (λ m. map_between (arc_value m.now)) result ≡ named_map name.now (maps_of self.now) }
        ensures source { IfSome result (λ m. BeginsAt (profiles_of self.now) (arc_value m.now)) }
    {
        self.maps.get(name)
    }

    /// Appends a profile. If an allocation fails, nothing changes.
    pub(crate) fn add_profile(
        &mut self,
        alloc: Global,
        profile: Arc<Profile>,
    ) -> Result<(), AllocError>
        requires { IsNewProfile self.old (arc_value profile) }
        ensures added { OnOk result (self.new ≡ with_profile self.old (arc_value profile)) }
        ensures kept { OnErr result (self.new ≡ self.old) }
    {
        let name = Vec::from_slice(alloc, profile.name())?;
        self.profiles.insert(name, profile)?;
        Ok(())
    }

    /// Appends a map. If an allocation fails, nothing changes.
    pub(crate) fn add_map(&mut self, alloc: Global, map: Arc<CheckedMap>) -> Result<(), AllocError>
        requires { IsNewMap self.old (arc_value map) }
        ensures added { OnOk result (self.new ≡ with_map self.old (arc_value map)) }
        ensures kept { OnErr result (self.new ≡ self.old) }
    {
        let name = Vec::from_slice(alloc, map.map().name())?;
        self.maps.insert(name, map)?;
        Ok(())
    }
    /// Takes what maps before have found of the two profiles that this one names, if there are any.
    pub(crate) fn take_between(
        &mut self,
        alloc: Global,
        map: &Map,
    ) -> Result<Option<Between>, AllocError>
        ensures found { IfOk result (λ o. IfSome o (IsBetween (profiles_of self.old) map.now.source map.now.target)) }
        ensures kept { self.new ≡ self.old }
    {
        let names = names_of(alloc, map)?;
        Ok(self.between.swap_remove(&names))
    }

    /// Keeps it for further maps between these profiles.
    pub(crate) fn keep_between(
        &mut self,
        alloc: Global,
        map: &Map,
        between: Between,
    ) -> Result<(), AllocError>
        requires { IsBetween (profiles_of self.old) map.now.source map.now.target between }
        ensures { self.new ≡ self.old }
    {
        let names = names_of(alloc, map)?;
        self.between.insert(names, between)?;
        Ok(())
    }
}
