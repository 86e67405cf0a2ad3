//! Profiles.
ghost use Rattle.std.specs.Prelude.{◌≡◌, ◌↔◌, IsTrue, IfOk, map};
ghost use Rattle.std.specs.Option.{option_copied};
ghost use Rattle.gw_profile.specs.Names.{stands};
ghost use Rattle.gw_profile.specs.Seen.{profile_value, forest, table};
ghost use Rattle.gw_profile.specs.Value.{table_of};
ghost use Rattle.gw_profile.specs.WellFormed.{WellFormed};

use crate::names::names_of;
use crate::near::{NearNames, NearTables};
use crate::node::Node;
use crate::same::{same_count, same_nodes, same_tables};
use crate::shape::Count;
use crate::table::Table;
use indexmap::{IndexMap, IndexSet};
use std::alloc::{AllocError, Global};
use std::marker::Model;

/// A message profile: what its lengths count, its tables, its tree of segments and groups, and the names of its segments.
/// It is well formed by its type.
pub struct Profile {
    name: Vec<u8>,
    count: Count,
    tables: IndexMap<Vec<u8>, Table>,
    near: NearTables,
    nodes: Vec<Node>,
    names: IndexSet<[u8; 3]>,
    near_names: NearNames,
}

// Written out, so that no crate above proves again how its fields are dropped.
impl Drop for Profile {
    fn drop(self) {
        let Profile {
            name: _,
            count: _,
            tables: _,
            near: _,
            nodes: _,
            names: _,
            near_names: _,
        } = self;
    }
}

impl Model for Profile {
    ghost use Rattle.std.specs.Coded.{codes};
    ghost use Rattle.std.specs.Prelude.{map};
    ghost use Rattle.gw_profile.specs.Seen.{Contents, table};
    ghost use Rattle.gw_profile.specs.Kept.{IsKept};
    ghost use Rattle.gw_profile.specs.contracts.node.Node as node;

    ghost Value = { Contents };

    ghost coded = { Prim.hlevel (codes, node.the_row.coded) };

    ghost view = { λ p. record { name = p.name.items; count = p.count; tables = map table p.tables.entries; nodes = p.nodes.items } };

    ghost invariant = { λ p. IsKept (record { name = p.name.items; count = p.count; tables = map table p.tables.entries; nodes = p.nodes.items }) p.names };
}

impl Profile {
    /// The profile of these parts, which are well formed.
    pub(crate) fn of(
        alloc: Global,
        name: Vec<u8>,
        count: Count,
        tables: IndexMap<Vec<u8>, Table>,
        nodes: Vec<Node>,
    ) -> Result<Profile, AllocError>
        requires { WellFormed (record { name = name.items; count = count; tables = map table tables.entries; nodes = forest nodes.items }) }
        ensures { IfOk result (λ p. p ≡ record { name = name.items; count = count; tables = map table tables.entries; nodes = nodes.items }) }
    {
        let names = names_of(alloc, &nodes)?;
        let near = NearTables::of(&tables);
        let near_names = NearNames::of(names.as_slice());
        Ok(Profile {
            name,
            count,
            tables,
            near,
            nodes,
            names,
            near_names,
        })
    }

    /// The name. It takes no memory.
    pub fn name(&self) -> &[u8]
        ensures { result.now ≡ self.now.name }
    {
        self.name.as_slice()
    }

    /// What its lengths count. It takes no memory.
    pub fn count(&self) -> Count
        ensures { result ≡ self.now.count }
    {
        self.count
    }

    /// The nodes at the top, in order. It takes no memory.
    pub fn nodes(&self) -> &[Node]
        ensures value { result.now ≡ self.now.nodes }
        ensures formed { WellFormed (profile_value self.now) }
    {
        self.nodes.as_slice()
    }

    /// Whether a segment of this name is anywhere in the profile. It takes no memory. It looks where the name most likely lies, then by its
    /// hash.
    #[inline(always)]
    pub fn knows(&self, name: [u8; 3]) -> bool
        ensures { result ≡ stands (forest self.now.nodes) name }
    {
        if self.near_names.has(self.names.as_slice(), name) {
            return true;
        }
        self.knows_by_hash(name)
    }

    // Seldom reached: by a name that isn't in the profile, or that another one hides.
    #[cold]
    #[inline(never)]
    fn knows_by_hash(&self, name: [u8; 3]) -> bool
        ensures { result ≡ stands (forest self.now.nodes) name }
    {
        self.names.contains(&name)
    }

    /// The tables, by their names and in order. It takes no memory.
    pub fn tables(&self) -> &IndexMap<Vec<u8>, Table>
        ensures { map table result.now.entries ≡ self.now.tables }
    {
        &self.tables
    }

    /// The table of this name. It takes no memory.
    pub fn table(&self, name: &[u8]) -> Option<&Table>
        ensures { option_copied result ≡ table_of name.now self.now.tables }
    {
        if let Some(found) = self.near.find(&self.tables, name) {
            return Some(found);
        }
        self.tables.get(name)
    }

    /// Whether the two are one profile: the same name, count, tables and nodes. It takes no memory.
    pub fn same(&self, other: &Profile) -> bool
        ensures { IsTrue result ↔ (profile_value self.now ≡ profile_value other.now) }
    {
        if self.name != other.name {
            return false;
        }
        if !same_count(self.count, other.count) {
            return false;
        }
        if !same_tables(&self.tables, &other.tables) {
            return false;
        }
        same_nodes(&self.nodes, &other.nodes)
    }
}
