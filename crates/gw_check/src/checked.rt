//! Maps that the rules allow.
use gw_maplang::Map;
use gw_profile::Profile;
use gw_resolve::Item;
use gw_validate::Tree;
use std::marker::Model;
use std::sync::Arc;

/// A map with the profiles of its source and its target. No rule fails, by its type.
pub struct CheckedMap {
    source: Arc<Profile>,
    target: Arc<Profile>,
    map: Map,
    items: Vec<Item>,
}

// (by hand, so that no crate above proves again how its fields are dropped)
impl Drop for CheckedMap {
    fn drop(self) {
        let CheckedMap {
            source: _,
            target: _,
            map: _,
            items: _,
        } = self;
    }
}

impl Model for CheckedMap {
    ghost use Rattle.std.specs.Coded.{codes};
    ghost use Rattle.std.specs.Arc.{arc_value};
    ghost use Rattle.gw_profile.specs.contracts.node.Node as node;
    ghost use Rattle.gw_maplang.specs.contracts.item.Item as raw_item;
    ghost use Rattle.gw_resolve.specs.contracts.resolved.Item as item;
    ghost use Rattle.gw_check.specs.Kept.{CheckedValue, IsChecked};

    ghost Value = { CheckedValue };

    ghost coded = { Prim.hlevel (codes, node.the_row.coded, raw_item.the_row.coded, item.the_row.coded) };

    ghost view = { λ c. record { source = arc_value c.source; target = arc_value c.target; map = c.map; items = c.items.items } };

    ghost invariant = { λ c. IsChecked (record { source = arc_value c.source; target = arc_value c.target; map = c.map; items = c.items.items }) };
}

impl CheckedMap {
    ghost use Rattle.std.specs.Prelude.{◌≡◌, ◌↔◌, IsTrue};
    ghost use Rattle.std.specs.Arc.{arc_value};
    ghost use Rattle.gw_profile.specs.Seen.{profile_value};
    ghost use Rattle.gw_check.specs.Kept.{IsChecked};

    /// The map of these parts.
    pub(crate) fn of(
        source: Arc<Profile>,
        target: Arc<Profile>,
        map: Map,
        items: Vec<Item>,
    ) -> CheckedMap
        requires { IsChecked (record { source = arc_value source; target = arc_value target; map = map; items = items.items }) }
        ensures { result ≡ record { source = arc_value source; target = arc_value target; map = map; items = items.items } }
    {
        CheckedMap {
            source,
            target,
            map,
            items,
        }
    }

    /// The profile of the messages that it takes. It takes no memory.
    pub fn source(&self) -> &Arc<Profile>
        ensures { arc_value result.now ≡ self.now.source }
    {
        &self.source
    }

    /// The profile of the messages that it gives. It takes no memory.
    pub fn target(&self) -> &Arc<Profile>
        ensures { arc_value result.now ≡ self.now.target }
    {
        &self.target
    }

    /// The map. It takes no memory.
    pub fn map(&self) -> &Map
        ensures { result.now ≡ self.now.map }
    {
        &self.map
    }

    /// The items without labels. It takes no memory.
    pub fn items(&self) -> &[Item]
        ensures value { result.now ≡ self.now.items }
        ensures checked { IsChecked self.now }
    {
        self.items.as_slice()
    }

    /// Whether the tree's profile is the map's source. It takes no memory.
    pub fn takes(&self, tree: &Tree) -> bool
        ensures { IsTrue result ↔ (profile_value tree.now.profile ≡ profile_value self.now.source) }
    {
        tree.profile().same(&self.source)
    }
}
