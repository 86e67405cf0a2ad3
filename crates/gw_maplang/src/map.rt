//! Maps.
ghost use Rattle.std.specs.Prelude.{◌≡◌, map};
ghost use Rattle.std.specs.Option.{option_copied};
ghost use Rattle.gw_maplang.specs.Seen.{map_value, table, dropped};
ghost use Rattle.gw_maplang.specs.Shapes.{table_of};
ghost use Rattle.gw_maplang.specs.Lawful.{Lawful};

use crate::item::Item;
use crate::rule::Dropped;
use crate::table::Table;
use indexmap::IndexMap;
use std::marker::Model;

/// A map from messages of the profile `source` to messages of the profile `target`. It is lawful by its type.
pub struct Map {
    pub(crate) name: Vec<u8>,
    pub(crate) source: Vec<u8>,
    pub(crate) target: Vec<u8>,
    pub(crate) line: u32,
    pub(crate) tables: IndexMap<Vec<u8>, Table>,
    pub(crate) items: Vec<Item>,
    pub(crate) drops: Vec<Dropped>,
}

// Written out, so that no crate above proves again how its fields are dropped.
impl Drop for Map {
    fn drop(self) {
        let Map {
            name: _,
            source: _,
            target: _,
            line: _,
            tables: _,
            items: _,
            drops: _,
        } = self;
    }
}

impl Model for Map {
    ghost use Rattle.std.specs.Coded.{codes};
    ghost use Rattle.std.specs.Prelude.{map};
    ghost use Rattle.gw_maplang.specs.Seen.{Contents, table, dropped, all_items};
    ghost use Rattle.gw_maplang.specs.Lawful.{Lawful};
    ghost use Rattle.gw_maplang.specs.contracts.item.Item as item;

    ghost Value = { Contents };

    ghost coded = { Prim.hlevel (codes, item.the_row.coded) };

    ghost view = { λ m. record {
      name = m.name.items;
      source = m.source.items;
      target = m.target.items;
      line = m.line;
      tables = map table m.tables.entries;
      items = m.items.items;
      drops = map dropped m.drops.items;
    } };

    ghost invariant = { λ m. Lawful (record {
      name = m.name.items;
      source = m.source.items;
      target = m.target.items;
      line = m.line;
      tables = map table m.tables.entries;
      items = all_items m.items.items;
      drops = map dropped m.drops.items;
    }) };
}

impl Map {
    /// The name. It takes no memory.
    pub fn name(&self) -> &[u8]
        ensures { result.now ≡ self.now.name }
    {
        self.name.as_slice()
    }

    /// The name of the profile of the messages that it translates. It takes no memory.
    pub fn source(&self) -> &[u8]
        ensures { result.now ≡ self.now.source }
    {
        self.source.as_slice()
    }

    /// The name of the profile of the translations. It takes no memory.
    pub fn target(&self) -> &[u8]
        ensures { result.now ≡ self.now.target }
    {
        self.target.as_slice()
    }

    /// The number of its first line. It takes no memory.
    pub fn line(&self) -> u32
        ensures { result ≡ self.now.line }
    {
        self.line
    }

    /// The items at the top, in order. It takes no memory.
    pub fn items(&self) -> &[Item]
        ensures value { result.now ≡ self.now.items }
        ensures lawful { Lawful (map_value self.now) }
    {
        self.items.as_slice()
    }

    /// The `drop` lines, in order: what is left out on purpose. It takes no memory.
    pub fn drops(&self) -> &[Dropped]
        ensures { map dropped result.now ≡ self.now.drops }
    {
        self.drops.as_slice()
    }

    /// The tables, by their names and in order. It takes no memory.
    pub fn tables(&self) -> &IndexMap<Vec<u8>, Table>
        ensures { map table result.now.entries ≡ self.now.tables }
    {
        &self.tables
    }

    /// The table of this name. It takes no memory.
    pub fn table(&self, name: &[u8]) -> Option<&Table>
        ensures { option_copied result ≡ table_of name.now self.now.tables }
    {
        self.tables.get(name)
    }
}
