//! Maps from messages of one profile to messages of another.
#![tactic(auto)]

mod build;
mod chosen;
mod columns;
mod context;
mod fault;
mod form;
mod item;
mod itself;
mod map;
mod parts;
mod patterns;
mod reader;
mod rule;
mod table;
mod text;
mod whole;

pub use chosen::ChosenValues;
pub use fault::MapFault;
pub use form::is_kept;
pub use item::{AlwaysItem, FlatItem, FromItem, GroupItem, Item};
pub use itself::identity;
pub use map::Map;
pub use patterns::expected;
pub use rule::{
    Alternative, BuildRule, Condition, CopyRule, DateDigits, Dropped, FieldCondition, FieldPath,
    FirstRule, Leaf, LeafPlace, LeafRule, Ref, RepeatRule, Rule, Walk,
};
pub use table::Table;
pub use text::parse;
