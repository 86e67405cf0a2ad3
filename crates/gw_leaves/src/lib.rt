//! What a source can give at a place, and what a field, a component or a subcomponent of the target asks there.
#![tactic(auto)]

mod compared;
mod comparison;
mod context;
mod count;
mod elements;
mod given;
mod known;
pub mod laws;
mod leaf;
mod listing;
mod lookup;
mod made;
mod making;
mod mark;
mod meeting;
mod parts;
mod places;
mod presence;
mod reached;
mod shape;
mod sources;
mod texts;
mod values;

pub use compared::Compared;
pub use comparison::values_of;
pub use context::MapContext;
pub use count::rule_count;
pub use known::rule_of;
pub use leaf::included;
pub use lookup::check_lookups;
pub use making::check_making;
pub use mark::field_mark;
pub use places::enter_if;
pub use reached::{check_condition, check_reached};
pub use shape::{Presence, Shape, Values};
pub use sources::Sources;
pub use values::is_forbidden;
