//! Checks maps before they run: the rules that keep a translation from failing, and from giving what its receiver refuses.
#![tactic(auto)]

mod accounted;
mod between;
mod checked;
mod elements;
mod failure;
mod field;
mod inside;
mod item_sites;
mod items;
pub mod laws;
mod level;
mod often;
mod origins;
mod overlooked;
mod reached;
mod rules;
mod segments;
mod site;
mod texts;

pub use accounted::FieldAt;
pub use between::Between;
pub use checked::CheckedMap;
pub use elements::{comp_at, field_at, sub_at};
pub use gw_leaves::{Presence, Shape, Values, included};
pub use gw_resolve::{Failure, FailureSite, Interval};
pub use item_sites::{site_at, sites};
pub use overlooked::SourceUse;
pub use rules::{CheckFault, Refusal, check, examine, failures};
pub use site::{ElementPath, Origin, Site};
pub use texts::{Taker, untaken};
