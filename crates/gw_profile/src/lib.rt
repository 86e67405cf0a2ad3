//! Message profiles (HL7 v2.5.1 chapter 2, 2.12): their text form and their rules.
#![tactic(auto)]

mod build;
mod context;
mod fault;
mod form;
pub mod laws;
mod lengths;
mod level;
mod names;
mod near;
mod node;
mod numbered;
mod patterns;
mod profile;
mod reader;
mod rules;
mod same;
mod shape;
mod table;
mod text;
mod whole;

pub use fault::ProfileFault;
pub use lengths::measure;
pub use level::Level;
pub use node::{GroupNode, Node, SegNode};
pub use numbered::{comp_of, field_of, sub_of};
pub use patterns::expected;
pub use profile::Profile;
pub use rules::{add_first_names, is_optional};
pub use shape::{Card, CompShape, Count, FieldShape, SubShape, Usage};
pub use table::Table;
pub use text::parse;
