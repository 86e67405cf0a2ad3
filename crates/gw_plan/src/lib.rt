//! Plans: which messages a gateway accepts, by which profiles, and what each receiver is sent.
#![tactic(auto)]

mod accepted;
mod conforming;
mod declarations;
mod draft;
mod fault;
mod fault_order;
mod form;
mod headers;
mod index;
mod inner;
mod inner_map;
mod inner_profile;
pub mod laws;
mod parse;
mod plan;
mod receivers;
mod route;
mod route_list;
mod senders;
mod translated;

pub use conforming::{Conforming, Refusal, admit};
pub use fault::PlanFault;
pub use plan::{Plan, Receiver};
pub use route::Route;
pub use translated::{Translated, translate_for};
