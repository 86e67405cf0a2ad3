//! What a gateway shows of itself over HTTP: a page, its metrics and its health, from figures that are given as a value.
//!
//! [`answer()`] answers one request of a connection: `/` by [`page`], `/metrics` by [`metrics`], `/health` by [`health`].
//! [`status`] and [`status_json`] say the same figures in a terminal. [`Recent`] keeps the last refusals for them.
#![tactic(auto)]

mod connections;
mod exposition;
mod figure;
mod figures;
mod html;
mod parts;
mod place;
mod recent;
mod samples;
mod site;
mod state;
mod texts;
mod wellness;

pub use connections::answer;
pub use exposition::metrics;
pub use figures::{Figures, Receiver, Refusal, Refused};
pub use html::page;
pub use place::Place;
pub use recent::{Recent, Seen};
pub use site::Site;
pub use state::{status, status_json};
pub use wellness::{health, is_well};
