//! The files of a log in a folder of the operating system: each is named by its number.
#![tactic(auto)]

mod failure;
mod folder;
mod layer;
mod name;
mod opening;
mod shelf;
mod view;

pub use failure::{Asked, Failure, OpenFault};
pub use folder::RealFolder;
pub use name::{is_nearly_named, number_in, put_name};
pub use view::FolderView;
