//! What can stand at a source place, as far as the source's profile says.

use gw_profile::Count;

/// Whether a text stands there.
#[derive(Clone, Copy, Drop)]
pub enum Presence {
    Always,
    Maybe,
    Never,
}

/// Which texts can stand there, `""` aside.
#[derive(Drop)]
pub enum Values {
    /// Any text, by this count not longer than the length, where there is one.
    Any(Option<u32>, Count),
    /// One of these.
    Listed(Vec<Vec<u8>>),
}

/// What can stand at a place.
#[derive(Drop)]
pub struct Shape {
    pub presence: Presence,
    pub values: Values,
}
