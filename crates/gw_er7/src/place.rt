//! Places of a segment: field, repetition, component, subcomponent.

/// A place of a segment; each number counts from 1.
#[derive(Clone, Copy, Debug, PartialEq, Eq)]
pub struct Place {
    pub field: usize,
    pub rep: usize,
    pub comp: usize,
    pub sub: usize,
}
