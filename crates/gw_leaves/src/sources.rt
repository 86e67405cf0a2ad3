//! What the rules of a map can read.

use crate::context::MapContext;
use gw_profile::FieldShape;
use gw_resolve::ScopeNode;
use std::alloc::Global;

/// What allocates, the map with its profiles, the elements that are walked, the innermost last, and the source field whose repetition is walked, if one is.
#[derive(Clone, Copy)]
pub struct Sources<'p, 'm, 's, 'e, 'l> {
    pub alloc: Global,
    pub context: &'m MapContext<'p>,
    pub scope: &'s [ScopeNode<'e, 'l>],
    pub current: Option<&'e FieldShape>,
}
