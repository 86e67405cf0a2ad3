//! The segments and groups of a profile.

use crate::shape::{Card, FieldShape, Usage};

/// A segment.
#[derive(Drop)]
pub struct SegNode {
    pub name: [u8; 3],
    pub label: Vec<u8>,
    pub usage: Usage,
    pub card: Card,
    pub fields: Vec<FieldShape>,
}

/// A group of nodes.
#[derive(Drop)]
#[cycle(node)]
pub struct GroupNode {
    pub label: Vec<u8>,
    pub usage: Usage,
    pub card: Card,
    pub nodes: Vec<Node>,
}

/// A segment or a group of a profile.
#[derive(Drop)]
#[cycle(node)]
pub enum Node {
    Seg(SegNode),
    Group(GroupNode),
}
