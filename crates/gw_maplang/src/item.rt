//! The items of a map: what it makes of the segments and groups of a message.

use crate::rule::{Rule, Walk};

/// `segment LABEL from PATH`: one segment of the target for each occurrence that is walked.
#[derive(Drop)]
pub struct FromItem {
    pub line: u32,
    pub label: Vec<u8>,
    pub walk: Walk,
    pub rules: Vec<Rule>,
}

/// `segment LABEL always`: one segment of the target.
#[derive(Drop)]
pub struct AlwaysItem {
    pub line: u32,
    pub label: Vec<u8>,
    pub rules: Vec<Rule>,
}

/// `group LABEL each PATH`: one group of the target for each occurrence that is walked.
#[derive(Drop)]
#[cycle(item)]
pub struct GroupItem {
    pub line: u32,
    pub label: Vec<u8>,
    pub walk: Walk,
    pub items: Vec<Item>,
}

/// `flat each PATH`: its items for each occurrence that is walked, without a group around them.
#[derive(Drop)]
#[cycle(item)]
pub struct FlatItem {
    pub line: u32,
    pub walk: Walk,
    pub items: Vec<Item>,
}

/// An item of a map: a segment, or items that are made for each occurrence, with a group of the target around them or without one.
#[derive(Drop)]
#[cycle(item)]
pub enum Item {
    SegFrom(FromItem),
    SegAlways(AlwaysItem),
    EachAs(GroupItem),
    EachFlat(FlatItem),
}
