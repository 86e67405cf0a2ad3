//! The map from a profile to itself, which copies each message.
ghost use Rattle.std.specs.Prelude.{◌≡◌, ◌∷◌, [], map, reverse, IfOk, OnOk, Some};
ghost use Rattle.gw_profile.specs.Line.{is_forbidden};
ghost use Rattle.gw_profile.specs.Seen.{field as field_value, forest, profile_value};
ghost use Rattle.gw_maplang.specs.Identity as spec;
ghost use Rattle.gw_maplang.specs.Identity.{IsSame, IsSameSegment, IsSameGroup, with_some};
ghost use Rattle.gw_maplang.specs.Seen.{rule, path, walk, all_items, map_value};

use crate::build::{group_item, segment_item};
use crate::item::Item;
use crate::map::Map;
use crate::rule::{CopyRule, FieldPath, Rule, Walk};
use gw_profile::{FieldShape, Node, Profile, SegNode, Usage};
use indexmap::IndexMap;
use std::alloc::{AllocError, Global};

fn is_forbidden(usage: Usage) -> bool
    ensures { result ≡ is_forbidden (Some usage) }
{
    match usage {
        Usage::R => false,
        Usage::RE => false,
        Usage::O => false,
        Usage::X => true,
    }
}

fn copy_of(alloc: Global, bytes: &[u8]) -> Result<Vec<u8>, AllocError>
    ensures { IfOk result (λ v. v.items ≡ bytes.now) }
{
    Vec::from_slice(alloc, bytes)
}

// The path of one label.
fn path_to(alloc: Global, label: &[u8]) -> Result<Vec<Vec<u8>>, AllocError>
    ensures { IfOk result (λ p. path p ≡ label.now ∷ []) }
{
    let only = copy_of(alloc, label)?;
    let mut all = Vec::new(alloc);
    all.push(only)?;
    Ok(all)
}

// All occurrences of the node of this label.
fn walk_all(alloc: Global, label: &[u8]) -> Result<Walk, AllocError>
    ensures { IfOk result (λ w. walk w ≡ spec.walk_all label.now) }
{
    let path = path_to(alloc, label)?;
    Ok(Walk {
        path,
        condition: None,
    })
}

// A rule that copies the field.
fn same_field(alloc: Global, label: &[u8], number: u32) -> Result<Rule, AllocError>
    ensures { IfOk result (λ r. rule r ≡ spec.copy_rule label.now number) }
{
    let path = path_to(alloc, label)?;
    Ok(Rule::CopyField(CopyRule {
        line: 0,
        field: number,
        from: FieldPath {
            path,
            field: number,
            takes_first: false,
        },
    }))
}

// Rules that copy the fields that aren't X.
fn field_rules(alloc: Global, label: &[u8], fields: &[FieldShape]) -> Result<Vec<Rule>, AllocError>
    ensures { IfOk result (λ v. map rule v.items ≡ spec.field_rules label.now (map field_value fields.now)) }
{
    let mut rules = Vec::new(alloc);
    for field in fields {
        if !is_forbidden(field.usage) {
            let rule = same_field(alloc, label, field.number)?;
            rules.push(rule)?;
        }
    }
    Ok(rules)
}

// The item that copies the segment, unless it is X.
fn same_segment(alloc: Global, segment: &SegNode) -> Result<Option<Item>, AllocError>
    ensures { IfOk result (λ item. IsSameSegment item segment.now) }
{
    if is_forbidden(segment.usage) {
        return Ok(None);
    }
    let rules = field_rules(alloc, &segment.label, &segment.fields)?;
    let source = walk_all(alloc, &segment.label)?;
    let label = copy_of(alloc, &segment.label)?;
    Ok(Some(segment_item(0, label, Some(source), rules)))
}

fn push_some(items: &mut Vec<Item>, item: Option<Item>) -> Result<(), AllocError>
    ensures { OnOk result (all_items (reverse items.new.items) ≡ with_some item (all_items (reverse items.old.items))) }
{
    match item {
        None => Ok(()),
        Some(item) => {
            items.push(item)?;
            Ok(())
        }
    }
}

#[cycle(same)]
fn same_group(alloc: Global, label: &[u8], nodes: &[Node]) -> Result<Option<Item>, AllocError>
    ensures { IfOk result (λ item. IsSameGroup item label.now nodes.now) }
{
    let items = same_items(alloc, nodes)?;
    let walk = walk_all(alloc, label)?;
    let label = copy_of(alloc, label)?;
    Ok(Some(group_item(0, label, walk, items)))
}

#[cycle(same)]
fn same_item(alloc: Global, node: &Node) -> Result<Option<Item>, AllocError>
    ensures { IfOk result (λ item. IsSame item node.now) }
{
    match node {
        Node::Seg(segment) => same_segment(alloc, segment),
        Node::Group(group) => same_group(alloc, &group.label, &group.nodes),
    }
}

// The items that copy these nodes. The nodes are walked from the last to the first.
#[cycle(same)]
fn same_items(alloc: Global, nodes: &[Node]) -> Result<Vec<Item>, AllocError>
    ensures { IfOk result (λ v. all_items v.items ≡ spec.same_items (forest nodes.now)) }
{
    let mut items = Vec::new(alloc);
    let mut left = nodes.len();
    while left > 0 {
        left -= 1;
        let item = same_item(alloc, &nodes[left])?;
        push_some(&mut items, item)?;
    }
    items.reverse();
    Ok(items)
}

/// The map from the profile to itself. It makes each segment and group from itself, and copies each listed field. X segments and X fields
/// are left out. Every line number is 0. The one error is allocation failure.
pub fn identity(alloc: Global, profile: &Profile) -> Result<Map, AllocError>
    ensures { IfOk result (λ m. map_value m ≡ spec.identity (profile_value profile.now)) }
{
    let items = same_items(alloc, profile.nodes())?;
    let name = copy_of(alloc, profile.name())?;
    let source = copy_of(alloc, profile.name())?;
    let target = copy_of(alloc, profile.name())?;
    Ok(Map {
        name,
        source,
        target,
        line: 0,
        tables: IndexMap::new(alloc),
        items,
        drops: Vec::new(alloc),
    })
}
