//! The fields of the source that a map passes over, each by its place (9).
ghost use Rattle.std.specs.Prelude.{◌≡◌, List, map, flat_map, IfOk, OnOk};
ghost use Rattle.gw_profile.specs.Seen.{forest, field as seen_field};
ghost use Rattle.gw_maplang.specs.Shapes.{TableValue};
ghost use Rattle.gw_check.specs.Collected.{Adds, fields_at, has_field, field_missed, node_missed, within_missed};
ghost use Rattle.gw_check.specs.Reads as spec;
ghost use Rattle.gw_check.specs.Seen.{all_sites};
ghost use Rattle.gw_check.specs.Sites.{sites as spec_sites};
ghost use Rattle.gw_check.specs.own.Seen as seen;
ghost use Rattle.gw_resolve.specs.Seen.{all_items};

use crate::accounted::{Accounted, FieldAt};
use crate::item_sites::{below, sites};
use crate::site::Site;
use gw_leaves::is_forbidden;
use gw_profile::{FieldShape, Node, Usage};
use gw_resolve::{Item, LeftOut};
use std::alloc::{AllocError, Global};

fn may_hold(usage: Usage) -> bool
    ensures { result ≡ spec.may_hold usage }
{
    matches!(usage, Usage::R | Usage::RE)
}

// Whether the field may hold something that is required, and nothing accounts for it.
fn is_missed(known: &Accounted, at: &[usize], field: &FieldShape) -> Result<bool, AllocError>
    ensures { IfOk result (λ b. b ≡ spec.is_missed (has_field known.now) at.now (seen_field field.now)) }
{
    if !may_hold(field.usage) {
        return Ok(false);
    }
    Ok(!known.has_field(at, field.number)?)
}

// Adds the fields that are missed.
fn add_fields(
    known: &Accounted,
    at: &[usize],
    fields: &[FieldShape],
    found: &mut Vec<FieldAt>,
) -> Result<(), AllocError>
    ensures { OnOk result (Adds found.old.items found.new.items (flat_map (field_missed known.now at.now) (map seen_field fields.now))) }
{
    for field in fields {
        if !is_missed(known, at, field)? {
            continue;
        }
        let at = Vec::from_slice(known.alloc, at)?;
        found.push(FieldAt {
            at,
            field: field.number,
        })?;
    }
    Ok(())
}

// Adds those of the node at this position, and of what is within it; a forbidden segment has none.
#[cycle(gather)]
#[tactic(auto, using(crate::proofs::Missing::group_adds))]
fn add_node(
    known: &Accounted,
    at: &[usize],
    node: &Node,
    found: &mut Vec<FieldAt>,
) -> Result<(), AllocError>
    ensures { OnOk result (Adds found.old.items found.new.items (node_missed known.now at.now node.now)) }
{
    match node {
        Node::Seg(segment) => {
            if known.has_element(at) || is_forbidden(segment.usage) {
                return Ok(());
            }
            add_fields(known, at, &segment.fields, found)
        }
        Node::Group(group) => add_within(known, at, &group.nodes, found),
    }
}

// Adds those of nodes that are all that is in the element at this position.
#[cycle(gather)]
#[tactic(auto, using(crate::proofs::Missing::node_adds))]
fn add_within(
    known: &Accounted,
    at: &[usize],
    nodes: &[Node],
    found: &mut Vec<FieldAt>,
) -> Result<(), AllocError>
    ensures { OnOk result (Adds found.old.items found.new.items (within_missed known.now at.now (forest nodes.now))) }
{
    if known.has_element(at) {
        return Ok(());
    }
    for (j, node) in nodes.iter().enumerate() {
        let inner = below(known.alloc, at, j)?;
        add_node(known, &inner, node, found)?;
    }
    Ok(())
}

/// What the lines of a map make of its source, and the fields that none of them reads.
#[derive(Drop)]
pub struct SourceUse {
    /// What each line makes, and of what; nothing where a rule on labels fails.
    pub sites: Vec<Site>,
    /// The source fields that are neither read nor dropped, in the profile's order.
    pub unread: Vec<FieldAt>,
}

/// What the items make, and the fields of these nodes that the items and the drops pass over, in the order of the nodes.
#[tactic(auto, using(crate::proofs::Missing::missed_fields))]
pub(crate) fn passed_over(
    alloc: Global,
    nodes: &[Node],
    items: &[Item],
    drops: &[LeftOut],
) -> Result<SourceUse, AllocError>
    ensures sites { IfOk result (λ used. (tables : List TableValue) → all_sites tables used.sites.items ≡ spec_sites (all_items tables items.now)) }
    ensures unread { IfOk result (λ used. (tables : List TableValue) →
        fields_at used.unread.items ≡ seen.passed_over tables items.now drops.now nodes.now) }
{
    let sites = sites(alloc, items)?;
    let known = Accounted::of(alloc, &sites, drops)?;
    let mut unread = Vec::new(alloc);
    add_within(&known, &[], nodes, &mut unread)?;
    Ok(SourceUse { sites, unread })
}
