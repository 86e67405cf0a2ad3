//! What the items of a map make.
ghost use Rattle.std.specs.Prelude.{◌≡◌, ◌++◌, ◌∷◌, [], List, IfOk, option_to_list};
ghost use Rattle.gw_maplang.specs.Shapes.{TableValue};
ghost use Rattle.gw_resolve.specs.Positions.{positions};
ghost use Rattle.gw_resolve.specs.Resolved.{no_items, first_child as spec_first_child};
ghost use Rattle.gw_resolve.specs.Seen.{some_condition, with_item, all_items};
ghost use Rattle.gw_check.specs.Seen.{AddsAll, all_sites, some_site, read_at, segment_item as seen_segment};
ghost use Rattle.gw_check.specs.Sites as spec;

use crate::origins::path_at;
use crate::segments::{Target, add_read, add_rules, add_site};
use crate::site::{Origin, Site};
use gw_maplang::LeafPlace;
use gw_resolve::{FieldCondition, Item, ScopePath, SegmentItem, first_child, positions_within};
use std::alloc::{AllocError, Global};

/// The node of this number below a position.
pub(crate) fn below(alloc: Global, above: &[usize], number: usize) -> Result<Vec<usize>, AllocError>
    ensures { IfOk result (λ at. at.items ≡ above.now ++ number ∷ []) }
{
    let mut at = Vec::from_slice(alloc, above)?;
    at.push(number)?;
    Ok(at)
}

// The node below a position that these items make.
fn made_below(alloc: Global, above: &[usize], items: &[Item]) -> Result<Vec<usize>, AllocError>
    ensures { (tables : List TableValue) → IfOk result (λ at. at.items ≡ above.now ++ option_to_list (spec_first_child (all_items tables items.now))) }
{
    match first_child(items) {
        None => Vec::from_slice(alloc, above),
        Some(number) => below(alloc, above, number),
    }
}

// ---- items

// A segment, group or flat that is made for each occurrence at a place.
fn add_node(
    alloc: Global,
    sites: &mut Vec<Site>,
    scope: &[Vec<usize>],
    line: u32,
    at: &[usize],
    place: &ScopePath,
) -> Result<(), AllocError>
    ensures { AddsAll result sites.old.items sites.new.items (λ tables. spec.node_sites line at.now (read_at scope.now place.now 0)) }
{
    let node = Target {
        at,
        field: 0,
        part: LeafPlace { comp: 0, sub: 0 },
    };
    add_read(alloc, sites, scope, line, node, place, 0)
}

// What a condition reads, within what is walked.
fn add_condition(
    alloc: Global,
    sites: &mut Vec<Site>,
    scope: &[Vec<usize>],
    line: u32,
    at: &[usize],
    condition: &Option<FieldCondition>,
) -> Result<(), AllocError>
    ensures { AddsAll result sites.old.items sites.new.items
        (λ tables. spec.condition_sites (positions scope.now) line at.now (some_condition condition.now)) }
{
    let Some(asked) = condition else {
        return Ok(());
    };
    let from = &asked.from;
    let from = path_at(alloc, scope, &from.place, from.field, asked.condition.place)?;
    let node = Target {
        at,
        field: 0,
        part: LeafPlace { comp: 0, sub: 0 },
    };
    add_site(alloc, sites, line, node, Origin::Read(from))
}

// A segment at this position.
#[tactic(auto, using(crate::proofs::Adding::always_made))]
fn add_segment(
    alloc: Global,
    sites: &mut Vec<Site>,
    scope: &[Vec<usize>],
    at: &[usize],
    segment: &SegmentItem,
) -> Result<(), AllocError>
    ensures { AddsAll result sites.old.items sites.new.items (λ tables. spec.segment_sites (positions scope.now) at.now (seen_segment tables segment.now)) }
{
    match &segment.place {
        None => {
            let node = Target {
                at,
                field: 0,
                part: LeafPlace { comp: 0, sub: 0 },
            };
            add_site(alloc, sites, segment.line, node, Origin::Unsaid)?;
            add_condition(alloc, sites, scope, segment.line, at, &segment.condition)?;
            add_rules(alloc, sites, scope, at, &segment.rules)?;
            Ok(())
        }
        Some(place) => {
            add_node(alloc, sites, scope, segment.line, at, place)?;
            let within = positions_within(alloc, scope, place)?;
            add_condition(alloc, sites, &within, segment.line, at, &segment.condition)?;
            add_rules(alloc, sites, &within, at, &segment.rules)?;
            Ok(())
        }
    }
}

#[cycle(add)]
fn add_item(
    alloc: Global,
    sites: &mut Vec<Site>,
    scope: &[Vec<usize>],
    above: &[usize],
    item: &Item,
) -> Result<(), AllocError>
    ensures { AddsAll result sites.old.items sites.new.items
        (λ tables. spec.items_sites (positions scope.now) above.now (with_item tables item.now no_items)) }
{
    match item {
        Item::Segment(segment) => {
            let at = below(alloc, above, segment.child)?;
            add_segment(alloc, sites, scope, &at, segment)?;
            Ok(())
        }
        Item::Group(group) => {
            let at = below(alloc, above, group.child)?;
            add_node(alloc, sites, scope, group.line, &at, &group.place)?;
            let within = positions_within(alloc, scope, &group.place)?;
            add_condition(alloc, sites, &within, group.line, &at, &group.condition)?;
            add_items(alloc, sites, &within, &at, &group.items)?;
            Ok(())
        }
        Item::Flat(flat) => {
            let at = made_below(alloc, above, &flat.items)?;
            add_node(alloc, sites, scope, flat.line, &at, &flat.place)?;
            let within = positions_within(alloc, scope, &flat.place)?;
            add_condition(alloc, sites, &within, flat.line, &at, &flat.condition)?;
            add_items(alloc, sites, &within, above, &flat.items)?;
            Ok(())
        }
    }
}

// Adds what the items make below the target's element at a position.
#[cycle(add)]
#[tactic(auto, using(crate::proofs::Adding::item_made))]
fn add_items(
    alloc: Global,
    sites: &mut Vec<Site>,
    scope: &[Vec<usize>],
    above: &[usize],
    items: &[Item],
) -> Result<(), AllocError>
    ensures { AddsAll result sites.old.items sites.new.items (λ tables. spec.items_sites (positions scope.now) above.now (all_items tables items.now)) }
{
    for item in items {
        add_item(alloc, sites, scope, above, item)?;
    }
    Ok(())
}

// ---- the whole

/// What each line of a map makes, and of what, where these are its items. The one error is allocation failure.
pub fn sites(alloc: Global, items: &[Item]) -> Result<Vec<Site>, AllocError>
    ensures { IfOk result (λ made. (tables : List TableValue) → all_sites tables made.items ≡ spec.sites (all_items tables items.now)) }
{
    let mut scope = Vec::new(alloc);
    scope.push(Vec::new(alloc))?;
    let mut sites = Vec::new(alloc);
    add_items(alloc, &mut sites, &scope, &[], items)?;
    Ok(sites)
}

/// What the line of this number makes, of these. It takes no memory.
pub fn site_at(sites: &[Site], line: u32) -> Option<&Site>
    ensures { (tables : List TableValue) → some_site tables result ≡ spec.site_at (all_sites tables sites.now) line }
{
    for site in sites {
        if site.line == line {
            return Some(site);
        }
    }
    None
}
