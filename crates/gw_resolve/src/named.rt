//! The looking up of the labels of a map.
ghost use Rattle.std.specs.Prelude.{◌≡◌, ◌++◌, if◌then◌else◌, is_some, map, flat_map, IfOk, OnOk};
ghost use Rattle.gw_profile.specs.Seen.{profile_value};
ghost use Rattle.gw_maplang.specs.Seen as raw;
ghost use Rattle.gw_resolve.specs.own.Looking.{place_there};
ghost use Rattle.gw_resolve.specs.Naming as spec;
ghost use Rattle.gw_resolve.specs.Outcome.{Resolves};
ghost use Rattle.gw_resolve.specs.Seen.{Notes, element as seen, scope as walked, failures, left_out};

use crate::element::ScopeNode;
use crate::failure::{Failure, at_line, note};
use crate::items::resolve_items;
use crate::led::ends_at_segment;
use crate::lost::NameFailures;
use crate::paths::{or_itself, place_of};
use crate::resolved::{Item, LeftOut, ScopePath};
use gw_maplang::{Dropped, Map};
use gw_profile::{Level, Profile};
use std::alloc::{AllocError, Global};

/// The items of a map and what it leaves out, without labels.
#[derive(Drop)]
pub struct ResolvedMap {
    pub items: Vec<Item>,
    pub drops: Vec<LeftOut>,
}

/// The map without labels, or the failures of the rules on them (1 to 3).
#[derive(Drop)]
pub enum Resolving {
    Refused(Vec<Failure>),
    Resolved(ResolvedMap),
}

// Whether what is left out is there, and a segment where a field of it is named.
fn leads(scope: &[ScopeNode<'_, '_>], field: Option<u32>, place: Option<&ScopePath>) -> bool
    ensures { result ≡ (if is_some field then spec.ends_at_segment (walked scope.now) (place_there place.entry) else spec.has_place (place_there place.entry)) }
{
    match field {
        None => place.is_some(),
        Some(_) => ends_at_segment(scope, place),
    }
}

// What is left out without labels, and the failures of what it names.
fn all_left_out(
    alloc: Global,
    found: &mut Vec<Failure>,
    message: ScopeNode<'_, '_>,
    drops: &[Dropped],
) -> Result<Vec<LeftOut>, AllocError>
    ensures made { IfOk result (λ v. map left_out v.items ≡ map (spec.drop (seen message.entry)) (map raw.dropped drops.now)) }
    ensures failures { OnOk result (Notes found.old found.new (flat_map (spec.drop_failures (seen message.entry)) (map raw.dropped drops.now))) }
{
    let scope = [message];
    let mut built = Vec::new(alloc);
    for dropped in drops {
        let place = place_of(alloc, &scope, &dropped.path)?;
        let there = leads(&scope, dropped.field, place.as_ref());
        note(found, 1, at_line(dropped.line), !there)?;
        let place = or_itself(alloc, place);
        built.push(LeftOut {
            steps: place.steps,
            field: dropped.field,
        })?;
    }
    Ok(built)
}

// The failures of source paths, and behind them those of target labels.
fn all_lost(lost: NameFailures) -> Result<Vec<Failure>, AllocError>
    ensures { IfOk result (λ found. failures found.items ≡ failures lost.paths.items ++ failures lost.targets.items) }
{
    let mut found = lost.paths;
    found.extend_from_slice(&lost.targets)?;
    Ok(found)
}

/// Looks the labels of a map up in its profiles, whose levels these are, each once. The one error is allocation failure.
pub fn resolve(
    alloc: Global,
    source: &Profile,
    target: &Profile,
    from: &Level<'_>,
    to: &Level<'_>,
    map: &Map,
) -> Result<Resolving, AllocError>
    requires source { from.now ≡ source.now.nodes }
    requires target { to.now ≡ target.now.nodes }
    ensures { IfOk result (Resolves (profile_value source.now) (profile_value target.now) (raw.map_value map.now)) }
{
    let mut lost = NameFailures {
        paths: Vec::new(alloc),
        targets: Vec::new(alloc),
    };
    let message = ScopeNode::Whole(Some(from));
    let items = resolve_items(alloc, &mut lost, &[message], Some(to), map.items())?;
    let drops = all_left_out(alloc, &mut lost.paths, message, map.drops())?;
    let found = all_lost(lost)?;
    if found.as_slice().is_empty() {
        return Ok(Resolving::Resolved(ResolvedMap { items, drops }));
    }
    Ok(Resolving::Refused(found))
}
