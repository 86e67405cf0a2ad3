//! The segments at the places of a map, and their fields.
ghost use Rattle.std.specs.Prelude.{◌≡◌, map, List};
ghost use Rattle.gw_leaves.specs.Leaves as spec;
ghost use Rattle.gw_resolve.specs.Places as places;
ghost use Rattle.gw_leaves.specs.own.Held.{known_value, saturated_known};
ghost use Rattle.gw_profile.specs.Numbered.{some_field};
ghost use Rattle.gw_leaves.specs.Uses.{sources_value, some_rule};
ghost use Rattle.gw_resolve.specs.Resolved as resolved;
ghost use Rattle.gw_resolve.specs.Seen.{scope as walked, place as seen_place, reference, rule as seen_rule};
ghost use Rattle.gw_maplang.specs.Shapes.{TableValue};

use crate::sources::Sources;
use gw_profile::{FieldShape, field_of};
use gw_resolve::{CountedNode, Interval, Reference, Rule, ScopeNode, ScopePath, find, never};

/// The segment at a place: how often it is there, and its fields.
#[derive(Clone, Copy)]
pub(crate) struct Known<'a> {
    pub(crate) count: Interval,
    pub(crate) fields: &'a [FieldShape],
}

/// The segment at a place.
pub(crate) fn segment_at<'a>(scope: &[ScopeNode<'a, '_>], place: &ScopePath) -> Known<'a>
    ensures { known_value result ≡ saturated_known (places.known (walked scope.now) (seen_place place.now)) }
{
    match find(scope, place) {
        Some(
            CountedNode {
                element: ScopeNode::Segment(segment),
                count,
            },
        ) => Known {
            count,
            fields: &segment.fields,
        },
        _ => Known {
            count: never(),
            fields: &[],
        },
    }
}

/// The first of these rules that is for the field of this number. It takes no memory.
pub fn rule_of(rules: &[Rule], number: u32) -> Option<&Rule>
    ensures { (tables : List TableValue) → some_rule tables result ≡ resolved.rule_of (map (seen_rule tables) rules.now) number }
{
    for rule in rules {
        if rule.field == number {
            return Some(rule);
        }
    }
    None
}

/// The source field of this reference.
pub(crate) fn at_field<'e>(
    sources: Sources<'_, '_, '_, 'e, '_>,
    from: &Reference,
) -> Option<&'e FieldShape>
    ensures { some_field result ≡ spec.at_field (sources_value sources.entry) (reference from.now) }
{
    field_of(segment_at(sources.scope, &from.place).fields, from.field)
}
