//! What the components and subcomponents of a target field ask of what a rule makes of it.
ghost use Rattle.std.specs.Prelude.{map, flat_map, OnOk};
ghost use Rattle.gw_profile.specs.Seen.{sub as sub_value, comp as comp_value};
ghost use Rattle.gw_resolve.specs.Seen.{Notes};
ghost use Rattle.gw_leaves.specs.own.Seen as seen;

use crate::given::LeafSource;
use crate::parts::{Part, is_sure};
use crate::presence::{comp_presence, sub_presence};
use crate::sources::Sources;
use crate::values::{check_usage, check_values, is_required};
use gw_profile::{CompShape, FieldShape, SubShape, comp_of, sub_of};
use gw_resolve::{At, Failure, FailureSite, note};
use std::alloc::AllocError;

/// What a field is made of: a source field, each part by that of the same number, or leaves.
#[derive(Clone, Copy)]
pub(crate) enum Filling<'a> {
    Copied(Option<&'a FieldShape>),
    Made(&'a [At]),
}

fn check_sub(
    found: &mut Vec<Failure>,
    sources: Sources<'_, '_, '_, '_, '_>,
    mark: FailureSite,
    filling: Filling<'_>,
    comp: u32,
    sub: &SubShape,
) -> Result<(), AllocError>
    ensures { OnOk result (Notes found.old found.new (seen.sub_failures sources.entry mark filling.entry comp (sub_value sub.now))) }
{
    let mark = FailureSite {
        sub: sub.number,
        ..mark
    };
    match filling {
        Filling::Copied(from) => {
            let from = comp_of(from, comp);
            let given = LeafSource {
                rows: None,
                sub: sub_of(from, sub.number),
            };
            let presence = sub_presence(from, given.sub);
            check_usage(found, mark, sub.usage, presence)?;
            check_values(found, sources.context, mark, presence, given, sub)
        }
        Filling::Made(leaves) => {
            let part = Part::Sub(comp, sub.number);
            let is_lacking = is_required(sub.usage) && !is_sure(sources, part, leaves);
            note(found, 5, mark, is_lacking)
        }
    }
}

fn check_subs(
    found: &mut Vec<Failure>,
    sources: Sources<'_, '_, '_, '_, '_>,
    mark: FailureSite,
    filling: Filling<'_>,
    comp: u32,
    subs: &[SubShape],
) -> Result<(), AllocError>
    ensures { OnOk result (Notes found.old found.new (flat_map (seen.sub_failures sources.entry mark filling.entry comp) (map sub_value subs.now))) }
{
    for sub in subs {
        check_sub(found, sources, mark, filling, comp, sub)?;
    }
    Ok(())
}

fn check_comp(
    found: &mut Vec<Failure>,
    sources: Sources<'_, '_, '_, '_, '_>,
    mark: FailureSite,
    filling: Filling<'_>,
    comp: &CompShape,
) -> Result<(), AllocError>
    ensures { OnOk result (Notes found.old found.new (seen.comp_failures sources.entry mark filling.entry (comp_value comp.now))) }
{
    let mark = FailureSite {
        comp: comp.number,
        ..mark
    };
    match filling {
        Filling::Copied(from) => {
            let presence = comp_presence(comp_of(from, comp.number));
            check_usage(found, mark, comp.usage, presence)?;
            check_subs(found, sources, mark, filling, comp.number, &comp.subs)
        }
        Filling::Made(leaves) => {
            let part = Part::Comp(comp.number);
            let is_lacking = is_required(comp.usage) && !is_sure(sources, part, leaves);
            note(found, 5, mark, is_lacking)?;
            check_subs(found, sources, mark, filling, comp.number, &comp.subs)
        }
    }
}

/// The failures at these components of a field with this filling.
pub(crate) fn check_comps(
    found: &mut Vec<Failure>,
    sources: Sources<'_, '_, '_, '_, '_>,
    mark: FailureSite,
    filling: Filling<'_>,
    comps: &[CompShape],
) -> Result<(), AllocError>
    ensures { OnOk result (Notes found.old found.new (flat_map (seen.comp_failures sources.entry mark filling.entry) (map comp_value comps.now))) }
{
    for comp in comps {
        check_comp(found, sources, mark, filling, comp)?;
    }
    Ok(())
}
