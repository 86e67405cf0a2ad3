//! A map within a plan.
ghost use Rattle.std.specs.Prelude.{◌≡◌, ◌<◌, ◌^◌, IfOk, IfSome, Some, None};
ghost use Rattle.std.specs.Arc.{arc_value};
ghost use Rattle.std.specs.Option.{option_map};
ghost use Rattle.gw_lines.specs.Reading.{Gives};
ghost use Rattle.gw_maplang.specs.Seen.{map_value};
ghost use Rattle.gw_maplang.specs.Whole as maps;
ghost use Rattle.gw_maplang.specs.declared.fault.MapFault.TheVariants as map_faults;
ghost use Rattle.gw_plan.specs.declared.fault.PlanFault.TheVariants as fault;
ghost use Rattle.gw_plan.specs.Declarations.{profiles_of, maps_of, named_profile, IsBetween, IsNewMap};
ghost use Rattle.gw_plan.specs.Inner as spec;
ghost use Rattle.gw_plan.specs.own.Made.{broken_rule, inner, map_header, shared_map, borrowed_profile, with_between, with_found, IsNumbered, IsTextFault, Spells, Checks, IsTaken};

use crate::declarations::Declarations;
use crate::fault::PlanFault;
use crate::fault_order::{earlier, earliest};
use crate::headers::{MapHeader, map_header};
use crate::inner::{Inner, common, joined, line_after};
use gw_check::{Between, CheckFault, CheckedMap};
use gw_maplang::{Map, MapFault, parse};
use gw_profile::Profile;
use std::alloc::{AllocError, Global};
use std::sync::Arc;

/// The least rule that fails, and the least line where it fails.
#[derive(Clone, Copy, Drop)]
struct Broken {
    rule: u8,
    line: u32,
}

// The line of a fault within its own text; 0 if it has none.
fn line_of(fault: MapFault) -> u64
    ensures value { result ≡ spec.map_line fault }
    ensures bound { result < 2 ^ 32 }
{
    let line = match fault {
        MapFault::Syntax(line) => line,
        MapFault::UnknownTable(line) => line,
        MapFault::BadConstant(line) => line,
        MapFault::Duplicate(line) => line,
        MapFault::TooDeep(line) => line,
        _ => 0,
    };
    u64::from(line)
}

// A fault of the map as a fault of the plan.
fn plan_fault(part: &Inner<'_, '_>, fault: MapFault) -> PlanFault
    requires { IsNumbered (inner part.now) }
    ensures { result ≡ spec.map_fault (inner part.now) fault }
{
    PlanFault::Map {
        line: part.at + line_of(fault),
        number: fault.number(),
    }
}

// A rule that the map breaks as a fault of the plan.
fn rule_fault(part: &Inner<'_, '_>, broken: Broken) -> PlanFault
    requires { IsNumbered (inner part.now) }
    ensures { Some result ≡ spec.check_fault (inner part.now) (Some (broken_rule broken)) }
{
    PlanFault::Check {
        line: part.at + u64::from(broken.line),
        rule: broken.rule,
    }
}

// The fault that a map of this name was declared before.
fn duplicate(declarations: &Declarations, head: &MapHeader<'_>) -> Option<PlanFault>
    ensures { result ≡ spec.duplicate_map (maps_of declarations.now) (map_header head.now) }
{
    if declarations.map(head.name).is_some() {
        return Some(PlanFault::Duplicate(head.line));
    }
    None
}

// The fault that one of the profiles wasn't declared before.
fn unknown_profile(declarations: &Declarations, head: &MapHeader<'_>) -> Option<PlanFault>
    ensures { result ≡ spec.unknown_profile (profiles_of declarations.now) (map_header head.now) }
{
    if declarations.profile(head.source).is_some() && declarations.profile(head.target).is_some() {
        return None;
    }
    Some(PlanFault::UnknownName(head.line))
}

fn header_faults(declarations: &Declarations, head: Option<MapHeader<'_>>) -> Option<PlanFault>
    ensures { result ≡ spec.header_faults (profiles_of declarations.now) (maps_of declarations.now) (option_map map_header head.entry) }
{
    let head = head?;
    earliest(
        duplicate(declarations, &head),
        unknown_profile(declarations, &head),
    )
}

// The first fault that the map's own parser doesn't know of.
fn faults_beside(
    alloc: Global,
    declarations: &Declarations,
    part: &Inner<'_, '_>,
) -> Result<Option<PlanFault>, AllocError>
    requires { IsNumbered (inner part.now) }
    ensures { IfOk result (λ fault. fault ≡ spec.map_faults_beside (profiles_of declarations.now) (maps_of declarations.now) (inner part.now)) }
{
    let found = common(alloc, part)?;
    let head = map_header(alloc, part)?;
    Ok(earliest(found, header_faults(declarations, head)))
}

// The fault of the text. An allocation failure is an error of its own.
fn text_fault(fault: MapFault) -> Result<MapFault, AllocError>
    ensures { IfOk result (IsTextFault map_faults.Memory fault) }
{
    match fault {
        MapFault::Memory => Err(AllocError),
        _ => Ok(fault),
    }
}

// Parses the inner text as a map.
fn spelled(alloc: Global, part: &Inner<'_, '_>) -> Result<Result<Map, MapFault>, AllocError>
    ensures { IfOk result (λ made. Spells map_value made (maps.spelled (spec.text (inner part.now)))) }
{
    let text = joined(alloc, part.lines)?;
    match parse(alloc, &text) {
        Err(fault) => Ok(Err(text_fault(fault)?)),
        Ok(map) => Ok(Ok(map)),
    }
}

// The profiles that a map names, if both were declared before.
fn named_profiles<'s>(
    declarations: &'s Declarations,
    map: &Map,
) -> Option<(&'s Arc<Profile>, &'s Arc<Profile>)>
    ensures between { option_map (with_found borrowed_profile (map_value map.now)) result ≡ spec.between (profiles_of declarations.now) (map_value map.now) }
    ensures source { IfSome result (λ s. named_profile map.now.source (profiles_of declarations.now) ≡ Some (borrowed_profile s.0)) }
{
    let source = declarations.profile(map.source())?;
    let target = declarations.profile(map.target())?;
    Some((source, target))
}

// The profiles that a map names, with what maps before found of them, if both were declared before.
fn between(
    alloc: Global,
    declarations: &mut Declarations,
    map: &Map,
) -> Result<Option<Between>, AllocError>
    ensures between { IfOk result (λ o. option_map (with_between (map_value map.now)) o ≡ spec.between (profiles_of declarations.old) (map_value map.now)) }
    ensures named { IfOk result (λ o. IfSome o (IsBetween (profiles_of declarations.old) map.now.source map.now.target)) }
    ensures kept { declarations.new ≡ declarations.old }
{
    if let Some(between) = declarations.take_between(alloc, map)? {
        return Ok(Some(between));
    }
    let Some((source, target)) = named_profiles(declarations, map) else {
        return Ok(None);
    };
    let source = Arc::try_clone(source)?;
    let target = Arc::try_clone(target)?;
    Ok(Some(Between::new(alloc, source, target)))
}

// Checks the map. Returns it with its profiles, or the least rule that fails, with its least line.
fn checked(
    alloc: Global,
    declarations: &mut Declarations,
    mut between: Between,
    map: Map,
) -> Result<Result<CheckedMap, Broken>, AllocError>
    requires { IsBetween (profiles_of declarations.old) map.source map.target between }
    ensures checks { IfOk result (Checks between.source between.target map) }
    ensures kept { declarations.new ≡ declarations.old }
{
    match between.check(map) {
        Ok(checked) => {
            declarations.keep_between(alloc, checked.map(), between)?;
            Ok(Ok(checked))
        }
        Err(CheckFault::Memory(_)) => Err(AllocError),
        Err(CheckFault::Rule { rule, line, .. }) => Ok(Err(Broken { rule, line })),
    }
}

// Checks the map between the profiles that it names. Else the earlier of its fault and `beside`.
// If no `stop` follows, the map isn't whole, and isn't checked.
fn with_profiles(
    alloc: Global,
    declarations: &mut Declarations,
    part: &Inner<'_, '_>,
    beside: Option<PlanFault>,
    map: Map,
) -> Result<Arc<CheckedMap>, PlanFault>
    requires { IsNumbered (inner part.now) }
    ensures said { Gives fault.Memory shared_map result (spec.checked_between (profiles_of declarations.old) beside (inner part.now) (map_value map)) }
    ensures taken { IfOk result (λ m. IsTaken (profiles_of declarations.old) map (arc_value m)) }
    ensures alone { IfOk result (λ _. beside ≡ None) }
    ensures kept { declarations.new ≡ declarations.old }
{
    let Some(between) = between(alloc, declarations, &map)? else {
        let line = part.at + u64::from(map.line());
        return Err(earlier(beside, PlanFault::UnknownName(line)));
    };
    if !part.stopped {
        return Err(earlier(beside, PlanFault::Syntax(line_after(part))));
    }
    match checked(alloc, declarations, between, map)? {
        Err(broken) => Err(earlier(beside, rule_fault(part, broken))),
        Ok(checked) => match beside {
            Some(fault) => Err(fault),
            None => Ok(Arc::new(alloc, checked)?),
        },
    }
}

/// Parses an inner text as a map, and checks it between the profiles that it names.
/// Its fault is the first of those of its lines, its names, the map itself and its check.
pub(crate) fn take_map(
    alloc: Global,
    declarations: &mut Declarations,
    part: &Inner<'_, '_>,
) -> Result<Arc<CheckedMap>, PlanFault>
    requires { IsNumbered (inner part.now) }
    ensures said { Gives fault.Memory shared_map result (spec.inner_map (profiles_of declarations.old) (maps_of declarations.old) (inner part.now)) }
    ensures new { IfOk result (λ m. IsNewMap declarations.old (arc_value m)) }
    ensures kept { declarations.new ≡ declarations.old }
{
    let beside = faults_beside(alloc, declarations, part)?;
    match spelled(alloc, part)? {
        Err(fault) => Err(earlier(beside, plan_fault(part, fault))),
        Ok(map) => with_profiles(alloc, declarations, part, beside, map),
    }
}
