//! A profile within a plan.
ghost use Rattle.std.specs.Prelude.{◌≡◌, ◌<◌, ◌^◌, IfOk};
ghost use Rattle.std.specs.Arc.{arc_value};
ghost use Rattle.std.specs.Option.{option_map};
ghost use Rattle.gw_lines.specs.Reading.{Gives};
ghost use Rattle.gw_profile.specs.Whole as profiles;
ghost use Rattle.gw_profile.specs.declared.fault.ProfileFault.TheVariants as profile_faults;
ghost use Rattle.gw_plan.specs.declared.fault.PlanFault.TheVariants as fault;
ghost use Rattle.gw_plan.specs.Declarations.{profiles_of, IsNewProfile};
ghost use Rattle.gw_plan.specs.Inner as spec;
ghost use Rattle.gw_plan.specs.own.Made.{inner, shared_profile, IsNumbered, IsTextFault, Spells};

use crate::declarations::Declarations;
use crate::fault::PlanFault;
use crate::fault_order::{earlier, earliest};
use crate::headers::profile_header;
use crate::inner::{Inner, common, joined, line_after};
use gw_profile::{Profile, ProfileFault, parse};
use std::alloc::{AllocError, Global};
use std::sync::Arc;

// The line of a fault within its own text; 0 if it has none.
fn line_of(fault: ProfileFault) -> u64
    ensures value { result ≡ spec.profile_line fault }
    ensures bound { result < 2 ^ 32 }
{
    let line = match fault {
        ProfileFault::Syntax(line) => line,
        ProfileFault::Usage(line) => line,
        ProfileFault::Duplicate(line) => line,
        ProfileFault::UnknownTable(line) => line,
        ProfileFault::EmptyGroup(line) => line,
        ProfileFault::TooDeep(line) => line,
        _ => 0,
    };
    u64::from(line)
}

// Whether the fault is one of the whole profile, found after its last line.
fn is_of_whole(fault: ProfileFault) -> bool
    ensures { result ≡ spec.is_of_whole fault }
{
    matches!(
        fault,
        ProfileFault::EmptyGroup(_) | ProfileFault::Ambiguous(_) | ProfileFault::Header
    )
}

// A fault of the profile as a fault of the plan. If no `stop` follows, the profile isn't whole.
fn plan_fault(part: &Inner<'_, '_>, fault: ProfileFault) -> PlanFault
    requires { IsNumbered (inner part.now) }
    ensures { result ≡ spec.profile_fault (inner part.now) fault }
{
    if is_of_whole(fault) && !part.stopped {
        return PlanFault::Syntax(line_after(part));
    }
    PlanFault::Profile {
        line: part.at + line_of(fault),
        number: fault.number(),
    }
}

// The fault that a profile of this name was declared before.
fn duplicate(declarations: &Declarations, head: Option<(u64, &[u8])>) -> Option<PlanFault>
    ensures { result ≡ spec.duplicate_profile (profiles_of declarations.now) (option_map (λ h. (h.0, h.1.now)) head.entry) }
{
    let (line, name) = head?;
    if declarations.profile(name).is_some() {
        return Some(PlanFault::Duplicate(line));
    }
    None
}

// The first fault that the profile's own parser doesn't know of.
fn faults_beside(
    alloc: Global,
    declarations: &Declarations,
    part: &Inner<'_, '_>,
) -> Result<Option<PlanFault>, AllocError>
    requires { IsNumbered (inner part.now) }
    ensures { IfOk result (λ fault. fault ≡ spec.profile_faults_beside (profiles_of declarations.now) (inner part.now)) }
{
    let found = common(alloc, part)?;
    let head = profile_header(alloc, part)?;
    Ok(earliest(found, duplicate(declarations, head)))
}

// The fault of the text. An allocation failure is an error of its own.
fn text_fault(fault: ProfileFault) -> Result<ProfileFault, AllocError>
    ensures { IfOk result (IsTextFault profile_faults.Memory fault) }
{
    match fault {
        ProfileFault::Memory => Err(AllocError),
        _ => Ok(fault),
    }
}

// Parses the inner text as a profile.
fn spelled(
    alloc: Global,
    part: &Inner<'_, '_>,
) -> Result<Result<Arc<Profile>, ProfileFault>, AllocError>
    ensures { IfOk result (λ made. Spells shared_profile made (profiles.spelled (spec.text (inner part.now)))) }
{
    let text = joined(alloc, part.lines)?;
    match parse(alloc, &text) {
        Err(fault) => Ok(Err(text_fault(fault)?)),
        Ok(profile) => Ok(Ok(Arc::new(alloc, profile)?)),
    }
}

/// Parses an inner text as a profile. Its fault is the first of those of its lines, its name and the profile itself.
pub(crate) fn take_profile(
    alloc: Global,
    declarations: &Declarations,
    part: &Inner<'_, '_>,
) -> Result<Arc<Profile>, PlanFault>
    requires { IsNumbered (inner part.now) }
    ensures said { Gives fault.Memory shared_profile result (spec.inner_profile (profiles_of declarations.now) (inner part.now)) }
    ensures new { IfOk result (λ p. IsNewProfile declarations.now (arc_value p)) }
{
    let beside = faults_beside(alloc, declarations, part)?;
    match spelled(alloc, part)? {
        Err(fault) => Err(earlier(beside, plan_fault(part, fault))),
        Ok(profile) => match beside {
            Some(fault) => Err(fault),
            None => Ok(profile),
        },
    }
}
