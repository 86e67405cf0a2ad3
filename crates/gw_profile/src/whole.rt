//! The rules on the whole profile, after all of its lines.
ghost use Rattle.std.specs.Prelude.{◌≡◌, map, not};
ghost use Rattle.std.specs.List.{list_all};
ghost use Rattle.gw_lines.specs.Reading.{Gives};
ghost use Rattle.gw_profile.specs.declared.fault.ProfileFault.TheVariants as fault;
ghost use Rattle.gw_profile.specs.Whole as spec;
ghost use Rattle.gw_profile.specs.Seen.{line};
ghost use Rattle.gw_profile.specs.own.Building.{built_value, KeepsRules};
ghost use Rattle.gw_profile.specs.Value.{tables as tables_of};

use crate::build::{Built, build};
use crate::fault::ProfileFault;
use crate::form::{Line, allows};
use crate::rules::ambiguous;
use crate::shape::{Card, Usage};
use indexmap::IndexSet;
use std::alloc::Global;

fn is_once(usage: Option<Usage>, card: Card) -> bool
    ensures { result ≡ spec.is_once usage card }
{
    match usage {
        Some(Usage::R) => card.min == 1 && !allows(card.max, 2),
        Some(Usage::RE) => false,
        Some(Usage::O) => false,
        Some(Usage::X) => false,
        None => false,
    }
}

fn is_msh(name: &[u8]) -> bool
    ensures { result ≡ spec.is_msh name.now }
{
    name == b"MSH".as_slice()
}

fn is_header(whole: &Line) -> bool
    ensures { result ≡ spec.is_header (line whole.now) }
{
    match whole {
        Line::Segment(name, label, _, _, _) => is_msh(name) || is_msh(label),
        _ => false,
    }
}

fn is_first(whole: &Line) -> bool
    ensures { result ≡ spec.is_first (line whole.now) }
{
    match whole {
        Line::Segment(name, _, renamed, usage, card) => {
            is_msh(name) && !*renamed && is_once(*usage, *card)
        }
        _ => false,
    }
}

fn is_preamble(whole: &Line) -> bool
    ensures { result ≡ spec.is_preamble (line whole.now) }
{
    match whole {
        Line::Begins(_) => true,
        Line::Table(_, _) => true,
        Line::Counts => true,
        _ => false,
    }
}

fn has_no_header(lines: &[Line]) -> bool
    ensures { result ≡ list_all (λ other. not (spec.is_header other)) (map line lines.now) }
{
    for whole in lines {
        if is_header(whole) {
            return false;
        }
    }
    true
}

fn is_headed(lines: &[Line]) -> bool
    ensures { result ≡ spec.is_headed (map line lines.now) }
{
    for (i, whole) in lines.iter().enumerate() {
        if !is_preamble(whole) {
            return is_first(whole) && has_no_header(&lines[i + 1..]);
        }
    }
    false
}

// The fault of the whole profile that these lines spell, if it has one.
fn keep_rules(alloc: Global, lines: &[Line], spelled: &Built) -> Result<(), ProfileFault>
    ensures { KeepsRules (map line lines.now) spelled.now result }
{
    if let Some(at) = spelled.empty {
        return Err(ProfileFault::EmptyGroup(at));
    }
    if !is_headed(lines) {
        return Err(ProfileFault::Header);
    }
    let found = ambiguous(
        alloc,
        &spelled.nodes,
        &mut IndexSet::new(alloc),
        &mut Vec::new(alloc),
        0,
    )?;
    match found {
        Some(shared) => Err(ProfileFault::Ambiguous(shared)),
        None => Ok(()),
    }
}

/// The profile that these lines spell, or the fault of the whole.
pub(crate) fn ruled(alloc: Global, lines: &[Line]) -> Result<Built, ProfileFault>
    ensures { Gives fault.Memory (λ b. built_value b (tables_of (map line lines.now))) result (spec.ruled (map line lines.now)) }
{
    let spelled = build(alloc, lines)?;
    keep_rules(alloc, lines, &spelled)?;
    Ok(spelled)
}
