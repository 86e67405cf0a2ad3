//! What is printed of a text that is refused, and where a message breaks its profile.
use crate::expected::{Detail, in_map, in_plan, in_profile};
use gw_maplang::MapFault;
use gw_plan::PlanFault;
use gw_profile::ProfileFault;
use gw_validate::Breach;
use std::alloc::{AllocError, Global};
use std::fmt::Display;
use std::io;
use std::io::Write;

/// That a text is refused: on the first line the number of its fault, with its line or name; on the next the file that it came from, and what was expected
/// there or is wrong with it.
fn refused<F: Display>(
    alloc: Global,
    kind: &str,
    path: &str,
    number: u8,
    fault: &F,
    detail: Detail,
) -> Result<String, AllocError> {
    match detail {
        Detail::Whole => format!(in alloc; "{kind} refused {number}\n{path}: {fault}"),
        Detail::Name(name) => {
            let name = name.escape_ascii();
            format!(in alloc; "{kind} refused {number} {name}\n{path}: {fault}")
        }
        Detail::Line(line) => {
            format!(in alloc; "{kind} refused {number} line {line}\n{path}: {fault}")
        }
        Detail::Expected(line, said) => {
            format!(in alloc; "{kind} refused {number} line {line}\n{path}:{line}: {said}")
        }
    }
}

/// What is printed of the text of a profile that is refused.
pub fn refused_profile(
    alloc: Global,
    path: &str,
    text: &[u8],
    fault: ProfileFault,
) -> Result<String, AllocError> {
    let detail = in_profile(alloc, text, fault)?;
    refused(alloc, "profile", path, fault.number(), &fault, detail)
}

/// What is printed of the text of a map that is refused.
pub fn refused_map(
    alloc: Global,
    path: &str,
    text: &[u8],
    fault: MapFault,
) -> Result<String, AllocError> {
    let detail = in_map(alloc, text, fault)?;
    refused(alloc, "map", path, fault.number(), &fault, detail)
}

/// What is printed of the text of a plan that is refused.
pub fn refused_plan(
    alloc: Global,
    path: &str,
    text: &[u8],
    fault: PlanFault,
) -> Result<String, AllocError> {
    let detail = in_plan(alloc, text, fault)?;
    refused(alloc, "plan", path, fault.number(), &fault, detail)
}

/// Writes where a breach is: the segment's name, its sequence, field, repetition, component and subcomponent, up to the last that is said.
pub fn write_place<O: Write>(output: &mut O, breach: Breach) -> io::Result<()> {
    write!(output, "{}", breach.segment.escape_ascii())?;
    for number in [
        breach.sequence,
        breach.field,
        breach.rep,
        breach.comp,
        breach.sub,
    ] {
        if number > 0 {
            write!(output, "^{number}")?;
        }
    }
    Ok(())
}
