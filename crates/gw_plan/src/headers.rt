//! The first lines of a plan's inner texts: the names of profiles and maps.
ghost use Rattle.std.specs.Prelude.{◌≡◌, map, IfOk};
ghost use Rattle.std.specs.Option.{option_map};
ghost use Rattle.gw_lines.specs.Seen.{word};
ghost use Rattle.gw_plan.specs.Inner as spec;
ghost use Rattle.gw_plan.specs.own.Made.{inner, IsNumbered, map_header};

use crate::inner::{Inner, first_said};
use gw_lines::{Word, behind, name_at};
use std::alloc::{AllocError, Global};

/// The first line of a map: its number, the map's name, and the names of the two profiles.
#[derive(Clone, Copy, Drop)]
pub(crate) struct MapHeader<'a> {
    pub(crate) line: u64,
    pub(crate) name: &'a [u8],
    pub(crate) source: &'a [u8],
    pub(crate) target: &'a [u8],
}

// The name after a keyword.
fn name_behind<'a, 'w>(keyword: &[u8], words: &'w [Word<'a>]) -> Option<(&'a [u8], &'w [Word<'a>])>
    ensures { option_map (λ n. (n.0.now, map word n.1.now)) result ≡ spec.name_behind keyword.now (map word words.now) }
{
    let more = behind(keyword, words)?;
    name_at(more)
}

// The name of a profile, by its first line.
fn profile_header_of<'a>(line: u64, words: &[Word<'a>]) -> Option<(u64, &'a [u8])>
    ensures { option_map (λ h. (h.0, h.1.now)) result ≡ spec.profile_header_of (line, map word words.now) }
{
    let (name, more) = name_behind(b"profile", words)?;
    if more.is_empty() {
        Some((line, name))
    } else {
        None
    }
}

/// The name of a profile by its first line, with the number of that line.
pub(crate) fn profile_header<'a>(
    alloc: Global,
    part: &Inner<'_, 'a>,
) -> Result<Option<(u64, &'a [u8])>, AllocError>
    requires { IsNumbered (inner part.now) }
    ensures { IfOk result (λ head. option_map (λ h. (h.0, h.1.now)) head ≡ spec.profile_header (inner part.now)) }
{
    match first_said(alloc, part.at + 1, part.lines)? {
        None => Ok(None),
        Some((line, words)) => Ok(profile_header_of(line, &words)),
    }
}

// The names of the two profiles, if nothing follows them.
fn profiles_at<'a>(words: &[Word<'a>]) -> Option<(&'a [u8], &'a [u8])>
    ensures { option_map (λ s. (s.0.now, s.1.now)) result ≡ spec.profiles_at (map word words.now) }
{
    let (source, more) = name_behind(b"from", words)?;
    let (target, more) = name_behind(b"to", more)?;
    if more.is_empty() {
        Some((source, target))
    } else {
        None
    }
}

// The header of a map, by its first line.
fn map_header_of<'a>(line: u64, words: &[Word<'a>]) -> Option<MapHeader<'a>>
    ensures { option_map map_header result ≡ spec.map_header_of (line, map word words.now) }
{
    let (name, more) = name_behind(b"map", words)?;
    let (source, target) = profiles_at(more)?;
    Some(MapHeader {
        line,
        name,
        source,
        target,
    })
}

/// The header of a map, by its first line.
pub(crate) fn map_header<'a>(
    alloc: Global,
    part: &Inner<'_, 'a>,
) -> Result<Option<MapHeader<'a>>, AllocError>
    requires { IsNumbered (inner part.now) }
    ensures { IfOk result (λ head. option_map map_header head ≡ spec.map_header (inner part.now)) }
{
    match first_said(alloc, part.at + 1, part.lines)? {
        None => Ok(None),
        Some((line, words)) => Ok(map_header_of(line, &words)),
    }
}
