//! What was expected at a line that is no line of its form, and what is wrong with a profile or a map of a plan.
use crate::above::{
    begin_above, closed_above, depth_of, open_above, said_above, word_at, words_in,
};
use crate::advice::{advice, behind, line_at};
use gw_lines::{Expected, Word, bytes_of, keyword_of};
use gw_maplang::{MapFault, is_kept};
use gw_plan::PlanFault;
use gw_profile::ProfileFault;
use std::alloc::{AllocError, Global};

/// What is reported beside the number of a fault: the line or segment name that goes with its number, and what was expected at the line, where the fault doesn't say it all.
#[derive(Drop)]
pub(crate) enum Detail {
    Whole,
    Name([u8; 3]),
    Line(u32),
    Expected(u32, String),
}

/// What was expected, and the line that was found.
fn expected_of(alloc: Global, pattern: &[u8], found: &[u8]) -> Result<String, AllocError> {
    let expected = Expected { pattern, found };
    format!(in alloc; "{expected}")
}

/// What is printed of a line that says again what stands above it.
fn of_duplicate(alloc: Global, text: &[u8], line: u32) -> Result<String, AllocError> {
    let found = line_at(text, line);
    match said_above(alloc, text, line)? {
        0 => expected_of(alloc, b"each value once", found),
        above if depth_of(keyword_of(found)) > 0 => {
            let pattern = format!(in alloc; "a greater number than in line {above}")?;
            expected_of(alloc, pattern.as_bytes(), found)
        }
        above => format!(in alloc; "line {above} says this already"),
    }
}

/// What is printed of a line of a profile whose usage and cardinality don't agree.
fn of_usage(alloc: Global, text: &[u8], line: u32) -> Result<String, AllocError> {
    let found = line_at(text, line);
    let words = words_in(alloc, found)?;
    let is_renamed = word_at(&words, 2) == b"as".as_slice();
    let usage = word_at(&words, if is_renamed { 4 } else { 2 });
    let pattern: &[u8] = match usage {
        b"C" | b"CE" => b"usage R, RE, O or X; C and CE are not supported",
        b"R" => b"R with a cardinality from 1 on, as 1..1 or 1..*",
        b"X" if word_at(&words, 0) == b"group".as_slice() => {
            b"a group of usage R, RE or O; leave out one that nobody sends"
        }
        b"X" => b"X with the cardinality 0..0",
        _ => b"RE and O with a cardinality from 0 to 1 or more, as 0..1 or 0..*",
    };
    expected_of(alloc, pattern, found)
}

/// What is printed of a line that is no line of a profile or a map: that the end of what is open is missing, or what was expected, with the line that would hold it
/// and takes none.
fn of_line(
    alloc: Global,
    text: &[u8],
    line: u32,
    expected: Expected<'_>,
) -> Result<String, AllocError> {
    let found = line_at(text, line);
    let open = open_above(alloc, text, line)?;
    if open > 0 && (found.is_empty() || found == b"stop".as_slice()) {
        let found = found.escape_ascii();
        return format!(in alloc;
            "expected: the end of what line {open} begins, found: \"{found}\""
        );
    }
    match closed_above(alloc, text, line)? {
        0 => format!(in alloc; "{expected}"),
        closed => format!(in alloc; "{expected}; line {closed} takes no line below it"),
    }
}

/// The condition in a pattern, without its `where`, if the pattern has one.
fn condition_in(pattern: &[u8]) -> Option<&str> {
    let (_, behind) = str::from_utf8(pattern).ok()?.split_once("[where ")?;
    let (asked, _) = behind.split_once(" ..]")?;
    Some(asked)
}

/// The first value of a condition that has to stand in quotation marks and doesn't.
fn kept_in<'t>(words: &[Word<'t>]) -> Option<&'t [u8]> {
    let asked = words.iter().position(|word| word.is(b"where"))?;
    if !words.get(asked + 2)?.is(b"is") {
        return None;
    }
    let values = words.get(asked + 3..)?;
    let kept = values.iter().find(|word| is_kept(**word))?;
    Some(bytes_of(*kept))
}

/// What is printed of a line that is no line of a map: which value of its condition has to stand in quotation marks, or what is printed of any line.
fn of_map_line(alloc: Global, text: &[u8], line: u32) -> Result<String, AllocError> {
    let expected = gw_maplang::expected(alloc, text, line)?;
    let words = words_in(alloc, expected.found)?;
    let (Some(asked), Some(kept)) = (condition_in(expected.pattern), kept_in(&words)) else {
        return of_line(alloc, text, line, expected);
    };
    let found = expected_of(alloc, b"", expected.found)?;
    let found = found.strip_prefix("expected: ").unwrap_or("");
    format!(in alloc;
        "expected: {asked} .., a value \"{}\" is written in quotation marks{found}",
        kept.escape_ascii()
    )
}

/// What is reported of a profile that is refused.
pub(crate) fn in_profile(
    alloc: Global,
    text: &[u8],
    fault: ProfileFault,
) -> Result<Detail, AllocError> {
    let (line, said) = match fault {
        ProfileFault::Memory => return Err(AllocError),
        ProfileFault::Syntax(line) => {
            let expected = gw_profile::expected(alloc, text, line)?;
            (line, of_line(alloc, text, line, expected)?)
        }
        ProfileFault::Usage(line) => (line, of_usage(alloc, text, line)?),
        ProfileFault::Duplicate(line) => (line, of_duplicate(alloc, text, line)?),
        ProfileFault::UnknownTable(line) => return Ok(Detail::Line(line)),
        ProfileFault::EmptyGroup(line) => return Ok(Detail::Line(line)),
        ProfileFault::TooDeep(line) => return Ok(Detail::Line(line)),
        ProfileFault::Ambiguous(name) => return Ok(Detail::Name(name)),
        ProfileFault::Header | ProfileFault::TooLarge => return Ok(Detail::Whole),
    };
    Ok(Detail::Expected(line, said))
}

/// What is reported of a map that is refused.
pub(crate) fn in_map(alloc: Global, text: &[u8], fault: MapFault) -> Result<Detail, AllocError> {
    let (line, said) = match fault {
        MapFault::Memory => return Err(AllocError),
        MapFault::Syntax(line) => (line, of_map_line(alloc, text, line)?),
        MapFault::Duplicate(line) => (line, of_duplicate(alloc, text, line)?),
        MapFault::UnknownTable(line) => return Ok(Detail::Line(line)),
        MapFault::BadConstant(line) => return Ok(Detail::Line(line)),
        MapFault::TooDeep(line) => return Ok(Detail::Line(line)),
        MapFault::TooLarge => return Ok(Detail::Whole),
    };
    Ok(Detail::Expected(line, said))
}

/// The patterns of a plan's lines, each behind its keyword.
const PATTERNS: [(&[u8], &[u8]); 8] = [
    (b"plan", b"plan NAME, as the first line"),
    (b"language", b"language 2, directly below plan NAME"),
    (b"receiver", b"receiver NAME ADDRESS"),
    (
        b"accept",
        b"accept version WORD .. or accept processing WORD ..",
    ),
    (
        b"begin",
        b"begin profile or begin map, below the first line",
    ),
    (b"stop", b"stop, behind the lines of a profile or a map"),
    (b"route", b"route CODE EVENT from PROFILE"),
    (b"to", b"to RECEIVER by MAP, below a route"),
];

/// The same of the lines of a plan that differ in language 2.
const WIDE_PATTERN: &[u8] =
    b"route CODE EVENT [of MSH-n WORD ..] from PROFILE, n one of 3, 4, 5, 6 and 21";

/// Whether `language 2` comes right behind the first line of a plan.
fn is_wide(alloc: Global, text: &[u8]) -> Result<bool, AllocError> {
    let mut is_below = false;
    for line in text.split(|byte| *byte == b'\n') {
        let words = words_in(alloc, line.trim_ascii())?;
        if is_below && !words.is_empty() {
            return Ok(
                words.len() == 2
                    && word_at(&words, 0) == b"language".as_slice()
                    && word_at(&words, 1) == b"2".as_slice(),
            );
        }
        is_below = is_below || !words.is_empty();
    }
    Ok(false)
}

/// The pattern of a plan's lines with this keyword, or all keywords where it is none.
fn pattern(alloc: Global, text: &[u8], keyword: &[u8]) -> Result<&'static [u8], AllocError> {
    if keyword == b"route".as_slice() && is_wide(alloc, text)? {
        return Ok(WIDE_PATTERN);
    }
    for (word, said) in PATTERNS {
        if word == keyword {
            return Ok(said);
        }
    }
    Ok(b"plan, receiver, accept, begin, stop, route or to")
}

/// What was expected at a line of a plan, or of a profile or map within it; behind the last line what is missing.
fn of_plan(alloc: Global, text: &[u8], line: u32) -> Result<String, AllocError> {
    let begin = begin_above(text, line);
    let Some(found) = gw_lines::line_at(alloc, text, line)? else {
        return match begin {
            0 => expected_of(alloc, b"plan NAME", b""),
            _ => format!(in alloc; "expected: the stop of what line {begin} begins, found: \"\""),
        };
    };
    let begun = line_at(text, begin).strip_prefix(b"begin".as_slice());
    let expected = match keyword_of(begun.unwrap_or(&[])) {
        b"profile" => gw_profile::expected(alloc, text, line)?,
        b"map" => gw_maplang::expected(alloc, text, line)?,
        _ => Expected {
            pattern: pattern(alloc, text, keyword_of(found))?,
            found,
        },
    };
    format!(in alloc; "{expected}")
}

/// The lines before the first line `stop`.
pub(crate) fn up_to_stop(whole: &[u8]) -> &[u8] {
    let mut rest = whole;
    for _ in 0..whole.len() {
        if line_at(rest, 1) == b"stop".as_slice() {
            return whole.strip_suffix(rest).unwrap_or(whole);
        }
        rest = behind(rest, 1);
    }
    whole
}

/// The fault of this number of a profile in a plan, at the plan's line.
fn profile_fault(alloc: Global, text: &[u8], line: u32, number: u8) -> ProfileFault {
    match number {
        2 => ProfileFault::Syntax(line),
        3 => ProfileFault::Usage(line),
        4 => ProfileFault::Duplicate(line),
        5 => ProfileFault::UnknownTable(line),
        6 => ProfileFault::EmptyGroup(line),
        // (this one has a name, and the line before the profile: what was refused is refused again)
        7 => match gw_profile::parse(alloc, up_to_stop(behind(text, line))) {
            Err(fault) => fault,
            Ok(_) => ProfileFault::Memory,
        },
        8 => ProfileFault::Header,
        9 => ProfileFault::TooDeep(line),
        10 => ProfileFault::TooLarge,
        _ => ProfileFault::Memory,
    }
}

/// What is wrong with a profile of a plan.
fn of_profile(alloc: Global, text: &[u8], line: u32, number: u8) -> Result<String, AllocError> {
    let fault = profile_fault(alloc, text, line, number);
    match in_profile(alloc, text, fault)? {
        Detail::Expected(_, said) => format!(in alloc; "profile refused {number}: {said}"),
        Detail::Name(name) => {
            format!(in alloc; "profile refused {number} {}: {fault}", name.escape_ascii())
        }
        _ => format!(in alloc; "profile refused {number}: {fault}"),
    }
}

/// What is wrong with a map of a plan.
fn of_map(alloc: Global, text: &[u8], line: u32, number: u8) -> Result<String, AllocError> {
    let fault = match number {
        2 => MapFault::Syntax(line),
        3 => MapFault::UnknownTable(line),
        4 => MapFault::BadConstant(line),
        5 => MapFault::Duplicate(line),
        6 => MapFault::TooDeep(line),
        7 => MapFault::TooLarge,
        _ => MapFault::Memory,
    };
    match in_map(alloc, text, fault)? {
        Detail::Expected(_, said) => format!(in alloc; "map refused {number}: {said}"),
        _ => format!(in alloc; "map refused {number}: {fault}"),
    }
}

/// What is reported of a plan that is refused.
pub(crate) fn in_plan(alloc: Global, text: &[u8], fault: PlanFault) -> Result<Detail, AllocError> {
    let line = u32::try_from(fault.line()).unwrap_or(u32::MAX);
    let said = match fault {
        PlanFault::Memory => return Err(AllocError),
        PlanFault::Syntax(_) => of_plan(alloc, text, line)?,
        PlanFault::Profile { number, .. } => of_profile(alloc, text, line, number)?,
        PlanFault::Map { number, .. } => of_map(alloc, text, line, number)?,
        PlanFault::Check { rule, .. } => {
            let said = line_at(text, line).escape_ascii();
            format!(in alloc; "refused K{rule}: {said}\n{}", advice(rule))?
        }
        PlanFault::Duplicate(_) => of_duplicate(alloc, text, line)?,
        PlanFault::TooLarge => return Ok(Detail::Whole),
        _ => return Ok(Detail::Line(line)),
    };
    Ok(Detail::Expected(line, said))
}
