//! What was expected at a line that fits no pattern of a profile.
ghost use Rattle.std.specs.Prelude.{◌≡◌, IfOk};
ghost use Rattle.gw_profile.specs.Patterns as spec;

use gw_lines::{Expected, keyword_of, line_at};
use std::alloc::{AllocError, Global};

// The pattern of the lines with this keyword; all keywords for any other word.
fn pattern(keyword: &[u8]) -> &'static [u8]
    ensures { result.now ≡ spec.pattern keyword.now }
{
    if keyword == b"profile".as_slice() {
        return b"profile NAME, as the first line";
    }
    if keyword == b"table".as_slice() {
        return b"table NAME VALUE ..";
    }
    if keyword == b"segment".as_slice() {
        return b"segment SEG [as LABEL] USAGE CARD";
    }
    if keyword == b"field".as_slice() {
        return b"field N USAGE CARD [leaf] [len N] [table NAME], below a segment";
    }
    if keyword == b"comp".as_slice() {
        return b"comp N USAGE [leaf] [len N] [table NAME], below a field";
    }
    if keyword == b"sub".as_slice() {
        return b"sub N USAGE [len N] [table NAME], below a component";
    }
    if keyword == b"group".as_slice() {
        return b"group LABEL USAGE CARD";
    }
    if keyword == b"end".as_slice() {
        return b"end, of a group";
    }
    if keyword == b"count".as_slice() {
        return b"count characters, directly below profile NAME";
    }
    b"profile, count, table, segment, field, comp, sub, group or end"
}

/// What was expected at the line of this number, from 1, of a text that is no profile: the pattern of its keyword, or all keywords.
/// Behind the last line it is what is missing. The one error is allocation failure.
pub fn expected(alloc: Global, text: &[u8], at: u32) -> Result<Expected<'_>, AllocError>
    ensures { IfOk result (λ e. (e.pattern.now, e.found.now) ≡ spec.expected text.now at) }
{
    match line_at(alloc, text, at)? {
        None => Ok(Expected {
            pattern: b"profile NAME, or the end of a group",
            found: b"",
        }),
        Some(found) => Ok(Expected {
            pattern: pattern(keyword_of(found)),
            found,
        }),
    }
}
