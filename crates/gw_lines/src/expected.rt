//! What was expected at a line that fits no pattern of its language.
ghost use Rattle.std.specs.Prelude.{◌≡◌, map, slice_get, IfOk};
ghost use Rattle.std.specs.Option.{option_map};
ghost use Rattle.gw_lines.specs.Words.{without_last};
ghost use Rattle.gw_lines.specs.Expected.{keyword_of, line_at};

use crate::lines::{lines_of, without_last};
use crate::words::{is_blank, to_blank};
use std::alloc::{AllocError, Global};
use std::fmt;
use std::fmt::{Display, Formatter, Write};

// At most this many bytes of a line are shown.
const MAX_SHOWN: usize = 100;

/// The pattern of the lines that are allowed at a place, and the line that was found there.
#[derive(Clone, Copy, Drop)]
pub struct Expected<'a> {
    pub pattern: &'a [u8],
    pub found: &'a [u8],
}

impl<'a> Display for Expected<'a> {
    fn fmt<W: Write>(&self, f: &mut Formatter<W>) -> fmt::Result {
        let shown = self.found.get(..MAX_SHOWN).unwrap_or(self.found);
        write!(
            f,
            "expected: {}, found: \"{}\"",
            self.pattern.escape_ascii(),
            shown.escape_ascii()
        )
    }
}

/// The first word of a line as it is written, whether the line is lawful or not. It takes no memory.
pub fn keyword_of(line: &[u8]) -> &[u8]
    ensures { result.now ≡ keyword_of line.now }
{
    for (i, byte) in line.iter().enumerate() {
        if !is_blank(*byte) {
            return to_blank(&line[i..]);
        }
    }
    &[]
}

/// The line of this number, from 1, without its end. `None` behind the last line.
pub fn line_at(alloc: Global, text: &[u8], at: u32) -> Result<Option<&[u8]>, AllocError>
    ensures { IfOk result (λ line. option_map (λ l. l.now) line ≡ line_at text.now at) }
{
    let all = lines_of(alloc, text)?;
    Ok(one_of(&all, (at as usize).saturating_sub(1)))
}

fn one_of<'a>(all: &[&'a [u8]], i: usize) -> Option<&'a [u8]>
    ensures { option_map (λ l. l.now) result ≡ option_map (without_last 13) (slice_get (map (λ l. l.now) all.now) i) }
{
    match all.get(i) {
        None => None,
        Some(line) => Some(without_last(b'\r', line)),
    }
}
