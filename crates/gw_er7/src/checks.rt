//! What is tested of the bytes, the header line and the other lines of a message.
ghost use Rattle.std.specs.Prelude.{◌≡◌, ◌≤◌, ◌↔◌, IsTrue, false, true, not, length, MatchOption, position};
ghost use Rattle.std.specs.List.{list_any};
ghost use Rattle.gw_er7.specs.Content.{is_allowed, delimiters_of, is_delimiter, are_distinct, are_delimiters, ends_at, is_delimited, is_segment_line};
ghost use Rattle.gw_er7.specs.Names.{is_header, is_name_byte, is_named, is_name, IsName};

use crate::delimiters::Delimiters;

fn is_allowed(byte: u8) -> bool
    ensures { result ≡ is_allowed byte }
{
    byte >= 32 || byte == b'\t' || byte == b'\r' || byte == b'\n'
}

/// The index of the first byte that no message may hold.
#[tactic(auto, using(crate::proofs::Controls::none_first))]
pub(crate) fn first_control(content: &[u8]) -> Option<usize>
    ensures { result ≡ position (λ b. not (is_allowed b)) content.now }
{
    if !has_control(content) {
        return None;
    }
    content.iter().position(|byte| !is_allowed(*byte))
}

// Whether some byte is one that no message may hold. It looks at all of them, so that many are tested at a time.
fn has_control(content: &[u8]) -> bool
    ensures { result ≡ list_any (λ b. not (is_allowed b)) content.now }
{
    let mut found = false;
    for byte in content {
        found = found | !is_allowed(*byte);
    }
    found
}

/// Whether the line begins with MSH.
pub(crate) fn is_header(line: &[u8]) -> bool
    ensures { result ≡ is_header line.now }
{
    line.len() >= 3 && line[0] == b'M' && line[1] == b'S' && line[2] == b'H'
}

fn is_delimiter(byte: u8) -> bool
    ensures { result ≡ is_delimiter byte }
{
    33 <= byte
        && byte <= 126
        && !byte.is_ascii_uppercase()
        && !byte.is_ascii_lowercase()
        && !byte.is_ascii_digit()
        && byte != b'"'
}

fn are_distinct(delimiters: Delimiters) -> bool
    ensures { result ≡ are_distinct delimiters }
{
    delimiters.field != delimiters.component
        && delimiters.field != delimiters.repetition
        && delimiters.field != delimiters.escape
        && delimiters.field != delimiters.subcomponent
        && delimiters.component != delimiters.repetition
        && delimiters.component != delimiters.escape
        && delimiters.component != delimiters.subcomponent
        && delimiters.repetition != delimiters.escape
        && delimiters.repetition != delimiters.subcomponent
        && delimiters.escape != delimiters.subcomponent
}

fn are_delimiters(delimiters: Delimiters) -> bool
    ensures { result ≡ are_delimiters delimiters }
{
    is_delimiter(delimiters.field)
        && is_delimiter(delimiters.component)
        && is_delimiter(delimiters.repetition)
        && is_delimiter(delimiters.escape)
        && is_delimiter(delimiters.subcomponent)
        && are_distinct(delimiters)
}

fn ends_at(field: u8, n: usize, line: &[u8]) -> bool
    requires { n ≤ length line.now }
    ensures { result ≡ ends_at field n line.now }
{
    line.len() == n || line[n] == field
}

/// The delimiters that stand behind MSH, where they do.
pub(crate) fn header_delimiters(line: &[u8]) -> Option<Delimiters>
    ensures { MatchOption result (is_delimited line.now ≡ false) (λ d. (is_delimited line.now ≡ true) × (d ≡ delimiters_of line.now)) }
{
    if line.len() < 8 {
        return None;
    }
    let delimiters = Delimiters {
        field: line[3],
        component: line[4],
        repetition: line[5],
        escape: line[6],
        subcomponent: line[7],
    };
    if are_delimiters(delimiters) && ends_at(delimiters.field, 8, line) {
        return Some(delimiters);
    }
    None
}

fn is_name_byte(byte: u8) -> bool
    ensures { result ≡ is_name_byte byte }
{
    byte.is_ascii_uppercase() || byte.is_ascii_digit()
}

fn is_named(line: &[u8]) -> bool
    ensures { result ≡ is_named line.now }
{
    line.len() >= 3
        && line[0].is_ascii_uppercase()
        && is_name_byte(line[1])
        && is_name_byte(line[2])
}

/// Whether the line is one of a segment other than MSH.
pub(crate) fn is_segment_line(field: u8, line: &[u8]) -> bool
    ensures { result ≡ is_segment_line field line.now }
{
    is_named(line) && !is_header(line) && ends_at(field, 3, line)
}

/// Whether the bytes are a lawful segment name. It takes no memory.
pub fn is_segment_name(name: &[u8]) -> bool
    ensures value { result ≡ is_name name.now }
    ensures lawful { IsTrue result ↔ IsName name.now }
{
    name.len() == 3 && is_named(name)
}
