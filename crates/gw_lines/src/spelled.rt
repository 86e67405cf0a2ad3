//! Names, numbers and ranges that words spell.
ghost use Rattle.std.specs.Prelude.{◌≡◌, ◌≤◌, ◌<◌, IsTrue, MatchOption, if◌then◌else◌, Some, None};
ghost use Rattle.std.specs.List.{list_all, position};
ghost use Rattle.gw_er7.specs.Names as Names;
ghost use Rattle.gw_lines.specs.Spelled.{is_name_byte, is_name, is_digit, is_decimal, decimal, number, is_dot, greatest, behind_dot, range};

use crate::words::Word;
use gw_er7::is_segment_name;

fn is_name_byte(byte: u8) -> bool
    ensures { result ≡ is_name_byte byte }
{
    matches!(byte, b'0'..=b'9' | b'A'..=b'Z' | b'a'..=b'z' | b'_')
}

fn are_name_bytes(bytes: &[u8]) -> bool
    ensures { result ≡ list_all is_name_byte bytes.now }
{
    bytes.iter().all(|byte| is_name_byte(*byte))
}

/// Whether this is a name: 1 to 40 letters, digits or `_`. It takes no memory.
pub fn is_name(bytes: &[u8]) -> bool
    ensures { result ≡ is_name bytes.now }
{
    1 <= bytes.len() && bytes.len() <= 40 && are_name_bytes(bytes)
}

fn is_digit(byte: u8) -> bool
    ensures { result ≡ is_digit byte }
{
    byte.is_ascii_digit()
}

// These bytes as the name of a segment, if they are one.
fn segment_name(bytes: &[u8]) -> Option<[u8; 3]>
    ensures { result ≡ (if Names.is_name bytes.now then Some bytes.now else None) }
{
    match bytes {
        [a, b, c] if is_segment_name(bytes) => Some([*a, *b, *c]),
        _ => None,
    }
}

fn are_digits(bytes: &[u8]) -> bool
    ensures { result ≡ list_all is_digit bytes.now }
{
    bytes.iter().all(|byte| is_digit(*byte))
}

fn is_decimal(bytes: &[u8]) -> bool
    ensures { result ≡ is_decimal bytes.now }
{
    match bytes {
        [] => false,
        [digit] => is_digit(*digit),
        [first, more @ ..] => is_digit(*first) && *first != b'0' && are_digits(more),
    }
}

// The value of these digits; `None` where it is above every bound.
fn value_of(digits: &[u8]) -> Option<u32>
    requires { IsTrue (is_decimal digits.now) }
    ensures { MatchOption result (999999 < decimal 0 digits.now) (λ n. n ≡ decimal 0 digits.now) }
{
    let mut value: u32 = 0;
    for digit in digits {
        if value > 99_999 {
            return None;
        }
        value = value * 10 + u32::from(*digit - b'0');
    }
    Some(value)
}

/// The number, from `low` to `high`, that these bytes spell without needless zeros. It takes no memory.
pub fn number(low: u32, high: u32, bytes: &[u8]) -> Option<u32>
    requires { high ≤ 999999 }
    ensures { result ≡ number low high bytes.now }
{
    if !is_decimal(bytes) {
        return None;
    }
    let value = value_of(bytes)?;
    if low <= value && value <= high {
        Some(value)
    } else {
        None
    }
}

fn first_dot(bytes: &[u8]) -> Option<usize>
    ensures { result ≡ position is_dot bytes.now }
{
    bytes.iter().position(|byte| *byte == b'.')
}

// A number up to 9999, or `*` for no upper bound.
fn greatest(bytes: &[u8]) -> Option<Option<u32>>
    ensures { result ≡ greatest bytes.now }
{
    if bytes == b"*".as_slice() {
        return Some(None);
    }
    let high = number(0, 9999, bytes)?;
    Some(Some(high))
}

fn behind_dot(bytes: &[u8]) -> Option<Option<u32>>
    ensures { result ≡ behind_dot bytes.now }
{
    match bytes {
        [b'.', behind @ ..] => greatest(behind),
        _ => None,
    }
}

fn range(bytes: &[u8]) -> Option<(u32, Option<u32>)>
    ensures { result ≡ range bytes.now }
{
    let dot = first_dot(bytes)?;
    let low = number(0, 9999, &bytes[..dot])?;
    let high = behind_dot(&bytes[dot + 1..])?;
    Some((low, high))
}

impl<'a> Word<'a> {
    ghost use Rattle.std.specs.Prelude.{◌≡◌, ◌≤◌};
    ghost use Rattle.std.specs.Option.{option_map};
    ghost use Rattle.gw_lines.specs.Spelled.{is_keyword, plain_bytes, name, segment_word, number_word, range_word};
    ghost use Rattle.gw_lines.specs.Seen.{word};

    /// Whether the word is this one, without quotes.
    pub fn is(self, keyword: &[u8]) -> bool
        ensures { result ≡ is_keyword keyword.now (word self.entry) }
    {
        match self {
            Word::Plain(bytes) => bytes == keyword,
            Word::Quoted(_) => false,
        }
    }

    /// The bytes of a word without quotes.
    pub fn plain(self) -> Option<&'a [u8]>
        ensures { option_map (λ bytes. bytes.now) result ≡ plain_bytes (word self.entry) }
    {
        match self {
            Word::Plain(bytes) => Some(bytes),
            Word::Quoted(_) => None,
        }
    }

    /// The name that the word is: 1 to 40 letters, digits or `_`.
    pub fn name(self) -> Option<&'a [u8]>
        ensures { option_map (λ bytes. bytes.now) result ≡ name (word self.entry) }
    {
        let bytes = self.plain()?;
        if is_name(bytes) { Some(bytes) } else { None }
    }

    /// The name of a segment that the word is: a capital letter, and two capital letters or digits.
    pub fn segment(self) -> Option<[u8; 3]>
        ensures { result ≡ segment_word (word self.entry) }
    {
        let bytes = self.plain()?;
        segment_name(bytes)
    }

    /// The number, from `low` to `high`, that the word spells without needless zeros.
    pub fn number(self, low: u32, high: u32) -> Option<u32>
        requires { high ≤ 999999 }
        ensures { result ≡ number_word low high (word self.entry) }
    {
        let bytes = self.plain()?;
        number(low, high, bytes)
    }

    /// The range `a..b` or `a..*` that the word spells.
    pub fn range(self) -> Option<(u32, Option<u32>)>
        ensures { result ≡ range_word (word self.entry) }
    {
        let bytes = self.plain()?;
        range(bytes)
    }
}
