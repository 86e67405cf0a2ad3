//! Parts of a line, word by word. Each function returns what the first words spell, with the words that follow.
ghost use Rattle.std.specs.Prelude.{◌≡◌, ◌≤◌, map, IfOk};
ghost use Rattle.std.specs.Option.{option_map};
ghost use Rattle.gw_lines.specs.Seen.{word};
ghost use Rattle.gw_lines.specs.Parts as spec;

use crate::values::value_bytes;
use crate::words::Word;
use std::alloc::{AllocError, Global};

/// The first word.
pub fn first_word<'a, 'w>(words: &'w [Word<'a>]) -> Option<(Word<'a>, &'w [Word<'a>])>
    ensures { option_map (λ w. (word w.0, map word w.1.now)) result ≡ spec.first_word (map word words.now) }
{
    match words {
        [] => None,
        [first, more @ ..] => Some((*first, more)),
    }
}

/// A name or label.
pub fn name_at<'a, 'w>(words: &'w [Word<'a>]) -> Option<(&'a [u8], &'w [Word<'a>])>
    ensures { option_map (λ w. (w.0.now, map word w.1.now)) result ≡ spec.name_at (map word words.now) }
{
    let (first, more) = first_word(words)?;
    let name = first.name()?;
    Some((name, more))
}

/// The name of a segment.
pub fn segment_at<'a, 'w>(words: &'w [Word<'a>]) -> Option<([u8; 3], &'w [Word<'a>])>
    ensures { option_map (λ w. (w.0, map word w.1.now)) result ≡ spec.segment_at (map word words.now) }
{
    let (first, more) = first_word(words)?;
    let name = first.segment()?;
    Some((name, more))
}

/// A number from 1 to `high`, without needless zeros.
pub fn number_at<'a, 'w>(high: u32, words: &'w [Word<'a>]) -> Option<(u32, &'w [Word<'a>])>
    requires { high ≤ 999999 }
    ensures { option_map (λ w. (w.0, map word w.1.now)) result ≡ spec.number_at high (map word words.now) }
{
    let (first, more) = first_word(words)?;
    let number = first.number(1, high)?;
    Some((number, more))
}

/// A range `a..b` or `a..*`.
pub fn range_at<'a, 'w>(words: &'w [Word<'a>]) -> Option<((u32, Option<u32>), &'w [Word<'a>])>
    ensures { option_map (λ w. (w.0, map word w.1.now)) result ≡ spec.range_at (map word words.now) }
{
    let (first, more) = first_word(words)?;
    let range = first.range()?;
    Some((range, more))
}

/// A value: a canonical text that isn't empty.
pub fn value_at<'a, 'w>(words: &'w [Word<'a>]) -> Option<(&'a [u8], &'w [Word<'a>])>
    ensures { option_map (λ w. (w.0.now, map word w.1.now)) result ≡ spec.value_at (map word words.now) }
{
    let (first, more) = first_word(words)?;
    let value = value_bytes(first)?;
    Some((value, more))
}

/// The words after this keyword, if it is the first word.
pub fn behind<'a, 'w>(keyword: &[u8], words: &'w [Word<'a>]) -> Option<&'w [Word<'a>]>
    ensures { option_map (λ more. map word more.now) result ≡ spec.behind keyword.now (map word words.now) }
{
    match words {
        [] => None,
        [first, more @ ..] => {
            if first.is(keyword) {
                return Some(more);
            }
            None
        }
    }
}

// The values of these words, if each is one.
fn values<'a>(alloc: Global, words: &[Word<'a>]) -> Result<Option<Vec<&'a [u8]>>, AllocError>
    ensures { IfOk result (λ found. option_map (λ v. map (λ b. b.now) v.items) found ≡ spec.values (map word words.now)) }
{
    let mut values = Vec::new(alloc);
    for next in words {
        let Some(value) = value_bytes(*next) else {
            return Ok(None);
        };
        values.push(value)?;
    }
    Ok(Some(values))
}

/// The values of these words, if there is at least one word and each is a value.
pub fn some_values<'a>(
    alloc: Global,
    words: &[Word<'a>],
) -> Result<Option<Vec<&'a [u8]>>, AllocError>
    ensures { IfOk result (λ found. option_map (λ v. map (λ b. b.now) v.items) found ≡ spec.some_values (map word words.now)) }
{
    if words.is_empty() {
        return Ok(None);
    }
    values(alloc, words)
}
