//! Values of a line: canonical texts that aren't empty.
ghost use Rattle.std.specs.Prelude.{◌≡◌};
ghost use Rattle.std.specs.Option.{option_map};
ghost use Rattle.gw_lines.specs.Seen.{word};
ghost use Rattle.gw_lines.specs.Values.{is_value, bytes_of, value_bytes};

use crate::words::Word;
use gw_er7::is_canonical;

fn is_value(bytes: &[u8]) -> bool
    ensures { result ≡ is_value bytes.now }
{
    !bytes.is_empty() && is_canonical(bytes)
}

/// The bytes of a word; of a quoted one those between the quotes. It takes no memory.
pub fn bytes_of<'a>(from: Word<'a>) -> &'a [u8]
    ensures { result.now ≡ bytes_of (word from.entry) }
{
    match from {
        Word::Plain(bytes) => bytes,
        Word::Quoted(bytes) => bytes,
    }
}

/// The value that a word is: a canonical text that isn't empty.
pub fn value_bytes<'a>(from: Word<'a>) -> Option<&'a [u8]>
    ensures { option_map (λ bytes. bytes.now) result ≡ value_bytes (word from.entry) }
{
    let bytes = bytes_of(from);
    if is_value(bytes) { Some(bytes) } else { None }
}
