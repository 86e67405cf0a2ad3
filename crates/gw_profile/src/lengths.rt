//! The length of a text.
ghost use Rattle.std.specs.Prelude.{◌≡◌, count_by};
ghost use Rattle.gw_profile.specs.Lengths as spec;

use crate::shape::Count;

// Whether an octet begins a character in UTF-8.
fn begins_character(octet: u8) -> bool
    ensures { result ≡ spec.begins_character octet }
{
    !(0x80 <= octet && octet <= 0xbf)
}

// The number of octets that begin a character.
fn characters(text: &[u8]) -> u64
    ensures { result ≡ count_by spec.begins_character text.now }
{
    let mut count = 0;
    for octet in text {
        if begins_character(*octet) {
            count += 1;
        }
    }
    count
}

/// The length of a text by this count. It takes no memory.
pub fn measure(count: Count, text: &[u8]) -> u64
    ensures { result ≡ spec.measure count text.now }
{
    match count {
        Count::Octets => text.len() as u64,
        Count::Characters => characters(text),
    }
}
