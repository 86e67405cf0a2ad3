//! Which texts are canonical.
ghost use Rattle.std.specs.Prelude.{◌≡◌, ◌↔◌, ◌∷◌, IsTrue, MatchOption};
ghost use Rattle.std.specs.List.{list_all};
ghost use Rattle.gw_er7.specs.Text.{is_canonical, IsCanonical};
ghost use Rattle.gw_er7.specs.own.Canonical.{is_plain, Follows};

use crate::escapes::is_special;
use memchr::memchr;

fn is_plain(byte: u8) -> bool
    ensures { result ≡ is_plain byte }
{
    (byte >= 32 || byte == b'\t') && !is_special(byte)
}

fn are_plain(bytes: &[u8]) -> bool
    ensures { result ≡ list_all is_plain bytes.now }
{
    bytes.iter().all(|byte| is_plain(*byte))
}

/// What stands behind the plain byte or the escape with which a text begins, where it begins with one.
fn behind_first(first: u8, after: &[u8]) -> Option<&[u8]>
    ensures { MatchOption result (IsCanonical (first ∷ after.now) → ⊥) (λ rest. Follows (first ∷ after.now) rest.now) }
{
    if is_plain(first) {
        return Some(after);
    }
    if first != b'\\' {
        return None;
    }
    let end = memchr(b'\\', after)?;
    let body = &after[..end];
    if body.is_empty() {
        return None;
    }
    if !are_plain(body) {
        return None;
    }
    Some(&after[end + 1..])
}

/// Whether a text is canonical: plain bytes and escapes `\body\`, as values are kept. It takes no memory.
pub fn is_canonical(text: &[u8]) -> bool
    ensures value { result ≡ is_canonical text.now }
    ensures canonical { IsTrue result ↔ IsCanonical text.now }
{
    let mut rest = text;
    while let [first, after @ ..] = rest {
        match behind_first(*first, after) {
            Some(behind) => rest = behind,
            None => return false,
        }
    }
    true
}
