//! How far an open block reaches into the bytes that come next.
ghost use Rattle.std.specs.Prelude.{◌≡◌, ◌≤◌, ◌<◌, ◌↔◌, ◌++◌, ◌∷◌, [], length, slice_index, take, IsTrue, IfSome, IfNone};
ghost use Rattle.memchr.specs.Find.{FindsNeedle, IsFirst, Passes, is_byte};
ghost use Rattle.gw_mllp.specs.Stream.{HasNoEnd, content_len};
ghost use Rattle.gw_mllp.specs.Taken.{EndsAt, IsLone, Reaches, Straddles};

use crate::bytes::{CR, FS, LIMIT, ends_in_fs};
use memchr::memchr;

/// How far an open block reaches into the bytes that come next.
pub(crate) enum Reach<'a> {
    /// It is still open after all of them.
    Open,
    /// It is longer than allowed.
    TooLong,
    /// It ends with the first of these two runs; the other follows it.
    Ends(&'a [u8], &'a [u8]),
}

/// The index of the first FS from this one on.
fn next_fs(bytes: &[u8], from: usize) -> Option<usize>
    requires { from ≤ length bytes.now }
    ensures { IsFirst (Passes (is_byte 28) bytes.now) from (length bytes.now) result }
{
    match memchr(FS, &bytes[from..]) {
        None => None,
        Some(at) => Some(from + at),
    }
}

/// Whether a CR stands at this index.
fn is_cr_at(bytes: &[u8], at: usize) -> bool
    ensures { IsTrue result ↔ ((at < length bytes.now) × (slice_index bytes.now at ≡ 13)) }
{
    if at >= bytes.len() {
        return false;
    }
    bytes[at] == CR
}

/// The index of the first FS CR. Few contents have an FS elsewhere.
pub(crate) fn find_end(bytes: &[u8]) -> Option<usize>
    ensures { FindsNeedle bytes.now (28 ∷ 13 ∷ []) 0 result }
{
    let mut from = 0;
    while let Some(at) = next_fs(bytes, from) {
        if is_cr_at(bytes, at + 1) {
            return Some(at);
        }
        from = at + 1;
    }
    None
}

/// Whether the content ends in FS, and these bytes begin with CR.
fn is_ended_by(content: &[u8], bytes: &[u8]) -> bool
    ensures { IsTrue result ↔ Straddles content.now bytes.now }
{
    match bytes {
        [CR, ..] => ends_in_fs(content),
        _ => false,
    }
}

/// The number of these bytes that belong to the block, with its FS CR, if it ends within them. `content` is what it has so far.
fn end_of(content: &[u8], bytes: &[u8]) -> Option<usize>
    ensures within { IfSome result (λ n. n ≤ length bytes.now) }
    ensures ends { IfSome result (λ n. EndsAt content.now (take n bytes.now)) }
    ensures open { IfNone result (HasNoEnd content.now → HasNoEnd (content.now ++ bytes.now)) }
{
    if is_ended_by(content, bytes) {
        return Some(1);
    }
    match find_end(bytes) {
        None => None,
        Some(at) => Some(at + 2),
    }
}

/// The length of the content and these bytes together, without one last FS.
fn content_len(content: &[u8], bytes: &[u8]) -> usize
    ensures { result ≡ content_len (content.now ++ bytes.now) }
{
    let len = content.len() + bytes.len();
    let last = if bytes.is_empty() { content } else { bytes };
    if ends_in_fs(last) { len - 1 } else { len }
}

/// The byte of a piece of one byte, if it neither ends the block nor makes it too long. A slow line brings such pieces.
pub(crate) fn lone_byte(content: &[u8], piece: &[u8]) -> Option<u8>
    ensures { IfSome result (λ byte. IsLone content.now piece.now byte) }
{
    match piece {
        [byte] if *byte != CR && content.len() < LIMIT => Some(*byte),
        _ => None,
    }
}

/// How far the block that has this content so far reaches into the bytes.
pub(crate) fn reach_into<'a>(content: &[u8], bytes: &'a [u8]) -> Reach<'a>
    ensures { Reaches content.now bytes.now result }
{
    let Some(n) = end_of(content, bytes) else {
        if content_len(content, bytes) > LIMIT {
            return Reach::TooLong;
        }
        return Reach::Open;
    };
    let (run, after) = bytes.split_at(n);
    if content.len() + run.len() > LIMIT + 2 {
        return Reach::TooLong;
    }
    Reach::Ends(run, after)
}
