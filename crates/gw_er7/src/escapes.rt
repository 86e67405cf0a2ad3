//! The canonical text of a raw value (HL7 v2.5.1 chapter 2, 2.7 "Use of escape sequences in text fields").
ghost use Rattle.std.specs.Prelude.{◌≡◌, ◌≤◌, ◌++◌, ◌∷◌, [], ◌==◌, ◌||◌, length, take, drop, position, IfOk, IfNone, IfSome, MatchOption, OnOk, false, not};
ghost use Rattle.std.specs.List.{list_all, position_or_len};
ghost use Rattle.memchr.specs.Find.{IsFirstByte, is_byte};
ghost use Rattle.gw_er7.specs.Text.{canon, escaped, plainly, meaning, delimiter_of, is_body, is_special, opens, IsBodyAt};

use crate::delimiters::Delimiters;
use memchr::memchr;
use std::alloc::{AllocError, Global};

pub(crate) fn is_special(byte: u8) -> bool
    ensures { result ≡ is_special byte }
{
    matches!(byte, b'|' | b'^' | b'~' | b'\\' | b'&')
}

fn has_no_special(bytes: &[u8]) -> bool
    ensures { result ≡ list_all (λ b. not (is_special b)) bytes.now }
{
    bytes.iter().all(|byte| !is_special(*byte))
}

fn is_body(body: &[u8]) -> bool
    ensures { result ≡ is_body body.now }
{
    !body.is_empty() && has_no_special(body)
}

// Where the first escape character stands. Behind many lone ones stands another or nothing, so no search is called for that.
#[tactic(auto, using(crate::proofs::Sequences::first_at_once, crate::proofs::Sequences::first_of_none))]
fn first_escape(escape: u8, bytes: &[u8]) -> Option<usize>
    ensures { IsFirstByte (is_byte escape) bytes.now result }
{
    if bytes.len() == 0 {
        return None;
    }
    if bytes[0] == escape {
        return Some(0);
    }
    memchr(escape, bytes)
}

/// The body of the sequence that begins with this byte, if one does.
fn body_at(delimiters: Delimiters, first: u8, after: &[u8]) -> Option<&[u8]>
    ensures none { IfNone result (opens delimiters first after.now ≡ false) }
    ensures some { IfSome result (λ body. IsBodyAt delimiters first after.now body.now) }
{
    if first != delimiters.escape {
        return None;
    }
    let end = first_escape(delimiters.escape, after)?;
    let body = &after[..end];
    if is_body(body) { Some(body) } else { None }
}

fn push_escaped(text: &mut Vec<u8>, body: &[u8]) -> Result<(), AllocError>
    ensures { OnOk result (text.new.items ≡ text.old.items ++ escaped body.now) }
{
    text.push(b'\\')?;
    text.extend_from_slice(body)?;
    text.push(b'\\')?;
    Ok(())
}

// The letter of the sequence in which canonical text has the byte, where it doesn't stand there as it is.
fn letter_of(byte: u8) -> Option<u8>
    ensures { MatchOption result (plainly byte ≡ byte ∷ []) (λ letter. plainly byte ≡ escaped (letter ∷ [])) }
{
    match byte {
        b'|' => Some(b'F'),
        b'^' => Some(b'S'),
        b'&' => Some(b'T'),
        b'~' => Some(b'R'),
        b'\\' => Some(b'E'),
        _ => None,
    }
}

fn push_plainly(text: &mut Vec<u8>, byte: u8) -> Result<(), AllocError>
    ensures { OnOk result (text.new.items ≡ text.old.items ++ plainly byte) }
{
    match letter_of(byte) {
        Some(letter) => text.extend_from_slice(&[b'\\', letter, b'\\']),
        None => {
            text.push(byte)?;
            Ok(())
        }
    }
}

fn delimiter_of(delimiters: Delimiters, body: &[u8]) -> Option<u8>
    ensures { result ≡ delimiter_of delimiters body.now }
{
    match body {
        b"F" => Some(delimiters.field),
        b"S" => Some(delimiters.component),
        b"T" => Some(delimiters.subcomponent),
        b"R" => Some(delimiters.repetition),
        b"E" => Some(delimiters.escape),
        _ => None,
    }
}

fn push_meaning(text: &mut Vec<u8>, delimiters: Delimiters, body: &[u8]) -> Result<(), AllocError>
    ensures { OnOk result (text.new.items ≡ text.old.items ++ meaning delimiters body.now) }
{
    match delimiter_of(delimiters, body) {
        Some(byte) => push_plainly(text, byte),
        None => push_escaped(text, body),
    }
}

/// The place of the first byte that is special or the sender's escape character.
fn first_stop(delimiters: Delimiters, raw: &[u8]) -> Option<usize>
    ensures { result ≡ position (λ b. is_special b || b == delimiters.escape) raw.now }
{
    raw.iter()
        .position(|byte| is_special(*byte) || *byte == delimiters.escape)
}

/// How many bytes stand before that one, or how many there are where there is none.
fn head_len(delimiters: Delimiters, raw: &[u8]) -> usize
    ensures { result ≡ position_or_len (λ b. is_special b || b == delimiters.escape) raw.now }
{
    first_stop(delimiters, raw).unwrap_or(raw.len())
}

/// Takes the first `len` bytes, and gives those behind them.
fn push_first<'a>(text: &mut Vec<u8>, raw: &'a [u8], len: usize) -> Result<&'a [u8], AllocError>
    requires { len ≤ length raw.now }
    ensures head { OnOk result (text.new.items ≡ text.old.items ++ take len raw.now) }
    ensures rest { IfOk result (λ rest. rest.now ≡ drop len raw.now) }
{
    if len == 0 {
        return Ok(raw);
    }
    text.extend_from_slice(&raw[..len])?;
    Ok(&raw[len..])
}

/// Reads the canonical text of a raw value under the sender's delimiters. Its first `plain` bytes stand for themselves.
pub(crate) fn push_canonical(
    text: &mut Vec<u8>,
    delimiters: Delimiters,
    raw: &[u8],
    plain: usize,
) -> Result<(), AllocError>
    requires { plain ≡ position_or_len (λ b. is_special b || b == delimiters.escape) raw.now }
    ensures { OnOk result (text.new.items ≡ text.old.items ++ canon delimiters raw.now) }
{
    let mut rest = push_first(text, raw, plain)?;
    while let [first, after @ ..] = rest {
        match body_at(delimiters, *first, after) {
            Some(body) => {
                push_meaning(text, delimiters, body)?;
                rest = &after[body.len() + 1..];
            }
            None => {
                push_plainly(text, *first)?;
                rest = push_first(text, after, head_len(delimiters, after))?;
            }
        }
    }
    Ok(())
}

/// The canonical text of a raw value under the sender's delimiters (chapter 2, 2.7). The one error is allocation failure.
pub fn canonical(alloc: Global, delimiters: Delimiters, raw: &[u8]) -> Result<Vec<u8>, AllocError>
    ensures { IfOk result (λ text. text.items ≡ canon delimiters raw.now) }
{
    let mut text = Vec::with_capacity(alloc, raw.len())?;
    push_canonical(&mut text, delimiters, raw, head_len(delimiters, raw))?;
    Ok(text)
}
