//! The blocks that begin within a piece of a stream.
ghost use Rattle.std.specs.Prelude.{◌≡◌, ◌++◌, ◌∷◌, [], List, ℕ, IfOk, IfErr, IfSome, IfNone, OnOk, OnErr};
ghost use Rattle.gw_mllp.specs.Stream.{IsGap, Between};
ghost use Rattle.gw_mllp.specs.Taken.{Begins, EndsAt, Goes, Steps, contents, tail_view};

use crate::bytes::VT;
use crate::fault::FrameFault;
use crate::reach::{Reach, reach_into};
use crate::tail::Tail;
use memchr::memchr;
use std::alloc::{AllocError, Global};
use std::collections::VecDeque;

/// The bytes before the first VT, and those from there on.
fn cut_gap(bytes: &[u8]) -> (&[u8], &[u8])
    ensures whole { bytes.now ≡ result.0.now ++ result.1.now }
    ensures gap { IsGap result.0.now }
    ensures start { (b : ℕ) (bs : List ℕ) → result.1.now ≡ b ∷ bs → b ≡ 11 }
{
    match memchr(VT, bytes) {
        None => bytes.split_at(bytes.len()),
        Some(at) => bytes.split_at(at),
    }
}

/// The bytes behind the first VT.
fn behind_start(bytes: &[u8]) -> Option<&[u8]>
    ensures some { IfSome result (λ inner. Begins bytes.now inner.now) }
    ensures none { IfNone result (IsGap bytes.now) }
{
    let (_gap, back) = cut_gap(bytes);
    if back.is_empty() {
        return None;
    }
    let (_start, inner) = back.split_at(1);
    Some(inner)
}

/// The memory of a content is taken in such steps: then what one block gives back fits another, whose length differs.
const STEP: usize = 256;

/// Appends bytes to a content. Memory for a short one is taken as it needs, else in steps.
fn append(content: &mut Vec<u8>, bytes: &[u8]) -> Result<(), AllocError>
    ensures ok { OnOk result (content.new.items ≡ content.old.items ++ bytes.now) }
    ensures err { OnErr result (content.new.items ≡ content.old.items) }
{
    let len = content.len().saturating_add(bytes.len());
    if len >= STEP {
        let room = (len / STEP * STEP).saturating_add(STEP);
        content.reserve(room.saturating_sub(content.len()))?;
    }
    content.extend_from_slice(bytes)
}

/// The content of a block that began and hasn't ended yet.
fn open_content(alloc: Global, bytes: &[u8]) -> Result<Vec<u8>, AllocError>
    ensures { IfOk result (λ content. content.items ≡ bytes.now) }
{
    let mut content = Vec::new(alloc);
    append(&mut content, bytes)?;
    Ok(content)
}

/// Appends a run that ends with FS CR to the content, without these two bytes. The FS may be the last byte of the content.
pub(crate) fn end_content(content: &mut Vec<u8>, run: &[u8]) -> Result<(), AllocError>
    requires { EndsAt content.old.items run.now }
    ensures ok { OnOk result (content.new.items ++ 28 ∷ 13 ∷ [] ≡ content.old.items ++ run.now) }
    ensures err { OnErr result (content.new.items ≡ content.old.items) }
{
    if run.len() == 1 {
        content.pop();
        return Ok(());
    }
    append(content, &run[..run.len() - 2])?;
    Ok(())
}

/// Reads the bytes up to the end of the next block. Returns where the stream is then, and the bytes that are left.
fn take_block<'a>(
    alloc: Global,
    made: &mut VecDeque<Vec<u8>>,
    bytes: &'a [u8],
) -> Result<(Tail, &'a [u8]), FrameFault>
    ensures ok { IfOk result (λ x. Steps (contents made.old.items) Between bytes.now (contents made.new.items) (tail_view x.0) x.1.now) }
    ensures err { IfErr result (λ e. e ≡ FrameFault.Memory) }
{
    let Some(inner) = behind_start(bytes) else {
        return Ok((Tail::Between, &[]));
    };
    match reach_into(&[], inner) {
        Reach::Open => Ok((Tail::Within(open_content(alloc, inner)?), &[])),
        Reach::TooLong => Ok((Tail::Overlong, &[])),
        Reach::Ends(run, after) => {
            let mut content = Vec::new(alloc);
            end_content(&mut content, run)?;
            made.push_back(content)?;
            Ok((Tail::Between, after))
        }
    }
}

/// Reads a piece that follows a block or a gap: makes the blocks that end in it, and returns where the stream is then.
pub(crate) fn take_blocks(
    alloc: Global,
    made: &mut VecDeque<Vec<u8>>,
    piece: &[u8],
) -> Result<Tail, FrameFault>
    ensures ok { IfOk result (λ tail. Goes (contents made.old.items) Between piece.now (contents made.new.items) (tail_view tail)) }
    ensures err { IfErr result (λ e. e ≡ FrameFault.Memory) }
{
    let mut bytes = piece;
    while !bytes.is_empty() {
        let (tail, after) = take_block(alloc, made, bytes)?;
        if after.is_empty() {
            return Ok(tail);
        }
        bytes = after;
    }
    Ok(Tail::Between)
}
