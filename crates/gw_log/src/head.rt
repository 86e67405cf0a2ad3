//! The first record of a file, and the last.
ghost use Rattle.std.specs.Prelude.{◌≡◌, ◌+◌, ◌<◌, ◌≤◌, ◌++◌, ◌∷◌, [], length, IfOk, OnOk, IfSome, IfNone};
ghost use Rattle.std.specs.Int.{w64, to_be_bytes};
ghost use Rattle.gw_log.specs.Chain.{spelled, IsWide};
ghost use Rattle.gw_log.specs.State.{records_of};

use std::alloc::{AllocError, Global};
use std::marker::Model;

/// The bytes of a head without a checkpoint.
const SHORTEST: usize = 40;

/// What the first record of each file says.
#[derive(Drop)]
pub struct Head<'a> {
    /// The file's own number.
    pub number: u64,
    /// How many records stand in the log before this file.
    pub first: u64,
    /// How many bytes the file before this one has.
    pub before: u64,
    /// Records at places below this one may be gone.
    pub keep: u64,
    /// The log's own number.
    pub id: u64,
    /// Bytes that a start needs. A log doesn't read them.
    pub checkpoint: &'a [u8],
}

impl<'a> Model for Head<'a> {
    ghost use Rattle.gw_log.specs.Chain as spec;

    ghost Value = { spec.Head };

    ghost view = { λ h. record { number = h.number; first = h.first; before = h.before; keep = h.keep; id = h.id; checkpoint = h.checkpoint.now } };
}

/// The bytes of a head, as a batch of one record.
pub(crate) fn spell_head(alloc: Global, head: &Head<'_>) -> Result<Vec<Vec<u8>>, AllocError>
    ensures spelled { IfOk result (λ out. records_of out.items ≡ spelled head.now ∷ []) }
    ensures wide { OnOk result (IsWide head.now) }
{
    let mut bytes = Vec::new(alloc);
    bytes.extend_from_slice(&head.number.to_be_bytes())?;
    bytes.extend_from_slice(&head.first.to_be_bytes())?;
    bytes.extend_from_slice(&head.before.to_be_bytes())?;
    bytes.extend_from_slice(&head.keep.to_be_bytes())?;
    bytes.extend_from_slice(&head.id.to_be_bytes())?;
    bytes.extend_from_slice(head.checkpoint)?;
    let mut out = Vec::new(alloc);
    out.push(bytes)?;
    Ok(out)
}

/// The record that ends a file, as a batch.
pub(crate) fn seal(alloc: Global) -> Result<Vec<Vec<u8>>, AllocError>
    ensures { IfOk result (λ out. records_of out.items ≡ [] ∷ []) }
{
    let mut out = Vec::new(alloc);
    out.push(Vec::new(alloc))?;
    Ok(out)
}

// The number that eight bytes are, and what stands behind them.
fn number_at(bytes: &[u8]) -> (u64, &[u8])
    requires { 8 ≤ length bytes.now }
    ensures whole { bytes.now ≡ to_be_bytes w64 result.0 ++ result.1.now }
    ensures rest { length bytes.now ≡ length result.1.now + 8 }
{
    let (front, rest) = bytes.split_at(8);
    let number = u64::from_be_bytes([
        front[0], front[1], front[2], front[3], front[4], front[5], front[6], front[7],
    ]);
    (number, rest)
}

/// The head that the first record of a file spells. `None`: it has less than forty bytes.
pub fn read_head(bytes: &[u8]) -> Option<Head<'_>>
    ensures some { IfSome result (λ h. bytes.now ≡ spelled h) }
    ensures wide { IfSome result (λ h. IsWide h) }
    ensures none { IfNone result (length bytes.now < 40) }
{
    if bytes.len() < SHORTEST {
        return None;
    }
    let (number, rest) = number_at(bytes);
    let (first, rest) = number_at(rest);
    let (before, rest) = number_at(rest);
    let (keep, rest) = number_at(rest);
    let (id, checkpoint) = number_at(rest);
    Some(Head {
        number,
        first,
        before,
        keep,
        id,
        checkpoint,
    })
}
