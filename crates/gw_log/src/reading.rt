//! What is read of a file.
ghost use Rattle.std.specs.Prelude.{◌≡◌, ◌↔◌, ◌⊎◌, ◌+◌, ◌<◌, ◌≤◌, ◌^◌, ◌++◌, ◌∷◌, [], List, ℕ};
ghost use Rattle.std.specs.Prelude.{length, drop, Some, IfOk, IfErr, IfSome, IfNone, IsErrOf, IsTrue, OnOk};
ghost use Rattle.std.specs.Int.{w32, w64, to_be_bytes};
ghost use Rattle.sha2.specs.Sha256.{sha256};
ghost use Rattle.gw_log.specs.File.{item, body, IsWhole, IsUnsynced, HasNoRecord, OnDamaged};
ghost use Rattle.gw_log.specs.own.Steps.{Begins, BeginsItem, BeginsGated, BeginsOpen, HasNone, HasNoItem, Stops};
ghost use Rattle.gw_log.specs.own.Steps.{IsReadOn, IsBatchRead, HasNoEnd, IsThere, IsFront, UpTo, Refuses};
ghost use Rattle.gw_log.specs.own.Opens.{Reads};
ghost use Rattle.gw_log.specs.State.{records_of};

use crate::digest::{DIGEST, digest_of};
use crate::disk::Disk;
use crate::fault::LogFault;
use crate::writing::{COUNT, LENGTH, OPEN, SHUT, count_nonzero};
use std::alloc::{AllocError, Global};

// What stands behind this gate.
fn behind(gate: u8, bytes: &[u8]) -> Option<&[u8]>
    ensures some { IfSome result (λ rest. bytes.now ≡ gate ∷ rest.now) }
    ensures none { IfNone result ((rest : List ℕ) → bytes.now ≡ gate ∷ rest → ⊥) }
{
    let (first, rest) = bytes.split_first()?;
    if *first != gate {
        return None;
    }
    Some(rest)
}

// The count before an item, and what stands behind it.
fn count_at(bytes: &[u8]) -> (u64, &[u8])
    requires { 8 ≤ length bytes.now }
    ensures whole { bytes.now ≡ to_be_bytes w64 result.0 ++ result.1.now }
    ensures rest { length bytes.now ≡ length result.1.now + 8 }
{
    let (front, rest) = bytes.split_at(COUNT);
    let count = u64::from_be_bytes([
        front[0], front[1], front[2], front[3], front[4], front[5], front[6], front[7],
    ]);
    (count, rest)
}

// The length before an item, and what stands behind it.
fn size_at(bytes: &[u8]) -> (u32, &[u8])
    requires { 4 ≤ length bytes.now }
    ensures whole { bytes.now ≡ to_be_bytes w32 result.0 ++ result.1.now }
    ensures rest { length bytes.now ≡ length result.1.now + 4 }
{
    let (front, rest) = bytes.split_at(LENGTH);
    let size = u32::from_be_bytes([front[0], front[1], front[2], front[3]]);
    (size, rest)
}

// The first item, whose count has to be right, and what stands behind it. The bytes are those behind a gate.
fn first_item(bytes: &[u8]) -> Option<(&[u8], &[u8])>
    ensures some { IfSome result (λ p. BeginsItem bytes.now p.0.now p.1.now) }
    ensures none { IfNone result (HasNoItem bytes.now) }
{
    if bytes.len() < COUNT + LENGTH {
        return None;
    }
    let (count, sized) = count_at(bytes);
    let (size, rest) = size_at(sized);
    if rest.len() < size as usize {
        return None;
    }
    let (item, more) = rest.split_at(size as usize);
    let first = count_nonzero(&size.to_be_bytes());
    if count != u64::MAX - (first + count_nonzero(item)) {
        return None;
    }
    Some((item, more))
}

// Whether these bytes begin with a whole batch.
fn is_whole(bytes: &[u8]) -> bool
    ensures { IsTrue result ↔ IsWhole bytes.now }
{
    let mut rest = bytes;
    while let Some((_, next)) = first_item(rest) {
        if let Some(_end) = behind(SHUT, next) {
            return true;
        }
        let Some(more) = behind(OPEN, next) else {
            return false;
        };
        rest = more;
    }
    false
}

// Whether these bytes may be the end of a file that a crash left, without a whole batch.
fn is_unsynced(bytes: &[u8]) -> bool
    ensures { IsTrue result ↔ IsUnsynced bytes.now }
{
    match bytes {
        [] => true,
        [_] => true,
        [gate, tail @ ..] => *gate != OPEN && !is_whole(tail),
    }
}

// The record of an item, where the digest before it is its own.
fn record_of(item: &[u8]) -> Option<&[u8]>
    ensures some { IfSome result (λ bytes. item.now ≡ sha256 bytes.now ++ bytes.now) }
    ensures none { IfNone result ((bytes : List ℕ) → item.now ≡ sha256 bytes ++ bytes → ⊥) }
{
    if item.len() < DIGEST {
        return None;
    }
    let (digest, bytes) = item.split_at(DIGEST);
    if digest != digest_of(bytes).as_slice() {
        return None;
    }
    Some(bytes)
}

// The first record, and what stands behind it. The bytes are those behind a gate.
fn first_record(bytes: &[u8]) -> Option<(&[u8], &[u8])>
    ensures some { IfSome result (λ p. Begins bytes.now p.0.now p.1.now) }
    ensures none { IfNone result (HasNone bytes.now) }
{
    let (item, rest) = first_item(bytes)?;
    let bytes = record_of(item)?;
    Some((bytes, rest))
}

// One record more.
fn take_in(alloc: Global, records: &mut Vec<Vec<u8>>, bytes: &[u8]) -> Result<(), AllocError>
    ensures { OnOk result (records_of records.new.items ≡ records_of records.old.items ++ bytes.now ∷ []) }
{
    let copy = Vec::from_slice(alloc, bytes)?;
    records.push(copy)?;
    Ok(())
}

// The first record behind an open gate, and what stands behind it.
fn next_record(bytes: &[u8]) -> Option<(&[u8], &[u8])>
    ensures some { IfSome result (λ p. BeginsOpen bytes.now p.0.now p.1.now) }
    ensures none { IfNone result (Stops bytes.now) }
{
    let rest = behind(OPEN, bytes)?;
    first_record(rest)
}

// Adds the records at the front of these bytes, each behind an open gate, and tells where they end.
fn read_open(alloc: Global, records: &mut Vec<Vec<u8>>, bytes: &[u8]) -> Result<usize, AllocError>
    ensures { IfOk result (λ n. IsReadOn bytes.now n (records_of records.old.items) (records_of records.new.items)) }
{
    let mut rest = bytes;
    while let Some((record, next)) = next_record(rest) {
        take_in(alloc, records, record)?;
        rest = next;
    }
    Ok(bytes.len() - rest.len())
}

/// Where the records of a file stand.
#[derive(Clone, Copy)]
pub(crate) struct End {
    /// The place of the first gate that isn't open.
    pub gate: usize,
    /// Where the records end.
    pub reach: usize,
    /// How many bytes have to stay: where a batch's gate isn't open, also the gate behind it.
    pub size: usize,
}

// Adds the records of the last batch, which is whole, and tells where they end. The bytes are those from its gate on.
fn read_batch(
    alloc: Global,
    damaged: LogFault,
    records: &mut Vec<Vec<u8>>,
    bytes: &[u8],
) -> Result<usize, LogFault>
    requires stops { Stops bytes.now }
    requires synced { IsUnsynced bytes.now → ⊥ }
    ensures ok { IfOk result (λ n. IsBatchRead bytes.now n (records_of records.old.items) (records_of records.new.items)) }
    ensures err { IfErr result (λ e. (e ≡ LogFault.Memory) ⊎ ((e ≡ damaged) × HasNoEnd bytes.now)) }
{
    let Some((_, tail)) = bytes.split_first() else {
        return Err(damaged);
    };
    let Some((record, others)) = first_record(tail) else {
        return Err(damaged);
    };
    take_in(alloc, records, record)?;
    let size = read_open(alloc, records, others)?;
    let (_, rest) = others.split_at(size);
    match behind(SHUT, rest) {
        Some(_) => Ok(bytes.len() - others.len() + size),
        None => Err(damaged),
    }
}

/// The records of a file, and where they end.
pub(crate) fn read_records(
    alloc: Global,
    segment: u64,
    file: &[u8],
) -> Result<(Vec<Vec<u8>>, End), LogFault>
    ensures ok { IfOk result (λ r. UpTo file.now r.1.gate r.1.reach r.1.size (records_of r.0.items)) }
    ensures err { IfErr result (Refuses file.now) }
{
    let mut records = Vec::new(alloc);
    let gate = read_open(alloc, &mut records, file)?;
    let (_, rest) = file.split_at(gate);
    if is_unsynced(rest) {
        return Ok((
            records,
            End {
                gate,
                reach: gate,
                size: gate,
            },
        ));
    }
    let damaged = LogFault::Damaged { segment, at: gate };
    let size = read_batch(alloc, damaged, &mut records, rest)?;
    Ok((
        records,
        End {
            gate,
            reach: gate + size,
            size: gate + size + 1,
        },
    ))
}

/// How much is read at first.
const FIRST: usize = 4096;

// How long a block is, by its first bytes.
fn block_size(bytes: &[u8]) -> Option<usize>
    ensures { (gate n : ℕ) (r more : List ℕ) → length (item r) < 2 ^ 32 →
        bytes.now ≡ gate ∷ to_be_bytes w64 n ++ to_be_bytes w32 (length (item r)) ++ more → result ≡ Some (length (1 ∷ body r)) }
{
    let (_, rest) = bytes.split_first()?;
    if rest.len() < COUNT + LENGTH {
        return None;
    }
    let (_, rest) = count_at(rest);
    let (size, _) = size_at(rest);
    Some(1 + COUNT + LENGTH + size as usize)
}

// A copy of the first record, and whether its gate is open.
fn first_copy(alloc: Global, bytes: &[u8]) -> Result<Option<(Vec<u8>, bool)>, AllocError>
    ensures some { IfOk result (λ found. IfSome found (λ r. (more : List ℕ) × BeginsGated bytes.now r.0.items more r.1)) }
    ensures none { IfOk result (λ found. IfNone found (HasNoRecord bytes.now)) }
{
    let Some((gate, rest)) = bytes.split_first() else {
        return Ok(None);
    };
    match first_record(rest) {
        Some((record, _)) => Ok(Some((Vec::from_slice(alloc, record)?, *gate == OPEN))),
        None => Ok(None),
    }
}

// The record of a file that begins at this offset and may be longer than what was read of it, and whether its gate is open.
fn long_record<D: Disk>(
    alloc: Global,
    disk: &mut D,
    number: u64,
    at: usize,
    front: &[u8],
) -> Result<(Vec<u8>, bool), LogFault>
    ensures ok { D.honest disk.new → IfOk result (λ r. IsThere at r.1 r.0.items (D.seen disk.old number)) }
    ensures damaged { D.honest disk.new → IsFront at front.now (D.seen disk.old number) →
        OnDamaged result (HasNoRecord (drop at (D.seen disk.old number))) }
    ensures place { (segment place : ℕ) → IsErrOf result (LogFault.Damaged segment place) → segment ≡ number }
    ensures seen { D.seen disk.new ≡ D.seen disk.old }
    ensures missing { IsErrOf result LogFault.Missing → ⊥ }
    ensures reads { Reads D.seen D.may_leave D.moment D.left_since D.honest disk.old disk.new }
    ensures back { D.honest disk.new → D.honest disk.old }
{
    let damaged = LogFault::Damaged {
        segment: number,
        at,
    };
    match block_size(front) {
        None => Err(damaged),
        Some(size) => {
            let block = disk.read(alloc, number, at, size)?;
            match first_copy(alloc, &block)? {
                Some(record) => Ok(record),
                None => Err(damaged),
            }
        }
    }
}

/// The record of a file that begins at this offset, and whether its gate is open.
pub(crate) fn record_at<D: Disk>(
    alloc: Global,
    disk: &mut D,
    number: u64,
    at: usize,
) -> Result<(Vec<u8>, bool), LogFault>
    ensures ok { D.honest disk.new → IfOk result (λ r. IsThere at r.1 r.0.items (D.seen disk.old number)) }
    ensures damaged { D.honest disk.new → OnDamaged result (HasNoRecord (drop at (D.seen disk.old number))) }
    ensures place { (segment place : ℕ) → IsErrOf result (LogFault.Damaged segment place) → segment ≡ number }
    ensures seen { D.seen disk.new ≡ D.seen disk.old }
    ensures missing { IsErrOf result LogFault.Missing → ⊥ }
    ensures reads { Reads D.seen D.may_leave D.moment D.left_since D.honest disk.old disk.new }
    ensures back { D.honest disk.new → D.honest disk.old }
{
    let front = disk.read(alloc, number, at, FIRST)?;
    match first_copy(alloc, &front)? {
        Some(record) => Ok(record),
        None => long_record(alloc, disk, number, at, &front),
    }
}
