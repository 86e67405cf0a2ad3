//! Records as bytes.
ghost use Rattle.std.specs.Prelude.{◌≡◌, ◌-◌, ◌<◌, ◌≤◌, ◌^◌, ◌++◌, ◌∷◌, [], length, IfOk, OnOk, IsErrOf};
ghost use Rattle.gw_log.specs.File.{AreShort, AreInLimit, nonzero, body, item, blocks};
ghost use Rattle.gw_log.specs.State.{records_of};

use crate::digest::{DIGEST, digest_of};
use crate::fault::LogFault;
use std::alloc::{AllocError, Global};

/// An open gate: what stands behind it was synced.
pub(crate) const OPEN: u8 = 1;

/// The gate behind the last batch, which says that the batch is whole.
pub(crate) const SHUT: u8 = 2;

/// The gate behind the record that ends a file.
pub(crate) const END: u8 = 0;

/// The bytes of an item's count.
pub(crate) const COUNT: usize = 8;

/// The bytes of an item's length.
pub(crate) const LENGTH: usize = 4;

/// The bytes before a record: its gate, its count, its length, its digest.
pub(crate) const BEFORE: usize = 1 + COUNT + LENGTH + DIGEST;

/// The most bytes of a record.
const LONGEST: usize = 1 << 31;

/// How many of these bytes are not 0.
pub(crate) fn count_nonzero(bytes: &[u8]) -> u64
    ensures count { result ≡ nonzero bytes.now }
    ensures few { result ≤ length bytes.now }
{
    let mut count = 0;
    for byte in bytes {
        count += u64::from(*byte != 0);
    }
    count
}

// The count before a record, of the bytes of its length, its digest and its own.
fn count_of(size: &[u8], digest: &[u8], bytes: &[u8]) -> u64
    requires size { length size.now ≤ 4 }
    requires digest { length digest.now ≤ 32 }
    requires bytes { length bytes.now ≤ 2 ^ 31 }
    ensures { result ≡ 2 ^ 64 - 1 - nonzero (size.now ++ (digest.now ++ bytes.now)) }
{
    let first = count_nonzero(size);
    let second = count_nonzero(digest);
    u64::MAX - (first + second + count_nonzero(bytes))
}

// Writes a record behind its gate.
fn write_record(out: &mut Vec<u8>, bytes: &[u8]) -> Result<(), AllocError>
    requires { length bytes.now ≤ 2 ^ 31 }
    ensures { OnOk result (out.new.items ≡ out.old.items ++ (1 ∷ body bytes.now)) }
{
    let size = ((DIGEST + bytes.len()) as u32).to_be_bytes();
    let digest = digest_of(bytes);
    let count = count_of(&size, &digest, bytes);
    out.push(OPEN)?;
    out.extend_from_slice(&count.to_be_bytes())?;
    out.extend_from_slice(&size)?;
    out.extend_from_slice(&digest)?;
    out.extend_from_slice(bytes)?;
    Ok(())
}

// The same of a record that may be too long.
fn spell_one(out: &mut Vec<u8>, bytes: &[u8]) -> Result<(), LogFault>
    ensures spelled { OnOk result (out.new.items ≡ out.old.items ++ (1 ∷ body bytes.now)) }
    ensures short { OnOk result (length (item bytes.now) < 2 ^ 32) }
    ensures err { IsErrOf result LogFault.Device → ⊥ }
    ensures room { IsErrOf result LogFault.Full → ⊥ }
    ensures empty { IsErrOf result LogFault.Empty → ⊥ }
    ensures taken { IsErrOf result LogFault.Taken → ⊥ }
    ensures long { IsErrOf result LogFault.TooLong → 2 ^ 31 < length bytes.now }
{
    if bytes.len() > LONGEST {
        return Err(LogFault::TooLong);
    }
    write_record(out, bytes)?;
    Ok(())
}

/// The bytes of a batch, behind open gates, and this gate at its end.
pub(crate) fn spell(alloc: Global, records: &[Vec<u8>], close: u8) -> Result<Vec<u8>, LogFault>
    ensures whole { IfOk result (λ out. out.items ≡ blocks (records_of records.now) ++ close ∷ []) }
    ensures short { IfOk result (λ out. AreShort (records_of records.now)) }
    ensures err { IsErrOf result LogFault.Device → ⊥ }
    ensures room { IsErrOf result LogFault.Full → ⊥ }
    ensures empty { IsErrOf result LogFault.Empty → ⊥ }
    ensures taken { IsErrOf result LogFault.Taken → ⊥ }
    ensures long { IsErrOf result LogFault.TooLong → AreInLimit (records_of records.now) → ⊥ }
{
    let mut out = Vec::new(alloc);
    for bytes in records {
        spell_one(&mut out, bytes)?;
    }
    out.push(close)?;
    Ok(out)
}
