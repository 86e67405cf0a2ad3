//! The words that a plan accepts.
ghost use Rattle.std.specs.Prelude.{◌≡◌, ◌++◌, OnOk};
ghost use Rattle.gw_plan.specs.Seen.{now_all, bytes_all};

use std::alloc::{AllocError, Global};

/// Appends copies of these words.
pub(crate) fn accept(
    alloc: Global,
    accepted: &mut Vec<Vec<u8>>,
    words: &[&[u8]],
) -> Result<(), AllocError>
    ensures { OnOk result (bytes_all accepted.new.items ≡ bytes_all accepted.old.items ++ now_all words.now) }
{
    for word in words {
        let copy = Vec::from_slice(alloc, word)?;
        accepted.push(copy)?;
    }
    Ok(())
}
