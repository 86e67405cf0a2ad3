//! Blocks as bytes.
ghost use Rattle.std.specs.Prelude.{◌≡◌, ◌↔◌, ◌++◌, List, ℕ, IsTrue, OnOk, OnErr};
ghost use Rattle.gw_mllp.specs.Stream.{HasNoEnd, block};

use crate::bytes::{CR, FS, VT};
use crate::reach::find_end;
use std::alloc::AllocError;

/// Whether a block may have this content: whether it has no FS CR. It takes no memory.
pub fn is_content(bytes: &[u8]) -> bool
    ensures { IsTrue result ↔ HasNoEnd bytes.now }
{
    find_end(bytes).is_none()
}

/// Appends message bytes without FS CR as one block. If an allocation fails, nothing is written.
pub fn write_block(out: &mut Vec<u8>, content: &[u8]) -> Result<(), AllocError>
    requires { HasNoEnd content.now }
    ensures ok { OnOk result (out.new.items ≡ out.old.items ++ block content.now) }
    ensures err { OnErr result (out.new.items ≡ out.old.items) }
{
    let len = out.len();
    match write_parts(out, content) {
        Ok(()) => Ok(()),
        Err(fault) => {
            out.truncate(len);
            Err(fault)
        }
    }
}

fn write_parts(out: &mut Vec<u8>, content: &[u8]) -> Result<(), AllocError>
    ensures ok { OnOk result (out.new.items ≡ out.old.items ++ block content.now) }
    ensures err { OnErr result ((written : List ℕ) × (out.new.items ≡ out.old.items ++ written)) }
{
    out.push(VT)?;
    out.extend_from_slice(content)?;
    out.extend_from_slice(&[FS, CR])?;
    Ok(())
}
