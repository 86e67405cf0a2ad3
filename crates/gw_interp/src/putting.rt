//! Puts texts into the segment that was begun last.
ghost use Rattle.std.specs.Prelude.{◌≡◌, OnOk, OnErr};
ghost use Rattle.gw_er7.specs.Message.{numbers};
ghost use Rattle.gw_interp.specs.own.Putting.{MayStand, IsPut};

use gw_er7::{Builder, Place};
use std::alloc::AllocError;

/// Puts a text at a place of the last segment; does nothing if it is absent.
pub(crate) fn put_text(builder: &mut Builder, place: Place, text: &[u8]) -> Result<(), AllocError>
    requires { MayStand (numbers place) text.now builder.old }
    ensures ok { OnOk result (IsPut (numbers place) text.now builder.old builder.new) }
    ensures err { OnErr result (builder.new ≡ builder.old) }
{
    if text.is_empty() {
        return Ok(());
    }
    builder.put(place, text)
}
