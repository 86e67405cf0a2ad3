//! Fills a repetition of a field from leaves.
ghost use Rattle.std.specs.Prelude.{◌≡◌, ◌<◌, length, None, OnOk, map};
ghost use Rattle.std.specs.FinMap as texts;
ghost use Rattle.gw_resolve.specs.Seen.{at_leaf};
ghost use Rattle.gw_interp.specs.own.Borrowed.{AreOf};
ghost use Rattle.gw_interp.specs.own.Putting.{last_name, last_texts};
ghost use Rattle.gw_interp.specs.own.Filling.{message_of, read_by, key_of, MayHold, IsHeld, MayFill, AreFilled};
ghost use Rattle.gw_interp.specs.own.Making.{MayFillRep, IsRepFilled};

use crate::lookup::place_text;
use crate::putting::put_text;
use crate::reading::Reading;
use gw_er7::{Builder, Place};
use gw_maplang::Map;
use gw_resolve::At;
use std::alloc::AllocError;

// Puts the text of a place there.
fn put_leaf<'a>(
    rows: &'a Map,
    reading: &Reading<'_, 'a>,
    builder: &mut Builder,
    leaf: &'a At,
    field: usize,
    rep: usize,
) -> Result<(), AllocError>
    requires of { AreOf (message_of reading.now.scope.now) reading.now.scope.now }
    requires begun { 0 < length builder.old }
    requires free { texts.get (last_texts builder.old) (key_of field rep (at_leaf rows.now.tables leaf.now)) ≡ None }
    requires holds { MayHold (read_by reading.now) field rep (last_name builder.old) (at_leaf rows.now.tables leaf.now) }
    ensures { OnOk result (IsHeld (read_by reading.now) field rep (at_leaf rows.now.tables leaf.now) builder.old builder.new) }
{
    match place_text(rows, reading, leaf) {
        None => Ok(()),
        Some(text) => {
            let place = Place {
                field,
                rep,
                comp: leaf.place.comp as usize,
                sub: leaf.place.sub as usize,
            };
            put_text(builder, place, text)
        }
    }
}

// Puts the texts of places in a repetition of a field of the last segment.
fn put_leaves<'a>(
    rows: &'a Map,
    reading: &Reading<'_, 'a>,
    builder: &mut Builder,
    leaves: &'a [At],
    field: usize,
    rep: usize,
) -> Result<(), AllocError>
    requires of { AreOf (message_of reading.now.scope.now) reading.now.scope.now }
    requires fill { MayFill (read_by reading.now) field rep (map (at_leaf rows.now.tables) leaves.now) builder.old }
    ensures { OnOk result (AreFilled (read_by reading.now) field rep (map (at_leaf rows.now.tables) leaves.now) builder.old builder.new) }
{
    for leaf in leaves {
        put_leaf(rows, reading, builder, leaf, field, rep)?;
    }
    Ok(())
}

/// Fills an empty repetition with the texts of leaves.
pub(crate) fn fill_rep<'a>(
    rows: &'a Map,
    reading: &Reading<'_, 'a>,
    builder: &mut Builder,
    leaves: &'a [At],
    field: usize,
    rep: usize,
) -> Result<(), AllocError>
    requires of { AreOf (message_of reading.now.scope.now) reading.now.scope.now }
    requires fill { MayFillRep (read_by reading.now) field rep (map (at_leaf rows.now.tables) leaves.now) builder.old }
    ensures { OnOk result (IsRepFilled (read_by reading.now) field rep (map (at_leaf rows.now.tables) leaves.now) builder.old builder.new) }
{
    put_leaves(rows, reading, builder, leaves, field, rep)
}
