//! The listed texts of a source that a target, or a table of the map, doesn't know.
ghost use Rattle.std.specs.Prelude.{◌≡◌, ◌&&◌, not, find};
ghost use Rattle.gw_maplang.specs.Seen.{now};
ghost use Rattle.gw_profile.specs.Seen.{sub as seen_sub, profile_value};
ghost use Rattle.gw_check.specs.Elements as spec;
ghost use Rattle.gw_leaves.specs.Leaves.{is_short};
ghost use Rattle.gw_leaves.specs.Texts.{items_all};

use gw_leaves::values_of;
use gw_maplang::Table as Rows;
use gw_profile::{Count, Profile, SubShape, Table, measure};

fn is_short(count: Count, len: Option<u32>, text: &[u8]) -> bool
    ensures { result ≡ is_short count len text.now }
{
    match len {
        None => true,
        Some(most) => measure(count, text) <= u64::from(most),
    }
}

/// What takes a text: a table that lists it, rows of which one is for it, or a length by a count.
#[derive(Clone, Copy)]
pub enum Taker<'a> {
    Table(&'a Table),
    Rows(&'a Rows),
    Length(Count, Option<u32>),
}

fn takes(taker: Taker<'_>, text: &[u8]) -> bool
    ensures { result ≡ spec.takes taker.entry text.now }
{
    match taker {
        Taker::Table(table) => table.contains(text),
        Taker::Rows(rows) => rows.second(text).is_some(),
        Taker::Length(count, len) => is_short(count, len, text),
    }
}

// The first of these that is no longer, and that isn't taken.
fn first_untaken<'a>(
    count: Count,
    len: Option<u32>,
    all: &'a [Vec<u8>],
    taker: Taker<'_>,
) -> Option<&'a [u8]>
    ensures { now result ≡ find (λ text. is_short count len text && not (spec.takes taker.entry text)) (items_all all.now) }
{
    for text in all {
        if is_short(count, len, text) && !takes(taker, text) {
            return Some(text.as_slice());
        }
    }
    None
}

/// The first text that a source's profile lists for its subcomponent and that isn't taken. It takes no memory.
pub fn untaken<'a>(source: &'a Profile, from: &SubShape, taker: Taker<'_>) -> Option<&'a [u8]>
    ensures { now result ≡ spec.untaken source.now.count (profile_value source.now).tables (seen_sub from.now) taker.entry }
{
    let Some(name) = &from.table else {
        return None;
    };
    first_untaken(source.count(), from.len, values_of(source, name), taker)
}
