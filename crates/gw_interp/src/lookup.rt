//! The texts of leaves.
ghost use Rattle.std.specs.Prelude.{◌≡◌, ◌&&◌, List, map, unwrap_or};
ghost use Rattle.std.specs.List.{list_all};
ghost use Rattle.gw_lines.specs.Spelled.{is_digit};
ghost use Rattle.gw_er7.specs.Message.{SegmentValue};
ghost use Rattle.gw_maplang.specs.Shapes.{table_of};
ghost use Rattle.gw_maplang.specs.Seen.{now};
ghost use Rattle.gw_resolve.specs.Naming.{no_rows};
ghost use Rattle.gw_leaves.specs.Leaves.{given};
ghost use Rattle.gw_resolve.specs.Resolved.{alternatives};
ghost use Rattle.gw_resolve.specs.Seen.{leaf as seen_leaf, alternative, at_leaf};
ghost use Rattle.gw_validate.specs.Breaches.{is_null};
ghost use Rattle.gw_interp.specs.own.Borrowed.{AreOf};
ghost use Rattle.gw_interp.specs.Meaning.{look_up, is_asked, starts_with, longest, first_digits};
ghost use Rattle.gw_interp.specs.own.Sourced.{walks, LeafGives, settles, ReadingGives};

use crate::reading::{Reading, source_text};
use gw_maplang::{DateDigits, Map, Table};
use gw_resolve::{Alternative, At, ResolvedLeaf};

fn is_null(text: &[u8]) -> bool
    ensures { result ≡ is_null text.now }
{
    text == b"\"\"".as_slice()
}

// The value that a table has for a text: that of its row, else that of its `else` line.
fn given<'a>(table: &'a Table, text: &[u8]) -> Option<&'a [u8]>
    ensures { now result ≡ given table.now text.now }
{
    match table.second(text) {
        None => table.other(),
        Some(second) => Some(second),
    }
}

// The value that the table of this name has for a text. An absent text stays absent, and `""` stays `""`.
fn look_up<'a>(map: &'a Map, name: &[u8], text: &'a [u8]) -> Option<&'a [u8]>
    ensures { now result ≡ look_up (unwrap_or (table_of name.now map.now.tables) no_rows) text.now }
{
    if text.is_empty() || is_null(text) {
        return Some(text);
    }
    match map.table(name) {
        None => None,
        Some(table) => given(table, text),
    }
}

fn are_digits(text: &[u8]) -> bool
    ensures { result ≡ list_all is_digit text.now }
{
    text.iter().all(|byte| byte.is_ascii_digit())
}

fn takes_digits(digits: DateDigits, count: u32, text: &[u8]) -> bool
    ensures { result ≡ (is_asked digits count && starts_with count text.now) }
{
    let is_asked = digits.least <= count && count <= digits.most;
    let count = count as usize;
    is_asked && (count <= text.len() && are_digits(&text[..count]))
}

// The first octets of a text, by the first of these numbers that is asked for and counts digits alone; empty where none is.
fn longest<'a>(digits: DateDigits, counts: &[u32], text: &'a [u8]) -> &'a [u8]
    ensures { result.now ≡ longest digits counts.now text.now }
{
    for count in counts {
        if takes_digits(digits, *count, text) {
            return &text[..*count as usize];
        }
    }
    &[]
}

// The first digits of a date and time, empty where there are fewer than the least. `""` stays `""`.
fn first_digits(digits: DateDigits, text: &[u8]) -> &[u8]
    ensures { result.now ≡ first_digits digits text.now }
{
    if is_null(text) {
        return text;
    }
    longest(digits, &[14, 12, 10, 8, 6, 4], text)
}

// The text of a leaf, empty where it is absent. `None` if its table has nothing for what is read.
fn leaf_text<'a>(
    map: &'a Map,
    reading: &Reading<'_, 'a>,
    leaf: &'a ResolvedLeaf,
) -> Option<&'a [u8]>
    ensures { (m : List SegmentValue) → AreOf m reading.now.scope.now → LeafGives (walks m reading.now) (seen_leaf map.now.tables leaf.now) (now result) }
{
    match leaf {
        ResolvedLeaf::Const(text) => Some(text.as_slice()),
        ResolvedLeaf::Copied(source) => Some(source_text(reading, source)),
        ResolvedLeaf::LookedUp(name, source) => look_up(map, name, source_text(reading, source)),
        ResolvedLeaf::Dated(digits, source) => {
            Some(first_digits(*digits, source_text(reading, source)))
        }
    }
}

// Whether the leaves behind aren't asked: a leaf gave a text, or its table has nothing for what is read.
fn settles(given: Option<&[u8]>) -> bool
    ensures { result ≡ settles (now given.entry) }
{
    match given {
        None => true,
        Some([]) => false,
        Some([_, ..]) => true,
    }
}

// The first text that one of these leaves gives, empty where none does. `None` if the table of one has nothing for what is read.
fn first_text<'a>(
    rows: &'a Map,
    reading: &Reading<'_, 'a>,
    others: &'a [Alternative],
) -> Option<&'a [u8]>
    ensures { ReadingGives reading.now (map (alternative rows.now.tables) others.now) (now result) }
{
    for other in others {
        let given = leaf_text(rows, reading, &other.leaf);
        if settles(given) {
            return given;
        }
    }
    Some(&[])
}

/// The same of all leaves of a place. It takes no memory.
pub(crate) fn place_text<'a>(
    rows: &'a Map,
    reading: &Reading<'_, 'a>,
    at: &'a At,
) -> Option<&'a [u8]>
    ensures { ReadingGives reading.now (alternatives (at_leaf rows.now.tables at.now)) (now result) }
{
    let own = leaf_text(rows, reading, &at.leaf);
    if settles(own) {
        return own;
    }
    first_text(rows, reading, &at.others)
}
