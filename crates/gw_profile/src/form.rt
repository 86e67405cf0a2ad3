//! The line patterns of a profile.
ghost use Rattle.std.specs.Prelude.{◌≡◌, map, IfOk};
ghost use Rattle.std.specs.Option.{option_map};
ghost use Rattle.gw_lines.specs.Seen.{word};
ghost use Rattle.gw_lines.specs.Parts.{with_all};
ghost use Rattle.gw_profile.specs.Line as spec;
ghost use Rattle.gw_profile.specs.Seen.{line, leaf, now};

use crate::shape::{Card, Usage};
use gw_lines::{Word, behind, first_word, name_at, number_at, some_values};
use std::alloc::{AllocError, Global};

/// The options `len` and `table` of a line.
#[derive(Clone, Copy, Drop)]
pub(crate) struct LeafOptions<'a> {
    pub(crate) len: Option<u32>,
    pub(crate) table: Option<&'a [u8]>,
}

/// A line of a profile. No usage stands for C and CE.
#[derive(Drop)]
pub(crate) enum Line<'a> {
    Begins(&'a [u8]),
    Table(&'a [u8], Vec<&'a [u8]>),
    Segment([u8; 3], &'a [u8], bool, Option<Usage>, Card),
    Field(u32, Option<Usage>, Card, Option<LeafOptions<'a>>),
    Comp(u32, Option<Usage>, Option<LeafOptions<'a>>),
    Sub(u32, Option<Usage>, Option<LeafOptions<'a>>),
    Group(u32, &'a [u8], Option<Usage>, Card),
    End,
    Counts,
}

// The usage of these bytes. `Some(None)` for C and CE.
fn usage_of(bytes: &[u8]) -> Option<Option<Usage>>
    ensures { result ≡ spec.usage_of bytes.now }
{
    if bytes == b"R".as_slice() {
        return Some(Some(Usage::R));
    }
    if bytes == b"RE".as_slice() {
        return Some(Some(Usage::RE));
    }
    if bytes == b"O".as_slice() {
        return Some(Some(Usage::O));
    }
    if bytes == b"X".as_slice() {
        return Some(Some(Usage::X));
    }
    if bytes == b"C".as_slice() || bytes == b"CE".as_slice() {
        return Some(None);
    }
    None
}

fn usage_word(from: Word) -> Option<Option<Usage>>
    ensures { result ≡ spec.usage_word (word from.entry) }
{
    let bytes = from.plain()?;
    usage_of(bytes)
}

fn card_word(from: Word) -> Option<Card>
    ensures { result ≡ spec.card_word (word from.entry) }
{
    let (min, max) = from.range()?;
    Some(Card { min, max })
}

/// Whether at most `max` allows this many.
pub(crate) fn allows(max: Option<u32>, count: u32) -> bool
    ensures { result ≡ spec.allows max count }
{
    match max {
        None => true,
        Some(max) => count <= max,
    }
}

/// Whether usage and cardinality agree.
pub(crate) fn agrees(usage: Option<Usage>, card: Card) -> bool
    ensures { result ≡ spec.agrees usage card }
{
    match usage {
        None => false,
        Some(Usage::R) => 1 <= card.min && allows(card.max, card.min),
        Some(Usage::RE) => card.min == 0 && allows(card.max, 1),
        Some(Usage::O) => card.min == 0 && allows(card.max, 1),
        Some(Usage::X) => card.min == 0 && !allows(card.max, 1),
    }
}

/// Whether the usage is X.
pub(crate) fn is_forbidden(usage: Option<Usage>) -> bool
    ensures { result ≡ spec.is_forbidden usage }
{
    matches!(usage, Some(Usage::X))
}

fn usage_at<'a, 'w>(words: &'w [Word<'a>]) -> Option<(Option<Usage>, &'w [Word<'a>])>
    ensures { option_map (λ w. (w.0, map word w.1.now)) result ≡ spec.usage_at (map word words.now) }
{
    let (first, more) = first_word(words)?;
    let usage = usage_word(first)?;
    Some((usage, more))
}

fn card_at<'a, 'w>(words: &'w [Word<'a>]) -> Option<(Card, &'w [Word<'a>])>
    ensures { option_map (λ w. (w.0, map word w.1.now)) result ≡ spec.card_at (map word words.now) }
{
    let (first, more) = first_word(words)?;
    let card = card_word(first)?;
    Some((card, more))
}

// The label of a segment, and whether `as` gives it.
fn label_at<'a, 'w>(
    other: &'a [u8],
    words: &'w [Word<'a>],
) -> Option<((&'a [u8], bool), &'w [Word<'a>])>
    ensures { option_map (λ w. ((w.0.0.now, w.0.1), map word w.1.now)) result ≡ spec.label_at other.now (map word words.now) }
{
    match behind(b"as", words) {
        None => Some(((other, false), words)),
        Some(more) => {
            let (label, more) = name_at(more)?;
            Some(((label, true), more))
        }
    }
}

fn leaf_at<'a, 'w>(words: &'w [Word<'a>]) -> (bool, &'w [Word<'a>])
    ensures { (result.0, map word result.1.now) ≡ spec.leaf_at (map word words.now) }
{
    match behind(b"leaf", words) {
        None => (false, words),
        Some(more) => (true, more),
    }
}

fn len_at<'a, 'w>(words: &'w [Word<'a>]) -> Option<(Option<u32>, &'w [Word<'a>])>
    ensures { option_map (λ w. (w.0, map word w.1.now)) result ≡ spec.len_at (map word words.now) }
{
    match behind(b"len", words) {
        None => Some((None, words)),
        Some(more) => {
            let (number, more) = number_at(999_999, more)?;
            Some((Some(number), more))
        }
    }
}

fn table_at<'a, 'w>(words: &'w [Word<'a>]) -> Option<(Option<&'a [u8]>, &'w [Word<'a>])>
    ensures { option_map (λ w. (now w.0, map word w.1.now)) result ≡ spec.table_at (map word words.now) }
{
    match behind(b"table", words) {
        None => Some((None, words)),
        Some(more) => {
            let (name, more) = name_at(more)?;
            Some((Some(name), more))
        }
    }
}

fn said_leaf<'a>(said: bool, len: Option<u32>, table: Option<&'a [u8]>) -> Option<LeafOptions<'a>>
    ensures { option_map leaf result ≡ spec.said_leaf said len (now table.entry) }
{
    match (len, table) {
        (Some(_), _) => Some(LeafOptions { len, table }),
        (None, Some(_)) => Some(LeafOptions { len, table }),
        (None, None) => {
            if said {
                return Some(LeafOptions { len, table });
            }
            None
        }
    }
}

fn lawful_leaf<'a>(
    usage: Option<Usage>,
    said: Option<LeafOptions<'a>>,
) -> Option<Option<LeafOptions<'a>>>
    ensures { option_map (λ l. option_map leaf l) result ≡ spec.lawful_leaf usage (option_map leaf said.entry) }
{
    match said {
        None => Some(None),
        Some(leaf) => {
            if is_forbidden(usage) {
                return None;
            }
            Some(Some(leaf))
        }
    }
}

fn options<'a>(
    usage: Option<Usage>,
    said: bool,
    words: &[Word<'a>],
) -> Option<Option<LeafOptions<'a>>>
    ensures { option_map (λ l. option_map leaf l) result ≡ spec.options usage said (map word words.now) }
{
    let (len, more) = len_at(words)?;
    let (table, more) = table_at(more)?;
    if more.is_empty() {
        return lawful_leaf(usage, said_leaf(said, len, table));
    }
    None
}

fn leaf_options<'a>(usage: Option<Usage>, words: &[Word<'a>]) -> Option<Option<LeafOptions<'a>>>
    ensures { option_map (λ l. option_map leaf l) result ≡ spec.leaf_options usage (map word words.now) }
{
    let (said, more) = leaf_at(words);
    options(usage, said, more)
}

// The line, if no word is left.
fn with_all<'a>(words: &[Word<'a>], whole: Line<'a>) -> Option<Line<'a>>
    ensures { option_map line result ≡ with_all (map word words.now) (line whole.entry) }
{
    match words {
        [] => Some(whole),
        [_, ..] => None,
    }
}

fn profile_form<'a>(words: &[Word<'a>]) -> Option<Line<'a>>
    ensures { option_map line result ≡ spec.profile_form (map word words.now) }
{
    let (name, more) = name_at(words)?;
    with_all(more, Line::Begins(name))
}

fn segment_form<'a>(words: &[Word<'a>]) -> Option<Line<'a>>
    ensures { option_map line result ≡ spec.segment_form (map word words.now) }
{
    let (first, more) = first_word(words)?;
    let bytes = first.plain()?;
    let name = first.segment()?;
    let ((label, renamed), more) = label_at(bytes, more)?;
    let (usage, more) = usage_at(more)?;
    let (card, more) = card_at(more)?;
    with_all(more, Line::Segment(name, label, renamed, usage, card))
}

fn field_form<'a>(words: &[Word<'a>]) -> Option<Line<'a>>
    ensures { option_map line result ≡ spec.field_form (map word words.now) }
{
    let (number, more) = number_at(999, words)?;
    let (usage, more) = usage_at(more)?;
    let (card, more) = card_at(more)?;
    let leaf = leaf_options(usage, more)?;
    Some(Line::Field(number, usage, card, leaf))
}

fn comp_form<'a>(words: &[Word<'a>]) -> Option<Line<'a>>
    ensures { option_map line result ≡ spec.comp_form (map word words.now) }
{
    let (number, more) = number_at(99, words)?;
    let (usage, more) = usage_at(more)?;
    let leaf = leaf_options(usage, more)?;
    Some(Line::Comp(number, usage, leaf))
}

fn sub_form<'a>(words: &[Word<'a>]) -> Option<Line<'a>>
    ensures { option_map line result ≡ spec.sub_form (map word words.now) }
{
    let (number, more) = number_at(99, words)?;
    let (usage, more) = usage_at(more)?;
    let leaf = options(usage, false, more)?;
    Some(Line::Sub(number, usage, leaf))
}

fn group_form<'a>(at: u32, words: &[Word<'a>]) -> Option<Line<'a>>
    ensures { option_map line result ≡ spec.group_form at (map word words.now) }
{
    let (label, more) = name_at(words)?;
    let (usage, more) = usage_at(more)?;
    let (card, more) = card_at(more)?;
    with_all(more, Line::Group(at, label, usage, card))
}

fn count_form<'a>(words: &[Word<'a>]) -> Option<Line<'a>>
    ensures { option_map line result ≡ spec.count_form (map word words.now) }
{
    let (first, more) = first_word(words)?;
    if first.is(b"characters") {
        return with_all(more, Line::Counts);
    }
    None
}

fn table_form<'a>(alloc: Global, words: &[Word<'a>]) -> Result<Option<Line<'a>>, AllocError>
    ensures { IfOk result (λ found. option_map line found ≡ spec.table_form (map word words.now)) }
{
    let Some((name, more)) = name_at(words) else {
        return Ok(None);
    };
    match some_values(alloc, more)? {
        None => Ok(None),
        Some(values) => Ok(Some(Line::Table(name, values))),
    }
}

fn keyword_form<'a>(
    alloc: Global,
    at: u32,
    keyword: Word<'a>,
    more: &[Word<'a>],
) -> Result<Option<Line<'a>>, AllocError>
    ensures { IfOk result (λ found. option_map line found ≡ spec.keyword_form at (word keyword.entry) (map word more.now)) }
{
    if keyword.is(b"profile") {
        return Ok(profile_form(more));
    }
    if keyword.is(b"table") {
        return table_form(alloc, more);
    }
    if keyword.is(b"segment") {
        return Ok(segment_form(more));
    }
    if keyword.is(b"field") {
        return Ok(field_form(more));
    }
    if keyword.is(b"comp") {
        return Ok(comp_form(more));
    }
    if keyword.is(b"sub") {
        return Ok(sub_form(more));
    }
    if keyword.is(b"group") {
        return Ok(group_form(at, more));
    }
    if keyword.is(b"end") {
        return Ok(with_all(more, Line::End));
    }
    if keyword.is(b"count") {
        return Ok(count_form(more));
    }
    Ok(None)
}

/// The line that these words spell; `at` is its number.
pub(crate) fn form<'a>(
    alloc: Global,
    at: u32,
    words: &[Word<'a>],
) -> Result<Option<Line<'a>>, AllocError>
    ensures { IfOk result (λ found. option_map line found ≡ spec.form at (map word words.now)) }
{
    match words {
        [] => Ok(None),
        [keyword, more @ ..] => keyword_form(alloc, at, *keyword, more),
    }
}
