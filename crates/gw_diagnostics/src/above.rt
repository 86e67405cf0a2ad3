//! What the lines above a refused line say of it: which is still open, which takes no line below it, and which says the same.
use crate::advice::{behind, line_at};
use gw_lines::{Word, bytes_of, keyword_of, words_of};
use std::alloc::{AllocError, Global};

/// What a line says that may be said once: of which kind it is, and its names.
#[derive(Clone, Copy, PartialEq, Eq)]
struct Said<'t> {
    kind: &'t [u8],
    name: &'t [u8],
    event: &'t [u8],
}

/// The words of a line; none where it is broken.
pub(crate) fn words_in(alloc: Global, line: &[u8]) -> Result<Vec<Word<'_>>, AllocError> {
    match words_of(alloc, line)? {
        Some(words) => Ok(words),
        None => Ok(Vec::new(alloc)),
    }
}

/// The word of this number, from 0; empty where the line has fewer.
pub(crate) fn word_at<'t>(words: &[Word<'t>], number: usize) -> &'t [u8] {
    match words.get(number) {
        Some(word) => bytes_of(*word),
        None => &[],
    }
}

/// The keywords of rules.
const RULES: &[&[u8]] = &[b"copy", b"first", b"repeat", b"build"];

/// The keywords of lines that say no name: each is known by its place behind the others, an `else` by its table.
const UNNAMED: &[&[u8]] = &[b"field", b"comp", b"sub", b"else"];

/// The keywords of lines that an `end` closes.
const OPENING: &[&[u8]] = &[b"group", b"flat"];

/// The name that a line says.
fn name_in<'t>(words: &[Word<'t>]) -> &'t [u8] {
    let keyword = word_at(words, 0);
    let second = word_at(words, 1);
    if keyword == b"segment".as_slice() && word_at(words, 2) == b"as".as_slice() {
        word_at(words, 3)
    } else if keyword == b"at".as_slice() {
        second.strip_suffix(b".1".as_slice()).unwrap_or(second)
    } else if UNNAMED.contains(&keyword) {
        &[]
    } else {
        second
    }
}

/// Of a route that says senders, the field and the words behind `of`, up to the word `from`; of any other line nothing.
fn senders_in<'w, 't>(words: &'w [Word<'t>]) -> &'w [Word<'t>] {
    if word_at(words, 0) != b"route".as_slice() || word_at(words, 3) != b"of".as_slice() {
        return &[];
    }
    let more = words.get(4..).unwrap_or(&[]);
    match more
        .iter()
        .position(|word| bytes_of(*word) == b"from".as_slice())
    {
        None => more,
        Some(end) => more.get(..end).unwrap_or(more),
    }
}

/// The words of senders, in order.
fn sorted_words<'t>(alloc: Global, senders: &[Word<'t>]) -> Result<Vec<&'t [u8]>, AllocError> {
    let mut sorted = Vec::new(alloc);
    for word in senders.get(1..).unwrap_or(&[]) {
        sorted.push(bytes_of(*word))?;
    }
    sorted.sort()?;
    Ok(sorted)
}

/// Whether a line above takes what one of these senders would: it says none, or one of their words of the same field. `sorted` are their words, in order.
fn takes_of(above: &[Word<'_>], senders: &[Word<'_>], sorted: &[&[u8]]) -> bool {
    let others = senders_in(above);
    if others.is_empty() {
        return true;
    }
    word_at(others, 0) == word_at(senders, 0)
        && others
            .get(1..)
            .unwrap_or(&[])
            .iter()
            .any(|word| sorted.binary_search(&bytes_of(*word)).is_ok())
}

/// What a line says: segments and groups share labels, rules share fields.
fn said_in<'t>(words: &[Word<'t>]) -> Said<'t> {
    let keyword = word_at(words, 0);
    let kind: &[u8] = if RULES.contains(&keyword) {
        b"build"
    } else if keyword == b"group".as_slice() {
        b"segment"
    } else {
        keyword
    };
    let event = if kind == b"route".as_slice() {
        word_at(words, 2)
    } else {
        &[]
    };
    Said {
        kind,
        name: name_in(words),
        event,
    }
}

/// Of a kind of lines, with which keywords those begin behind which it may say everything again.
const AGAIN_BEHIND: &[(&[u8], &[&[u8]])] = &[
    (b"row", &[b"table"]),
    (b"else", &[b"table"]),
    (b"build", &[b"segment"]),
    (b"at", RULES),
    (b"to", &[b"route"]),
    (b"segment", &[b"begin"]),
    (b"table", &[b"begin"]),
];

/// Whether lines of a kind may say everything again behind one with this keyword.
fn begins_anew(kind: &[u8], keyword: &[u8]) -> bool {
    for (said, keywords) in AGAIN_BEHIND {
        if *said == kind {
            return keywords.contains(&keyword);
        }
    }
    false
}

/// The number of the last line above this one that says what it says, at the same level; 0 where none does.
pub(crate) fn said_above(alloc: Global, text: &[u8], line: u32) -> Result<u32, AllocError> {
    let words = words_in(alloc, line_at(text, line))?;
    let said = said_in(&words);
    let senders = senders_in(&words);
    let sorted = sorted_words(alloc, senders)?;
    // (the last line that says it at the current level, and those at each level around it)
    let mut last = 0;
    let mut outer: Vec<u32> = Vec::new(alloc);
    let mut rest = text;
    for number in 1..line {
        let words = words_in(alloc, line_at(rest, 1))?;
        rest = behind(rest, 1);
        let keyword = word_at(&words, 0);
        if begins_anew(said.kind, keyword) {
            last = 0;
        }
        if said_in(&words) == said && takes_of(&words, senders, &sorted) {
            last = number;
        }
        if keyword == b"group".as_slice() {
            outer.push(last)?;
            last = 0;
        } else if keyword == b"end".as_slice() {
            last = outer.pop().unwrap_or(0);
        }
    }
    Ok(last)
}

/// The number of the innermost group or flat that is open at a line; 0 where none is.
pub(crate) fn open_above(alloc: Global, text: &[u8], line: u32) -> Result<u32, AllocError> {
    let mut open: Vec<u32> = Vec::new(alloc);
    let mut rest = text;
    for number in 1..line {
        let keyword = keyword_of(line_at(rest, 1));
        rest = behind(rest, 1);
        if OPENING.contains(&keyword) {
            open.push(number)?;
        } else if keyword == b"end".as_slice() {
            open.pop();
        }
    }
    Ok(open.pop().unwrap_or(0))
}

/// Whether a field or component takes no line below it: its usage is X, or its line says of its first leaf what there is to say.
fn is_closed(words: &[Word<'_>]) -> bool {
    let fewest = if word_at(words, 0) == b"field".as_slice() {
        4
    } else {
        3
    };
    words.len() > fewest || word_at(words, 2) == b"X".as_slice()
}

/// How far in lines with this keyword stand in a profile; 0 for one that closes them all.
pub(crate) fn depth_of(keyword: &[u8]) -> u32 {
    if keyword == b"field".as_slice() {
        1
    } else if keyword == b"comp".as_slice() {
        2
    } else if keyword == b"sub".as_slice() {
        3
    } else {
        0
    }
}

/// The number of the field or component to which a line of a profile would belong, where that takes no line below it; else 0.
pub(crate) fn closed_above(alloc: Global, text: &[u8], line: u32) -> Result<u32, AllocError> {
    let depth = depth_of(keyword_of(line_at(text, line)));
    let mut closed = 0;
    let mut rest = text;
    for number in 1..line {
        let words = words_in(alloc, line_at(rest, 1))?;
        rest = behind(rest, 1);
        let here = depth_of(word_at(&words, 0));
        if !words.is_empty() && here < depth {
            closed = if here > 0 && here + 1 == depth && is_closed(&words) {
                number
            } else {
                0
            };
        }
    }
    Ok(closed)
}

/// The number of the line above this one that begins the profile or map to which it belongs; 0 at a line of a plan's own.
pub(crate) fn begin_above(text: &[u8], line: u32) -> u32 {
    let mut begin = 0;
    let mut rest = text;
    for number in 1..line {
        let said = line_at(rest, 1);
        if keyword_of(said) == b"begin".as_slice() {
            begin = number;
        } else if said == b"stop".as_slice() {
            begin = 0;
        }
        rest = behind(rest, 1);
    }
    begin
}
