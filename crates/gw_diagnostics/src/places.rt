//! The lines of a profile's text, by the places of which breaches speak.
use crate::above::{depth_of, word_at, words_in};
use crate::advice::{behind, line_at};
use gw_validate::{Breach, Kind};
use std::alloc::{AllocError, Global};
use std::collections::BTreeMap;

/// A profile has no more lines.
const MAX_LINES: u32 = 10_000;

/// A place in a profile: the letters of a segment's name, and in it a field, a component, a subcomponent; 0 where the whole is meant.
type Place = [usize; 6];

/// The number of the line of each place, 0 of a segment whose name stands more than once.
#[derive(Drop)]
pub(crate) struct PlaceLines {
    lines: BTreeMap<Place, u32>,
}

/// The place of a segment.
fn place_of(name: &[u8]) -> Place {
    match name {
        [first, second, third, ..] => [
            usize::from(*first),
            usize::from(*second),
            usize::from(*third),
            0,
            0,
            0,
        ],
        _ => [0; 6],
    }
}

/// The number that a word of an accepted line spells.
fn number_of(word: &[u8]) -> usize {
    let mut number = 0usize;
    for digit in word {
        number = number
            .saturating_mul(10)
            .saturating_add(usize::from(digit.saturating_sub(b'0')));
    }
    number
}

/// The place that a line below this one speaks of; a line of another kind changes nothing.
fn place_below(place: Place, keyword: &[u8], word: &[u8]) -> Place {
    if keyword == b"segment".as_slice() {
        return place_of(word);
    }
    let number = number_of(word);
    let [first, second, third, field, comp, _] = place;
    match depth_of(keyword) {
        1 => [first, second, third, number, 0, 0],
        2 => [first, second, third, field, number, 0],
        3 => [first, second, third, field, comp, number],
        _ => place,
    }
}

impl PlaceLines {
    /// The lines of the text of a profile.
    pub(crate) fn of(alloc: Global, text: &[u8]) -> Result<Self, AllocError> {
        let mut lines = BTreeMap::new(alloc);
        let mut place = place_of(&[]);
        let mut rest = text;
        for number in 1..=MAX_LINES {
            let words = words_in(alloc, line_at(rest, 1))?;
            rest = behind(rest, 1);
            let keyword = word_at(&words, 0);
            place = place_below(place, keyword, word_at(&words, 1));
            let is_segment = keyword == b"segment".as_slice();
            if is_segment && lines.contains_key(&place) {
                lines.insert(place, 0)?;
            } else if is_segment || depth_of(keyword) > 0 {
                lines.insert(place, number)?;
            }
        }
        Ok(PlaceLines { lines })
    }

    /// The number of the line of this place, where one is noted.
    fn at(&self, place: Place) -> u32 {
        match self.lines.get(&place) {
            None => 0,
            Some(line) => *line,
        }
    }

    /// The number of the line that a breach speaks of; none where a segment's name stands more than once, or stands where none may.
    pub(crate) fn line_of(&self, breach: Breach) -> Option<u32> {
        let Breach {
            kind,
            field,
            comp,
            sub,
            ..
        } = breach;
        let segment = place_of(&breach.segment);
        let mut found = self.at(segment);
        if found == 0 || kind == Kind::OutOfOrder {
            return None;
        }
        let [first, second, third, _, _, _] = segment;
        for (comp, sub) in [(0, 0), (comp, 0), (comp, sub)] {
            let line = self.at([first, second, third, field, comp, sub]);
            if line > 0 {
                found = line;
            }
        }
        Some(found)
    }
}
