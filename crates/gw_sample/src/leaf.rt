//! The texts of a sample.

use crate::text::{Undrawn, put};
use gw_profile::{Count, Profile, SubShape, Table, measure};
use indexmap::IndexMap;
use std::alloc::{AllocError, Global};

/// Which of the texts that a profile allows a sample has.
#[derive(Clone, Copy, PartialEq, Eq, Debug, Drop)]
pub enum Texts {
    /// The value of this number, from 0, of each table (behind the last comes the first again), and plain texts where there is no table.
    Value(usize),
    /// The longest value of each table, and texts of the greatest length where there is no table, but none longer than this.
    Longest(u32),
}

/// A text of a leaf without a table. Its length is 1, which each length allows.
const PLAIN: &[u8] = b"A";

/// The null value, which every leaf allows that may be present: it is exempt from length and table (chapter 2, 2.5.3).
pub(crate) const NULL: &[u8] = b"\"\"";

/// The ends of a table: the first of its shortest values, and of its longest.
#[derive(Clone, Copy, Drop)]
struct Ends<'p> {
    shortest: &'p [u8],
    longest: &'p [u8],
}

/// A profile with the ends of each of its tables, and which texts are asked for.
pub(crate) struct Values<'p> {
    profile: &'p Profile,
    texts: Texts,
    ends: IndexMap<&'p [u8], Ends<'p>>,
}

// (by hand, so that no crate above proves again how its fields are dropped)
impl<'p> Drop for Values<'p> {
    fn drop(self) {
        let Values {
            profile: _,
            texts: _,
            ends: _,
        } = self;
    }
}

// The ends of a table.
fn ends_of(count: Count, table: &Table) -> Ends<'_> {
    let mut ends = Ends {
        shortest: NULL,
        longest: NULL,
    };
    let mut least = u64::MAX;
    let mut most = 0;
    for value in table.values() {
        let len = measure(count, value);
        if len < least {
            ends.shortest = value.as_slice();
            least = len;
        }
        if len > most {
            ends.longest = value.as_slice();
            most = len;
        }
    }
    ends
}

// Whether the length of a leaf allows a text.
fn is_short(count: Count, sub: &SubShape, text: &[u8]) -> bool {
    match sub.len {
        None => true,
        Some(most) => measure(count, text) <= u64::from(most),
    }
}

// The value of this number of a table, where behind the last comes the first again.
fn value_at(table: &Table, number: usize) -> &[u8] {
    let values = table.values();
    if values.is_empty() {
        return NULL;
    }
    &values[number % values.len()]
}

// As many letters as a length allows, but no more than this.
fn put_letters(text: &mut Vec<u8>, len: Option<u32>, most: u32) -> Result<(), Undrawn> {
    let len = match len {
        Some(len) if len < most => len,
        _ => most,
    };
    put(text, PLAIN)?;
    for _ in 1..len {
        put(text, PLAIN)?;
    }
    Ok(())
}

impl<'p> Values<'p> {
    pub(crate) fn of(
        alloc: Global,
        profile: &'p Profile,
        texts: Texts,
    ) -> Result<Values<'p>, AllocError> {
        let mut ends = IndexMap::new(alloc);
        for (name, table) in profile.tables() {
            ends.insert(name.as_slice(), ends_of(profile.count(), table))?;
        }
        Ok(Values {
            profile,
            texts,
            ends,
        })
    }

    // The text of a leaf with this table that is asked for, however long it is.
    fn asked(&self, usual: Option<&'p [u8]>, table: &'p Table, ends: Ends<'p>) -> &'p [u8] {
        match (self.texts, usual) {
            (Texts::Value(0), Some(text)) if table.contains(text) => text,
            (Texts::Value(number), _) => value_at(table, number),
            (Texts::Longest(_), _) => ends.longest,
        }
    }

    // The text of a leaf with the table of this name: the one that is asked for where its length allows it, else the table's first value, else its shortest,
    // else the null value.
    fn listed(&self, usual: Option<&'p [u8]>, sub: &SubShape, name: &[u8]) -> &'p [u8] {
        let count = self.profile.count();
        let (Some(table), Some(ends)) = (self.profile.table(name), self.ends.get(name)) else {
            return NULL;
        };
        let asked = self.asked(usual, table, *ends);
        for text in [asked, value_at(table, 0), ends.shortest] {
            if is_short(count, sub, text) {
                return text;
            }
        }
        NULL
    }

    /// Whether long texts are asked for.
    pub(crate) fn are_long(&self) -> bool {
        match self.texts {
            Texts::Longest(_) => true,
            Texts::Value(_) => false,
        }
    }

    /// Puts the text of a leaf that the profile doesn't list.
    pub(crate) fn put_unlisted(&self, text: &mut Vec<u8>) -> Result<(), Undrawn> {
        match self.texts {
            Texts::Longest(most) => put_letters(text, None, most),
            Texts::Value(_) => put(text, PLAIN),
        }
    }

    /// Puts a component that the profile doesn't list: a long text, or a second subcomponent without a first.
    pub(crate) fn put_beyond(&self, text: &mut Vec<u8>) -> Result<(), Undrawn> {
        match self.texts {
            Texts::Longest(most) => put_letters(text, None, most),
            Texts::Value(_) => put(text, b"&A"),
        }
    }

    /// Puts the text of a leaf.
    pub(crate) fn put(
        &self,
        text: &mut Vec<u8>,
        usual: Option<&'p [u8]>,
        sub: &SubShape,
    ) -> Result<(), Undrawn> {
        if let Some(name) = &sub.table {
            return put(text, self.listed(usual, sub, name));
        }
        match (self.texts, usual) {
            (Texts::Longest(most), _) => put_letters(text, sub.len, most),
            (Texts::Value(_), Some(value)) if is_short(self.profile.count(), sub, value) => {
                put(text, value)
            }
            _ => put(text, PLAIN),
        }
    }
}
