//! The texts of a message: all in one buffer, so that none takes memory of its own.

use crate::place::Place;
use crate::same::same_bytes;
use crate::spans::{MessageSpans, Store, TextSpan};
use crate::values::Values;
use std::alloc::{AllocError, Global};
use std::marker::Model;

/// How many texts a usual message has.
const USUAL_TEXTS: usize = 64;

/// How many bytes its texts take.
const USUAL_BYTES: usize = 512;

/// Texts at places, in the order in which they were put: spans, and the one buffer in which their texts lie.
#[derive(Drop)]
pub(crate) struct Texts {
    spans: MessageSpans,
    bytes: Vec<u8>,
}

impl Model for Texts {
    ghost use Rattle.std.specs.Prelude.{List};
    ghost use Rattle.std.specs.Coded.{coded_list};
    ghost use Rattle.gw_er7.specs.View.{Held, held_code, held, AreInside};

    ghost Value = { List Held };

    ghost coded = { coded_list held_code };

    ghost view = { λ t. held t.bytes.items t.spans };

    ghost invariant = { λ t. AreInside t.bytes.items t.spans };
}

impl Texts {
    ghost use Rattle.std.specs.Prelude.{◌≡◌, ◌≤◌, ◌++◌, ◌∷◌, [], length, IsTrue, OnOk, OnErr, IfOk};
    ghost use Rattle.gw_er7.specs.View.{held, between, AreInside};
    ghost use Rattle.gw_er7.specs.own.Spans.{AreSortedFrom};

    /// No text. It takes no memory.
    pub(crate) fn new(alloc: Global) -> Texts
        ensures { result ≡ [] }
    {
        Texts {
            spans: MessageSpans::new(alloc),
            bytes: Vec::new(alloc),
        }
    }

    /// Takes memory for the texts of a usual message, where none was taken yet.
    pub(crate) fn take_room(&mut self) -> Result<(), AllocError>
        ensures { self.new ≡ self.old }
    {
        if self.bytes.capacity() > 0 {
            return Ok(());
        }
        self.spans.take_room(USUAL_TEXTS)?;
        self.bytes.reserve(USUAL_BYTES)
    }

    /// The texts that these spans say of these bytes.
    pub(crate) fn among(bytes: Vec<u8>, spans: MessageSpans) -> Texts
        requires { AreInside bytes.items spans }
        ensures { result ≡ held bytes.items spans }
    {
        Texts { spans, bytes }
    }

    /// The same texts once more, in memory that fits them.
    pub(crate) fn copy(&self, alloc: Global) -> Result<Texts, AllocError>
        ensures { IfOk result (λ texts. texts ≡ self.now) }
    {
        let spans = self.spans.copy(alloc)?;
        let bytes = Vec::from_slice(alloc, &self.bytes)?;
        Ok(Texts { spans, bytes })
    }

    /// Puts a text at a place, behind the others.
    pub(crate) fn put(&mut self, place: Place, text: &[u8]) -> Result<(), AllocError>
        ensures ok { OnOk result (self.new ≡ self.old ++ record { place = place; text = text.now } ∷ []) }
        ensures err { OnErr result (self.new ≡ self.old) }
    {
        let from = self.bytes.len();
        self.bytes.extend_from_slice(text)?;
        let span = TextSpan {
            place,
            from,
            len: text.len(),
        };
        match self.spans.push(span) {
            Ok(()) => Ok(()),
            Err(_) => {
                self.bytes.truncate(from);
                Err(AllocError)
            }
        }
    }

    /// Puts the texts from this number on in the order of their places. It takes no memory.
    pub(crate) fn sort_from(&mut self, first: usize)
        requires { first ≤ length self.old }
        ensures { AreSortedFrom (λ h. h.place) first self.old self.new }
    {
        self.spans.sort_from(first);
    }

    /// Gives back the memory that the texts don't take.
    pub(crate) fn fit(&mut self)
        ensures { self.new ≡ self.old }
    {
        self.spans.fit();
        self.bytes.shrink_to_fit();
    }

    /// Whether these are known to be the same texts, since they lie alike in equal bytes: none of them is looked at by itself. It takes no memory.
    pub(crate) fn lie_alike(&self, other: &Texts) -> bool
        ensures { IsTrue result → self.now ≡ other.now }
    {
        same_bytes(&self.bytes, &other.bytes) && self.spans.are_alike(&other.spans)
    }

    pub(crate) fn len(&self) -> usize
        ensures { result ≡ length self.now }
    {
        self.spans.len()
    }

    /// The texts from one number up to another, borrowed.
    pub(crate) fn lend(&self, from: usize, to: usize) -> Values<'_>
        requires rising { from ≤ to }
        requires bound { to ≤ length self.now }
        ensures { result ≡ between from to self.now }
    {
        Values::of(&self.spans, &self.bytes, from, to)
    }
}
