//! Whether two values are equal, part by part: messages here, and what the crates above compare so.
ghost use Rattle.std.specs.Prelude.{◌≡◌, ◌↔◌, IsTrue};
ghost use Rattle.std.specs.List.{AllZip};
ghost use Rattle.gw_er7.specs.Message.{numbers};
ghost use Rattle.gw_er7.specs.View.{entry_of};

use crate::message::Message;
use crate::place::Place;
use crate::values::Values;

/// A part that can be compared: `same` says what it is to be the same.
pub trait Part {
    ghost use Rattle.std.specs.Prelude.{◌↔◌, IsTrue};

    ghost same: { Self → Self → Type 0 };

    /// Whether this is the same as the other.
    fn is(&self, other: &Self) -> bool
        ensures { IsTrue result ↔ same self.now other.now };
}

/// Whether these are the same parts in the same order. It takes no memory.
pub fn are_same<T: Part>(parts: &[T], others: &[T]) -> bool
    ensures { IsTrue result ↔ AllZip T.same parts.now others.now }
{
    if parts.len() != others.len() {
        return false;
    }
    for (i, part) in parts.iter().enumerate() {
        if !part.is(&others[i]) {
            return false;
        }
    }
    true
}

fn same_place(one: Place, other: Place) -> bool
    ensures { IsTrue result ↔ (numbers one ≡ numbers other) }
{
    one == other
}

/// Whether these are the same bytes. It takes no memory.
pub fn same_bytes(one: &[u8], other: &[u8]) -> bool
    ensures { IsTrue result ↔ (one.now ≡ other.now) }
{
    one == other
}

impl Part for Vec<u8> {
    ghost use Rattle.std.specs.Prelude.{◌≡◌};

    ghost same = { λ one other. one.items ≡ other.items };

    fn is(&self, other: &Vec<u8>) -> bool {
        same_bytes(self, other)
    }
}

/// Whether these are the same texts at the same places.
pub(crate) fn same_values(values: &Values<'_>, others: &Values<'_>) -> bool
    ensures { IsTrue result ↔ AllZip (λ a b. entry_of a ≡ entry_of b) values.now others.now }
{
    if values.len() != others.len() {
        return false;
    }
    for i in 0..values.len() {
        let value = values.at(i);
        let other = others.at(i);
        if !same_place(value.place, other.place) {
            return false;
        }
        if !same_bytes(value.text, other.text) {
            return false;
        }
    }
    true
}

/// Whether the messages have the same segments in the same order, each with the same texts at the same places. It takes no memory.
pub(crate) fn are_same_segments(message: &Message, other: &Message) -> bool
    ensures { IsTrue result ↔ (message.now ≡ other.now) }
{
    if message.segment_count() != other.segment_count() {
        return false;
    }
    for i in 0..message.segment_count() {
        if !message.segment(i).is(&other.segment(i)) {
            return false;
        }
    }
    true
}
