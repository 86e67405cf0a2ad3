//! Messages: segments, the first named MSH.

use crate::same::{are_same, are_same_segments};
use crate::start::{SegmentHead, end_of};
use crate::texts::Texts;
use crate::view::Segment;
use std::alloc::{AllocError, Global};
use std::marker::Model;

/// At least one segment, the first named MSH and no other; each holds canonical texts that aren't empty, at places of four positive numbers.
pub struct Message {
    starts: Vec<SegmentHead>,
    texts: Texts,
}

// (by hand, so that no crate above proves again how its fields are dropped)
impl Drop for Message {
    fn drop(self) {
        let Message {
            starts: _,
            texts: _,
        } = self;
    }
}

impl Model for Message {
    ghost use Rattle.std.specs.Prelude.{List};
    ghost use Rattle.std.specs.Coded.{coded_list};
    ghost use Rattle.gw_er7.specs.Message.{SegmentValue, segment_code};
    ghost use Rattle.gw_er7.specs.View.{lying, IsLying};

    ghost Value = { List SegmentValue };

    ghost coded = { coded_list segment_code };

    ghost view = { λ m. lying m.starts.items m.texts };

    ghost invariant = { λ m. IsLying m.starts.items m.texts };
}

impl Message {
    ghost use Rattle.std.specs.Prelude.{◌≡◌, ◌↔◌, ◌<◌, IsTrue, Some, IfOk, slice_get, length};
    ghost use Rattle.gw_er7.specs.Message.{IsMessage};
    ghost use Rattle.gw_er7.specs.View.{lying, IsLying};

    /// The message of the segments that begin so among these texts.
    pub(crate) fn of(starts: Vec<SegmentHead>, texts: Texts) -> Message
        requires { IsLying starts.items texts }
        ensures { result ≡ lying starts.items texts }
    {
        Message { starts, texts }
    }

    /// Gives back the memory that the message doesn't need: one that was read or built has some. It takes no memory.
    pub fn fit(&mut self)
        ensures { self.new ≡ self.old }
    {
        self.starts.shrink_to_fit();
        self.texts.fit();
    }

    /// How many segments the message has. It takes no memory.
    pub fn segment_count(&self) -> usize
        ensures count { result ≡ length self.now }
        ensures message { IsMessage self.now }
    {
        self.starts.len()
    }

    /// An equal message. The one error is allocation failure.
    pub fn copy(&self, alloc: Global) -> Result<Message, AllocError>
        ensures { IfOk result (λ message. message ≡ self.now) }
    {
        let starts = Vec::from_slice(alloc, &self.starts)?;
        let texts = self.texts.copy(alloc)?;
        Ok(Message { starts, texts })
    }

    /// Whether the messages are known to be equal, since their texts lie alike: none of them is looked at by itself. It takes no memory.
    fn lies_alike(&self, other: &Message) -> bool
        ensures { IsTrue result → self.now ≡ other.now }
    {
        are_same(&self.starts, &other.starts) && self.texts.lie_alike(&other.texts)
    }

    /// Whether the messages are equal: the same segments in the same order, each with the same texts at the same places. It takes no memory.
    pub fn same(&self, other: &Message) -> bool
        ensures { IsTrue result ↔ (self.now ≡ other.now) }
    {
        if self.lies_alike(other) {
            return true;
        }
        are_same_segments(self, other)
    }

    /// The segment of this number, from 0. It takes no memory.
    pub fn segment(&self, i: usize) -> Segment<'_>
        requires { i < length self.now }
        ensures { slice_get self.now i ≡ Some result }
    {
        let SegmentHead { name, first } = self.starts[i];
        let end = end_of(&self.starts, &self.texts, i);
        Segment::of(name, self.texts.lend(first, end))
    }
}
