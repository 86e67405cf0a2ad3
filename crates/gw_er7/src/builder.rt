//! Messages in the making.
ghost use Rattle.std.specs.Prelude.{◌≡◌, ◌<◌};
ghost use Rattle.gw_er7.specs.View.{lying, building, AreLying, AreBuilding};

use crate::message::Message;
use crate::place::Place;
use crate::start::SegmentHead;
use crate::texts::Texts;
use std::alloc::{AllocError, Global};
use std::marker::Model;

/// Puts the texts of the last segment, where there is one, in order. It takes no memory.
fn close(starts: &[SegmentHead], texts: &mut Texts)
    requires { AreBuilding starts.now texts.old }
    ensures each { AreLying starts.now texts.new }
    ensures same { lying starts.now texts.new ≡ building starts.now texts.old }
{
    if let [.., last] = starts {
        texts.sort_from(last.first);
    }
}

/// How many segments a usual message has.
const USUAL_SEGMENTS: usize = 8;

/// How many segments memory is asked for, where there was memory for `capacity` of them.
fn more(capacity: usize) -> usize
    ensures { 0 < result }
{
    if capacity == 0 { USUAL_SEGMENTS } else { 1 }
}

/// Makes a message, segment by segment and text by text.
#[derive(Drop)]
pub struct Builder {
    starts: Vec<SegmentHead>,
    texts: Texts,
}

impl Model for Builder {
    ghost use Rattle.std.specs.Prelude.{List};
    ghost use Rattle.std.specs.Coded.{coded_list};
    ghost use Rattle.gw_er7.specs.Message.{SegmentValue, segment_code};
    ghost use Rattle.gw_er7.specs.View.{building, IsBuilding};

    ghost Value = { List SegmentValue };

    ghost coded = { coded_list segment_code };

    ghost view = { λ b. building b.starts.items b.texts };

    ghost invariant = { λ b. IsBuilding b.starts.items b.texts };
}

impl Builder {
    ghost use Rattle.std.specs.Prelude.{◌≡◌, ◌<◌, ◌++◌, ◌∷◌, [], length, OnOk, OnErr};
    ghost use Rattle.std.specs.FinMap as texts;
    ghost use Rattle.gw_er7.specs.Message.{numbers};
    ghost use Rattle.gw_er7.specs.Building.{IsBegun, MayPut, with_last};

    /// A builder with no segment. It takes no memory.
    pub fn new(alloc: Global) -> Builder
        ensures { result ≡ [] }
    {
        Builder {
            starts: Vec::new(alloc),
            texts: Texts::new(alloc),
        }
    }

    /// Begins a segment, MSH first and only first. On allocation failure nothing has changed.
    pub fn begin(&mut self, name: [u8; 3]) -> Result<(), AllocError>
        requires { IsBegun (self.old ++ record { name = name; at = texts.empty } ∷ []) }
        ensures ok { OnOk result (self.new ≡ self.old ++ record { name = name; at = texts.empty } ∷ []) }
        ensures err { OnErr result (self.new ≡ self.old) }
    {
        self.texts.take_room()?;
        self.starts.reserve(more(self.starts.capacity()))?;
        close(&self.starts, &mut self.texts);
        let first = self.texts.len();
        let _ = self.starts.push(SegmentHead { name, first });
        Ok(())
    }

    /// Puts a text at a place of the last segment, where none is. Places may come in any order. On allocation failure nothing has changed.
    pub fn put(&mut self, place: Place, text: &[u8]) -> Result<(), AllocError>
        requires { MayPut (numbers place) text.now self.old }
        ensures ok { OnOk result (self.new ≡ with_last (λ s. record s { at = texts.insert s.at (numbers place) text.now }) self.old) }
        ensures err { OnErr result (self.new ≡ self.old) }
    {
        self.texts.put(place, text)
    }

    /// The message of the segments, of which there has to be one. It takes no memory, and `Message::fit` gives back what isn't needed.
    pub fn finish(self) -> Message
        requires { 0 < length self }
        ensures { result ≡ self }
    {
        let Builder { starts, texts } = self;
        let mut texts = texts;
        close(&starts, &mut texts);
        Message::of(starts, texts)
    }
}
