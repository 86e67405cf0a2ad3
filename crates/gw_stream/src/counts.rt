//! What a run did, in numbers.
ghost use Rattle.std.specs.Prelude.{◌≡◌, ◌<◌, ◌+◌, ◌-◌, ◌^◌, min};
ghost use Rattle.gw_stream.specs.Counted.{IsTotal, nothing, with_answer};

use gw_ack::Ack;

/// What a run did, in numbers: answers written, results put, blocks written to a receiver, and the codes of the answers written or acknowledgments read.
#[derive(Clone, Copy, Debug, PartialEq, Eq)]
pub struct Counts {
    pub answered: u64,
    pub put: u64,
    pub sent: u64,
    pub aa: u64,
    pub ae: u64,
    pub ar: u64,
}

impl Counts {
    /// Nothing yet. It takes no memory.
    pub fn none() -> Counts
        ensures { result ≡ nothing }
    {
        Counts {
            answered: 0,
            put: 0,
            sent: 0,
            aa: 0,
            ae: 0,
            ar: 0,
        }
    }

    /// Counts an answer of this code, where there are fewer than 2^60 and the codes add up to them. It takes no memory.
    pub fn add(&mut self, code: Ack)
        requires total { IsTotal self.old }
        requires room { self.old.answered < 2 ^ 60 }
        ensures { self.new ≡ with_answer code self.old }
    {
        self.answered += 1;
        match code {
            Ack::AA => self.aa += 1,
            Ack::AE => self.ae += 1,
            Ack::AR => self.ar += 1,
        }
    }

    /// Counts blocks that were sent to receivers, as far as 64 bits can tell.
    pub(crate) fn add_sent(&mut self, blocks: usize)
        ensures { self.new ≡ record self.old { sent = min (self.old.sent + blocks) (2 ^ 64 - 1) } }
    {
        self.sent = self.sent.saturating_add(blocks as u64);
    }
}
