//! A clock that stands still.
ghost use Rattle.std.specs.Prelude.{◌≡◌, ◌↔◌, ℕ, List};

use gw_ack::Stamp;
use gw_crew::Clock;

/// A clock that stands still: each of its stamps is the same.
#[derive(Clone, Copy)]
pub struct FixedClock {
    stamp: Stamp,
}

impl FixedClock {
    /// The clock that stands at this stamp. It takes no memory.
    pub fn new(stamp: Stamp) -> FixedClock
        ensures { (given : List ℕ) → ⟦<FixedClock as Clock>⟧.gives result given ↔ (given ≡ stamp) }
    {
        FixedClock { stamp }
    }
}

impl Clock for FixedClock {
    ghost gives = { λ c given. given ≡ c.stamp };

    fn stamp(&mut self) -> Stamp {
        self.stamp
    }
}
