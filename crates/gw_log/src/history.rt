//! A list of what was asked of a disk, with its answers, that only clauses read.
ghost use Rattle.std.specs.Prelude.{◌≡◌, List, [], ◌∷◌};
ghost use Rattle.std.specs.Borrow.{ftrue};
ghost use Rattle.gw_log.specs.History.{Event, event_of};

use std::marker::{Model, PhantomData};

/// What was asked of a disk, with its answers, the last first. No memory holds it.
#[derive(Drop)]
pub struct History {
    marker: PhantomData<u8>,
    pub ghost events: { List Event },
}

impl Model for History {
    ghost also_owns = { λ _. ftrue };
}

impl History {
    pub(crate) fn new() -> History
        ensures { result.events ≡ [] }
    {
        History {
            marker: PhantomData,
        }
    }

    /// The numbers are the kind of an event and what it is about.
    pub(crate) fn note(&mut self, _numbers: &[u64], _bytes: &[u8])
        ensures { self.new.events ≡ event_of _numbers.now _bytes.now ∷ self.old.events }
    {}
}
