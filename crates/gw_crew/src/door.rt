//! A handle of a gate.
use crate::note::Note;
use gw_gate::{Event, Reply};

/// How far a gate is closed.
#[derive(Clone, Copy, PartialEq, Eq, PartialOrd, Ord, Debug)]
pub enum Phase {
    /// Anything may still come.
    Running,
    /// No message will arrive any more.
    NoArrivals,
    /// No result will be put any more.
    NoResults,
}

/// A handle of a gate, which notes the replies in order.
pub trait Door {
    ghost use Rattle.std.specs.Prelude.{◌≡◌, List};
    ghost use Rattle.gw_gate.specs.Values.{event_seen, answer_seen};
    ghost use Rattle.gw_crew.specs.Notes.{NoteSeen, Calls};
    ghost use Rattle.gw_crew.specs.Seen.{notes_seen};

    /// What was noted so far.
    ghost noted: { Self → List NoteSeen };

    /// The reply to the event. An error is an allocation failure: the event is returned, and nothing changed.
    fn call(&mut self, event: Event) -> Result<Reply, Event>
        ensures { Calls (noted self.old) (event_seen event) (answer_seen result) (noted self.new) };

    /// Waits until there may be something for this handle: for `NoArrivals` a pair to be taken, for `NoResults` a result to be given out.
    /// False says that the phase was reached first. No clause rests on the answer.
    fn wait(&mut self, phase: Phase) -> bool
        ensures { noted self.new ≡ noted self.old };

    /// The notes so far. It takes no memory.
    fn notes(&self) -> &[Note]
        ensures { notes_seen result.now ≡ noted self.now };
}
