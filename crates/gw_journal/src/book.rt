//! The history of a journal, and what was seen of it.
ghost use Rattle.std.specs.Prelude.{◌≡◌, ◌≤◌, ◌<◌, ◌^◌, ◌++◌, ◌∷◌, ◌⊎◌, ◌↔◌, [], MatchBool, IsTrue, IsFalse, length, true, None};
ghost use mathlib.Core.List.{IsPrefix};
ghost use Rattle.gw_journal.specs.Rules.{head_of};
ghost use Rattle.gw_journal.specs.declared.event.Event.TheVariants as event;

use crate::event::Event;
use logbook::{Gain, Offer, Plain, Play, Rule, Seen, Start, Word};
use std::marker::{Brand, Model, PhantomData};

/// The most events of a history.
const MOST: u64 = 1 << 62;

/// The rule of a history.
pub struct Law;

impl Rule<Event, u64> for Law {
    ghost use Rattle.std.specs.Prelude.{[]};
    ghost use base.Fml.{ftrue};
    ghost use Rattle.gw_journal.specs.Rules.{IsKept};

    ghost holds = { λ cells log. IsKept cells log };

    ghost first = { [] };

    ghost hinted = { λ n log. Unit {0} };

    ghost shows = { λ log. [] };

    ghost keeps = { λ names log. ftrue };

    ghost moves = { λ ask before after answer. Unit {0} };
}

/// Callers trade nothing.
pub struct Nothing;

impl Gain<Event, u64> for Nothing {
    ghost use base.Fml.{ftrue};

    ghost after = { λ names about answer. ftrue };
}

/// A step that adds an event.
pub struct Add;

impl Play<Event, u64> for Add {
    ghost use Rattle.gw_journal.specs.Rules.{Adds};

    ghost then = { Adds };
}

/// A record that is put after the others.
#[derive(Drop)]
pub(crate) struct Putting<'a> {
    pub(crate) bytes: &'a [u8],
}

impl Plain<Putting<'_>, Event, u64> for Add {
    ghost use Rattle.std.specs.Prelude.{None};

    ghost ask = { λ p. event.Put p.bytes.now };

    ghost state = { λ p. None };
}

/// This many records are on the disk.
#[derive(Drop)]
pub(crate) struct Syncing {
    pub(crate) count: u64,
}

impl Plain<Syncing, Event, u64> for Add {
    ghost use Rattle.std.specs.Prelude.{None};

    ghost ask = { λ s. event.Synced s.count };

    ghost state = { λ s. None };
}

/// These bytes were read from the files, as the record at this place.
#[derive(Drop)]
pub(crate) struct Reading<'a> {
    pub(crate) place: u64,
    pub(crate) bytes: &'a [u8],
}

impl Plain<Reading<'_>, Event, u64> for Add {
    ghost use Rattle.std.specs.Prelude.{None};

    ghost ask = { λ r. event.Read r.place r.bytes.now };

    ghost state = { λ r. None };
}

/// Which book a journal's history has, and which records the journal had when it was opened. Who opens it picks them.
pub trait Naming {
    ghost use Rattle.std.specs.Prelude.{ℕ, List};
    ghost use Rattle.logbook.specs.Pages.{Book};

    ghost book: { Book };

    ghost before: { List (List ℕ) };
}

impl Naming for Brand {
    ghost use Rattle.std.specs.Prelude.{[]};

    ghost book = { record { number = 0; log_name = 0; cells_name = 0 } };

    ghost before = { [] };
}

/// An empty history, which has no name yet.
#[derive(Drop)]
pub struct Opened {
    head: Word<Event, u64, Law>,
    seen: Seen<Event, u64, Law>,
    pub ghost empty: { seen.log ≡ [] },
    pub ghost head_is: { head ≡ head_of seen.book },
}

impl Opened {
    /// An empty history.
    pub fn new() -> Opened {
        let (seen, mut first, _second) = Seen::open(Start::alone(), 0, 0);
        Opened {
            head: Word::tracked(0, &mut first),
            seen,
        }
    }

    /// The history, under a name.
    pub(crate) fn named<J: Naming>(self) -> History<J>
        requires { self.seen.book ≡ J.book }
        ensures { result ≡ [] }
    {
        let Opened { head, seen } = self;
        History {
            head,
            front: Front {
                events: 0,
                seen,
                of: PhantomData,
            },
        }
    }
}

/// A beginning of a journal's history that was seen. It stays one. Contracts see it as its events.
pub struct Front<J: Naming> {
    events: u64,
    seen: Seen<Event, u64, Law>,
    of: PhantomData<J>,
}

// (by hand, so that no crate above proves again how its fields are dropped)
impl<J: Naming> Drop for Front<J> {
    fn drop(self) {
        let Front {
            events: _,
            seen: _,
            of: _,
        } = self;
    }
}

impl<J: Naming> Model for Front<J> {
    ghost use Rattle.std.specs.Prelude.{◌≡◌, length, List};
    ghost use Rattle.gw_journal.specs.declared.event.Event as happened;

    ghost Value = { List happened.Event };

    ghost view = { λ f. f.seen.log };

    ghost invariant = { λ f. (f.events ≡ length f.seen.log) × (f.seen.book ≡ J.book) };
}

impl<J: Naming> Front<J> {
    /// A copy.
    pub fn again(&self) -> Front<J>
        ensures { result ≡ self.now }
    {
        Front {
            events: self.events,
            seen: self.seen.again(),
            of: PhantomData,
        }
    }

    /// Whether this begins the other, or is as long. If not, the other begins this.
    pub fn begins(&self, other: &Front<J>) -> bool
        ensures begins { MatchBool result (IsPrefix self.now other.now) (IsPrefix other.now self.now) }
        ensures longer { IsFalse result → length other.now < length self.now }
    {
        let mut both = self.seen.again();
        both.learn(&other.seen);
        self.events <= other.events
    }
}

/// The history of a journal, by its one owner.
#[derive(Drop)]
pub(crate) struct History<J: Naming> {
    head: Word<Event, u64, Law>,
    front: Front<J>,
}

impl<J: Naming> Model for History<J> {
    ghost use Rattle.std.specs.Prelude.{◌≡◌, List};
    ghost use Rattle.gw_journal.specs.Rules.{head_of};
    ghost use Rattle.gw_journal.specs.declared.event.Event as happened;

    ghost Value = { List happened.Event };

    ghost view = { λ h. h.front };

    ghost invariant = { λ h. h.head ≡ head_of J.book };
}

impl<J: Naming> History<J> {
    /// All of it.
    pub(crate) fn front(&self) -> &Front<J>
        ensures { result.now ≡ self.now }
    {
        &self.front
    }

    /// Whether it has 2^62 events.
    pub(crate) fn is_full(&self) -> bool
        ensures { IsTrue result ↔ 2 ^ 62 ≤ length self.now }
    {
        self.front.events >= MOST
    }

    /// Adds an event. False: it was not added. Nobody else adds one, so there was no room.
    pub(crate) fn add<X>(&mut self, about: &X) -> bool
    where
        Add: Plain<X, Event, u64>,
        requires free { (⟦<Add as Plain<X, Event, u64>>⟧.state about.now) ≡ None }
        ensures later { IsPrefix self.old self.new }
        ensures added { result ≡ true → self.new ≡ self.old ++ ⟦<Add as Plain<X, Event, u64>>⟧.ask about.now ∷ [] }
        ensures failed { IsFalse result → (2 ^ 62 ≤ length self.old) ⊎ (length self.old < length self.new) }
    {
        let length = self.front.events;
        if length >= MOST {
            return false;
        }
        let mut offer: Offer<Event, u64, Law, Nothing> = self
            .front
            .seen
            .plain::<Nothing, X, Add>(about);
        let mut pen = self.front.seen.no_pen();
        let found = self.head.compare_exchange::<Add, Nothing>(
            length,
            length + 1,
            &mut self.front.seen,
            &mut offer,
            &mut pen,
        );
        self.front.events = if found == length { length + 1 } else { found };
        found == length
    }
}
