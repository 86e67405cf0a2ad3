//! Equality of entries.
ghost use Rattle.std.specs.Prelude.{◌≡◌};
ghost use Rattle.gw_gate.specs.Seen.{plan_seen, conforming_seen, translated_seen};
ghost use Rattle.gw_gate.specs.Same.{is_accepted, is_refused, is_swapped, is_taken, is_kept, is_issued, is_out, same_entry};
ghost use Rattle.gw_gate.specs.Entries.{entry_seen};

use crate::event::Entry;
use crate::plans::{are_same, are_same_translated, have_same_text};
use gw_plan::{Conforming, Plan, Translated};

impl Entry {
    fn is_accepted(&self, number: u64, count: u64, message: &Conforming) -> bool
        ensures { result ≡ is_accepted number count (conforming_seen message.now) (entry_seen self.now) }
    {
        match self {
            Entry::Accepted {
                n,
                arrival,
                conforming,
            } => *n == number && *arrival == count && are_same(conforming, message),
            _ => false,
        }
    }

    fn is_refused(&self, count: u64, under: u16) -> bool
        ensures { result ≡ is_refused count under (entry_seen self.now) }
    {
        match self {
            Entry::Refused { arrival, code } => *arrival == count && *code == under,
            _ => false,
        }
    }

    fn is_swapped(&self, number: u64, other: &Plan) -> bool
        ensures { result ≡ is_swapped number (plan_seen other.now) (entry_seen self.now) }
    {
        match self {
            Entry::Swapped { version, plan } => *version == number && have_same_text(plan, other),
            _ => false,
        }
    }

    fn is_taken(&self, number: u64, to: usize) -> bool
        ensures { result ≡ is_taken number to (entry_seen self.now) }
    {
        match self {
            Entry::Job { n, receiver } => *n == number && *receiver == to,
            _ => false,
        }
    }

    fn is_kept(&self, number: u64, other: &Translated) -> bool
        ensures { result ≡ is_kept number (translated_seen other.now) (entry_seen self.now) }
    {
        match self {
            Entry::Kept { n, translated } => *n == number && are_same_translated(translated, other),
            _ => false,
        }
    }

    fn is_issued(&self, number: u64, to: usize) -> bool
        ensures { result ≡ is_issued number to (entry_seen self.now) }
    {
        match self {
            Entry::Issued { n, receiver } => *n == number && *receiver == to,
            _ => false,
        }
    }

    fn is_out(&self, number: u64, to: usize, other: &Translated) -> bool
        ensures { result ≡ is_out number to (translated_seen other.now) (entry_seen self.now) }
    {
        match self {
            Entry::Out {
                n,
                receiver,
                translated,
            } => *n == number && *receiver == to && are_same_translated(translated, other),
            _ => false,
        }
    }

    /// Whether the entries are equal in numbers, codes, receivers, versions, texts of plans and messages. It takes no memory.
    pub fn same(&self, other: &Entry) -> bool
        ensures { result ≡ same_entry (entry_seen self.now) (entry_seen other.now) }
    {
        match other {
            Entry::Accepted {
                n,
                arrival,
                conforming,
            } => self.is_accepted(*n, *arrival, conforming),
            Entry::Refused { arrival, code } => self.is_refused(*arrival, *code),
            Entry::Swapped { version, plan } => self.is_swapped(*version, plan),
            Entry::Job { n, receiver } => self.is_taken(*n, *receiver),
            Entry::Kept { n, translated } => self.is_kept(*n, translated),
            Entry::Issued { n, receiver } => self.is_issued(*n, *receiver),
            Entry::Out {
                n,
                receiver,
                translated,
            } => self.is_out(*n, *receiver, translated),
        }
    }
}
