//! What is reported of the chapters of a journal.
ghost use Rattle.std.specs.Prelude.{◌≡◌, ◌<◌, ◌^◌, count_by, length};
ghost use Rattle.gw_gate.specs.Chapters.{all_entries};
ghost use Rattle.gw_gate.specs.Entries.{entry_seen, entries_seen};
ghost use Rattle.gw_audit.specs.Report.{is_of, report_of};

use crate::parts::Part;
use gw_gate::Entry;

/// How many entries of each kind the chapters have, and how many in all.
#[derive(Clone, Copy, Debug, PartialEq, Eq)]
pub struct Report {
    /// Messages that were accepted.
    pub accepted: u64,
    /// Contents that were refused.
    pub refused: u64,
    /// Translations that were kept.
    pub kept: u64,
    /// Translations that were given out.
    pub released: u64,
    /// All entries.
    pub entries: u64,
}

// A kind of entries that are counted.
#[derive(Clone, Copy)]
pub(crate) enum Kind {
    Accepted,
    Refused,
    Arrived,
    Kept,
    Released,
    Any,
}

// Whether an entry is of this kind.
fn is_of(kind: Kind, entry: &Entry) -> bool
    ensures { result ≡ is_of kind (entry_seen entry.now) }
{
    match kind {
        Kind::Accepted => matches!(entry, Entry::Accepted { .. }),
        Kind::Refused => matches!(entry, Entry::Refused { .. }),
        Kind::Arrived => matches!(entry, Entry::Accepted { .. } | Entry::Refused { .. }),
        Kind::Kept => matches!(entry, Entry::Kept { .. }),
        Kind::Released => matches!(entry, Entry::Out { .. }),
        Kind::Any => true,
    }
}

// How many entries are of this kind.
pub(crate) fn count(kind: Kind, entries: &[Entry]) -> u64
    ensures { result ≡ count_by (is_of kind) (entries_seen entries.now) }
{
    entries.iter().filter(|entry| is_of(kind, entry)).count() as u64
}

// How many entries of the parts are of this kind.
#[tactic(auto, using(crate::proofs::Following::count_next))]
fn count_all(kind: Kind, parts: &[Part]) -> u64
    requires { length (all_entries parts.now) < 2 ^ 64 }
    ensures { result ≡ count_by (is_of kind) (all_entries parts.now) }
{
    let mut all = 0;
    for part in parts {
        all += count(kind, part.entries());
    }
    all
}

impl Report {
    // What is reported of the entries of the parts.
    #[tactic(auto, using(crate::proofs::Following::count_any))]
    pub(crate) fn of(parts: &[Part]) -> Self
        requires { length (all_entries parts.now) < 2 ^ 64 }
        ensures { result ≡ report_of (all_entries parts.now) }
    {
        Report {
            accepted: count_all(Kind::Accepted, parts),
            refused: count_all(Kind::Refused, parts),
            kept: count_all(Kind::Kept, parts),
            released: count_all(Kind::Released, parts),
            entries: count_all(Kind::Any, parts),
        }
    }
}
