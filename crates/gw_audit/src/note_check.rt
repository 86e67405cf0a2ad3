//! Whether the notes of a pass agree with the chapters.
ghost use Rattle.std.specs.Prelude.{◌≡◌, ◌∷◌, ◌+◌, ◌-◌, ◌<◌, ◌^◌, ◌&&◌, [], IsTrue, length, nat_le, slice_get};
ghost use Rattle.gw_gate.specs.Journal.{end};
ghost use Rattle.gw_gate.specs.Entries.{entry_seen};
ghost use Rattle.gw_crew.specs.Notes.{Added};
ghost use Rattle.gw_crew.specs.Seen.{note_seen, notes_seen};
ghost use Rattle.gw_audit.specs.own.Joins.{Follows, FollowsBy, IsFirst, IsFirstIn, number_in};
ghost use Rattle.gw_audit.specs.Settled.{GoOn, agrees, is_same, stands};

use crate::parts::{Part, last_of};
use gw_crew::{Note, Receipt};
use gw_gate::Entry;

// Whether the chapter has this entry under this number over all chapters.
fn stands_in(part: &Part, at: usize, entry: &Entry) -> bool
    ensures { result ≡ (nat_le part.now.start.entries at
        && is_same (entry_seen entry.now) (slice_get part.now.entries (at - part.now.start.entries))) }
{
    if at < part.start() {
        return false;
    }
    match part.entries().get(at - part.start()) {
        Some(there) => entry.same(there),
        None => false,
    }
}

// Whether the chapters have this entry under this number. If so, there is a number after it.
fn stands(parts: &[Part], at: usize, entry: &Entry) -> bool
    ensures exact { GoOn parts.now → result ≡ stands parts.now at (entry_seen entry.now) }
    ensures below { IsTrue result → at + 1 < 2 ^ 64 }
{
    for part in parts {
        if at < part.end() {
            return stands_in(part, at, entry);
        }
    }
    false
}

// The first number of the chapter's own entries, from low on, at which the note fits it.
fn first_in(part: &Part, low: usize, note: &Note) -> Option<usize>
    ensures { IsFirstIn part.now low (note_seen note.now) result }
{
    match note {
        Note::Look(version, _) => part.first_in_force(low, *version, note),
        Note::Stale(version, _) => part.first_in_force(low, *version, note),
        Note::Full => part.first_full(low),
        Note::Idle => part.first_idle(low),
        Note::Nothing(receiver) => part.first_nothing(low, *receiver),
        Note::Added(_) => Some(low),
    }
}

// A number of the chapter's own entries as one over all chapters, where the chapter has that many.
fn within(part: &Part, first: usize) -> Option<usize>
    ensures { result ≡ number_in (end part.now) (length part.now.entries) first }
{
    let count = part.entries().len();
    if first > count {
        return None;
    }
    Some(part.end().saturating_sub(count - first))
}

// The first number of entries over all chapters, from low on, at which the note fits this one.
#[tactic(auto, using(crate::proofs::Chaining::first_fits))]
fn fit_in(part: &Part, low: usize, note: &Note) -> Option<usize>
    ensures { IsFirst (part.now ∷ []) low (note_seen note.now) result }
{
    let from = low.saturating_sub(part.start());
    match first_in(part, from, note) {
        Some(first) => within(part, first),
        None => None,
    }
}

// The first number of entries over all chapters, from low on, at which the note fits one of them.
fn first_fit(parts: &[Part], low: usize, note: &Note) -> Option<usize>
    ensures { GoOn parts.now → IsFirst parts.now low (note_seen note.now) result }
{
    for part in parts {
        match fit_in(part, low, note) {
            Some(first) => return Some(first),
            None => {}
        }
    }
    None
}

// From low and need, those after a receipt, unless notes don't agree with the chapters.
#[tactic(auto, using(crate::proofs::Meeting::fails, crate::proofs::Meeting::holds))]
fn after_receipt(
    parts: &[Part],
    low: usize,
    need: usize,
    receipt: &Receipt,
) -> Option<(usize, usize)>
    ensures { Follows parts.now low need (Added receipt.now.at (entry_seen receipt.now.entry)) result }
{
    if receipt.at < low || receipt.at < need {
        return None;
    }
    if !stands(parts, receipt.at, &receipt.entry) {
        return None;
    }
    Some((receipt.at + 1, 0))
}

// Those after any other note, by the first number at which it fits.
fn after_other(low: usize, need: usize, first: Option<usize>) -> Option<(usize, usize)>
    ensures { FollowsBy low need first result }
{
    match first {
        None => None,
        Some(first) => Some((low, need.max(first))),
    }
}

// Those after a note.
fn after_note(parts: &[Part], low: usize, need: usize, note: &Note) -> Option<(usize, usize)>
    ensures { Follows parts.now low need (note_seen note.now) result }
{
    match note {
        Note::Added(receipt) => after_receipt(parts, low, need, receipt),
        _ => after_other(low, need, first_fit(parts, low, note)),
    }
}

// Whether the notes agree with the chapters, where there were since entries before them.
pub(crate) fn agrees(parts: &[Part], since: usize, notes: &[Note]) -> bool
    ensures { GoOn parts.now → result ≡ agrees parts.now since (notes_seen notes.now) }
{
    let mut low = since;
    let mut need = 0;
    for note in notes {
        let Some(next) = after_note(parts, low, need, note) else {
            return false;
        };
        low = next.0;
        need = next.1;
    }
    need <= last_of(parts)
}
