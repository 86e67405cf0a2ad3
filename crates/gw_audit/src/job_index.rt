//! The numbers of entries at which there began or ceased to be a job, entry by entry.
ghost use Rattle.std.specs.Prelude.{◌≡◌, ◌∷◌, [], IfOk, length};
ghost use Rattle.gw_gate.specs.Entries.{entry_seen, entries_seen};
ghost use Rattle.gw_gate.specs.Journal.{issued, jobs};
ghost use Rattle.gw_audit.specs.Owing.{AreLawful, waits_none};
ghost use Rattle.gw_audit.specs.Turns.{TurnsAt};

use crate::turning_points::turn_to;
use gw_gate::{Entry, receiver_count};
use std::alloc::{AllocError, Global};

// How many pairs an entry issues.
fn issued_by(entry: &Entry) -> usize
    ensures { result ≡ length (issued (entry_seen entry.now ∷ [])) }
{
    match entry {
        Entry::Accepted { conforming, .. } => receiver_count(conforming),
        Entry::Issued { .. } => 1,
        _ => 0,
    }
}

// How many pairs an entry takes.
fn taken_by(entry: &Entry) -> usize
    ensures { result ≡ jobs (entry_seen entry.now ∷ []) }
{
    match entry {
        Entry::Job { .. } => 1,
        _ => 0,
    }
}

// At which numbers of entries there begins or ceases to be no pair to be taken.
pub(crate) fn idle_in(alloc: Global, entries: &[Entry]) -> Result<Vec<usize>, AllocError>
    requires { AreLawful (entries_seen entries.now) }
    ensures { IfOk result (λ ats. TurnsAt (waits_none (entries_seen entries.now)) ats.items) }
{
    let mut ats = Vec::new(alloc);
    let mut issued: usize = 0;
    let mut taken: usize = 0;
    for place in 0..entries.len() {
        let entry = &entries[place];
        // (more pairs than that lay in no memory)
        let Some(more) = issued.checked_add(issued_by(entry)) else {
            return Err(AllocError);
        };
        issued = more;
        taken += taken_by(entry);
        turn_to(&mut ats, place + 1, issued <= taken)?;
    }
    Ok(ats)
}
