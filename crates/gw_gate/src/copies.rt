//! Copies of entries.
ghost use Rattle.std.specs.Prelude.{◌≡◌, ◌≤◌, ◌+◌, IfOk, OnOk, Some, vec_len, vec_capacity};
ghost use Rattle.gw_gate.specs.Replies.{noted};
ghost use Rattle.gw_gate.specs.Entries.{entry_seen};
ghost use Rattle.gw_gate.specs.Values.{note_seen};

use crate::event::Entry;
use std::alloc::AllocError;
use std::sync::Arc;

impl Entry {
    // A copy of the entry.
    pub(crate) fn copy(&self) -> Result<Entry, AllocError>
        ensures { IfOk result (λ e. entry_seen e ≡ entry_seen self.now) }
    {
        match self {
            Entry::Accepted {
                n,
                arrival,
                conforming,
            } => Ok(Entry::Accepted {
                n: *n,
                arrival: *arrival,
                conforming: Arc::try_clone(conforming)?,
            }),
            Entry::Refused { arrival, code } => Ok(Entry::Refused {
                arrival: *arrival,
                code: *code,
            }),
            Entry::Swapped { version, plan } => Ok(Entry::Swapped {
                version: *version,
                plan: Arc::try_clone(plan)?,
            }),
            Entry::Job { n, receiver } => Ok(Entry::Job {
                n: *n,
                receiver: *receiver,
            }),
            Entry::Kept { n, translated } => Ok(Entry::Kept {
                n: *n,
                translated: Arc::try_clone(translated)?,
            }),
            Entry::Issued { n, receiver } => Ok(Entry::Issued {
                n: *n,
                receiver: *receiver,
            }),
            Entry::Out {
                n,
                receiver,
                translated,
            } => Ok(Entry::Out {
                n: *n,
                receiver: *receiver,
                translated: Arc::try_clone(translated)?,
            }),
        }
    }
}

// A copy of the entry as its note, if notes are taken.
fn note(takes: bool, entry: &Entry) -> Result<Option<Entry>, AllocError>
    ensures { IfOk result (λ o. note_seen o ≡ noted takes (Some (entry_seen entry.now))) }
{
    if !takes {
        return Ok(None);
    }
    let copy = entry.copy()?;
    Ok(Some(copy))
}

// Makes room in the journal for the entry, and its note if notes are taken.
pub(crate) fn prepared(
    journal: &mut Vec<Entry>,
    takes: bool,
    entry: &Entry,
) -> Result<Option<Entry>, AllocError>
    ensures same { journal.new.items ≡ journal.old.items }
    ensures room { OnOk result (vec_len journal.new + 1 ≤ vec_capacity journal.new) }
    ensures note { IfOk result (λ o. note_seen o ≡ noted takes (Some (entry_seen entry.now))) }
{
    journal.reserve(1)?;
    note(takes, entry)
}
