//! A gate for one thread, and the noted step of a gate.
ghost use Rattle.std.specs.Prelude.{◌≡◌, ◌≢◌, ◌≤◌, ◌+◌, ◌++◌, IsTrue, IfOk, OnErr, is_some, vec_len, vec_capacity, [], false};
ghost use Rattle.std.specs.Option.{option_map, option_to_list};
ghost use Rattle.gw_gate.specs.Replies.{Cuts, Replied};
ghost use Rattle.gw_gate.specs.Values.{event_seen, reply_seen, answer_seen};
ghost use Rattle.gw_crew.specs.Notes.{asked_for, plain_by, Calls, NotesAt};
ghost use Rattle.gw_crew.specs.Seen.{note_seen, notes_seen};
ghost use Rattle.gw_crew.specs.Solos.{StepsOnce, event_of, is_copied, note_in, reply_in, SoloSeen};

use crate::door::{Door, Phase};
use crate::note::{Note, Receipt};
use gw_gate::{Event, Gate, Reply};
use std::alloc::{AllocError, Global};
use std::marker::Model;
use std::sync::Arc;

/// A handle that owns its gate, for one thread, with the notes of its replies.
pub struct Solo {
    gate: Gate,
    notes: Vec<Note>,
}

// (by hand: so no crate above proves again how its parts are dropped)
impl Drop for Solo {
    fn drop(self) {
        let Solo { gate: _, notes: _ } = self;
    }
}

impl Model for Solo {
    ghost Value = { SoloSeen };

    ghost view = { λ s. record { gate = s.gate; notes = notes_seen s.notes.items } };
}

// The receiver that the event asks for, 0 where it asks for none.
fn asked_for(event: &Event) -> usize
    ensures { result ≡ asked_for (event_seen event.now) }
{
    match event {
        Event::Release(receiver) => *receiver,
        _ => 0,
    }
}

// The note of a reply that adds no entry, if it leaves one, by the receiver that was asked for.
fn plain_note(receiver: usize, reply: &Reply) -> Result<Option<Note>, AllocError>
    ensures note { IfOk result (λ note. option_map note_seen note ≡ plain_by receiver (reply_seen reply.now)) }
    ensures copied { OnErr result (IsTrue (is_copied (reply_seen reply.now))) }
{
    match reply {
        Reply::Current { version, plan } => {
            let plan = Arc::try_clone(plan)?;
            Ok(Some(Note::Look(*version, plan)))
        }
        Reply::Stale {
            version,
            conforming,
        } => {
            let conforming = Arc::try_clone(conforming)?;
            Ok(Some(Note::Stale(*version, conforming)))
        }
        Reply::Full(_) => Ok(Some(Note::Full)),
        Reply::Idle => Ok(Some(Note::Idle)),
        Reply::Nothing => Ok(Some(Note::Nothing(receiver))),
        _ => Ok(None),
    }
}

// The event that had this reply, whose note has a copy.
fn event_of(reply: Reply) -> Event
    ensures { event_seen result ≡ event_of (reply_seen reply) }
{
    match reply {
        Reply::Stale { conforming, .. } => Event::Arrive(conforming),
        _ => Event::Look,
    }
}

/// Whether there is room for the note of the reply to an event, after it was made. A Cut leaves no note, and needs none.
pub fn room_for(notes: &mut Vec<Note>, event: &Event) -> bool
    ensures same { notes.new.items ≡ notes.old.items }
    ensures room { IsTrue result → event_seen event.now ≢ Cuts → vec_len notes.new + 1 ≤ vec_capacity notes.new }
{
    match event {
        Event::Cut => true,
        _ => notes.reserve(1).is_ok(),
    }
}

/// One step of a gate, with its note. An error is an allocation failure: the event is returned, and nothing changed.
pub fn step(gate: &mut Gate, event: Event) -> Result<(Reply, Option<Note>), Event>
    ensures { StepsOnce gate.old (event_seen event) result gate.new }
{
    // (for the clause that the journal is lawful)
    gate.journal();
    let at = gate.end() as usize;
    let receiver = asked_for(&event);
    match gate.step_noted(event) {
        Err(event) => Err(event),
        Ok((reply, entry)) => match entry {
            Some(entry) => Ok((reply, Some(Note::Added(Receipt { at, entry })))),
            None => match plain_note(receiver, &reply) {
                Ok(note) => Ok((reply, note)),
                Err(_) => Err(event_of(reply)),
            },
        },
    }
}

/// Keeps the note that a step left, for which there is room, and gives its reply. It takes no memory.
pub fn keep(
    notes: &mut Vec<Note>,
    answer: Result<(Reply, Option<Note>), Event>,
) -> Result<Reply, Event>
    requires { IsTrue (is_some (note_in answer)) → vec_len notes.old + 1 ≤ vec_capacity notes.old }
    ensures reply { result ≡ reply_in answer }
    ensures notes { notes_seen notes.new.items ≡ notes_seen notes.old.items ++ option_to_list (note_in answer) }
{
    match answer {
        Err(event) => Err(event),
        Ok((reply, note)) => match note {
            None => Ok(reply),
            Some(note) => {
                notes.push_reserved(note);
                Ok(reply)
            }
        },
    }
}

impl Solo {
    /// A handle of this gate, which has noted nothing. It takes no memory.
    pub fn new(alloc: Global, gate: Gate) -> Self
        ensures { result ≡ record { gate = gate; notes = [] } }
    {
        Solo {
            gate,
            notes: Vec::new(alloc),
        }
    }

    /// The gate. It takes no memory.
    pub fn gate(&self) -> &Gate
        ensures { result.now ≡ self.now.gate }
    {
        &self.gate
    }

    /// The gate alone. It takes no memory.
    pub fn into_gate(self) -> Gate
        ensures { result ≡ self.gate }
    {
        let Solo { gate, notes: _ } = self;
        gate
    }
}

impl Door for Solo {
    ghost noted = { λ s. s.notes };

    /// One step of the gate, noted with the number of its entry. An error is an allocation failure: the event is returned, and nothing changed.
    fn call(&mut self, event: Event) -> Result<Reply, Event>
        ensures calls { Calls self.old.notes (event_seen event) (answer_seen result) self.new.notes }
        ensures step { IfOk result (λ given. Replied self.old.gate (event_seen event) (reply_seen given) self.new.gate) }
        ensures noted { NotesAt self.old.gate (event_seen event) (answer_seen result) self.old.notes self.new.notes }
        ensures err { OnErr result (self.new.gate ≡ self.old.gate) }
    {
        if !room_for(&mut self.notes, &event) {
            return Err(event);
        }
        let answer = step(&mut self.gate, event);
        keep(&mut self.notes, answer)
    }

    /// Nobody else adds an entry, so it doesn't wait.
    fn wait(&mut self, _phase: Phase) -> bool
        ensures never { result ≡ false }
        ensures same { self.new ≡ self.old }
    {
        false
    }

    fn notes(&self) -> &[Note] {
        self.notes.as_slice()
    }
}
