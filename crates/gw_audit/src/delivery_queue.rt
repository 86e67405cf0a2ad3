//! When there is nothing to be given out for a receiver, entry by entry.
ghost use Rattle.std.specs.Prelude.{◌≡◌, ◌≢◌, ◌<◌, ℕ, All, IfOk, OnOk, Some, is_some, length, nat_eq, not, slice_get};
ghost use Rattle.std.specs.List.{IsDistinct};
ghost use Rattle.gw_reorder.specs.Calls.{after_holding, next_of};
ghost use Rattle.gw_reorder.specs.State.{SameButRoom, with_due};
ghost use Rattle.gw_gate.specs.Entries.{entry_seen, entries_seen};
ghost use Rattle.gw_gate.specs.Seen.{conforming_seen};
ghost use Rattle.gw_gate.specs.own.Desks.{desk_seen, value_seen};
ghost use Rattle.gw_audit.specs.Owing.{AreLawful, MayEnter, concerned, entered, gives_none};
ghost use Rattle.gw_audit.specs.own.Queues.{Advanced, ConcernsOnce, MovedIf, queue_at, QueueSeen, no_queue};
ghost use Rattle.gw_audit.specs.Turns.{TurnsAt};

use crate::turning_points::turn_to;
use gw_gate::{Entry, receiver_at, receiver_count};
use gw_plan::{Conforming, Translated};
use gw_reorder::Desk;
use std::alloc::{AllocError, Global};
use std::marker::Model;
use std::sync::Arc;

// A receiver's desk, and the numbers of entries at which there began or ceased to be nothing to be given out.
#[derive(Drop)]
pub(crate) struct Queue {
    desk: Desk<Arc<Translated>>,
    turns: Vec<usize>,
}

impl Model for Queue {
    ghost Value = { QueueSeen };

    ghost view = { λ q. record { desk = desk_seen q.desk; turns = q.turns.items } };
}

// The message's route goes to each of its receivers once, by its type.
fn goes_once(conforming: &Conforming)
    ensures { IsDistinct nat_eq (conforming_seen conforming.now).receivers }
{
    let _ = conforming.route();
}

// A message that is accepted concerns each receiver once.
fn concerns_once(entry: &Entry)
    ensures { ConcernsOnce (entry_seen entry.now) }
{
    match entry {
        Entry::Accepted { conforming, .. } => goes_once(conforming),
        _ => {}
    }
}

// How many receivers an entry concerns.
fn concerned_count(entry: &Entry) -> usize
    ensures { result ≡ length (concerned (entry_seen entry.now)) }
{
    match entry {
        Entry::Accepted { conforming, .. } => receiver_count(conforming),
        Entry::Kept { .. } => 1,
        Entry::Out { .. } => 1,
        _ => 0,
    }
}

// The receiver at this place among them.
fn concerned_at(entry: &Entry, place: usize) -> usize
    requires { place < length (concerned (entry_seen entry.now)) }
    ensures { slice_get (concerned (entry_seen entry.now)) place ≡ Some result }
{
    match entry {
        Entry::Accepted { conforming, .. } => receiver_at(conforming, place),
        Entry::Kept { translated, .. } => translated.receiver(),
        Entry::Out { receiver, .. } => *receiver,
        _ => 0,
    }
}

// One more number is due.
fn accept(desk: &mut Desk<Arc<Translated>>, n: u64) -> Result<(), AllocError>
    requires { All (λ m. m < n) desk.old.due }
    ensures { OnOk result (SameButRoom (with_due (desk_seen desk.old) n) (desk_seen desk.new)) }
{
    desk.reserve()?;
    desk.due(n);
    Ok(())
}

// A translation is kept.
fn keep(
    desk: &mut Desk<Arc<Translated>>,
    n: u64,
    translated: &Arc<Translated>,
) -> Result<(), AllocError>
    ensures { OnOk result (desk_seen desk.new ≡ after_holding (desk_seen desk.old) n (value_seen translated.now)) }
{
    let copy = Arc::try_clone(translated)?;
    desk.hold(n, copy);
    Ok(())
}

// One entry more, at the desk of a receiver that it concerns.
fn enter(desk: &mut Desk<Arc<Translated>>, entry: &Entry) -> Result<(), AllocError>
    requires { MayEnter (entry_seen entry.now) (desk_seen desk.old) }
    ensures { OnOk result (SameButRoom (entered (entry_seen entry.now) (desk_seen desk.old)) (desk_seen desk.new)) }
{
    match entry {
        Entry::Accepted { n, .. } => accept(desk, *n),
        Entry::Kept { n, translated } => keep(desk, *n, translated),
        Entry::Out { .. } => {
            desk.release();
            Ok(())
        }
        _ => Ok(()),
    }
}

// Whether there is nothing to be given out.
fn has_nothing(desk: &Desk<Arc<Translated>>) -> bool
    ensures { result ≡ not (is_some (next_of (desk_seen desk.now))) }
{
    match desk.peek() {
        Some(_) => false,
        None => true,
    }
}

impl Queue {
    fn new(alloc: Global) -> Self
        ensures { result ≡ no_queue }
    {
        Queue {
            desk: Desk::new(alloc),
            turns: Vec::new(alloc),
        }
    }

    // The numbers of entries at which there began or ceased to be nothing to be given out.
    pub(crate) fn turns(&self) -> &[usize]
        ensures { result.now ≡ self.now.turns }
    {
        self.turns.as_slice()
    }

    // One entry more that concerns the receiver, with which there are this many.
    fn advance(&mut self, at: usize, entry: &Entry) -> Result<(), AllocError>
        requires { MayEnter (entry_seen entry.now) self.old.desk }
        ensures { OnOk result (Advanced (entry_seen entry.now) at self.old self.new) }
    {
        enter(&mut self.desk, entry)?;
        let nothing = has_nothing(&self.desk);
        turn_to(&mut self.turns, at, nothing)?;
        Ok(())
    }
}

// As many queues as this receiver needs.
fn widen(queues: &mut Vec<Queue>, alloc: Global, receiver: usize) -> Result<(), AllocError>
    ensures same { (r : ℕ) → queue_at queues.new.items r ≡ queue_at queues.old.items r }
    ensures ok { OnOk result (receiver < length queues.new.items) }
{
    while queues.len() <= receiver {
        queues.push(Queue::new(alloc))?;
    }
    Ok(())
}

// One entry more at the queue of a receiver that it concerns.
fn advance_at(
    queues: &mut Vec<Queue>,
    receiver: usize,
    at: usize,
    entry: &Entry,
) -> Result<(), AllocError>
    requires within { receiver < length queues.old.items }
    requires may { MayEnter (entry_seen entry.now) (queue_at queues.old.items receiver).desk }
    ensures this { OnOk result (Advanced (entry_seen entry.now) at (queue_at queues.old.items receiver) (queue_at queues.new.items receiver)) }
    ensures others { (r : ℕ) → r ≢ receiver → queue_at queues.new.items r ≡ queue_at queues.old.items r }
{
    queues[receiver].advance(at, entry)
}

// One entry more, at the queues of the receivers that it concerns.
fn advance_all(
    queues: &mut Vec<Queue>,
    alloc: Global,
    at: usize,
    entry: &Entry,
) -> Result<(), AllocError>
    requires { (r : ℕ) → MayEnter (entry_seen entry.now) (queue_at queues.old.items r).desk }
    ensures { OnOk result ((r : ℕ) → MovedIf (concerned (entry_seen entry.now)) r (entry_seen entry.now) at
        (queue_at queues.old.items r) (queue_at queues.new.items r)) }
{
    concerns_once(entry);
    for place in 0..concerned_count(entry) {
        let receiver = concerned_at(entry, place);
        widen(queues, alloc, receiver)?;
        advance_at(queues, receiver, at, entry)?;
    }
    Ok(())
}

// The queues of all receivers that an entry concerns; there is never anything to be given out for another.
pub(crate) fn queues_of(alloc: Global, entries: &[Entry]) -> Result<Vec<Queue>, AllocError>
    requires { AreLawful (entries_seen entries.now) }
    ensures { IfOk result (λ queues. (r : ℕ) → TurnsAt (gives_none (entries_seen entries.now) r) (queue_at queues.items r).turns) }
{
    let mut queues = Vec::new(alloc);
    for place in 0..entries.len() {
        advance_all(&mut queues, alloc, place + 1, &entries[place])?;
    }
    Ok(queues)
}
