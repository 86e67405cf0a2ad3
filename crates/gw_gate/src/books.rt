//! A journal with indexes of it, so that a step need not read the journal.
ghost use Rattle.std.specs.Prelude.{◌≡◌, ◌+◌, ◌++◌, ◌≤◌, OnOk, vec_len, vec_capacity, ◌<◌, Bool, true, nat_lt, length, map};
ghost use Rattle.std.specs.Option.{option_map};
ghost use Rattle.std.specs.Arc.{arc_value};
ghost use Rattle.std.specs.VecDeque.{deque_len, deque_capacity};
ghost use Rattle.gw_gate.specs.Parts.{is_under};
ghost use Rattle.gw_gate.specs.Seen.{plan_seen, conforming_seen, translated_seen};
ghost use Rattle.gw_gate.specs.Journal.{acceptance, current, end, from, issued, jobs, pair};
ghost use Rattle.gw_gate.specs.Chapters.{CanStart, is_pending, most_in_all, some_await};
ghost use Rattle.gw_gate.specs.own.Cutting.{Closes};
ghost use Rattle.gw_gate.specs.Headline.{IsTranslated};
ghost use Rattle.gw_gate.specs.Lawful.{IsLawful};
ghost use Rattle.gw_gate.specs.Meaning.{Makes};
ghost use Rattle.gw_gate.specs.own.Desks.{AreRoomier, HasRoomFor};
ghost use Rattle.gw_gate.specs.Replies.{Looks, Arrives, Refuses, Swaps, Takes, Puts, Reissues, Releases, Cuts, IsKept, IsIssued, Steps, StepsNoted, most, reply_to};
ghost use Rattle.gw_gate.specs.own.Books.{issue_reply, job_reply, put_reply, release_reply, under};
ghost use Rattle.gw_gate.specs.Entries.{entries_seen, start_seen};
ghost use Rattle.gw_gate.specs.Values.{event_seen, answer_seen, conforming_in, job_seen, noted_seen, pair_seen};

use crate::chapter::{Chapter, MOST_IN_ALL, Start};
use crate::copies::prepared;
use crate::desks::{
    hold_at, make_due, make_room, next_at, release_at, restart_all, some_wait, status_at,
};
use crate::event::{Entry, Event, Reply};
use crate::plans::{are_alike, is_of, is_under, receiver_at, receiver_count};
use gw_plan::{Conforming, Plan, Translated};
use gw_reorder::{Desk, Status};
use std::alloc::{AllocError, Global};
use std::collections::VecDeque;
use std::marker::Model;
use std::mem;
use std::sync::Arc;

/// The most entries of a journal.
pub const MAX_ENTRIES: usize = 262_144;

// An accepted message's number with a receiver.
#[derive(Clone, Copy)]
pub(crate) struct Pair {
    n: u64,
    receiver: usize,
}

// A reply, with the note of its entry. After an allocation failure it is the event.
pub(crate) type Answer = Result<(Reply, Option<Entry>), Event>;

// Makes room for an acceptance: for its place, its pairs, and its number at each desk to which it goes.
fn make_rooms(
    places: &mut Vec<usize>,
    queue: &mut VecDeque<Pair>,
    desks: &mut Vec<Desk<Arc<Translated>>>,
    alloc: Global,
    conforming: &Conforming,
) -> Result<(), AllocError>
    ensures places { places.new.items ≡ places.old.items }
    ensures queue { queue.new.items ≡ queue.old.items }
    ensures desks { AreRoomier desks.old.items desks.new.items }
    ensures place { OnOk result (vec_len places.new < vec_capacity places.new) }
    ensures pairs { OnOk result (deque_len queue.new + length (conforming_seen conforming.now).receivers ≤ deque_capacity queue.new) }
    ensures numbers { OnOk result (HasRoomFor desks.new.items (conforming_seen conforming.now)) }
{
    places.reserve(1)?;
    queue.reserve(receiver_count(conforming))?;
    make_room(desks, alloc, conforming)
}

// Adds a pair for each receiver of the message's route.
fn issue_all(queue: &mut VecDeque<Pair>, conforming: &Conforming, n: u64)
    requires { deque_len queue.old + length (conforming_seen conforming.now).receivers ≤ deque_capacity queue.old }
    ensures { map pair_seen queue.new.items ≡ map pair_seen queue.old.items ++ map (pair n) (conforming_seen conforming.now).receivers }
{
    for place in 0..receiver_count(conforming) {
        let receiver = receiver_at(conforming, place);
        queue.push_back_reserved(Pair { n, receiver });
    }
}

#[derive(Drop)]
pub(crate) struct Books {
    alloc: Global,
    start: Start,
    journal: Vec<Entry>,
    version: u64,
    plan: Arc<Plan>,
    arrivals: u64,
    places: Vec<usize>,
    queue: VecDeque<Pair>,
    desks: Vec<Desk<Arc<Translated>>>,
}

impl Model for Books {
    ghost use Rattle.std.specs.Prelude.{map};
    ghost use Rattle.std.specs.Arc.{arc_value};
    ghost use Rattle.gw_gate.specs.Journal.{Journal};
    ghost use Rattle.gw_gate.specs.Seen.{plan_seen};
    ghost use Rattle.gw_gate.specs.Entries.{entries_seen, start_seen};
    ghost use Rattle.gw_gate.specs.Values.{pair_seen};
    ghost use Rattle.gw_gate.specs.own.Desks.{desk_at};
    ghost use Rattle.gw_gate.specs.own.Books.{Fits, journal_of};

    ghost Value = { Journal };

    ghost view = { λ b. journal_of (start_seen b.start) (entries_seen b.journal.items) };

    ghost invariant = { λ b. Fits (start_seen b.start) (entries_seen b.journal.items) (record {
      version = b.version;
      plan = plan_seen (arc_value b.plan);
      arrivals = b.arrivals;
      places = b.places.items;
      queue = map pair_seen b.queue.items;
      desk = desk_at b.desks.items;
    }) };
}

impl Books {
    // The books of an empty journal that starts so.
    pub(crate) fn open(alloc: Global, start: Start, plan: Arc<Plan>) -> Self
        requires plan { arc_value plan ≡ arc_value start.plan }
        requires can { CanStart (start_seen start) }
        ensures { result ≡ from (start_seen start) }
    {
        let version = start.version;
        let arrivals = start.arrivals;
        Books {
            alloc,
            start,
            journal: Vec::new(alloc),
            version,
            plan,
            arrivals,
            places: Vec::new(alloc),
            queue: VecDeque::new(alloc),
            desks: Vec::new(alloc),
        }
    }

    // The entries so far.
    pub(crate) fn journal(&self) -> &[Entry]
        ensures { entries_seen result.now ≡ self.now.entries }
    {
        self.journal.as_slice()
    }

    // Where the journal starts.
    pub(crate) fn start(&self) -> &Start
        ensures start { start_seen result.now ≡ self.now.start }
        ensures can { CanStart self.now.start }
    {
        &self.start
    }

    // How many entries there were in all.
    pub(crate) fn end(&self) -> u64
        ensures value { result ≡ end self.now }
        ensures few { end self.now ≤ most_in_all + most }
    {
        self.start.entries + self.journal.len() as u64
    }

    // The plan in force.
    fn look(&self) -> Result<Reply, Event>
        ensures { Steps self.now Looks (answer_seen result) self.now }
    {
        match Arc::try_clone(&self.plan) {
            Ok(plan) => Ok(Reply::Current {
                version: self.version,
                plan,
            }),
            Err(_) => Err(Event::Look),
        }
    }

    // Handles `Refuse`: a message arrived that was refused.
    fn refuse(&mut self, code: u16, takes: bool) -> Answer
        ensures { StepsNoted takes self.old (Refuses code) (noted_seen result) self.new }
    {
        if self.journal.len() == MAX_ENTRIES {
            return Ok((Reply::Full(Event::Refuse(code)), None));
        }
        let arrival = self.arrivals + 1;
        let entry = Entry::Refused { arrival, code };
        let Ok(note) = prepared(&mut self.journal, takes, &entry) else {
            return Err(Event::Refuse(code));
        };
        self.arrivals = arrival;
        self.journal.push_reserved(entry);
        Ok((Reply::Refused { arrival }, note))
    }

    // Handles `Swap`: a plan takes the place of the one in force.
    fn swap(&mut self, plan: Arc<Plan>, takes: bool) -> Answer
        ensures { StepsNoted takes self.old (Swaps (plan_seen (arc_value plan))) (noted_seen result) self.new }
    {
        if !are_alike(&plan, &self.start.plan) {
            return Ok((Reply::Unlike(plan), None));
        }
        if self.journal.len() == MAX_ENTRIES {
            return Ok((Reply::Full(Event::Swap(plan)), None));
        }
        let Ok(copy) = Arc::try_clone(&plan) else {
            return Err(Event::Swap(plan));
        };
        let version = self.version + 1;
        let entry = Entry::Swapped {
            version,
            plan: copy,
        };
        let Ok(note) = prepared(&mut self.journal, takes, &entry) else {
            return Err(Event::Swap(plan));
        };
        self.version = version;
        self.plan = plan;
        self.journal.push_reserved(entry);
        Ok((Reply::Swapped { version }, note))
    }

    // The message that was accepted under this number, by the place of its entry.
    fn accepted(&self, n: u64) -> Option<&Arc<Conforming>>
        ensures { acceptance self.now.entries n ≡ option_map (under n) (conforming_in result) }
    {
        if n < self.start.acceptances {
            return None;
        }
        let Some(place) = self.places.get((n - self.start.acceptances) as usize) else {
            return None;
        };
        let Some(entry) = self.journal.get(*place) else {
            return None;
        };
        entry.accepted()
    }

    // The next pair, with the message that was accepted under its number.
    fn next(&self) -> Option<(Pair, &Arc<Conforming>)>
        ensures { reply_to self.now Takes ≡ job_reply (option_map job_seen result) }
    {
        let Some(pair) = self.queue.front() else {
            return None;
        };
        let Some(conforming) = self.accepted(pair.n) else {
            return None;
        };
        Some((*pair, conforming))
    }

    // Handles `Take`: the next pair is taken.
    fn take(&mut self, takes: bool) -> Answer
        ensures { StepsNoted takes self.old Takes (noted_seen result) self.new }
    {
        let Some((pair, accepted)) = self.next() else {
            return Ok((Reply::Idle, None));
        };
        if self.journal.len() == MAX_ENTRIES {
            return Ok((Reply::Full(Event::Take), None));
        }
        let Ok(conforming) = Arc::try_clone(accepted) else {
            return Err(Event::Take);
        };
        let Pair { n, receiver } = pair;
        let entry = Entry::Job { n, receiver };
        let Ok(note) = prepared(&mut self.journal, takes, &entry) else {
            return Err(Event::Take);
        };
        self.queue.pop_front();
        self.journal.push_reserved(entry);
        let reply = Reply::Job {
            n,
            receiver,
            conforming,
        };
        Ok((reply, note))
    }

    // The state of the pair of a translation. It is `Stranger` too if the translation is of another message than the accepted one.
    fn put_status(&self, n: u64, translated: &Translated) -> Status
        ensures { reply_to self.now (Puts n (translated_seen translated.now)) ≡ put_reply result (translated_seen translated.now) }
    {
        let receiver = translated.receiver();
        let Some(conforming) = self.accepted(n) else {
            return Status::Stranger;
        };
        if !is_of(translated, conforming) {
            return Status::Stranger;
        }
        status_at(&self.desks, receiver, n)
    }

    // Handles `Put`.
    fn put(&mut self, n: u64, translated: Arc<Translated>, takes: bool) -> Answer
        ensures { StepsNoted takes self.old (Puts n (translated_seen (arc_value translated))) (noted_seen result) self.new }
    {
        match self.put_status(n, &translated) {
            Status::Stranger => Ok((Reply::Stranger(Some(translated)), None)),
            Status::Repeat => Ok((Reply::Repeat(translated), None)),
            Status::Waiting => self.keep(n, translated, takes),
        }
    }

    // Keeps a translation for which its pair waits.
    fn keep(&mut self, n: u64, translated: Arc<Translated>, takes: bool) -> Answer
        requires { reply_to self.old (Puts n (translated_seen (arc_value translated))) ≡ IsKept }
        ensures { StepsNoted takes self.old (Puts n (translated_seen (arc_value translated))) (noted_seen result) self.new }
    {
        if self.journal.len() == MAX_ENTRIES {
            return Ok((Reply::Full(Event::Put { n, translated }), None));
        }
        let Ok(copy) = Arc::try_clone(&translated) else {
            return Err(Event::Put { n, translated });
        };
        let entry = Entry::Kept {
            n,
            translated: copy,
        };
        let Ok(note) = prepared(&mut self.journal, takes, &entry) else {
            return Err(Event::Put { n, translated });
        };
        let receiver = translated.receiver();
        hold_at(&mut self.desks, receiver, n, translated);
        self.journal.push_reserved(entry);
        Ok((Reply::Kept, note))
    }

    // The state of the pair.
    fn pair_status(&self, n: u64, receiver: usize) -> Status
        ensures { reply_to self.now (Reissues n receiver) ≡ issue_reply result }
    {
        status_at(&self.desks, receiver, n)
    }

    // Handles `Reissue`.
    fn reissue(&mut self, n: u64, receiver: usize, takes: bool) -> Answer
        ensures { StepsNoted takes self.old (Reissues n receiver) (noted_seen result) self.new }
    {
        match self.pair_status(n, receiver) {
            Status::Stranger => Ok((Reply::Stranger(None), None)),
            Status::Repeat => Ok((Reply::Done, None)),
            Status::Waiting => self.issue(n, receiver, takes),
        }
    }

    // Issues a pair again that waits for a translation.
    fn issue(&mut self, n: u64, receiver: usize, takes: bool) -> Answer
        requires { reply_to self.old (Reissues n receiver) ≡ IsIssued }
        ensures { StepsNoted takes self.old (Reissues n receiver) (noted_seen result) self.new }
    {
        if self.journal.len() == MAX_ENTRIES {
            return Ok((Reply::Full(Event::Reissue { n, receiver }), None));
        }
        if self.queue.reserve(1).is_err() {
            return Err(Event::Reissue { n, receiver });
        }
        let entry = Entry::Issued { n, receiver };
        let Ok(note) = prepared(&mut self.journal, takes, &entry) else {
            return Err(Event::Reissue { n, receiver });
        };
        self.queue.push_back_reserved(Pair { n, receiver });
        self.journal.push_reserved(entry);
        Ok((Reply::Issued, note))
    }

    // The next translation for a receiver, if it is kept.
    fn waiting(&self, receiver: usize) -> Option<(u64, &Arc<Translated>)>
        ensures { reply_to self.now (Releases receiver) ≡ release_reply (option_map (λ g. (g.0, translated_seen (arc_value g.1.now))) result) }
    {
        next_at(&self.desks, receiver)
    }

    // Handles `Release`: the next translation for a receiver is released.
    fn release(&mut self, receiver: usize, takes: bool) -> Answer
        ensures { StepsNoted takes self.old (Releases receiver) (noted_seen result) self.new }
    {
        let Some((n, next)) = self.waiting(receiver) else {
            return Ok((Reply::Nothing, None));
        };
        if self.journal.len() == MAX_ENTRIES {
            return Ok((Reply::Full(Event::Release(receiver)), None));
        }
        let (Ok(translated), Ok(copy)) = (Arc::try_clone(next), Arc::try_clone(next)) else {
            return Err(Event::Release(receiver));
        };
        let entry = Entry::Out {
            n,
            receiver,
            translated: copy,
        };
        let Ok(note) = prepared(&mut self.journal, takes, &entry) else {
            return Err(Event::Release(receiver));
        };
        release_at(&mut self.desks, receiver);
        self.journal.push_reserved(entry);
        Ok((Reply::Out { n, translated }, note))
    }

    // Whether the message was admitted under the version and plan in force.
    fn in_force(&self, conforming: &Conforming) -> bool
        ensures { result ≡ is_under (conforming_seen conforming.now) (current self.now).number (current self.now).plan }
    {
        is_under(conforming, self.version, &self.plan)
    }

    // Handles `Arrive`: a message that was admitted arrives.
    fn arrive(&mut self, conforming: Arc<Conforming>, takes: bool) -> Answer
        ensures { StepsNoted takes self.old (Arrives (conforming_seen (arc_value conforming))) (noted_seen result) self.new }
    {
        if self.in_force(&conforming) {
            return self.accept(conforming, takes);
        }
        let reply = Reply::Stale {
            version: self.version,
            conforming,
        };
        Ok((reply, None))
    }

    // Accepts a message that was admitted under the plan in force.
    fn accept(&mut self, conforming: Arc<Conforming>, takes: bool) -> Answer
        requires { is_under (conforming_seen (arc_value conforming)) (current self.old).number (current self.old).plan ≡ true }
        ensures { StepsNoted takes self.old (Arrives (conforming_seen (arc_value conforming))) (noted_seen result) self.new }
    {
        let place = self.journal.len();
        if place == MAX_ENTRIES {
            return Ok((Reply::Full(Event::Arrive(conforming)), None));
        }
        let Ok(copy) = Arc::try_clone(&conforming) else {
            return Err(Event::Arrive(conforming));
        };
        let n = self.start.acceptances + self.places.len() as u64;
        let arrival = self.arrivals + 1;
        let entry = Entry::Accepted {
            n,
            arrival,
            conforming: copy,
        };
        let Ok(note) = prepared(&mut self.journal, takes, &entry) else {
            return Err(Event::Arrive(conforming));
        };
        let grown = make_rooms(
            &mut self.places,
            &mut self.queue,
            &mut self.desks,
            self.alloc,
            &conforming,
        );
        if grown.is_err() {
            return Err(Event::Arrive(conforming));
        }
        issue_all(&mut self.queue, &conforming, n);
        make_due(&mut self.desks, &conforming, n);
        self.arrivals = arrival;
        self.places.push_reserved(place);
        self.journal.push_reserved(entry);
        Ok((Reply::Accepted { n, arrival }, note))
    }

    // Whether a pair waits to be taken.
    fn is_left(&self) -> bool
        ensures { result ≡ nat_lt (jobs self.now.entries) (length (issued self.now.entries)) }
    {
        !self.queue.is_empty()
    }

    // Whether something due wasn't released yet.
    fn some_awaits(&self) -> bool
        ensures { result ≡ some_await self.now.entries }
    {
        some_wait(&self.desks)
    }

    // Whether there are too many entries in all chapters.
    fn is_long(&self) -> bool
        ensures { result ≡ nat_lt most_in_all (end self.now) }
    {
        MOST_IN_ALL < self.end()
    }

    // Whether the journal can't be closed yet.
    fn is_pending(&self) -> bool
        ensures { result ≡ is_pending self.now }
    {
        self.is_left() || self.some_awaits() || self.is_long()
    }

    // Closes the journal, unless something is pending, and opens an empty one whose numbers go on.
    // The one error is an allocation failure, which changes nothing.
    fn close(&mut self) -> Result<Option<(Start, Vec<Entry>)>, AllocError>
        ensures { Closes self.old result self.new }
    {
        if self.is_pending() {
            return Ok(None);
        }
        let entries = self.end();
        let plan = Arc::try_clone(&self.plan)?;
        let next = Start {
            version: self.version,
            plan,
            acceptances: self.start.acceptances + self.places.len() as u64,
            arrivals: self.arrivals,
            entries,
        };
        self.places.clear();
        self.queue.clear();
        restart_all(&mut self.desks);
        let start = mem::replace(&mut self.start, next);
        let entries = mem::replace(&mut self.journal, Vec::new(self.alloc));
        Ok(Some((start, entries)))
    }

    // Handles `Cut`.
    fn cut(&mut self) -> Answer
        requires { IsLawful (IsTranslated Makes) self.old }
        ensures { (takes : Bool) → StepsNoted takes self.old Cuts (noted_seen result) self.new }
    {
        match self.close() {
            Ok(Some((start, entries))) => {
                let chapter = Chapter::of(start, entries);
                Ok((Reply::Closed(chapter), None))
            }
            Ok(None) => Ok((Reply::Pending, None)),
            Err(_) => Err(Event::Cut),
        }
    }

    // Makes one step, with a note of its entry if notes are taken.
    pub(crate) fn step(&mut self, event: Event, takes: bool) -> Answer
        requires { IsLawful (IsTranslated Makes) self.old }
        ensures { StepsNoted takes self.old (event_seen event) (noted_seen result) self.new }
    {
        match event {
            Event::Look => match self.look() {
                Ok(reply) => Ok((reply, None)),
                Err(event) => Err(event),
            },
            Event::Arrive(conforming) => self.arrive(conforming, takes),
            Event::Refuse(code) => self.refuse(code, takes),
            Event::Swap(plan) => self.swap(plan, takes),
            Event::Take => self.take(takes),
            Event::Put { n, translated } => self.put(n, translated, takes),
            Event::Reissue { n, receiver } => self.reissue(n, receiver, takes),
            Event::Release(receiver) => self.release(receiver, takes),
            Event::Cut => self.cut(),
        }
    }
}
