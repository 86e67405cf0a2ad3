//! What lies under a gateway's lock.
ghost use Rattle.std.specs.Prelude.{◌≡◌, ◌^◌, ◌<◌, ◌≤◌, ◌⊎◌, ◌↔◌, ◌+◌, [], ⊤, ℕ, length, max, min, List, IfOk, IfErr, IfSome, IsErrOf, IsNone, IsSome, IsTrue, IsFalse, OnOk, Some};
ghost use mathlib.Core.List.{IsPrefix};
ghost use Rattle.gw_due.specs.Spelling as spelling;
ghost use Rattle.gw_due.specs.State as spec;
ghost use Rattle.gw_due.specs.Views as view;
ghost use Rattle.gw_journal.specs.Logs.{AreFaithful, Confirms, HasGrown, IsIdle, IsSpent, log_in};
ghost use Rattle.gw_ledger.specs.Finding.{with_read};
ghost use Rattle.gw_ledger.specs.Ledgers.{IsInState, IsSeenIn, Spares, Tells, needed_from};
ghost use Rattle.gw_ledger.specs.Putting.{IsCause, IsPut, Puts, margin_at, number_by, with_storage};
ghost use Rattle.gw_ledger.specs.own.Steps.{IsAhead};

use crate::fault::LedgerFault;
use crate::needs::needed_from;
use gw_due::laws::Rules;
use gw_due::{Entry, Event, SpellFault, State, StateFault, spell};
use gw_journal::{Desk, Done, Front, Job, JournalFault, Naming, Opened, Receipt, Storage, Ticket};
use std::alloc::Global;
use std::marker::{Model, PhantomData};

/// A journal whose records spell events, and the state of all events that were put.
pub struct Ledger<J: Naming, S: Storage + Drop, R: Rules> {
    pub(crate) alloc: Global,
    pub(crate) desk: Desk<J, S>,
    pub(crate) state: State,
    limit: usize,
    keep: u64,
    pub(crate) number: u64,
    pub(crate) margin_at: Option<Ticket<J>>,
    tail: (u64, usize),
    rules: PhantomData<R>,
}

// (by hand, so that no crate above proves again how its fields are dropped)
impl<J: Naming, S: Storage + Drop, R: Rules> Drop for Ledger<J, S, R> {
    fn drop(self) {
        let Ledger {
            alloc: _,
            desk: _,
            state: _,
            limit: _,
            keep: _,
            number: _,
            margin_at: _,
            tail: _,
            rules: _,
        } = self;
    }
}

impl<J: Naming, S: Storage + Drop, R: Rules> Model for Ledger<J, S, R> {
    ghost use Rattle.std.specs.Prelude.{◌≡◌, ◌<◌, ℕ, List, IfSome, false, is_some};
    ghost use Rattle.gw_journal.specs.Logs.{AreFaithful, log_in};
    ghost use Rattle.gw_ledger.specs.Ledgers.{IsInState, IsMargin, LedgerState, Spares, Tells};

    ghost Value = { LedgerState S };

    ghost view = { λ l. record {
      desk = l.desk;
      state = l.state;
      limit = l.limit;
      keep = l.keep;
      number = l.number;
      margin_at = l.margin_at;
      tail = l.tail;
    } };

    ghost invariant = { λ l. (is_some l.desk.fault ≡ false →
        IsInState R.routes (AreFaithful J.before l.desk.history) (log_in J.before l.desk.history).records l.state)
        × ((records : List (List ℕ)) (bytes : List ℕ) → Tells records bytes → S.tells records bytes)
        × (IfSome l.state.last (λ n. n < l.number)) × (IfSome l.margin_at (IsMargin J.before l.state.margin))
        × ((records : List (List ℕ)) (place : ℕ) → Spares records place → S.spares records place) };
}

// The record that spells an entry.
fn spelled(alloc: Global, entry: &Entry<'_>) -> Result<Vec<u8>, LedgerFault>
    ensures ok { IfOk result (λ bytes. bytes.items ≡ spelling.spelled (view.entry entry.now)) }
    ensures fits { OnOk result (spelling.Fits (view.entry entry.now)) }
    ensures too_long { IsErrOf result (LedgerFault.Journal JournalFault.TooLong) →
        spelling.Fits (view.entry entry.now) → ⊥ }
    ensures only { IfErr result (λ f. (f ≡ LedgerFault.Journal JournalFault.Memory)
        ⊎ (f ≡ LedgerFault.Journal JournalFault.TooLong)) }
{
    let mut bytes = Vec::new(alloc);
    match spell(entry, &mut bytes) {
        Ok(()) => Ok(bytes),
        Err(SpellFault::Memory) => Err(LedgerFault::Journal(JournalFault::Memory)),
        Err(SpellFault::TooLong) => Err(LedgerFault::Journal(JournalFault::TooLong)),
    }
}

// The state after an event that gives a name, which alone takes memory: it is made before the record is put.
fn ahead(alloc: Global, state: &State, event: &Event<'_>) -> Result<Option<State>, LedgerFault>
    requires allowed { IsTrue (spec.allows state.now (view.event event.now)) }
    requires room { IsTrue (spec.has_room state.now) }
    ensures ok { IfOk result (λ next. IsAhead next state.now (view.event event.now)) }
    ensures err { IfErr result (λ f. f ≡ LedgerFault.Journal JournalFault.Memory) }
{
    if let Event::Named { .. } = event {
        let mut next = state.copy(alloc)?;
        return match next.after(alloc, event) {
            Ok(()) => Ok(Some(next)),
            Err(StateFault::Memory) => Err(LedgerFault::Journal(JournalFault::Memory)),
            Err(StateFault::Full) => unreachable!(),
            Err(StateFault::Unlawful) => unreachable!(),
        };
    }
    Ok(None)
}

// Moves a state on, to the one that was made ahead where there is one.
fn move_on(alloc: Global, state: &mut State, ahead: Option<State>, event: &Event<'_>)
    requires allowed { IsTrue (spec.allows state.old (view.event event.now)) }
    requires room { IsTrue (spec.has_room state.old) }
    requires ahead { IsAhead ahead state.old (view.event event.now) }
    ensures { state.new ≡ spec.after state.old (view.event event.now) }
{
    match ahead {
        Some(next) => *state = next,
        None => match state.after(alloc, event) {
            Ok(()) => {}
            Err(StateFault::Memory) => unreachable!(),
            Err(StateFault::Full) => unreachable!(),
            Err(StateFault::Unlawful) => unreachable!(),
        },
    }
}

// The number of the next answer, after an event.
fn next_number(number: u64, state: &State, event: &Event<'_>) -> u64
    requires allowed { IsTrue (spec.allows state.now (view.event event.now)) }
    ensures { result ≡ number_by number (view.event event.now) }
{
    if let Event::Accepted { number: given, .. } = event {
        if *given >= state.margin() {
            unreachable!();
        }
        return number.max(*given + 1);
    }
    number
}

// Keeps the ticket of a margin.
fn note_margin<J: Naming>(last: &mut Option<Ticket<J>>, ticket: &Ticket<J>, event: &Event<'_>)
    ensures { last.new ≡ margin_at last.old ticket.now (view.event event.now) }
{
    if let Event::Margin { .. } = event {
        *last = Some(ticket.again());
    }
}

impl<J: Naming, S: Storage + Drop, R: Rules> Ledger<J, S, R> {
    /// The ledger of a log that has these records. Where they spell events, these are lawful, and this is their state.
    ///
    /// The next file is begun where the last one has more bytes than `limit`.
    pub fn open(alloc: Global, opened: Opened, storage: S, state: State, limit: usize) -> Self
        requires book { opened.seen.book ≡ J.book }
        requires stands { S.stands storage J.before }
        requires state { IsInState R.routes ⊤ J.before state }
        requires numbers { IfSome state.last (λ n. n < state.margin) }
        requires tells { (records : List (List ℕ)) (bytes : List ℕ) → Tells records bytes → S.tells records bytes }
        requires spares { (records : List (List ℕ)) (place : ℕ) → Spares records place → S.spares records place }
        ensures history { result.desk.history ≡ [] }
        ensures state { result.state ≡ state }
        ensures limit { result.limit ≡ limit }
        ensures keep { result.keep ≡ 0 }
        // All numbers below the margin may have been given.
        ensures number { result.number ≡ max 1 state.margin }
        ensures margin_at { IsNone result.margin_at }
        ensures full { (result.desk.fault ≡ Some JournalFault.Full) ↔ 2 ^ 62 < state.next }
        ensures well { IsNone result.desk.fault ↔ state.next ≤ 2 ^ 62 }
    {
        let (count, margin, tail) = (state.next(), state.margin(), storage.tail());
        Ledger {
            alloc,
            desk: Desk::open(alloc, opened, storage, count),
            state,
            limit,
            keep: 0,
            number: margin.max(1),
            margin_at: None,
            tail,
            rules: PhantomData,
        }
    }

    /// The ledger of a log that has no record yet.
    pub fn begin(alloc: Global, opened: Opened, storage: S, limit: usize) -> Self
        requires book { opened.seen.book ≡ J.book }
        requires before { J.before ≡ [] }
        requires stands { S.stands storage J.before }
        requires tells { (records : List (List ℕ)) (bytes : List ℕ) → Tells records bytes → S.tells records bytes }
        requires spares { (records : List (List ℕ)) (place : ℕ) → Spares records place → S.spares records place }
        ensures history { result.desk.history ≡ [] }
        ensures state { result.state ≡ spec.nothing }
        ensures limit { result.limit ≡ limit }
        ensures keep { result.keep ≡ 0 }
        ensures number { result.number ≡ 1 }
        ensures margin_at { IsNone result.margin_at }
        ensures well { IsNone result.desk.fault }
    {
        Ledger::open(alloc, opened, storage, State::new(alloc), limit)
    }

    /// The state of all that was put.
    pub fn state(&self) -> &State
        ensures { result.now ≡ self.now.state }
    {
        &self.state
    }

    /// The number of the storage's last file, and how many of its bytes count, as it was when the storage came back last.
    pub fn tail(&self) -> (u64, usize)
        ensures { result ≡ self.now.tail }
    {
        self.tail
    }

    /// Records at places below this one are needed for nothing but what is left for receivers.
    pub fn keep_from(&mut self, place: u64)
        ensures { self.new ≡ record self.old { keep = place } }
    {
        self.keep = place;
    }

    /// The next file is begun where the last one has more bytes than this. What it was before.
    pub fn end_at(&mut self, limit: usize) -> usize
        ensures before { result ≡ self.old.limit }
        ensures limit { self.new ≡ record self.old { limit = limit } }
    {
        let before = self.limit;
        self.limit = limit;
        before
    }

    // Puts an entry that the state allows, where it has room and there was no fault.
    fn put_allowed(&mut self, entry: &Entry<'_>) -> Result<Ticket<J>, LedgerFault>
        requires well { IsNone self.old.desk.fault }
        requires allowed { IsTrue (spec.allows self.old.state (view.event entry.now.event)) }
        requires room { IsTrue (spec.has_room self.old.state) }
        requires seen { IsSeenIn R.routes (AreFaithful J.before self.old.desk.history)
            (log_in J.before self.old.desk.history).records (view.event entry.now.event) }
        ensures ok { IfOk result (IsPut J.before self.old self.new (view.entry entry.now)) }
        ensures cause { IfErr result (IsCause self.old self.new (view.entry entry.now)) }
        ensures err { IfErr result (λ fault. (self.new ≡ self.old) ⊎ HasGrown self.old.desk self.new.desk) }
    {
        let ahead = ahead(self.alloc, &self.state, &entry.event)?;
        let bytes = spelled(self.alloc, entry)?;
        let number = next_number(self.number, &self.state, &entry.event);
        let ticket = self.desk.put(bytes)?;
        move_on(self.alloc, &mut self.state, ahead, &entry.event);
        note_margin(&mut self.margin_at, &ticket, &entry.event);
        self.number = number;
        Ok(ticket)
    }

    /// Puts an entry whose event may follow. Who puts it has seen of the log what no state can say of the event.
    ///
    /// An allocation failure leaves all as it was.
    pub fn put(&mut self, entry: &Entry<'_>) -> Result<Ticket<J>, LedgerFault>
        requires seen { IsSeenIn R.routes (AreFaithful J.before self.old.desk.history)
            (log_in J.before self.old.desk.history).records (view.event entry.now.event) }
        ensures { Puts J.before self.old self.new (view.entry entry.now) result }
    {
        if let Some(fault) = self.desk.fault() {
            return Err(LedgerFault::Journal(fault));
        }
        if !self.state.may_follow(&entry.event) {
            return Err(LedgerFault::Unlawful);
        }
        if !self.state.has_room() {
            return Err(LedgerFault::Journal(JournalFault::Full));
        }
        self.put_allowed(entry)
    }

    /// Notes that these bytes were read from the files, as the record at this place. It takes no memory.
    /// False: it isn't noted, since there are 2^62 events.
    pub fn note_read(&mut self, place: u64, bytes: &[u8]) -> bool
        ensures noted { IsTrue result → self.new ≡ with_read place bytes.now self.old }
        ensures state { self.new.state ≡ self.old.state }
        ensures later { IsPrefix self.old.desk.history self.new.desk.history }
        ensures full { IsFalse result → IsSpent self.old.desk ⊎ HasGrown self.old.desk self.new.desk }
        ensures failed { IsFalse result → (self.new ≡ self.old) ⊎ IsSome self.new.desk.fault }
    {
        self.desk.note(place, bytes)
    }

    /// What was seen of the journal: all of it.
    pub fn front(&self) -> &Front<J>
        ensures { result.now ≡ self.now.desk.history }
    {
        self.desk.front()
    }

    /// Why nothing more is asked of the journal, if that is so.
    pub fn fault(&self) -> Option<JournalFault>
        ensures { result ≡ self.now.desk.fault }
    {
        self.desk.fault()
    }

    /// How many records were put, those that the log had included.
    pub fn count(&self) -> u64
        ensures { IsNone self.now.desk.fault → result ≡ self.now.desk.given + length self.now.desk.batch }
    {
        self.desk.count()
    }

    /// The receipt of a record, where it is on the disk.
    pub fn receipt(&self, ticket: &Ticket<J>) -> Option<Receipt<J>>
        ensures none { IsNone result ↔ self.now.desk.settled ≤ ticket.now.place }
        ensures place { IfSome result (λ r. r.place ≡ ticket.now.place) }
        ensures stored { IfSome result (λ r. Confirms J.before ticket.now r) }
    {
        self.desk.receipt(ticket)
    }

    /// The storage, with what it wasn't given yet. Where its last file has more bytes than the limit, the next one is begun behind all that was put,
    /// with the state as its checkpoint, unless an allocation fails for that. Files may go then of which no record is needed.
    pub fn take(&mut self, alloc: Global) -> Option<Job<J, S>>
        ensures same { self.new.desk.history ≡ self.old.desk.history }
        ensures state { self.new.state ≡ self.old.state }
        ensures seen { IfSome result (λ job. job.history ≡ self.old.desk.history) }
        ensures told { IfSome result (λ job. IfSome job.next (Tells (log_in J.before self.old.desk.history).records)) }
        // Nothing goes that stands where something is left for a receiver, or behind that, or that is kept otherwise.
        ensures kept { IfSome result (λ job. IfSome job.next (λ _.
            job.keep ≡ min self.old.keep (needed_from self.old.state))) }
        ensures spared { IfSome result (λ job. IfSome job.next (λ _.
            Spares (log_in J.before self.old.desk.history).records job.keep)) }
        ensures none { IsNone result ↔ IsIdle self.old.desk }
        ensures fault { self.new.desk.fault ≡ self.old.desk.fault }
    {
        let job = self.desk.take(alloc)?;
        if job.size() <= self.limit {
            return Some(job);
        }
        let mut checkpoint = Vec::new(alloc);
        match self.state.spell(&mut checkpoint) {
            Ok(()) => Some(job.turning(self.keep.min(needed_from(&self.state)), checkpoint)),
            Err(_) => Some(job),
        }
    }

    /// The storage comes back.
    pub fn give_back(&mut self, done: Done<J, S>)
        ensures same { self.new ≡ record self.old { desk = self.new.desk; tail = self.new.tail } }
        ensures tail { IsSome self.new.desk.fault → self.new.tail ≡ self.old.tail }
        ensures later { IsPrefix self.old.desk.history self.new.desk.history }
        ensures back { IsNone self.new.desk.fault → self.new.desk ≡ with_storage self.old.desk done }
        ensures faulty { IsSome self.old.desk.fault → self.new.desk.fault ≡ self.old.desk.fault }
    {
        let tail = done.tail();
        self.desk.give_back(done);
        if self.desk.fault().is_none() {
            self.tail = tail;
        }
    }

    /// The storage didn't come back: this is why. Only the first fault is kept.
    pub fn fail(&mut self, fault: JournalFault)
        ensures same { self.new ≡ record self.old { desk = record self.old.desk { fault = self.new.desk.fault } } }
        ensures first { IsNone self.old.desk.fault → self.new.desk.fault ≡ Some fault }
        ensures later { IsSome self.old.desk.fault → self.new.desk.fault ≡ self.old.desk.fault }
    {
        self.desk.fail(fault);
    }
}
