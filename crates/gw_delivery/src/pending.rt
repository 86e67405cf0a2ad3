//! What waits for a receiver, as its forwarder takes it.
ghost use Rattle.std.specs.Prelude.{◌≡◌, ◌+◌, ◌∷◌, [], IfOk, IfSome, IsNone, IsSome, IsTrue, IsFalse, OnOk, OnErr, Some, None};
ghost use Rattle.gw_due.specs.Views as view;
ghost use Rattle.gw_ledger.specs.Backlogs.{GoesOn, WasFirst};
ghost use Rattle.gw_delivery.specs.Waiting as spec;
ghost use Rattle.gw_delivery.specs.Waiting.{Closes, Gives, IsPassed, Keeps, Passes, PassesAs, PassesNext, PassesOver, PutsAside, Stays};

use crate::fault::PageFault;
use crate::finder::Finder;
use crate::next::Next;
use crate::pages::Tail;
use crate::plans::Plans;
use gw_ack::Ack;
use gw_due::How;
use gw_forward::{Outbox, OutboxFault};
use gw_gateway::{Office, Times};
use gw_journal::{Journal, JournalFault, Naming, Receipt, Storage};
use gw_ledger::{Backlog, Found, LedgerFault};
use gw_log::Calls;
use std::alloc::Global;
use std::cell::Cell;
use std::sync::Wait;

/// How often a message that its receiver rejects is sent.
const TRIES: u64 = 3;

/// How many bytes of an acknowledgment a record has at most.
const LONGEST: usize = 4_096;

/// A receiver's line, as the program has it.
pub trait Line {
    /// Whether nothing more is sent.
    fn has_ended(&self) -> bool;

    /// Whether it is held back.
    fn is_held(&self) -> bool;

    /// Waits until it was rung for, for a while at most.
    fn wait(&self);

    /// An acknowledgment came. Its content, as it was read; it is empty where that isn't known.
    fn count(&self, ack: Ack) -> Vec<u8>;

    /// As many are left. `is_next`: another one is the first.
    fn stands(&self, left: u64, is_next: bool);

    /// It took a message.
    fn taken(&self);

    /// The message at this place isn't sent any more, since the receiver refused it.
    fn refused(&self, place: u64, ack: Ack);

    /// The message at this place isn't sent, since it can't be: for this fault, or since no block can have it.
    fn unsendable(&self, place: u64, fault: Option<PageFault>);

    /// The log can't be read on for this receiver.
    fn failed(&self, fault: PageFault);
}

/// What waits for a receiver.
pub struct Pending<'a, J: Naming, S: Storage + Drop, V: Calls + Drop, R: Wait, L, T> {
    finder: Finder<'a, J, S, V, R>,
    line: &'a L,
    times: &'a T,
    receiver: u32,
    name: &'a [u8],
    // what is left for it, as it was seen last
    backlog: Option<Backlog<J>>,
    next: Option<Next<'a, J>>,
    // whether bytes of what is next may have been sent
    sent: &'a Cell<bool>,
    tries: u64,
    count: u64,
}

// (by hand, so that no crate above proves again how its fields are dropped)
impl<'a, J: Naming, S: Storage + Drop, V: Calls + Drop, R: Wait, L, T> Drop
    for Pending<'a, J, S, V, R, L, T> {
    fn drop(self) {
        let Pending {
            finder: _,
            line: _,
            times: _,
            receiver: _,
            name: _,
            backlog: _,
            next: _,
            sent: _,
            tries: _,
            count: _,
        } = self;
    }
}

/// How a receiver stands in the log: how many are left for it, from where on, and up to where the log counts.
#[derive(Clone, Copy)]
struct Standing {
    left: u64,
    from: u64,
    tail: Tail,
}

// How the receiver of this number stands, if it has a name.
fn standing_of<J: Naming, S: Storage + Drop>(
    office: &Office<J, S>,
    number: u32,
) -> Option<Standing> {
    let (segment, end) = office.ledger.tail();
    for receiver in office.ledger.state().receivers() {
        if receiver.number() == number {
            return Some(Standing {
                left: receiver.left(),
                from: receiver.from(),
                tail: Tail { segment, end },
            });
        }
    }
    None
}

// Has the receiver pass what was found, where it is the first that is left, and waits until that is on the disk. What is left then.
fn passed<J: Naming, S: Storage + Drop, R: Wait>(
    rt: &R,
    journal: &Journal<J, Office<J, S>>,
    time: u64,
    backlog: &Backlog<J>,
    found: &Found<J>,
    how: How<'_>,
) -> Result<(Receipt<J>, Backlog<J>), OutboxFault>
    ensures stored { IfOk result (λ x. IsPassed J.before backlog.now.receiver found.now.place (view.how how.entry) x.0.history) }
    ensures on { IfOk result (λ x. GoesOn J.before backlog.now x.1 (found.now.place ∷ [])) }
    ensures first { IfOk result (λ x. WasFirst J.before backlog.now.receiver found.now.place x.1.history) }
{
    let put = journal
        .lock(rt)
        .ledger
        .pass_first(time, backlog, found, how);
    let (ticket, left) = match put {
        Ok(put) => put,
        Err(LedgerFault::Journal(JournalFault::Memory)) => return Err(OutboxFault::Memory),
        Err(_) => return Err(OutboxFault::Disk),
    };
    match journal.settle(rt, &ticket) {
        Ok(receipt) => Ok((receipt, left)),
        Err(_) => Err(OutboxFault::Disk),
    }
}

// How a receiver passes what it acknowledged so, for this reason.
fn how(ack: Ack, reason: &[u8]) -> How<'_>
    ensures { view.how result ≡ spec.how ack reason.now }
{
    match ack {
        Ack::AA => How::Taken,
        Ack::AE => How::Refused { code: 1, reason },
        Ack::AR => How::Refused { code: 2, reason },
    }
}

// How a receiver passes what is passed over.
fn over(is_parked: bool) -> How<'static>
    ensures { view.how result ≡ spec.over is_parked }
{
    if is_parked {
        return How::Refused {
            code: 3,
            reason: b"",
        };
    }
    How::Skipped
}

impl<'a, J: Naming, S: Storage + Drop, V: Calls + Drop, R: Wait, L: Line, T: Times> Pending<
    'a,
    J,
    S,
    V,
    R,
    L,
    T,
> {
    /// What waits for the receiver of this number and name. Both views are of the log's folder.
    pub fn new(
        rt: &'a R,
        alloc: Global,
        journal: &'a Journal<J, Office<J, S>>,
        plans: &'a Plans,
        line: &'a L,
        times: &'a T,
        views: (V, V),
        receiver: u32,
        name: &'a [u8],
        sent: &'a Cell<bool>,
    ) -> Self {
        Pending {
            finder: Finder::new(rt, alloc, journal, plans, views),
            line,
            times,
            receiver,
            name,
            backlog: None,
            next: None,
            sent,
            tries: 0,
            count: 0,
        }
    }

    fn standing(&self) -> Option<Standing> {
        let office = self.finder.journal.lock(self.finder.rt);
        standing_of(&office, self.receiver)
    }

    /// Looks up what is left for the receiver, where that wasn't done yet. False: it can't be told, since there was a fault.
    pub fn begin(&mut self) -> bool
        ensures count { self.new.count ≡ self.old.count }
        ensures next { self.new.next ≡ self.old.next }
        ensures some { IsTrue result → IsSome self.new.backlog }
        ensures of { IsTrue result → IfSome self.new.backlog (λ b. b.receiver ≡ self.new.receiver) }
        ensures same { IfSome self.old.backlog (λ was. self.new.backlog ≡ Some was) }
        ensures receiver { self.new.receiver ≡ self.old.receiver }
        ensures name { self.new.name.now ≡ self.old.name.now }
    {
        if let Some(backlog) = &self.backlog {
            return backlog.receiver() == self.receiver;
        }
        let found = self
            .finder
            .journal
            .lock(self.finder.rt)
            .ledger
            .backlog(self.receiver);
        let Some(backlog) = found else {
            return false;
        };
        self.backlog = Some(backlog);
        true
    }

    // Nothing is left: what will be begins behind all that was put.
    fn rest(&mut self)
        ensures count { self.new.count ≡ self.old.count }
        ensures stays { Stays J.before (record { receiver = self.old.receiver; name = self.old.name.now; backlog = self.old.backlog; next = self.old.next })
            (record { receiver = self.new.receiver; name = self.new.name.now; backlog = self.new.backlog; next = self.new.next }) }
    {
        let Some(backlog) = &self.backlog else {
            return;
        };
        let found = self
            .finder
            .journal
            .lock(self.finder.rt)
            .ledger
            .at_rest(backlog);
        if let Some(now) = found {
            self.backlog = Some(now);
            self.finder.renew();
        }
    }

    // Keeps what was found, where it is this receiver's.
    fn keep(&mut self, next: Next<'a, J>) -> bool
        ensures count { self.new.count ≡ self.old.count }
        ensures keeps { Keeps (record { receiver = self.old.receiver; name = self.old.name.now; backlog = self.old.backlog; next = self.old.next })
            (record { receiver = self.new.receiver; name = self.new.name.now; backlog = self.new.backlog; next = self.new.next }) }
    {
        if next.found().receiver() != self.receiver {
            return false;
        }
        self.next = Some(next);
        true
    }

    // What is next: to be sent, or to be put aside.
    fn found(&self) -> Option<&Found<J>> {
        if let Some(next) = &self.next {
            return Some(next.found());
        }
        match &self.finder.aside {
            Some(aside) => Some(&aside.0),
            None => None,
        }
    }

    // Whether what is next is on the disk, and that all before it was passed. Where there was a fault it can't be told any more, and nothing waits for it.
    fn is_stored(&self) -> bool {
        let Some(backlog) = &self.backlog else {
            return true;
        };
        let Some(found) = self.found() else {
            return true;
        };
        let office = self.finder.journal.lock(self.finder.rt);
        office.ledger.fault().is_some() || office.ledger.is_stored(backlog, found)
    }

    // What the receiver is sent of what is next, where it is the first that is left now, also by what is on the disk.
    // Nothing was passed since what is left was seen last.
    // None: there is nothing next. The files from where what is left began are gone: it is to be looked up anew.
    fn given(&mut self) -> Result<Option<Vec<u8>>, OutboxFault>
        ensures count { self.new.count ≡ self.old.count }
        ensures given { IfOk result (λ found. IfSome found (λ bytes. Gives J.before
            (record { receiver = self.old.receiver; name = self.old.name.now; backlog = self.old.backlog; next = self.old.next })
            (record { receiver = self.new.receiver; name = self.new.name.now; backlog = self.new.backlog; next = self.new.next }) bytes.items)) }
        ensures closed { IfOk result (λ found. IsNone found → Closes J.before
            (record { receiver = self.old.receiver; name = self.old.name.now; backlog = self.old.backlog; next = self.old.next })
            (record { receiver = self.new.receiver; name = self.new.name.now; backlog = self.new.backlog; next = self.new.next })) }
        ensures broken { OnErr result (Keeps (record { receiver = self.old.receiver; name = self.old.name.now; backlog = self.old.backlog; next = self.old.next })
            (record { receiver = self.new.receiver; name = self.new.name.now; backlog = self.new.backlog; next = self.new.next })) }
    {
        if self.finder.aside.is_some() {
            return Err(OutboxFault::Record);
        }
        let Some(next) = &self.next else {
            self.backlog = None;
            return Ok(None);
        };
        let Some(backlog) = &self.backlog else {
            return Err(OutboxFault::Disk);
        };
        if backlog.receiver() != self.receiver || next.name() != self.name {
            return Err(OutboxFault::Disk);
        }
        let seen = self
            .finder
            .journal
            .lock(self.finder.rt)
            .ledger
            .begins_with(backlog, next.found());
        let Some(now) = seen else {
            return Err(OutboxFault::Disk);
        };
        if !next.front().begins(now.front()) {
            return Err(OutboxFault::Disk);
        }
        let bytes = next.bytes(self.finder.alloc)?;
        self.backlog = Some(now);
        Ok(Some(bytes))
    }

    // Reads on to what is next. False: it doesn't count yet, or isn't on the disk. Without a next: it can't be made, or it can't be read on from where what
    // is left began.
    fn read_on(&mut self, standing: Standing) -> Result<bool, OutboxFault>
        ensures count { self.new.count ≡ self.old.count }
        ensures keeps { Keeps (record { receiver = self.old.receiver; name = self.old.name.now; backlog = self.old.backlog; next = self.old.next })
            (record { receiver = self.new.receiver; name = self.new.name.now; backlog = self.new.backlog; next = self.new.next }) }
    {
        let Some(backlog) = &self.backlog else {
            return Err(OutboxFault::Disk);
        };
        let from = backlog.from();
        match self.finder.find(standing.tail, backlog, self.name) {
            Ok(Some(next)) => {
                if self.keep(next) {
                    Ok(self.is_stored())
                } else {
                    Err(OutboxFault::Disk)
                }
            }
            Ok(None) => Ok(false),
            Err(PageFault::Memory) => Err(OutboxFault::Memory),
            Err(PageFault::Damaged { segment, at }) => {
                if from < standing.from {
                    self.finder.forget();
                    return Ok(true);
                }
                self.line.failed(PageFault::Damaged { segment, at });
                Err(OutboxFault::Disk)
            }
            Err(_) => Ok(self.is_stored()),
        }
    }

    // Whether what is next is known, and on the disk, or can't be told any more. Nothing is looked for while the line is held back.
    fn is_ready(&mut self) -> Result<bool, OutboxFault>
        ensures count { self.new.count ≡ self.old.count }
        ensures stays { Stays J.before (record { receiver = self.old.receiver; name = self.old.name.now; backlog = self.old.backlog; next = self.old.next })
            (record { receiver = self.new.receiver; name = self.new.name.now; backlog = self.new.backlog; next = self.new.next }) }
    {
        if self.line.is_held() {
            return Ok(false);
        }
        self.look()
    }

    /// Looks for what is next, also where the line is held back. True: it is known, and on the disk, or can't be told any more.
    pub fn look(&mut self) -> Result<bool, OutboxFault>
        ensures count { self.new.count ≡ self.old.count }
        ensures stays { Stays J.before (record { receiver = self.old.receiver; name = self.old.name.now; backlog = self.old.backlog; next = self.old.next })
            (record { receiver = self.new.receiver; name = self.new.name.now; backlog = self.new.backlog; next = self.new.next }) }
    {
        if self.next.is_some() {
            return Ok(self.is_stored());
        }
        if self.finder.aside.is_some() {
            return Ok(self.is_stored());
        }
        let Some(standing) = self.standing() else {
            return Ok(false);
        };
        self.line.stands(standing.left, false);
        if !self.begin() {
            return Err(OutboxFault::Disk);
        }
        if standing.left == 0 {
            self.rest();
            return Ok(false);
        }
        self.read_on(standing)
    }

    // Goes on behind what was passed. False: no more can be counted.
    fn go_on(&mut self, left: Backlog<J>) -> bool
        ensures backlog { IsTrue result → self.new.backlog ≡ Some left }
        ensures counted { IsTrue result → self.new.count ≡ self.old.count + 1 }
        ensures uncounted { IsFalse result → self.new.count ≡ self.old.count }
        ensures same { IsFalse result → self.new.backlog ≡ self.old.backlog }
        ensures receiver { self.new.receiver ≡ self.old.receiver }
        ensures name { self.new.name ≡ self.old.name }
    {
        if self.count == u64::MAX {
            return false;
        }
        self.backlog = Some(left);
        self.next = None;
        self.count += 1;
        self.finder.aside = None;
        self.tries = 0;
        self.sent.set(false);
        true
    }

    // How many are left is shown.
    fn show(&self) {
        if let Some(standing) = self.standing() {
            self.line.stands(standing.left, true);
        }
    }

    // The receiver passes what is next. Its place.
    fn pass(&mut self, how: How<'_>) -> Result<u64, OutboxFault>
        ensures passes { OnOk result (PassesNext J.before (record { receiver = self.old.receiver; name = self.old.name.now; backlog = self.old.backlog; next = self.old.next })
            (record { receiver = self.new.receiver; name = self.new.name.now; backlog = self.new.backlog; next = self.new.next }) (view.how how.entry)) }
        ensures keeps { OnErr result (Keeps (record { receiver = self.old.receiver; name = self.old.name.now; backlog = self.old.backlog; next = self.old.next })
            (record { receiver = self.new.receiver; name = self.new.name.now; backlog = self.new.backlog; next = self.new.next })) }
        ensures counted { OnOk result (self.new.count ≡ self.old.count + 1) }
        ensures uncounted { OnErr result (self.new.count ≡ self.old.count) }
    {
        let Some(next) = &self.next else {
            return Err(OutboxFault::Record);
        };
        let Some(backlog) = &self.backlog else {
            return Err(OutboxFault::Record);
        };
        let (time, place) = (self.times.time(), next.found().place());
        let (rt, journal) = (self.finder.rt, self.finder.journal);
        let (_receipt, left) = passed(rt, journal, time, backlog, next.found(), how)?;
        if !self.go_on(left) {
            return Err(OutboxFault::Disk);
        }
        self.show();
        Ok(place)
    }

    // The receiver passes what is next as it acknowledged it: by this answer, of which the record has the beginning. Its place.
    fn pass_as(&mut self, ack: Ack, answer: Vec<u8>) -> Result<u64, OutboxFault>
        ensures passes { OnOk result (PassesAs J.before (record { receiver = self.old.receiver; name = self.old.name.now; backlog = self.old.backlog; next = self.old.next })
            (record { receiver = self.new.receiver; name = self.new.name.now; backlog = self.new.backlog; next = self.new.next }) ack) }
        ensures keeps { OnErr result (Keeps (record { receiver = self.old.receiver; name = self.old.name.now; backlog = self.old.backlog; next = self.old.next })
            (record { receiver = self.new.receiver; name = self.new.name.now; backlog = self.new.backlog; next = self.new.next })) }
        ensures counted { OnOk result (self.new.count ≡ self.old.count + 1) }
        ensures uncounted { OnErr result (self.new.count ≡ self.old.count) }
    {
        let mut reason = answer;
        reason.truncate(LONGEST);
        self.pass(how(ack, &reason))
    }

    // The receiver passes what can't be made. Its place, why it can't, and what is left then.
    fn passed_unmade(&self, how: How<'_>) -> Result<(u64, PageFault, Backlog<J>), OutboxFault>
        ensures { IfOk result (λ x. Passes J.before (record { receiver = self.now.receiver; name = self.now.name.now; backlog = self.now.backlog; next = self.now.next })
            (record { receiver = self.now.receiver; name = self.now.name.now; backlog = Some x.2; next = None }) x.0 (view.how how.entry)) }
    {
        let Some(aside) = &self.finder.aside else {
            return Err(OutboxFault::Record);
        };
        let Some(backlog) = &self.backlog else {
            return Err(OutboxFault::Record);
        };
        let (time, place, fault) = (self.times.time(), aside.0.place(), aside.1);
        let (rt, journal) = (self.finder.rt, self.finder.journal);
        let (_receipt, left) = passed(rt, journal, time, backlog, &aside.0, how)?;
        Ok((place, fault, left))
    }

    // What is next, but can't be made, is passed as refused.
    fn pass_unmade(&mut self) -> Result<(), OutboxFault>
        ensures aside { OnOk result (PutsAside J.before (record { receiver = self.old.receiver; name = self.old.name.now; backlog = self.old.backlog; next = self.old.next })
            (record { receiver = self.new.receiver; name = self.new.name.now; backlog = self.new.backlog; next = self.new.next })) }
        ensures keeps { OnErr result (Keeps (record { receiver = self.old.receiver; name = self.old.name.now; backlog = self.old.backlog; next = self.old.next })
            (record { receiver = self.new.receiver; name = self.new.name.now; backlog = self.new.backlog; next = self.new.next })) }
    {
        let (place, fault, left) = self.passed_unmade(how(Ack::AR, &[]))?;
        if !self.go_on(left) {
            return Err(OutboxFault::Disk);
        }
        self.show();
        self.line.unsendable(place, Some(fault));
        Ok(())
    }

    /// What is next can't be made, or can't be sent: it is passed as refused.
    pub fn put_aside(&mut self) -> Result<(), OutboxFault>
        ensures aside { OnOk result (PutsAside J.before (record { receiver = self.old.receiver; name = self.old.name.now; backlog = self.old.backlog; next = self.old.next })
            (record { receiver = self.new.receiver; name = self.new.name.now; backlog = self.new.backlog; next = self.new.next })) }
        ensures keeps { OnErr result (Keeps (record { receiver = self.old.receiver; name = self.old.name.now; backlog = self.old.backlog; next = self.old.next })
            (record { receiver = self.new.receiver; name = self.new.name.now; backlog = self.new.backlog; next = self.new.next })) }
    {
        if self.next.is_none() {
            return self.pass_unmade();
        }
        let place = self.pass(how(Ack::AR, &[]))?;
        self.line.unsendable(place, None);
        Ok(())
    }

    /// What is next is passed over: as skipped, or as refused where it is parked. Its place.
    pub fn pass_over(&mut self, is_parked: bool) -> Result<u64, OutboxFault>
        ensures over { OnOk result (PassesOver J.before (record { receiver = self.old.receiver; name = self.old.name.now; backlog = self.old.backlog; next = self.old.next })
            (record { receiver = self.new.receiver; name = self.new.name.now; backlog = self.new.backlog; next = self.new.next }) (spec.over is_parked)) }
        ensures keeps { OnErr result (Keeps (record { receiver = self.old.receiver; name = self.old.name.now; backlog = self.old.backlog; next = self.old.next })
            (record { receiver = self.new.receiver; name = self.new.name.now; backlog = self.new.backlog; next = self.new.next })) }
    {
        if self.next.is_some() {
            return self.pass(over(is_parked));
        }
        let (place, _fault, left) = self.passed_unmade(over(is_parked))?;
        if !self.go_on(left) {
            return Err(OutboxFault::Disk);
        }
        self.show();
        Ok(place)
    }
}

impl<J: Naming, S: Storage + Drop, V: Calls + Drop, R: Wait, L: Line, T: Times> Outbox
    for Pending<'_, J, S, V, R, L, T> {
    ghost use Rattle.gw_delivery.specs.Waiting.{Closes, Gives, Keeps, Settles, Stays};

    ghost count = { λ p. p.count };

    ghost gives = { λ old new bytes. Gives J.before (record { receiver = old.receiver; name = old.name.now; backlog = old.backlog; next = old.next })
        (record { receiver = new.receiver; name = new.name.now; backlog = new.backlog; next = new.next }) bytes };

    ghost closes = { λ old new. Closes J.before (record { receiver = old.receiver; name = old.name.now; backlog = old.backlog; next = old.next })
        (record { receiver = new.receiver; name = new.name.now; backlog = new.backlog; next = new.next }) };

    ghost breaks = { λ old new fault. Stays J.before (record { receiver = old.receiver; name = old.name.now; backlog = old.backlog; next = old.next })
        (record { receiver = new.receiver; name = new.name.now; backlog = new.backlog; next = new.next }) };

    ghost settles = { λ old new ack taken. Settles J.before (record { receiver = old.receiver; name = old.name.now; backlog = old.backlog; next = old.next })
        (record { receiver = new.receiver; name = new.name.now; backlog = new.backlog; next = new.next }) ack taken };

    ghost fails = { λ old new ack fault. Keeps (record { receiver = old.receiver; name = old.name.now; backlog = old.backlog; next = old.next })
        (record { receiver = new.receiver; name = new.name.now; backlog = new.backlog; next = new.next }) };

    fn count(&self) -> u64 {
        self.count
    }

    fn next(&mut self) -> Result<Option<Vec<u8>>, OutboxFault> {
        for _ in self.finder.rt.forever() {
            if self.line.has_ended() {
                return Ok(None);
            }
            if self.is_ready()? {
                return self.given();
            }
            self.line.wait();
        }
        unreachable!()
    }

    fn settle(&mut self, ack: Ack) -> Result<bool, OutboxFault> {
        let answer = self.line.count(ack);
        if ack == Ack::AR {
            self.tries = self.tries.saturating_add(1);
            if self.tries < TRIES {
                return Ok(false);
            }
        }
        let place = self.pass_as(ack, answer)?;
        match ack {
            Ack::AA => self.line.taken(),
            _ => self.line.refused(place, ack),
        }
        Ok(true)
    }
}
