//! What lies under the lock of a gateway's journal.
ghost use Rattle.std.specs.Prelude.{◌≡◌, ◌↔◌, ◌⊎◌, ◌≤◌, ◌+◌, length, map, min, IfOk, IfSome, IsErrOf, IsNone, IsSome, OnErr, OnOk, Some};
ghost use Rattle.std.specs.Arc.{arc_value};
ghost use mathlib.Core.List.{IsPrefix};
ghost use Rattle.gw_due.specs.Events as events;
ghost use Rattle.gw_due.specs.Spelling as spelling;
ghost use Rattle.gw_journal.specs.Logs.{Confirms, HasGrown, IsAt, IsIdle, log_in};
ghost use Rattle.gw_ledger.specs.Accepting.{IsInForce};
ghost use Rattle.gw_ledger.specs.Ledgers.{IsMargin, Tells, needed_from};
ghost use Rattle.gw_ledger.specs.Putting.{timed, with_storage};
ghost use Rattle.gw_plan.specs.Seen.{receiver_value};
ghost use Rattle.gw_gateway.specs.Faults.{of_journal};
ghost use Rattle.gw_gateway.specs.Plans.{AreNamed, GoesBy, IsNamed, look_of};

use crate::fault::PutFault;
use crate::plans::InForce;
use gw_due::Receiver;
use gw_due::laws::Rules;
use gw_journal::{Books, Done, Job, JournalFault, Naming, Receipt, Storage, Ticket};
use gw_ledger::Ledger;
use gw_plan::Plan;
use std::alloc::{AllocError, Global};
use std::sync::Arc;

/// What a plan says of a message.
pub struct ByPlans;

impl Rules for ByPlans {
    ghost use Rattle.gw_gateway.specs.Routing.{IsRoutedBy};

    ghost routes = { IsRoutedBy };
}

/// What a plan changes: its place in the log, and the numbers of the receivers that are new.
pub struct Change {
    pub place: u64,
    pub new: Vec<u32>,
}

// (by hand, so that no crate above proves again how its fields are dropped)
impl Drop for Change {
    fn drop(self) {
        let Change { place: _, new: _ } = self;
    }
}

/// The ledger of a gateway, and the plan in force.
pub struct Office<J: Naming, S: Storage + Drop> {
    pub ledger: Ledger<J, S, ByPlans>,
    pub current: InForce<J>,
    /// When the last record was put, in microseconds: the time of a plan that is repeated.
    pub time: u64,
}

// (by hand, so that no crate above proves again how its fields are dropped)
impl<J: Naming, S: Storage + Drop> Drop for Office<J, S> {
    fn drop(self) {
        let Office {
            ledger: _,
            current: _,
            time: _,
        } = self;
    }
}

// The number of the receiver of this name, if it has one.
fn number_of(receivers: &[Receiver], name: &[u8]) -> Option<u32> {
    for receiver in receivers {
        if receiver.name() == name {
            return Some(receiver.number());
        }
    }
    None
}

// A number above those of all receivers.
fn next_number(receivers: &[Receiver]) -> u32 {
    let mut next: u32 = 1;
    for receiver in receivers {
        next = next.max(receiver.number().saturating_add(1));
    }
    next
}

// The number of the receiver of this name, a new one where it has none.
fn number_for(receivers: &[Receiver], name: &[u8], new: &mut Vec<u32>) -> Result<u32, AllocError> {
    if let Some(number) = number_of(receivers, name) {
        return Ok(number);
    }
    let number = next_number(receivers);
    new.push(number)?;
    Ok(number)
}

// Gives a receiver of a plan its number, a new one where it has none.
fn name_one<J: Naming, S: Storage + Drop>(
    ledger: &mut Ledger<J, S, ByPlans>,
    time: u64,
    receiver: &gw_plan::Receiver,
    new: &mut Vec<u32>,
) -> Result<u32, PutFault>
    ensures named { IfOk result (λ number. IsNamed J.before (receiver_value receiver.now) number ledger.new.desk.history) }
    ensures later { OnOk result (IsPrefix ledger.old.desk.history ledger.new.desk.history) }
    ensures well { OnOk result (IsNone ledger.new.desk.fault) }
{
    let number = number_for(ledger.state().receivers(), &receiver.name, new)?;
    let _ticket = ledger.name(time, number, &receiver.name, &receiver.address)?;
    Ok(number)
}

// Gives each receiver of a plan its number.
fn name_all<J: Naming, S: Storage + Drop>(
    alloc: Global,
    ledger: &mut Ledger<J, S, ByPlans>,
    time: u64,
    receivers: &[gw_plan::Receiver],
    new: &mut Vec<u32>,
) -> Result<Vec<u32>, PutFault>
    ensures named { IfOk result (λ numbers. AreNamed J.before (map receiver_value receivers.now) numbers.items ledger.new.desk.history) }
    ensures each { IfOk result (λ numbers. length numbers.items ≡ length receivers.now) }
{
    let mut numbers = Vec::new(alloc);
    for receiver in receivers {
        let number = name_one(ledger, time, receiver, new)?;
        numbers.push(number)?;
    }
    Ok(numbers)
}

// Puts a plan whose receivers have these numbers: from here on it is in force.
fn put_plan<J: Naming, S: Storage + Drop>(
    ledger: &mut Ledger<J, S, ByPlans>,
    time: u64,
    plan: Arc<Plan>,
    numbers: Arc<Vec<u32>>,
) -> Result<(InForce<J>, Ticket<J>), PutFault>
    requires named { AreNamed J.before (arc_value plan).receivers (arc_value numbers).items ledger.old.desk.history }
    requires each { length (arc_value numbers).items ≡ length (arc_value plan).receivers }
    ensures plan { IfOk result (λ x. x.0.plan ≡ arc_value plan) }
    ensures numbers { IfOk result (λ x. x.0.numbers ≡ (arc_value numbers).items) }
    ensures in_force { IfOk result (λ x. IsInForce ledger.new (look_of x.0)) }
    ensures put { IfOk result (λ x. IsAt x.1.place (spelling.spelled (timed time (events.Planned (arc_value plan).text))) (log_in J.before x.1.history)) }
    ensures place { IfOk result (λ x. x.1.place ≡ x.0.place) }
    ensures err { OnErr result ((ledger.new ≡ ledger.old) ⊎ HasGrown ledger.old.desk ledger.new.desk) }
{
    let ticket = ledger.plan(time, plan.text())?;
    let Some(look) = ledger.look() else {
        unreachable!();
    };
    Ok((InForce::new(look, plan, numbers), ticket))
}

// Names the receivers of a plan, and puts it: from here on it is in force.
fn bring_plan<J: Naming, S: Storage + Drop>(
    alloc: Global,
    ledger: &mut Ledger<J, S, ByPlans>,
    time: u64,
    plan: Arc<Plan>,
) -> Result<(InForce<J>, Vec<u32>, Ticket<J>), PutFault>
    ensures plan { IfOk result (λ x. x.0.plan ≡ arc_value plan) }
    ensures in_force { IfOk result (λ x. IsInForce ledger.new (look_of x.0)) }
    ensures put { IfOk result (λ x. IsAt x.2.place (spelling.spelled (timed time (events.Planned (arc_value plan).text))) (log_in J.before x.2.history)) }
    ensures place { IfOk result (λ x. x.2.place ≡ x.0.place) }
{
    let mut new = Vec::new(alloc);
    let numbers = name_all(alloc, ledger, time, plan.receivers(), &mut new)?;
    let numbers = Arc::new(alloc, numbers)?;
    let (current, ticket) = put_plan(ledger, time, plan, numbers)?;
    Ok((current, new, ticket))
}

impl<J: Naming, S: Storage + Drop> Office<J, S> {
    /// An office over a ledger, under this plan. The ticket is that of the plan's record.
    pub fn begin(
        alloc: Global,
        ledger: Ledger<J, S, ByPlans>,
        time: u64,
        plan: Arc<Plan>,
    ) -> Result<(Self, Ticket<J>), PutFault>
        ensures plan { IfOk result (λ x. x.0.current.plan ≡ arc_value plan) }
        ensures in_force { IfOk result (λ x. IsInForce x.0.ledger (look_of x.0.current)) }
        ensures put { IfOk result (λ x. IsAt x.1.place (spelling.spelled (timed time (events.Planned (arc_value plan).text))) (log_in J.before x.1.history)) }
    {
        let mut ledger = ledger;
        let (current, _new, ticket) = bring_plan(alloc, &mut ledger, time, plan)?;
        Ok((
            Office {
                ledger,
                current,
                time,
            },
            ticket,
        ))
    }

    /// Takes a plan: its receivers are named, and from here on it is in force. The ticket is that of its record.
    ///
    /// An error leaves the plan in force that was, though some receivers may have got their numbers.
    pub fn take_plan(
        &mut self,
        alloc: Global,
        time: u64,
        plan: Arc<Plan>,
    ) -> Result<(Change, Ticket<J>), PutFault>
        ensures plan { OnOk result (self.new.current.plan ≡ arc_value plan) }
        ensures in_force { OnOk result (IsInForce self.new.ledger (look_of self.new.current)) }
        ensures put { IfOk result (λ x. IsAt x.1.place (spelling.spelled (timed time (events.Planned (arc_value plan).text))) (log_in J.before x.1.history)) }
        ensures place { IfOk result (λ x. (x.0.place ≡ x.1.place) × (x.1.place ≡ self.new.current.place)) }
        ensures err { OnErr result (self.new.current ≡ self.old.current) }
    {
        self.time = time;
        let (current, new, ticket) = bring_plan(alloc, &mut self.ledger, time, plan)?;
        let place = current.place();
        self.current = current;
        Ok((Change { place, new }, ticket))
    }

    /// Accepts a message for these receivers, by the plan under which it was judged. `Stale`: another plan is in force by now.
    pub fn accept(
        &mut self,
        time: u64,
        under: &InForce<J>,
        to: Vec<u32>,
        bytes: &[u8],
    ) -> Result<(u64, Ticket<J>), PutFault>
        requires routed { GoesBy under.now to.items bytes.now }
        ensures put { IfOk result (λ x. IsAt x.1.place
            (spelling.spelled (timed time (events.Accepted x.0 to.items bytes.now))) (log_in J.before x.1.history)) }
        ensures number { IfOk result (λ x. x.0 ≡ self.old.ledger.number) }
        ensures on { OnOk result (self.new.ledger.number ≡ self.old.ledger.number + 1) }
        ensures stale { IsNone self.old.ledger.desk.fault → (IsInForce self.old.ledger (look_of under.now) → ⊥) →
            IsErrOf result PutFault.Stale }
        ensures same { IsErrOf result PutFault.Stale → self.new.ledger ≡ self.old.ledger }
        ensures faulty { IfSome self.old.ledger.desk.fault (λ fault. IsErrOf result (of_journal fault)) }
        ensures err { OnErr result ((self.new.ledger ≡ self.old.ledger) ⊎ HasGrown self.old.ledger.desk self.new.ledger.desk) }
        ensures plan { self.new.current ≡ self.old.current }
    {
        self.time = time;
        match self.ledger.accept(time, under.look(), to, bytes) {
            Ok(accepted) => Ok(accepted),
            Err(fault) => Err(PutFault::from(fault)),
        }
    }

    /// A number for the answer to a message that isn't accepted, and what has to be on the disk before it goes out.
    pub fn refuse(&mut self, time: u64) -> Result<(u64, Option<Ticket<J>>), PutFault>
        ensures number { IfOk result (λ x. x.0 ≡ self.old.ledger.number) }
        ensures on { OnOk result (self.new.ledger.number ≡ self.old.ledger.number + 1) }
        ensures margin { IfOk result (λ x. IfSome x.1 (IsMargin J.before self.new.ledger.state.margin)) }
        ensures faulty { IfSome self.old.ledger.desk.fault (λ fault. IsErrOf result (of_journal fault)) }
        ensures err { OnErr result ((self.new.ledger ≡ self.old.ledger) ⊎ HasGrown self.old.ledger.desk self.new.ledger.desk) }
        ensures plan { self.new.current ≡ self.old.current }
    {
        self.time = time;
        match self.ledger.refuse(time) {
            Ok(numbered) => Ok(numbered),
            Err(fault) => Err(PutFault::from(fault)),
        }
    }

    // The plan in force is the first record of the next file: so each file has the plan of all its messages.
    fn repeat_plan(&mut self)
        ensures plan { self.new.current.plan ≡ self.old.current.plan }
        ensures numbers { self.new.current.numbers ≡ self.old.current.numbers }
    {
        if !self.current.front().begins(self.ledger.front()) {
            return;
        }
        let Ok((plan, numbers)) = self.current.shared() else {
            return;
        };
        if let Ok((current, _ticket)) = put_plan(&mut self.ledger, self.time, plan, numbers) {
            self.current = current;
        }
    }
}

impl<J: Naming, S: Storage + Drop> Books<J> for Office<J, S> {
    type Job = Job<J, S>;

    type Done = Done<J, S>;

    fn fault(&self) -> Option<JournalFault>
        ensures { result ≡ self.now.ledger.desk.fault }
    {
        self.ledger.fault()
    }

    fn count(&self) -> u64 {
        self.ledger.count()
    }

    fn receipt(&self, ticket: &Ticket<J>) -> Option<Receipt<J>>
        ensures none { IsNone result ↔ self.now.ledger.desk.settled ≤ ticket.now.place }
        ensures place { IfSome result (λ r. r.place ≡ ticket.now.place) }
        ensures stored { IfSome result (λ r. Confirms J.before ticket.now r) }
    {
        self.ledger.receipt(ticket)
    }

    fn take(&mut self, alloc: Global) -> Option<Job<J, S>>
        ensures none { IsNone result ↔ IsIdle self.old.ledger.desk }
        ensures seen { IfSome result (λ job. job.history ≡ self.old.ledger.desk.history) }
        ensures told { IfSome result (λ job. IfSome job.next
            (Tells (log_in J.before self.old.ledger.desk.history).records)) }
        // Nothing goes that stands where something is left for a receiver, or behind that, or that is kept otherwise.
        ensures kept { IfSome result (λ job. IfSome job.next (λ _.
            job.keep ≡ min self.old.ledger.keep (needed_from self.old.ledger.state))) }
        ensures plan { self.new.current.plan ≡ self.old.current.plan }
    {
        let job = self.ledger.take(alloc)?;
        if job.is_turning() {
            self.repeat_plan();
        }
        Some(job)
    }

    fn run(job: Job<J, S>) -> Result<Done<J, S>, JournalFault> {
        match job.run() {
            Ok(done) => Ok(done),
            Err((fault, _storage)) => Err(fault),
        }
    }

    fn give_back(&mut self, done: Done<J, S>)
        ensures back { IsNone self.new.ledger.desk.fault →
            self.new.ledger.desk ≡ with_storage self.old.ledger.desk done }
        ensures faulty { IsSome self.old.ledger.desk.fault → self.new.ledger.desk.fault ≡ self.old.ledger.desk.fault }
        ensures plan { self.new.current ≡ self.old.current }
    {
        self.ledger.give_back(done);
    }

    fn fail(&mut self, fault: JournalFault)
        ensures first { IsNone self.old.ledger.desk.fault → self.new.ledger.desk.fault ≡ Some fault }
        ensures later { IsSome self.old.ledger.desk.fault → self.new.ledger.desk.fault ≡ self.old.ledger.desk.fault }
        ensures plan { self.new.current ≡ self.old.current }
    {
        self.ledger.fail(fault);
    }
}
