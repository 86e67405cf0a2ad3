//! Messages, judged under the plan in force, and appended to the log where they are accepted.
ghost use Rattle.std.specs.Prelude.{◌≡◌, ◌⊎◌, IfOk, OnErr, Some};
ghost use Rattle.gw_ack.specs.declared.reply.Reply.TheVariants.{Reject};
ghost use Rattle.gw_er7.specs.Written.{written};
ghost use Rattle.gw_gateway.specs.Plans.{GoesBy};
ghost use Rattle.gw_gateway.specs.Senders.{Settles};
ghost use Rattle.gw_gateway.specs.Waiting.{GoesOn};
ghost use Rattle.gw_gateway.specs.own.Steps.{Arrives, Attempts, Judges};

use crate::fault::PutFault;
use crate::office::Office;
use crate::plans::InForce;
use crate::waiting::Waiting;
use gw_ack::{INTERNAL, Reply};
use gw_crew::Clock;
use gw_er7::{Message, write};
use gw_journal::{Journal, Naming, Storage};
use gw_plan::{Conforming, Refusal, admit};
use gw_stream::{Judge, Outcome, Withheld};
use std::alloc::{AllocError, Global};
use std::sync::{Arc, Wait};

/// How often a message is judged under a plan that is another one when it is appended.
const MAX_TRIES: usize = 4;

/// What wakes a receiver's forwarder.
pub trait Bells {
    /// Something is due to this receiver, and on the disk.
    fn ring(&self, receiver: u32);

    /// Whether there is room for what is accepted.
    fn has_room(&self) -> bool;

    /// As many messages were accepted, and are on the disk.
    fn accepted(&self, count: u64);
}

/// What gives the time of a record, in microseconds.
pub trait Times {
    fn time(&self) -> u64;
}

/// Judges the messages of a sender at the log. What it accepts is on the disk before its answer goes out.
pub struct AtLog<'a, J: Naming, S: Storage + Drop, R: Wait, C: Drop, B> {
    rt: &'a R,
    journal: &'a Journal<J, Office<J, S>>,
    clock: C,
    bells: &'a B,
    /// What the answers wait for.
    pub waiting: Waiting<J>,
    // whose forwarders are to be woken
    due: Vec<u32>,
    // how many were accepted that may not be on the disk yet
    fresh: u64,
    is_lost: bool,
}

// (by hand, so that no crate above proves again how its fields are dropped)
impl<'a, J: Naming, S: Storage + Drop, R: Wait, C: Drop, B> Drop for AtLog<'a, J, S, R, C, B> {
    fn drop(self) {
        let AtLog {
            rt: _,
            journal: _,
            clock: _,
            bells: _,
            waiting: _,
            due: _,
            fresh: _,
            is_lost: _,
        } = self;
    }
}

// What a plan says of a message: it is admitted, or what is said to it.
#[derive(Drop)]
enum Judgement {
    Admitted(Arc<Conforming>),
    Refused(Reply),
}

// What came of an arrival: its outcome, or the message comes back.
#[derive(Drop)]
enum Attempt {
    Settled(Outcome),
    Stale(Message),
}

// What a plan says of a message.
fn judge_by<J: Naming>(
    alloc: Global,
    under: &InForce<J>,
    message: Message,
) -> Result<Judgement, AllocError>
    ensures { IfOk result (Judges under.now message) }
{
    under.plan().is_spelled();
    match admit(alloc, under.plan(), under.place(), message) {
        Ok(conforming) => Ok(Judgement::Admitted(conforming)),
        Err(Refusal::Memory(_message)) => Err(AllocError),
        Err(Refusal::Route(code, _message)) => Ok(Judgement::Refused(Reply::Reject(code))),
        Err(Refusal::Breaks(breach, _message)) => Ok(Judgement::Refused(Reply::Refuse(breach))),
    }
}

// The numbers of those to whom a message goes.
fn receivers_of<J: Naming>(
    alloc: Global,
    under: &InForce<J>,
    conforming: &Conforming,
) -> Result<Vec<u32>, AllocError>
    requires plan { conforming.now.plan ≡ under.now.plan }
    ensures { IfOk result (λ to. GoesBy under.now to.items (written conforming.now.tree.message)) }
{
    let numbers = under.numbers();
    let _receivers = conforming.receivers();
    let route = conforming.route();
    let mut to = Vec::new(alloc);
    for leg in 0..route.len() {
        let Some(number) = numbers.get(route.receiver(leg)) else {
            unreachable!();
        };
        to.push(*number)?;
    }
    Ok(to)
}

impl<'a, J: Naming, S: Storage + Drop, R: Wait, C: Clock + Times + Drop, B: Bells> AtLog<
    'a,
    J,
    S,
    R,
    C,
    B,
> {
    /// Nothing was accepted yet.
    pub fn new(
        alloc: Global,
        rt: &'a R,
        journal: &'a Journal<J, Office<J, S>>,
        clock: C,
        bells: &'a B,
    ) -> Self {
        AtLog {
            rt,
            journal,
            clock,
            bells,
            waiting: Waiting::new(),
            due: Vec::new(alloc),
            fresh: 0,
            is_lost: false,
        }
    }

    /// A number for an answer that is given beside the others; 0 where there is none.
    pub fn number(&mut self) -> u64
        ensures { GoesOn self.old.waiting self.new.waiting }
    {
        let Ok(outcome) = self.refuse(Reply::Reject(INTERNAL)) else {
            return 0;
        };
        match self.secure() {
            Ok(()) => outcome.number,
            Err(_) => 0,
        }
    }

    fn outcome(&mut self, reply: Reply, number: u64) -> Outcome
        ensures reply { result.reply ≡ reply }
        ensures number { result.number ≡ number }
        ensures same { self.new.waiting ≡ self.old.waiting }
    {
        Outcome {
            reply,
            number,
            stamp: self.clock.stamp(),
        }
    }

    // Notes whose forwarders are to be woken.
    fn note_due(&mut self, to: &[u32]) -> Result<(), AllocError>
        ensures { self.new.waiting ≡ self.old.waiting }
    {
        for receiver in to {
            if !self.due.contains(receiver) {
                self.due.push(*receiver)?;
            }
        }
        Ok(())
    }

    // What is said to a message that isn't accepted, under a number.
    fn refuse(&mut self, why: Reply) -> Result<Outcome, AllocError>
        ensures on { GoesOn self.old.waiting self.new.waiting }
        ensures said { IfOk result (λ outcome. (outcome.reply ≡ why) ⊎ (outcome.reply ≡ Reject 207)) }
    {
        let time = self.clock.time();
        let put = self.journal.lock(self.rt).refuse(time);
        match put {
            Ok((number, ticket)) => {
                if let Some(ticket) = ticket {
                    self.waiting.wait_for(&ticket);
                }
                Ok(self.outcome(why, number))
            }
            Err(PutFault::Memory) => Err(AllocError),
            Err(PutFault::Disk) => {
                self.is_lost = true;
                Ok(self.outcome(Reply::Reject(INTERNAL), 0))
            }
            Err(_) => Ok(self.outcome(Reply::Reject(INTERNAL), 0)),
        }
    }

    // Has a message arrive that its plan admits.
    fn arrive(
        &mut self,
        alloc: Global,
        under: &InForce<J>,
        conforming: &Conforming,
    ) -> Result<Attempt, AllocError>
        requires plan { conforming.now.plan ≡ under.now.plan }
        ensures ok { IfOk result (Arrives J.before self.old.waiting self.new.waiting conforming.now.tree.message) }
        ensures err { OnErr result (GoesOn self.old.waiting self.new.waiting) }
    {
        let bytes = write(alloc, conforming.message())?;
        let to = receivers_of(alloc, under, conforming)?;
        self.note_due(&to)?;
        let time = self.clock.time();
        let put = self.journal.lock(self.rt).accept(time, under, to, &bytes);
        match put {
            Ok((number, ticket)) => {
                self.waiting.wait_for(&ticket);
                self.fresh = self.fresh.saturating_add(1);
                Ok(Attempt::Settled(self.outcome(Reply::Accept, number)))
            }
            Err(PutFault::Memory) => Err(AllocError),
            Err(PutFault::Stale) => Ok(Attempt::Stale(conforming.message().copy(alloc)?)),
            Err(PutFault::Disk) => {
                self.is_lost = true;
                Ok(Attempt::Settled(self.outcome(Reply::Reject(INTERNAL), 0)))
            }
            Err(_) => Ok(Attempt::Settled(self.outcome(Reply::Reject(INTERNAL), 0))),
        }
    }

    // Has a message arrive under a plan.
    fn try_under(
        &mut self,
        alloc: Global,
        under: &InForce<J>,
        message: Message,
    ) -> Result<Attempt, AllocError>
        ensures ok { IfOk result (Attempts J.before self.old.waiting self.new.waiting message) }
        ensures err { OnErr result (GoesOn self.old.waiting self.new.waiting) }
    {
        self.waiting.see(under.front());
        match judge_by(alloc, under, message)? {
            Judgement::Admitted(conforming) => self.arrive(alloc, under, &conforming),
            Judgement::Refused(why) => {
                let outcome = self.refuse(why)?;
                Ok(Attempt::Settled(outcome))
            }
        }
    }

    // Has a message arrive once, under the plan in force.
    fn try_once(&mut self, alloc: Global, message: Message) -> Result<Attempt, AllocError>
        ensures ok { IfOk result (Attempts J.before self.old.waiting self.new.waiting message) }
        ensures err { OnErr result (GoesOn self.old.waiting self.new.waiting) }
    {
        let under = self.journal.lock(self.rt).current.again()?;
        self.try_under(alloc, &under, message)
    }

    // Has a message arrive, under the plan in force each time: where it is stale, again, four times at most; then it is rejected.
    fn arrive_in_time(&mut self, alloc: Global, message: Message) -> Result<Outcome, AllocError>
        ensures ok { IfOk result (λ outcome. Settles J.before self.old.waiting self.new.waiting (Some message) outcome.number outcome.reply) }
        ensures err { OnErr result (GoesOn self.old.waiting self.new.waiting) }
    {
        let mut message = message;
        'tries: for _try in 0..MAX_TRIES {
            match self.try_once(alloc, message)? {
                Attempt::Settled(outcome) => return Ok(outcome),
                Attempt::Stale(back) => message = back,
            }
        }
        self.refuse(Reply::Reject(INTERNAL))
    }

    // Wakes the forwarders of what is on the disk.
    fn wake(&mut self)
        ensures { self.new.waiting ≡ self.old.waiting }
    {
        for receiver in &self.due {
            self.bells.ring(*receiver);
        }
        self.due.clear();
        self.bells.accepted(self.fresh);
        self.fresh = 0;
    }
}

impl<J: Naming, S: Storage + Drop, R: Wait, C: Clock + Times + Drop, B: Bells> Judge
    for AtLog<'_, J, S, R, C, B> {
    ghost use Rattle.gw_gateway.specs.Senders.{Secures, Settles};
    ghost use Rattle.gw_gateway.specs.Waiting.{GoesOn};

    ghost settles = { λ s t number what outcome. Settles J.before s.waiting t.waiting what outcome.number outcome.reply };

    ghost breaks = { λ s t what. GoesOn s.waiting t.waiting };

    ghost secures = { λ s t. Secures J.before s.waiting t.waiting };

    ghost withholds = { λ s t. GoesOn s.waiting t.waiting };

    fn judge(
        &mut self,
        alloc: Global,
        _number: u64,
        what: Option<Message>,
    ) -> Result<Outcome, AllocError> {
        let Some(message) = what else {
            return self.refuse(Reply::Reject(INTERNAL));
        };
        if !self.bells.has_room() {
            return Ok(self.outcome(Reply::Reject(INTERNAL), 0));
        }
        self.arrive_in_time(alloc, message)
    }

    fn secure(&mut self) -> Result<(), Withheld> {
        if self.is_lost {
            return Err(Withheld);
        }
        let Some(ticket) = self.waiting.awaited() else {
            return Ok(());
        };
        match self.journal.settle(self.rt, &ticket) {
            Ok(receipt) => {
                self.waiting.settle(&ticket, &receipt);
                self.wake();
                Ok(())
            }
            Err(_) => {
                self.is_lost = true;
                Err(Withheld)
            }
        }
    }
}
