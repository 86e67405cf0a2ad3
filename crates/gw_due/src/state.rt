//! What a start has to know of a log.
ghost use Rattle.std.specs.Prelude.{◌≡◌, IfOk};
ghost use Rattle.std.specs.List.{list_any, list_all};
ghost use Rattle.gw_due.specs.Lawful.{agrees};
ghost use Rattle.gw_due.specs.State.{is_known, is_above, awaits, name_of};
ghost use Rattle.gw_due.specs.own.Steps.{has_room_for_one};

use crate::event::Event;
use crate::fault::StateFault;
use crate::following::{follow, last_number, margin, oldest, plan_place};
use crate::receiver::Receiver;
use std::alloc::{AllocError, Global};
use std::marker::Model;

/// What a start has to know of a log: a fold over its events.
#[derive(Drop)]
pub struct State {
    next: u64,
    plan: Option<u64>,
    last: Option<u64>,
    margin: u64,
    oldest: u64,
    receivers: Vec<Receiver>,
}

impl Model for State {
    ghost use Rattle.gw_due.specs.State as spec;

    ghost Value = { spec.State };

    ghost view = { λ s. record {
      next = s.next;
      plan = s.plan;
      last = s.last;
      margin = s.margin;
      oldest = s.oldest;
      receivers = s.receivers.items;
    } };
}

fn all_known(receivers: &[Receiver], to: &[u32]) -> bool
    ensures { result ≡ list_all (is_known receivers.now) to.now }
{
    to.iter().all(|number| is_known(receivers, *number))
}

fn is_known(receivers: &[Receiver], number: u32) -> bool
    ensures { result ≡ is_known receivers.now number }
{
    receivers.iter().any(|r| r.number() == number)
}

fn is_above(last: Option<u64>, number: u64) -> bool
    ensures { result ≡ is_above last number }
{
    match last {
        None => true,
        Some(last) => last < number,
    }
}

fn awaits(receivers: &[Receiver], number: u32, place: u64) -> bool
    ensures { result ≡ list_any (awaits number place) receivers.now }
{
    receivers.iter().any(|r| r.awaits(number, place))
}

fn agree(receivers: &[Receiver], number: u32, name: &[u8]) -> bool
    ensures { result ≡ list_all (λ r. agrees number name.now (name_of r)) receivers.now }
{
    receivers.iter().all(|r| r.agrees(number, name))
}

fn have_room(receivers: &[Receiver]) -> bool
    ensures { result ≡ list_all has_room_for_one receivers.now }
{
    receivers
        .iter()
        .all(|r| r.left() < u64::MAX && r.refused() < u64::MAX)
}

fn copy_all(alloc: Global, receivers: &[Receiver]) -> Result<Vec<Receiver>, AllocError>
    ensures { IfOk result (λ all. all.items ≡ receivers.now) }
{
    let mut all = Vec::new(alloc);
    for one in receivers {
        all.push(one.copy(alloc)?)?;
    }
    Ok(all)
}

impl State {
    ghost use Rattle.std.specs.Prelude.{◌≡◌, IfOk, OnOk, OnErr, IsErrOf, IsTrue, IsFalse};
    ghost use Rattle.gw_due.specs.State as spec;
    ghost use Rattle.gw_due.specs.Views as view;

    /// The state of a log without a record.
    pub fn new(alloc: Global) -> Self
        ensures { result ≡ spec.nothing }
    {
        State {
            next: 0,
            plan: None,
            last: None,
            margin: 0,
            oldest: 0,
            receivers: Vec::new(alloc),
        }
    }

    pub(crate) fn restored(
        next: u64,
        plan: Option<u64>,
        last: Option<u64>,
        margin: u64,
        oldest: u64,
        receivers: Vec<Receiver>,
    ) -> Self
        ensures { result ≡ record { next = next; plan = plan; last = last; margin = margin; oldest = oldest; receivers = receivers.items } }
    {
        State {
            next,
            plan,
            last,
            margin,
            oldest,
            receivers,
        }
    }

    /// A copy.
    pub fn copy(&self, alloc: Global) -> Result<Self, AllocError>
        ensures { IfOk result (λ s. s ≡ self.now) }
    {
        let receivers = copy_all(alloc, &self.receivers)?;
        Ok(State::restored(
            self.next,
            self.plan,
            self.last,
            self.margin,
            self.oldest,
            receivers,
        ))
    }

    /// The place of the next record.
    pub fn next(&self) -> u64
        ensures { result ≡ self.now.next }
    {
        self.next
    }

    /// The place of the plan in force.
    pub fn plan(&self) -> Option<u64>
        ensures { result ≡ self.now.plan }
    {
        self.plan
    }

    /// The number of the last message that was accepted.
    pub fn last(&self) -> Option<u64>
        ensures { result ≡ self.now.last }
    {
        self.last
    }

    /// Numbers below this one may have been given.
    pub fn margin(&self) -> u64
        ensures { result ≡ self.now.margin }
    {
        self.margin
    }

    /// The oldest segment that has to be there.
    pub fn oldest(&self) -> u64
        ensures { result ≡ self.now.oldest }
    {
        self.oldest
    }

    /// The receivers, in the order in which they were named.
    pub fn receivers(&self) -> &[Receiver]
        ensures { result.now ≡ self.now.receivers }
    {
        &self.receivers
    }

    /// Whether the event may follow, as far as a state can say. Who reads the log knows the rest: what stands at a place,
    /// and whether something is due to a receiver between its `from` and that place.
    pub fn may_follow(&self, event: &Event<'_>) -> bool
        ensures { result ≡ spec.allows self.now (view.event event.now) }
    {
        match event {
            Event::Planned { .. } => true,
            Event::Accepted { number, to, .. } => {
                all_known(&self.receivers, to)
                    && is_above(self.last, *number)
                    && *number < self.margin
            }
            Event::Again { receiver, place } => {
                is_known(&self.receivers, *receiver) && *place < self.next
            }
            Event::Passed {
                receiver,
                place,
                ..
            } => *place < self.next && awaits(&self.receivers, *receiver, *place),
            Event::Named { receiver, name, .. } => agree(&self.receivers, *receiver, name),
            Event::Margin { number } => self.margin <= *number,
            Event::Retired { segment } => self.oldest <= *segment,
        }
    }

    /// Whether each count has room for one more.
    pub fn has_room(&self) -> bool
        ensures { result ≡ spec.has_room self.now }
    {
        self.next < u64::MAX && have_room(&self.receivers)
    }

    /// The state after the event. After a fault it is as it was.
    pub fn after(&mut self, alloc: Global, event: &Event<'_>) -> Result<(), StateFault>
        ensures ok { OnOk result (self.new ≡ spec.after self.old (view.event event.now)) }
        ensures allowed { OnOk result (IsTrue (spec.allows self.old (view.event event.now))) }
        ensures err { OnErr result (self.new ≡ self.old) }
        ensures unlawful { IsErrOf result StateFault.Unlawful →
            IsFalse (spec.allows self.old (view.event event.now)) }
        ensures full { IsErrOf result StateFault.Full → IsFalse (spec.has_room self.old) }
        ensures memory { IsErrOf result StateFault.Memory → IsTrue (spec.is_naming (view.event event.now)) }
    {
        if !self.may_follow(event) {
            return Err(StateFault::Unlawful);
        }
        if !self.has_room() {
            return Err(StateFault::Full);
        }
        follow(alloc, &mut self.receivers, self.next, event)?;
        self.plan = plan_place(self.next, self.plan, event);
        self.last = last_number(self.last, event);
        self.margin = margin(self.margin, event);
        self.oldest = oldest(self.oldest, event);
        self.next += 1;
        Ok(())
    }
}
