//! What an event changes in what is known of receivers.
ghost use Rattle.std.specs.Prelude.{◌≡◌, nat_eq, map, OnOk, OnErr, IsTrue};
ghost use Rattle.std.specs.List.{position, list_all};
ghost use Rattle.gw_due.specs.Due.{last_by, margin_by, oldest_by};
ghost use Rattle.gw_due.specs.State.{is_naming, receiver_by, receivers_by, named, plan_place};
ghost use Rattle.gw_due.specs.Views as view;
ghost use Rattle.gw_due.specs.own.Steps.{PassesBelow, has_room_for_one};

use crate::event::Event;
use crate::receiver::Receiver;
use std::alloc::{AllocError, Global};

fn place_of(receivers: &[Receiver], number: u32) -> Option<usize>
    ensures { result ≡ position (λ r. nat_eq r.number number) receivers.now }
{
    receivers.iter().position(|r| r.number() == number)
}

fn name_one(
    alloc: Global,
    receivers: &mut Vec<Receiver>,
    number: u32,
    name: &[u8],
    address: &[u8],
) -> Result<(), AllocError>
    ensures ok { OnOk result (receivers.new.items ≡ named number name.now address.now receivers.old.items) }
    ensures err { OnErr result (receivers.new.items ≡ receivers.old.items) }
{
    match place_of(receivers, number) {
        Some(place) => {
            let address = Vec::from_slice(alloc, address)?;
            receivers[place].move_to(address);
            Ok(())
        }
        None => {
            let one = Receiver::new(alloc, number, name, address)?;
            receivers.push(one)?;
            Ok(())
        }
    }
}

fn meet_all(receivers: &mut [Receiver], at: u64, event: &Event<'_>)
    requires room { IsTrue (list_all has_room_for_one receivers.old) }
    requires place { PassesBelow 18446744073709551615 (view.event event.now) }
    ensures { receivers.new ≡ map (receiver_by at (view.event event.now)) receivers.old }
{
    for receiver in receivers.iter_mut() {
        receiver.meet(at, event);
    }
}

/// The receivers after the event at this place. After a fault they are as they were.
pub(crate) fn follow(
    alloc: Global,
    receivers: &mut Vec<Receiver>,
    at: u64,
    event: &Event<'_>,
) -> Result<(), AllocError>
    requires room { IsTrue (list_all has_room_for_one receivers.old.items) }
    requires place { PassesBelow 18446744073709551615 (view.event event.now) }
    ensures ok { OnOk result (receivers.new.items ≡ receivers_by at (view.event event.now) receivers.old.items) }
    ensures err { OnErr result (receivers.new.items ≡ receivers.old.items) }
    ensures memory { OnErr result (IsTrue (is_naming (view.event event.now))) }
{
    if let Event::Named {
        receiver,
        name,
        address,
    } = event
    {
        return name_one(alloc, receivers, *receiver, name, address);
    }
    meet_all(receivers, at, event);
    Ok(())
}

pub(crate) fn plan_place(at: u64, plan: Option<u64>, event: &Event<'_>) -> Option<u64>
    ensures { result ≡ plan_place at plan (view.event event.now) }
{
    match event {
        Event::Planned { .. } => Some(at),
        _ => plan,
    }
}

pub(crate) fn last_number(last: Option<u64>, event: &Event<'_>) -> Option<u64>
    ensures { result ≡ last_by last (view.event event.now) }
{
    match event {
        Event::Accepted { number, .. } => Some(*number),
        _ => last,
    }
}

pub(crate) fn margin(margin: u64, event: &Event<'_>) -> u64
    ensures { result ≡ margin_by margin (view.event event.now) }
{
    match event {
        Event::Margin { number } => *number,
        _ => margin,
    }
}

pub(crate) fn oldest(oldest: u64, event: &Event<'_>) -> u64
    ensures { result ≡ oldest_by oldest (view.event event.now) }
{
    match event {
        Event::Retired { segment } => *segment,
        _ => oldest,
    }
}
