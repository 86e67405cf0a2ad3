//! The delivery queues (desks) of a gate, by the receivers' numbers.
ghost use Rattle.std.specs.Prelude.{◌≡◌, ◌≢◌, ℕ, ◌<◌, nat_lt, length, option_map, OnOk, All};
ghost use Rattle.gw_reorder.specs.State.{SameButRoom, nothing_due, with_due};
ghost use Rattle.gw_reorder.specs.Calls.{status_of, after_holding, next_of};
ghost use Rattle.gw_reorder.specs.declared.desk.Status.TheVariants as status;
ghost use Rattle.gw_gate.specs.Seen.{conforming_seen};
ghost use Rattle.gw_gate.specs.own.Desks.{desk_at, given_out, value_seen, AreRoomier, HasRoomFor, Waits, due_to};

use crate::plans::{goes_once, receiver_at, receiver_count};
use gw_plan::{Conforming, Translated};
use gw_reorder::{Desk, Status};
use std::alloc::{AllocError, Global};
use std::sync::Arc;

// The state of the number at this receiver's desk.
pub(crate) fn status_at(desks: &[Desk<Arc<Translated>>], receiver: usize, n: u64) -> Status
    ensures { result ≡ status_of (desk_at desks.now receiver) n }
{
    match desks.get(receiver) {
        Some(desk) => desk.status(n),
        None => Status::Stranger,
    }
}

// Whether something due at this desk wasn't released yet.
fn waits_at(desks: &[Desk<Arc<Translated>>], receiver: usize) -> bool
    ensures { result ≡ nat_lt (desk_at desks.now receiver).released (length (desk_at desks.now receiver).due) }
{
    match desks.get(receiver) {
        Some(desk) => desk.waits(),
        None => false,
    }
}

// Whether something due at one of the desks wasn't released yet.
pub(crate) fn some_wait(desks: &[Desk<Arc<Translated>>]) -> bool
    ensures { Waits (desk_at desks.now) result }
{
    for receiver in 0..desks.len() {
        if waits_at(desks, receiver) {
            return true;
        }
    }
    false
}

// Empties this desk.
fn restart_at(desks: &mut Vec<Desk<Arc<Translated>>>, receiver: usize)
    requires { receiver < length desks.old.items }
    ensures this { SameButRoom nothing_due (desk_at desks.new.items receiver) }
    ensures others { (r : ℕ) → r ≢ receiver → desk_at desks.new.items r ≡ desk_at desks.old.items r }
    ensures long { length desks.new.items ≡ length desks.old.items }
{
    desks[receiver].restart();
}

// Empties all desks.
pub(crate) fn restart_all(desks: &mut Vec<Desk<Arc<Translated>>>)
    ensures { (r : ℕ) → SameButRoom nothing_due (desk_at desks.new.items r) }
{
    for receiver in 0..desks.len() {
        restart_at(desks, receiver);
    }
}

// What this receiver's desk would release.
pub(crate) fn next_at(
    desks: &[Desk<Arc<Translated>>],
    receiver: usize,
) -> Option<(u64, &Arc<Translated>)>
    ensures { option_map (λ g. (g.0, value_seen g.1.now)) result ≡ next_of (desk_at desks.now receiver) }
{
    match desks.get(receiver) {
        Some(desk) => desk.peek(),
        None => None,
    }
}

// Makes as many desks as this receiver needs.
fn widen(
    desks: &mut Vec<Desk<Arc<Translated>>>,
    alloc: Global,
    receiver: usize,
) -> Result<(), AllocError>
    ensures roomier { AreRoomier desks.old.items desks.new.items }
    ensures ok { OnOk result (receiver < length desks.new.items) }
{
    while desks.len() <= receiver {
        desks.push(Desk::new(alloc))?;
    }
    Ok(())
}

// Makes room at a receiver's desk for one more due number.
fn reserve_at(desks: &mut Vec<Desk<Arc<Translated>>>, receiver: usize) -> Result<(), AllocError>
    requires { receiver < length desks.old.items }
    ensures roomier { AreRoomier desks.old.items desks.new.items }
    ensures ok { OnOk result (0 < (desk_at desks.new.items receiver).room) }
{
    desks[receiver].reserve()
}

// Makes a desk for this receiver, with room for one more due number.
fn room_at(
    desks: &mut Vec<Desk<Arc<Translated>>>,
    alloc: Global,
    receiver: usize,
) -> Result<(), AllocError>
    ensures roomier { AreRoomier desks.old.items desks.new.items }
    ensures ok { OnOk result (0 < (desk_at desks.new.items receiver).room) }
{
    widen(desks, alloc, receiver)?;
    reserve_at(desks, receiver)
}

// Makes room at the desk of each receiver of the message's route.
pub(crate) fn make_room(
    desks: &mut Vec<Desk<Arc<Translated>>>,
    alloc: Global,
    conforming: &Conforming,
) -> Result<(), AllocError>
    ensures roomier { AreRoomier desks.old.items desks.new.items }
    ensures ok { OnOk result (HasRoomFor desks.new.items (conforming_seen conforming.now)) }
{
    for place in 0..receiver_count(conforming) {
        let receiver = receiver_at(conforming, place);
        room_at(desks, alloc, receiver)?;
    }
    Ok(())
}

// Makes the number due at this desk.
fn due_at(desks: &mut Vec<Desk<Arc<Translated>>>, receiver: usize, n: u64)
    requires within { receiver < length desks.old.items }
    requires room { 0 < (desk_at desks.old.items receiver).room }
    requires above { All (λ m. m < n) (desk_at desks.old.items receiver).due }
    ensures this { desk_at desks.new.items receiver ≡ with_due (desk_at desks.old.items receiver) n }
    ensures others { (r : ℕ) → r ≢ receiver → desk_at desks.new.items r ≡ desk_at desks.old.items r }
{
    desks[receiver].due(n);
}

// Makes the number due at each desk to which the message goes.
pub(crate) fn make_due(desks: &mut Vec<Desk<Arc<Translated>>>, conforming: &Conforming, n: u64)
    requires room { HasRoomFor desks.old.items (conforming_seen conforming.now) }
    requires above { (r : ℕ) → All (λ m. m < n) (desk_at desks.old.items r).due }
    ensures { (r : ℕ) → desk_at desks.new.items r ≡ due_to (conforming_seen conforming.now) n r (desk_at desks.old.items r) }
{
    // Called for its clause: no receiver comes twice.
    goes_once(conforming);
    for place in 0..receiver_count(conforming) {
        let receiver = receiver_at(conforming, place);
        due_at(desks, receiver, n);
    }
}

// Keeps the translation at this receiver's desk, if its number waits for one.
pub(crate) fn hold_at(
    desks: &mut Vec<Desk<Arc<Translated>>>,
    receiver: usize,
    n: u64,
    translated: Arc<Translated>,
)
    requires { status_of (desk_at desks.old.items receiver) n ≡ status.Waiting }
    ensures this { desk_at desks.new.items receiver ≡ after_holding (desk_at desks.old.items receiver) n (value_seen translated) }
    ensures others { (r : ℕ) → r ≢ receiver → desk_at desks.new.items r ≡ desk_at desks.old.items r }
{
    desks[receiver].hold(n, translated);
}

// Releases what is next at this receiver's desk.
pub(crate) fn release_at(desks: &mut Vec<Desk<Arc<Translated>>>, receiver: usize)
    ensures this { SameButRoom (given_out (desk_at desks.old.items receiver)) (desk_at desks.new.items receiver) }
    ensures others { (r : ℕ) → r ≢ receiver → desk_at desks.new.items r ≡ desk_at desks.old.items r }
{
    if receiver < desks.len() {
        desks[receiver].release();
    }
}
