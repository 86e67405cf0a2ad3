//! A queue that releases values in the order of their numbers.
use crate::search::place_among;
use std::alloc::{AllocError, Global};
use std::collections::VecDeque;
use std::marker::Model;

/// The state of a number at a desk.
#[derive(Clone, Copy, Debug, PartialEq, Eq)]
pub enum Status {
    /// It is due, and no value was kept for it.
    Waiting,
    /// A value was kept for it, released or not.
    Repeat,
    /// It was never due.
    Stranger,
}

/// What `hold` did with a value.
#[derive(Drop)]
pub enum Held<T: Drop> {
    /// It is kept.
    Kept,
    /// A value was kept for its number before.
    Repeat(T),
    /// Its number was never due.
    Stranger(T),
}

/// A queue that releases values in the order of their numbers. Numbers become due in rising order, and values come in any order.
///
/// `waiting` has a slot for each due number that wasn't released yet.
#[derive(Drop)]
pub struct Desk<T: Drop> {
    due: Vec<u64>,
    waiting: VecDeque<Option<T>>,
    released: usize,
}

impl<T: Drop> Model for Desk<T> {
    ghost use Rattle.std.specs.Prelude.{◌-◌, min, vec_len, vec_capacity};
    ghost use Rattle.std.specs.VecDeque.{deque_len, deque_capacity};
    ghost use Rattle.gw_reorder.specs.State.{DeskState, IsWindow};

    ghost Value = { DeskState T };

    ghost view = { λ d. record {
      due = d.due.items;
      released = d.released;
      kept = d.waiting.items;
      room = min (vec_capacity d.due - vec_len d.due) (deque_capacity d.waiting - deque_len d.waiting);
    } };

    ghost invariant = { λ d. IsWindow d.due.items (vec_len d.due) d.released (deque_len d.waiting) };
}

impl<T: Drop> Desk<T> {
    ghost use Rattle.std.specs.Prelude.{◌≡◌, ◌<◌, ◌≤◌, ◌↔◌, OnOk, OnErr, All, IsTrue, option_map, length, nat_lt};
    ghost use Rattle.gw_reorder.specs.State.{SameButRoom, nothing_due, with_due};
    ghost use Rattle.gw_reorder.specs.Calls.{status_of, held_as, after_holding, next_of, after_giving};

    /// An empty desk: nothing is due, and there is no room yet.
    pub fn new(alloc: Global) -> Self
        ensures { result ≡ nothing_due }
    {
        Desk {
            due: Vec::new(alloc),
            waiting: VecDeque::new(alloc),
            released: 0,
        }
    }

    /// Makes room for one more due number and its value. If an allocation fails, the room stays as it was.
    pub fn reserve(&mut self) -> Result<(), AllocError>
        ensures ok { OnOk result (0 < self.new.room) }
        ensures err { OnErr result (self.old.room ≡ 0) }
        ensures kept { OnErr result (self.new.room ≡ self.old.room) }
        ensures same { SameButRoom self.old self.new }
        ensures room { self.old.room ≤ self.new.room }
    {
        self.due.reserve(1)?;
        let waiting = self.waiting.len();
        if waiting < self.waiting.capacity() {
            return Ok(());
        }
        self.waiting.reserve_exact(waiting.max(4))
    }

    /// Whether there is room for one more due number.
    pub fn has_room(&self) -> bool
        ensures { IsTrue result ↔ (0 < self.now.room) }
    {
        self.due.len() < self.due.capacity() && self.waiting.len() < self.waiting.capacity()
    }

    /// Makes a number due. It is above all that became due before, and there is room for it. It takes no memory.
    pub fn due(&mut self, n: u64)
        requires room { 0 < self.old.room }
        requires above { All (λ m. m < n) self.old.due }
        ensures { self.new ≡ with_due self.old n }
    {
        self.due.push_reserved(n);
        self.waiting.push_back_reserved(None);
    }

    /// The state of the number: whether `hold` would keep a value for it.
    pub fn status(&self, n: u64) -> Status
        ensures { result ≡ status_of self.now n }
    {
        let Some(place) = place_among(&self.due, n) else {
            return Status::Stranger;
        };
        if place < self.released {
            return Status::Repeat;
        }
        match self.waiting.get(place - self.released) {
            Some(Some(_)) => Status::Repeat,
            _ => Status::Waiting,
        }
    }

    /// Keeps the value of a number that waits for one, and returns any other. The room was made before the number was due, so nothing is allocated.
    pub fn hold(&mut self, n: u64, value: T) -> Held<T>
        ensures answer { result ≡ held_as (status_of self.old n) value }
        ensures left { self.new ≡ after_holding self.old n value }
    {
        let Some(place) = place_among(&self.due, n) else {
            return Held::Stranger(value);
        };
        if place < self.released {
            return Held::Repeat(value);
        }
        let slot = place - self.released;
        if self.waiting[slot].is_some() {
            return Held::Repeat(value);
        }
        self.waiting[slot] = Some(value);
        Held::Kept
    }

    /// What `release` would return.
    pub fn peek(&self) -> Option<(u64, &T)>
        ensures { option_map (λ given. (given.0, given.1.now)) result ≡ next_of self.now }
    {
        let Some(Some(value)) = self.waiting.front() else {
            return None;
        };
        Some((self.due[self.released], value))
    }

    /// Whether a due number wasn't released yet. It takes no memory.
    pub fn waits(&self) -> bool
        ensures { result ≡ nat_lt self.now.released (length self.now.due) }
    {
        self.released < self.due.len()
    }

    /// Empties the desk: nothing is due, as at a new one, and the room stays. It takes no memory.
    pub fn restart(&mut self)
        ensures same { SameButRoom nothing_due self.new }
        ensures room { self.old.room ≤ self.new.room }
    {
        self.due.clear();
        self.waiting.clear();
        self.released = 0;
    }

    /// Removes and returns the value of the least due number that wasn't released, with the number. `None` where no value is kept for it.
    pub fn release(&mut self) -> Option<(u64, T)>
        ensures given { result ≡ next_of self.old }
        ensures left { SameButRoom (after_giving self.old result) self.new }
        ensures room { self.old.room ≤ self.new.room }
    {
        let Some(Some(_)) = self.waiting.front() else {
            return None;
        };
        let number = self.due[self.released];
        match self.waiting.pop_front() {
            Some(Some(value)) => {
                self.released += 1;
                Some((number, value))
            }
            _ => None,
        }
    }
}
