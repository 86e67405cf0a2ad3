//! What is known of a receiver.
ghost use Rattle.std.specs.Prelude.{◌≡◌};
ghost use Rattle.gw_due.specs.Due.{is_among};

use crate::event::{Event, How};
use std::alloc::{AllocError, Global};
use std::marker::Model;

fn is_among(number: u32, to: &[u32]) -> bool
    ensures { result ≡ is_among number to.now }
{
    to.contains(&number)
}

/// What is known of a receiver. What is left for it stands at `from` or behind it: who reads the log on from there finds it.
#[derive(Drop)]
pub struct Receiver {
    number: u32,
    name: Vec<u8>,
    address: Vec<u8>,
    from: u64,
    left: u64,
    refused: u64,
}

impl Model for Receiver {
    ghost use Rattle.gw_due.specs.State as spec;

    ghost Value = { spec.Receiver };

    ghost view = { λ r. record {
      number = r.number;
      name = r.name.items;
      address = r.address.items;
      from = r.from;
      left = r.left;
      refused = r.refused;
    } };
}

impl Receiver {
    ghost use Rattle.std.specs.Prelude.{◌≡◌, ◌<◌, IfOk};
    ghost use Rattle.gw_due.specs.Lawful.{agrees};
    ghost use Rattle.gw_due.specs.Views as view;
    ghost use Rattle.gw_due.specs.own.Steps.{PassesBelow};
    ghost use Rattle.gw_due.specs.State.{receiver_by, awaits, name_of, owed, passed};

    // A new one, for which nothing is left.
    pub(crate) fn new(
        alloc: Global,
        number: u32,
        name: &[u8],
        address: &[u8],
    ) -> Result<Self, AllocError>
        ensures { IfOk result (λ r. r ≡ record { number = number; name = name.now; address = address.now; from = 0; left = 0; refused = 0 }) }
    {
        let name = Vec::from_slice(alloc, name)?;
        let address = Vec::from_slice(alloc, address)?;
        Ok(Receiver {
            number,
            name,
            address,
            from: 0,
            left: 0,
            refused: 0,
        })
    }

    // The same, with these counts.
    pub(crate) fn with_counts(self, from: u64, left: u64, refused: u64) -> Self
        ensures { result ≡ record self { from = from; left = left; refused = refused } }
    {
        Receiver {
            number: self.number,
            name: self.name,
            address: self.address,
            from,
            left,
            refused,
        }
    }

    // A copy.
    pub(crate) fn copy(&self, alloc: Global) -> Result<Self, AllocError>
        ensures { IfOk result (λ r. r ≡ self.now) }
    {
        let one = Receiver::new(alloc, self.number, &self.name, &self.address)?;
        Ok(one.with_counts(self.from, self.left, self.refused))
    }

    /// Its number, for good.
    pub fn number(&self) -> u32
        ensures { result ≡ self.now.number }
    {
        self.number
    }

    /// Its name, for good.
    pub fn name(&self) -> &[u8]
        ensures { result.now ≡ self.now.name }
    {
        &self.name
    }

    /// Its address, by the last record that named it.
    pub fn address(&self) -> &[u8]
        ensures { result.now ≡ self.now.address }
    {
        &self.address
    }

    /// The place from which what is left for it is found.
    pub fn from(&self) -> u64
        ensures { result ≡ self.now.from }
    {
        self.from
    }

    /// How many are left for it.
    pub fn left(&self) -> u64
        ensures { result ≡ self.now.left }
    {
        self.left
    }

    /// How many it refused.
    pub fn refused(&self) -> u64
        ensures { result ≡ self.now.refused }
    {
        self.refused
    }

    pub(crate) fn awaits(&self, number: u32, place: u64) -> bool
        ensures { result ≡ awaits number place self.now }
    {
        self.number == number && 0 < self.left && self.from <= place
    }

    pub(crate) fn agrees(&self, number: u32, name: &[u8]) -> bool
        ensures { result ≡ agrees number name.now (name_of self.now) }
    {
        if self.number == number {
            self.name.as_slice() == name
        } else {
            self.name.as_slice() != name
        }
    }

    // Something more is left, at this place.
    fn owe(&mut self, at: u64)
        requires { self.old.left < 18446744073709551615 }
        ensures { self.new ≡ owed at self.old }
    {
        if self.left == 0 {
            self.from = at;
        }
        self.left += 1;
    }

    // What was left at this place is passed.
    fn pass(&mut self, place: u64, how: &How<'_>)
        requires place { place < 18446744073709551615 }
        requires refused { self.old.refused < 18446744073709551615 }
        ensures { self.new ≡ passed place (view.how how.now) self.old }
    {
        self.from = place + 1;
        self.left = self.left.saturating_sub(1);
        if let How::Refused { .. } = how {
            self.refused += 1;
        }
    }

    pub(crate) fn meet(&mut self, at: u64, event: &Event<'_>)
        requires left { self.old.left < 18446744073709551615 }
        requires refused { self.old.refused < 18446744073709551615 }
        requires place { PassesBelow 18446744073709551615 (view.event event.now) }
        ensures { self.new ≡ receiver_by at (view.event event.now) self.old }
    {
        match event {
            Event::Accepted { to, .. } => {
                if is_among(self.number, to) {
                    self.owe(at);
                }
            }
            Event::Again { receiver, .. } => {
                if *receiver == self.number {
                    self.owe(at);
                }
            }
            Event::Passed {
                receiver,
                place,
                how,
            } => {
                if *receiver == self.number {
                    self.pass(*place, how);
                }
            }
            _ => {}
        }
    }

    pub(crate) fn move_to(&mut self, address: Vec<u8>)
        ensures { self.new ≡ record self.old { address = address.items } }
    {
        self.address = address;
    }
}
