//! What is next for a receiver.
ghost use mathlib.Core.List.{IsPrefix};

use gw_journal::{Front, Naming};
use gw_ledger::Found;
use std::alloc::{AllocError, Global};
use std::marker::Model;

/// The longer of two beginnings of a history.
pub(crate) fn longer<J: Naming>(one: &Front<J>, other: &Front<J>) -> Front<J>
    ensures one { IsPrefix one.now result }
    ensures other { IsPrefix other.now result }
{
    if one.begins(other) {
        return other.again();
    }
    one.again()
}

/// What was found in the log for a receiver, and what it is sent of it.
#[derive(Drop)]
pub(crate) struct Next<'a, J: Naming> {
    found: Found<J>,
    name: &'a [u8],
    bytes: Vec<u8>,
    front: Front<J>,
}

impl<'a, J: Naming> Model for Next<'a, J> {
    ghost use Rattle.gw_delivery.specs.Waiting.{IsNextFor, NextState};

    ghost Value = { NextState };

    ghost view = { λ n. record {
      receiver = n.found.receiver;
      name = n.name.now;
      from = n.found.from;
      place = n.found.place;
      bytes = n.bytes.items;
      history = n.front;
    } };

    ghost invariant = { λ n. IsNextFor J.before (record {
      receiver = n.found.receiver;
      name = n.name.now;
      from = n.found.from;
      place = n.found.place;
      bytes = n.bytes.items;
      history = n.front;
    }) };
}

impl<'a, J: Naming> Next<'a, J> {
    ghost use Rattle.std.specs.Prelude.{◌≡◌, IfOk};
    ghost use Rattle.gw_ledger.specs.Finding.{InJournal};
    ghost use Rattle.gw_delivery.specs.Made.{IsMadeAt};
    ghost use Rattle.gw_delivery.specs.Waiting.{IsNextFor};

    /// What was found, with what is made of it, by what was seen of the journal.
    pub(crate) fn of(found: Found<J>, name: &'a [u8], bytes: Vec<u8>, front: Front<J>) -> Self
        requires made { InJournal (IsMadeAt name.now found.place bytes.items) J.before front }
        ensures receiver { result.receiver ≡ found.receiver }
        ensures name { result.name ≡ name.now }
        ensures from { result.from ≡ found.from }
        ensures place { result.place ≡ found.place }
        ensures bytes { result.bytes ≡ bytes.items }
    {
        // (called for its clause: it is the first that is due)
        let _place = found.place();
        let front = longer(&front, found.front());
        Next {
            found,
            name,
            bytes,
            front,
        }
    }

    /// What was found.
    pub(crate) fn found(&self) -> &Found<J>
        ensures receiver { result.now.receiver ≡ self.now.receiver }
        ensures place { result.now.place ≡ self.now.place }
        ensures from { result.now.from ≡ self.now.from }
    {
        &self.found
    }

    /// The name of its receiver.
    pub(crate) fn name(&self) -> &'a [u8]
        ensures { result.now ≡ self.now.name }
    {
        self.name
    }

    /// What was seen of the journal.
    pub(crate) fn front(&self) -> &Front<J>
        ensures history { result.now ≡ self.now.history }
        ensures next { IsNextFor J.before self.now }
    {
        &self.front
    }

    /// What the receiver is sent.
    pub(crate) fn bytes(&self, alloc: Global) -> Result<Vec<u8>, AllocError>
        ensures { IfOk result (λ bytes. bytes.items ≡ self.now.bytes) }
    {
        Vec::from_slice(alloc, &self.bytes)
    }
}
