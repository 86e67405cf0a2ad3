//! Plans.
ghost use Rattle.std.specs.Prelude.{◌≡◌, ◌↔◌, ◌<◌, IsTrue, IfOk, map, length, slice_get, Some, Ok, bytes_eq};
ghost use Rattle.std.specs.List.{list_any};
ghost use Rattle.gw_plan.specs.declared.senders.HeaderField.{HeaderField};
ghost use Rattle.gw_plan.specs.Index.{header};
ghost use Rattle.gw_plan.specs.Routing as spec;
ghost use Rattle.gw_plan.specs.Routing.{header_text, is_accepted, routed};
ghost use Rattle.gw_plan.specs.Held.{plan_value, borrowed_route, tested_for, FoundAt};
ghost use Rattle.gw_plan.specs.Seen.{receiver_value};
ghost use Rattle.gw_plan.specs.Draft.{plan_of};
ghost use Rattle.gw_plan.specs.own.SoFar.{draft_value, IsKept};
ghost use Rattle.gw_plan.specs.Whole.{spelled};
ghost use Rattle.gw_plan.specs.Within.{IsWithin};

use crate::draft::Draft;
use crate::index::Index;
use crate::route::Route;
use crate::route_list::RouteList;
use crate::senders::Header;
use gw_er7::same::{Part, are_same, same_bytes};
use gw_er7::{Message, Place};
use std::alloc::{AllocError, Global};
use std::marker::Model;

/// A receiver: its name, and the address where it is reached.
#[derive(Drop)]
pub struct Receiver {
    pub name: Vec<u8>,
    pub address: Vec<u8>,
}

/// A plan: receivers, the accepted versions and processing ids, and routes. By its type it is what its text spells.
pub struct Plan {
    pub(crate) text: Vec<u8>,
    receivers: Vec<Receiver>,
    versions: Vec<Vec<u8>>,
    processing: Vec<Vec<u8>>,
    index: Index,
    routes: Vec<Route>,
}

// Written out, so that no crate above proves again how its fields are dropped.
impl Drop for Plan {
    fn drop(self) {
        let Plan {
            text: _,
            receivers: _,
            versions: _,
            processing: _,
            index: _,
            routes: _,
        } = self;
    }
}

impl Part for Receiver {
    ghost use Rattle.std.specs.Prelude.{◌≡◌};
    ghost use Rattle.gw_plan.specs.Seen.{receiver_value};

    ghost same = { λ one other. receiver_value one ≡ receiver_value other };

    fn is(&self, other: &Receiver) -> bool {
        if !same_bytes(&self.name, &other.name) {
            return false;
        }
        same_bytes(&self.address, &other.address)
    }
}

impl Model for Plan {
    ghost use Rattle.std.specs.Coded.{codes};
    ghost use Rattle.gw_profile.specs.contracts.node.Node as node;
    ghost use Rattle.gw_maplang.specs.contracts.item.Item as raw_item;
    ghost use Rattle.gw_resolve.specs.contracts.resolved.Item as item;
    ghost use Rattle.gw_plan.specs.Held.{PlanHeld};
    ghost use Rattle.gw_plan.specs.Seen.{held_plan};
    ghost use Rattle.gw_plan.specs.Kept.{IsPlan};

    ghost Value = { PlanHeld };

    ghost coded = { Prim.hlevel (codes, node.the_row.coded, raw_item.the_row.coded, item.the_row.coded) };

    ghost view = { λ p. held_plan p.text p.receivers p.versions p.processing p.routes };

    ghost invariant = { λ p. IsPlan (held_plan p.text p.receivers p.versions p.processing p.routes) p.index };
}

// The first leaf of a component of a field of MSH.
fn header_text(message: &Message, field: usize, comp: usize) -> &[u8]
    ensures { result.now ≡ header_text message.now field comp }
{
    let count = message.segment_count();
    if count == 0 {
        return &[];
    }
    message.segment(0).text(Place {
        field,
        rep: 1,
        comp,
        sub: 1,
    })
}

// The texts of a message's header that name its senders.
fn header_of(message: &Message) -> Header<'_>
    ensures { (field : HeaderField) → header result field ≡ spec.header_of message.now field }
{
    let sending_application = header_text(message, 3, 1);
    let sending_facility = header_text(message, 4, 1);
    let receiving_application = header_text(message, 5, 1);
    let receiving_facility = header_text(message, 6, 1);
    let message_profile = header_text(message, 21, 1);
    Header {
        sending_application,
        sending_facility,
        receiving_application,
        receiving_facility,
        message_profile,
    }
}

fn has(words: &[Vec<u8>], text: &[u8]) -> bool
    ensures { result ≡ list_any (λ w. bytes_eq text.entry.now w.items) words.now }
{
    words.iter().any(|word| text == word.as_slice())
}

// Whether a text is one of the accepted words. If there are none, any text is accepted.
fn accepts(words: &[Vec<u8>], text: &[u8]) -> bool
    ensures { result ≡ is_accepted (map (λ w. w.items) words.now) text.now }
{
    words.is_empty() || has(words, text)
}

impl Plan {
    // The plan of these lines, which the text spells.
    pub(crate) fn of(alloc: Global, draft: Draft, text: Vec<u8>) -> Result<Plan, AllocError>
        requires kept { IsKept draft }
        requires meaning { spelled text.items ≡ Ok (plan_of (draft_value draft)) }
        ensures value { IfOk result (λ p. plan_value p ≡ plan_of (draft_value draft)) }
        ensures text { IfOk result (λ p. p.text ≡ text.items) }
    {
        let mut draft = draft;
        draft.close()?;
        let Draft {
            receivers,
            versions,
            processing,
            routes,
            ..
        } = draft;
        let RouteList { closed, index, .. } = routes;
        let receivers = receivers.into_all(alloc)?;
        Ok(Plan {
            text,
            receivers,
            versions,
            processing,
            index,
            routes: closed,
        })
    }

    /// The text. It takes no memory.
    pub fn text(&self) -> &[u8]
        ensures { result.now ≡ self.now.text }
    {
        self.text.as_slice()
    }

    /// The receivers in the order of their lines, by which they are numbered from 0. It takes no memory.
    /// Each route goes only to these.
    pub fn receivers(&self) -> &[Receiver]
        ensures value { map receiver_value result.now ≡ self.now.receivers }
        ensures within { IsWithin (plan_value self.now) }
    {
        self.receivers.as_slice()
    }

    /// Whether the plans have the same receivers, by name and address, in the same order. It takes no memory.
    pub fn same_receivers(&self, other: &Plan) -> bool
        ensures { IsTrue result ↔ (self.now.receivers ≡ other.now.receivers) }
    {
        are_same(&self.receivers, &other.receivers)
    }

    /// The clause says that the plan is what its text spells, by its type. It takes no memory.
    pub fn is_spelled(&self)
        ensures { spelled self.now.text ≡ Ok (plan_value self.now) }
    {
        // Called for its clause: what the type keeps.
        let _ = &self.text;
    }

    // The tests of version and processing id, for a route of this number.
    fn tested(&self, message: &Message, number: usize) -> Result<usize, u16>
        ensures { result ≡ tested_for self.now message.now number }
    {
        if !accepts(&self.versions, header_text(message, 12, 1)) {
            return Err(203);
        }
        if !accepts(&self.processing, header_text(message, 11, 1)) {
            return Err(202);
        }
        Ok(number)
    }

    /// The number of a message's route, or the code of the first test that fails.
    pub(crate) fn find(&self, message: &Message) -> Result<usize, u16>
        ensures { FoundAt self.now.routes result (routed (plan_value self.now) message.now) }
    {
        let code = header_text(message, 9, 1);
        let event = header_text(message, 9, 2);
        let header = header_of(message);
        match self.index.find(code, event, &header) {
            Err(code) => Err(code),
            Ok(number) => self.tested(message, number),
        }
    }

    /// The route of this number.
    pub(crate) fn route_at(&self, number: usize) -> &Route
        requires { number < length self.now.routes }
        ensures { slice_get self.now.routes number ≡ Some result.now }
    {
        &self.routes[number]
    }

    /// The message's route, or the code of the condition that fails first:
    /// 200 for its type, 201 for its event and senders, 203 for its version, 202 for its processing id (HL7 table 0357).
    /// It takes no memory, and no more time where there are more routes.
    pub fn route(&self, message: &Message) -> Result<&Route, u16>
        ensures { borrowed_route result ≡ routed (plan_value self.now) message.now }
    {
        let number = self.find(message)?;
        Ok(self.route_at(number))
    }
}
