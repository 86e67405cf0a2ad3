//! Routes.
ghost use Rattle.std.specs.Prelude.{◌≡◌, ◌<◌, IfOk, IfSome, OnOk, Some, length, map, nat_eq, slice_get};
ghost use Rattle.std.specs.List.{list_any, IsDistinct};
ghost use Rattle.std.specs.Arc.{arc_value};
ghost use Rattle.std.specs.Map.{lookup};
ghost use Rattle.std.specs.Option.{option_map};
ghost use Rattle.gw_profile.specs.Seen.{profile_value};
ghost use Rattle.gw_plan.specs.Held.{longer, IsNewLeg};
ghost use Rattle.gw_plan.specs.own.SoFar.{opened};

use crate::form::RouteLine;
use crate::senders::{Senders, copied};
use gw_check::CheckedMap;
use gw_profile::Profile;
use indexmap::IndexMap;
use std::alloc::{AllocError, Global};
use std::marker::Model;
use std::sync::Arc;

/// A route: the profile and the receivers for messages of one code and event, of some senders or of all. Each receiver has the map that makes what it is sent.
/// The empty event is that of messages without one.
pub struct Route {
    code: Vec<u8>,
    event: Vec<u8>,
    senders: Option<Senders>,
    profile: Arc<Profile>,
    legs: IndexMap<usize, Arc<CheckedMap>>,
}

// Written out, so that what holds one is dropped by a call.
impl Drop for Route {
    fn drop(self) {
        let Route {
            code: _,
            event: _,
            senders: _,
            profile: _,
            legs: _,
        } = self;
    }
}

impl Model for Route {
    ghost use Rattle.std.specs.Coded.{codes};
    ghost use Rattle.gw_profile.specs.contracts.node.Node as node;
    ghost use Rattle.gw_maplang.specs.contracts.item.Item as raw_item;
    ghost use Rattle.gw_resolve.specs.contracts.resolved.Item as item;
    ghost use Rattle.gw_plan.specs.Held.{RouteHeld, IsRoute};
    ghost use Rattle.gw_plan.specs.Seen.{held_route};

    ghost Value = { RouteHeld };

    ghost coded = { Prim.hlevel (codes, node.the_row.coded, raw_item.the_row.coded, item.the_row.coded) };

    ghost view = { λ r. held_route r.code r.event r.senders r.profile r.legs.entries };

    ghost invariant = { λ r. IsRoute (held_route r.code r.event r.senders r.profile r.legs.entries) };
}

impl Route {
    // A route without receivers.
    pub(crate) fn new(
        alloc: Global,
        line: &RouteLine<'_>,
        profile: Arc<Profile>,
    ) -> Result<Route, AllocError>
        ensures { IfOk result (λ r. r ≡ opened line.now (arc_value profile)) }
    {
        Ok(Route {
            code: Vec::from_slice(alloc, line.code)?,
            event: Vec::from_slice(alloc, line.event)?,
            senders: copied(alloc, &line.senders)?,
            profile,
            legs: IndexMap::new(alloc),
        })
    }

    // Adds a receiver.
    pub(crate) fn add_leg(
        &mut self,
        receiver: usize,
        map: Arc<CheckedMap>,
    ) -> Result<(), AllocError>
        requires { IsNewLeg receiver (arc_value map) self.old }
        ensures { OnOk result (self.new ≡ longer receiver (arc_value map) self.old) }
    {
        self.legs.insert(receiver, map)?;
        Ok(())
    }

    // The clause says that it goes to each of its receivers once, by its type.
    pub(crate) fn goes_once(&self)
        ensures { IsDistinct nat_eq (map (λ l. l.0) self.now.legs) }
    {
        let _count = self.legs.len();
    }

    /// The profile of its messages. It takes no memory.
    pub fn profile(&self) -> &Arc<Profile>
        ensures { arc_value result.now ≡ self.now.profile }
    {
        &self.profile
    }

    /// How many receivers it has. It takes no memory.
    pub fn len(&self) -> usize
        ensures { result ≡ length self.now.legs }
    {
        self.legs.len()
    }

    /// The number of the receiver of its `to` line of this place, from 0. It takes no memory.
    pub fn receiver(&self, i: usize) -> usize
        requires { i < length self.now.legs }
        ensures { slice_get (map (λ l. l.0) self.now.legs) i ≡ Some result }
    {
        match self.legs.get_index(i) {
            Some((receiver, _)) => *receiver,
            None => unreachable!(),
        }
    }

    /// Whether it goes to this receiver. It takes no memory.
    pub fn goes_to(&self, receiver: usize) -> bool
        ensures { result ≡ list_any (λ l. nat_eq receiver l.0) self.now.legs }
    {
        self.legs.contains_key(&receiver)
    }

    /// The map that makes what this receiver is sent. It takes no memory.
    pub fn map_for(&self, receiver: usize) -> Option<&Arc<CheckedMap>>
        ensures leg { option_map (λ m. arc_value m.now) result ≡ lookup (nat_eq receiver) self.now.legs }
        ensures takes { IfSome result (λ m. profile_value (arc_value m.now).source ≡ profile_value self.now.profile) }
    {
        self.legs.get(&receiver)
    }
}
