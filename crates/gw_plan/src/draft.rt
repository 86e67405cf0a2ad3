//! A plan as it is built, line by line.
ghost use Rattle.std.specs.Prelude.{◌≡◌, IfOk, IfErr, OnOk, None, Err};
ghost use Rattle.std.specs.Arc.{arc_value};
ghost use Rattle.std.specs.Option.{option_map};
ghost use Rattle.gw_plan.specs.Index.{said};
ghost use Rattle.gw_plan.specs.Draft as spec;
ghost use Rattle.gw_plan.specs.own.SoFar.{draft_value, IsKept, Leads, Makes, puts_route, adds_said};
ghost use Rattle.gw_plan.specs.Inner.{takes_profile, takes_map, takes_part};
ghost use Rattle.gw_plan.specs.own.Made.{inner, IsNumbered};
ghost use Rattle.gw_plan.specs.Seen.{now_all, line};

use crate::accepted::accept;
use crate::declarations::Declarations;
use crate::fault::PlanFault;
use crate::form::{Kind, Line, RouteLine};
use crate::inner::Inner;
use crate::inner_map::take_map;
use crate::inner_profile::take_profile;
use crate::receivers::Receivers;
use crate::route_list::RouteList;
use crate::senders::SaidSenders;
use gw_check::CheckedMap;
use std::alloc::{AllocError, Global};
use std::sync::Arc;

/// A plan as it is built: what the lines so far say together.
#[derive(Drop)]
pub(crate) struct Draft {
    pub(crate) begun: bool,
    pub(crate) fresh: bool,
    pub(crate) wide: bool,
    pub(crate) receivers: Receivers,
    pub(crate) versions: Vec<Vec<u8>>,
    pub(crate) processing: Vec<Vec<u8>>,
    pub(crate) declarations: Declarations,
    pub(crate) routes: RouteList,
}

// Whether senders may be said: in language 2 alone.
fn is_said(wide: bool, senders: &Option<SaidSenders<'_>>) -> bool
    ensures { result ≡ spec.is_said wide (option_map said senders.now) }
{
    match senders {
        None => true,
        Some(_) => wide,
    }
}

impl Draft {
    /// The plan of no lines.
    pub(crate) fn new(alloc: Global) -> Draft
        ensures value { draft_value result ≡ spec.nothing }
        ensures kept { IsKept result }
    {
        Draft {
            begun: false,
            fresh: false,
            wide: false,
            receivers: Receivers::new(alloc),
            versions: Vec::new(alloc),
            processing: Vec::new(alloc),
            declarations: Declarations::new(alloc),
            routes: RouteList::new(alloc),
        }
    }

    /// Closes the current route.
    pub(crate) fn close(&mut self) -> Result<(), AllocError>
        requires { IsKept self.old }
        ensures value { OnOk result (draft_value self.new ≡ spec.closed (draft_value self.old)) }
        ensures current { OnOk result (self.new.routes.current ≡ None) }
        ensures kept { OnOk result (IsKept self.new) }
    {
        self.fresh = false;
        self.routes.close()
    }

    // receiver NAME ADDRESS
    fn receive(
        &mut self,
        alloc: Global,
        at: u64,
        name: &[u8],
        address: &[u8],
    ) -> Result<(), PlanFault>
        requires { IsKept self.old }
        ensures value { Makes self.new result (spec.adds_receiver (draft_value self.old) at name.now address.now) }
        ensures kept { OnOk result (IsKept self.new) }
    {
        self.close()?;
        if self.receivers.number(name).is_some() {
            return Err(PlanFault::Duplicate(at));
        }
        self.receivers.put(alloc, name, address)?;
        Ok(())
    }

    // accept version WORD ...
    fn accept_versions(&mut self, alloc: Global, words: &[&[u8]]) -> Result<(), AllocError>
        requires { IsKept self.old }
        ensures value { OnOk result (draft_value self.new ≡ spec.with_versions (draft_value self.old) (now_all words.now)) }
        ensures kept { OnOk result (IsKept self.new) }
    {
        self.close()?;
        accept(alloc, &mut self.versions, words)
    }

    // accept processing WORD ...
    fn accept_processing(&mut self, alloc: Global, words: &[&[u8]]) -> Result<(), AllocError>
        requires { IsKept self.old }
        ensures value { OnOk result (draft_value self.new ≡ spec.with_processing (draft_value self.old) (now_all words.now)) }
        ensures kept { OnOk result (IsKept self.new) }
    {
        self.close()?;
        accept(alloc, &mut self.processing, words)
    }

    // language 2
    fn widen(&mut self, at: u64) -> Result<(), PlanFault>
        requires { IsKept self.old }
        ensures value { Makes self.new result (spec.widened (draft_value self.old) at) }
        ensures kept { OnOk result (IsKept self.new) }
    {
        if !self.fresh {
            return Err(PlanFault::Syntax(at));
        }
        self.fresh = false;
        self.wide = true;
        Ok(())
    }

    // A route, and where all others are closed.
    fn put_route(&mut self, alloc: Global, at: u64, route: &RouteLine<'_>) -> Result<(), PlanFault>
        requires closed { self.old.routes.current ≡ None }
        requires kept { IsKept self.old }
        ensures value { Makes self.new result (puts_route (draft_value self.old) at route.now) }
        ensures kept { OnOk result (IsKept self.new) }
    {
        if self.routes.claim(alloc, route)? {
            return Err(PlanFault::Duplicate(at));
        }
        let Some(profile) = self.declarations.profile(route.profile) else {
            return Err(PlanFault::UnknownName(at));
        };
        let profile = Arc::try_clone(profile)?;
        self.routes.open(alloc, route, profile)?;
        Ok(())
    }

    // route CODE EVENT from PROFILE, route CODE EVENT of MSH-n WORD ... from PROFILE
    fn open_route(&mut self, alloc: Global, at: u64, route: &RouteLine<'_>) -> Result<(), PlanFault>
        requires { IsKept self.old }
        ensures value { Makes self.new result (adds_said (draft_value self.old) at route.now) }
        ensures kept { OnOk result (IsKept self.new) }
    {
        if !is_said(self.wide, &route.senders) {
            return Err(PlanFault::Syntax(at));
        }
        self.close()?;
        self.put_route(alloc, at, route)
    }

    // The receiver and the map that `to RECEIVER by MAP` adds to the current route.
    fn leg(
        &self,
        at: u64,
        receiver: &[u8],
        map: &[u8],
    ) -> Result<(usize, &Arc<CheckedMap>), PlanFault>
        requires { IsKept self.now }
        ensures fault { IfErr result (λ e. spec.adds_leg (draft_value self.now) at receiver.now map.now ≡ Err e) }
        ensures leads { IfOk result (λ l. Leads self.now at receiver.now map.now l.0 (arc_value l.1.now)) }
    {
        let Some(route) = &self.routes.current else {
            return Err(PlanFault::Syntax(at));
        };
        let Some(number) = self.receivers.number(receiver) else {
            return Err(PlanFault::UnknownName(at));
        };
        if route.goes_to(number) {
            return Err(PlanFault::Duplicate(at));
        }
        let Some(map) = self.declarations.map(map) else {
            return Err(PlanFault::UnknownName(at));
        };
        if map.source().name() != route.profile().name() {
            return Err(PlanFault::WrongMap(at));
        }
        Ok((number, map))
    }

    // to RECEIVER by MAP
    fn deliver(&mut self, at: u64, receiver: &[u8], map: &[u8]) -> Result<(), PlanFault>
        requires { IsKept self.old }
        ensures value { Makes self.new result (spec.adds_leg (draft_value self.old) at receiver.now map.now) }
        ensures kept { OnOk result (IsKept self.new) }
    {
        let (number, map) = self.leg(at, receiver, map)?;
        let map = Arc::try_clone(map)?;
        self.routes.add_leg(number, map)?;
        Ok(())
    }

    // Any line after the first.
    fn below(&mut self, alloc: Global, at: u64, whole: &Line<'_>) -> Result<(), PlanFault>
        requires { IsKept self.old }
        ensures value { Makes self.new result (spec.below (draft_value self.old) at (line whole.now)) }
        ensures kept { OnOk result (IsKept self.new) }
    {
        match whole {
            Line::Begins(_) => Err(PlanFault::Syntax(at)),
            Line::Widens => self.widen(at),
            Line::Receives(name, address) => self.receive(alloc, at, name, address),
            Line::Versions(words) => Ok(self.accept_versions(alloc, words)?),
            Line::Processing(words) => Ok(self.accept_processing(alloc, words)?),
            Line::Opens(_) => Err(PlanFault::Syntax(at)),
            Line::Routes(route) => self.open_route(alloc, at, route),
            Line::Delivers(receiver, map) => self.deliver(at, receiver, map),
        }
    }

    // The first line.
    fn begin(&mut self, at: u64, whole: &Line<'_>) -> Result<(), PlanFault>
        requires { IsKept self.old }
        ensures value { Makes self.new result (spec.first (draft_value self.old) at (line whole.now)) }
        ensures kept { OnOk result (IsKept self.new) }
    {
        let Line::Begins(_) = whole else {
            return Err(PlanFault::Syntax(at));
        };
        self.begun = true;
        self.fresh = true;
        Ok(())
    }

    /// Adds a line of the plan's own; `at` is its number.
    pub(crate) fn take(&mut self, alloc: Global, at: u64, whole: &Line<'_>) -> Result<(), PlanFault>
        requires { IsKept self.old }
        ensures value { Makes self.new result (spec.takes (draft_value self.old) at (line whole.now)) }
        ensures kept { OnOk result (IsKept self.new) }
    {
        if self.begun {
            self.below(alloc, at, whole)
        } else {
            self.begin(at, whole)
        }
    }

    // Adds a profile of the plan.
    fn add_profile(&mut self, alloc: Global, part: &Inner<'_, '_>) -> Result<(), PlanFault>
        requires kept { IsKept self.old }
        requires numbered { IsNumbered (inner part.now) }
        ensures value { Makes self.new result (takes_profile (draft_value self.old) (inner part.now)) }
        ensures kept { OnOk result (IsKept self.new) }
    {
        self.close()?;
        let profile = take_profile(alloc, &self.declarations, part)?;
        self.declarations.add_profile(alloc, profile)?;
        Ok(())
    }

    // Adds a map of the plan.
    fn add_map(&mut self, alloc: Global, part: &Inner<'_, '_>) -> Result<(), PlanFault>
        requires kept { IsKept self.old }
        requires numbered { IsNumbered (inner part.now) }
        ensures value { Makes self.new result (takes_map (draft_value self.old) (inner part.now)) }
        ensures kept { OnOk result (IsKept self.new) }
    {
        self.close()?;
        let map = take_map(alloc, &mut self.declarations, part)?;
        self.declarations.add_map(alloc, map)?;
        Ok(())
    }

    /// Adds a profile or a map of the plan.
    pub(crate) fn add(
        &mut self,
        alloc: Global,
        kind: &Kind,
        part: &Inner<'_, '_>,
    ) -> Result<(), PlanFault>
        requires kept { IsKept self.old }
        requires numbered { IsNumbered (inner part.now) }
        ensures value { Makes self.new result (takes_part (draft_value self.old) kind.now (inner part.now)) }
        ensures kept { OnOk result (IsKept self.new) }
    {
        match kind {
            Kind::Profile => self.add_profile(alloc, part),
            Kind::Map => self.add_map(alloc, part),
        }
    }
}
