//! The routes of a plan as it is built.
ghost use Rattle.std.specs.Prelude.{◌≡◌, [], IfOk, OnOk, IfSome, None, Some, false};
ghost use Rattle.std.specs.Option.{option_map};
ghost use Rattle.std.specs.Arc.{arc_value};
ghost use Rattle.gw_plan.specs.Held.{longer, IsNewLeg};
ghost use Rattle.gw_plan.specs.own.SoFar.{all_routes, is_line_taken, opened, IsListed, IsClaimed};

use crate::form::RouteLine;
use crate::index::Index;
use crate::route::Route;
use gw_check::CheckedMap;
use gw_profile::Profile;
use std::alloc::{AllocError, Global};
use std::sync::Arc;

/// Routes in the order of their lines. The current one may get more receivers.
#[derive(Drop)]
pub(crate) struct RouteList {
    pub(crate) closed: Vec<Route>,
    pub(crate) current: Option<Route>,
    pub(crate) index: Index,
}

impl RouteList {
    /// No routes.
    pub(crate) fn new(alloc: Global) -> RouteList
        ensures closed { result.closed.items ≡ [] }
        ensures current { result.current ≡ None }
        ensures listed { IsListed result }
    {
        RouteList {
            closed: Vec::new(alloc),
            current: None,
            index: Index::new(alloc),
        }
    }

    /// Closes the current route.
    pub(crate) fn close(&mut self) -> Result<(), AllocError>
        requires { IsListed self.old }
        ensures closed { OnOk result (self.new.closed.items ≡ all_routes self.old) }
        ensures current { OnOk result (self.new.current ≡ None) }
        ensures listed { OnOk result (IsListed self.new) }
    {
        if let Some(route) = self.current.take() {
            self.closed.push(route)?;
        }
        Ok(())
    }

    /// Whether a route takes already what this one would. Else it is claimed. None is current.
    pub(crate) fn claim(&mut self, alloc: Global, route: &RouteLine<'_>) -> Result<bool, AllocError>
        requires closed { self.old.current ≡ None }
        requires listed { IsListed self.old }
        ensures closed { self.new.closed.items ≡ self.old.closed.items }
        ensures current { self.new.current ≡ None }
        ensures taken { IfOk result (λ b. b ≡ is_line_taken route.now self.old.closed.items) }
        ensures claimed { IfOk result (λ b. b ≡ false → IsClaimed route.now self.new) }
    {
        let number = self.closed.as_slice().len();
        match self
            .index
            .push(alloc, route.code, route.event, &route.senders, number)
        {
            Err(error) => Err(error),
            Ok(added) => Ok(!added),
        }
    }

    /// Opens a route without receivers, and makes it the current one. What it takes was claimed.
    pub(crate) fn open(
        &mut self,
        alloc: Global,
        route: &RouteLine<'_>,
        profile: Arc<Profile>,
    ) -> Result<(), AllocError>
        requires closed { self.old.current ≡ None }
        requires claimed { IsClaimed route.now self.old }
        ensures closed { OnOk result (self.new.closed.items ≡ self.old.closed.items) }
        ensures current { OnOk result (self.new.current ≡ Some (opened route.now (arc_value profile))) }
        ensures listed { OnOk result (IsListed self.new) }
    {
        let route = Route::new(alloc, route, profile)?;
        self.current = Some(route);
        Ok(())
    }

    /// Adds a receiver to the current route.
    pub(crate) fn add_leg(
        &mut self,
        receiver: usize,
        map: Arc<CheckedMap>,
    ) -> Result<(), AllocError>
        requires leg { IfSome self.old.current (IsNewLeg receiver (arc_value map)) }
        requires listed { IsListed self.old }
        ensures closed { OnOk result (self.new.closed.items ≡ self.old.closed.items) }
        ensures current { OnOk result (self.new.current ≡ option_map (longer receiver (arc_value map)) self.old.current) }
        ensures listed { OnOk result (IsListed self.new) }
    {
        match &mut self.current {
            None => Err(AllocError),
            Some(route) => route.add_leg(receiver, map),
        }
    }
}
