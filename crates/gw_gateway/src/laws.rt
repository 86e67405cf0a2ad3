//! What holds of the definitions.
ghost use Rattle.std.specs.Prelude.{◌≡◌, ℕ, List, Some, slice_get, take};
ghost use Rattle.gw_due.specs.Events.{Event, Accepted};
ghost use Rattle.gw_due.specs.Due.{names, plan};
ghost use Rattle.gw_due.specs.Lawful.{Lawful};
ghost use Rattle.gw_gateway.specs.Routing.{IsRoutedBy};

/// In a lawful log each message that was accepted was routed by the plan whose record stands last before its own, and by no other:
/// so a swap never mixes two plans.
pub fn one_plan_routes()
    ensures { (log : List Event) (place number : ℕ) (to bytes : List ℕ) → Lawful IsRoutedBy log → slice_get log place ≡ Some (Accepted number to bytes) →
        IsRoutedBy (names (take place log)) (plan (take place log)) to bytes }
{}
