//! The order of faults: by line, then by number.
ghost use Rattle.std.specs.Prelude.{◌≡◌};
ghost use Rattle.gw_plan.specs.Numbers.{is_before, earlier, earliest};

use crate::fault::PlanFault;

// Whether one fault comes before another.
fn is_before(one: PlanFault, other: PlanFault) -> bool
    ensures { result ≡ is_before one other }
{
    one.line() < other.line() || (one.line() == other.line() && one.number() < other.number())
}

/// The earlier of two faults, the first of which may be absent.
pub(crate) fn earlier(found: Option<PlanFault>, fault: PlanFault) -> PlanFault
    ensures { result ≡ earlier found fault }
{
    match found {
        None => fault,
        Some(other) => {
            if is_before(other, fault) {
                return other;
            }
            fault
        }
    }
}

/// The earlier of two faults, each of which may be absent.
pub(crate) fn earliest(found: Option<PlanFault>, fault: Option<PlanFault>) -> Option<PlanFault>
    ensures { result ≡ earliest found fault }
{
    match fault {
        None => found,
        Some(fault) => Some(earlier(found, fault)),
    }
}
