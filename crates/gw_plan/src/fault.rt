//! Why a text is no plan.

use std::alloc::{AllocError, AllocFailed};
use thiserror::Error;

/// Why a text is no plan. Lines are numbered in the plan, from 1.
#[derive(Clone, Copy, PartialEq, Eq, Debug, Drop, Error)]
pub enum PlanFault {
    #[error("out of memory")]
    Memory,
    #[error("line {0} is no line of a plan")]
    Syntax(u64),
    /// `number` is the number of the profile's fault.
    #[error("line {line}: fault {number} of the profile")]
    Profile { line: u64, number: u8 },
    /// `number` is the number of the map's fault.
    #[error("line {line}: fault {number} of the map")]
    Map { line: u64, number: u8 },
    /// The map breaks a rule of the checker, by its number from 1.
    #[error("line {line} breaks rule {rule} of maps")]
    Check { line: u64, rule: u8 },
    #[error("line {0} says again what stands already")]
    Duplicate(u64),
    #[error("line {0} names what does not stand above it")]
    UnknownName(u64),
    #[error("the map of line {0} is not one from the profile of its route")]
    WrongMap(u64),
    #[error("the text is too large")]
    TooLarge,
}

impl PlanFault {
    ghost use Rattle.std.specs.Prelude.{◌≡◌};
    ghost use Rattle.gw_plan.specs.Numbers.{number, line_of};

    /// The number of the fault, from 1 (allocation failure) to 9. It takes no memory.
    pub fn number(&self) -> u8
        ensures { result ≡ number self.now }
    {
        match self {
            PlanFault::Memory => 1,
            PlanFault::Syntax(_) => 2,
            PlanFault::Profile { .. } => 3,
            PlanFault::Map { .. } => 4,
            PlanFault::Check { .. } => 5,
            PlanFault::Duplicate(_) => 6,
            PlanFault::UnknownName(_) => 7,
            PlanFault::WrongMap(_) => 8,
            PlanFault::TooLarge => 9,
        }
    }

    /// The number of its line, from 1; 0 if it belongs to no line. It takes no memory.
    pub fn line(&self) -> u64
        ensures { result ≡ line_of self.now }
    {
        match self {
            PlanFault::Memory => 0,
            PlanFault::Syntax(line) => *line,
            PlanFault::Profile { line, .. } => *line,
            PlanFault::Map { line, .. } => *line,
            PlanFault::Check { line, .. } => *line,
            PlanFault::Duplicate(line) => *line,
            PlanFault::UnknownName(line) => *line,
            PlanFault::WrongMap(line) => *line,
            PlanFault::TooLarge => 0,
        }
    }
}

impl From<AllocError> for PlanFault {
    ghost use Rattle.std.specs.Prelude.{◌≡◌};
    ghost use Rattle.gw_plan.specs.declared.fault.PlanFault.TheVariants.{Memory};

    ghost from_gives = { λ _ e. e ≡ Memory };

    fn from(_error: AllocError) -> PlanFault {
        PlanFault::Memory
    }
}

impl<T: Drop> From<AllocFailed<T>> for PlanFault {
    ghost use Rattle.std.specs.Prelude.{◌≡◌};
    ghost use Rattle.gw_plan.specs.declared.fault.PlanFault.TheVariants.{Memory};

    ghost from_gives = { λ _ e. e ≡ Memory };

    fn from(_error: AllocFailed<T>) -> PlanFault {
        PlanFault::Memory
    }
}
