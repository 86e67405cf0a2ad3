//! Why a text is no profile.

use gw_lines::TextFault;
use std::alloc::{AllocError, AllocFailed};
use thiserror::Error;

/// Why a text is no profile. A number in it is that of a line, from 1.
#[derive(Clone, Copy, PartialEq, Eq, Debug, Drop, Error)]
pub enum ProfileFault {
    #[error("out of memory")]
    Memory,
    #[error("line {0} is no line of a profile")]
    Syntax(u32),
    #[error("usage and cardinality of line {0} do not agree")]
    Usage(u32),
    #[error("line {0} says again what stands already")]
    Duplicate(u32),
    #[error("line {0} names a table that does not stand above it")]
    UnknownTable(u32),
    #[error("the group of line {0} may be empty")]
    EmptyGroup(u32),
    #[error("a segment of this name can belong to two places")]
    Ambiguous([u8; 3]),
    #[error("the profile does not begin with the one segment MSH R 1..1")]
    Header,
    #[error("the group of line {0} is nested too deep")]
    TooDeep(u32),
    #[error("the text is too large")]
    TooLarge,
}

impl ProfileFault {
    ghost use Rattle.std.specs.Prelude.{◌≡◌};
    ghost use Rattle.gw_profile.specs.Numbers.{number};

    /// The number of the fault, from 1 (allocation failure) to 10. It takes no memory.
    pub fn number(&self) -> u8
        ensures { result ≡ number self.now }
    {
        match self {
            ProfileFault::Memory => 1,
            ProfileFault::Syntax(_) => 2,
            ProfileFault::Usage(_) => 3,
            ProfileFault::Duplicate(_) => 4,
            ProfileFault::UnknownTable(_) => 5,
            ProfileFault::EmptyGroup(_) => 6,
            ProfileFault::Ambiguous(_) => 7,
            ProfileFault::Header => 8,
            ProfileFault::TooDeep(_) => 9,
            ProfileFault::TooLarge => 10,
        }
    }
}

impl From<AllocError> for ProfileFault {
    ghost use Rattle.std.specs.Prelude.{◌≡◌};
    ghost use Rattle.gw_profile.specs.declared.fault.ProfileFault.TheVariants.{Memory};

    ghost from_gives = { λ _ e. e ≡ Memory };

    fn from(_error: AllocError) -> ProfileFault {
        ProfileFault::Memory
    }
}

impl<T: Drop> From<AllocFailed<T>> for ProfileFault {
    ghost use Rattle.std.specs.Prelude.{◌≡◌};
    ghost use Rattle.gw_profile.specs.declared.fault.ProfileFault.TheVariants.{Memory};

    ghost from_gives = { λ _ e. e ≡ Memory };

    fn from(_error: AllocFailed<T>) -> ProfileFault {
        ProfileFault::Memory
    }
}

impl TextFault for ProfileFault {
    ghost use Rattle.gw_profile.specs.declared.fault.ProfileFault.TheVariants.{Memory, Syntax, TooLarge};

    ghost memory = { Memory };

    ghost broken = { Syntax };

    ghost too_large = { TooLarge };

    fn memory() -> ProfileFault {
        ProfileFault::Memory
    }

    fn broken(at: u32) -> ProfileFault {
        ProfileFault::Syntax(at)
    }

    fn too_large() -> ProfileFault {
        ProfileFault::TooLarge
    }
}
