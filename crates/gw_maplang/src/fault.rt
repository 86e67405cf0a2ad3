//! Why a text is no map.

use gw_lines::TextFault;
use std::alloc::{AllocError, AllocFailed};
use thiserror::Error;

/// Why a text is no map. A number in it is that of a line, from 1.
#[derive(Clone, Copy, PartialEq, Eq, Debug, Drop, Error)]
pub enum MapFault {
    #[error("out of memory")]
    Memory,
    #[error("line {0} is no line of a map")]
    Syntax(u32),
    #[error("line {0} names a table that does not stand above it")]
    UnknownTable(u32),
    #[error("line {0} has a value that is no canonical text")]
    BadConstant(u32),
    #[error("line {0} says again what stands already")]
    Duplicate(u32),
    #[error("line {0} is nested too deep")]
    TooDeep(u32),
    #[error("the text is too large")]
    TooLarge,
}

impl MapFault {
    ghost use Rattle.std.specs.Prelude.{◌≡◌};
    ghost use Rattle.gw_maplang.specs.Numbers.{number};

    /// The number of the fault, from 1 (allocation failure) to 7. It takes no memory.
    pub fn number(&self) -> u8
        ensures { result ≡ number self.now }
    {
        match self {
            MapFault::Memory => 1,
            MapFault::Syntax(_) => 2,
            MapFault::UnknownTable(_) => 3,
            MapFault::BadConstant(_) => 4,
            MapFault::Duplicate(_) => 5,
            MapFault::TooDeep(_) => 6,
            MapFault::TooLarge => 7,
        }
    }
}

impl From<AllocError> for MapFault {
    ghost use Rattle.std.specs.Prelude.{◌≡◌};
    ghost use Rattle.gw_maplang.specs.declared.fault.MapFault.TheVariants.{Memory};

    ghost from_gives = { λ _ e. e ≡ Memory };

    fn from(_error: AllocError) -> MapFault {
        MapFault::Memory
    }
}

impl<T: Drop> From<AllocFailed<T>> for MapFault {
    ghost use Rattle.std.specs.Prelude.{◌≡◌};
    ghost use Rattle.gw_maplang.specs.declared.fault.MapFault.TheVariants.{Memory};

    ghost from_gives = { λ _ e. e ≡ Memory };

    fn from(_error: AllocFailed<T>) -> MapFault {
        MapFault::Memory
    }
}

impl TextFault for MapFault {
    ghost use Rattle.gw_maplang.specs.declared.fault.MapFault.TheVariants.{Memory, Syntax, TooLarge};

    ghost memory = { Memory };

    ghost broken = { Syntax };

    ghost too_large = { TooLarge };

    fn memory() -> MapFault {
        MapFault::Memory
    }

    fn broken(at: u32) -> MapFault {
        MapFault::Syntax(at)
    }

    fn too_large() -> MapFault {
        MapFault::TooLarge
    }
}
