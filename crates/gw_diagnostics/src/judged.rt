//! What the rules say of a map between two profiles.
ghost use Rattle.std.specs.Prelude.{IfOk};
ghost use Rattle.gw_diagnostics.specs.Judging.{IsJudged};

use crate::advice::Refused;
use gw_check::{CheckedMap, examine};
use gw_maplang::Map;
use gw_profile::Profile;
use std::alloc::{AllocError, Global};
use std::sync::Arc;

/// The profiles between which a map goes.
pub struct ProfilePair {
    pub source: Arc<Profile>,
    pub target: Arc<Profile>,
}

// (this and the next by hand, so that no crate above proves again how their fields are dropped)
impl Drop for ProfilePair {
    fn drop(self) {
        let ProfilePair {
            source: _,
            target: _,
        } = self;
    }
}

/// What the rules say of a map.
pub enum Judged {
    Allowed(CheckedMap),
    Refused(Refused),
}

impl Drop for Judged {
    fn drop(self) {
        match self {
            Judged::Allowed(_) => {}
            Judged::Refused(_) => {}
        }
    }
}

/// What the rules say of a map between two profiles. The one error is an allocation failure.
pub fn judge(alloc: Global, sides: &ProfilePair, map: Map) -> Result<Judged, AllocError>
    ensures { IfOk result (IsJudged sides.now map) }
{
    match examine(alloc, sides.source.clone()?, sides.target.clone()?, map) {
        Ok(checked) => Ok(Judged::Allowed(checked)),
        Err(gw_check::Refusal::Memory(_)) => Err(AllocError),
        Err(
            gw_check::Refusal::Rules {
                least,
                found,
                used,
                map,
            },
        ) => Ok(Judged::Refused(Refused {
            least,
            failures: found,
            used,
            map,
        })),
    }
}
