//! The failures of labels, while a map is walked.
ghost use Rattle.gw_resolve.specs.Outcome.{Hides};

use crate::failure::Failure;

/// The failures that are found: of source paths (1 and 2), and of target labels (3).
#[derive(Drop)]
pub(crate) struct NameFailures {
    pub(crate) paths: Vec<Failure>,
    pub(crate) targets: Vec<Failure>,
}

/// Takes back those behind the kept ones, unless they are shown.
pub(crate) fn hide(found: &mut Vec<Failure>, shown: bool, kept: usize)
    ensures { Hides found.old.items found.new.items shown kept }
{
    if shown {
        return;
    }
    found.truncate(kept);
}
