//! Failures of rules.
ghost use Rattle.std.specs.Prelude.{◌≡◌, OnOk};
ghost use Rattle.gw_resolve.specs.Failures.{at_line, fails};
ghost use Rattle.gw_resolve.specs.Seen.{Notes, mark as seen_mark};

use crate::interval::Interval;
use std::alloc::AllocError;

/// The line at which a map breaks a rule, and the part of the target that fails.
#[derive(Clone, Copy, Drop)]
pub struct FailureSite {
    pub line: u32,
    /// Of a node within what the line makes that nothing gives its number, from 0.
    pub child: Option<usize>,
    /// No item gives the node, or no rule the field.
    pub missing: bool,
    /// The number of a field of the segment, 0 where no part of the segment is meant.
    pub field: u32,
    /// The number of a component, 0 where the field is meant.
    pub comp: u32,
    /// The number of a subcomponent, 0 where the component is meant.
    pub sub: u32,
    /// How often it comes, where the rule fails by that; counts end at the cap.
    pub count: Option<Interval>,
}

/// The number of a rule, and what breaks it.
#[derive(Clone, Copy, Drop)]
pub struct Failure {
    pub rule: u8,
    pub mark: FailureSite,
}

/// All that a line makes. It takes no memory.
pub fn at_line(line: u32) -> FailureSite
    ensures { seen_mark result ≡ at_line line }
{
    FailureSite {
        line,
        child: None,
        missing: false,
        field: 0,
        comp: 0,
        sub: 0,
        count: None,
    }
}

/// Records the rule's failure at the site, where the rule is broken. The one error is allocation failure.
pub fn note(
    found: &mut Vec<Failure>,
    rule: u8,
    mark: FailureSite,
    broken: bool,
) -> Result<(), AllocError>
    ensures { OnOk result (Notes found.old found.new (fails rule (seen_mark mark) broken)) }
{
    if !broken {
        return Ok(());
    }
    found.push(Failure { rule, mark })?;
    Ok(())
}
