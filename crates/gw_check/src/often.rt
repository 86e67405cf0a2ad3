//! The rules on how often a field, a segment or a group comes.
ghost use Rattle.std.specs.Prelude.{◌≡◌, OnOk};
ghost use Rattle.gw_check.specs.Fields.{is_expected};
ghost use Rattle.gw_check.specs.own.Seen as seen;
ghost use Rattle.gw_resolve.specs.Intervals as intervals;
ghost use Rattle.gw_resolve.specs.Seen.{Notes, interval, mark as seen_mark, saturated};

use gw_leaves::is_forbidden;
use gw_profile::{Card, Usage};
use gw_resolve::{Failure, FailureSite, Interval, note};
use std::alloc::AllocError;

/// How often the target asks something to come, and at which line a failure is reported.
#[derive(Clone, Copy)]
pub(crate) struct Asked {
    /// What gives it, or what should hold it where it is missing.
    pub(crate) mark: FailureSite,
    pub(crate) usage: Usage,
    pub(crate) card: Card,
    /// Nothing gives it.
    pub(crate) is_missing: bool,
}

fn is_expected(usage: Usage) -> bool
    ensures { result ≡ is_expected usage }
{
    matches!(usage, Usage::RE)
}

fn check_capped(
    found: &mut Vec<Failure>,
    mark: FailureSite,
    asked: Asked,
    count: Interval,
) -> Result<(), AllocError>
    ensures { OnOk result (Notes found.old found.new (seen.capped_failures (seen_mark mark) asked (interval count))) }
{
    let is_barred = is_forbidden(asked.usage);
    let is_lacking = is_expected(asked.usage) && asked.is_missing;
    let is_too_often = !is_barred && !count.is_within(asked.card.max);
    let is_unwanted = is_barred && !count.is_never();
    note(found, 4, mark, is_too_often)?;
    note(found, 5, mark, count.least < u64::from(asked.card.min))?;
    note(found, 8, mark, is_lacking)?;
    note(found, 11, mark, is_unwanted)
}

/// The failures of what comes so often. A count that ends at the cap is as good as the whole one.
pub(crate) fn check_often(
    found: &mut Vec<Failure>,
    asked: Asked,
    count: Interval,
) -> Result<(), AllocError>
    ensures { (full : intervals.Interval) → interval count ≡ saturated full → OnOk result (Notes found.old found.new (seen.often_failures asked full)) }
{
    let mark = FailureSite {
        missing: asked.is_missing,
        count: Some(count),
        ..asked.mark
    };
    check_capped(found, mark, asked, count)
}
