//! The rules on what can stand at one place: usage, table and length.
ghost use Rattle.std.specs.Prelude.{◌≡◌, OnOk};
ghost use Rattle.gw_validate.specs.Breaches.{is_required, is_forbidden};
ghost use Rattle.gw_resolve.specs.Seen.{Notes};
ghost use Rattle.gw_leaves.specs.own.Seen as seen;

use crate::context::MapContext;
use crate::given::{LeafSource, may_be_long, may_be_unlisted};
use crate::presence::{is_absent, is_always};
use crate::shape::Presence;
use gw_profile::{SubShape, Usage};
use gw_resolve::{Failure, FailureSite, note};
use std::alloc::AllocError;

pub(crate) fn is_required(usage: Usage) -> bool
    ensures { result ≡ is_required usage }
{
    matches!(usage, Usage::R)
}

/// Whether the usage is X. It takes no memory.
pub fn is_forbidden(usage: Usage) -> bool
    ensures { result ≡ is_forbidden usage }
{
    matches!(usage, Usage::X)
}

/// What a part of a field asks by its usage: something required isn't always there, or something forbidden may be.
pub(crate) fn check_usage(
    found: &mut Vec<Failure>,
    mark: FailureSite,
    usage: Usage,
    presence: Presence,
) -> Result<(), AllocError>
    ensures { OnOk result (Notes found.old found.new (seen.usage_failures mark usage presence)) }
{
    note(found, 5, mark, is_required(usage) && !is_always(presence))?;
    note(found, 11, mark, is_forbidden(usage) && !is_absent(presence))
}

/// What can stand there has another value than its table's, or is too long.
pub(crate) fn check_values(
    found: &mut Vec<Failure>,
    context: &MapContext<'_>,
    mark: FailureSite,
    presence: Presence,
    given: LeafSource<'_>,
    sub: &SubShape,
) -> Result<(), AllocError>
    ensures { OnOk result (Notes found.old found.new (seen.value_failures context.now mark presence given.entry sub.now)) }
{
    if is_absent(presence) {
        return Ok(());
    }
    let is_unlisted = may_be_unlisted(context, given, sub)?;
    note(found, 6, mark, is_unlisted)?;
    let is_long = may_be_long(context, given, sub)?;
    note(found, 7, mark, is_long)
}
