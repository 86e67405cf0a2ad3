//! What is read at a place, and what a subcomponent of the target asks of it.
ghost use Rattle.std.specs.Prelude.{is_some, ◌≡◌, IfOk};
ghost use Rattle.gw_profile.specs.Numbered.{some_sub};
ghost use Rattle.gw_profile.specs.Seen.{sub as sub_value};
ghost use Rattle.gw_maplang.specs.Seen.{now};
ghost use Rattle.gw_leaves.specs.Components.{table_values};
ghost use Rattle.gw_leaves.specs.Leaves as leaves;
ghost use Rattle.gw_leaves.specs.Texts.{rows_value};
ghost use Rattle.gw_leaves.specs.own.Comparisons as spec;
ghost use Rattle.gw_leaves.specs.own.Held.{given_texts, source_values};

use crate::comparison::Origin;
use crate::context::MapContext;
use crate::leaf::table_named;
use crate::texts::may_exceed;
use gw_maplang::Table as Rows;
use gw_profile::SubShape;
use std::alloc::AllocError;

/// What is read at a place: a subcomponent of the source, as it is or looked up in the table of this name.
#[derive(Clone, Copy)]
pub(crate) struct LeafSource<'a> {
    pub(crate) rows: Option<&'a [u8]>,
    pub(crate) sub: Option<&'a SubShape>,
}

/// The table that a subcomponent names.
pub(crate) fn table_of<'a>(sub: Option<&'a SubShape>) -> Option<&'a [u8]>
    ensures { now result ≡ spec.table_of (some_sub sub.entry) }
{
    Some(sub?.table.as_ref()?.as_slice())
}

// The length of a subcomponent.
fn len_of(sub: Option<&SubShape>) -> Option<u32>
    ensures { result ≡ spec.len_of (some_sub sub.entry) }
{
    sub?.len
}

/// Where the texts are from that are read at a place.
pub(crate) fn origin_of<'a>(given: LeafSource<'a>) -> Origin<'a>
    ensures rows { now result.0 ≡ now given.entry.rows }
    ensures table { now result.1 ≡ spec.table_of (some_sub given.entry.sub) }
{
    (given.rows, table_of(given.sub))
}

// Whether any text can be read.
fn is_any(origin: Origin<'_>) -> bool
    ensures { result ≡ spec.is_any (now origin.entry.0) (now origin.entry.1) }
{
    origin.0.is_none() && origin.1.is_none()
}

/// Whether what can stand there may be missing from the table of this subcomponent of the target.
pub(crate) fn may_be_unlisted(
    context: &MapContext<'_>,
    given: LeafSource<'_>,
    sub: &SubShape,
) -> Result<bool, AllocError>
    ensures { IfOk result (λ b. b ≡ leaves.may_be_unlisted (given_texts context.now given.entry) (table_values context.now.target.tables (sub_value sub.now))) }
{
    let name = table_of(Some(sub));
    if table_named(context.target(), name).is_none() {
        return Ok(false);
    }
    let origin = origin_of(given);
    if is_any(origin) {
        return Ok(true);
    }
    context.some_given(origin, name, len_of(given.sub), None)
}

/// Whether what can stand there may be longer than this subcomponent of the target takes.
pub(crate) fn may_be_long(
    context: &MapContext<'_>,
    given: LeafSource<'_>,
    sub: &SubShape,
) -> Result<bool, AllocError>
    ensures { IfOk result (λ b. b ≡ leaves.may_be_long context.now.target.count (given_texts context.now given.entry) (sub_value sub.now).len) }
{
    let Some(most) = sub.len else {
        return Ok(false);
    };
    let len = len_of(given.sub);
    let origin = origin_of(given);
    if is_any(origin) {
        let Some(len) = len else {
            return Ok(true);
        };
        let (count, to) = (context.source().count(), context.target().count());
        return Ok(may_exceed(count, len, to, most));
    }
    context.some_given(origin, None, len, Some(most))
}

fn has_other(rows: Option<&Rows>) -> bool
    ensures { result ≡ is_some (rows_value rows.entry).other }
{
    rows.is_some_and(|rows| rows.other().is_some())
}

/// Whether a text of this subcomponent may have no row in the table of this name, and nothing stands for it.
pub(crate) fn is_unrowed(context: &MapContext<'_>, name: &[u8], sub: Option<&SubShape>) -> bool
    ensures { result ≡ spec.is_unrowed (spec.rows_named context.now.map.tables name.now) (source_values context.now sub.entry) }
{
    let rows = context.map().table(name);
    if has_other(rows) {
        return false;
    }
    let Some(listed) = table_of(sub) else {
        return true;
    };
    context.some_unrowed(name, listed, len_of(sub))
}
