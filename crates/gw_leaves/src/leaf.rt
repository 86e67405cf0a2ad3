//! Which texts can be read, and what a target subcomponent asks of them.
ghost use Rattle.std.specs.Prelude.{◌≡◌, option_and_then, option_copied};
ghost use Rattle.gw_profile.specs.Seen.{sub as sub_value};
ghost use Rattle.gw_profile.specs.Value.{table_of as table_in};
ghost use Rattle.gw_maplang.specs.Seen.{now};
ghost use Rattle.gw_leaves.specs.Leaves as spec;
ghost use Rattle.gw_profile.specs.Numbered.{some_sub};
ghost use Rattle.gw_leaves.specs.Uses.{sources_value};
ghost use Rattle.gw_leaves.specs.own.Held.{shape_at};
ghost use Rattle.gw_leaves.specs.Texts.{shape_value, some_items};

use crate::known::at_field;
use crate::presence::{is_absent, is_always};
use crate::shape::{Presence, Shape};
use crate::sources::Sources;
use crate::texts::{may_be_long, may_be_outside};
use gw_profile::{Count, Profile, SubShape, Table, Usage, comp_of, sub_of};
use gw_resolve::Source;

/// The table of this name.
pub(crate) fn table_named<'a>(profile: &'a Profile, name: Option<&[u8]>) -> Option<&'a Table>
    ensures { option_copied result ≡ option_and_then (λ n. table_in n profile.now.tables) (now name.entry) }
{
    profile.table(name?)
}

/// The subcomponent that a source reads.
pub(crate) fn source_sub<'e>(
    sources: Sources<'_, '_, '_, 'e, '_>,
    source: &Source,
) -> Option<&'e SubShape>
    ensures { (shape_at sources.entry source.now).values ≡ spec.sub_values (sources_value sources.entry).profile (some_sub result) }
{
    match source {
        Source::OfField(from, at) => sub_of(comp_of(at_field(sources, from), at.comp), at.sub),
        Source::OfCurrent(at) => sub_of(comp_of(sources.current, at.comp), at.sub),
    }
}

// ---- what a subcomponent asks

fn meets_usage(usage: Usage, presence: Presence) -> bool
    ensures { result ≡ spec.meets usage presence }
{
    match usage {
        Usage::R => is_always(presence),
        Usage::X => is_absent(presence),
        _ => true,
    }
}

/// Whether what can stand there always meets the subcomponent, with these values of its table; `count` is what the lengths of its profile count. It takes no memory.
pub fn included(shape: &Shape, sub: &SubShape, table: Option<&[Vec<u8>]>, count: Count) -> bool
    ensures { result ≡ spec.is_included count (shape_value shape.now) (sub_value sub.now) (some_items table.entry) }
{
    meets_usage(sub.usage, shape.presence)
        && (is_absent(shape.presence)
            || !may_be_outside(&shape.values, table) && !may_be_long(&shape.values, sub.len, count))
}
