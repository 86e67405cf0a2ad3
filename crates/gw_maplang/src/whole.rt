//! The whole map, after all of its lines.
ghost use Rattle.std.specs.Prelude.{◌≡◌, map, IfOk, false};
ghost use Rattle.gw_maplang.specs.Fault.{is_second, wide_tables};
ghost use Rattle.gw_maplang.specs.Seen.{above, wide_table, map_value};
ghost use Rattle.gw_lines.specs.Grammar.{AllTaken};
ghost use Rattle.gw_maplang.specs.Fault.{grammar};
ghost use Rattle.gw_maplang.specs.Whole as spec;

use crate::build::{Built, Head, build, head_of};
use crate::columns::{Wide, columns};
use crate::form::Line;
use crate::map::Map;
use indexmap::IndexMap;
use std::alloc::{AllocError, Global};

/// The map that these lines spell. No group or flat is open.
pub(crate) fn map_of(
    alloc: Global,
    second: bool,
    lines: Vec<Line>,
    tables: &IndexMap<Vec<u8>, Wide>,
) -> Result<Map, AllocError>
    requires second { second ≡ is_second (above lines.items) }
    requires tables { map wide_table tables.now.entries ≡ wide_tables (above lines.items) }
    requires taken { AllTaken grammar (above lines.items) }
    requires closed { spec.is_unclosed (above lines.items) ≡ false }
    ensures { IfOk result (λ m. map_value m ≡ spec.map_of (above lines.entry.items)) }
{
    let Head {
        line,
        name,
        source,
        target,
    } = head_of(alloc, &lines)?;
    let tables = columns(alloc, second, tables)?;
    let Built { items, drops } = build(alloc, lines)?;
    Ok(Map {
        name,
        source,
        target,
        line,
        tables,
        items,
        drops,
    })
}
