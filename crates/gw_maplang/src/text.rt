//! Parsing of a map.
ghost use Rattle.gw_lines.specs.Reading.{Gives};
ghost use Rattle.gw_maplang.specs.declared.fault.MapFault.TheVariants as fault;
ghost use Rattle.gw_maplang.specs.Seen.{map_value};
ghost use Rattle.gw_maplang.specs.Whole.{spelled};

use crate::fault::MapFault;
use crate::map::Map;
use crate::reader::Reader;
use gw_lines::read_text;
use std::alloc::Global;

const MAX_BYTES: usize = 1_048_576;

const MAX_LINES: usize = 10_000;

/// Parses a map. Returns it, or the first fault of the text.
pub fn parse(alloc: Global, text: &[u8]) -> Result<Map, MapFault>
    ensures { Gives fault.Memory map_value result (spelled text.now) }
{
    read_text(alloc, Reader::new(alloc), MAX_BYTES, MAX_LINES, text)
}
