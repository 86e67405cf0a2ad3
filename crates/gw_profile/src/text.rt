//! Parsing of a profile.
ghost use Rattle.gw_lines.specs.Reading.{Gives};
ghost use Rattle.gw_profile.specs.declared.fault.ProfileFault.TheVariants as fault;
ghost use Rattle.gw_profile.specs.Seen.{profile_value};
ghost use Rattle.gw_profile.specs.Whole.{spelled};

use crate::fault::ProfileFault;
use crate::profile::Profile;
use crate::reader::Reader;
use gw_lines::read_text;
use std::alloc::Global;

const MAX_BYTES: usize = 1_048_576;

const MAX_LINES: usize = 10_000;

/// Parses a profile. Returns it, or the first fault of the text.
pub fn parse(alloc: Global, text: &[u8]) -> Result<Profile, ProfileFault>
    ensures { Gives fault.Memory profile_value result (spelled text.now) }
{
    read_text(alloc, Reader::new(alloc), MAX_BYTES, MAX_LINES, text)
}
