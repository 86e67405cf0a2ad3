//! The segments of a message that a profile knows by their names.
ghost use Rattle.std.specs.Prelude.{◌≡◌, IfOk};
ghost use Rattle.gw_profile.specs.Seen.{forest};
ghost use Rattle.gw_validate.specs.Conforming.{named, numbers};

use gw_er7::Message;
use gw_profile::Profile;
use std::alloc::{AllocError, Global};

/// The name of the segment of this number. It takes no memory.
pub(crate) fn name_at(message: &Message, number: usize) -> [u8; 3]
    ensures { result ≡ named message.now number }
{
    if number >= message.segment_count() {
        return [0, 0, 0];
    }
    message.segment(number).name()
}

/// The numbers of the segments whose names the profile has.
pub(crate) fn listed(
    alloc: Global,
    profile: &Profile,
    message: &Message,
) -> Result<Vec<usize>, AllocError>
    ensures { IfOk result (λ found. found.items ≡ numbers (forest profile.now.nodes) message.now) }
{
    let mut found = Vec::with_capacity(alloc, message.segment_count())?;
    for number in 0..message.segment_count() {
        if profile.knows(name_at(message, number)) {
            found.push(number)?;
        }
    }
    Ok(found)
}
