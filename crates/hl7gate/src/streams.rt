//! The standard streams that the process was started without.
use std::fs::File;
use std::os::fd::{AsRawFd, IntoRawFd};
use std::rt::Files;

/// How many standard streams there are: the descriptors 0, 1 and 2.
const STREAMS: i32 = 3;

/// Gives `/dev/null` to each standard stream that is closed, to be read alone: so no other file and no connection gets its descriptor.
/// Standard input is then at its end, and a write to one of the other two fails.
pub(crate) fn open_closed<R: Files<File = File>>(rt: &R) {
    for _ in 0..STREAMS {
        let Ok(file) = File::open(rt, "/dev/null") else {
            return;
        };
        if file.as_raw_fd() >= STREAMS {
            return;
        }
        // (it stays open)
        let _ = file.into_raw_fd();
    }
}
