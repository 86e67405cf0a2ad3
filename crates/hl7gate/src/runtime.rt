//! What the program asks of the system, as one bound.
use std::fs::File;
use std::io::{Eprint, Print, Read};
use std::random::RandomSource;
use std::rt::Files;
use std::time::Clock;

/// The system, but for what may not return, and the network: a function that waits, starts threads or connects says so beside it.
pub(crate) trait Runtime: Clock
    + Files<File = File, Dir: Read + Drop + Send + Sync>
    + Print
    + Eprint
    + RandomSource
    + AllocGlobal
    + Sync
    + Clone
    + Drop {}

impl<
    T: Clock
        + Files<File = File, Dir: Read + Drop + Send + Sync>
        + Print
        + Eprint
        + RandomSource
        + AllocGlobal
        + Sync
        + Clone
        + Drop,
> Runtime for T {}
