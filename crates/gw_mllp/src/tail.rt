//! Where the end of a stream is.

/// Where the end of the stream so far is.
#[derive(Drop)]
pub(crate) enum Tail {
    /// Between two blocks.
    Between,
    /// In a block, after these bytes of it.
    Within(Vec<u8>),
    /// In a block that is longer than allowed.
    Overlong,
}
