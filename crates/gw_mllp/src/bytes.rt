//! The bytes of a frame, and the limit of a block's content.
ghost use Rattle.std.specs.Prelude.{◌≡◌, ◌<◌, ◌-◌, ◌↔◌, length, slice_index, IsTrue};

/// Begins a block.
pub(crate) const VT: u8 = 11;

/// Ends a block where CR follows.
pub(crate) const FS: u8 = 28;

/// Follows the FS that ends a block.
pub(crate) const CR: u8 = 13;

/// The most bytes that a block's content may have.
pub(crate) const LIMIT: usize = 1_048_576;

/// Whether FS is the last byte.
pub(crate) fn ends_in_fs(bytes: &[u8]) -> bool
    ensures some { IsTrue result → 0 < length bytes.now }
    ensures last { IsTrue result ↔ (slice_index bytes.now (length bytes.now - 1) ≡ 28) }
{
    match bytes {
        [.., FS] => true,
        _ => false,
    }
}
