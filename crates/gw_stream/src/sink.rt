//! What is written to, with its failures.
ghost use Rattle.std.specs.Prelude.{◌≡◌, ◌<◌, ◌↔◌, ℕ, List, Bool, Option, IsTrue, IsErr, IfOk, length};
ghost use Rattle.std.specs.Io.{WritesAtMost};
ghost use Rattle.std.specs.Io.KnownBytes.{WriteAppends};

use crate::source::Failed;

/// What is written to. A call answers `Failed` exactly where `failed()` is true afterwards.
pub trait Sink {
    /// The bytes that the writer holds, where they are known.
    ghost contents: { Self → Option (List ℕ) };

    /// Whether the last call failed.
    ghost has_failed: { Self → Bool };

    /// Whether the last call failed. It takes no memory.
    fn failed(&self) -> bool
        ensures { result ≡ has_failed self.now };

    /// Writes some of the bytes, and says how many. To take none of a piece that isn't empty is a failure.
    fn write(&mut self, buf: &[u8]) -> Result<usize, Failed>
        ensures bound { WritesAtMost result buf.now }
        ensures bytes { WriteAppends (contents self.old) (contents self.new) result buf.now }
        ensures failed { IsTrue (has_failed self.new) ↔ IsErr result }
        ensures some { IfOk result (λ n. 0 < length buf.now → 0 < n) };
}
