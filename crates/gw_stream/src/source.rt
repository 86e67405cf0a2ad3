//! What is read from, with its failures.
ghost use Rattle.std.specs.Prelude.{◌≡◌, ◌↔◌, ℕ, List, Bool, Option, IsTrue, IsErr};
ghost use Rattle.std.specs.Io.{ReadsAtMost};
ghost use Rattle.std.specs.Io.KnownBytes.{ReadConsumes};
ghost use Rattle.gw_stream.specs.Reading.{ReadTimes};

/// How often a call is made where a signal interrupts it.
pub(crate) const MAX_TRIES: usize = 1_000;

/// The device failed.
#[derive(Clone, Copy, Debug, PartialEq, Eq)]
pub struct Failed;

/// What is read from. A call answers `Failed` exactly where `failed()` is true afterwards.
pub trait Source {
    /// The bytes that reads will give from here on, where they are known.
    ghost remaining: { Self → Option (List ℕ) };

    /// How many reads were made.
    ghost reads: { Self → ℕ };

    /// Whether the last call failed.
    ghost has_failed: { Self → Bool };

    /// Whether the last call failed. It takes no memory.
    fn failed(&self) -> bool
        ensures { result ≡ has_failed self.now };

    /// Reads some bytes into the buffer, and says how many. None means the end, where the buffer has room.
    fn read(&mut self, buf: &mut [u8]) -> Result<usize, Failed>
        ensures bound { ReadsAtMost result buf.new }
        ensures counted { ReadTimes 1 (reads self.old) (reads self.new) }
        ensures bytes { ReadConsumes (remaining self.old) (remaining self.new) result buf.new }
        ensures failed { IsTrue (has_failed self.new) ↔ IsErr result };
}
