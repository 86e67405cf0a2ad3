//! A folder of numbered files as a log sees it: what a read returns, and what a crash may leave.
ghost use Rattle.std.specs.Prelude.{◌≡◌, [], ℕ, length, take, drop, IfOk, OnOk};
ghost use Rattle.gw_log.specs.declared.disk.DiskFault.TheVariants.{Memory};
ghost use Rattle.gw_log.specs.Disk.{Files, Changes, IsWritten, Torn, Cut, IsGone, Follows, Elapses, AreEnds, HasCause};

use std::alloc::{AllocError, AllocFailed, Global};
use thiserror::Error;

/// Why a disk did not do what was asked.
#[derive(Clone, Copy, Debug, PartialEq, Eq, Error)]
pub enum DiskFault {
    /// A growth was refused.
    #[error("out of memory")]
    Memory,
    /// The disk has failed.
    #[error("the disk has failed")]
    Failed,
}

impl From<AllocError> for DiskFault {
    ghost from_gives = { λ _ e. e ≡ Memory };

    fn from(_error: AllocError) -> DiskFault {
        DiskFault::Memory
    }
}

impl<T: Drop> From<AllocFailed<T>> for DiskFault {
    ghost from_gives = { λ _ e. e ≡ Memory };

    fn from(_error: AllocFailed<T>) -> DiskFault {
        DiskFault::Memory
    }
}

/// A folder of numbered files. Until a sync that answers `Ok`, a crash may undo each write, or tear it at any byte.
pub trait Disk {
    /// The bytes that a read of each file returns.
    ghost seen: { Self → Files };

    /// What a crash at this moment may leave.
    ghost may_leave: { Self → Files → Type 0 };

    /// The moment, as a number that doesn't fall.
    ghost moment: { Self → ℕ };

    /// What a crash at some moment from that one on might have left, during a call or between two.
    ghost left_since: { Self → ℕ → Files → Type 0 };

    /// How often the disk has failed.
    ghost faults: { Self → ℕ };

    /// All that was read so far was what the files had. It can't become true again.
    ghost honest: { Self → Type 0 };

    /// The least and the greatest number of a file that has a byte. Where there is none, the first is above the last.
    fn ends(&mut self) -> Result<(u64, u64), DiskFault>
        ensures ends { honest self.new → IfOk result (λ r. AreEnds r.0 r.1 (seen self.old)) }
        ensures seen { seen self.new ≡ seen self.old }
        ensures crash { (c : Files) → may_leave self.new c → may_leave self.old c }
        ensures time { Elapses moment left_since may_leave self.old self.new }
        ensures back { honest self.new → honest self.old }
        ensures cause { HasCause (faults self.old) (faults self.new) result };

    /// How many bytes a file has.
    fn size(&mut self, number: u64) -> Result<usize, DiskFault>
        ensures size { honest self.new → IfOk result (λ n. n ≡ length (seen self.old number)) }
        ensures seen { seen self.new ≡ seen self.old }
        ensures crash { (c : Files) → may_leave self.new c → may_leave self.old c }
        ensures time { Elapses moment left_since may_leave self.old self.new }
        ensures back { honest self.new → honest self.old }
        ensures cause { HasCause (faults self.old) (faults self.new) result };

    /// The bytes of a file from an offset on: this number of them, or as many as there are.
    fn read(
        &mut self,
        alloc: Global,
        number: u64,
        at: usize,
        len: usize,
    ) -> Result<Vec<u8>, DiskFault>
        ensures bytes { honest self.new → IfOk result (λ bytes.
            bytes.items ≡ take len (drop at (seen self.old number))) }
        ensures seen { seen self.new ≡ seen self.old }
        ensures crash { (c : Files) → may_leave self.new c → may_leave self.old c }
        ensures time { Elapses moment left_since may_leave self.old self.new }
        ensures back { honest self.new → honest self.old }
        ensures cause { HasCause (faults self.old) (faults self.new) result };

    /// Writes over what is there, and past the end. A file that isn't there is made.
    fn write_at(&mut self, number: u64, at: usize, bytes: &[u8]) -> Result<(), DiskFault>
        ensures written { OnOk result
            (Changes number (IsWritten at bytes.now (seen self.old number)) (seen self.old) (seen self.new)) }
        ensures crash { Follows number (Torn at bytes.now)
            (may_leave self.old) (may_leave self.new) }
        ensures time { Elapses moment left_since may_leave self.old self.new }
        ensures back { honest self.new → honest self.old }
        ensures cause { HasCause (faults self.old) (faults self.new) result };

    /// Cuts a file to a length.
    fn cut(&mut self, number: u64, len: usize) -> Result<(), DiskFault>
        ensures cut { OnOk result
            (Changes number (λ file. file ≡ take len (seen self.old number)) (seen self.old) (seen self.new)) }
        ensures crash { Follows number (Cut len) (may_leave self.old) (may_leave self.new) }
        ensures time { Elapses moment left_since may_leave self.old self.new }
        ensures back { honest self.new → honest self.old }
        ensures cause { HasCause (faults self.old) (faults self.new) result };

    /// At `Ok` a crash leaves what a read of this file returns, also where it was made or removed.
    fn sync(&mut self, number: u64) -> Result<(), DiskFault>
        ensures durable { OnOk result
            ((c : Files) → may_leave self.new c → c number ≡ seen self.old number) }
        ensures seen { seen self.new ≡ seen self.old }
        ensures crash { (c : Files) → may_leave self.new c → may_leave self.old c }
        ensures time { Elapses moment left_since may_leave self.old self.new }
        ensures back { honest self.new → honest self.old }
        ensures cause { HasCause (faults self.old) (faults self.new) result };

    /// Removes a file. Until it is synced a crash may leave it.
    fn remove(&mut self, number: u64) -> Result<(), DiskFault>
        ensures removed { OnOk result
            (Changes number (λ file. file ≡ []) (seen self.old) (seen self.new)) }
        ensures crash { Follows number IsGone (may_leave self.old) (may_leave self.new) }
        ensures time { Elapses moment left_since may_leave self.old self.new }
        ensures back { honest self.new → honest self.old }
        ensures cause { HasCause (faults self.old) (faults self.new) result };

    /// Since this moment there is no other.
    ghost only_now: { (disk : Self) (c : Files) → left_since disk (moment disk) c → may_leave disk c };
}
