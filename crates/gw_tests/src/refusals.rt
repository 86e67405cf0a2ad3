//! Growths that are refused, one after the other.
mod gates;
mod logs;
mod runs;

use std::alloc::Global;
use std::test::Fail;

/// More bytes than any heap has.
const ORDER: usize = 1 << 62;

/// More growths than a call has.
pub(crate) const MOST: u32 = 10_000;

/// Has the growth of this number refused, of those from here on; 0 takes that back.
/// A block of this many bytes can't be had: the heap of `.ci/refusals` takes the request as this order, and begins a sweep at 1. To any other it is one that fails.
pub(crate) fn refuse(alloc: Global, growth: u32) {
    let _ = Vec::<u8>::with_capacity(alloc, ORDER + growth as usize);
}

/// Whether a growth was refused since the last such order. The heap of `.ci/refusals` gives a block then; no other does.
pub(crate) fn was_refused(alloc: Global) -> bool {
    Vec::<u8>::with_capacity(alloc, 2 * ORDER - 1).is_ok()
}

/// A call, with values.
pub(crate) trait Call {
    /// Makes the call, of which the growth of this number is refused. Whether its answer is the allocation failure.
    /// Its values are then as is stated, and the same call gives what it gives where no growth is refused; it gives that at once where it did without the growth.
    fn is_refused(&self, alloc: Global, growth: u32) -> Result<bool, Fail>;
}

/// Makes the call with each of its growths refused, from the first to the last, and then with none.
pub(crate) fn sweep<C: Call>(alloc: Global, call: &C) -> Result<(), Fail> {
    for growth in 1..MOST {
        let is_refused = call.is_refused(alloc, growth)?;
        if !was_refused(alloc) {
            return holds(
                !is_refused,
                "an allocation failure without a refused growth",
            );
        }
    }
    Err("there are more growths".into())
}

/// Fails for this reason where that doesn't hold.
pub(crate) fn holds(that: bool, why: &'static str) -> Result<(), Fail> {
    if that { Ok(()) } else { Err(why.into()) }
}
