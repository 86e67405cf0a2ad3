//! Growths that are refused, one after the other.
ghost use Rattle.std.specs.Prelude.{OnOk, IsTrue};

use std::alloc::Global;
use std::test::Fail;

/// More bytes than any heap has.
const ORDER: usize = 1 << 62;

/// More growths than any call has.
const MAX_GROWTHS: u32 = 10_000;

/// Orders the refusal of the growth of this number, counted from here on; 0 cancels the order.
/// No heap has a block of this size. The heap of `.ci/refusals` takes the request as the order, and begins a sweep at 1.
/// Under any other heap the request just fails.
pub fn refuse(alloc: Global, growth: u32) {
    let _ = Vec::<u8>::with_capacity(alloc, ORDER + growth as usize);
}

/// Whether a growth was refused since the last order. The heap of `.ci/refusals` answers this request with a block then; no other heap does.
pub fn was_refused(alloc: Global) -> bool {
    Vec::<u8>::with_capacity(alloc, 2 * ORDER - 1).is_ok()
}

/// A call under test, with its arguments.
pub trait Call {
    /// Makes the call with the growth of this number refused. Returns whether it fails by allocation failure.
    /// After a failure the arguments have to be as stated, and the same call, made again, has to give its usual result.
    /// A call that can do without that growth has to give its usual result at once.
    fn is_refused(&self, alloc: Global, growth: u32) -> Result<bool, Fail>;
}

/// Makes the call with each of its growths refused in turn, and then with none.
pub fn sweep<C: Call>(alloc: Global, call: &C) -> Result<(), Fail> {
    for growth in 1..MAX_GROWTHS {
        let is_refused = call.is_refused(alloc, growth)?;
        if !was_refused(alloc) {
            return holds(
                !is_refused,
                "an allocation failure without a refused growth",
            );
        }
    }
    Err("there are more growths".into())
}

/// Fails with this reason if the condition is false.
pub fn holds(that: bool, why: &'static str) -> Result<(), Fail>
    ensures { OnOk result (IsTrue that) }
{
    if that { Ok(()) } else { Err(why.into()) }
}
