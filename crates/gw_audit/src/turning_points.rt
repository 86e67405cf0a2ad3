//! Rising numbers at which something turns, and the first number from some on at which it holds.
ghost use Rattle.std.specs.Prelude.{ℕ, Bool, OnOk};
ghost use Rattle.std.specs.List.Sorted.{IsStrictlyIncreasing};
ghost use Rattle.gw_audit.specs.Turns.{CountsOn, HoldsFrom, IsFirstFrom, Passes, TurnsAt, TurnsOn};

use std::alloc::AllocError;

// How many of the numbers are at most this.
pub(crate) fn passed(ats: &[usize], low: usize) -> usize
    ensures { IsStrictlyIncreasing ats.now → Passes ats.now low result }
{
    match ats.binary_search(&low) {
        Ok(place) => place + 1,
        Err(place) => place,
    }
}

// The first number, from low on, at which a test holds that turns at these.
pub(crate) fn first_even(ats: &[usize], low: usize) -> Option<usize>
    ensures { (test : ℕ → Bool) → TurnsAt test ats.now → IsFirstFrom low test result }
{
    let count = passed(ats, low);
    if count % 2 == 0 {
        return Some(low);
    }
    ats.get(count).copied()
}

// The first number, from low on, at which a test holds that does so from the v-th of these to the next.
pub(crate) fn first_with(ats: &[usize], low: usize, v: u64) -> Option<usize>
    ensures { (test : ℕ → Bool) → HoldsFrom test v ats.now → IsFirstFrom low test result }
{
    let count = passed(ats, low) as u64;
    if v < count {
        return None;
    }
    if v == count {
        return Some(low);
    }
    ats.get((v - 1) as usize).copied()
}

// At this number a test that turns at these holds, or doesn't.
pub(crate) fn turn_to(ats: &mut Vec<usize>, at: usize, holds: bool) -> Result<(), AllocError>
    ensures { OnOk result (TurnsOn at holds ats.old.items ats.new.items) }
{
    let even = ats.len() % 2 == 0;
    if holds == even {
        return Ok(());
    }
    ats.push(at)?;
    Ok(())
}

// At this number one more is counted, or none.
pub(crate) fn count_to(ats: &mut Vec<usize>, at: usize, more: bool) -> Result<(), AllocError>
    ensures { OnOk result (CountsOn at more ats.old.items ats.new.items) }
{
    if more {
        ats.push(at)?;
        return Ok(());
    }
    Ok(())
}
