//! The parts of a service's ledger.
ghost use Rattle.std.specs.Prelude.{◌≡◌, ◌<◌};

use std::sync::ledger::{Ledger, Share};

/// The parts that no thread has yet. A thread that steps the gate has one, which counts its entries.
#[derive(Drop)]
pub(crate) struct Tickets<L: Ledger> {
    share: Share<L>,
    left: u64,
    ghost parts: { share.parts ≡ left },
    ghost unused: { share.amount ≡ 0 },
    ghost some: { 0 < left },
}

impl<L: Ledger> Tickets<L> {
    ghost use Rattle.std.specs.Prelude.{◌≡◌, IfSome};

    /// `left` parts, at least one.
    pub(crate) fn new(share: Share<L>, left: u64) -> Self
        requires parts { share.parts ≡ left }
        requires unused { share.amount ≡ 0 }
        requires some { 0 < left }
    {
        Tickets { share, left }
    }

    /// One part, unless it is the last.
    pub(crate) fn take(&mut self) -> Option<Share<L>>
        ensures part { IfSome result (λ s. s.parts ≡ 1) }
        ensures unused { IfSome result (λ s. s.amount ≡ 0) }
    {
        let Tickets { share, left } = self;
        if *left < 2 {
            return None;
        }
        let part = share.split_off(1, 0);
        *left -= 1;
        Some(part)
    }

    /// The parts that were not taken, one at least.
    pub(crate) fn rest(self) -> Share<L>
        ensures some { 0 < result.parts }
        ensures unused { result.amount ≡ 0 }
    {
        let Tickets { share, .. } = self;
        share
    }
}
