//! What is seen of the answers that weren't AA.
use gw_page::{Recent, Refusal, Seen};
use std::alloc::{AllocError, Global};
use std::sync::{Mutex, Wait};

/// The last refusals. Only the answers that aren't AA, and readers of the page, wait for its lock.
#[derive(Drop)]
pub(crate) struct Watch {
    recent: Mutex<Recent>,
}

impl Watch {
    pub(crate) fn new(alloc: Global) -> Result<Self, AllocError> {
        Ok(Watch {
            recent: Mutex::new(Recent::new(alloc)?),
        })
    }

    /// A message was refused.
    pub(crate) fn note<R: Wait>(&self, rt: &R, refusal: Refusal) {
        self.recent.lock(rt).note(refusal);
    }

    /// What was refused.
    pub(crate) fn seen<R: Wait>(&self, rt: &R, alloc: Global) -> Result<Seen, AllocError> {
        self.recent.lock(rt).seen(alloc)
    }
}
