//! The plans that what waits is under.
ghost use Rattle.std.specs.Prelude.{◌≡◌, IfOk, IfSome};
ghost use Rattle.std.specs.Arc.{arc_value};

use crate::fault::PageFault;
use gw_plan::{Plan, PlanFault};
use std::alloc::{AllocError, Global};
use std::sync::{Arc, Mutex, Wait};

/// How many plans are kept.
const MOST: usize = 4;

/// Plans that were read of the log, each once.
pub struct Plans {
    alloc: Global,
    kept: Mutex<Vec<Arc<Plan>>>,
}

// (by hand, so that no crate above proves again how its fields are dropped)
impl Drop for Plans {
    fn drop(self) {
        let Plans { alloc: _, kept: _ } = self;
    }
}

// The plan of this text, where it is kept.
fn kept_of(kept: &[Arc<Plan>], text: &[u8]) -> Result<Option<Arc<Plan>>, AllocError>
    ensures { IfOk result (λ found. IfSome found (λ plan. (arc_value plan).text ≡ text.now)) }
{
    for plan in kept {
        if plan.text() == text {
            return Ok(Some(plan.clone()?));
        }
    }
    Ok(None)
}

// The plan of this text, which stands at this place of the log.
fn parsed(alloc: Global, place: u64, text: &[u8]) -> Result<Arc<Plan>, PageFault>
    ensures { IfOk result (λ plan. (arc_value plan).text ≡ text.now) }
{
    match Plan::parse(alloc, text) {
        Ok(plan) => Ok(Arc::new(alloc, plan)?),
        Err(PlanFault::Memory) => Err(PageFault::Memory),
        Err(_) => Err(PageFault::Plan { place }),
    }
}

impl Plans {
    /// None is kept yet.
    pub fn new(alloc: Global) -> Self {
        Plans {
            alloc,
            kept: Mutex::new(Vec::new(alloc)),
        }
    }

    /// Keeps a plan. The oldest one goes.
    pub fn keep<R: Wait>(&self, rt: &R, plan: Arc<Plan>) -> Result<(), AllocError> {
        let mut kept = self.kept.lock(rt);
        if kept_of(&kept, plan.text())?.is_some() {
            return Ok(());
        }
        if kept.len() >= MOST {
            let _oldest = kept.remove(0);
        }
        kept.push(plan)?;
        Ok(())
    }

    fn find<R: Wait>(&self, rt: &R, text: &[u8]) -> Result<Option<Arc<Plan>>, AllocError>
        ensures { IfOk result (λ found. IfSome found (λ plan. (arc_value plan).text ≡ text.now)) }
    {
        let kept = self.kept.lock(rt);
        kept_of(&kept, text)
    }

    /// The plan of this text, which is in force at this place of the log.
    pub fn of<R: Wait>(&self, rt: &R, place: u64, text: &[u8]) -> Result<Arc<Plan>, PageFault>
        ensures { IfOk result (λ plan. (arc_value plan).text ≡ text.now) }
    {
        if let Some(plan) = self.find(rt, text)? {
            return Ok(plan);
        }
        let plan = parsed(self.alloc, place, text)?;
        self.keep(rt, plan.clone()?)?;
        Ok(plan)
    }
}
