//! Room at a desk.
use crate::sweeps::{Call, holds, refuse, sweep};
use gw_reorder::{Desk, Status};
use std::alloc::Global;
use std::test::Fail;

#[derive(Clone, Copy)]
struct Reserve;

// Makes room at a desk, and tries again after a failure. Returns whether it failed.
fn reserve_again(desk: &mut Desk<u64>) -> Result<bool, Fail> {
    match desk.reserve() {
        Ok(()) => Ok(false),
        Err(_) => {
            let is_new = !desk.has_room() && !desk.waits() && desk.status(0) == Status::Stranger;
            holds(is_new, "it has room, or something is due")?;
            desk.reserve()?;
            Ok(true)
        }
    }
}

impl Call for Reserve {
    fn is_refused(&self, alloc: Global, growth: u32) -> Result<bool, Fail> {
        let mut desk = Desk::new(alloc);
        refuse(alloc, growth);
        let refused = reserve_again(&mut desk)?;
        refuse(alloc, 0);
        holds(desk.has_room() && desk.peek().is_none(), "no room")?;
        Ok(refused)
    }
}

#[test]
fn desk_refused(rt: HostRuntime) -> Result<(), Fail> {
    sweep(rt.alloc(), &Reserve)
}
