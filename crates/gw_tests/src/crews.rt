//! A worker and a courier over one gate.
use crate::gates::begun;
use crate::locked::replies;
use crate::streams::{Device, Ran};
use crate::worked::{ARRIVED, admitted, archive};
use gw_crew::{Door, Pause, Solo, courier, worker};
use gw_gate::Event;
use gw_plan::Plan;
use gw_stream::{Counts, Reads, Writes};
use std::alloc::Global;
use std::sync::Arc;
use std::test::Fail;

/// What the receiver is sent.
pub(crate) const SENT: &[u8] = b"\x0bMSH|^~\\&||||||||7\rPID||||||||2\r\x1c\r";

/// Its acknowledgment.
pub(crate) const ACKED: &[u8] =
    b"\x0bMSH|^~\\&|GW|H2|LAB|H1|20240102030406||ACK^A01^ACK|G1|P|2.5.1\rMSA|AA|7\r\x1c\r";

const NOTHING: Counts = Counts {
    answered: 0,
    put: 0,
    sent: 0,
    aa: 0,
    ae: 0,
    ar: 0,
};

pub(crate) const CARRIED: Counts = Counts {
    answered: 0,
    put: 0,
    sent: 1,
    aa: 1,
    ae: 0,
    ar: 0,
};

// A door to a gate that opens with this plan.
fn door_of(alloc: Global, plan: &Arc<Plan>) -> Result<Solo, Fail> {
    let gate = begun(alloc, plan)?;
    Ok(Solo::new(alloc, gate))
}

// A door to a gate that opens with the plan.
pub(crate) fn door(alloc: Global) -> Result<Solo, Fail> {
    let plan = Arc::new(alloc, archive(alloc)?)?;
    door_of(alloc, &plan)
}

// A door at whose gate this many messages arrived.
pub(crate) fn arrived(alloc: Global, count: u64) -> Result<Solo, Fail> {
    let plan = Arc::new(alloc, archive(alloc)?)?;
    let mut door = door_of(alloc, &plan)?;
    for n in 0..count {
        let event = Event::Arrive(admitted(alloc, &plan, 0, ARRIVED)?);
        if !replies(&mut door, event, ("Accepted", n)) {
            return Err("it isn't accepted".into());
        }
    }
    Ok(door)
}

/// A pause that ends its worker after this many jobs.
#[derive(Drop)]
pub(crate) struct After {
    pub(crate) left: u64,
    pub(crate) stopped: bool,
}

impl Pause for After {
    ghost has_stopped = { λ p. p.stopped };

    fn stopped(&self) -> bool {
        self.stopped
    }

    fn pause(&mut self, _n: u64) -> bool {
        self.stopped = self.left == 0;
        if self.left > 0 {
            self.left -= 1;
        }
        !self.stopped
    }
}

// What a worker does that may do this many jobs.
pub(crate) fn work(alloc: Global, door: &mut Solo, left: u64) -> Result<Counts, Fail> {
    let mut pause = After {
        left,
        stopped: false,
    };
    match worker(alloc, door, &mut pause) {
        Ok(counts) => Ok(counts),
        Err(_) => Err("no memory".into()),
    }
}

// What a courier does over these answers and a writer that fails after so many calls, and how many bytes of the message's block it wrote.
fn carry(alloc: Global, door: &mut Solo, answers: Device<'_>, writes: usize) -> Ran {
    let mut reader = Reads::new(answers);
    let mut output = Device::new(alloc, b"", 1, writes, 0);
    let mut writer = Writes::new(&mut output);
    let result = courier(alloc, door, 0, &mut reader, &mut writer);
    (result, output.holds(SENT))
}

// A line over which these answers come, byte by byte.
fn answers<'a>(alloc: Global, bytes: &'a [u8]) -> Device<'a> {
    Device::new(alloc, bytes, 1, 1_000, 0)
}

#[test]
fn a_message_is_worked_on_and_carried(rt: HostRuntime) -> Result<(), Fail> {
    let alloc = rt.alloc();
    let mut door = arrived(alloc, 1)?;
    assert_eq!(rt; work(alloc, &mut door, 9)?.put, 1);
    let (result, held) = carry(alloc, &mut door, answers(alloc, ACKED), 1_000);
    assert!(rt; result == Ok(CARRIED) && held == Some(SENT.len()));
    assert_eq!(rt; work(alloc, &mut door, 9)?, NOTHING);
    let (result, held) = carry(alloc, &mut door, answers(alloc, b""), 1_000);
    assert!(rt; result == Ok(NOTHING) && held == Some(0));
    assert_eq!(rt; (door.notes().len(), door.gate().journal().len()), (8, 4));
    Ok(())
}
