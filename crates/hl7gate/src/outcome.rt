//! What went wrong in a service.
use gw_stream::RunFault;
use std::alloc::Global;

/// What went wrong in a service: of its sessions, the main thread and its couriers the first fault each, and the jobs that workers left.
#[derive(Drop)]
pub(crate) struct Outcome {
    session: Option<(u64, RunFault)>,
    own: Option<RunFault>,
    courier: Option<(usize, RunFault)>,
    left: Vec<(u64, usize)>,
}

impl Outcome {
    /// Nothing went wrong. It takes no memory.
    pub(crate) fn new(alloc: Global) -> Self {
        Outcome {
            session: None,
            own: None,
            courier: None,
            left: Vec::new(alloc),
        }
    }

    /// The session of this connection ended by a fault.
    pub(crate) fn of_session(&mut self, number: u64, fault: RunFault) {
        match self.session {
            Some((earlier, _)) if earlier < number => (),
            _ => self.session = Some((number, fault)),
        }
    }

    /// The main thread met a fault.
    pub(crate) fn of_main(&mut self, fault: RunFault) {
        if self.own.is_none() {
            self.own = Some(fault);
        }
    }

    /// The courier of this receiver ended by a fault.
    pub(crate) fn of_courier(&mut self, receiver: usize, fault: RunFault) {
        match self.courier {
            Some((earlier, _)) if earlier < receiver => (),
            _ => self.courier = Some((receiver, fault)),
        }
    }

    /// A worker left this job, by its number and receiver.
    pub(crate) fn leave(&mut self, job: (u64, usize)) {
        if self.left.push(job).is_err() {
            self.of_main(RunFault::Memory);
        }
    }

    /// A job that a worker left, and that wasn't asked for before.
    pub(crate) fn next_left(&mut self) -> Option<(u64, usize)> {
        self.left.pop()
    }

    /// The first fault: sessions by connection, then the main thread's, then couriers in the plan's order.
    pub(crate) fn first(&self) -> Option<RunFault> {
        match (self.session, self.own, self.courier) {
            (Some((_, fault)), _, _) => Some(fault),
            (None, Some(fault), _) => Some(fault),
            (None, None, Some((_, fault))) => Some(fault),
            (None, None, None) => None,
        }
    }
}
