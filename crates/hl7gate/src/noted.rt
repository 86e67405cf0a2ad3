//! What the log has of receivers.
use crate::gateway::Hub;
use gw_due::Receiver;
use gw_journal::{Naming, Storage};
use std::alloc::{AllocError, Global};
use std::io::Eprint;
use std::sync::Wait;

/// What the log has of the receiver of this number.
pub(crate) fn numbered(receivers: &[Receiver], number: u32) -> Option<&Receiver> {
    receivers.iter().find(|one| one.number() == number)
}

/// Where a receiver is, if it is one of the plan, or something is left for it.
pub(crate) fn address_in(
    alloc: Global,
    receivers: &[Receiver],
    number: u32,
    is_planned: bool,
) -> Result<Option<Vec<u8>>, AllocError> {
    match numbered(receivers, number) {
        Some(receiver) if is_planned || receiver.left() > 0 => {
            Ok(Some(Vec::from_slice(alloc, receiver.address())?))
        }
        _ => Ok(None),
    }
}

/// What is counted of receivers before the start is printed: what waits, and what was refused.
pub(crate) fn print_waiting<J: Naming, S: Storage + Drop, R: Wait + Eprint>(
    hub: &Hub<'_, J, S, R>,
) {
    let office = hub.journal.lock(hub.rt);
    for receiver in office.ledger.state().receivers() {
        let (left, refused) = (receiver.left(), receiver.refused());
        if left > 0 {
            let name = receiver.name().escape_ascii();
            let _ = eprintln!(hub.rt;
                "receiver {name}: {left} messages wait in {}",
                hub.folder.path
            );
        }
        if refused > 0 {
            let name = receiver.name().escape_ascii();
            let _ = eprintln!(hub.rt; "receiver {name} has refused {refused} messages so far");
        }
    }
}
