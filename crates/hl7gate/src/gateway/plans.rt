//! Plans that take the place of the one in force, and those that the log has.
use crate::ended::Ended;
use crate::files::read_text;
use crate::gateway::hub::Hub;
use crate::gateway::lines::Line;
use crate::plans::parse_plan;
use crate::runtime::Runtime;
use crate::stamps::microseconds;
use crate::swaps::unread_answer;
use gw_due::Receiver;
use gw_gateway::PutFault;
use gw_journal::{Naming, Storage};
use gw_plan::Plan;
use gw_stream::RunFault;
use std::alloc::{AllocError, Global};
use std::fs::metadata;
use std::sync::atomic::Ordering;
use std::sync::{Arc, Wait};

/// Adds a receiver to those that want a line.
fn add_wanted(
    wanted: &mut Vec<(u32, Vec<u8>, bool)>,
    alloc: Global,
    receiver: &Receiver,
    is_planned: bool,
) -> Result<(), AllocError> {
    let name = Vec::from_slice(alloc, receiver.name())?;
    wanted.push((receiver.number(), name, is_planned))?;
    Ok(())
}

/// The receivers for which something is left, and those of the plan in force: their numbers and names, and whether the plan has them.
fn wanted<J: Naming, S: Storage + Drop, R: Runtime + Wait>(
    hub: &Hub<'_, J, S, R>,
) -> Result<Vec<(u32, Vec<u8>, bool)>, AllocError> {
    let alloc = hub.rt.alloc();
    let mut wanted = Vec::new(alloc);
    let office = hub.journal.lock(hub.rt);
    for receiver in office.ledger.state().receivers() {
        let is_planned = office.current.numbers().contains(&receiver.number());
        if is_planned || receiver.left() > 0 {
            add_wanted(&mut wanted, alloc, receiver, is_planned)?;
        }
    }
    Ok(wanted)
}

/// Has each receiver that wants a line have one, and each line know whether the plan in force has its receiver.
pub(crate) fn begin_lines<J: Naming, S: Storage + Drop, R: Runtime + Wait>(
    hub: &Hub<'_, J, S, R>,
) -> Result<(), AllocError> {
    let wanted = wanted(hub)?;
    for line in &hub.lines.all(hub.rt, hub.rt.alloc())? {
        let is_planned = wanted.iter().any(|one| one.0 == line.number && one.2);
        line.set_planned(hub.rt, is_planned);
    }
    for (number, name, is_planned) in wanted {
        if hub.lines.find(hub.rt, number).is_none() {
            let line = Line::new(number, name, is_planned);
            hub.lines.add(hub.rt, Arc::new(hub.rt.alloc(), line)?)?;
        }
    }
    Ok(())
}

/// Takes a plan, and gives its version once that is on the disk.
fn take<J: Naming, S: Storage + Drop, R: Runtime + Wait>(
    hub: &Hub<'_, J, S, R>,
    plan: Arc<Plan>,
) -> Result<u64, PutFault> {
    let alloc = hub.rt.alloc();
    hub.plans.keep(hub.rt, plan.clone()?)?;
    let time = microseconds(hub.rt);
    let (_change, ticket) = hub.journal.lock(hub.rt).take_plan(alloc, time, plan)?;
    if hub.journal.settle(hub.rt, &ticket).is_err() {
        return Err(PutFault::Disk);
    }
    let taken = hub.taken.fetch_add(1, Ordering::SeqCst);
    begin_lines(hub)?;
    Ok(taken.saturating_add(1))
}

/// The plan of a file, which has to be a regular one: a pipe would be waited for.
fn read_plan<'a, R: Runtime>(rt: &R, alloc: Global, path: &'a str) -> Result<Arc<Plan>, Ended<'a>> {
    match metadata(rt, path) {
        Ok(of) if of.is_file() => {}
        _ => return Err(Ended::Unread { path }),
    }
    let text = read_text(rt, path)?;
    let plan = parse_plan(alloc, path, &text)?;
    Ok(Arc::new(alloc, plan)?)
}

/// Whether a plan has the receivers of the one in force.
fn is_like<J: Naming, S: Storage + Drop, R: Runtime + Wait>(
    hub: &Hub<'_, J, S, R>,
    plan: &Plan,
) -> Result<bool, AllocError> {
    let current = hub.journal.lock(hub.rt).current.again()?;
    Ok(current.plan().same_receivers(plan))
}

/// Takes the plan of a file. `is_install`: it may have other receivers. The answer says what came of it.
pub(crate) fn take_file<J: Naming, S: Storage + Drop, R: Runtime + Wait>(
    hub: &Hub<'_, J, S, R>,
    path: &str,
    is_install: bool,
) -> Result<String, AllocError> {
    let alloc = hub.rt.alloc();
    let plan = match read_plan(hub.rt, alloc, path) {
        Ok(plan) => plan,
        Err(ended) => return unread_answer(hub.rt, path, ended),
    };
    if !is_install && !is_like(hub, &plan)? {
        return format!(in alloc;
            "refused\nswap refused 3\n{path}: the plan has other receivers\n`install {path}` takes a plan with other receivers\n"
        );
    }
    let word = if is_install { "installed" } else { "swapped" };
    match take(hub, plan) {
        Ok(version) => format!(in alloc; "{word} {version}\n"),
        Err(fault) => {
            if fault == PutFault::Disk {
                hub.fail(RunFault::Write);
            }
            format!(in alloc; "refused\n{path}: {fault}\n")
        }
    }
}
