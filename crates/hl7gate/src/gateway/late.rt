//! Receivers whose first message waits for long.
use crate::gateway::hub::Hub;
use crate::gateway::lines::Line;
use crate::stamps::stamp_of;
use gw_journal::{Naming, Storage};
use std::alloc::AllocError;
use std::io::Eprint;
use std::sync::Wait;
use std::time::Clock;

/// Reports on standard error, and behind the time in the log of refusals, that messages wait for long, or don't any more.
fn report<J: Naming, S: Storage + Drop, R: Wait + Clock + Eprint + AllocGlobal>(
    hub: &Hub<'_, J, S, R>,
    line: &Line,
    waiting: u64,
    is_late: bool,
) -> Result<(), AllocError> {
    let (alloc, late) = (hub.rt.alloc(), hub.late);
    let name = line.name.escape_ascii();
    let said = if is_late {
        format!(in alloc; "receiver {name}: {waiting} wait, the first for more than {late} s")?
    } else {
        format!(in alloc; "receiver {name}: none waits for more than {late} s any more")?
    };
    let _ = eprintln!(hub.rt; "{said}");
    let stamp = stamp_of(hub.rt, None).unwrap_or(hub.start);
    let dated = format!(in alloc; "{} {said}\n", stamp.digits().escape_ascii())?;
    hub.folder.add(hub.rt, dated.as_bytes());
    Ok(())
}

/// Looks at each receiver, and reports those whose first message has come to wait for long, or doesn't any more.
pub(crate) fn look_at_all<J: Naming, S: Storage + Drop, R: Wait + Clock + Eprint + AllocGlobal>(
    hub: &Hub<'_, J, S, R>,
) {
    let Ok(lines) = hub.lines.all(hub.rt, hub.rt.alloc()) else {
        return;
    };
    for line in &lines {
        let waiting = hub.left_for(line.number);
        line.set_left(hub.rt, waiting, false);
        if let Some(is_late) = line.turn_late(hub.rt, hub.late) {
            let _ = report(hub, line, waiting, is_late);
        }
    }
}
