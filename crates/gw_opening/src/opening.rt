//! A folder's log, as it is opened, or begun where there is none.
ghost use Rattle.std.specs.Prelude.{◌≡◌, ◌<◌, [], ℕ, List, map, IfErr, IfOk, IfSome};
ghost use Rattle.gw_due.specs.State as spec;
ghost use Rattle.gw_due.specs.Spelling.{Entry, spelled};
ghost use Rattle.gw_journal.specs.Stored.{Held, IsKept, disk_of};
ghost use Rattle.gw_ledger.specs.Ledgers.{Spares, Tells};
ghost use Rattle.gw_log.specs.Disk.{Only};
ghost use Rattle.gw_log.specs.History as history;
ghost use Rattle.gw_opening.specs.Begun.{IsSound};
ghost use Rattle.gw_opening.specs.Folders.{IsGatewayLog};
ghost use Rattle.gw_opening.specs.own.Alike.{IsCause, IsStateBy, IsStateIn};

use crate::begun::Begun;
use crate::fault::OpenFault;
use crate::found::{Found, Had};
use gw_due::laws::Rules;
use gw_due::{State, start};
use gw_journal::{LastFile, Stored};
use gw_ledger::Checkpoints;
use gw_log::{Calls, Disk, LogFault, Recorded, find_id};
use std::alloc::Global;

// A log that is open, and the state of its records; or the fault, and the disk.
type Started<D> = Result<(Stored<Checkpoints, D>, State), (OpenFault, D)>;

// A new log of this number, in a folder without a file.
fn begin<D: Disk + Drop>(alloc: Global, disk: D, id: u64) -> Started<D>
    requires durable { Only (D.seen disk) (D.may_leave disk) }
    ensures ok { IfOk result (λ r. Held Tells Spares D.honest D.seen D.may_leave r.0 []) }
    ensures state { IfOk result (λ r. r.1 ≡ spec.nothing) }
    ensures back { IfOk result (λ r. D.honest (disk_of r.0) → D.honest disk) }
    ensures back_err { IfErr result (λ e. D.honest e.1 → D.honest disk) }
{
    let state = State::new(alloc);
    let mut checkpoint = Vec::new(alloc);
    let Ok(()) = state.spell(&mut checkpoint) else {
        return Err((OpenFault::Log(LogFault::Memory), disk));
    };
    match Stored::create(alloc, disk, id, &checkpoint) {
        Err((fault, disk)) => Err((OpenFault::Log(fault), disk)),
        Ok(stored) => Ok((stored, state)),
    }
}

// The state of all records of a log, by its last file. Of a log without a record there is but one.
fn state_by(alloc: Global, last: &LastFile) -> Result<State, OpenFault>
    ensures by { IfOk result (IsStateBy last.now) }
    ensures none { IfOk result (λ s. s.next ≡ 0 → s ≡ spec.nothing) }
    ensures numbers { IfOk result (λ s. IfSome s.last (λ n. n < s.margin)) }
    ensures sound { IfErr result (IsCause last.now) }
{
    let state = match start(alloc, last.checkpoint(), last.records()) {
        Ok(state) => state,
        Err(fault) => return Err(OpenFault::Start(fault)),
    };
    if state.next() == 0 {
        return Ok(State::new(alloc));
    }
    match state.last() {
        Some(number) if number >= state.margin() => Err(OpenFault::Numbers),
        _ => Ok(state),
    }
}

// The log of this number, which a folder is.
fn go_on<R: Rules, D: Disk + Drop>(alloc: Global, disk: D, id: u64) -> Started<D>
    requires durable { Only (D.seen disk) (D.may_leave disk) }
    ensures ok { IfOk result (λ r. (all : List (List ℕ)) → IsKept Tells Spares id (D.seen disk) all →
        Held Tells Spares D.honest D.seen D.may_leave r.0 all) }
    ensures state { IfOk result (λ r. D.honest (disk_of r.0) → IsStateIn id (D.seen disk) r.1) }
    ensures none { IfOk result (λ r. r.1.next ≡ 0 → r.1 ≡ spec.nothing) }
    ensures numbers { IfOk result (λ r. IfSome r.1.last (λ n. n < r.1.margin)) }
    ensures back { IfOk result (λ r. D.honest (disk_of r.0) → D.honest disk) }
    ensures sound { IfErr result (λ e. D.honest e.1 → (entries : List Entry) →
        IsGatewayLog R.routes id (D.seen disk) entries → IsSound e.0) }
    ensures back_err { IfErr result (λ e. D.honest e.1 → D.honest disk) }
{
    match Stored::open(alloc, disk, id) {
        Err((fault, disk)) => Err((OpenFault::Log(fault), disk)),
        Ok((stored, last)) => match state_by(alloc, &last) {
            Ok(state) => Ok((stored, state)),
            Err(fault) => Err((fault, stored.into_disk())),
        },
    }
}

/// The log of a folder; or a new one, of this number, where the folder has no file.
pub fn open<F: Found<R>, R: Rules, C: Calls + Drop>(
    alloc: Global,
    calls: C,
    id: u64,
) -> Result<Begun<F, R, C>, (OpenFault, Recorded<C, Had<F, R>>)>
    // If what was read is what the files had, these are the records of the log that was found: all of them.
    ensures found { IfOk result (λ b. history.IsHonest F.files (disk_of b.stored) →
        b.before ≡ map spelled F.entries) }
    // A log that gateways wrote is refused only where an allocation failed, the disk failed, or there is no room.
    ensures sound { IfErr result (λ e. history.IsHonest F.files e.1 → IsGatewayLog R.routes F.id F.files F.entries →
        IsSound e.0) }
{
    let mut disk = Recorded::<C, Had<F, R>>::new(calls);
    match find_id(alloc, &mut disk) {
        Err(fault) => Err((OpenFault::Log(fault), disk)),
        Ok(None) => match begin(alloc, disk, id) {
            Err(failed) => Err(failed),
            Ok((stored, state)) => Ok(Begun { stored, state }),
        },
        Ok(Some(id)) => match go_on::<R, _>(alloc, disk, id) {
            Err(failed) => Err(failed),
            Ok((stored, state)) => Ok(Begun { stored, state }),
        },
    }
}
