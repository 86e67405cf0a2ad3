//! What a start makes of a checkpoint and the records behind it.
ghost use Rattle.std.specs.Prelude.{◌≡◌, ◌<◌, ℕ, length, map, IfOk, IfErr, IsErrOf, OnOk, IsFalse};
ghost use Rattle.gw_due.specs.Checkpoint as spelling;
ghost use Rattle.gw_due.specs.State as spec;
ghost use Rattle.gw_due.specs.Starting.{IsFullAt, Refuses, Starts, StopsAt};
ghost use Rattle.gw_due.specs.own.Steps.{MovesBy};

use crate::fault::{ReadFault, StartFault, StateFault};
use crate::reading::read;
use crate::state::State;
use std::alloc::Global;

// Moves a state on by a record, of this number.
fn go_on(alloc: Global, state: &mut State, at: usize, bytes: &[u8]) -> Result<(), StartFault>
    ensures ok { OnOk result (MovesBy bytes.now state.old state.new) }
    ensures record { IfErr result (λ f. (n : ℕ) → f ≡ StartFault.Record n → (n ≡ at) × Refuses bytes.now state.old) }
    ensures full { IfErr result (λ f. (n : ℕ) → f ≡ StartFault.Full n → (n ≡ at) × IsFalse (spec.has_room state.old)) }
    ensures checkpoint { IsErrOf result StartFault.Checkpoint → ⊥ }
{
    let entry = match read(alloc, bytes) {
        Ok(entry) => entry,
        Err(ReadFault::Memory) => return Err(StartFault::Memory),
        Err(ReadFault::Unreadable) => return Err(StartFault::Record { at }),
    };
    match state.after(alloc, &entry.event) {
        Ok(()) => Ok(()),
        Err(StateFault::Memory) => Err(StartFault::Memory),
        Err(StateFault::Unlawful) => Err(StartFault::Record { at }),
        Err(StateFault::Full) => Err(StartFault::Full { at }),
    }
}

/// The state that a checkpoint spells, moved on by the records behind it: the state of the log up to them.
/// By [`crate::laws::a_start_tells`], where the checkpoint is that of what stands before.
pub fn start(alloc: Global, checkpoint: &[u8], records: &[Vec<u8>]) -> Result<State, StartFault>
    ensures ok { IfOk result (Starts checkpoint.now (map (λ r. r.items) records.now)) }
    ensures checkpoint { IsErrOf result StartFault.Checkpoint →
        (s : spec.State) → spelling.StateFits s → checkpoint.now ≡ spelling.checkpoint s → ⊥ }
    ensures record { IfErr result (λ f. (at : ℕ) → f ≡ StartFault.Record at →
        StopsAt checkpoint.now (map (λ r. r.items) records.now) at) }
    ensures within { IfErr result (λ f. (at : ℕ) → f ≡ StartFault.Record at → at < length records.now) }
    ensures full { IfErr result (λ f. (at : ℕ) → f ≡ StartFault.Full at →
        IsFullAt checkpoint.now (map (λ r. r.items) records.now) at) }
{
    let mut state = match State::read(alloc, checkpoint) {
        Ok(state) => state,
        Err(ReadFault::Memory) => return Err(StartFault::Memory),
        Err(ReadFault::Unreadable) => return Err(StartFault::Checkpoint),
    };
    for (at, bytes) in records.iter().enumerate() {
        go_on(alloc, &mut state, at, bytes)?;
    }
    Ok(state)
}
