//! The plans of a chapter, and the numbers of entries at which they were swapped in.
ghost use Rattle.std.specs.Prelude.{◌≡◌, ◌∷◌, ◌++◌, [], IfOk, OnOk, map, length};
ghost use Rattle.gw_gate.specs.own.Books.{journal_of};
ghost use Rattle.gw_gate.specs.Journal.{plans, swapped};
ghost use Rattle.gw_gate.specs.Entries.{entry_seen, entries_seen, start_seen};
ghost use Rattle.gw_audit.specs.own.Joins.{is_swap, plans_at, swaps_in};
ghost use Rattle.gw_audit.specs.Turns.{CountsTo};

use crate::turning_points::count_to;
use gw_gate::{Entry, Start};
use gw_plan::Plan;
use std::alloc::{AllocError, Global};
use std::sync::Arc;

// Whether the entry is that of a plan.
fn is_swap(entry: &Entry) -> bool
    ensures { result ≡ is_swap (entry_seen entry.now) }
{
    matches!(entry, Entry::Swapped { .. })
}

// The numbers of entries at which plans were swapped.
pub(crate) fn swaps_in(alloc: Global, entries: &[Entry]) -> Result<Vec<usize>, AllocError>
    ensures { IfOk result (λ ats. CountsTo (swaps_in (entries_seen entries.now)) (length entries.now) ats.items) }
{
    let mut ats = Vec::new(alloc);
    for place in 0..entries.len() {
        count_to(&mut ats, place + 1, is_swap(&entries[place]))?;
    }
    Ok(ats)
}

// The plan of an entry, beside those before it.
fn add_plan(all: &mut Vec<Arc<Plan>>, entry: &Entry) -> Result<(), AllocError>
    ensures { OnOk result (plans_at all.new.items ≡ plans_at all.old.items ++ map (λ v. v.plan) (swapped (entry_seen entry.now ∷ []))) }
{
    if let Entry::Swapped { plan, .. } = entry {
        let copy = Arc::try_clone(plan)?;
        all.push(copy)?;
        return Ok(());
    }
    Ok(())
}

// The plans, in order.
pub(crate) fn plans_in(
    alloc: Global,
    start: &Start,
    entries: &[Entry],
) -> Result<Vec<Arc<Plan>>, AllocError>
    ensures { IfOk result (λ all. plans_at all.items ≡ map (λ v. v.plan) (plans (journal_of (start_seen start.now) (entries_seen entries.now)))) }
{
    let mut all = Vec::new(alloc);
    let first = Arc::try_clone(&start.plan)?;
    all.push(first)?;
    for entry in entries {
        add_plan(&mut all, entry)?;
    }
    Ok(all)
}
