//! The audit: whether the notes of all passes are settled.
ghost use Rattle.std.specs.Prelude.{◌≡◌, ◌↔◌, IfOk, IsTrue, flat_map, length};
ghost use Rattle.std.specs.List.{list_all};
ghost use Rattle.gw_audit.specs.own.Joins.{Marks, notes_of};
ghost use Rattle.gw_run.specs.Passes.{receipts};
ghost use Rattle.gw_audit.specs.Settled.{GoOn, Settled, agrees};

use crate::note_check::agrees;
use crate::parts::{Part, first_of, go_on, last_of};
use crate::receipt_counts::{are_all_marked, mark_notes};
use gw_run::Receipts;
use std::alloc::{AllocError, Global};
use std::sync::ledger::Ledger;

// Whether the notes of each pass agree with the chapters, where there were since entries before them.
#[tactic(auto, using(crate::proofs::Marking::not_all_at))]
pub(crate) fn all_agree<L: Ledger>(parts: &[Part], since: usize, passes: &[Receipts<L>]) -> bool
    ensures { GoOn parts.now → result ≡ list_all (agrees parts.now since) (notes_of passes.now) }
{
    for pass in passes {
        if !agrees(parts, since, pass.notes()) {
            return false;
        }
    }
    true
}

// How often each number from since on is that of a receipt.
pub(crate) fn marks_of<L: Ledger>(
    alloc: Global,
    since: usize,
    count: usize,
    passes: &[Receipts<L>],
) -> Result<Vec<u8>, AllocError>
    ensures marks { IfOk result (λ marks. Marks since (flat_map receipts (notes_of passes.now)) marks.items) }
    ensures count { IfOk result (λ marks. length marks.items ≡ count) }
{
    let mut marks = vec![in alloc; 0; count]?;
    for pass in passes {
        mark_notes(&mut marks, since, pass.notes());
    }
    Ok(marks)
}

// Whether the notes of the passes are settled.
pub(crate) fn is_settled<L: Ledger>(
    alloc: Global,
    parts: &[Part],
    since: usize,
    passes: &[Receipts<L>],
) -> Result<bool, AllocError>
    ensures { IfOk result (λ b. IsTrue b ↔ Settled parts.now since (notes_of passes.now)) }
{
    if !go_on(parts) {
        return Ok(false);
    }
    if since < first_of(parts) {
        return Ok(false);
    }
    let marks = marks_of(alloc, since, last_of(parts).saturating_sub(since), passes)?;
    if !are_all_marked(&marks) {
        return Ok(false);
    }
    Ok(all_agree(parts, since, passes))
}
