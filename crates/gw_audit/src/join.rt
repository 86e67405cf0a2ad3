//! Whether what finished passes leave agrees with the chapters of their gate.
ghost use Rattle.std.specs.Prelude.{◌≡◌, ◌+◌, ◌++◌, ◌∷◌, ◌⊎◌, [], IfErr, IfOk};
ghost use Rattle.gw_gate.specs.Chapters.{all_entries};
ghost use Rattle.gw_stream.specs.declared.fault.RunFault.TheVariants as run;
ghost use Rattle.gw_run.specs.Passes.{AreCounted, HaveAll, part_count, receipt_count};
ghost use Rattle.gw_audit.specs.Report.{report_of};
ghost use Rattle.gw_audit.specs.Settled.{AreSettled};

use crate::audit::is_settled;
use crate::parts::parts_of;
use crate::report::Report;
use gw_gate::Chapter;
use gw_run::{Counted, Receipts};
use gw_stream::RunFault;
use std::alloc::Global;
use std::sync::ledger::{Ledger, Share};

// What is reported of the chapters, where the notes of the passes are settled.
#[tactic(auto, using(crate::proofs::Following::exact))]
fn settled<L: Ledger>(
    alloc: Global,
    counted: &Counted<L>,
    passes: &[Receipts<L>],
    chapters: &[Chapter],
) -> Result<Report, RunFault>
    ensures settled { IfOk result (λ report. AreSettled chapters.now counted.now passes.now) }
    ensures report { IfOk result (λ report. report ≡ report_of (all_entries (chapters.now ++ counted.now.gate ∷ []))) }
    ensures unsettled { IfErr result (λ f. f ≡ run.Unsettled → AreSettled chapters.now counted.now passes.now → ⊥) }
    ensures fault { IfErr result (λ f. (f ≡ run.Memory) ⊎ (f ≡ run.Unsettled)) }
{
    let gate = counted.gate();
    // (its clause bounds the number of all entries)
    let _end = gate.end();
    let parts = parts_of(alloc, chapters, gate)?;
    if !is_settled(alloc, &parts, counted.since(), passes)? {
        return Err(RunFault::Unsettled);
    }
    Ok(Report::of(&parts))
}

// The shares of the passes, put together with a first one.
#[tactic(auto, using(crate::proofs::Marking::parts_more, crate::proofs::Marking::receipts_more))]
fn merged<L: Ledger>(first: Share<L>, passes: Vec<Receipts<L>>) -> Share<L>
    ensures parts { result.parts ≡ first.parts + part_count passes.items }
    ensures amount { result.amount ≡ first.amount + receipt_count passes.items }
{
    let mut all = first;
    for pass in passes {
        all.merge(pass.into_share());
    }
    all
}

// Where the shares have every part of the ledger, there are as many receipts as entries were added.
fn audit<L: Ledger>(counted: &mut Counted<L>, passes: Vec<Receipts<L>>)
    ensures same { counted.new ≡ counted.old }
    ensures whole { HaveAll L.parts passes.items → AreCounted counted.old passes.items }
{
    let mut passes = passes;
    let Some(last) = passes.pop() else {
        return;
    };
    let mut all = merged(last.into_share(), passes);
    counted.audit(&mut all);
}

/// What is reported of a gate whose passes have ended, where what they leave is settled: each entry since the gate was locked is that
/// of just one receipt, and all notes agree with the chapters. These are those that were closed since the gate was locked, in order.
/// The report counts them and the open one. Else the fault is `Unsettled`; the one other fault is an allocation failure.
pub fn join_all<L: Ledger>(
    alloc: Global,
    counted: &mut Counted<L>,
    passes: Vec<Receipts<L>>,
    chapters: Vec<Chapter>,
) -> Result<Report, RunFault>
    ensures same { counted.new ≡ counted.old }
    ensures settled { IfOk result (λ report. AreSettled chapters.items counted.old passes.items) }
    ensures report { IfOk result (λ report. report ≡ report_of (all_entries (chapters.items ++ counted.old.gate ∷ []))) }
    ensures unsettled { IfErr result (λ f. f ≡ run.Unsettled → AreSettled chapters.items counted.old passes.items → ⊥) }
    ensures fault { IfErr result (λ f. (f ≡ run.Memory) ⊎ (f ≡ run.Unsettled)) }
    ensures whole { HaveAll L.parts passes.items → AreCounted counted.old passes.items }
{
    let answer = settled(alloc, counted, &passes, &chapters);
    audit(counted, passes);
    answer
}
