//! A ledger over rows in memory.
ghost use Rattle.std.specs.Prelude.{◌≡◌, []};

use gw_due::laws::Rules;
use gw_journal::{JournalFault, Naming, Opened, Storage, Ticket};
use gw_ledger::{Ledger, LedgerFault};
use std::alloc::Global;
use std::marker::Brand;
use std::process::Abort;
use std::test::Fail;

/// How many records it has, how many bytes its last checkpoint has, and from which place on its records are kept.
#[derive(Drop)]
struct Rows {
    count: usize,
    checkpoint: usize,
    keep: u64,
}

impl Storage for Rows {
    ghost use Rattle.std.specs.Prelude.{⊤};

    ghost stands = { λ s these. ⊤ };

    ghost leaves = { λ old new left. ⊤ };

    ghost fails = { λ old new fault. ⊤ };

    ghost tells = { λ records checkpoint. ⊤ };

    ghost spares = { λ records place. ⊤ };

    fn put(&mut self, batch: &[Vec<u8>]) -> Result<(), JournalFault> {
        self.count = self.count.saturating_add(batch.len());
        Ok(())
    }

    fn begin_next(&mut self, keep: u64, checkpoint: &[u8]) -> Result<(), JournalFault> {
        self.checkpoint = checkpoint.len();
        self.keep = keep;
        Ok(())
    }

    fn retire(&mut self) -> Result<bool, JournalFault> {
        Ok(false)
    }

    fn size(&self) -> usize {
        self.count
    }

    // (for the number of a file: from which place on records are kept)
    fn tail(&self) -> (u64, usize) {
        (self.keep, self.count)
    }

    ghost at_rest = { λ s these stands. tt };

    ghost goes_on = { λ old mid new left one other. tt };

    ghost widens = { λ old new left more among leaves. tt };
}

/// Each plan routes each message to anyone.
pub(crate) struct Anyone;

impl Rules for Anyone {
    ghost use Rattle.std.specs.Prelude.{⊤};

    ghost routes = { λ names plan to bytes. ⊤ };
}

// Three events, of which the last has this ticket.
fn filled<J: Naming>(ledger: &mut Ledger<J, Rows, Anyone>) -> Result<Ticket<J>, LedgerFault> {
    ledger.plan(1, b"the plan")?;
    ledger.name(2, 0, b"LAB", b"lab:2575")?;
    ledger.margin(3, 10)
}

// Brings to the rows what was put.
fn bring<J: Naming>(alloc: Global, ledger: &mut Ledger<J, Rows, Anyone>) {
    let Some(job) = ledger.take(alloc) else {
        return;
    };
    match job.run() {
        Ok(done) => ledger.give_back(done),
        Err((fault, _rows)) => ledger.fail(fault),
    }
}

// (the last file is longer than the limit, so the next one begins, and all before it counts)
fn is_kept<J: Naming>(
    alloc: Global,
    ledger: &mut Ledger<J, Rows, Anyone>,
) -> Result<bool, LedgerFault> {
    let ticket = filled(ledger)?;
    let refused = ledger.margin(4, 9).err() == Some(LedgerFault::Unlawful);
    let early = ledger.receipt(&ticket).is_some();
    bring(alloc, ledger);
    Ok(refused && !early && ledger.receipt(&ticket).is_some() && ledger.state().next() == 3)
}

// Of two answers that accept nothing the second one waits for the record of a margin.
fn are_numbered<J: Naming>(ledger: &mut Ledger<J, Rows, Anyone>) -> Result<bool, LedgerFault> {
    let (one, none) = ledger.refuse(5)?;
    ledger.margin(6, 20)?;
    let (other, awaited) = ledger.refuse(7)?;
    Ok(one == 1 && none.is_none() && other == 2 && awaited.is_some())
}

fn put_and_kept<J: Naming, A: Abort>(rt: &A, alloc: Global, opened: Opened) -> Result<(), Fail>
    requires book { opened.seen.book ≡ J.book }
    requires before { J.before ≡ [] }
{
    let rows = Rows {
        count: 1,
        checkpoint: 0,
        keep: 0,
    };
    let mut ledger = Ledger::<J, Rows, Anyone>::begin(alloc, opened, rows, 0);
    assert!(rt; is_kept(alloc, &mut ledger)?);
    assert!(rt; are_numbered(&mut ledger)?);
    Ok(())
}

/// What is put has a receipt once a thread brought it to the disk, and what may not follow is not put.
#[test]
fn what_is_put_is_kept(rt: HostRuntime) -> Result<(), Fail> {
    put_and_kept::<Brand, _>(&rt, rt.alloc(), Opened::new())
}

// From which places on records are kept, where the caller keeps none: before a message is accepted, and once it is left for a receiver.
fn kept_from<J: Naming>(
    alloc: Global,
    ledger: &mut Ledger<J, Rows, Anyone>,
) -> Result<(u64, u64), LedgerFault> {
    filled(ledger)?;
    ledger.keep_from(u64::MAX);
    bring(alloc, ledger);
    let (before, _) = ledger.tail();
    let Some(look) = ledger.look() else {
        return Err(LedgerFault::Stale);
    };
    let mut to = Vec::new(alloc);
    if to.push(0).is_err() {
        return Err(LedgerFault::Stale);
    }
    ledger.accept(4, &look, to, b"a message")?;
    ledger.plan(5, b"another plan")?;
    bring(alloc, ledger);
    let (left, _) = ledger.tail();
    Ok((before, left))
}

fn left_and_kept<J: Naming, A: Abort>(rt: &A, alloc: Global, opened: Opened) -> Result<(), Fail>
    requires book { opened.seen.book ≡ J.book }
    requires before { J.before ≡ [] }
{
    let rows = Rows {
        count: 1,
        checkpoint: 0,
        keep: 0,
    };
    let mut ledger = Ledger::<J, Rows, Anyone>::begin(alloc, opened, rows, 0);
    assert_eq!(rt; kept_from(alloc, &mut ledger)?, (3, 3));
    Ok(())
}

/// What is left for a receiver is kept, whatever place the caller names: the message stands at place 3, and the plan behind it.
#[test]
fn what_is_left_is_kept(rt: HostRuntime) -> Result<(), Fail> {
    left_and_kept::<Brand, _>(&rt, rt.alloc(), Opened::new())
}
