//! Two threads at one journal, over rows in memory.
ghost use Rattle.std.specs.Prelude.{◌≡◌, []};

use gw_journal::{Desk, Journal, JournalFault, Naming, Opened, Receipt, Storage};
use std::alloc::Global;
use std::marker::Brand;
use std::process::Abort;
use std::sync::Wait;
use std::test::Fail;
use std::thread::{Threads, join};

/// What was put, how often something was brought to the disk, and of the files how many there are and how many are left.
#[derive(Drop)]
struct Rows {
    rows: Vec<Vec<u8>>,
    syncs: usize,
    files: u64,
    oldest: u64,
}

impl Storage for Rows {
    ghost use Rattle.std.specs.Prelude.{⊤};

    ghost stands = { λ s these. ⊤ };

    ghost leaves = { λ old new left. ⊤ };

    ghost fails = { λ old new fault. ⊤ };

    ghost tells = { λ records checkpoint. ⊤ };

    ghost spares = { λ records place. ⊤ };

    fn put(&mut self, batch: &[Vec<u8>]) -> Result<(), JournalFault> {
        self.syncs = self.syncs.saturating_add(1);
        for bytes in batch {
            let Ok(row) = bytes.clone() else {
                return Err(JournalFault::Memory);
            };
            if self.rows.push(row).is_err() {
                return Err(JournalFault::Memory);
            }
        }
        Ok(())
    }

    fn begin_next(&mut self, _keep: u64, _checkpoint: &[u8]) -> Result<(), JournalFault> {
        self.files = self.files.saturating_add(1);
        Ok(())
    }

    fn retire(&mut self) -> Result<bool, JournalFault> {
        if self.oldest >= self.files {
            return Ok(false);
        }
        self.oldest = self.oldest.saturating_add(1);
        Ok(true)
    }

    fn size(&self) -> usize {
        self.rows.len()
    }

    fn tail(&self) -> (u64, usize) {
        (self.files, self.rows.len())
    }

    ghost at_rest = { λ s these stand. tt };

    ghost goes_on = { λ old mid new left first second. tt };

    ghost widens = { λ old new left more among one. tt };
}

// No row.
fn no_rows(alloc: Global) -> Rows {
    Rows {
        rows: Vec::new(alloc),
        syncs: 0,
        files: 1,
        oldest: 1,
    }
}

/// Puts a record, and waits for its receipt.
fn store<J: Naming, R: Wait>(
    rt: &R,
    alloc: Global,
    journal: &Journal<J, Desk<J, Rows>>,
    bytes: &[u8],
) -> Option<Receipt<J>> {
    let copy = Vec::from_slice(alloc, bytes).ok()?;
    let ticket = journal.put(rt, copy).ok()?;
    journal.settle(rt, &ticket).ok()
}

fn stored_by_two<J: Naming + Send + Sync, R: Threads + Wait + Abort + Sync>(
    rt: &R,
    alloc: Global,
    opened: Opened,
) -> Result<(), Fail>
    requires book { opened.seen.book ≡ J.book }
    requires before { J.before ≡ [] }
{
    let desk = Desk::<J, Rows>::open(alloc, opened, no_rows(alloc), 0);
    let journal = Journal::new(alloc, desk);
    let (one, other) = join(
        rt,
        || store(rt, alloc, &journal, b"first"),
        || store(rt, alloc, &journal, b"second"),
    );
    let (one, other) = (one.ok_or("a receipt")?, other.ok_or("a receipt")?);
    let refused = journal.put(rt, Vec::new(alloc)).err();
    let rows = journal.into_books().close(&other).ok_or("closes")?;
    let first = rows.rows.get(one.place() as usize).ok_or("the first row")?;
    assert!(rt; first.as_slice() == b"first".as_slice() && one.place() != other.place());
    assert!(rt; refused == Some(JournalFault::Empty));
    // (two records take one sync, if they are brought to the disk together, or two)
    assert!(rt; rows.rows.len() == 2 && rows.syncs >= 1 && rows.syncs <= 2);
    Ok(())
}

/// Each of two threads has a receipt for its own record, and both records count.
#[test]
fn each_thread_has_its_receipt(rt: HostRuntime) -> Result<(), Fail> {
    stored_by_two::<Brand, _>(&rt, rt.alloc(), Opened::new())
}
