//! A folder of the operating system, with a history of what was asked of it that takes no memory.
//!
//! What a real folder keeps can't be proved. So each call is noted with its answer, and the history says what the files are by it.
//! Of this it is proved that it is a [`Disk`]. That the folder is one too is trusted: it does what its calls answer, and a crash leaves no more.
ghost use Rattle.std.specs.Prelude.{◌∷◌, length, OnOk, OnErr};
ghost use Rattle.gw_log.specs.History as spec;

use crate::disk::{Disk, DiskFault};
use crate::history::History;
use std::alloc::Global;
use std::marker::{Brand, Model, PhantomData};

/// What a folder does when it is asked, by the numbers of its files. True, or `Some`: it was done.
pub trait Calls {
    /// The least and the greatest number of a file that has a byte. Where there is none, the first is above the last.
    fn ends(&mut self) -> Option<(u64, u64)>;

    /// How many bytes a file has; 0 where there is none.
    fn size(&mut self, number: u64) -> Option<usize>;

    /// The bytes of a file from an offset on: this number of them, or as many as there are.
    fn read(
        &mut self,
        alloc: Global,
        number: u64,
        at: usize,
        len: usize,
    ) -> Result<Vec<u8>, DiskFault>;

    /// Writes all the bytes at this offset. A file that isn't there is made.
    fn write_at(&mut self, number: u64, at: usize, bytes: &[u8]) -> bool;

    /// Cuts a file to a length.
    fn cut(&mut self, number: u64, len: usize) -> bool;

    /// Brings what was written to a file to the disk, and its name, or that it is gone.
    fn sync(&mut self, number: u64) -> bool;

    /// Removes a file.
    fn remove(&mut self, number: u64) -> bool;
}

/// What the files had when the folder was opened, all of it on the disk. A theorem holds for each.
pub trait Start {
    ghost use Rattle.gw_log.specs.Disk.{Files};

    ghost files: { Files };
}

impl Start for Brand {
    ghost use Rattle.std.specs.Prelude.{[]};

    ghost files = { λ number. [] };
}

/// A folder with its history.
#[derive(Drop)]
pub struct Recorded<C: Calls + Drop, S: Start> {
    calls: C,
    history: History,
    start: PhantomData<S>,
}

impl<C: Calls + Drop, S: Start> Model for Recorded<C, S> {
    ghost use Rattle.std.specs.Prelude.{List};
    ghost use Rattle.gw_log.specs.History.{Event};

    ghost Value = { List Event };

    ghost view = { λ r. r.history.events };
}

const FAILED: u64 = 0;

const ENDS: u64 = 1;

const SIZED: u64 = 2;

const READ: u64 = 3;

const WROTE: u64 = 4;

const CUT: u64 = 5;

const SYNCED: u64 = 6;

const REMOVED: u64 = 7;

impl<C: Calls + Drop, S: Start> Recorded<C, S> {
    ghost use Rattle.std.specs.Prelude.{◌≡◌, []};

    /// A folder that nothing was asked of yet. It has the files that `S` names, all of them on the disk.
    pub fn new(calls: C) -> Self
        ensures { result ≡ [] }
    {
        Recorded {
            calls,
            history: History::new(),
            start: PhantomData,
        }
    }

    /// Gives the folder back.
    pub fn into_calls(self) -> C {
        let Recorded {
            calls,
            history: _,
            start: _,
        } = self;
        calls
    }

    // A call that was done, or has failed.
    fn answered(&mut self, done: bool) -> Result<(), DiskFault>
        ensures ok { OnOk result (self.new ≡ self.old) }
        ensures err { OnErr result (self.new ≡ spec.Failed ∷ self.old) }
    {
        if done {
            return Ok(());
        }
        self.history.note(&[FAILED, 0, 0, 0], &[]);
        Err(DiskFault::Failed)
    }
}

impl<C: Calls + Drop, S: Start> Disk for Recorded<C, S> {
    ghost seen = { λ r. spec.seen_after S.files r };

    ghost may_leave = { λ r. spec.may_after S.files r };

    ghost moment = { λ r. length r };

    ghost left_since = { λ r. spec.left_after S.files r };

    ghost faults = { λ r. spec.faults_in r };

    ghost honest = { λ r. spec.IsHonest S.files r };

    ghost only_now = { λ r. spec.only_so S.files r };

    fn ends(&mut self) -> Result<(u64, u64), DiskFault> {
        let Some((first, last)) = self.calls.ends() else {
            self.history.note(&[FAILED, 0, 0, 0], &[]);
            return Err(DiskFault::Failed);
        };
        self.history.note(&[ENDS, first, last, 0], &[]);
        Ok((first, last))
    }

    fn size(&mut self, number: u64) -> Result<usize, DiskFault> {
        let Some(size) = self.calls.size(number) else {
            self.history.note(&[FAILED, 0, 0, 0], &[]);
            return Err(DiskFault::Failed);
        };
        self.history.note(&[SIZED, number, size as u64, 0], &[]);
        Ok(size)
    }

    fn read(
        &mut self,
        alloc: Global,
        number: u64,
        at: usize,
        len: usize,
    ) -> Result<Vec<u8>, DiskFault> {
        match self.calls.read(alloc, number, at, len) {
            Ok(bytes) => {
                self.history
                    .note(&[READ, number, at as u64, len as u64], &bytes);
                Ok(bytes)
            }
            Err(fault) => {
                self.history.note(&[FAILED, 0, 0, 0], &[]);
                Err(fault)
            }
        }
    }

    fn write_at(&mut self, number: u64, at: usize, bytes: &[u8]) -> Result<(), DiskFault> {
        self.history.note(&[WROTE, number, at as u64, 0], bytes);
        let done = self.calls.write_at(number, at, bytes);
        self.answered(done)
    }

    fn cut(&mut self, number: u64, len: usize) -> Result<(), DiskFault> {
        self.history.note(&[CUT, number, len as u64, 0], &[]);
        let done = self.calls.cut(number, len);
        self.answered(done)
    }

    fn sync(&mut self, number: u64) -> Result<(), DiskFault> {
        let done = self.calls.sync(number);
        self.answered(done)?;
        self.history.note(&[SYNCED, number, 0, 0], &[]);
        Ok(())
    }

    fn remove(&mut self, number: u64) -> Result<(), DiskFault> {
        self.history.note(&[REMOVED, number, 0, 0], &[]);
        let done = self.calls.remove(number);
        self.answered(done)
    }
}
