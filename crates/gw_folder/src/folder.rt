//! A folder in which a log is kept.
use crate::failure::{Asked, Failure, OpenFault, or_failure};
use crate::opening::{lock, settle};
use crate::shelf::Shelf;
use gw_log::{Calls, DiskFault};
use std::alloc::Global;
use std::fs::File;
use std::io;
use std::io::ErrorKind;
use std::rt::Files;

/// A folder of the operating system, whose files are a log's. One process at a time has it.
#[derive(Drop)]
pub struct RealFolder<'a, R> {
    shelf: Shelf<'a, R>,
    // the folder got or lost a file, which may not be on the disk
    has_unsynced_names: bool,
}

/// A fault of a disk, by what failed.
pub(crate) fn disk_fault(failure: Failure) -> DiskFault {
    match failure.kind {
        ErrorKind::OutOfMemory => DiskFault::Memory,
        _ => DiskFault::Failed,
    }
}

// Whether a disk, or what a user may have of it, is full.
fn is_full(kind: ErrorKind) -> bool {
    matches!(kind, ErrorKind::StorageFull | ErrorKind::QuotaExceeded)
}

impl<'a, R: Files<File = File> + AllocGlobal + Clone + Drop> RealFolder<'a, R> {
    /// Locks the folder at this path, which has to be there, and brings its files and their names to the disk.
    pub fn open(rt: &'a R, path: &str) -> Result<Self, OpenFault> {
        let alloc = rt.alloc();
        let folder = lock(rt, path)?;
        let mut shelf = Shelf::new(rt, String::from_str(alloc, path)?, folder, true);
        settle(rt, path, &mut shelf)?;
        Ok(RealFolder {
            shelf,
            has_unsynced_names: false,
        })
    }
}

impl<R: Files<File = File> + AllocGlobal> RealFolder<'_, R> {
    /// What failed first.
    pub fn failure(&self) -> Option<Failure> {
        self.shelf.failure()
    }

    fn write_all(&mut self, number: u64, at: usize, bytes: &[u8]) -> io::Result<()> {
        if self.shelf.make(number)? {
            self.has_unsynced_names = true;
        }
        self.shelf.write(number, at, bytes)
    }

    // Writes all, into the room that is kept free where there is no other.
    fn write_somehow(&mut self, number: u64, at: usize, bytes: &[u8]) -> io::Result<()> {
        let written = self.write_all(number, at, bytes);
        if let Err(error) = &written
            && is_full(error.kind())
            && self.shelf.give_up_room().unwrap_or(false)
        {
            return self.write_all(number, at, bytes);
        }
        written
    }

    fn cut_to(&mut self, number: u64, len: usize) -> io::Result<()> {
        self.shelf.cut(number, len)
    }

    fn sync_file(&mut self, number: u64) -> io::Result<()> {
        let is_whole = self.has_unsynced_names;
        match self.shelf.file(number)? {
            Some(file) if is_whole => file.sync_all(),
            Some(file) => file.sync_data(),
            None => Ok(()),
        }
    }

    // (what was synced is lost where its name is gone)
    fn sync_all(&mut self, number: u64) -> Result<(), Failure> {
        or_failure(Asked::Sync, Some(number), self.sync_file(number))?;
        or_failure(Asked::Find, Some(number), self.shelf.find(number))?;
        if self.has_unsynced_names {
            self.shelf.sync_names()?;
            self.has_unsynced_names = false;
        }
        Ok(())
    }
}

impl<R: Files<File = File> + AllocGlobal + Clone + Drop> Calls for RealFolder<'_, R> {
    fn ends(&mut self) -> Option<(u64, u64)> {
        let found = self.shelf.ends();
        self.shelf.note(Asked::List, None, found).ok()
    }

    fn size(&mut self, number: u64) -> Option<usize> {
        let size = self.shelf.size(number);
        self.shelf.note(Asked::Size, Some(number), size).ok()
    }

    fn read(
        &mut self,
        alloc: Global,
        number: u64,
        at: usize,
        len: usize,
    ) -> Result<Vec<u8>, DiskFault> {
        let read = self.shelf.read(alloc, number, at, len);
        self.shelf
            .note(Asked::Read, Some(number), read)
            .map_err(disk_fault)
    }

    fn write_at(&mut self, number: u64, at: usize, bytes: &[u8]) -> bool {
        let written = self.write_somehow(number, at, bytes);
        self.shelf.note(Asked::Write, Some(number), written).is_ok()
    }

    fn cut(&mut self, number: u64, len: usize) -> bool {
        let cut = self.cut_to(number, len);
        self.shelf.note(Asked::Cut, Some(number), cut).is_ok()
    }

    fn sync(&mut self, number: u64) -> bool {
        let synced = self.sync_all(number);
        self.shelf.keep(synced).is_ok()
    }

    fn remove(&mut self, number: u64) -> bool {
        self.has_unsynced_names = true;
        let removed = self.shelf.unlink(number);
        self.shelf
            .note(Asked::Remove, Some(number), removed)
            .is_ok()
    }
}
