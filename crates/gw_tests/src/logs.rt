//! A log over a folder in memory, at which the power may fail after each call.
use gw_log::{Calls, DiskFault, Log, LogFault, Recorded, Segment};
use std::alloc::{AllocError, Global};
use std::marker::Brand;
use std::test::Fail;

/// A write that was not synced.
#[derive(Drop)]
struct Write {
    number: usize,
    at: usize,
    bytes: Vec<u8>,
}

/// Files by their numbers, as they are read and as they were synced, and what was written since. Once no call is left, nothing is done any more.
#[derive(Drop)]
pub(crate) struct Folder {
    alloc: Global,
    seen: Vec<Vec<u8>>,
    kept: Vec<Vec<u8>>,
    writes: Vec<Write>,
    left: usize,
}

// Puts bytes at an offset of others, over what is there and past the end.
fn put(file: &mut Vec<u8>, at: usize, bytes: &[u8]) -> Result<(), AllocError> {
    let end = at.saturating_add(bytes.len());
    if end <= file.len() && at <= end && end - at == bytes.len() {
        file[at..end].copy_from_slice(bytes);
        return Ok(());
    }
    file.truncate(at);
    file.extend_from_slice(bytes)
}

fn copied(alloc: Global, files: &[Vec<u8>]) -> Result<Vec<Vec<u8>>, AllocError> {
    let mut copies = Vec::new(alloc);
    for file in files {
        copies.push(Vec::from_slice(alloc, file)?)?;
    }
    Ok(copies)
}

impl Folder {
    // A folder with these files, all of them on the disk.
    pub(crate) fn new(alloc: Global, files: &[Vec<u8>], left: usize) -> Result<Folder, AllocError> {
        Ok(Folder {
            alloc,
            seen: copied(alloc, files)?,
            kept: copied(alloc, files)?,
            writes: Vec::new(alloc),
            left,
        })
    }

    // One call more.
    fn is_on(&mut self) -> bool {
        if self.left == 0 {
            return false;
        }
        self.left -= 1;
        true
    }

    // What a power failure leaves, if of the writes that were not synced those of this set were done, but for this byte of each.
    fn image(&self, set: usize, lost: usize) -> Result<Vec<Vec<u8>>, AllocError> {
        let mut files = copied(self.alloc, &self.kept)?;
        let mut bits = set;
        for write in &self.writes {
            if bits % 2 == 1
                && let Some(file) = files.get_mut(write.number)
            {
                let mut bytes = Vec::from_slice(self.alloc, &write.bytes)?;
                if let Some(byte) = bytes.get_mut(lost) {
                    let at = write.at.saturating_add(lost);
                    *byte = file.get(at).copied().unwrap_or(0);
                }
                put(file, write.at, &bytes)?;
            }
            bits /= 2;
        }
        Ok(files)
    }
}

impl Calls for Folder {
    fn ends(&mut self) -> Option<(u64, u64)> {
        let (mut first, mut last) = (1, 0);
        for (number, file) in self.seen.iter().enumerate() {
            if !file.is_empty() {
                if last == 0 {
                    first = number as u64;
                }
                last = number as u64;
            }
        }
        Some((first, last))
    }

    fn size(&mut self, number: u64) -> Option<usize> {
        Some(self.seen.get(number as usize)?.len())
    }

    fn read(
        &mut self,
        alloc: Global,
        number: u64,
        at: usize,
        len: usize,
    ) -> Result<Vec<u8>, DiskFault> {
        let Some(file) = self.seen.get(number as usize) else {
            return Err(DiskFault::Failed);
        };
        let at = at.min(file.len());
        let len = len.min(file.len() - at);
        Ok(Vec::from_slice(alloc, &file[at..at + len])?)
    }

    fn write_at(&mut self, number: u64, at: usize, bytes: &[u8]) -> bool {
        let number = number as usize;
        if !self.is_on() {
            return false;
        }
        let Some(file) = self.seen.get_mut(number) else {
            return false;
        };
        let Ok(copy) = Vec::from_slice(self.alloc, bytes) else {
            return false;
        };
        let write = Write {
            number,
            at,
            bytes: copy,
        };
        put(file, at, bytes).is_ok() && self.writes.push(write).is_ok()
    }

    fn cut(&mut self, number: u64, len: usize) -> bool {
        match self.seen.get_mut(number as usize) {
            Some(file) => file.truncate(len),
            None => return false,
        }
        self.is_on()
    }

    fn sync(&mut self, _number: u64) -> bool {
        if !self.is_on() {
            return false;
        }
        match copied(self.alloc, &self.seen) {
            Ok(files) => {
                self.kept = files;
                self.writes.clear();
                true
            }
            Err(_) => false,
        }
    }

    fn remove(&mut self, number: u64) -> bool {
        self.cut(number, 0)
    }
}

pub(crate) fn batch(alloc: Global, records: &[&[u8]]) -> Result<Vec<Vec<u8>>, AllocError> {
    let mut out = Vec::new(alloc);
    for bytes in records {
        out.push(Vec::from_slice(alloc, bytes)?)?;
    }
    Ok(out)
}

pub(crate) fn no_files(alloc: Global) -> Result<Vec<Vec<u8>>, AllocError> {
    batch(alloc, &[b"", b"", b"", b"", b""])
}

// What two batches and their end do to a segment, until the power fails.
fn run(segment: &mut Segment<Recorded<Folder, Brand>>, alloc: Global) -> Result<(), LogFault> {
    segment.put(&batch(alloc, &[b"one", b"two"])?)?;
    segment.put(&batch(alloc, &[b"three"])?)
}

// The folder after this number of calls.
fn after(alloc: Global, calls: usize) -> Result<Folder, AllocError> {
    let folder = Folder::new(alloc, &no_files(alloc)?, calls)?;
    match Segment::open(alloc, Recorded::<Folder, Brand>::new(folder), 1) {
        Err((_, disk)) => Ok(disk.into_calls()),
        Ok((mut segment, _)) => {
            let _ended = run(&mut segment, alloc);
            Ok(segment.into_disk().into_calls())
        }
    }
}

// How many records a segment has in this folder.
fn count(alloc: Global, files: &[Vec<u8>]) -> Result<usize, LogFault> {
    let folder = Folder::new(alloc, files, 100)?;
    match Segment::open(alloc, Recorded::<Folder, Brand>::new(folder), 1) {
        Err((fault, _)) => Err(fault),
        Ok((_, records)) => Ok(records.len()),
    }
}

#[test]
fn a_power_failure_leaves_whole_batches(rt: HostRuntime) -> Result<(), Fail> {
    let alloc = rt.alloc();
    let mut seen = [false; 4];
    for calls in 0..10 {
        let folder = after(alloc, calls)?;
        for image in 0..400 {
            let records = count(alloc, &folder.image(image % 4, image / 4)?)?;
            assert!(rt; records < 4 && records != 1);
            if records < 4 {
                seen[records] = true;
            }
        }
    }
    assert_eq!(rt; seen, [true, false, true, true]);
    Ok(())
}

// A log of three records in two files.
pub(crate) fn two_files(alloc: Global) -> Result<Folder, LogFault> {
    let folder = Folder::new(alloc, &no_files(alloc)?, 100)?;
    let disk = Recorded::<Folder, Brand>::new(folder);
    let mut log = match Log::create(alloc, disk, 7, b"start") {
        Ok(log) => log,
        Err((fault, _)) => return Err(fault),
    };
    log.put(&batch(alloc, &[b"one", b"two"])?)?;
    log.begin_next(0, b"later")?;
    log.put(&batch(alloc, &[b"three"])?)?;
    Ok(log.into_disk().into_calls())
}

// How many records the log in these files has.
fn open(alloc: Global, files: &[Vec<u8>]) -> Result<u64, LogFault> {
    let folder = Folder::new(alloc, files, 100)?;
    match Log::open(alloc, Recorded::<Folder, Brand>::new(folder), 7) {
        Err((fault, _)) => Err(fault),
        Ok((log, _)) => Ok(log.len()),
    }
}

// How many records the log in this folder has.
pub(crate) fn count_in(alloc: Global, folder: &Folder) -> Result<u64, LogFault> {
    open(alloc, &folder.seen)
}

// The folder after this number of calls of a log that goes on to a second file.
fn turned(alloc: Global, calls: usize) -> Result<Folder, LogFault> {
    let before = two_files(alloc)?;
    let folder = Folder::new(alloc, &before.seen, calls)?;
    match Log::open(alloc, Recorded::<Folder, Brand>::new(folder), 7) {
        Err((_, disk)) => Ok(disk.into_calls()),
        Ok((mut log, _)) => {
            let _ended = log.begin_next(0, b"last");
            Ok(log.into_disk().into_calls())
        }
    }
}

#[test]
fn a_power_failure_leaves_a_log(rt: HostRuntime) -> Result<(), Fail> {
    let alloc = rt.alloc();
    for calls in 0..24 {
        let folder = turned(alloc, calls)?;
        for set in 0..4 {
            assert!(rt; open(alloc, &folder.image(set, 7)?) == Ok(3));
        }
    }
    Ok(())
}
