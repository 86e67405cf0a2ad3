//! How a folder is locked, and what is done before its files are read.
use crate::failure::{Asked, OpenFault, or_failure};
use crate::name::{is_nearly_named, number_in};
use crate::shelf::{Shelf, listed};
use std::alloc::Global;
use std::fs::{DirEntry, File, TryLockError, read_dir};
use std::io;
use std::os::fd::AsRawFd;
use std::rt::Files;

// How many bytes a file has at most in which no log was begun. A log's first head takes 108 of them.
const UNBEGUN: usize = 128;

// Opens what has to be a folder. The dot sees to that, and a pipe isn't waited for.
pub(crate) fn open_folder<R: Files<File = File> + AllocGlobal>(
    rt: &R,
    path: &str,
) -> io::Result<File> {
    if path.is_empty() {
        return Err(io::Error::from_raw_os_error(libc::ENOENT));
    }
    let inside = format!(in rt.alloc(); "{path}/.")?;
    File::open(rt, inside.as_str())
}

// What came of a lock.
fn locked(done: Result<(), TryLockError>) -> Result<(), OpenFault> {
    match done {
        Ok(()) => Ok(()),
        Err(TryLockError::WouldBlock) => Err(OpenFault::Taken),
        Err(TryLockError::Error(error)) => {
            or_failure(Asked::Lock, None, Err(error)).map_err(OpenFault::from)
        }
    }
}

/// Opens a folder and locks it: no other process writes in it then, or looks at it.
pub(crate) fn lock<R: Files<File = File> + AllocGlobal>(
    rt: &R,
    path: &str,
) -> Result<File, OpenFault> {
    let folder = or_failure(Asked::Open, None, open_folder(rt, path))?;
    locked(folder.try_lock())?;
    Ok(folder)
}

/// Opens a folder and locks it together with others who look at it: no process writes in it then.
pub(crate) fn lock_shared<R: Files<File = File> + AllocGlobal>(
    rt: &R,
    path: &str,
) -> Result<File, OpenFault> {
    let folder = or_failure(Asked::Open, None, open_folder(rt, path))?;
    locked(folder.try_lock_shared())?;
    Ok(folder)
}

// The number of a file. None: it isn't the log's.
fn number_of<R: Files>(
    alloc: Global,
    entry: &DirEntry<R, Global>,
) -> Result<Option<u64>, OpenFault> {
    let name = entry.file_name();
    if is_nearly_named(name.as_bytes()) {
        let name = String::from_str(alloc, name)?;
        return Err(OpenFault::Misnamed { name });
    }
    let Some(number) = number_in(name.as_bytes()) else {
        return Ok(None);
    };
    if or_failure(Asked::Size, Some(number), entry.file_type())?.is_file() {
        return Ok(Some(number));
    }
    let name = String::from_str(alloc, name)?;
    Err(OpenFault::NotAFile { name })
}

/// The numbers of a folder's files, in any order. Faults are a name that nearly is one of theirs, and what has such a name and is no regular file.
pub(crate) fn each_number<R: Files + AllocGlobal + Clone + Drop>(
    rt: &R,
    path: &str,
) -> Result<Vec<u64>, OpenFault> {
    let mut numbers = Vec::new(rt.alloc());
    for entry in or_failure(Asked::List, None, read_dir(rt, path))? {
        if let Some(entry) = or_failure(Asked::List, None, listed(entry))?
            && let Some(number) = number_of(rt.alloc(), &entry)?
        {
            numbers.push(number)?;
        }
    }
    Ok(numbers)
}

// Brings what a file has to the disk, and has it read from there: what an earlier process wrote may be in memory alone, where its sync failed.
fn settle_file(file: &File) -> io::Result<()> {
    file.sync_all()?;
    let advised = libc::posix_fadvise(file.as_raw_fd(), 0, 0, libc::POSIX_FADV_DONTNEED);
    if advised != 0 {
        return Err(io::Error::from_raw_os_error(advised));
    }
    Ok(())
}

fn settle_one<R: Files<File = File> + AllocGlobal>(
    shelf: &mut Shelf<'_, R>,
    number: u64,
) -> io::Result<()> {
    match shelf.file(number)? {
        Some(file) => settle_file(file),
        None => Ok(()),
    }
}

// Whether the folder has one file, in which no log was begun: a head alone, behind a gate that isn't open. So the system stopped while it was made.
fn is_unbegun<R: Files<File = File> + AllocGlobal>(
    alloc: Global,
    shelf: &mut Shelf<'_, R>,
    numbers: &[u64],
) -> io::Result<bool> {
    if numbers.len() != 1 || numbers.first() != Some(&1) || shelf.size(1)? > UNBEGUN {
        return Ok(false);
    }
    let first = shelf.read(alloc, 1, 0, 1)?;
    Ok(first.first() != Some(&1))
}

/// Brings the files of a folder and their names to the disk. A file in which no log was begun is taken away.
pub(crate) fn settle<R: Files<File = File> + AllocGlobal + Clone + Drop>(
    rt: &R,
    path: &str,
    shelf: &mut Shelf<'_, R>,
) -> Result<(), OpenFault> {
    let numbers = each_number(rt, path)?;
    for number in &numbers {
        or_failure(Asked::Sync, Some(*number), settle_one(shelf, *number))?;
    }
    if or_failure(
        Asked::Read,
        Some(1),
        is_unbegun(rt.alloc(), shelf, &numbers),
    )? {
        or_failure(Asked::Remove, Some(1), shelf.unlink(1))?;
    }
    shelf.sync_names()?;
    Ok(())
}
