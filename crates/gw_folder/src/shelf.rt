//! The files of a folder by their numbers, of which the one that was asked for last is open.
use crate::failure::{Asked, Failure, or_failure};
use crate::name::{number_in, put_name};
use std::alloc::Global;
use std::fs::{DirEntry, File, OpenOptions, metadata, read_dir};
use std::io::ErrorKind;
use std::os::unix::fs::{FileExt, MetadataExt, OpenOptionsExt};
use std::rt::Files;
use std::{fs, io};

/// As many bytes are read without a look at how many there are.
const SHORT: usize = 65_536;

/// A file that is open, and its number.
#[derive(Drop)]
struct Opened {
    number: u64,
    file: File,
    // which file of the system it is
    dev: u64,
    ino: u64,
    // how many bytes it has at least, where this process alone writes
    size: usize,
}

/// The files of a folder. It keeps what failed first.
#[derive(Drop)]
pub(crate) struct Shelf<'a, R> {
    rt: &'a R,
    path: String,
    // (the lock lasts as long as this handle is open)
    folder: File,
    is_written: bool,
    opened: Option<Opened>,
    failure: Option<Failure>,
}

/// What a folder lists. `None`: its name isn't text, so it is none of a log's file.
pub(crate) fn listed<R: Files + Clone + Drop>(
    entry: io::Result<DirEntry<R, Global>>,
) -> io::Result<Option<DirEntry<R, Global>>> {
    match entry {
        Ok(entry) => Ok(Some(entry)),
        Err(error) if error.kind() == ErrorKind::InvalidFilename => Ok(None),
        Err(error) => Err(error),
    }
}

/// The least and the greatest of some numbers and one more.
pub(crate) fn widened(ends: Option<(u64, u64)>, number: u64) -> (u64, u64) {
    match ends {
        None => (number, number),
        Some((first, last)) => (first.min(number), last.max(number)),
    }
}

// Fails where a path doesn't lead to what is open.
fn find_at<R: Files>(rt: &R, path: &str, held: &File) -> io::Result<()> {
    let there = metadata(rt, path)?;
    let held = held.metadata()?;
    if there.dev() == held.dev() && there.ino() == held.ino() {
        return Ok(());
    }
    Err(io::Error::from(ErrorKind::NotFound))
}

/// The bytes of a file from an offset on: this number of them, or as many as there are.
fn read_from(alloc: Global, file: &File, at: usize, len: usize) -> io::Result<Vec<u8>> {
    let mut bytes = Vec::new(alloc);
    let most = if len <= SHORT {
        len
    } else {
        let size = file.metadata()?.len() as usize;
        len.min(size.saturating_sub(at))
    };
    bytes.resize(most, 0)?;
    let mut got = 0;
    for _ in 0..u64::MAX {
        if got >= bytes.len() {
            break;
        }
        match file.read_at(&mut bytes[got..], at.wrapping_add(got) as u64) {
            Ok(0) => break,
            Ok(count) => got += count,
            Err(error) if error.kind() == ErrorKind::Interrupted => {}
            Err(error) => return Err(error),
        }
    }
    bytes.truncate(got);
    Ok(bytes)
}

impl<'a, R: Files<File = File> + AllocGlobal> Shelf<'a, R> {
    pub(crate) fn new(rt: &'a R, path: String, folder: File, is_written: bool) -> Self {
        Shelf {
            rt,
            path,
            folder,
            is_written,
            opened: None,
            failure: None,
        }
    }

    /// What failed first.
    pub(crate) fn failure(&self) -> Option<Failure> {
        self.failure
    }

    /// What came of calls. What failed first is kept.
    pub(crate) fn keep<T>(&mut self, done: Result<T, Failure>) -> Result<T, Failure> {
        if let Err(failure) = &done
            && self.failure.is_none()
        {
            self.failure = Some(*failure);
        }
        done
    }

    /// What came of a call on a file, or of the folder. What failed first is kept.
    pub(crate) fn note<T>(
        &mut self,
        asked: Asked,
        number: Option<u64>,
        done: io::Result<T>,
    ) -> Result<T, Failure> {
        self.keep(or_failure(asked, number, done))
    }

    fn path_of(&self, number: u64) -> io::Result<String> {
        let mut path = Vec::from_slice(self.rt.alloc(), self.path.as_bytes())?;
        path.push(b'/')?;
        put_name(&mut path, number)?;
        match String::from_utf8(path) {
            Ok(path) => Ok(path),
            Err(_) => Err(io::Error::from(ErrorKind::InvalidFilename)),
        }
    }

    fn open_at(&mut self, number: u64, is_made: bool) -> io::Result<()> {
        let path = self.path_of(number)?;
        let mut options = OpenOptions::new();
        options.read(true).write(self.is_written).mode(0o600);
        if is_made {
            options.create_new(true);
        }
        let file = options.open(self.rt, path.as_str())?;
        let of = file.metadata()?;
        let (dev, ino, size) = (of.dev(), of.ino(), of.len() as usize);
        self.opened = Some(Opened {
            number,
            file,
            dev,
            ino,
            size,
        });
        Ok(())
    }

    /// Opens a file, unless it is open. False: there is none.
    fn turn_to(&mut self, number: u64) -> io::Result<bool> {
        if let Some(opened) = &self.opened
            && opened.number == number
        {
            return Ok(true);
        }
        match self.open_at(number, false) {
            Ok(()) => Ok(true),
            Err(error) if error.kind() == ErrorKind::NotFound => Ok(false),
            Err(error) => Err(error),
        }
    }

    /// The file of a number. `None`: there is none.
    pub(crate) fn file(&mut self, number: u64) -> io::Result<Option<&File>> {
        if !self.turn_to(number)? {
            return Ok(None);
        }
        match &self.opened {
            Some(opened) => Ok(Some(&opened.file)),
            None => Ok(None),
        }
    }

    /// Makes the file of a number where there is none. Says whether it was made.
    pub(crate) fn make(&mut self, number: u64) -> io::Result<bool> {
        if self.turn_to(number)? {
            return Ok(false);
        }
        self.open_at(number, true)?;
        Ok(true)
    }

    /// Takes the name of a file away. There may be none.
    pub(crate) fn unlink(&mut self, number: u64) -> io::Result<()> {
        if let Some(opened) = &self.opened
            && opened.number == number
        {
            self.opened = None;
        }
        let path = self.path_of(number)?;
        match fs::remove_file(self.rt, path.as_str()) {
            Err(error) if error.kind() != ErrorKind::NotFound => Err(error),
            _ => Ok(()),
        }
    }

    /// Fails where this file is open, and its path leads to none or to another.
    pub(crate) fn find(&self, number: u64) -> io::Result<()> {
        match &self.opened {
            Some(opened) if opened.number == number => {
                let there = metadata(self.rt, self.path_of(number)?.as_str())?;
                if there.dev() == opened.dev && there.ino() == opened.ino {
                    return Ok(());
                }
                Err(io::Error::from(ErrorKind::NotFound))
            }
            _ => Ok(()),
        }
    }

    /// Fails where the path of the folder leads to none or to another.
    pub(crate) fn find_folder(&self) -> Result<(), Failure> {
        let found = find_at(self.rt, self.path.as_str(), &self.folder);
        or_failure(Asked::Find, None, found)
    }

    /// Brings to the disk which files the folder has, which has to be at its path.
    pub(crate) fn sync_names(&self) -> Result<(), Failure> {
        or_failure(Asked::Sync, None, self.folder.sync_all())?;
        self.find_folder()
    }

    /// Writes all bytes at this offset of a file that is there. There may be no gap before them.
    pub(crate) fn write(&mut self, number: u64, at: usize, bytes: &[u8]) -> io::Result<()> {
        if !self.turn_to(number)? {
            return Err(io::Error::from(ErrorKind::NotFound));
        }
        let Some(opened) = self.opened.as_mut() else {
            return Err(io::Error::from(ErrorKind::NotFound));
        };
        // (bytes of zero would stand between)
        if opened.size < at {
            return Err(io::Error::from(ErrorKind::InvalidInput));
        }
        opened.file.write_all_at(bytes, at as u64)?;
        opened.size = opened.size.max(at.saturating_add(bytes.len()));
        Ok(())
    }

    /// Cuts a file to a length, where it is longer.
    pub(crate) fn cut(&mut self, number: u64, len: usize) -> io::Result<()> {
        if !self.turn_to(number)? {
            return Ok(());
        }
        let Some(opened) = self.opened.as_mut() else {
            return Ok(());
        };
        if len < opened.file.metadata()?.len() as usize {
            opened.file.set_len(len as u64)?;
        }
        opened.size = opened.file.metadata()?.len() as usize;
        Ok(())
    }

    /// How many bytes a file has; 0 where there is none.
    pub(crate) fn size(&mut self, number: u64) -> io::Result<usize> {
        match self.file(number)? {
            Some(file) => Ok(file.metadata()?.len() as usize),
            None => Ok(0),
        }
    }

    /// The bytes of a file from an offset on: this number of them, or as many as there are.
    pub(crate) fn read(
        &mut self,
        alloc: Global,
        number: u64,
        at: usize,
        len: usize,
    ) -> io::Result<Vec<u8>> {
        match self.file(number)? {
            Some(file) => read_from(alloc, file, at, len),
            None => Ok(Vec::new(alloc)),
        }
    }

    /// Gives up the room that the folder keeps free in its file `reserve`. False: it keeps none.
    pub(crate) fn give_up_room(&self) -> io::Result<bool> {
        let path = format!(in self.rt.alloc(); "{}/reserve", self.path)?;
        let file = OpenOptions::new().write(true).open(self.rt, path.as_str())?;
        if file.metadata()?.len() == 0 {
            return Ok(false);
        }
        file.set_len(0)?;
        Ok(true)
    }

    // How many bytes a file has that may not be there any more.
    fn bytes_of(&self, number: u64) -> io::Result<u64> {
        match metadata(self.rt, self.path_of(number)?.as_str()) {
            Ok(of) => Ok(of.len()),
            Err(error) if error.kind() == ErrorKind::NotFound => Ok(0),
            Err(error) => Err(error),
        }
    }
}

impl<R: Files<File = File> + AllocGlobal + Clone + Drop> Shelf<'_, R> {
    /// The least and the greatest number of a file that has a byte. Where there is none, the first is above the last.
    pub(crate) fn ends(&self) -> io::Result<(u64, u64)> {
        let mut ends: Option<(u64, u64)> = None;
        for entry in read_dir(self.rt, self.path.as_str())? {
            if let Some(entry) = listed(entry)?
                && let Some(number) = number_in(entry.file_name().as_bytes())
                && self.bytes_of(number)? > 0
            {
                ends = Some(widened(ends, number));
            }
        }
        Ok(ends.unwrap_or((1, 0)))
    }
}
