//! A folder that is looked at and not changed.
use crate::failure::{Asked, Failure, OpenFault, or_failure};
use crate::folder::disk_fault;
use crate::layer::Layer;
use crate::opening::{each_number, lock_shared, open_folder};
use crate::shelf::{Shelf, widened};
use gw_log::{Calls, DiskFault};
use std::alloc::Global;
use std::fs::File;
use std::io;
use std::io::ErrorKind;
use std::rt::Files;

/// What was written over a file.
#[derive(Drop)]
struct Sheet {
    number: u64,
    layer: Layer,
}

/// A folder whose files are a log's, as they would be with what is written to them. That is kept in memory: no file changes.
#[derive(Drop)]
pub struct FolderView<'a, R> {
    alloc: Global,
    shelf: Shelf<'a, R>,
    numbers: Vec<u64>,
    sheets: Vec<Sheet>,
}

impl<'a, R: Files<File = File> + AllocGlobal + Clone + Drop> FolderView<'a, R> {
    /// Looks at the folder at this path. No process may write in it.
    pub fn open(rt: &'a R, path: &str) -> Result<Self, OpenFault> {
        let alloc = rt.alloc();
        let folder = lock_shared(rt, path)?;
        let shelf = Shelf::new(rt, String::from_str(alloc, path)?, folder, false);
        let numbers = each_number(rt, path)?;
        shelf.find_folder()?;
        Ok(FolderView {
            alloc,
            shelf,
            numbers,
            sheets: Vec::new(alloc),
        })
    }
}

impl<'a, R: Files<File = File> + AllocGlobal + Clone + Drop> FolderView<'a, R> {
    /// Looks at the folder at this path, which this process has locked and writes in. What lies below the end that counts doesn't change any more.
    pub fn beside(rt: &'a R, path: &str) -> Result<Self, OpenFault> {
        let alloc = rt.alloc();
        let folder = or_failure(Asked::Open, None, open_folder(rt, path))?;
        let shelf = Shelf::new(rt, String::from_str(alloc, path)?, folder, false);
        Ok(FolderView {
            alloc,
            shelf,
            numbers: Vec::new(alloc),
            sheets: Vec::new(alloc),
        })
    }
}

impl<R: Files<File = File> + AllocGlobal> FolderView<'_, R> {
    /// What failed first.
    pub fn failure(&self) -> Option<Failure> {
        self.shelf.failure()
    }

    fn layer(&self, number: u64) -> Option<&Layer> {
        match self.sheets.iter().find(|sheet| sheet.number == number) {
            Some(sheet) => Some(&sheet.layer),
            None => None,
        }
    }

    fn size_of(&mut self, number: u64) -> io::Result<usize> {
        match self.layer(number) {
            Some(layer) => Ok(layer.size()),
            None => self.shelf.size(number),
        }
    }

    fn read_of(
        &mut self,
        alloc: Global,
        number: u64,
        at: usize,
        len: usize,
    ) -> io::Result<Vec<u8>> {
        let seen = match self.layer(number) {
            Some(layer) => len.min(layer.keep().saturating_sub(at)),
            None => len,
        };
        let front = self.shelf.read(alloc, number, at, seen)?;
        match self.layer(number) {
            Some(layer) => Ok(layer.read(front, at, len)?),
            None => Ok(front),
        }
    }

    // Where the layer over a file stands among the others. It is made where there is none.
    fn lay(&mut self, number: u64) -> io::Result<usize> {
        if let Some(at) = self.sheets.iter().position(|sheet| sheet.number == number) {
            return Ok(at);
        }
        let size = self.shelf.size(number)?;
        let layer = Layer::new(self.alloc, size);
        self.sheets.push(Sheet { number, layer })?;
        Ok(self.sheets.len() - 1)
    }

    fn write_over(&mut self, number: u64, at: usize, bytes: &[u8]) -> io::Result<()> {
        let place = self.lay(number)?;
        let Some(sheet) = self.sheets.get_mut(place) else {
            return Err(io::Error::from(ErrorKind::Other));
        };
        if sheet.layer.size() < at {
            return Err(io::Error::from(ErrorKind::InvalidInput));
        }
        let keep = sheet.layer.keep();
        if at < keep {
            let between = self.shelf.read(self.alloc, number, at, keep - at)?;
            sheet.layer.lift(at, between)?;
        }
        sheet.layer.write(self.alloc, at, bytes)?;
        Ok(())
    }

    fn cut_over(&mut self, number: u64, len: usize) -> io::Result<()> {
        let place = self.lay(number)?;
        let Some(sheet) = self.sheets.get_mut(place) else {
            return Err(io::Error::from(ErrorKind::Other));
        };
        sheet.layer.cut(len);
        Ok(())
    }

    fn ends_of(&mut self) -> io::Result<(u64, u64)> {
        let mut ends: Option<(u64, u64)> = None;
        let mut numbers = Vec::from_slice(self.alloc, &self.numbers)?;
        for sheet in &self.sheets {
            numbers.push(sheet.number)?;
        }
        for number in &numbers {
            if self.size_of(*number)? > 0 {
                ends = Some(widened(ends, *number));
            }
        }
        Ok(ends.unwrap_or((1, 0)))
    }
}

impl<R: Files<File = File> + AllocGlobal + Drop> Calls for FolderView<'_, R> {
    fn ends(&mut self) -> Option<(u64, u64)> {
        let found = self.ends_of();
        self.shelf.note(Asked::List, None, found).ok()
    }

    fn size(&mut self, number: u64) -> Option<usize> {
        let size = self.size_of(number);
        self.shelf.note(Asked::Size, Some(number), size).ok()
    }

    fn read(
        &mut self,
        alloc: Global,
        number: u64,
        at: usize,
        len: usize,
    ) -> Result<Vec<u8>, DiskFault> {
        let read = self.read_of(alloc, number, at, len);
        self.shelf
            .note(Asked::Read, Some(number), read)
            .map_err(disk_fault)
    }

    fn write_at(&mut self, number: u64, at: usize, bytes: &[u8]) -> bool {
        let written = self.write_over(number, at, bytes);
        self.shelf.note(Asked::Write, Some(number), written).is_ok()
    }

    fn cut(&mut self, number: u64, len: usize) -> bool {
        let cut = self.cut_over(number, len);
        self.shelf.note(Asked::Cut, Some(number), cut).is_ok()
    }

    fn sync(&mut self, _number: u64) -> bool {
        true
    }

    fn remove(&mut self, number: u64) -> bool {
        self.cut(number, 0)
    }
}
