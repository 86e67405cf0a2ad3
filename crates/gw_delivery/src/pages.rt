//! The log, read on from a place.
use crate::fault::{PageFault, page_fault};
use gw_due::{Event, ReadFault, State, read};
use gw_log::{Calls, Disk, Reader, Recorded, read_head};
use std::alloc::Global;
use std::marker::Brand;

/// The last file of the log that counts, and how many of its bytes do.
#[derive(Clone, Copy)]
pub struct Tail {
    pub segment: u64,
    pub end: usize,
}

/// A record that was read, and its place.
#[derive(Drop)]
pub struct Page {
    pub place: u64,
    pub bytes: Vec<u8>,
}

/// Reads a log's files on, from one record to the next. It needs memory for one record.
pub struct Pages<V: Calls + Drop> {
    alloc: Global,
    view: Option<V>,
    segment: u64,
    at: usize,
    place: u64,
    // of the plan in force there
    plan: Option<u64>,
    // records at places below this one may be gone, by the head of the file that was opened last
    kept: u64,
    // the file has no record from this place on; 0 where that isn't known
    until: u64,
}

// (by hand, so that no crate above proves again how its fields are dropped)
impl<V: Calls + Drop> Drop for Pages<V> {
    fn drop(self) {
        let Pages {
            alloc: _,
            view: _,
            segment: _,
            at: _,
            place: _,
            plan: _,
            kept: _,
            until: _,
        } = self;
    }
}

impl<V: Calls + Drop> Pages<V> {
    /// Before any file.
    pub fn new(alloc: Global, view: V) -> Self {
        Pages {
            alloc,
            view: Some(view),
            segment: 0,
            at: 0,
            place: 0,
            plan: None,
            kept: 0,
            until: 0,
        }
    }

    /// The place of the next record.
    pub fn place(&self) -> u64 {
        self.place
    }

    /// The number of the file that has it.
    pub fn segment(&self) -> u64 {
        self.segment
    }

    /// Where the plan in force there stands.
    pub fn plan(&self) -> Option<u64> {
        self.plan
    }

    /// Whether the record at a place that isn't before this one is known to stand in this file. Files behind it may go before they are read.
    pub(crate) fn has(&self, tail: Tail, place: u64) -> bool {
        self.segment == tail.segment || place < self.until
    }

    /// How many bytes a file has; 0 where there is none.
    pub(crate) fn size(&mut self, segment: u64) -> usize {
        match self.view.as_mut() {
            Some(view) => view.size(segment).unwrap_or(0),
            None => 0,
        }
    }

    /// The fault of what stands here.
    pub(crate) fn fault(&self) -> PageFault {
        PageFault::Damaged {
            segment: self.segment,
            at: self.at,
        }
    }

    fn damaged<T>(&self) -> Result<T, PageFault> {
        Err(self.fault())
    }

    /// Before any file again.
    pub(crate) fn leave(&mut self) {
        self.segment = 0;
    }

    // Where the records of a file end.
    fn end_of(&mut self, tail: Tail) -> Result<usize, PageFault> {
        if self.segment == tail.segment {
            return Ok(tail.end);
        }
        let Some(view) = self.view.as_mut() else {
            return self.damaged();
        };
        match view.size(self.segment) {
            Some(size) if size > 0 => Ok(size - 1),
            _ => self.damaged(),
        }
    }

    // The record that stands here.
    fn record(&mut self, upto: usize) -> Result<Option<Vec<u8>>, PageFault> {
        let Some(view) = self.view.take() else {
            return self.damaged();
        };
        let disk = Recorded::<V, Brand>::new(view);
        let mut reader = Reader::at(self.alloc, disk, self.segment, self.at, upto);
        let read = reader.next();
        let at = reader.place();
        self.view = Some(reader.into_disk().into_calls());
        match read {
            Ok(found) => {
                self.at = at;
                Ok(found)
            }
            Err(fault) => Err(page_fault(fault, self.segment, self.at)),
        }
    }

    // Goes to the first record of a file, and gives how many stand before it.
    fn open(&mut self, segment: u64, tail: Tail) -> Result<u64, PageFault> {
        self.segment = segment;
        self.at = 0;
        self.until = 0;
        let upto = self.end_of(tail)?;
        let Some(bytes) = self.record(upto)? else {
            return self.damaged();
        };
        let Some(head) = read_head(&bytes) else {
            return self.damaged();
        };
        match State::read(self.alloc, head.checkpoint) {
            Ok(state) => {
                self.place = head.first;
                self.kept = head.keep;
                self.plan = state.plan();
                Ok(head.first)
            }
            Err(ReadFault::Memory) => Err(PageFault::Memory),
            Err(ReadFault::Unreadable) => self.damaged(),
        }
    }

    /// Goes to the file that has this place: the last one whose first record stands there or before.
    pub fn seek(&mut self, tail: Tail, place: u64) -> Result<(), PageFault> {
        let (mut segment, mut until) = (tail.segment, 0);
        for _ in 0..u64::MAX {
            let first = self.open(segment, tail)?;
            self.until = until;
            if first <= place {
                return Ok(());
            }
            if segment == 0 {
                break;
            }
            segment -= 1;
            until = first;
        }
        self.damaged()
    }

    /// Goes to the first record of the first file that doesn't go when the next one is begun, as long as no more records are given up. Its place.
    pub fn seek_kept(&mut self, tail: Tail) -> Result<u64, PageFault> {
        self.open(tail.segment, tail)?;
        let kept = self.kept;
        self.seek(tail, kept)?;
        Ok(self.place)
    }

    /// The next record. None: it doesn't count yet, or there is none.
    pub fn next(&mut self, tail: Tail) -> Result<Option<Page>, PageFault> {
        for _ in 0..u64::MAX {
            if self.segment == 0 {
                self.seek(tail, 0)?;
            }
            let upto = self.end_of(tail)?;
            let Some(bytes) = self.record(upto)? else {
                return if self.segment < tail.segment {
                    self.damaged()
                } else {
                    Ok(None)
                };
            };
            if !bytes.is_empty() {
                let place = self.place;
                self.place = place.saturating_add(1);
                return Ok(Some(Page { place, bytes }));
            }
            let place = self.place;
            if self.open(self.segment.saturating_add(1), tail)? != place {
                return self.damaged();
            }
        }
        Ok(None)
    }

    /// The record at this place.
    pub fn find(&mut self, tail: Tail, place: u64) -> Result<Vec<u8>, PageFault> {
        if self.segment == 0 || self.place > place {
            self.seek(tail, place)?;
        }
        for _ in 0..u64::MAX {
            let Some(page) = self.next(tail)? else {
                break;
            };
            if let Ok(entry) = read(self.alloc, &page.bytes)
                && let Event::Planned { .. } = entry.event
            {
                self.plan = Some(page.place);
            }
            if page.place == place {
                return Ok(page.bytes);
            }
        }
        self.damaged()
    }

    /// Goes to the first record of the first file that is there. None goes but from the front.
    pub fn rewind(&mut self, tail: Tail) -> Result<(), PageFault> {
        let mut first = tail.segment;
        for _ in 0..u64::MAX {
            if first <= 1 || self.size(first - 1) == 0 {
                break;
            }
            first -= 1;
        }
        self.open(first, tail)?;
        Ok(())
    }
}
