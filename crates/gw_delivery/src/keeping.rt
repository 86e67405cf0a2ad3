//! Which files of the log are needed, and what lies refused.
//!
//! A file is needed from the first on that has a message which is left for a receiver, which a receiver refused and that wasn't due to it again since,
//! or which is due to it once more; and so is the file of the plan that it is under.
use crate::fault::PageFault;
use crate::pages::{Page, Pages, Tail};
use gw_due::{Entry, Event, How, ReadFault, read};
use gw_ledger::{Mark, begun_by, young_from};
use gw_log::Calls;
use std::alloc::{AllocError, Global};
use std::collections::VecDeque;

/// How many records are read on at once.
const MOST: u64 = 50_000;

/// A message that was accepted at `place`, and is kept for a receiver: it refused it, or it is due to it once more, at `at`. The record at `by` says so.
#[derive(Clone, Copy)]
struct Kept {
    receiver: u32,
    at: u64,
    place: u64,
    by: u64,
}

/// A message that was accepted at `place`, and lies refused: the record at `by` says how it was.
#[derive(Clone, Copy)]
pub struct Refused {
    pub place: u64,
    pub by: u64,
}

/// What all records up to a place say of files, and of what lies refused. It grows with the files, and with what lies refused.
pub struct Keeper<V: Calls + Drop> {
    alloc: Global,
    pages: Pages<V>,
    files: Vec<Mark>,
    // the number of the last file that was read
    number: u64,
    refused: VecDeque<Kept>,
    repeated: VecDeque<Kept>,
}

// (by hand, so that no crate above proves again how its fields are dropped)
impl<V: Calls + Drop> Drop for Keeper<V> {
    fn drop(self) {
        let Keeper {
            alloc: _,
            pages: _,
            files: _,
            number: _,
            refused: _,
            repeated: _,
        } = self;
    }
}

/// Takes the first out that is a receiver's, at this place.
fn take(all: &mut VecDeque<Kept>, receiver: u32, at: u64) -> Option<Kept> {
    let number = all
        .iter()
        .position(|one| one.receiver == receiver && one.at == at)?;
    all.remove(number)
}

impl<V: Calls + Drop> Keeper<V> {
    /// Before all records of the log that is looked at.
    pub fn new(alloc: Global, view: V) -> Self {
        Keeper {
            alloc,
            pages: Pages::new(alloc, view),
            files: Vec::new(alloc),
            number: 0,
            refused: VecDeque::new(alloc),
            repeated: VecDeque::new(alloc),
        }
    }

    /// The place of the record that is read next.
    pub fn place(&self) -> u64 {
        self.pages.place()
    }

    // Goes over an event, which stands at this place.
    fn over(&mut self, at: u64, event: &Event<'_>) -> Result<(), AllocError> {
        match event {
            Event::Again { receiver, place } => {
                let _sent = take(&mut self.refused, *receiver, *place);
                self.repeated.push_back(Kept {
                    receiver: *receiver,
                    at,
                    place: *place,
                    by: at,
                })?;
            }
            Event::Passed {
                receiver,
                place,
                how,
            } => {
                let place = match take(&mut self.repeated, *receiver, *place) {
                    Some(one) => one.place,
                    None => *place,
                };
                if let How::Refused { .. } = how {
                    self.refused.push_back(Kept {
                        receiver: *receiver,
                        at: place,
                        place,
                        by: at,
                    })?;
                }
            }
            _ => {}
        }
        Ok(())
    }

    // Notes the file of the event at this place.
    fn mark(&mut self, at: u64, time: u64, event: &Event<'_>) -> Result<(), AllocError> {
        let number = self.pages.segment();
        if number != self.number {
            self.number = number;
            if self.files.is_empty() || matches!(event, Event::Planned { .. }) {
                self.files.push(Mark {
                    number,
                    first: at,
                    latest: 0,
                })?;
            }
        }
        if matches!(event, Event::Accepted { .. } | Event::Passed { .. })
            && let Some(file) = self.files.last_mut()
        {
            file.latest = file.latest.max(time).max(1);
        }
        Ok(())
    }

    // Goes over a record.
    fn note(&mut self, page: &Page) -> Result<(), PageFault> {
        let Entry { time, event } = match read(self.alloc, &page.bytes) {
            Ok(entry) => entry,
            Err(ReadFault::Memory) => return Err(PageFault::Memory),
            Err(ReadFault::Unreadable) => return Err(PageFault::Message { place: page.place }),
        };
        self.mark(page.place, time, &event)?;
        self.over(page.place, &event)?;
        Ok(())
    }

    /// Reads on. True: all records before this place were read, else it is asked again.
    pub fn read_to(&mut self, tail: Tail, place: u64) -> Result<bool, PageFault> {
        if self.pages.segment() == 0 {
            self.pages.rewind(tail)?;
        }
        for _ in 0..MOST {
            if self.pages.place() >= place {
                return Ok(true);
            }
            let Some(page) = self.pages.next(tail)? else {
                return Ok(false);
            };
            self.note(&page)?;
        }
        Ok(false)
    }

    /// The messages that lie refused by a receiver, in the order in which it refused them.
    pub fn refused(&self, receiver: u32) -> Result<Vec<Refused>, AllocError> {
        let mut places = Vec::new(self.alloc);
        for one in &self.refused {
            if one.receiver == receiver {
                places.push(Refused {
                    place: one.place,
                    by: one.by,
                })?;
            }
        }
        Ok(places)
    }

    // From where on records are needed, or a message was accepted or passed at this time or later. What is left for receivers begins at the other place.
    fn kept(&self, left: u64, since: u64) -> u64 {
        let mut place = left;
        for one in self.refused.iter().chain(self.repeated.iter()) {
            place = place.min(one.place);
        }
        young_from(place, since, &self.files)
    }

    /// The place of the first record of the first file that is needed, or in which a message was accepted or passed at this time or later.
    /// What is left for receivers begins at the other place.
    pub fn needed(&self, left: u64, since: u64) -> u64 {
        begun_by(self.kept(left, since), &self.files)
    }

    /// Whether a message was accepted or passed in the last file.
    pub fn has_message(&self) -> bool {
        match self.files.last() {
            Some(file) => file.latest > 0,
            None => false,
        }
    }

    /// Whether nothing is needed of all that was read, and no message was accepted or passed at this time or later.
    pub fn is_free(&self, left: u64, since: u64) -> bool {
        self.kept(left, since) >= self.pages.place()
    }

    /// How many bytes the files have that were read, up to the last one that counts.
    pub fn bytes(&mut self, tail: Tail) -> u64 {
        let first = match self.files.first() {
            Some(file) => file.number,
            None => tail.segment,
        };
        let mut bytes = 0_u64;
        for number in first..=tail.segment {
            bytes = bytes.saturating_add(self.pages.size(number) as u64);
        }
        bytes
    }

    /// Whether a file in which a message was accepted or passed goes when the next one is begun, where records are needed from this place on.
    pub fn frees(&mut self, needed: u64) -> bool {
        for _ in 0..self.files.len() {
            let Some(file) = self.files.first() else {
                break;
            };
            let number = file.number;
            if self.pages.size(number) > 0 || self.files.is_empty() {
                break;
            }
            let _gone = self.files.remove(0);
        }
        let mut has_message = false;
        for file in &self.files {
            if has_message && file.first <= needed {
                return true;
            }
            has_message = has_message || file.latest > 0;
        }
        false
    }
}
