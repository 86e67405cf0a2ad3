//! Messages that are looked for in the log, and how their receivers stand.
use crate::fault::PageFault;
use crate::pages::{Page, Pages, Tail};
use gw_ack::control_of;
use gw_due::{Event, How, ReadFault, read};
use gw_log::Calls;
use std::alloc::{AllocError, Global};
use std::collections::VecDeque;

/// How many records are read on at once.
const MOST: u64 = 50_000;

/// How many messages are kept at most: the last ones.
const KEPT: usize = 200;

/// Which messages are looked for.
#[derive(Drop)]
pub enum Wanted {
    /// Those of this control id (MSH-10).
    Control { id: Vec<u8> },
    /// The one that was accepted at this place.
    Place { place: u64 },
}

/// What came of a message for a receiver.
#[derive(Clone, Copy)]
pub enum Fate {
    Waits,
    Taken,
    Refused { code: u32 },
    Skipped,
}

/// How a receiver stands with a message: it is due to it at the place `due`, and the record at `at` says what came of it.
/// Its time is in microseconds since 1970 began.
#[derive(Clone, Copy)]
pub struct Stood {
    pub receiver: u32,
    pub due: u64,
    pub fate: Fate,
    pub at: u64,
    pub time: u64,
}

/// A message that was found: where it was accepted, when, under which number, how many bytes it has, and how each receiver stands with it.
pub struct Filed {
    pub place: u64,
    pub time: u64,
    pub number: u64,
    pub size: usize,
    pub to: Vec<Stood>,
}

// (by hand, so that no crate above proves again how its fields are dropped)
impl Drop for Filed {
    fn drop(self) {
        let Filed {
            place: _,
            time: _,
            number: _,
            size: _,
            to: _,
        } = self;
    }
}

/// Looks for messages. It keeps those that it found, and no byte of them.
pub struct Search<V: Calls + Drop> {
    alloc: Global,
    pages: Pages<V>,
    wanted: Wanted,
    found: VecDeque<Filed>,
    earlier: u64,
}

// (by hand, so that no crate above proves again how its fields are dropped)
impl<V: Calls + Drop> Drop for Search<V> {
    fn drop(self) {
        let Search {
            alloc: _,
            pages: _,
            wanted: _,
            found: _,
            earlier: _,
        } = self;
    }
}

// The first segment of a message.
fn header(bytes: &[u8]) -> &[u8] {
    match bytes
        .iter()
        .position(|byte| *byte == b'\r' || *byte == b'\n')
    {
        Some(at) => bytes.get(..at).unwrap_or(bytes),
        None => bytes,
    }
}

// Whether a message has this control id.
fn has_control(alloc: Global, bytes: &[u8], id: &[u8]) -> Result<bool, AllocError> {
    match gw_er7::read(alloc, header(bytes)) {
        Ok(message) => Ok(control_of(&message) == id),
        Err(gw_er7::ReadFault::Memory) => Err(AllocError),
        Err(_) => Ok(false),
    }
}

// How the receivers of a route stand with a message at first.
fn route(alloc: Global, to: &[u32], place: u64, time: u64) -> Result<Vec<Stood>, AllocError> {
    let mut all = Vec::new(alloc);
    for receiver in to {
        all.push(Stood {
            receiver: *receiver,
            due: place,
            fate: Fate::Waits,
            at: place,
            time,
        })?;
    }
    Ok(all)
}

// What came of a message, by how its receiver passed it.
fn fate_of(how: &How<'_>) -> Fate {
    match how {
        How::Taken => Fate::Taken,
        How::Refused { code, .. } => Fate::Refused { code: *code },
        How::Skipped => Fate::Skipped,
    }
}

impl Filed {
    // It is due to a receiver once more, by the record at this place.
    fn repeat(&mut self, receiver: u32, at: u64, time: u64) -> Result<(), AllocError> {
        let stood = Stood {
            receiver,
            due: at,
            fate: Fate::Waits,
            at,
            time,
        };
        for one in self.to.iter_mut() {
            if one.receiver == receiver {
                *one = stood;
                return Ok(());
            }
        }
        self.to.push(stood)?;
        Ok(())
    }

    // By the record at a place a receiver passed what was due to it at another.
    fn pass(&mut self, receiver: u32, due: u64, fate: Fate, at: u64, time: u64) {
        for one in self.to.iter_mut() {
            if one.receiver == receiver && one.due == due {
                one.fate = fate;
                one.at = at;
                one.time = time;
            }
        }
    }
}

impl<V: Calls + Drop> Search<V> {
    /// Before all records of the log that is looked at.
    pub fn new(alloc: Global, view: V, wanted: Wanted) -> Self {
        Search {
            alloc,
            pages: Pages::new(alloc, view),
            wanted,
            found: VecDeque::new(alloc),
            earlier: 0,
        }
    }

    /// The place of the record that is read next.
    pub fn place(&self) -> u64 {
        self.pages.place()
    }

    /// What was found, in the log's order, by all records up to there.
    pub fn found(&self) -> &VecDeque<Filed> {
        &self.found
    }

    /// How many were found before these, and aren't kept.
    pub fn earlier(&self) -> u64 {
        self.earlier
    }

    // Whether the message that was accepted at this place is looked for.
    fn is_wanted(&self, at: u64, bytes: &[u8]) -> Result<bool, AllocError> {
        match &self.wanted {
            Wanted::Control { id } => has_control(self.alloc, bytes, id),
            Wanted::Place { place } => Ok(*place == at),
        }
    }

    // Keeps a message.
    fn keep(&mut self, filed: Filed) -> Result<(), AllocError> {
        if self.found.len() >= KEPT {
            let _first = self.found.pop_front();
            self.earlier = self.earlier.saturating_add(1);
        }
        self.found.push_back(filed)?;
        Ok(())
    }

    // Goes over an event, which stands at this place.
    fn over(&mut self, at: u64, time: u64, event: &Event<'_>) -> Result<(), AllocError> {
        match event {
            Event::Accepted { number, to, bytes } => {
                if self.is_wanted(at, bytes)? {
                    let to = route(self.alloc, to, at, time)?;
                    let (number, size) = (*number, bytes.len());
                    self.keep(Filed {
                        place: at,
                        time,
                        number,
                        size,
                        to,
                    })?;
                }
            }
            Event::Again { receiver, place } => {
                for filed in self.found.iter_mut() {
                    if filed.place == *place {
                        filed.repeat(*receiver, at, time)?;
                    }
                }
            }
            Event::Passed {
                receiver,
                place,
                how,
            } => {
                let fate = fate_of(how);
                for filed in self.found.iter_mut() {
                    filed.pass(*receiver, *place, fate, at, time);
                }
            }
            _ => {}
        }
        Ok(())
    }

    // Goes over a record.
    fn note(&mut self, page: &Page) -> Result<(), PageFault> {
        match read(self.alloc, &page.bytes) {
            Ok(entry) => Ok(self.over(page.place, entry.time, &entry.event)?),
            Err(ReadFault::Memory) => Err(PageFault::Memory),
            Err(ReadFault::Unreadable) => Err(PageFault::Message { place: page.place }),
        }
    }

    // Goes to the first record that may say something of what is looked for.
    fn begin(&mut self, tail: Tail) -> Result<(), PageFault> {
        self.pages.rewind(tail)?;
        if let Wanted::Place { place } = &self.wanted
            && *place > self.pages.place()
        {
            return self.pages.seek(tail, *place);
        }
        Ok(())
    }

    /// Reads on. True: all records before this place were read, else it is asked again.
    pub fn read_to(&mut self, tail: Tail, place: u64) -> Result<bool, PageFault> {
        if self.pages.segment() == 0 {
            self.begin(tail)?;
        }
        for _ in 0..MOST {
            if self.pages.place() >= place {
                return Ok(true);
            }
            let Some(page) = self.pages.next(tail)? else {
                return Ok(false);
            };
            self.note(&page)?;
        }
        Ok(false)
    }
}
