//! The log, read on with the plan in force.
ghost use Rattle.std.specs.Prelude.{◌≡◌, IfOk};

use crate::fault::PageFault;
use crate::pages::{Pages, Tail};
use crate::sight::{Sight, note};
use crate::under::{Under, behind};
use gw_due::ReadFault;
use gw_gateway::Office;
use gw_journal::{Journal, Naming, Storage};
use gw_log::Calls;
use std::alloc::Global;
use std::sync::Wait;

/// What is read of a log: from a file's first record on, so that the plan in force is known. Each record is noted in its journal.
#[derive(Drop)]
pub(crate) struct Walk<J: Naming, V: Calls + Drop> {
    alloc: Global,
    pages: Pages<V>,
    under: Option<Under<J>>,
}

impl<J: Naming, V: Calls + Drop> Walk<J, V> {
    /// Before any file.
    pub(crate) fn new(alloc: Global, view: V) -> Self {
        Walk {
            alloc,
            pages: Pages::new(alloc, view),
            under: None,
        }
    }

    /// What is known of the plan at the place of the record that was read last.
    pub(crate) fn under(&self) -> &Option<Under<J>> {
        &self.under
    }

    /// The fault of what stands here.
    pub(crate) fn damaged(&self) -> PageFault {
        self.pages.fault()
    }

    /// Before any file again.
    pub(crate) fn leave(&mut self) {
        self.pages.leave();
        self.under = None;
    }

    // Whether it can be read on from here to this place: it is the next one, or in this file. Of the files between some may be gone.
    fn leads_to(&self, tail: Tail, place: u64) -> bool {
        let here = self.pages.place();
        if self.pages.segment() == 0 || here > place {
            return false;
        }
        if here < place && !self.pages.has(tail, place) {
            return false;
        }
        match &self.under {
            Some(under) => under.at() == self.pages.place(),
            None => true,
        }
    }

    /// Goes to the file that has this place, where it doesn't lead there already.
    pub(crate) fn seek(&mut self, tail: Tail, place: u64) -> Result<(), PageFault> {
        if self.leads_to(tail, place) {
            return Ok(());
        }
        self.under = None;
        self.pages.seek(tail, place)
    }

    /// The next record. None: it doesn't count yet.
    pub(crate) fn next<S: Storage + Drop, R: Wait>(
        &mut self,
        rt: &R,
        journal: &Journal<J, Office<J, S>>,
        tail: Tail,
    ) -> Result<Option<Sight<J>>, PageFault> {
        let Some(page) = self.pages.next(tail)? else {
            return Ok(None);
        };
        let mut office = journal.lock(rt);
        match note(&mut office.ledger, page) {
            Some(sight) => Ok(Some(sight)),
            None => Err(self.damaged()),
        }
    }

    /// Goes on behind a record that was read.
    pub(crate) fn go_on(&mut self, sight: &Sight<J>) -> Result<(), PageFault> {
        let entry = match sight.entry(self.alloc) {
            Ok(entry) => entry,
            Err(ReadFault::Memory) => return Err(PageFault::Memory),
            Err(ReadFault::Unreadable) => return Err(self.damaged()),
        };
        match behind(self.alloc, self.under.take(), sight, &entry.event) {
            Ok(under) => {
                self.under = under;
                Ok(())
            }
            Err(_) => {
                self.pages.leave();
                Err(PageFault::Memory)
            }
        }
    }

    /// The record at this place. The plan at that place is known then, if its file begins with one.
    pub(crate) fn find<S: Storage + Drop, R: Wait>(
        &mut self,
        rt: &R,
        journal: &Journal<J, Office<J, S>>,
        tail: Tail,
        place: u64,
    ) -> Result<Sight<J>, PageFault>
        ensures { IfOk result (λ s. s.place ≡ place) }
    {
        self.seek(tail, place)?;
        for _ in 0..u64::MAX {
            let Some(sight) = self.next(rt, journal, tail)? else {
                return Err(self.damaged());
            };
            if sight.place() == place {
                return Ok(sight);
            }
            self.go_on(&sight)?;
        }
        Err(self.damaged())
    }
}
