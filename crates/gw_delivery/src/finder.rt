//! What is next for a receiver, found in the log's files.
ghost use Rattle.std.specs.Prelude.{◌≡◌, IfOk, IfSome};
ghost use Rattle.gw_due.specs.Views as view;
ghost use Rattle.gw_ledger.specs.Finding.{InJournal};
ghost use Rattle.gw_delivery.specs.Made.{IsAgainAt, IsMadeAt, IsMadeThere};
ghost use Rattle.gw_delivery.specs.Seen.{IsEventAt};

use crate::fault::PageFault;
use crate::made::made;
use crate::next::Next;
use crate::pages::Tail;
use crate::plans::Plans;
use crate::sight::Sight;
use crate::under::Under;
use crate::walk::Walk;
use gw_due::{Entry, Event, ReadFault};
use gw_gateway::Office;
use gw_journal::{Front, Journal, Naming, Storage};
use gw_ledger::{Backlog, Found, Scan};
use gw_log::Calls;
use std::alloc::Global;
use std::sync::Wait;

/// Finds what is next for a receiver.
#[derive(Drop)]
pub(crate) struct Finder<'a, J: Naming, S: Storage + Drop, V: Calls + Drop, R: Wait> {
    pub(crate) rt: &'a R,
    pub(crate) alloc: Global,
    pub(crate) journal: &'a Journal<J, Office<J, S>>,
    plans: &'a Plans,
    walk: Walk<J, V>,
    // for what stands at other places
    others: Walk<J, V>,
    scan: Option<Scan<J>>,
    // what is next, but can't be made, and why
    pub(crate) aside: Option<(Found<J>, PageFault)>,
}

// What a record says.
fn said<J: Naming>(alloc: Global, sight: &Sight<J>) -> Result<Entry<'_>, PageFault>
    ensures { IfOk result (λ e. InJournal (IsEventAt sight.now.place (view.event e.event)) J.before sight.now.history) }
{
    match sight.entry(alloc) {
        Ok(entry) => Ok(entry),
        Err(ReadFault::Memory) => Err(PageFault::Memory),
        Err(ReadFault::Unreadable) => Err(PageFault::Message {
            place: sight.place(),
        }),
    }
}

// What the plan in force at a record's place makes of the message that was accepted there.
fn made_there<J: Naming, R: Wait>(
    rt: &R,
    alloc: Global,
    plans: &Plans,
    under: &Option<Under<J>>,
    sight: &Sight<J>,
    name: &[u8],
) -> Result<Vec<u8>, PageFault>
    ensures { IfOk result (λ bytes. InJournal (IsMadeThere name.now sight.now.place bytes.items) J.before sight.now.history) }
{
    let place = sight.place();
    let entry = said(alloc, sight)?;
    let Event::Accepted { bytes, .. } = entry.event else {
        return Err(PageFault::Message { place });
    };
    let Some(under) = under else {
        return Err(PageFault::Plan { place });
    };
    if under.at() != place || !under.front().begins(sight.front()) {
        return Err(PageFault::Plan { place });
    }
    let plan = plans.of(rt, place, under.text())?;
    made(alloc, &plan, place, name, bytes)
}

// The place of the message that is due once more by a record, where it says so.
fn again_at<J: Naming>(alloc: Global, sight: &Sight<J>) -> Result<Option<u64>, PageFault>
    ensures { IfOk result (λ found. IfSome found (λ at. InJournal (IsAgainAt sight.now.place at) J.before sight.now.history)) }
{
    let entry = said(alloc, sight)?;
    match entry.event {
        Event::Again { place, .. } => Ok(Some(place)),
        _ => Ok(None),
    }
}

impl<'a, J: Naming, S: Storage + Drop, V: Calls + Drop, R: Wait> Finder<'a, J, S, V, R> {
    /// Nothing was read yet. Both views are of the log's folder.
    pub(crate) fn new(
        rt: &'a R,
        alloc: Global,
        journal: &'a Journal<J, Office<J, S>>,
        plans: &'a Plans,
        views: (V, V),
    ) -> Self {
        let (view, other) = views;
        Finder {
            rt,
            alloc,
            journal,
            plans,
            walk: Walk::new(alloc, view),
            others: Walk::new(alloc, other),
            scan: None,
            aside: None,
        }
    }

    // Begins to look for the first of what is left, where that isn't done yet.
    fn begin(&mut self, tail: Tail, backlog: &Backlog<J>) -> Result<(), PageFault> {
        if self.scan.is_none() {
            self.scan = Some(backlog.scan());
        }
        match &self.scan {
            Some(scan) => self.walk.seek(tail, scan.at()),
            None => Err(self.walk.damaged()),
        }
    }

    /// What is looked for begins anew. The files are read on from where they were read up to.
    pub(crate) fn renew(&mut self) {
        self.scan = None;
    }

    /// Nothing is looked for any more, and nothing was read.
    pub(crate) fn forget(&mut self) {
        self.scan = None;
        self.walk.leave();
    }

    // Goes over a record that was read: whether it is what is next.
    fn over(&mut self, sight: &Sight<J>) -> Result<Option<Found<J>>, PageFault>
        ensures { IfOk result (λ found. IfSome found (λ f. f.place ≡ sight.now.place)) }
    {
        let Some(scan) = self.scan.as_mut() else {
            return Ok(None);
        };
        // (what stands before was passed)
        if sight.place() < scan.at() {
            return Ok(None);
        }
        if sight.place() > scan.at() {
            return Err(self.walk.damaged());
        }
        let mut office = self.journal.lock(self.rt);
        Ok(office.ledger.over(scan, sight.bytes())?)
    }

    // What the receiver is sent of what stood at another place, which is due again here.
    fn made_again(
        &mut self,
        tail: Tail,
        sight: &Sight<J>,
        at: u64,
        name: &[u8],
    ) -> Result<(Vec<u8>, Front<J>), PageFault>
        requires { InJournal (IsAgainAt sight.now.place at) J.before sight.now.history }
        ensures { IfOk result (λ x. InJournal (IsMadeAt name.now sight.now.place x.0.items) J.before x.1) }
    {
        let other = self.others.find(self.rt, self.journal, tail, at)?;
        if !sight.front().begins(other.front()) {
            return Err(self.others.damaged());
        }
        let bytes = made_there(
            self.rt,
            self.alloc,
            self.plans,
            self.others.under(),
            &other,
            name,
        )?;
        self.others.go_on(&other)?;
        Ok((bytes, other.front().again()))
    }

    // What the receiver is sent of what is due to it by a record.
    fn made_of(
        &mut self,
        tail: Tail,
        sight: &Sight<J>,
        name: &[u8],
    ) -> Result<(Vec<u8>, Front<J>), PageFault>
        ensures { IfOk result (λ x. InJournal (IsMadeAt name.now sight.now.place x.0.items) J.before x.1) }
    {
        if let Some(at) = again_at(self.alloc, sight)? {
            return self.made_again(tail, sight, at, name);
        }
        let bytes = made_there(
            self.rt,
            self.alloc,
            self.plans,
            self.walk.under(),
            sight,
            name,
        )?;
        Ok((bytes, sight.front().again()))
    }

    // What was found by a record, with what is made of it.
    fn next_of(
        &mut self,
        tail: Tail,
        sight: &Sight<J>,
        found: Found<J>,
        name: &'a [u8],
    ) -> Result<Next<'a, J>, PageFault>
        requires { found.place ≡ sight.now.place }
        ensures { IfOk result (λ n. n.name ≡ name.now) }
    {
        match self.made_of(tail, sight, name) {
            Ok((bytes, front)) => {
                self.walk.go_on(sight)?;
                Ok(Next::of(found, name, bytes, front))
            }
            Err(PageFault::Memory) => Err(PageFault::Memory),
            Err(PageFault::Damaged { segment, at }) => Err(PageFault::Damaged { segment, at }),
            Err(fault) => {
                self.walk.go_on(sight)?;
                self.aside = Some((found, fault));
                Err(fault)
            }
        }
    }

    /// Reads on to the first that is left for the receiver of this name. None: it doesn't count yet.
    /// Where it can't be made, for a fault of its message or its plan, it is put aside.
    pub(crate) fn find(
        &mut self,
        tail: Tail,
        backlog: &Backlog<J>,
        name: &'a [u8],
    ) -> Result<Option<Next<'a, J>>, PageFault>
        ensures { IfOk result (λ found. IfSome found (λ n. n.name ≡ name.now)) }
    {
        self.begin(tail, backlog)?;
        for _ in 0..u64::MAX {
            let Some(sight) = self.walk.next(self.rt, self.journal, tail)? else {
                return Ok(None);
            };
            match self.over(&sight)? {
                None => self.walk.go_on(&sight)?,
                Some(found) => {
                    self.scan = None;
                    return Ok(Some(self.next_of(tail, &sight, found, name)?));
                }
            }
        }
        Ok(None)
    }
}
