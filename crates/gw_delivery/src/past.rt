//! What a start has to know of a log beside its state: the plan in force, and whether what is left can be sent.
use crate::fault::PageFault;
use crate::pages::{Pages, Tail};
use gw_due::{Event, ReadFault, State, read};
use gw_ledger::needed_from;
use gw_log::Calls;
use gw_plan::{Plan, PlanFault};
use std::alloc::Global;

/// A log, as a start reads it.
pub struct Past<V: Calls + Drop> {
    alloc: Global,
    tail: Tail,
    pages: Pages<V>,
    // for what stands at other places
    others: Pages<V>,
    // the plan that was looked at last, by its place
    plan: Option<u64>,
}

// (by hand, so that no crate above proves again how its fields are dropped)
impl<V: Calls + Drop> Drop for Past<V> {
    fn drop(self) {
        let Past {
            alloc: _,
            tail: _,
            pages: _,
            others: _,
            plan: _,
        } = self;
    }
}

/// Whether what is due to a receiver at this place is left for it.
fn is_left(state: &State, receiver: u32, place: u64) -> bool {
    state.receivers().iter().any(|one| one.number() == receiver
        && one.left() > 0
        && one.from() <= place)
}

/// The same of any of these receivers.
fn is_left_to(state: &State, receivers: &[u32], place: u64) -> bool {
    for receiver in receivers {
        if is_left(state, *receiver, place) {
            return true;
        }
    }
    false
}

impl<V: Calls + Drop> Past<V> {
    /// The log that both look at, up to its end.
    pub fn new(alloc: Global, (view, other): (V, V), tail: Tail) -> Self {
        Past {
            alloc,
            tail,
            pages: Pages::new(alloc, view),
            others: Pages::new(alloc, other),
            plan: None,
        }
    }

    /// The text of the plan at this place.
    pub fn text_at(&mut self, place: u64) -> Result<Vec<u8>, PageFault> {
        let bytes = self.others.find(self.tail, place)?;
        match read(self.alloc, &bytes) {
            Ok(entry) => match entry.event {
                Event::Planned { text } => Ok(Vec::from_slice(self.alloc, text)?),
                _ => Err(PageFault::Plan { place }),
            },
            Err(ReadFault::Memory) => Err(PageFault::Memory),
            Err(ReadFault::Unreadable) => Err(PageFault::Plan { place }),
        }
    }

    // Whether the text at this place is a plan to this program.
    fn look_at_plan(&mut self, place: Option<u64>) -> Result<(), PageFault> {
        let Some(place) = place else {
            return Err(PageFault::Plan { place: 0 });
        };
        if self.plan == Some(place) {
            return Ok(());
        }
        match Plan::parse(self.alloc, &self.text_at(place)?) {
            Ok(_plan) => {}
            Err(PlanFault::Memory) => return Err(PageFault::Memory),
            Err(_) => return Err(PageFault::Plan { place }),
        }
        self.plan = Some(place);
        Ok(())
    }

    // Whether what is left at this place, by this event, is under a plan. `plan`: the one in force there.
    fn look_at(
        &mut self,
        state: &State,
        plan: Option<u64>,
        at: u64,
        event: Event<'_>,
    ) -> Result<(), PageFault> {
        match event {
            Event::Accepted { to, .. } => {
                if is_left_to(state, &to, at) {
                    return self.look_at_plan(plan);
                }
            }
            Event::Again { receiver, place } => {
                if is_left(state, receiver, at) {
                    let _message = self.others.find(self.tail, place)?;
                    let plan = self.others.plan();
                    return self.look_at_plan(plan);
                }
            }
            _ => {}
        }
        Ok(())
    }

    /// Reads all that is left, and looks whether each of it is under a plan that this program takes.
    pub fn look_at_left(&mut self, state: &State) -> Result<(), PageFault> {
        let from = needed_from(state);
        if from >= state.next() {
            return Ok(());
        }
        self.pages.seek(self.tail, from)?;
        let mut plan = self.pages.plan();
        for _ in 0..u64::MAX {
            let Some(page) = self.pages.next(self.tail)? else {
                break;
            };
            match read(self.alloc, &page.bytes) {
                Ok(entry) => {
                    if let Event::Planned { .. } = entry.event {
                        plan = Some(page.place);
                    }
                    self.look_at(state, plan, page.place, entry.event)?;
                }
                Err(ReadFault::Memory) => return Err(PageFault::Memory),
                Err(ReadFault::Unreadable) => return Err(PageFault::Message { place: page.place }),
            }
        }
        Ok(())
    }
}
