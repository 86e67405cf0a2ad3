//! The plan in force at a place of the log.
ghost use Rattle.std.specs.Prelude.{IsFalse};
ghost use Rattle.gw_due.specs.Events as events;
ghost use Rattle.gw_due.specs.Views as view;
ghost use Rattle.gw_ledger.specs.Finding.{InJournal};
ghost use Rattle.gw_delivery.specs.Seen.{IsEventAt, puts_plan};

use crate::sight::Sight;
use gw_due::Event;
use gw_journal::{Front, Naming};
use std::alloc::{AllocError, Global};
use std::marker::Model;

/// The text of the plan in force at a place, if what was read of the log is what was written.
#[derive(Drop)]
pub(crate) struct Under<J: Naming> {
    at: u64,
    text: Vec<u8>,
    front: Front<J>,
}

impl<J: Naming> Model for Under<J> {
    ghost use Rattle.gw_delivery.specs.Seen.{IsUnderIn, UnderState};

    ghost Value = { UnderState };

    ghost view = { λ u. record { at = u.at; text = u.text.items; history = u.front } };

    ghost invariant = { λ u. IsUnderIn J.before (record { at = u.at; text = u.text.items; history = u.front }) };
}

impl<J: Naming> Under<J> {
    ghost use Rattle.std.specs.Prelude.{◌≡◌};
    ghost use Rattle.gw_delivery.specs.Seen.{IsUnderIn};

    /// The place.
    pub(crate) fn at(&self) -> u64
        ensures { result ≡ self.now.at }
    {
        self.at
    }

    /// The plan's text.
    pub(crate) fn text(&self) -> &[u8]
        ensures text { result.now ≡ self.now.text }
        ensures under { IsUnderIn J.before self.now }
    {
        &self.text
    }

    /// What was seen of the journal.
    pub(crate) fn front(&self) -> &Front<J>
        ensures { result.now ≡ self.now.history }
    {
        &self.front
    }
}

// The plan of this text, behind the record that puts it.
fn planned<J: Naming>(
    alloc: Global,
    sight: &Sight<J>,
    text: &[u8],
) -> Result<Option<Under<J>>, AllocError>
    requires { InJournal (IsEventAt sight.now.place (events.Planned text.now)) J.before sight.now.history }
{
    let text = Vec::from_slice(alloc, text)?;
    let place = sight.place();
    if place == u64::MAX {
        return Ok(None);
    }
    Ok(Some(Under {
        at: place + 1,
        text,
        front: sight.front().again(),
    }))
}

// The same plan, behind a record that puts none.
fn moved_on<J: Naming>(under: Under<J>, sight: &Sight<J>, event: &Event<'_>) -> Option<Under<J>>
    requires stands { InJournal (IsEventAt sight.now.place (view.event event.now)) J.before sight.now.history }
    requires none { IsFalse (puts_plan (view.event event.now)) }
{
    if under.at != sight.place() || under.at == u64::MAX || !under.front.begins(sight.front()) {
        return None;
    }
    let Under { at, text, front: _ } = under;
    Some(Under {
        at: at + 1,
        text,
        front: sight.front().again(),
    })
}

/// The plan in force behind a record, where the one before it is known, or it puts one.
pub(crate) fn behind<J: Naming>(
    alloc: Global,
    under: Option<Under<J>>,
    sight: &Sight<J>,
    event: &Event<'_>,
) -> Result<Option<Under<J>>, AllocError>
    requires { InJournal (IsEventAt sight.now.place (view.event event.now)) J.before sight.now.history }
{
    if let Event::Planned { text } = event {
        return planned(alloc, sight, text);
    }
    match under {
        Some(under) => Ok(moved_on(under, sight, event)),
        None => Ok(None),
    }
}
