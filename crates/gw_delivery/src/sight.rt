//! A record that was read of the log, and noted in its journal.
ghost use Rattle.std.specs.Prelude.{◌≡◌, IfOk, IfSome};
ghost use Rattle.gw_due.specs.Views as view;
ghost use Rattle.gw_ledger.specs.Finding.{InJournal};
ghost use Rattle.gw_delivery.specs.Seen.{IsEventAt};

use crate::pages::Page;
use gw_due::laws::Rules;
use gw_due::{Entry, ReadFault, read};
use gw_journal::{Front, Naming, Storage};
use gw_ledger::Ledger;
use std::alloc::Global;
use std::marker::Model;

/// A record that was read, and noted: it stands at its place, if what was read of the log is what was written.
#[derive(Drop)]
pub(crate) struct Sight<J: Naming> {
    place: u64,
    bytes: Vec<u8>,
    front: Front<J>,
}

impl<J: Naming> Model for Sight<J> {
    ghost use Rattle.gw_delivery.specs.Seen.{IsSight, SightState};

    ghost Value = { SightState };

    ghost view = { λ s. record { place = s.place; bytes = s.bytes.items; history = s.front } };

    ghost invariant = { λ s. IsSight J.before (record { place = s.place; bytes = s.bytes.items; history = s.front }) };
}

impl<J: Naming> Sight<J> {
    /// The place of the record.
    pub(crate) fn place(&self) -> u64
        ensures { result ≡ self.now.place }
    {
        self.place
    }

    /// Its bytes.
    pub(crate) fn bytes(&self) -> &[u8]
        ensures { result.now ≡ self.now.bytes }
    {
        &self.bytes
    }

    /// What was seen of the journal.
    pub(crate) fn front(&self) -> &Front<J>
        ensures { result.now ≡ self.now.history }
    {
        &self.front
    }

    /// What it says. It stands there.
    pub(crate) fn entry(&self, alloc: Global) -> Result<Entry<'_>, ReadFault>
        ensures { IfOk result (λ e. InJournal (IsEventAt self.now.place (view.event e.event)) J.before self.now.history) }
    {
        read(alloc, &self.bytes)
    }
}

/// Notes a record that was read of the files. None: the journal has no room.
pub(crate) fn note<J: Naming, S: Storage + Drop, R: Rules>(
    ledger: &mut Ledger<J, S, R>,
    page: Page,
) -> Option<Sight<J>>
    ensures place { IfSome result (λ s. s.place ≡ page.place) }
    ensures history { IfSome result (λ s. s.history ≡ ledger.new.desk.history) }
{
    let Page { place, bytes } = page;
    if !ledger.note_read(place, &bytes) {
        return None;
    }
    Some(Sight {
        place,
        bytes,
        front: ledger.front().again(),
    })
}
