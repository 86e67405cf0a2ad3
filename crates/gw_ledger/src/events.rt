//! Events of which a state can say all.
ghost use Rattle.gw_due.specs.Events.{Planned, Named, Margin, Retired};
ghost use Rattle.gw_ledger.specs.Putting.{Puts, timed};

use crate::fault::LedgerFault;
use crate::ledger::Ledger;
use gw_due::laws::Rules;
use gw_due::{Entry, Event};
use gw_journal::{Naming, Storage, Ticket};

impl<J: Naming, S: Storage + Drop, R: Rules> Ledger<J, S, R> {
    /// The plan of this text is in force from here on.
    pub fn plan(&mut self, time: u64, text: &[u8]) -> Result<Ticket<J>, LedgerFault>
        ensures { Puts J.before self.old self.new (timed time (Planned text.now)) result }
    {
        let event = Event::Planned { text };
        self.put(&Entry { time, event })
    }

    /// A receiver has this number and this name, for good, and from here on this address.
    pub fn name(
        &mut self,
        time: u64,
        receiver: u32,
        name: &[u8],
        address: &[u8],
    ) -> Result<Ticket<J>, LedgerFault>
        ensures { Puts J.before self.old self.new
            (timed time (Named receiver name.now address.now)) result }
    {
        let event = Event::Named {
            receiver,
            name,
            address,
        };
        self.put(&Entry { time, event })
    }

    /// Numbers below this one may have been given to answers.
    pub fn margin(&mut self, time: u64, number: u64) -> Result<Ticket<J>, LedgerFault>
        ensures { Puts J.before self.old self.new (timed time (Margin number)) result }
    {
        let event = Event::Margin { number };
        self.put(&Entry { time, event })
    }

    /// Segments below this one may be gone.
    pub fn retire(&mut self, time: u64, segment: u64) -> Result<Ticket<J>, LedgerFault>
        ensures { Puts J.before self.old self.new (timed time (Retired segment)) result }
    {
        let event = Event::Retired { segment };
        self.put(&Entry { time, event })
    }
}
