//! What holds of all that was sent.
ghost use Rattle.std.specs.Prelude.{◌≡◌, ◌⊎◌, ◌++◌, ℕ, List, map};
ghost use mathlib.Core.List.{IsPrefix};
ghost use Rattle.gw_due.specs.Due.{due_since, passed};
ghost use Rattle.gw_due.specs.Events.{Event};
ghost use Rattle.gw_due.specs.Lawful.{Lawful};
ghost use Rattle.gw_due.specs.Runs.{Covers, IsRun};
ghost use Rattle.gw_due.specs.Spelling.{Entry};
ghost use Rattle.gw_journal.specs.declared.event.Event as happened;
ghost use Rattle.gw_ledger.specs.Backlogs.{Between};
ghost use Rattle.gw_ledger.specs.Ledgers.{Spells, events_of};
ghost use Rattle.gw_delivery.specs.Calls.{Call, Calls, places_of};
ghost use Rattle.gw_delivery.specs.Periods.{Periods};

use gw_due::laws::Rules;
use gw_journal::Naming;

/// In all calls over a journal what was sent to a receiver, and what was put aside, is what was due to it: in order, none passed over,
/// and each once, but for the last that a call sent, with which the next one may begin again.
pub fn covered<J: Naming, R: Rules>()
    ensures { (receiver : ℕ) (old new : List happened.Event) (calls : List Call) → Calls J.before receiver old calls new →
        Between (λ was now. Lawful R.routes now → Covers (due_since receiver was now) (map places_of calls)) J.before old new }
{}

/// A run stays one by a later log, as the next start may find it, where nothing was passed since, or what was sent last as well.
/// So [`gw_due::laws::covered`] makes one sentence of all runs of a gateway.
pub fn stays_a_run()
    ensures { (receiver : ℕ) (old now next : List Event) (places : List ℕ) → IsRun receiver old now places → IsPrefix now next →
        (passed receiver next ≡ passed receiver now) ⊎ (passed receiver next ≡ passed receiver old ++ places) →
        IsRun receiver old next places }
{}

/// The same over all runs of a gateway, whatever crash came between them.
///
/// What was sent to a receiver, and what was put aside, is what was due to it since the first start, by what the last crash left.
/// It is in order, and none is passed over. Each came once, but for the last of a call, with which the next one may begin again.
pub fn covered_through_crashes<R: Rules>()
    ensures { (receiver : ℕ) (found left : List (List ℕ)) (calls : List Call) → Periods R.routes receiver found calls left →
        (these those : List Entry) → Spells found these → Spells left those →
        Covers (due_since receiver (events_of these) (events_of those)) (map places_of calls) }
{}
