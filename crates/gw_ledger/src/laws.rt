//! What holds of the definitions.
ghost use Rattle.std.specs.Prelude.{◌≡◌, ◌≤◌, ◌++◌, ℕ, List, Some, slice_get};
ghost use mathlib.Core.List.{IsPrefix};
ghost use Rattle.gw_due.specs.Due.{left};
ghost use Rattle.gw_due.specs.Events.{Event};
ghost use Rattle.gw_due.specs.Lawful.{Lawful};
ghost use Rattle.gw_due.specs.Spelling.{Entry};
ghost use Rattle.gw_due.specs.State.{state_of};
ghost use Rattle.gw_journal.specs.Logs.{AreFaithful};
ghost use Rattle.gw_journal.specs.declared.event.Event as happened;
ghost use Rattle.gw_ledger.specs.Backlogs.{AreFrom};
ghost use Rattle.gw_ledger.specs.Ledgers.{IsLawful, Spells, events_of, needed_from};
ghost use Rattle.gw_ledger.specs.Marks.{young_from};
ghost use Rattle.gw_ledger.specs.declared.needs.Mark.{Mark};

use gw_due::laws::Rules;

/// Records spell one list of entries at most.
pub fn one_reading()
    ensures { (records : List (List ℕ)) (these those : List Entry) → Spells records these → Spells records those → these ≡ those }
{}

/// A beginning of a lawful log is lawful.
pub fn a_beginning_is_lawful<R: Rules>()
    ensures { (part whole : List Event) → IsPrefix part whole → Lawful R.routes whole → Lawful R.routes part }
{}

/// What a crash leaves of a journal is a beginning of its records: it spells a beginning of their entries, which is lawful.
pub fn what_is_left_is_lawful<R: Rules>()
    ensures { (part whole : List (List ℕ)) (all : List Entry) → IsPrefix part whole → Spells whole all →
        Lawful R.routes (events_of all) → IsLawful R.routes part }
{}

/// By the state of a lawful log, nothing is left for a receiver that stands below the place from which on records are needed.
///
/// It stays so as the log grows: what is left stands no earlier than where records were needed before.
pub fn what_is_left_is_needed<R: Rules>()
    ensures now { (log : List Event) → Lawful R.routes log → (receiver : ℕ) → AreFrom (needed_from (state_of log)) (left receiver log) }
    ensures later { (log more : List Event) → Lawful R.routes (log ++ more) → (receiver : ℕ) →
        AreFrom (needed_from (state_of log)) (left receiver (log ++ more)) }
{}

/// A file whose latest time is a given one or a later one begins no earlier than at the place below which all is older.
pub fn what_is_young_stays()
    ensures young { (place since n : ℕ) (files : List Mark) (file : Mark) → slice_get files n ≡ Some file → since ≤ file.latest →
        young_from place since files ≤ file.first }
    ensures least { (place since : ℕ) (files : List Mark) → young_from place since files ≤ place }
{}

/// What was read as it was written was so at each moment before.
pub fn faithful_before()
    ensures { (before : List (List ℕ)) (old new : List happened.Event) → IsPrefix old new → AreFaithful before new → AreFaithful before old }
{}
