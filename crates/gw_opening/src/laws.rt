//! What holds of the definitions.
ghost use Rattle.std.specs.Prelude.{◌≡◌, ℕ, List, Some, map, slice_get};
ghost use mathlib.Core.List.{IsPrefix};
ghost use Rattle.gw_due.specs.Due.{left};
ghost use Rattle.gw_due.specs.Lawful.{Lawful};
ghost use Rattle.gw_due.specs.Spelling.{Entry, spelled};
ghost use Rattle.gw_journal.specs.Logs.{IsIn};
ghost use Rattle.gw_journal.specs.Stored.{IsKept, StandsIn};
ghost use Rattle.gw_ledger.specs.Ledgers.{Spares, Spells, Tells, events_of};
ghost use Rattle.gw_log.specs.Disk.{Files};
ghost use Rattle.gw_opening.specs.Folders.{IsFoundAgain, IsGatewayLog};

use gw_due::laws::Rules;

/// A crash leaves a log whose records are a beginning of those that were put. So the next start finds a gateway's log again.
pub fn a_log_is_found_again<R: Rules>()
    ensures { (id : ℕ) (files : Files) (all whole : List (List ℕ)) (entries : List Entry) →
        IsKept Tells Spares id files all → IsPrefix all whole → Spells whole entries →
        Lawful R.routes (events_of entries) → IsFoundAgain R.routes id files all }
{}

/// In the files of a gateway's log stands all that is left for a receiver, each at its place, whatever files are gone.
pub fn what_is_left_stands<R: Rules>()
    ensures { (id : ℕ) (files : Files) (entries : List Entry) → IsGatewayLog R.routes id files entries →
        (receiver n place : ℕ) (bytes : List ℕ) → slice_get (left receiver (events_of entries)) n ≡ Some place →
        IsIn place bytes (map spelled entries) → StandsIn id place bytes files }
{}
