//! What the checkpoint of a gateway's log says.
use gw_journal::Summary;

/// The checkpoint in the head of a file is the state of the events of all records before the file.
/// By them nothing that stands below the head's place is left for a receiver.
pub struct Checkpoints;

impl Summary for Checkpoints {
    ghost use Rattle.gw_ledger.specs.Ledgers.{Spares, Tells};
    ghost use Rattle.gw_ledger.specs.own.Laws.{none_spared};

    ghost tells = { Tells };

    ghost spares = { Spares };

    ghost spares_none = { none_spared };
}
