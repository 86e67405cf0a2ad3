//! From where on the records of a log are needed.
ghost use Rattle.std.specs.Prelude.{◌≡◌};
ghost use Rattle.gw_ledger.specs.Ledgers.{needed_by, needed_from};
ghost use Rattle.gw_ledger.specs.Marks.{begun_by, young_from};

use gw_due::{Receiver, State};

// The least of this place, and of where something is left for one of these receivers.
fn needed_by(place: u64, receivers: &[Receiver]) -> u64
    ensures { result ≡ needed_by place receivers.now }
{
    let mut least = place;
    for one in receivers {
        if one.left() != 0 {
            least = least.min(one.from());
        }
    }
    least
}

/// The place from which on what is left for receivers stands. Where nothing is left, it is the place of the next record.
pub fn needed_from(state: &State) -> u64
    ensures { result ≡ needed_from state.now }
{
    needed_by(state.next(), state.receivers())
}

/// What is known of a file that begins with a plan, and of those behind it that don't: its number, the place of its first record,
/// and the latest time at which a message was accepted or passed there.
#[derive(Clone, Copy)]
pub struct Mark {
    pub number: u64,
    pub first: u64,
    pub latest: u64,
}

/// Below it no message was accepted or passed at this time or later, by these files. It is this place, or where the first file begins in which one was.
pub fn young_from(place: u64, since: u64, files: &[Mark]) -> u64
    ensures { result ≡ young_from place since files.now }
{
    let mut least = place;
    for file in files {
        if since <= file.latest {
            least = least.min(file.first);
        }
    }
    least
}

/// Where the file begins that has the record at this place, so with the plan that the record is under. It is 0 where none of these files has it.
pub fn begun_by(place: u64, files: &[Mark]) -> u64
    ensures { result ≡ begun_by place 0 files.now }
{
    let mut from = 0;
    for file in files {
        if file.first <= place {
            from = file.first;
        }
    }
    from
}
