//! What holds of the definitions.
ghost use Rattle.std.specs.Prelude.{◌≡◌, List, ℕ};
ghost use Rattle.gw_log.specs.Disk.{Files};
ghost use Rattle.gw_listing.specs.Walks.{AreListed, AreAllListed, IsListed, IsAtEnd, AreBeforeClosed, WalkState};

use gw_log::Disk;
use gw_log::laws::one_reading;

/// At the end of a file all its records were given, and those of the files before it.
pub fn all_given<D: Disk>()
    ensures { (w : WalkState D) (records : List (List ℕ)) → IsListed D.seen w records →
        IsAtEnd w → AreAllListed (D.seen w.reader.disk) w.first w.number records }
{}

/// Each file before the one that is read was ended.
pub fn each_ended<D: Disk>()
    ensures { (w : WalkState D) (records : List (List ℕ)) → IsListed D.seen w records → AreBeforeClosed D.seen w }
{}

/// Files are listed in one way.
pub fn one_list()
    ensures { (files : Files) (first count : ℕ) (these those : List (List ℕ)) → AreListed files first count these →
        AreListed files first count those → these ≡ those }
{
    one_reading();
}
