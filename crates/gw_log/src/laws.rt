//! What holds of the definitions.
ghost use Rattle.std.specs.Prelude.{◌≡◌, ◌<◌, List, ℕ};
ghost use Rattle.gw_log.specs.Chain.{Head, Origin, IsLog, HasHead, IsGap, HasFirst, AreInPlace};
ghost use Rattle.gw_log.specs.Disk.{Files};
ghost use Rattle.gw_log.specs.File.{Has, IsDamagedAt};

/// A file has its records in one way.
pub fn one_reading()
    ensures { (file : List ℕ) (these those : List (List ℕ)) → Has these file → Has those file → these ≡ those }
{}

/// A file that is damaged has no records, and is damaged at one place.
pub fn damaged_or_read()
    ensures damaged { (file : List ℕ) (records : List (List ℕ)) (at : ℕ) → Has records file → IsDamagedAt at file → ⊥ }
    ensures one_place { (file : List ℕ) (at other : ℕ) → IsDamagedAt at file → IsDamagedAt other file → at ≡ other }
{}

/// In a log a file that is missing, or has no byte, is one of those that may be gone, if the next one is there.
pub fn no_gap()
    ensures { (id : ℕ) (files : Files) (from : Origin) (head : Head) (records : List (List ℕ)) (n : ℕ) →
        IsLog id files from head records → IsGap n files → n < from.number }
{}

/// Each file of a log begins with a head of this log and of its own number, which says how long the file before it is.
pub fn in_place()
    ensures first { (id : ℕ) (files : Files) (from : Origin) (head : Head) (records : List (List ℕ)) →
        IsLog id files from head records → HasFirst id files from }
    ensures next { (id : ℕ) (files : Files) (from : Origin) (head : Head) (records : List (List ℕ)) →
        IsLog id files from head records → AreInPlace id files from head }
{}

/// A file has one head. So one that was exchanged, copied under another number, or is of another log, is out of place.
pub fn one_head()
    ensures { (id other n m b c : ℕ) (file : List ℕ) → HasHead id n b file → HasHead other m c file →
        (id ≡ other) × (n ≡ m) × (b ≡ c) }
{}

/// A folder is a log of a number in one way: its last file's head, where it begins, and its records are what the files say.
pub fn one_log()
    ensures { (id : ℕ) (files : Files) (from to : Origin) (head other : Head) (these those : List (List ℕ)) →
        IsLog id files from head these → IsLog id files to other those → (head ≡ other) × (from ≡ to) × (these ≡ those) }
{}
