//! What holds of the definitions.
ghost use Rattle.std.specs.Prelude.{◌≤◌, Some, ℕ, List};
ghost use Rattle.std.specs.List.{AllByRecursion};
ghost use mathlib.Core.List.{IsPrefix};
ghost use Rattle.gw_journal.specs.Logs.{IsIn, IsJob, IsTrue, JobState, StandsAt, log_in, outcomes};
ghost use Rattle.gw_journal.specs.Runs.{AreRuns, HasLeft, HasMore};
ghost use Rattle.gw_journal.specs.Stored.{HasAt, Held, IsKept, IsThere, LeavesOne, StandsIn, StoredState, WereSpared, disk_of};
ghost use Rattle.gw_journal.specs.declared.event.Event as happened;
ghost use Rattle.gw_log.specs.Disk.{Files};

use crate::summary::Summary;
use gw_log::Disk;

/// Where nothing is asked of a log, whatever crash comes, the files that it leaves are the log with just its records, if the disk did what its calls answered.
pub fn what_counts_is_left<K: Summary, D: Disk>()
    ensures { (s : StoredState D) (these : List (List ℕ)) (c : Files) →
        D.honest (disk_of s) → Held K.tells K.spares D.honest D.seen D.may_leave s these →
        D.may_leave (disk_of s) c → IsKept K.tells K.spares s.id c these }
{}

/// So the files are a log again, for the next start to open, and the record of a receipt is at its place of the log's records.
///
/// `at_rest`: nothing is asked of the log. `at_work`: a crash at any moment of a run of calls, where each list of records that it may leave has the record.
pub fn a_receipt_outlives_a_crash<K: Summary, D: Disk>()
    ensures at_rest { (s : StoredState D) (place : ℕ) (bytes : List ℕ) (c : Files) →
        D.honest (disk_of s) → StandsAt (Held K.tells K.spares D.honest D.seen D.may_leave) s place bytes →
        D.may_leave (disk_of s) c → HasAt K.tells K.spares s.id place bytes c }
    ensures at_work { (old new : StoredState D) (left : List (List (List ℕ))) (place : ℕ) (bytes : List ℕ) (c : Files) →
        D.honest (disk_of new) → LeavesOne K.tells K.spares D.honest D.moment D.left_since old new left →
        AllByRecursion (λ records. IsIn place bytes records) left →
        D.left_since (disk_of new) (D.moment (disk_of old)) c → HasAt K.tells K.spares old.id place bytes c }
{}

/// A record that is at its place of all records stands there in the files, or its file is one of those that are gone.
pub fn it_stands_or_is_gone<K: Summary>()
    ensures { (id place : ℕ) (bytes : List ℕ) (files : Files) →
        HasAt K.tells K.spares id place bytes files → IsThere id place bytes files }
{}

/// A record at its place of all records stands there in the files, from the place on that the last head names. When that place was named,
/// no record below it was needed, by those that there were then.
pub fn what_is_needed_stands<K: Summary>()
    ensures stands { (id place : ℕ) (bytes : List ℕ) (files : Files) (all : List (List ℕ)) (k : IsKept K.tells K.spares id files all) →
        k.head.keep ≤ place → IsIn place bytes all → StandsIn id place bytes files }
    ensures spared { (id : ℕ) (files : Files) (all : List (List ℕ)) (k : IsKept K.tells K.spares id files all) →
        WereSpared K.spares all k.head.keep }
{}

/// A crash at any moment of a journal leaves a log that has all records that it was opened with, and maybe more behind them.
///
/// `at_rest`: the storage lies under the lock. `at_work`: a thread has it.
pub fn a_journal_goes_on<K: Summary, D: Disk>()
    ensures at_rest { (before batch : List (List ℕ)) (history : List happened.Event) (s : StoredState D) (given settled : ℕ) (c : Files) →
        D.honest (disk_of s) →
        IsTrue (Held K.tells K.spares D.honest D.seen D.may_leave) (Some s) batch given settled (log_in before history) →
        D.may_leave (disk_of s) c → HasMore K.tells K.spares s.id before c }
    ensures at_work { (before : List (List ℕ)) (job : JobState (StoredState D)) (new : StoredState D) (c : Files) →
        D.honest (disk_of new) →
        IsJob (Held K.tells K.spares D.honest D.seen D.may_leave) K.tells K.spares job (log_in before job.history) →
        LeavesOne K.tells K.spares D.honest D.moment D.left_since job.storage new
        (outcomes job.given (log_in before job.history).records) →
        D.left_since (disk_of new) (D.moment (disk_of job.storage)) c → HasMore K.tells K.spares job.storage.id before c }
{}

/// Whatever crash comes, the files are a log with all records that are on the disk by the journal's history. Maybe it has some of those behind them, too.
///
/// `at_rest`: the storage lies under the lock. `at_work`: a thread has it, and no more came to the disk since it took it. The history may have gone on.
pub fn what_is_on_the_disk_is_left<K: Summary, D: Disk>()
    ensures at_rest { (before batch : List (List ℕ)) (history : List happened.Event) (s : StoredState D) (given settled : ℕ) (c : Files) →
        D.honest (disk_of s) →
        IsTrue (Held K.tells K.spares D.honest D.seen D.may_leave) (Some s) batch given settled (log_in before history) →
        D.may_leave (disk_of s) c → HasLeft K.tells K.spares s.id (log_in before history) c }
    ensures at_work { (before : List (List ℕ)) (job : JobState (StoredState D)) (new : StoredState D) (now : List happened.Event) (c : Files) →
        D.honest (disk_of new) →
        IsJob (Held K.tells K.spares D.honest D.seen D.may_leave) K.tells K.spares job (log_in before job.history) →
        LeavesOne K.tells K.spares D.honest D.moment D.left_since job.storage new
        (outcomes job.given (log_in before job.history).records) →
        IsPrefix job.history now → (log_in before now).synced ≤ job.given →
        D.left_since (disk_of new) (D.moment (disk_of job.storage)) c → HasLeft K.tells K.spares job.storage.id (log_in before now) c }
{}

/// However many runs follow on each other, each of which opens what a crash left of the one before it, no record is lost: it stays at its place.
pub fn no_run_loses_a_record<K: Summary>()
    ensures kept { (id : ℕ) (found left : Files) (before after : List (List ℕ)) →
        AreRuns K.tells K.spares id found before left after → IsKept K.tells K.spares id left after }
    ensures all { (id : ℕ) (found left : Files) (before after : List (List ℕ)) →
        AreRuns K.tells K.spares id found before left after → IsPrefix before after }
    ensures at { (id : ℕ) (found left : Files) (before after : List (List ℕ)) (place : ℕ) (bytes : List ℕ) →
        AreRuns K.tells K.spares id found before left after → IsIn place bytes before → HasAt K.tells K.spares id place bytes left }
{}
