//! What keeps the records of a journal.
ghost use Rattle.std.specs.Prelude.{◌++◌, ◌∷◌, [], List, ℕ, OnOk, IfErr};
ghost use Rattle.gw_journal.specs.Logs.{AreAmong, AreFit, records_of};
ghost use Rattle.gw_journal.specs.declared.fault.JournalFault.{JournalFault};

use crate::fault::JournalFault;

/// A log by one owner, who appends batches of records. After a fault it is asked nothing more.
pub trait Storage {
    /// These are all records since the log was created. It has them, whatever crash comes.
    ghost stands: { Self → List (List ℕ) → Type 0 };

    /// A crash at any moment from the one to the other leaves one of these lists of records.
    ghost leaves: { Self → Self → List (List (List ℕ)) → Type 0 };

    /// A call from the one to the other answered with this fault.
    ghost fails: { Self → Self → JournalFault → Type 0 };

    /// Of these records, which are all before it, a checkpoint may say this.
    ghost tells: { List (List ℕ) → List ℕ → Type 0 };

    /// By these records none below this place is needed any more.
    ghost spares: { List (List ℕ) → ℕ → Type 0 };

    /// Puts a batch after the others, each record of 1 to 2,147,483,648 bytes. At `Ok` it counts.
    fn put(&mut self, batch: &[Vec<u8>]) -> Result<(), JournalFault>
        requires fit { AreFit (records_of batch.now) }
        ensures ok { (these : List (List ℕ)) → stands self.old these →
            OnOk result (stands self.new (these ++ records_of batch.now)) }
        ensures any_moment { (these : List (List ℕ)) → stands self.old these →
            leaves self.old self.new (these ∷ (these ++ records_of batch.now) ∷ []) }
        ensures err { IfErr result (λ fault. fails self.old self.new fault) };

    /// Begins the next file, with a checkpoint that tells of all records before it. It has the same records as before.
    ///
    /// Records at places below `keep` are needed no more.
    fn begin_next(&mut self, keep: u64, checkpoint: &[u8]) -> Result<(), JournalFault>
        ensures ok { (these : List (List ℕ)) → stands self.old these →
            tells these checkpoint.now → spares these keep → OnOk result (stands self.new these) }
        ensures any_moment { (these : List (List ℕ)) → stands self.old these →
            tells these checkpoint.now → spares these keep → leaves self.old self.new (these ∷ []) }
        ensures err { IfErr result (λ fault. fails self.old self.new fault) };

    /// Removes the first file, if none of its records is needed. False: it stays. It has the same records as before.
    fn retire(&mut self) -> Result<bool, JournalFault>
        ensures ok { (these : List (List ℕ)) → stands self.old these →
            OnOk result (stands self.new these) }
        ensures any_moment { (these : List (List ℕ)) → stands self.old these →
            leaves self.old self.new (these ∷ []) }
        ensures err { IfErr result (λ fault. fails self.old self.new fault) };

    /// How many bytes the last file has.
    fn size(&self) -> usize;

    /// The number of the last file, and how many bytes it has. All of them count.
    fn tail(&self) -> (u64, usize);

    /// Where nothing happens a crash leaves what there is.
    ghost at_rest: { (s : Self) (these : List (List ℕ)) → stands s these → leaves s s (these ∷ []) };

    /// One run of calls goes on into the next.
    ghost goes_on: { (old mid new : Self) (left : List (List (List ℕ))) → leaves old mid left → leaves mid new left → leaves old new left };

    /// What leaves one of these leaves one of those that they are among.
    ghost widens: { (old new : Self) (left more : List (List (List ℕ))) → AreAmong left more → leaves old new left → leaves old new more };
}
