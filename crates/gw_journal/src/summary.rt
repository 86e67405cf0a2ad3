//! What a checkpoint says.
use std::marker::Brand;

/// What the head of a file says of all records before the file. A log doesn't read the checkpoint.
pub trait Summary {
    ghost use Rattle.std.specs.Prelude.{ℕ, List};

    /// Of these records a checkpoint may say this.
    ghost tells: { List (List ℕ) → List ℕ → Type 0 };

    /// By these records none below this place is needed any more.
    ghost spares: { List (List ℕ) → ℕ → Type 0 };

    /// Below the first place there is none.
    ghost spares_none: { (records : List (List ℕ)) → spares records 0 };
}

/// A checkpoint that says nothing, of records that are all needed no more.
impl Summary for Brand {
    ghost use Rattle.std.specs.Prelude.{⊤};

    ghost tells = { λ records checkpoint. ⊤ };

    ghost spares = { λ records place. ⊤ };

    ghost spares_none = { λ records. tt };
}
