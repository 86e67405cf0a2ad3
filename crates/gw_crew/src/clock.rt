//! The time of an answer.
use gw_ack::Stamp;

/// A clock, which gives the stamp of an answer.
pub trait Clock {
    ghost use Rattle.std.specs.Prelude.{◌↔◌, ℕ, List};

    /// The stamps that it can give: a fixed clock its own alone, the system's any.
    ghost gives: { Self → List ℕ → Type 0 };

    /// One of its stamps. A call doesn't change which it can give.
    fn stamp(&mut self) -> Stamp
        ensures one { gives self.old result }
        ensures same { (stamp : List ℕ) → gives self.new stamp ↔ gives self.old stamp };
}
