//! What is done at a breach: the first ends the walk, or all are kept.
ghost use Rattle.std.specs.Prelude.{◌≡◌, [], map, ⊤};
ghost use Rattle.gw_validate.specs.own.Least.{segment_key};

use crate::fields::Spot;
use std::alloc::AllocError;

/// What a walk does at each breach. An error ends the walk.
pub(crate) trait AtBreach {
    ghost use Rattle.std.specs.Prelude.{◌≡◌, ℕ, ◌++◌, ◌∷◌, [], List, OnOk, IfErr};
    ghost use Rattle.gw_validate.specs.own.Least.{segment_key};

    /// With what a walk ends before it has come to all breaches.
    type Stop;

    // The breaches that the walk went on from, in order.
    ghost seen: { Self → List (List ℕ) };

    // A walk that went on from these breaches may end so at this one.
    ghost stopped: { List (List ℕ) → List ℕ → Self.Stop → Type 0 };

    fn breach(&mut self, spot: Spot) -> Result<(), Self::Stop>
        ensures on { OnOk result (seen self.new ≡ seen self.old ++ segment_key spot ∷ []) }
        ensures ends { IfErr result (stopped (seen self.old) (segment_key spot)) };
}

/// Ends the walk at the first breach.
#[derive(Drop)]
pub(crate) struct First;

impl AtBreach for First {
    type Stop = Spot;

    ghost seen = { λ _. [] };

    ghost stopped = { λ seen key spot. (seen ≡ []) × (segment_key spot ≡ key) };

    fn breach(&mut self, spot: Spot) -> Result<(), Spot> {
        Err(spot)
    }
}

/// Puts each breach behind the others.
impl AtBreach for Vec<Spot> {
    type Stop = AllocError;

    ghost seen = { λ spots. map segment_key spots.items };

    ghost stopped = { λ _ _ _. ⊤ };

    fn breach(&mut self, spot: Spot) -> Result<(), AllocError> {
        self.push(spot)?;
        Ok(())
    }
}
