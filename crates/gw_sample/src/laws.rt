//! What holds of the definitions.
ghost use Rattle.gw_profile.specs.Shapes.{ProfileValue};
ghost use Rattle.gw_profile.specs.WellFormed.{WellFormed};
ghost use Rattle.gw_sample.specs.Samples.{HasOne};

/// Each well formed profile has a message that conforms to it.
pub fn each_profile_has_one()
    ensures { (p : ProfileValue) → WellFormed p → HasOne p }
{}
