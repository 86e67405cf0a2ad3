//! Laws on the definitions.
ghost use Rattle.gw_profile.specs.Shapes.{ProfileValue};
ghost use Rattle.gw_resolve.specs.Resolved.{Resolved};
ghost use Rattle.gw_interp.specs.Sound.{ForAccepted, ForAllowed, MakesConforming, MakesOne, MakesSome, MakesTheOne};

/// If no rule fails, a map makes exactly one message of each message that conforms to the source, and that message conforms to the target.
pub fn a_yes_gives_one_conforming_message()
    ensures { ForAccepted MakesTheOne }
{}

/// If the rules allow a map, what it makes of a message that conforms to the source conforms to the target.
pub fn allowed_maps_are_sound()
    ensures { ForAllowed MakesConforming }
{}

/// Any map makes at most one message of a message.
pub fn a_map_makes_one_message()
    ensures { (target : ProfileValue) (map : Resolved) → MakesOne target map }
{}

/// If the rules allow a map, it makes a message of each message that conforms to the source.
pub fn allowed_maps_make_a_message()
    ensures { ForAllowed MakesSome }
{}
