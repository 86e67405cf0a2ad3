//! Laws on the definitions.
ghost use Rattle.std.specs.Prelude.{◌≡◌, ◌↔◌, [], ℕ, List, Ok, Err, Some, None};
ghost use Rattle.gw_profile.specs.Shapes.{Forest, ProfileValue};
ghost use Rattle.gw_profile.specs.LookAhead.{ambiguous};
ghost use Rattle.gw_profile.specs.Deterministic.{Name, NoName, Deterministic, FirstShared};
ghost use Rattle.gw_profile.specs.Whole.{spelled};
ghost use Rattle.gw_profile.specs.WellFormed.{WellFormed};
ghost use Rattle.gw_profile.specs.declared.fault.ProfileFault.TheVariants.{Syntax};
ghost use Rattle.gw_profile.specs.Worked.{worked, worked_out, worked_text, counted, counted_text, late_count};

/// A list of nodes is refused as ambiguous unless it is deterministic.
pub fn ambiguous_is_not_deterministic()
    ensures { (f : Forest) → (ambiguous f [] ≡ None) ↔ Deterministic f NoName }
{}

/// The name in the refusal is the least shared name of the first node whose First and After share one.
pub fn ambiguous_names_the_first()
    ensures { (f : Forest) (x : Name) → (ambiguous f [] ≡ Some x) ↔ FirstShared f NoName x }
{}

/// A profile that a text spells is well formed.
pub fn spelled_is_well_formed()
    ensures { (text : List ℕ) (p : ProfileValue) → spelled text ≡ Ok p → WellFormed p }
{}

/// Worked examples: two texts that spell one profile, a profile whose lengths count characters, and a text that says so too late.
pub fn worked_profile()
    ensures spelled { spelled worked_text ≡ Ok worked }
    ensures out { spelled worked_out ≡ Ok worked }
    ensures counted { spelled counted_text ≡ Ok counted }
    ensures late { spelled late_count ≡ Err (Syntax 3) }
{}
