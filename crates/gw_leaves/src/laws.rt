//! What holds of the definitions.
ghost use Rattle.std.specs.Prelude.{◌≡◌, ◌↔◌, ◌≤◌, ℕ, true, false, nat_lt, List, Option, Some, IfSome};
ghost use Rattle.gw_profile.specs.Among.{Among};
ghost use Rattle.gw_profile.specs.Shapes.{SubValue};
ghost use Rattle.gw_profile.specs.declared.shape.Count.{Count};
ghost use Rattle.gw_profile.specs.Lengths.{measure};
ghost use Rattle.gw_resolve.specs.Intervals.{Interval, sum, product, is_sure, is_never, is_within};
ghost use Rattle.gw_resolve.specs.Resolved.{Reference};
ghost use Rattle.gw_resolve.specs.Seen.{saturated};
ghost use Rattle.gw_leaves.specs.declared.shape.Presence.TheVariants.{Always, Never};
ghost use Rattle.gw_leaves.specs.Leaves.{Sources, Values, IsOf, Shape, listed, presence_of, IsRequiredAt, IsForbiddenAt, MeetsSub, may_be_unlisted, may_be_long, is_included};

/// A text that is taken from a field is always there exactly where its segment is, its field is required and comes at least once,
/// and its component and subcomponent are required.
/// It is never there exactly where its segment never is, or the field, the component or the subcomponent is forbidden.
#[tactic(auto, using(crate::proofs::Presences::always_there, crate::proofs::Presences::never_there))]
pub fn presence_of_a_leaf()
    ensures always { (s : Sources) (from : Reference) (comp sub : ℕ) → (presence_of s from comp sub ≡ Always) ↔ IsRequiredAt s from comp sub }
    ensures never { (s : Sources) (from : Reference) (comp sub : ℕ) → (presence_of s from comp sub ≡ Never) ↔ IsForbiddenAt s from comp sub }
{}

/// Counts that end at the cap are added and multiplied as counts without an end, and compare alike with every number of a profile.
#[tactic(auto, using(gw_resolve::proofs::Saturation::product_saturated))]
pub fn counts_at_the_cap()
    ensures sums { (a b : Interval) → saturated (sum (saturated a) (saturated b)) ≡ saturated (sum a b) }
    ensures products { (a b : Interval) → saturated (product (saturated a) (saturated b)) ≡ saturated (product a b) }
    ensures greatest { (i : Interval) (most : Option ℕ) → IfSome most (λ n. n ≤ 9999) →
        is_within (saturated i).greatest most ≡ is_within i.greatest most }
    ensures least { (i : Interval) (n : ℕ) → n ≤ 9999 → nat_lt (saturated i).least n ≡ nat_lt i.least n }
    ensures sure { (i : Interval) → is_sure (saturated i) ≡ is_sure i }
    ensures none { (i : Interval) → is_never (saturated i).greatest ≡ is_never i.greatest }
{}

/// What can stand at a place is included exactly where it meets the usage, and is never there or has only values of the table that aren't too long.
/// Where no value can be missing from a table, each is in it; where each listed value is in it, none can be missing.
/// None can be too long exactly where each has at most that length in the count of the target.
#[tactic(auto, using(crate::proofs::Fitting::all_tabled, crate::proofs::Fitting::all_listed, crate::proofs::Fitting::all_short))]
pub fn values_that_are_included()
    ensures included { (to : Count) (shape : Shape) (s : SubValue) (t : Option (List (List ℕ))) → (is_included to shape s t ≡ true) ↔ MeetsSub to shape s t }
    ensures tabled { (v : Values) (table : List (List ℕ)) → may_be_unlisted v (Some table) ≡ false → (x : List ℕ) → IsOf v x → Among x table }
    ensures values { (texts table : List (List ℕ)) →
        (may_be_unlisted (listed texts) (Some table) ≡ false) ↔ ((x : List ℕ) → Among x texts → Among x table) }
    ensures lengths { (to : Count) (v : Values) (most : ℕ) →
        (may_be_long to v (Some most) ≡ false) ↔ ((x : List ℕ) → IsOf v x → measure to x ≤ most) }
{}
