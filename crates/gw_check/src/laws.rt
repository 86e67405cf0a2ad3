//! What holds of the definitions.
ghost use Rattle.std.specs.Prelude.{◌≡◌, [], Some, None, codes};
ghost use Rattle.gw_profile.specs.Shapes.{ProfileValue};
ghost use Rattle.gw_profile.specs.WellFormed.{WellFormed};
ghost use Rattle.gw_maplang.specs.Identity.{identity};
ghost use Rattle.gw_resolve.specs.Failures.{at_line};
ghost use Rattle.gw_leaves.specs.Components.{field_mark};
ghost use Rattle.gw_check.specs.Checked.{all_failures, least};
ghost use Rattle.gw_check.specs.Worked.{p1, p2, p3, t1, m1, m4, kin, contacts, both_kinds, oru, any_orders, two_orders, m3, s2, s3, m5, m6, known, listed, where_sex_is, unknown_sex, same_sex, failure, often, sex_at, name_at};

/// What the rules say of worked maps.
pub fn worked_maps()
    ensures may_be_absent { least (all_failures p1 t1 m1) ≡ failure 5 (often 0 (Some 1) (field_mark 8 9)) }
    ensures is_there { least (all_failures p2 t1 m1) ≡ None }
    ensures without_a_row { least (all_failures p2 t1 m4) ≡ failure 10 (sex_at 7) }
    ensures of_any_value { least (all_failures p3 t1 m4) ≡ failure 10 (sex_at 7) }
    ensures of_any_value_or_else { least (all_failures p3 t1 m1) ≡ None }
    ensures too_many { least (all_failures kin (contacts 3) both_kinds) ≡ failure 4 (often 0 (Some 4) (at_line 3)) }
    ensures enough_room { least (all_failures kin (contacts 4) both_kinds) ≡ None }
    ensures flattened { least (all_failures oru any_orders m3) ≡ None }
    ensures flattened_too_many { least (all_failures oru two_orders m3) ≡ failure 4 (often 1 None (at_line 3)) }
    ensures octets_to_characters { least (all_failures s2 s3 m5) ≡ None }
    ensures characters_to_octets { least (all_failures s3 s2 m5) ≡ failure 7 (name_at 4) }
    ensures passed_over { least (all_failures p2 t1 m6) ≡ failure 9 (at_line 1) }
    ensures chosen { least (all_failures known listed (where_sex_is (codes "F") unknown_sex)) ≡ None }
    ensures never_chosen { least (all_failures known listed (where_sex_is (codes "X") unknown_sex)) ≡ failure 13 (at_line 3) }
    ensures never_reached { least (all_failures known listed (where_sex_is (codes "F") same_sex)) ≡ failure 13 (sex_at 5) }
{}

/// The map that makes of each message of a profile the message itself, as far as the profile lists it, is allowed from the profile to itself.
pub fn identity_is_allowed()
    ensures { (p : ProfileValue) → WellFormed p → all_failures p p (identity p) ≡ [] }
{}
