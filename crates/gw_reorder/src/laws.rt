//! Laws on the definitions, for every list of calls.
ghost use Rattle.std.specs.Prelude.{List};
ghost use Rattle.std.specs.List.Sorted.{IsStrictlyIncreasing};
ghost use Rattle.gw_reorder.specs.Runs.{Call, due_in, IsGivenInOrder};

/// Whatever calls are made on a new desk, if the due numbers rise: the values released are those kept for the least due numbers, in order,
/// each once.
pub fn values_are_given_in_order<T: Drop>()
    ensures { (calls : List (Call T)) → IsStrictlyIncreasing (due_in calls) → IsGivenInOrder calls }
{}
