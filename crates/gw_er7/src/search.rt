//! Look-ups among texts in order.
ghost use Rattle.std.specs.Prelude.{◌≡◌, ◌≤◌, [], length, unwrap_or, T, true, false};
ghost use Rattle.std.specs.List.Sorted.{IsPartitionPoint};
ghost use Rattle.std.specs.Ordering.{nat_cmp, is_lt};
ghost use Rattle.std.specs.Cmp.Lexicographic.{slice_cmp};
ghost use Rattle.std.specs.FinMap.{is_sorted, find};
ghost use Rattle.gw_er7.specs.Message.{numbers};
ghost use Rattle.gw_er7.specs.View.{entries_of, is_below};

use crate::place::Place;
use crate::values::Values;
use std::cmp::Ordering;

/// How two places compare, number by number.
pub(crate) fn compare_places(a: Place, b: Place) -> Ordering
    ensures { result ≡ slice_cmp nat_cmp (numbers a) (numbers b) }
{
    a.field.cmp(&b.field).then(
        a.rep
            .cmp(&b.rep)
            .then(a.comp.cmp(&b.comp).then(a.sub.cmp(&b.sub))),
    )
}

#[inline(always)]
fn is_below(here: Place, place: Place) -> bool
    ensures { result ≡ is_lt (slice_cmp nat_cmp (numbers here) (numbers place)) }
{
    if here.field != place.field {
        return here.field < place.field;
    }
    if here.rep != place.rep {
        return here.rep < place.rep;
    }
    if here.comp != place.comp {
        return here.comp < place.comp;
    }
    here.sub < place.sub
}

/// How many texts stand at places below this one.
pub(crate) fn count_below(values: &Values<'_>, place: Place) -> usize
    requires { T (is_sorted (slice_cmp nat_cmp) (entries_of values.now)) }
    ensures bound { result ≤ length values.now }
    ensures start { IsPartitionPoint (λ h. is_below (numbers place) h ≡ true) (λ h. is_below (numbers place) h ≡ false) values.now result }
{
    let mut low = 0;
    let mut high = values.len();
    while low < high {
        let middle = low + (high - low) / 2;
        if is_below(values.at(middle).place, place) {
            low = middle + 1;
        } else {
            high = middle;
        }
    }
    low
}

/// The text at a place, empty where it is absent; `at` texts are at places below it.
#[inline(always)]
pub(crate) fn text_behind<'a>(values: &Values<'a>, at: usize, place: Place) -> &'a [u8]
    requires sorted { T (is_sorted (slice_cmp nat_cmp) (entries_of values.now)) }
    requires bound { at ≤ length values.now }
    requires start { IsPartitionPoint (λ h. is_below (numbers place) h ≡ true) (λ h. is_below (numbers place) h ≡ false) values.now at }
    ensures { result.now ≡ unwrap_or (find (slice_cmp nat_cmp) (numbers place) (entries_of values.now)) [] }
{
    if at >= values.len() {
        return &[];
    }
    let value = values.at(at);
    if value.place != place {
        return &[];
    }
    value.text
}
