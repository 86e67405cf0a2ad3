//! The last numbers that are present.
ghost use Rattle.std.specs.Prelude.{◌≡◌, ◌≤◌, length, T, true, false};
ghost use Rattle.std.specs.List.Sorted.{IsPartitionPoint};
ghost use Rattle.std.specs.Ordering.{nat_cmp, is_le};
ghost use Rattle.std.specs.Cmp.Lexicographic.{slice_cmp};
ghost use Rattle.std.specs.FinMap as texts;
ghost use Rattle.std.specs.FinMap.{is_sorted};
ghost use Rattle.gw_er7.specs.Message.{numbers};
ghost use Rattle.gw_er7.specs.View.{entries_of, AreValues, compare_begin, is_within, IsLastUnder};

use crate::place::Place;
use crate::values::Values;
use std::cmp::Ordering;

/// How the first numbers of a place compare with these.
fn compare_begin(place: Place, prefix: &[usize]) -> Ordering
    ensures { result ≡ compare_begin (numbers place) prefix.now }
{
    let numbers = [place.field, place.rep, place.comp, place.sub];
    for (i, limit) in prefix.iter().enumerate() {
        if i >= numbers.len() {
            return Ordering::Less;
        }
        if numbers[i] < *limit {
            return Ordering::Less;
        }
        if numbers[i] > *limit {
            return Ordering::Greater;
        }
    }
    Ordering::Equal
}

fn is_within(place: Place, prefix: &[usize]) -> bool
    ensures { result ≡ is_le (compare_begin (numbers place) prefix.now) }
{
    compare_begin(place, prefix).is_le()
}

/// How many texts stand at places that don't begin above these numbers.
pub(crate) fn count_within(values: &Values<'_>, prefix: &[usize]) -> usize
    requires { T (is_sorted (slice_cmp nat_cmp) (entries_of values.now)) }
    ensures bound { result ≤ length values.now }
    ensures end { IsPartitionPoint (λ h. is_within prefix.now h ≡ true) (λ h. is_within prefix.now h ≡ false) values.now result }
{
    let mut low = 0;
    let mut high = values.len();
    while low < high {
        let middle = low + (high - low) / 2;
        if is_within(values.at(middle).place, prefix) {
            low = middle + 1;
        } else {
            high = middle;
        }
    }
    low
}

/// The last place that begins with these numbers, where `count` texts are at places up to those that begin with them.
fn last_before(values: &Values<'_>, count: usize, prefix: &[usize]) -> Option<Place>
    requires values { AreValues values.now }
    requires bound { count ≤ length values.now }
    requires end { IsPartitionPoint (λ h. is_within prefix.now h ≡ true) (λ h. is_within prefix.now h ≡ false) values.now count }
    ensures { IsLastUnder (texts.from_sorted (entries_of values.now)) prefix.now result }
{
    if count == 0 {
        return None;
    }
    let place = values.at(count - 1).place;
    if compare_begin(place, prefix).is_eq() {
        return Some(place);
    }
    None
}

/// The last place that begins with these numbers.
pub(crate) fn last_under(values: &Values<'_>, prefix: &[usize]) -> Option<Place>
    requires { AreValues values.now }
    ensures { IsLastUnder (texts.from_sorted (entries_of values.now)) prefix.now result }
{
    last_before(values, count_within(values, prefix), prefix)
}
