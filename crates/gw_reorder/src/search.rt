//! The index of a number in a list.

ghost use Rattle.std.specs.Prelude.{◌≡◌, ◌==◌, position};
ghost use Rattle.std.specs.List.Sorted.{IsStrictlyIncreasing};

/// The index of the number among rising numbers.
pub(crate) fn place_among(due: &[u64], n: u64) -> Option<usize>
    requires rising { IsStrictlyIncreasing due.now }
    ensures { result ≡ position (λ m. m == n) due.now }
{
    match due.binary_search(&n) {
        Ok(place) => Some(place),
        Err(_) => None,
    }
}
