//! How often something may come. Numbers above every number of a profile are kept as one.
ghost use Rattle.std.specs.Prelude.{◌≡◌, min, option_map};
ghost use Rattle.gw_resolve.specs.Intervals as spec;
ghost use Rattle.gw_resolve.specs.Seen.{cap, interval};

use gw_profile::Card;

/// Above every number that a cardinality can name. A count of it stands for every number from it on.
pub const CAP: u64 = 4_294_967_296;

/// At least so often, and at most so often or without limit.
#[derive(Clone, Copy, Drop)]
pub struct Interval {
    pub least: u64,
    pub greatest: Option<u64>,
}

/// Not at all. It takes no memory.
pub fn never() -> Interval
    ensures { interval result ≡ spec.never }
{
    Interval {
        least: 0,
        greatest: Some(0),
    }
}

/// Just once. It takes no memory.
pub fn once() -> Interval
    ensures { interval result ≡ spec.once }
{
    Interval {
        least: 1,
        greatest: Some(1),
    }
}

/// However often, or not at all. It takes no memory.
pub fn any_number() -> Interval
    ensures { interval result ≡ spec.any_number }
{
    Interval {
        least: 0,
        greatest: None,
    }
}

/// No more than the cap.
fn capped(count: u64) -> u64
    ensures { result ≡ min count cap }
{
    count.min(CAP)
}

fn capped_all(count: Option<u32>) -> Option<u64>
    ensures { result ≡ option_map (λ n. min n cap) count }
{
    Some(capped(u64::from(count?)))
}

fn multiplied(a: Option<u64>, b: Option<u64>) -> Option<u64>
    ensures { result ≡ option_map (λ n. min n cap) (spec.multiply a b) }
{
    match (a, b) {
        (Some(a), Some(b)) => Some(capped(a.saturating_mul(b))),
        (None, Some(0)) | (Some(0), None) => Some(0),
        _ => None,
    }
}

fn added(a: Option<u64>, b: Option<u64>) -> Option<u64>
    ensures { result ≡ option_map (λ n. min n cap) (spec.add a b) }
{
    Some(capped(a?.saturating_add(b?)))
}

impl Interval {
    ghost use Rattle.std.specs.Prelude.{◌≡◌};
    ghost use Rattle.gw_resolve.specs.Intervals as spec;
    ghost use Rattle.gw_resolve.specs.Seen.{interval, saturated};

    /// How often an element comes by its cardinality.
    pub fn of(card: Card) -> Interval
        ensures { interval result ≡ saturated (spec.of_card card) }
    {
        Interval {
            least: capped(u64::from(card.min)),
            greatest: capped_all(card.max),
        }
    }

    /// What comes this often, times another count.
    pub fn times(self, other: Interval) -> Interval
        ensures { interval result ≡ saturated (spec.product (interval self) (interval other)) }
    {
        Interval {
            least: capped(self.least.saturating_mul(other.least)),
            greatest: multiplied(self.greatest, other.greatest),
        }
    }

    /// The one and the other.
    pub fn plus(self, other: Interval) -> Interval
        ensures { interval result ≡ saturated (spec.sum (interval self) (interval other)) }
    {
        Interval {
            least: capped(self.least.saturating_add(other.least)),
            greatest: added(self.greatest, other.greatest),
        }
    }

    /// At least one.
    pub fn is_sure(self) -> bool
        ensures { result ≡ spec.is_sure (interval self) }
    {
        self.least >= 1
    }

    /// None.
    pub fn is_never(self) -> bool
        ensures { result ≡ spec.is_never self.greatest }
    {
        self.greatest == Some(0)
    }

    /// No more than the limit.
    pub fn is_within(self, limit: Option<u32>) -> bool
        ensures { result ≡ spec.is_within self.greatest limit }
    {
        match (self.greatest, limit) {
            (_, None) => true,
            (None, Some(_)) => false,
            (Some(most), Some(limit)) => most <= u64::from(limit),
        }
    }

    /// One at most.
    pub fn at_most_one(self) -> Interval
        ensures { interval result ≡ spec.at_most_one (interval self) }
    {
        Interval {
            least: self.least.min(1),
            greatest: Some(self.greatest.unwrap_or(1).min(1)),
        }
    }

    /// Maybe none.
    pub fn or_none(self) -> Interval
        ensures { interval result ≡ record { least = 0; greatest = self.greatest } }
    {
        Interval { least: 0, ..self }
    }
}
