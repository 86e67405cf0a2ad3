//! The time of the clock, and of a number of microseconds.
ghost use Rattle.std.specs.Prelude.{◌≡◌, ◌<◌, ◌%◌, ℕ, List, IfSome};
ghost use Rattle.gw_ack.specs.Stamps.{IsStamp};
ghost use Rattle.gw_civil.specs.Civil.{dated, six};
ghost use Rattle.gw_civil.specs.own.Times.{IsStampOf};

use crate::stamp::{FromCivil, two};
use gw_ack::Stamp;
use jiff::Timestamp;
use jiff::tz::Offset;
use std::time::Clock;

/// Now, in UTC. None where the clock can't be read, or gives no year from 0 to 9999.
pub fn utc_now<R: Clock>(clock: &R) -> Option<Stamp> {
    match Timestamp::now(clock) {
        Ok(at) => Stamp::from_civil(&Offset::UTC.to_datetime(at)),
        Err(_) => None,
    }
}

// The stamp of this number of microseconds after 1970 began, in UTC. None where jiff has no such instant.
fn utc_at(microseconds: u64) -> Option<Stamp>
    ensures { IfSome result (IsStampOf microseconds) }
{
    let at = Timestamp::from_microsecond(i64::try_from(microseconds).ok()?).ok()?;
    let stamp = Stamp::from_civil(&Offset::UTC.to_datetime(at))?;
    Some(stamp)
}

// Six digits of a number below 1,000,000.
fn six(n: u64) -> [u8; 6]
    requires { n < 1000000 }
    ensures { result ≡ six n }
{
    let (high, middle, low) = (
        two((n / 10_000) as u16),
        two((n / 100 % 100) as u16),
        two((n % 100) as u16),
    );
    [high[0], high[1], middle[0], middle[1], low[0], low[1]]
}

/// The date and time of this number of microseconds after 1970 began, in UTC and in the form of ISO 8601, `2026-11-30T14:05:06.000000Z`.
/// None behind 9999-12-30T22:00:00Z, where jiff's instants end.
pub fn utc_text(microseconds: u64) -> Option<[u8; 27]>
    ensures { IfSome result (λ text. (stamp : List ℕ) × IsStamp stamp × (text ≡ dated stamp (microseconds % 1000000))) }
{
    let stamp = utc_at(microseconds)?;
    let d = stamp.digits();
    let s = six(microseconds % 1_000_000);
    Some([
        d[0], d[1], d[2], d[3], b'-', d[4], d[5], b'-', d[6], d[7], b'T', d[8], d[9], b':', d[10],
        d[11], b':', d[12], d[13], b'.', s[0], s[1], s[2], s[3], s[4], s[5], b'Z',
    ])
}
