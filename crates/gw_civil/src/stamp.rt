//! The digits of a time stamp, pair by pair.
ghost use Rattle.std.specs.Prelude.{◌≡◌, ◌<◌, slice_index};
ghost use Rattle.gw_ack.specs.Stamps.{IsDigit, IsStamp};
ghost use Rattle.gw_civil.specs.Civil.{two, stamped};

use gw_ack::Stamp;
use jiff::civil::DateTime;

/// Conversion from a civil date and time.
pub trait FromCivil: Sized {
    /// The value of a civil date and time, if its year isn't negative.
    fn from_civil(at: &DateTime) -> Option<Self>;
}

/// A number below 100 in two digits.
pub(crate) fn two(n: u16) -> [u8; 2]
    requires { n < 100 }
    ensures value { result ≡ two n }
    ensures first { IsDigit (slice_index result 0) }
    ensures second { IsDigit (slice_index result 1) }
{
    [48 + (n / 10) as u8, 48 + (n % 10) as u8]
}

// Year, month, day, hour, minute and second in fourteen digits.
fn digits_of(year: u16, month: u8, day: u8, hour: u8, minute: u8, second: u8) -> [u8; 14]
    requires year { year < 10000 }
    requires month { month < 100 }
    requires day { day < 100 }
    requires hour { hour < 100 }
    requires minute { minute < 100 }
    requires second { second < 100 }
    ensures value { result ≡ stamped year month day hour minute second }
    ensures stamp { IsStamp result }
{
    let century = two(year / 100);
    let year = two(year % 100);
    let month = two(u16::from(month));
    let day = two(u16::from(day));
    let hour = two(u16::from(hour));
    let minute = two(u16::from(minute));
    let second = two(u16::from(second));
    [
        century[0], century[1], year[0], year[1], month[0], month[1], day[0], day[1], hour[0],
        hour[1], minute[0], minute[1], second[0], second[1],
    ]
}

impl FromCivil for Stamp {
    ghost use Rattle.std.specs.Prelude.{◌≡◌, ◌↔◌, ℕ, pos, IsSome, IfSome};
    ghost use Rattle.gw_civil.specs.Civil.{stamped};

    /// The stamp of a date and time, if its year isn't negative. jiff's years end with 9999. It takes no memory.
    fn from_civil(at: &DateTime) -> Option<Stamp>
        ensures some { IsSome result ↔ ((year : ℕ) × (at.now.date.year ≡ pos year)) }
        ensures digits { IfSome result (λ stamp. (year : ℕ) → at.now.date.year ≡ pos year
            → stamp ≡ stamped year at.now.date.month at.now.date.day at.now.time.hour at.now.time.minute at.now.time.second) }
    {
        let at = at.to_plain();
        let Ok(whole) = u16::try_from(at.date.year) else {
            return None;
        };
        let (date, time) = (at.date, at.time);
        let digits = digits_of(
            whole,
            date.month,
            date.day,
            time.hour,
            time.minute,
            time.second,
        );
        Stamp::from_digits(&digits)
    }
}
