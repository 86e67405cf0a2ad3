//! The time stamps of answers.
use gw_ack::Stamp;
use gw_civil::utc_now;
use std::time::{Clock, SystemTime, UNIX_EPOCH};

/// Now in UTC, or fourteen zeros where the clock gives no year from 0 to 9999.
fn now<R: Clock>(clock: &R) -> Option<Stamp> {
    utc_now(clock).or(Stamp::from_digits(b"00000000000000"))
}

/// The stamp that the words give, else now. None where the digits aren't fourteen.
pub(crate) fn stamp_of<R: Clock>(clock: &R, digits: Option<&str>) -> Option<Stamp> {
    match digits {
        Some(digits) => Stamp::from_digits(digits.as_bytes()),
        None => now(clock),
    }
}

/// A time in fourteen digits, or zeros where these aren't fourteen.
pub(crate) fn time_in(digits: &[u8]) -> [u8; 14] {
    match <[u8; 14]>::try_from(digits) {
        Ok(time) => time,
        Err(_) => [b'0'; 14],
    }
}

/// Microseconds since 1970 began, 0 where the clock can't be read.
pub(crate) fn microseconds<R: Clock>(rt: &R) -> u64 {
    let Ok(now) = SystemTime::now(rt) else {
        return 0;
    };
    match now.duration_since(UNIX_EPOCH) {
        Ok(since) => since
            .as_secs()
            .saturating_mul(1_000_000)
            .saturating_add(u64::from(since.subsec_micros())),
        Err(_) => 0,
    }
}

/// The system's clock, in UTC: each answer has the time at which it is made.
#[derive(Drop)]
pub(crate) struct Utc<'a, R: Clock> {
    clock: &'a R,
    start: Stamp,
}

impl<'a, R: Clock> Utc<'a, R> {
    /// The clock, with the stamp that is given where it has no time.
    pub(crate) fn new(clock: &'a R, start: Stamp) -> Self {
        Utc { clock, start }
    }
}

impl<R: Clock> gw_run::Clock for Utc<'_, R> {
    ghost use Rattle.std.specs.Prelude.{⊤};

    ghost gives = { λ _ _. ⊤ };

    fn stamp(&mut self) -> Stamp {
        match now(self.clock) {
            Some(stamp) => stamp,
            None => self.start,
        }
    }
}

impl<R: Clock> gw_gateway::Times for Utc<'_, R> {
    fn time(&self) -> u64 {
        microseconds(self.clock)
    }
}
