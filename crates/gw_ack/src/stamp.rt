//! The time stamp of an answer.
ghost use Rattle.std.specs.Prelude.{◌↔◌, IsTrue, EachIndex, slice_index, ℕ, List, ◌≡◌, IsSome, IfSome};
ghost use Rattle.gw_ack.specs.Stamps.{IsDigit, IsStamp};

use std::marker::Model;

/// A time stamp of fourteen digits, YYYYMMDDHHMMSS (data type DTM).
#[derive(Clone, Copy, PartialEq, Eq, Debug)]
pub struct Stamp {
    digits: [u8; 14],
}

impl Model for Stamp {
    ghost Value = { List ℕ };

    ghost view = { λ s. s.digits };

    ghost inverse = { λ digits. record { digits = digits } };

    ghost invariant = { λ s. IsStamp s.digits };
}

/// Whether each byte is a digit.
fn are_digits(text: &[u8]) -> bool
    ensures { IsTrue result ↔ EachIndex text.now (λ k. IsDigit (slice_index text.now k)) }
{
    text.iter().all(|byte| *byte >= 48 && *byte <= 57)
}

impl Stamp {
    /// The stamp of these digits, where they are fourteen. It takes no memory.
    pub fn from_digits(text: &[u8]) -> Option<Stamp>
        ensures some { IsSome result ↔ IsStamp text.now }
        ensures digits { IfSome result (λ stamp. stamp ≡ text.now) }
    {
        if !are_digits(text) {
            return None;
        }
        match <[u8; 14]>::try_from(text) {
            Ok(digits) => Some(Stamp { digits }),
            Err(_) => None,
        }
    }

    /// The digits. It takes no memory.
    pub fn digits(&self) -> &[u8]
        ensures value { result.now ≡ self.now }
        ensures stamp { IsStamp self.now }
    {
        &self.digits
    }
}
