//! What is said to a message.
ghost use Rattle.std.specs.Prelude.{◌≡◌};
ghost use Rattle.gw_ack.specs.Answers.{ack_of};

use crate::receipt::Ack;
use gw_validate::Breach;

/// The condition code of a rejection whose reason isn't the message's own, as that of a content that can't be read (HL7 table 0357).
pub const INTERNAL: u16 = 207;

/// What is said to a message.
#[derive(Clone, Copy)]
pub enum Reply {
    /// It is accepted.
    Accept,
    /// It breaks its profile, and this breach is reported.
    Refuse(Breach),
    /// It is rejected under this condition code: 200 (message type), 201 (event), 202 (processing id), 203 (version) or 207 (internal error).
    Reject(u16),
}

impl Reply {
    /// The acknowledgment code of the answer that says so. It takes no memory.
    pub fn ack(&self) -> Ack
        ensures { result ≡ ack_of self.now }
    {
        match self {
            Reply::Accept => Ack::AA,
            Reply::Refuse(_) => Ack::AE,
            Reply::Reject(_) => Ack::AR,
        }
    }
}
