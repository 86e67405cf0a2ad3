//! The senders of a route's messages.
ghost use Rattle.std.specs.Prelude.{◌≡◌, IfOk};
ghost use Rattle.std.specs.Option.{option_map};
ghost use Rattle.gw_plan.specs.Senders.{field_number};
ghost use Rattle.gw_plan.specs.Index.{said};
ghost use Rattle.gw_plan.specs.Seen.{senders_value};

use crate::accepted::accept;
use std::alloc::{AllocError, Global};

/// A field of MSH that distinguishes a route's messages from others of their code and event (HL7 v2.5.1 chapter 2, 2.15.9).
#[derive(Clone, Copy, Drop)]
pub(crate) enum HeaderField {
    SendingApplication,
    SendingFacility,
    ReceivingApplication,
    ReceivingFacility,
    MessageProfile,
}

impl HeaderField {
    /// The number of the field in MSH. It takes no memory.
    pub(crate) fn number(self) -> usize
        ensures { result ≡ field_number self }
    {
        match self {
            HeaderField::SendingApplication => 3,
            HeaderField::SendingFacility => 4,
            HeaderField::ReceivingApplication => 5,
            HeaderField::ReceivingFacility => 6,
            HeaderField::MessageProfile => 21,
        }
    }
}

/// The texts of a message's header that distinguish it from others of its code and event.
#[derive(Clone, Copy, Drop)]
pub(crate) struct Header<'m> {
    pub(crate) sending_application: &'m [u8],
    pub(crate) sending_facility: &'m [u8],
    pub(crate) receiving_application: &'m [u8],
    pub(crate) receiving_facility: &'m [u8],
    pub(crate) message_profile: &'m [u8],
}

/// The senders that a line says: in this field of a message's header stands one of these words.
#[derive(Drop)]
pub(crate) struct SaidSenders<'a> {
    pub(crate) field: HeaderField,
    pub(crate) words: Vec<&'a [u8]>,
}

/// The senders of a route: in this field of a message's header stands one of these words.
#[derive(Drop)]
pub(crate) struct Senders {
    pub(crate) field: HeaderField,
    pub(crate) words: Vec<Vec<u8>>,
}

// A copy of the senders that a line says.
fn copy(alloc: Global, line: &SaidSenders<'_>) -> Result<Senders, AllocError>
    ensures { IfOk result (λ s. senders_value s ≡ said line.now) }
{
    let mut words = Vec::new(alloc);
    accept(alloc, &mut words, line.words.as_slice())?;
    Ok(Senders {
        field: line.field,
        words,
    })
}

/// A copy of the senders that a line says, where it says any.
pub(crate) fn copied(
    alloc: Global,
    line: &Option<SaidSenders<'_>>,
) -> Result<Option<Senders>, AllocError>
    ensures { IfOk result (λ s. option_map senders_value s ≡ option_map said line.now) }
{
    match line {
        None => Ok(None),
        Some(senders) => Ok(Some(copy(alloc, senders)?)),
    }
}
