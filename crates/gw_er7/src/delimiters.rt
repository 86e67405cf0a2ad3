//! The five delimiters of a message (HL7 v2.5.1 chapter 2, 2.5.4 "Message delimiters").

/// The five delimiters of a message.
#[derive(Clone, Copy, Debug, PartialEq, Eq)]
pub struct Delimiters {
    pub field: u8,
    pub component: u8,
    pub repetition: u8,
    pub escape: u8,
    pub subcomponent: u8,
}

/// Those that the standard recommends: `|^~\&`.
pub(crate) const STANDARD: Delimiters = Delimiters {
    field: b'|',
    component: b'^',
    repetition: b'~',
    escape: b'\\',
    subcomponent: b'&',
};
