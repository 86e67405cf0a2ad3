//! What a profile demands of the fields of a segment.

/// Whether an element is required, required but may be empty, optional or forbidden.
#[derive(Clone, Copy, PartialEq, Eq, Debug, Drop)]
pub enum Usage {
    R,
    RE,
    O,
    X,
}

/// The cardinality of an element: how often it may occur.
#[derive(Clone, Copy, PartialEq, Eq, Debug, Drop)]
pub struct Card {
    pub min: u32,
    pub max: Option<u32>,
}

/// What the lengths of a profile count in a canonical text.
#[derive(Clone, Copy, PartialEq, Eq, Debug, Drop)]
pub enum Count {
    /// Every octet.
    Octets,
    /// The octets outside 0x80 to 0xBF. In UTF-8 each of them begins a character.
    Characters,
}

/// A subcomponent, with the name of its table.
#[derive(PartialEq, Drop)]
pub struct SubShape {
    pub number: u32,
    pub usage: Usage,
    pub len: Option<u32>,
    pub table: Option<Vec<u8>>,
}

/// A component.
#[derive(Drop)]
pub struct CompShape {
    pub number: u32,
    pub usage: Usage,
    pub subs: Vec<SubShape>,
}

/// A field of a segment.
#[derive(Drop)]
pub struct FieldShape {
    pub number: u32,
    pub usage: Usage,
    pub card: Card,
    pub comps: Vec<CompShape>,
}
