//! What a message breaks, and where.
ghost use Rattle.std.specs.Prelude.{◌≡◌};
ghost use Rattle.gw_validate.specs.Kinds.{code_of};

/// The kinds of breach. Their order is the order in which they are named at one place.
#[derive(Clone, Copy, PartialEq, Eq, Debug, Drop)]
pub enum Kind {
    /// With this segment the names begin no list that fits; those before it do.
    OutOfOrder,
    /// The message ends before all that the profile demands has come.
    MissingSegment,
    /// A field has fewer present repetitions than its min, or an R component or subcomponent is absent below a present parent.
    MissingValue,
    /// An X field, component or subcomponent is present.
    Forbidden,
    /// A field has more present repetitions than its max.
    TooManyReps,
    /// A subcomponent is longer than its length.
    TooLong,
    /// A subcomponent isn't a value of its table.
    NotInTable,
}

/// A breach: its kind, the segment's name, which of the segments of that name it is (from 1), and the place in it. A number that isn't said is 0.
#[derive(Clone, Copy, PartialEq, Eq, Debug, Drop)]
pub struct Breach {
    pub kind: Kind,
    pub segment: [u8; 3],
    pub sequence: usize,
    pub field: usize,
    pub rep: usize,
    pub comp: usize,
    pub sub: usize,
}

impl Breach {
    /// The code of the condition (HL7 table 0357). It takes no memory.
    pub fn code(&self) -> u16
        ensures { result ≡ code_of self.now.kind }
    {
        match self.kind {
            Kind::OutOfOrder => 100,
            Kind::MissingSegment => 100,
            Kind::MissingValue => 101,
            Kind::Forbidden => 102,
            Kind::TooManyReps => 102,
            Kind::TooLong => 102,
            Kind::NotInTable => 103,
        }
    }
}
