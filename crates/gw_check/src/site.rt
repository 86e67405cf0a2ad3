//! What a line of a map makes, and of what.

use gw_maplang::DateDigits;

/// An element of a profile: a node, by the numbers of the nodes that lead to it from the top on, each from 0, or in it a field, a component, a subcomponent. 0 is said where the whole is meant.
#[derive(Drop)]
pub struct ElementPath {
    pub at: Vec<usize>,
    /// Of what is read, how many of the numbers lead to what an item around it walks.
    pub walked: usize,
    pub field: u32,
    pub comp: u32,
    pub sub: u32,
}

/// What something is made of.
#[derive(Drop)]
pub enum Origin {
    /// Of nothing that the line names.
    Unsaid,
    /// A constant.
    Text(Vec<u8>),
    /// An element of the source.
    Read(ElementPath),
    /// A field of the source, of whose repetitions each makes one by the leaves of the line.
    Repeated(ElementPath),
    /// What the table of this name gives for an element of the source.
    LookedUp(Vec<u8>, ElementPath),
    /// The first digits of an element of the source.
    Dated(DateDigits, ElementPath),
}

/// The element of the target that a line makes, and of what.
pub struct Site {
    pub line: u32,
    pub target: ElementPath,
    pub origin: Origin,
}

// (by hand, so that no crate above proves again how its fields are dropped)
impl Drop for Site {
    fn drop(self) {
        let Site {
            line: _,
            target: _,
            origin: _,
        } = self;
    }
}
