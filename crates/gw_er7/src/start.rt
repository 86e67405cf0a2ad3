//! Where the texts of a segment begin among those of its message, which lie one segment behind the other.
ghost use Rattle.std.specs.Prelude.{◌≡◌, ◌+◌, ◌<◌, drop, length};
ghost use Rattle.gw_er7.specs.View.{end_before};

use crate::same::{Part, same_bytes};
use crate::texts::Texts;

/// A segment's name, and the number of its first text; its texts end where those of the next segment begin.
#[derive(Clone, Copy)]
pub(crate) struct SegmentHead {
    pub(crate) name: [u8; 3],
    pub(crate) first: usize,
}

/// The number of the first text behind those of the segment of this number.
pub(crate) fn end_of(starts: &[SegmentHead], texts: &Texts, i: usize) -> usize
    requires { i < length starts.now }
    ensures { result ≡ end_before (drop (i + 1) starts.now) texts.now }
{
    if i + 1 < starts.len() {
        return starts[i + 1].first;
    }
    texts.len()
}

impl Part for SegmentHead {
    ghost use Rattle.std.specs.Prelude.{◌≡◌};

    ghost same = { λ one other. one ≡ other };

    fn is(&self, other: &SegmentHead) -> bool {
        self.first == other.first && same_bytes(&self.name, &other.name)
    }
}
