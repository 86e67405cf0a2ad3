//! What fails of a segment, by its line.
ghost use Rattle.std.specs.Prelude.{◌≡◌};
ghost use Rattle.gw_leaves.specs.Components as spec;
ghost use Rattle.gw_resolve.specs.Seen.{mark as seen_mark};

use gw_resolve::{At, FailureSite};

/// A mark of all of a target field, by its number and a line. It takes no memory.
pub fn field_mark(number: u32, line: u32) -> FailureSite
    ensures { seen_mark result ≡ spec.field_mark number line }
{
    FailureSite {
        line,
        child: None,
        missing: false,
        field: number,
        comp: 0,
        sub: 0,
        count: None,
    }
}

/// The component and the subcomponent of a leaf in its field.
pub(crate) fn leaf_mark(field: u32, at: &At) -> FailureSite
    ensures { seen_mark result ≡ spec.sub_in (spec.comp_in (spec.field_mark field at.now.line) at.now.place.comp) at.now.place.sub }
{
    FailureSite {
        comp: at.place.comp,
        sub: at.place.sub,
        ..field_mark(field, at.line)
    }
}
