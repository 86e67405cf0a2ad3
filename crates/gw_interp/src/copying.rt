//! Copies fields of the source to fields of the last segment.
ghost use Rattle.std.specs.Prelude.{OnOk};
ghost use Rattle.gw_interp.specs.own.Making.{MayCopyRep, IsRepCopied, Copies, MayMakeField, IsFieldMade};

use crate::putting::put_text;
use gw_er7::{Builder, Place, Segment};
use std::alloc::AllocError;

/// A repetition of a field, by its numbers.
#[derive(Clone, Copy)]
pub(crate) struct ValuePath {
    pub(crate) field: usize,
    pub(crate) rep: usize,
}

/// Copies the texts of a repetition. It takes time linear in their number.
pub(crate) fn copy_rep(
    builder: &mut Builder,
    segment: &Segment<'_>,
    from: ValuePath,
    to: ValuePath,
) -> Result<(), AllocError>
    requires { MayCopyRep segment.now.at from to builder.old }
    ensures { OnOk result (IsRepCopied segment.now.at from to builder.old builder.new) }
{
    let (first, behind) = segment.rep_values(from.field, from.rep);
    for i in first..behind {
        let value = segment.value(i);
        let place = Place {
            field: to.field,
            rep: to.rep,
            ..value.place
        };
        put_text(builder, place, value.text)?;
    }
    Ok(())
}

/// Copies the texts of a field, each repetition to the one of its number. It takes time linear in the number of texts.
pub(crate) fn copy_reps(
    builder: &mut Builder,
    segment: &Segment<'_>,
    from: usize,
    field: usize,
) -> Result<(), AllocError>
    requires { MayMakeField field (Copies segment.now.at from) builder.old }
    ensures { OnOk result (IsFieldMade field (Copies segment.now.at from) builder.old builder.new) }
{
    let (first, behind) = segment.field_values(from);
    for i in first..behind {
        let value = segment.value(i);
        let place = Place {
            field,
            ..value.place
        };
        put_text(builder, place, value.text)?;
    }
    Ok(())
}
