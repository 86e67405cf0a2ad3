//! The rows of an answer's table: texts at places of a segment.
ghost use Rattle.std.specs.Prelude.{◌≡◌, ◌++◌, map, OnOk};
ghost use Rattle.gw_ack.specs.Answers.{component, field};
ghost use Rattle.gw_ack.specs.Seen.{rows};

use gw_er7::{Place, Value};
use std::alloc::AllocError;

/// Adds a text at a component of a field, nothing where it is empty.
fn add_component<'a>(
    table: &mut Vec<Value<'a>>,
    field: usize,
    comp: usize,
    text: &'a [u8],
) -> Result<(), AllocError>
    ensures { OnOk result (rows table.new.items ≡ rows table.old.items ++ component field comp text.now) }
{
    if text.is_empty() {
        return Ok(());
    }
    let place = Place {
        field,
        rep: 1,
        comp,
        sub: 1,
    };
    table.push(Value { place, text })?;
    Ok(())
}

/// Adds a field of these components.
pub(crate) fn add_field<'a>(
    table: &mut Vec<Value<'a>>,
    number: usize,
    parts: &[&'a [u8]],
) -> Result<(), AllocError>
    ensures { OnOk result (rows table.new.items ≡ rows table.old.items ++ field number (map (λ part. part.now) parts.now)) }
{
    for (i, part) in parts.iter().enumerate() {
        add_component(table, number, i + 1, part)?;
    }
    Ok(())
}
