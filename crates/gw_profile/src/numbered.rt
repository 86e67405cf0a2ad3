//! Fields, components and subcomponents by their numbers.
ghost use Rattle.std.specs.Prelude.{◌≡◌, ◌==◌, map, find};
ghost use Rattle.gw_profile.specs.Numbered as spec;
ghost use Rattle.gw_profile.specs.Numbered.{some_field, some_comp, some_sub};
ghost use Rattle.gw_profile.specs.Seen.{field as field_value, comp as comp_value, sub as sub_value};

use crate::shape::{CompShape, FieldShape, SubShape};

/// The first of these fields that has this number. It takes no memory.
pub fn field_of(fields: &[FieldShape], number: u32) -> Option<&FieldShape>
    ensures { some_field result ≡ spec.field_of (map field_value fields.now) number }
{
    for field in fields {
        if field.number == number {
            return Some(field);
        }
    }
    None
}

fn comp_among(comps: &[CompShape], number: u32) -> Option<&CompShape>
    ensures { some_comp result ≡ find (λ c. c.number == number) (map comp_value comps.now) }
{
    for comp in comps {
        if comp.number == number {
            return Some(comp);
        }
    }
    None
}

/// The component of this number, of a field that may not be listed. It takes no memory.
pub fn comp_of(field: Option<&FieldShape>, number: u32) -> Option<&CompShape>
    ensures { some_comp result ≡ spec.comp_of (some_field field.entry) number }
{
    match field {
        None => None,
        Some(field) => comp_among(&field.comps, number),
    }
}

fn sub_among(subs: &[SubShape], number: u32) -> Option<&SubShape>
    ensures { some_sub result ≡ find (λ s. s.number == number) (map sub_value subs.now) }
{
    for sub in subs {
        if sub.number == number {
            return Some(sub);
        }
    }
    None
}

/// The subcomponent of this number, of a component that may not be listed. It takes no memory.
pub fn sub_of(comp: Option<&CompShape>, number: u32) -> Option<&SubShape>
    ensures { some_sub result ≡ spec.sub_of (some_comp comp.entry) number }
{
    match comp {
        None => None,
        Some(comp) => sub_among(&comp.subs, number),
    }
}
