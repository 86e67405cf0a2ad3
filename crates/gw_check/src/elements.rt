//! The elements of a profile that are named by their numbers.
ghost use Rattle.std.specs.Prelude.{◌≡◌, map};
ghost use Rattle.gw_profile.specs.Seen.{forest, field as seen_field, profile_value};
ghost use Rattle.gw_check.specs.Elements as spec;
ghost use Rattle.gw_profile.specs.Numbered.{some_field, some_comp, some_sub};

use gw_profile::{CompShape, FieldShape, Node, Profile, SubShape, comp_of, field_of, sub_of};
use gw_resolve::{fields_at, nodes_within};

// The fields of the segment to which the numbers lead.
fn fields_in<'a>(nodes: &'a [Node], at: &[usize]) -> &'a [FieldShape]
    ensures { map seen_field result.now ≡ spec.fields_in (forest nodes.now) at.now }
{
    let [first, rest @ ..] = at else {
        return &[];
    };
    let mut level = nodes;
    let mut number = *first;
    for next in rest {
        level = nodes_within(level, number);
        number = *next;
    }
    fields_at(level, number)
}

/// The field of this number of the segment at a position, where the profile lists it. It takes no memory.
pub fn field_at<'a>(profile: &'a Profile, at: &[usize], field: u32) -> Option<&'a FieldShape>
    ensures { some_field result ≡ spec.field_at (profile_value profile.now).nodes at.now field }
{
    field_of(fields_in(profile.nodes(), at), field)
}

/// A component of that field, where the profile lists it. It takes no memory.
pub fn comp_at<'a>(
    profile: &'a Profile,
    at: &[usize],
    field: u32,
    comp: u32,
) -> Option<&'a CompShape>
    ensures { some_comp result ≡ spec.comp_at (profile_value profile.now).nodes at.now field comp }
{
    comp_of(field_at(profile, at, field), comp)
}

/// A subcomponent of that component, where the profile lists it. It takes no memory.
pub fn sub_at<'a>(
    profile: &'a Profile,
    at: &[usize],
    field: u32,
    comp: u32,
    sub: u32,
) -> Option<&'a SubShape>
    ensures { some_sub result ≡ spec.sub_at (profile_value profile.now).nodes at.now field comp sub }
{
    sub_of(comp_at(profile, at, field, comp), sub)
}
