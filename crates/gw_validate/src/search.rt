//! The first segment of a message that breaks its shape.
ghost use Rattle.std.specs.Prelude.{◌≡◌, ◌<◌, length};
ghost use Rattle.std.specs.List.{AllByRecursion};
ghost use Rattle.gw_profile.specs.Seen.{profile_value};
ghost use Rattle.gw_validate.specs.own.Least.{ShapeRises, FindsBreach};
ghost use Rattle.gw_validate.specs.own.Taking.{paired, shape_of};

use crate::fields::{Spot, visit_fields};
use crate::visitor::First;
use gw_er7::Message;
use gw_profile::{FieldShape, Profile};

/// The first of the segments of these numbers that breaks its shape, and its least breach. The shapes are theirs, in order.
pub(crate) fn search(
    profile: &Profile,
    message: &Message,
    numbers: &[usize],
    shapes: &[&[FieldShape]],
) -> Option<(usize, Spot)>
    requires same { length shapes.now ≡ length numbers.now }
    requires rises { AllByRecursion (λ fields. ShapeRises (shape_of fields)) shapes.now }
    requires within { AllByRecursion (λ i. i < length message.now) numbers.now }
    ensures { FindsBreach (profile_value profile.now) message.now (paired numbers.now shapes.now) result }
{
    for (i, fields) in shapes.iter().enumerate() {
        let number = numbers[i];
        let segment = message.segment(number);
        if let Err(spot) = visit_fields(profile, &segment, fields, &mut First) {
            return Some((number, spot));
        }
    }
    None
}
