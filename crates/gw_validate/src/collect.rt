//! Every breach of a message, in order.
ghost use Rattle.std.specs.Prelude.{◌≡◌, ◌<◌, ◌+◌, ◌∷◌, [], length, map, IfOk, OnOk};
ghost use Rattle.std.specs.List.{AllByRecursion};
ghost use Rattle.gw_profile.specs.Seen.{field, profile_value};
ghost use Rattle.gw_validate.specs.Every.{AreBreaches};
ghost use Rattle.gw_validate.specs.own.Finding.{Finds, breach_of, count_of, AreSequences, IsSmall};
ghost use Rattle.gw_validate.specs.own.Least.{ShapeRises, BreachAt};
ghost use Rattle.gw_validate.specs.own.Taking.{paired, shape_of};

use crate::breach::Breach;
use crate::fields::{Spot, visit_fields};
use crate::listing::{listed, name_at};
use crate::verdict::{Placed, place_segments};
use gw_er7::Message;
use gw_profile::{FieldShape, Profile};
use std::alloc::{AllocError, Global};
use std::collections::BTreeMap;

// Puts every breach of the segment of this number behind what was found.
fn find_in_segment(
    alloc: Global,
    profile: &Profile,
    message: &Message,
    fields: &[FieldShape],
    number: usize,
    found: &mut Vec<(usize, Spot)>,
) -> Result<(), AllocError>
    requires rises { ShapeRises (map field fields.now) }
    requires within { number < length message.now }
    ensures { OnOk result (Finds (BreachAt (profile_value profile.now) message.now)
        ((number, map field fields.now) ∷ []) found.old.items found.new.items) }
{
    let segment = message.segment(number);
    let mut spots = Vec::new(alloc);
    visit_fields(profile, &segment, fields, &mut spots)?;
    for spot in spots.as_slice() {
        found.push((number, *spot))?;
    }
    Ok(())
}

// Every breach of the segments of these numbers. The shapes are theirs, in order.
fn find_in_segments(
    alloc: Global,
    profile: &Profile,
    message: &Message,
    numbers: &[usize],
    shapes: &[&[FieldShape]],
) -> Result<Vec<(usize, Spot)>, AllocError>
    requires same { length shapes.now ≡ length numbers.now }
    requires rises { AllByRecursion (λ fields. ShapeRises (shape_of fields)) shapes.now }
    requires within { AllByRecursion (λ i. i < length message.now) numbers.now }
    ensures { IfOk result (λ found. Finds (BreachAt (profile_value profile.now) message.now)
        (paired numbers.now shapes.now) [] found.items) }
{
    let mut found = Vec::new(alloc);
    for (i, fields) in shapes.iter().enumerate() {
        find_in_segment(alloc, profile, message, fields, numbers[i], &mut found)?;
    }
    Ok(found)
}

// The sequence of the next segment of a name.
fn next_of(counts: &BTreeMap<[u8; 3], usize>, name: [u8; 3]) -> usize
    requires { IsSmall counts.now name }
    ensures { result ≡ count_of counts.now name + 1 }
{
    match counts.get(&name) {
        None => 1,
        Some(count) => *count + 1,
    }
}

// Which of the segments of its name each segment of a message is, from 1.
fn sequences(alloc: Global, message: &Message) -> Result<Vec<usize>, AllocError>
    ensures count { IfOk result (λ all. length all.items ≡ length message.now) }
    ensures each { IfOk result (λ all. AreSequences message.now all.items) }
{
    let mut all = Vec::with_capacity(alloc, message.segment_count())?;
    let mut counts: BTreeMap<[u8; 3], usize> = BTreeMap::new(alloc);
    for number in 0..message.segment_count() {
        let name = name_at(message, number);
        let sequence = next_of(&counts, name);
        counts.insert(name, sequence)?;
        all.push(sequence)?;
    }
    Ok(all)
}

// The breaches of these spots, each by the number of its segment.
fn breaches_at(
    alloc: Global,
    message: &Message,
    spots: Vec<(usize, Spot)>,
) -> Result<Vec<(usize, Breach)>, AllocError>
    requires { AllByRecursion (λ x. x.0 < length message.now) spots.items }
    ensures { IfOk result (λ found. found.items ≡ map (breach_of message.now) spots.items) }
{
    let sequences = sequences(alloc, message)?;
    let mut found = Vec::with_capacity(alloc, spots.len())?;
    for found_at in spots.as_slice() {
        let (number, spot) = *found_at;
        let breach = Breach {
            kind: spot.kind,
            segment: name_at(message, number),
            sequence: sequences[number],
            field: spot.field,
            rep: spot.rep,
            comp: spot.comp,
            sub: spot.sub,
        };
        found.push((number, breach))?;
    }
    Ok(found)
}

/// All breaches of a message, each with the number of its segment (from 0), in the order of segment, field, repetition, component,
/// subcomponent and kind. There is none exactly where it conforms. Where its names don't fit, that is the one breach: no segment then
/// has a place in the profile. The one error is an allocation failure.
pub fn breaches(
    alloc: Global,
    profile: &Profile,
    message: &Message,
) -> Result<Vec<(usize, Breach)>, AllocError>
    ensures { IfOk result (λ found. AreBreaches (profile_value profile.now) message.now found.items) }
{
    let taken = listed(alloc, profile, message)?;
    match place_segments(alloc, profile, message, &taken)? {
        Placed::Shapes(shapes) => {
            let spots = find_in_segments(alloc, profile, message, &taken, &shapes)?;
            breaches_at(alloc, message, spots)
        }
        Placed::Alone(number, breach) => {
            let mut found = Vec::new(alloc);
            found.push((number, breach))?;
            Ok(found)
        }
    }
}
