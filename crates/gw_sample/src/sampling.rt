//! The sample of a profile.
ghost use Rattle.std.specs.Prelude.{◌≤◌, length, IfOk, IfSome, IsSome};
ghost use Rattle.std.specs.Arc.{arc_value};
ghost use Rattle.gw_profile.specs.Seen.{profile_value, forest};
ghost use Rattle.gw_validate.specs.Conforming.{Conforms};
ghost use Rattle.gw_sample.specs.Samples.{IsSample, IsReadAgain, NoneIfTooLarge};
ghost use Rattle.gw_sample.specs.own.Least.{least};

use crate::drawing::draw;
use crate::extent::Extent;
use crate::fewest_texts::are_few;
use crate::leaf::Texts;
use crate::least::{has_room, least_message};
use crate::text::Undrawn;
use gw_er7::{Message, ReadFault, read};
use gw_profile::Profile;
use gw_validate::{Tree, Verdict, validate};
use std::alloc::{AllocError, Global};
use std::sync::Arc;

// Reads bytes as a message.
#[tactic(auto, using(crate::proofs::Again::again))]
fn read_back(alloc: Global, text: &[u8]) -> Result<Message, ReadFault>
    ensures { IfOk result IsReadAgain }
{
    let message = read(alloc, text)?;
    // Called for its clause, which says what every message keeps.
    let _segments = message.segment_count();
    Ok(message)
}

// What was drawn, as a message. None where it is larger than a message is.
fn drawn(
    alloc: Global,
    profile: &Profile,
    extent: Extent,
    texts: Texts,
) -> Result<Option<Message>, AllocError>
    ensures { IfOk result (λ found. IfSome found IsReadAgain) }
{
    let text = match draw(alloc, profile, extent, texts) {
        Ok(text) => text,
        Err(Undrawn::Memory) => return Err(AllocError),
        Err(Undrawn::TooLong) => return Ok(None),
    };
    match read_back(alloc, &text) {
        Ok(message) => Ok(Some(message)),
        Err(ReadFault::Memory) => Err(AllocError),
        Err(_) => Ok(None),
    }
}

// The tree of a message, where it conforms to the profile.
fn tree_of(
    alloc: Global,
    profile: &Arc<Profile>,
    message: Message,
) -> Result<Option<Tree>, AllocError>
    requires { IsReadAgain message }
    ensures sample { IfOk result (IsSample (profile_value (arc_value profile.now))) }
    ensures found { Conforms (profile_value (arc_value profile.now)) message → IfOk result IsSome }
{
    match validate(alloc, profile.clone()?, message) {
        Ok(Verdict::Fits(tree)) => Ok(Some(tree)),
        Ok(Verdict::Breaks(_, _)) => Ok(None),
        Err(_) => Err(AllocError),
    }
}

// A sample as it is drawn. None where it is larger than a message, or no sample.
fn drawn_tree(
    alloc: Global,
    profile: &Arc<Profile>,
    extent: Extent,
    texts: Texts,
) -> Result<Option<Tree>, AllocError>
    ensures { IfOk result (IsSample (profile_value (arc_value profile.now))) }
{
    match drawn(alloc, profile, extent, texts)? {
        Some(message) => tree_of(alloc, profile, message),
        None => Ok(None),
    }
}

// The same, or else the least sample with these texts.
fn drawn_or_least(
    alloc: Global,
    profile: &Arc<Profile>,
    extent: Extent,
    texts: Texts,
) -> Result<Option<Tree>, AllocError>
    ensures { IfOk result (IsSample (profile_value (arc_value profile.now))) }
{
    match drawn_tree(alloc, profile, extent, texts)? {
        Some(drawn) => Ok(Some(drawn)),
        None if extent == Extent::Least => Ok(None),
        None => drawn_tree(alloc, profile, Extent::Least, texts),
    }
}

// The least message, which isn't larger than a message.
fn least_tree(alloc: Global, profile: &Arc<Profile>) -> Result<Option<Tree>, AllocError>
    requires { length (least (forest (arc_value profile.now).nodes)) ≤ 10000 }
    ensures sample { IfOk result (IsSample (profile_value (arc_value profile.now))) }
    ensures found { IfOk result IsSome }
{
    let message = least_message(alloc, profile)?;
    tree_of(alloc, profile, message)
}

/// A message that conforms to the profile, made up from the profile alone, with its tree. Its texts are the values of the profile's tables,
/// and plain ones; none is from a message. Where what was made up is larger than a message, over 1,048,576 bytes or 10,000 segments, it is the
/// least that conforms: with these texts, or else with `""` in each place that needs one, however many bytes that has.
/// None exactly where each message that conforms has more than 10,000 segments, or more than 524,288 texts have to come in one. The one error is allocation failure.
pub fn sample(
    alloc: Global,
    profile: &Arc<Profile>,
    extent: Extent,
    texts: Texts,
) -> Result<Option<Tree>, AllocError>
    ensures sample { IfOk result (IsSample (profile_value (arc_value profile.now))) }
    ensures none { IfOk result (NoneIfTooLarge (profile_value (arc_value profile.now))) }
{
    if !has_room(profile) {
        return Ok(None);
    }
    if !are_few(profile) {
        return Ok(None);
    }
    match drawn_or_least(alloc, profile, extent, texts)? {
        Some(tree) => Ok(Some(tree)),
        None => least_tree(alloc, profile),
    }
}
