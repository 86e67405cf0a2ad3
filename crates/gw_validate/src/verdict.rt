//! Whether a message conforms to a profile, and if not, what it breaks first.
ghost use Rattle.std.specs.Prelude.{◌≡◌, ◌<◌, ◌+◌, ◌^◌, ◌↔◌, take, IfOk, IfErr, IfSome, IsNone, IsTrue};
ghost use Rattle.std.specs.Arc.{arc_value};
ghost use Rattle.std.specs.List.{count_by};
ghost use Rattle.std.specs.Str.{bytes_eq};
ghost use Rattle.gw_profile.specs.Seen.{profile_value, forest};
ghost use Rattle.gw_validate.specs.Conforming.{numbers, Conforms};
ghost use Rattle.gw_validate.specs.own.Least.{segment_key};
ghost use Rattle.gw_validate.specs.Broken.{sequence, spot_of, IsLeast};
ghost use Rattle.gw_validate.specs.Verdict.{is_fit, IfFits, IfBreaks, HasTree, HasBreach};
ghost use Rattle.gw_validate.specs.own.Judging.{IsJudged, IsPlaced, IsFirst};

use crate::breach::{Breach, Kind};
use crate::build::build;
use crate::fields::{Spot, of_kind};
use crate::listing::{listed, name_at};
use crate::occurrences::Found;
use crate::search::search;
use crate::tree::Tree;
use crate::walk::{Answer, walk};
use gw_er7::Message;
use gw_profile::{FieldShape, Profile};
use std::alloc::{AllocError, Global};
use std::sync::Arc;

/// What a message is by a profile.
#[derive(Drop)]
pub enum Verdict {
    /// It conforms, and this is its tree.
    Fits(Tree),
    /// It does not, and this is its first breach. The message is returned.
    Breaks(Breach, Message),
}

/// The same, before the profile and the message are moved: the numbers of its segments that the profile knows, and the nodes that occur.
#[derive(Drop)]
enum Judged {
    Fits(Vec<usize>, Found),
    Breaks(Breach),
}

// How many of the segments before the one of this number have the name.
fn count_named(message: &Message, number: usize, name: [u8; 3]) -> usize
    ensures count { result ≡ count_by (λ s. bytes_eq s.name name) (take number message.now) }
    ensures room { result + 1 < 2 ^ 64 }
{
    let mut count = 0;
    for i in 0..message.segment_count() {
        if i == number {
            return count;
        }
        if name_at(message, i) == name {
            count += 1;
        }
    }
    count
}

// The breach at this spot of the segment of this number, or of one that is missing there.
fn breach_at(message: &Message, number: usize, name: [u8; 3], spot: Spot) -> Breach
    ensures segment { result.segment ≡ name }
    ensures sequence { result.sequence ≡ sequence message.now number name }
    ensures spot { spot_of result ≡ segment_key spot }
{
    let before = count_named(message, number, name);
    Breach {
        kind: spot.kind,
        segment: name,
        sequence: before + 1,
        field: spot.field,
        rep: spot.rep,
        comp: spot.comp,
        sub: spot.sub,
    }
}

// Where the names of a message stand in a profile.
#[derive(Drop)]
pub(crate) enum Placed<'a> {
    /// They fit: each of the segments that the profile knows has these fields.
    Shapes(Vec<&'a [FieldShape]>),
    /// They don't fit: the one breach, with the number of its segment.
    Alone(usize, Breach),
}

// Where the names of a message stand in a profile. `taken` are the numbers of the segments that the profile knows.
pub(crate) fn place_segments<'a>(
    alloc: Global,
    profile: &'a Profile,
    message: &Message,
    taken: &[usize],
) -> Result<Placed<'a>, AllocError>
    requires { taken.now ≡ numbers (forest profile.now.nodes) message.now }
    ensures { IfOk result (IsPlaced (profile_value profile.now) message.now) }
{
    match walk(alloc, profile.nodes(), message, taken)? {
        Answer::Fits(shapes) => Ok(Placed::Shapes(shapes)),
        Answer::OutOfOrder(i) => {
            let number = taken[i];
            let name = name_at(message, number);
            let spot = of_kind(Kind::OutOfOrder);
            Ok(Placed::Alone(number, breach_at(message, number, name, spot)))
        }
        Answer::Missing(name) => {
            let number = message.segment_count();
            let spot = of_kind(Kind::MissingSegment);
            Ok(Placed::Alone(number, breach_at(message, number, name, spot)))
        }
    }
}

// What a message breaks first. `taken` are the numbers of the segments that the profile knows.
fn least(
    alloc: Global,
    profile: &Profile,
    message: &Message,
    taken: &[usize],
) -> Result<Option<Breach>, AllocError>
    requires { taken.now ≡ numbers (forest profile.now.nodes) message.now }
    ensures { IfOk result (λ first. IsFirst (profile_value profile.now) message.now first) }
{
    match place_segments(alloc, profile, message, taken)? {
        Placed::Alone(_, breach) => Ok(Some(breach)),
        Placed::Shapes(shapes) => match search(profile, message, taken, &shapes) {
            None => Ok(None),
            Some((number, spot)) => Ok(Some(breach_at(
                message,
                number,
                name_at(message, number),
                spot,
            ))),
        },
    }
}

// What a message is by a profile.
fn judge(alloc: Global, profile: &Profile, message: &Message) -> Result<Judged, AllocError>
    ensures { IfOk result (IsJudged (profile_value profile.now) message.now) }
{
    let taken = listed(alloc, profile, message)?;
    match least(alloc, profile, message, &taken)? {
        Some(breach) => Ok(Judged::Breaks(breach)),
        None => {
            let found = build(alloc, profile.nodes(), message, &taken)?;
            Ok(Judged::Fits(taken, found))
        }
    }
}

/// The first breach of a message: none exactly where it conforms to the profile. It makes no tree. Err is allocation failure.
pub fn first_breach(
    alloc: Global,
    profile: &Profile,
    message: &Message,
) -> Result<Option<Breach>, AllocError>
    ensures exact { IfOk result (λ first. IsNone first ↔ Conforms (profile_value profile.now) message.now) }
    ensures breach { IfOk result (λ first. IfSome first (IsLeast (profile_value profile.now) message.now)) }
{
    let taken = listed(alloc, profile, message)?;
    least(alloc, profile, message, &taken)
}

/// Validates a message against a profile: it conforms, with its one tree, or it breaks the profile, with its first breach and the message. Err is allocation failure, with the message.
pub fn validate(alloc: Global, profile: Arc<Profile>, message: Message) -> Result<Verdict, Message>
    ensures exact { IfOk result (λ verdict. IsTrue (is_fit verdict) ↔ Conforms (profile_value (arc_value profile)) message) }
    ensures tree { IfOk result (λ verdict. IfFits verdict (HasTree (profile_value (arc_value profile)) message)) }
    ensures breach { IfOk result (λ verdict. IfBreaks verdict (HasBreach (profile_value (arc_value profile)) message)) }
    ensures refused { IfErr result (λ back. back ≡ message) }
{
    match judge(alloc, &profile, &message) {
        Err(_) => Err(message),
        Ok(Judged::Breaks(breach)) => Ok(Verdict::Breaks(breach, message)),
        Ok(Judged::Fits(taken, found)) => {
            let mut message = message;
            message.fit();
            Ok(Verdict::Fits(Tree::of(profile, message, taken, found)))
        }
    }
}
