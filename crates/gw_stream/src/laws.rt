//! What holds of the definitions.
ghost use Rattle.std.specs.Prelude.{List, ℕ};
ghost use Rattle.gw_profile.specs.Shapes.{ProfileValue};
ghost use Rattle.gw_profile.specs.WellFormed.{WellFormed};
ghost use Rattle.gw_stream.specs.Answers.{HasOneAnswer, Validated};
ghost use Rattle.gw_stream.specs.Posts.{IsBeginning, Post, Whom, bytes_to};
ghost use Rattle.gw_stream.specs.Sent.{BeginsWith};

use gw_er7::reads_once;
use gw_validate::laws::{conforming_breaks_nothing, one_least};

/// By a profile a content has one answer of each number and stamp at most.
pub fn one_answer()
    ensures { (p : ProfileValue) (stamp content : List ℕ) (number : ℕ) → WellFormed p → HasOneAnswer (Validated p) stamp number content }
{
    reads_once();
    one_least();
    conforming_breaks_nothing();
}

/// Posts that were sent in part, in order, are for each one a beginning of what is meant for it.
#[tactic(auto, using(crate::proofs::Posting::for_each))]
pub fn a_beginning_for_each()
    ensures { (sent posts : List Post) (whom : Whom) → IsBeginning sent posts → BeginsWith (bytes_to whom posts) (bytes_to whom sent) }
{}
