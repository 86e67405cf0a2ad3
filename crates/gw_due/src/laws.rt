//! What holds of the definitions.
ghost use Rattle.std.specs.Prelude.{◌≡◌, ◌↔◌, ◌<◌, ◌++◌, List, ℕ, length, IsTrue};
ghost use Rattle.std.specs.List.{AllPairs, fold};
ghost use mathlib.Core.List.{IsPrefix};
ghost use Rattle.gw_due.specs.Events.{Event};
ghost use Rattle.gw_due.specs.Due.{due, due_since, Name, names, passed, plan_at};
ghost use Rattle.gw_due.specs.Lawful.{IsOnePair, Lawful, MayFollow};
ghost use Rattle.gw_due.specs.Runs.{Covers, Runs};
ghost use Rattle.gw_due.specs.State.{State, after, allows, state_of};
ghost use Rattle.gw_due.specs.Checkpoint.{StateFits, checkpoint};
ghost use Rattle.gw_due.specs.Says.{Says, IsSeen};
ghost use Rattle.gw_due.specs.Spelling.{Entry, Fits, spelled};
ghost use Rattle.gw_due.specs.Starting.{IsStateOf, Starts};

/// What a plan says of a message.
pub trait Rules {
    /// By the plan of this text, these are the receivers of the message of these bytes, which conforms to the profile of its route.
    /// The names say which receivers the numbers are.
    ghost routes: { (names : List Name) (plan to bytes : List ℕ) → Type 0 };
}

/// In a lawful log each receiver passes what is due to it in order. Nothing is passed over.
pub fn in_order<R: Rules>()
    ensures { (log : List Event) → Lawful R.routes log → (r : ℕ) → IsPrefix (passed r log) (due r log) }
{}

/// What is due stays due, at its place, and what was passed stays so, as a log grows.
pub fn only_grows()
    ensures due { (r : ℕ) (log more : List Event) → IsPrefix (due r log) (due r (log ++ more)) }
    ensures passed { (r : ℕ) (log more : List Event) → IsPrefix (passed r log) (passed r (log ++ more)) }
{}

/// A receiver's number has one name, and its name one number, for good.
pub fn one_name<R: Rules>()
    ensures { (log : List Event) → Lawful R.routes log → AllPairs IsOnePair (names log) }
{}

/// A place has one plan, for good.
pub fn one_plan()
    ensures { (place : ℕ) (log more : List Event) → place < length log →
        plan_at place (log ++ more) ≡ plan_at place log }
{}

/// Over all runs of a gateway, a receiver was sent what was due to it, in order. None was passed over, and each was sent once,
/// but for the one that was sent and not yet passed when a run ended.
pub fn covered<R: Rules>()
    ensures { (r : ℕ) (old new : List Event) (sent : List (List ℕ)) → Runs r old sent new →
        Lawful R.routes new → Covers (due_since r old new) sent }
{}

/// Bytes spell one record at most.
pub fn one_spelling()
    ensures { (these those : Entry) → Fits these → Fits those → spelled these ≡ spelled those → these ≡ those }
{}

/// Bytes spell one state at most.
pub fn one_checkpoint()
    ensures { (these those : State) → StateFits these → StateFits those →
        checkpoint these ≡ checkpoint those → these ≡ those }
{}

/// The state of a log goes on from the state of what stands before: a start needs that state, and what stands behind it.
pub fn a_state_goes_on()
    ensures { (before here : List Event) → state_of (before ++ here) ≡ fold after (state_of before) here }
{}

/// The state of a lawful log says what the log does. What is left for a receiver is what is due to it from its place on.
pub fn a_state_tells<R: Rules>()
    ensures { (log : List Event) → Lawful R.routes log → Says log (state_of log) }
{}

/// An event may follow a lawful log exactly where its state allows it and the log shows the rest.
pub fn a_state_decides<R: Rules>()
    ensures { (log : List Event) (e : Event) → Lawful R.routes log →
        MayFollow R.routes log e ↔ (IsTrue (allows (state_of log) e) × IsSeen R.routes log e) }
{}

/// Where a checkpoint is that of what stands before, the state that a start makes is that of the log up to the last record.
pub fn a_start_tells()
    ensures { (before : List Event) (bytes : List ℕ) (records : List (List ℕ)) (s : State) → StateFits (state_of before) →
        bytes ≡ checkpoint (state_of before) → Starts bytes records s → IsStateOf before records s }
{}
