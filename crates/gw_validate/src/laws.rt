//! What holds of the definitions.
ghost use Rattle.std.specs.Prelude.{◌≡◌, ◌↔◌, List, ℕ};
ghost use Rattle.gw_er7.specs.Message.{SegmentValue};
ghost use Rattle.gw_profile.specs.Shapes.{ProfileValue};
ghost use Rattle.gw_profile.specs.Deterministic.{Name};
ghost use Rattle.gw_profile.specs.WellFormed.{WellFormed};
ghost use Rattle.gw_validate.specs.declared.breach.Breach.{Breach};
ghost use Rattle.gw_validate.specs.Conforming.{numbers, named, MeetsAt, NamesFit, Conforms};
ghost use Rattle.gw_validate.specs.Trees.{Tree, MeetingTree};
ghost use Rattle.gw_validate.specs.Broken.{IsTreeOf, AllMeetIn, IsShortestOf, Breaks, IsLeast};

/// A message has one tree of a profile at most.
pub fn one_tree()
    ensures { (p : ProfileValue) (m : List SegmentValue) (s t : Tree) → WellFormed p → IsTreeOf p m s → IsTreeOf p m t → s ≡ t }
{}

/// The names of a message have one shortest completion at most, the whole of it.
pub fn one_completion()
    ensures { (p : ProfileValue) (m : List SegmentValue) (a b : List Name) → WellFormed p → IsShortestOf p m a → IsShortestOf p m b → a ≡ b }
{}

/// One breach of a message at most is the least.
pub fn one_least()
    ensures { (p : ProfileValue) (m : List SegmentValue) (a b : Breach) → WellFormed p → IsLeast p m a → IsLeast p m b → a ≡ b }
{}

/// A message that conforms breaks nothing.
pub fn conforming_breaks_nothing()
    ensures { (p : ProfileValue) (m : List SegmentValue) → WellFormed p → Conforms p m → (i : ℕ) (name : Name) (spot : List ℕ) → Breaks p m i name spot → ⊥ }
{}

/// A message conforms exactly where it has a tree in which each segment meets the shape of its node.
pub fn conforms_by_tree()
    ensures { (p : ProfileValue) (m : List SegmentValue) → WellFormed p → (Conforms p m ↔ MeetingTree (named m) (MeetsAt p m) p.nodes (numbers p.nodes m)) }
{}

/// The one tree decides whether a message conforms.
pub fn tree_decides()
    ensures { (p : ProfileValue) (m : List SegmentValue) (t : Tree) → WellFormed p → IsTreeOf p m t → (Conforms p m ↔ AllMeetIn p m t) }
{}

/// The names of a message that has a tree fit.
pub fn tree_names_fit()
    ensures { (p : ProfileValue) (m : List SegmentValue) (t : Tree) → WellFormed p → IsTreeOf p m t → NamesFit p.nodes m }
{}
