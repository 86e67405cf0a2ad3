//! Laws on every lawful journal, and worked rows of the definitions.
ghost use Rattle.std.specs.Prelude.{◌≡◌, ℕ, List, ◌++◌, length, Some};
ghost use Rattle.gw_gate.specs.Replies.{Puts, Swaps, IsStranger, IsUnlike, reply, replies, most};
ghost use Rattle.gw_gate.specs.Journal.{Journal};
ghost use Rattle.gw_gate.specs.Parts.{MessageSeen};
ghost use Rattle.gw_gate.specs.Lawful.{IsLawful, RunsKeepLawful, StepsKeepLawful};
ghost use Rattle.gw_gate.specs.Headline.{InOrder, IsTranslated, Numbered, VersionsRise};
ghost use Rattle.gw_gate.specs.Meaning.{Makes};
ghost use Rattle.gw_gate.specs.Toy.{other_plan, made, made_later, opened, worked, taken};
ghost use Rattle.gw_gate.specs.Rows.{out_of_order, in_order, swapping, swapped_over, issuing_again, issued_again, filling, filled};
ghost use Rattle.gw_gate.specs.Rows.{cutting, cut, closed, filling_on, filled_on, cutting_swapped, cut_swapped};
ghost use Rattle.gw_gate.specs.Chapters.{OverChapters};

/// Results in any order are released in the order of acceptance, each once.
pub fn released_in_order()
    ensures { replies most opened out_of_order ≡ in_order }
{}

/// What was accepted under a plan stays under it when another plan is swapped in.
pub fn swap_in_traffic()
    ensures replies { replies most opened swapping ≡ swapped_over }
    ensures unlike { reply opened (Swaps other_plan) ≡ IsUnlike other_plan }
    ensures other_message { reply worked (Puts 1 (made 10)) ≡ IsStranger (Some (made 10)) }
    ensures other_version { reply taken (Puts 0 (made_later 10)) ≡ IsStranger (Some (made_later 10)) }
{}

/// A pair that is issued again is taken again.
pub fn reissued()
    ensures { replies most opened issuing_again ≡ issued_again }
{}

/// A full journal takes no entry. Events that need none are still answered.
pub fn full()
    ensures { replies 2 opened filling ≡ filled }
{}

/// In a lawful journal what each receiver was sent is a beginning of what was due to it, in order of acceptance, each once.
/// Each is what the plan under which its message was accepted makes of it.
pub fn sent_in_order()
    ensures { (j : Journal) (r : ℕ) → IsLawful (IsTranslated Makes) j → InOrder Makes j r }
{}

/// Two translations of one plan text, message and receiver are one message.
pub fn one_translation()
    ensures { (text : List ℕ) (m : MessageSeen) (r : ℕ) (made other : MessageSeen)
        → Makes text m r made → Makes text m r other → made ≡ other }
{}

/// In a lawful journal the versions under which messages were accepted never fall.
pub fn versions_rise()
    ensures { (j : Journal) → IsLawful (IsTranslated Makes) j → VersionsRise j }
{}

/// In a lawful journal acceptances and plans are numbered consecutively, and each due number occurs once.
pub fn each_once()
    ensures { (j : Journal) → IsLawful (IsTranslated Makes) j → Numbered j }
{}

/// A step, and so any list of events, leads from a lawful journal to a lawful one.
pub fn lawful_stays()
    ensures run { RunsKeepLawful (IsTranslated Makes) }
    ensures step { StepsKeepLawful (IsTranslated Makes) }
{}

/// A journal is closed only if nothing waits. The next one continues its numbers, and what was due before isn't due any more.
pub fn chapters()
    ensures replies { replies most opened (out_of_order ++ cutting) ≡ in_order ++ cut }
    ensures entries { length closed.entries ≡ 12 }
    ensures full { replies 2 opened filling_on ≡ filled_on }
    ensures swapped { replies most opened cutting_swapped ≡ cut_swapped }
{}

/// The same over chapters that follow one another, read as one journal.
pub fn sent_over_chapters()
    ensures order { OverChapters (IsLawful (IsTranslated Makes)) (λ j. (r : ℕ) → InOrder Makes j r) }
    ensures versions { OverChapters (IsLawful (IsTranslated Makes)) VersionsRise }
    ensures numbers { OverChapters (IsLawful (IsTranslated Makes)) Numbered }
{}
