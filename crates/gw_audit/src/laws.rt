//! Rows of the definitions of settled notes, and of what waits for a receiver.
ghost use Rattle.std.specs.Prelude.{◌≡◌, ◌-◌, ℕ, List, drop, [], ◌∷◌, ◌++◌, None, Some, true, false};
ghost use Rattle.std.specs.Prelude.{flat_map, map, nat_le, replicate};
ghost use Rattle.std.specs.List.{range_with_len};
ghost use Rattle.gw_gate.specs.Chapters.{all_entries};
ghost use Rattle.gw_gate.specs.Journal.{Journal, WasKept, end, from, released, start_after};
ghost use Rattle.gw_gate.specs.Replies.{Arrives, Puts, Releases, Takes, most, run};
ghost use Rattle.gw_gate.specs.Toy.{made, message, opened, worked};
ghost use Rattle.gw_crew.specs.Notes.{NoteSeen, WasFull};
ghost use Rattle.gw_audit.specs.Given.{NoneGiven, are_same, given_out};
ghost use Rattle.gw_reorder.specs.State.{nothing_due};
ghost use Rattle.gw_audit.specs.Owing.{after_entry, gives_none};
ghost use Rattle.gw_run.specs.Passes.{receipts};
ghost use Rattle.gw_audit.specs.Settled.{GoOn, Settled, agrees, are_all, first_of};
ghost use Rattle.gw_audit.specs.Rows.{desk_by, owing, session, one_worker, other_worker, idle_worker, boasting_worker, lying_worker};
ghost use Rattle.gw_audit.specs.Rows.{first_chapter, open_chapter, long_session, long_worker, courier, counting_anew, denying};
ghost use Rattle.gw_audit.specs.Rows.{swapped, through_swap, late_look, late_nothing, false_stale};

/// The notes of a session and two workers agree with their journal, also where only the workers' entries are asked for.
pub fn workers_settle()
    ensures all { Settled (worked ∷ []) 0 (session ∷ one_worker ∷ other_worker ∷ []) }
    ensures since { Settled (worked ∷ []) 2 (one_worker ∷ other_worker ∷ []) }
{}

/// They don't where an entry has no receipt or two, where a worker denies a job that waited, or has a receipt of another result.
pub fn workers_deny()
    ensures by_none { are_all 0 (end worked) (flat_map receipts (one_worker ∷ other_worker ∷ [])) ≡ false }
    ensures by_two { are_all 2 (end worked) (flat_map receipts (one_worker ∷ boasting_worker ∷ [])) ≡ false }
    ensures idle { agrees (worked ∷ []) 2 idle_worker ≡ false }
    ensures other { agrees (worked ∷ []) 2 lying_worker ≡ false }
    ensures falling { agrees (worked ∷ []) 2 (other_worker ++ one_worker) ≡ false }
{}

/// Each kind of note fits the journal where the gate gave that reply, and not where it gave another.
pub fn swap_settles()
    ensures settled { Settled (swapped ∷ []) 0 (through_swap ∷ []) }
    ensures look { agrees (swapped ∷ []) 0 late_look ≡ false }
    ensures nothing { agrees (swapped ∷ []) 0 late_nothing ≡ false }
    ensures stale { agrees (swapped ∷ []) 0 false_stale ≡ false }
    ensures full { agrees (swapped ∷ []) 0 (WasFull ∷ []) ≡ false }
{}

/// Notes that cross a cut agree with both chapters, and not where numbers count anew, a chapter wasn't full, or chapters are exchanged, left out or twice.
pub fn chapters_settle()
    ensures settled { Settled (first_chapter ∷ open_chapter ∷ []) 0 (long_session ∷ long_worker ∷ courier ∷ []) }
    ensures first { run most opened (Arrives (message 10) ∷ Takes ∷ Puts 0 (made 10) ∷ Releases 0 ∷ []) ≡ first_chapter }
    ensures second { run most (from (start_after first_chapter)) (Arrives (message 11) ∷ Takes ∷ []) ≡ open_chapter }
    ensures anew { agrees (first_chapter ∷ open_chapter ∷ []) 0 counting_anew ≡ false }
    ensures denying { agrees (first_chapter ∷ open_chapter ∷ []) 0 denying ≡ false }
    ensures exchanged { GoOn (open_chapter ∷ first_chapter ∷ []) → ⊥ }
    ensures left_out { nat_le (first_of (open_chapter ∷ [])) 0 ≡ false }
    ensures twice { GoOn (first_chapter ∷ first_chapter ∷ open_chapter ∷ []) → ⊥ }
{}

/// When there is nothing to be given out for a receiver: not from the time when its next translation is kept until that is given out.
pub fn owed_rows()
    ensures worked { map (gives_none worked.entries 0) (range_with_len 0 8) ≡ true ∷ true ∷ true ∷ true ∷ true ∷ true ∷ false ∷ false ∷ [] }
    ensures swapped { map (gives_none swapped.entries 0) (range_with_len 0 6) ≡ true ∷ true ∷ true ∷ true ∷ false ∷ true ∷ [] }
    ensures elsewhere { map (gives_none worked.entries 1) (range_with_len 0 7) ≡ replicate 7 true }
{}

/// The receiver's desk that the program has for it, one entry after the other.
pub fn owed_walks()
    ensures worked { desk_by worked.entries 0 ≡ owing (0 ∷ 1 ∷ []) 0 (Some (made 10) ∷ Some (made 11) ∷ []) }
    ensures swapped { desk_by swapped.entries 0 ≡ owing (0 ∷ []) 1 [] }
    ensures elsewhere { desk_by worked.entries 1 ≡ nothing_due }
    ensures unasked { after_entry (WasKept 4 (made 10)) 0 (owing (3 ∷ []) 0 (None ∷ [])) ≡ owing (3 ∷ []) 0 (None ∷ []) }
{}

/// Where notes are settled, and one pass alone has receipts of what was given out for a receiver, it has them of all that was given out since, in order.
#[tactic(auto, using(crate::proofs::Giving::one_courier))]
pub fn what_one_courier_gave()
    ensures { (js : List Journal) (since r : ℕ) (before after : List (List NoteSeen)) (notes : List NoteSeen)
        → Settled js since (before ++ notes ∷ after) → NoneGiven r before → NoneGiven r after
        → are_same (given_out notes r) (released (drop (since - first_of js) (all_entries js)) r) ≡ true }
{}
