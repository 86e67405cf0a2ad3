//! How many receipts there are for each number of an entry.
ghost use Rattle.std.specs.Prelude.{◌≡◌, ◌==◌, ◌∷◌, [], length};
ghost use Rattle.std.specs.List.{list_all};
ghost use Rattle.gw_gate.specs.Journal.{EntrySeen};
ghost use Rattle.std.specs.Option.{option_to_list};
ghost use Rattle.gw_crew.specs.Notes.{receipt_of};
ghost use Rattle.gw_crew.specs.Seen.{note_seen, notes_seen};
ghost use Rattle.gw_audit.specs.own.Joins.{MarksMore};
ghost use Rattle.gw_run.specs.Passes.{receipts};

use gw_crew::Note;

// One receipt more has this number.
fn mark_at(marks: &mut Vec<u8>, since: usize, at: usize)
    ensures marks { (e : EntrySeen) → MarksMore since (record { at = at; entry = e } ∷ []) marks.old.items marks.new.items }
    ensures len { length marks.new.items ≡ length marks.old.items }
{
    if at < since {
        return;
    }
    let place = at - since;
    if place < marks.len() && marks[place] < 2 {
        marks[place] += 1;
    }
}

// The receipt that a note is, if it is one.
fn mark_note(marks: &mut Vec<u8>, since: usize, note: &Note)
    ensures marks { MarksMore since (option_to_list (receipt_of (note_seen note.now))) marks.old.items marks.new.items }
    ensures len { length marks.new.items ≡ length marks.old.items }
{
    if let Note::Added(receipt) = note {
        mark_at(marks, since, receipt.at);
    }
}

// The receipts among notes.
pub(crate) fn mark_notes(marks: &mut Vec<u8>, since: usize, notes: &[Note])
    ensures marks { MarksMore since (receipts (notes_seen notes.now)) marks.old.items marks.new.items }
    ensures len { length marks.new.items ≡ length marks.old.items }
{
    for note in notes {
        mark_note(marks, since, note);
    }
}

// Whether each number is that of just one receipt.
pub(crate) fn are_all_marked(marks: &[u8]) -> bool
    ensures { result ≡ list_all (λ m. m == 1) marks.now }
{
    marks.iter().all(|mark| *mark == 1)
}
