//! Laws on the definitions.
ghost use Rattle.std.specs.Prelude.{◌≡◌, ℕ, List, Ok, Err, [], codes};
ghost use Rattle.gw_er7.specs.Message.{SegmentValue};
ghost use Rattle.gw_plan.specs.declared.fault.PlanFault.TheVariants as fault;
ghost use Rattle.gw_plan.specs.Held.{plan_value};
ghost use Rattle.gw_plan.specs.Routing.{routed_by};
ghost use Rattle.gw_plan.specs.Shapes.{PlanValue};
ghost use Rattle.gw_plan.specs.Translating.{AtMostOne, MakesFor};
ghost use Rattle.gw_plan.specs.Whole.{spelled};
ghost use Rattle.gw_plan.specs.Worked as worked;

use crate::plan::Plan;

/// Two plans of the same text are equal: what they make of messages is a function of the text.
pub fn one_text_is_one_plan(one: &Plan, other: &Plan)
    ensures { one.now.text ≡ other.now.text → plan_value one.now ≡ plan_value other.now }
{
    // Called for its clause: what the type keeps.
    let _ = &one.text;
    let _ = &other.text;
}

/// One plan makes at most one message of a message for a receiver.
pub fn one_translation()
    ensures { (plan : PlanValue) (m : List SegmentValue) (receiver : ℕ) → AtMostOne (MakesFor plan m receiver) }
{}

/// The route of a message, or the code of the first test that fails: type, event and senders, version, processing id.
pub fn rows_of_routes()
    ensures route { routed_by worked.worked (codes "ADT") (codes "A01") worked.no_header (codes "2.5.1") (codes "P") ≡ Ok worked.admission }
    ensures no_event { routed_by worked.worked (codes "ORU") [] worked.no_header (codes "2.5.1") (codes "P") ≡ Ok worked.report }
    ensures code { routed_by worked.worked (codes "ACK") (codes "A01") worked.no_header (codes "2.3") (codes "D") ≡ Err 200 }
    ensures event { routed_by worked.worked (codes "ADT") (codes "A99") worked.no_header (codes "2.3") (codes "D") ≡ Err 201 }
    ensures version { routed_by worked.worked (codes "ADT") (codes "A01") worked.no_header (codes "2.3") (codes "D") ≡ Err 203 }
    ensures processing { routed_by worked.worked (codes "ADT") (codes "A01") worked.no_header (codes "2.5.1") (codes "D") ≡ Err 202 }
    ensures applications { worked.report_from worked.told_apart (codes "LAB2") (codes "NORTH") ≡ Ok worked.of_applications }
    ensures facility { worked.report_from worked.told_apart (codes "LAB9") (codes "NORTH") ≡ Ok worked.of_facility }
    ensures no_sender { worked.report_from worked.told_apart (codes "LAB9") (codes "SOUTH") ≡ Err 201 }
    ensures others { worked.report_from worked.with_others (codes "LAB9") (codes "SOUTH") ≡ Ok worked.of_others }
    ensures any { routed_by worked.open_worked (codes "ADT") (codes "A01") worked.no_header (codes "2.3") (codes "D") ≡ Ok worked.admission }
{}

/// Worked examples: what texts spell, and their faults by line.
pub fn rows_of_texts()
    ensures empty { spelled [] ≡ Err (fault.Syntax 1) }
    ensures again { spelled worked.second_receiver ≡ Err (fault.Duplicate 3) }
    ensures stray { spelled worked.stray_leg ≡ Err (fault.Syntax 3) }
    ensures unknown { spelled worked.unknown_profile ≡ Err (fault.UnknownName 2) }
    ensures narrow { spelled worked.of_senders ≡ Err (fault.Syntax 2) }
    ensures wide { spelled worked.wide_senders ≡ Err (fault.UnknownName 3) }
    ensures twice { spelled worked.twice_said ≡ Err (fault.Duplicate 3) }
    ensures field { spelled worked.other_field ≡ Err (fault.Syntax 3) }
    ensures wordless { spelled worked.no_sender ≡ Err (fault.Syntax 3) }
    ensures late { spelled worked.late_language ≡ Err (fault.Syntax 3) }
    ensures language { spelled worked.other_language ≡ Err (fault.Syntax 2) }
    ensures again_wide { spelled worked.twice_wide ≡ Err (fault.Syntax 3) }
    ensures hollow { spelled worked.empty_profile ≡ Err (fault.Profile 3 2) }
    ensures broken { spelled worked.broken_profile ≡ Err (fault.Syntax 4) }
    ensures refused { spelled worked.refused_profile ≡ Err (fault.Profile 4 2) }
    ensures headless { spelled worked.headless_profile ≡ Err (fault.Profile 2 8) }
    ensures unstopped { spelled worked.unstopped_profile ≡ Err (fault.Syntax 4) }
    ensures stray_map { spelled worked.stray_map ≡ Err (fault.UnknownName 3) }
{}
