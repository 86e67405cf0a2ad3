//! What a gate asks of plans, messages and translations.
ghost use Rattle.std.specs.Prelude.{◌≡◌, ◌<◌, length, nat_eq, slice_get, Some, bytes_eq};
ghost use Rattle.std.specs.List.{IsDistinct};
ghost use Rattle.gw_gate.specs.Parts.{is_under, same_receivers, same_source, same_translated};
ghost use Rattle.gw_gate.specs.Seen.{plan_seen, conforming_seen, translated_seen};
ghost use Rattle.gw_gate.specs.Headline.{IsTranslated};
ghost use Rattle.gw_gate.specs.Meaning.{Admits, Makes};

use gw_plan::{Conforming, Plan, Translated};

/// Whether the message was admitted under this version, and by a plan of the same text. It takes no memory.
pub fn is_under(conforming: &Conforming, version: u64, plan: &Plan) -> bool
    ensures { result ≡ is_under (conforming_seen conforming.now) version (plan_seen plan.now) }
{
    conforming.under(version, plan)
}

// Whether the plans have the same lines of receivers.
pub(crate) fn are_alike(plan: &Plan, other: &Plan) -> bool
    ensures { result ≡ same_receivers (plan_seen plan.now) (plan_seen other.now) }
{
    plan.same_receivers(other)
}

// Whether the plans have the same text.
pub(crate) fn have_same_text(plan: &Plan, other: &Plan) -> bool
    ensures { result ≡ bytes_eq (plan_seen plan.now).text (plan_seen other.now).text }
{
    plan.text() == other.text()
}

// Whether message, version and the plan's text are equal.
pub(crate) fn are_same(conforming: &Conforming, other: &Conforming) -> bool
    ensures { result ≡ same_source (conforming_seen conforming.now) (conforming_seen other.now) }
{
    conforming.same(other)
}

// Whether source, receiver and message are equal.
pub(crate) fn are_same_translated(translated: &Translated, other: &Translated) -> bool
    ensures { result ≡ same_translated (translated_seen translated.now) (translated_seen other.now) }
{
    translated.same(other)
}

// Whether the translation is of this message, under the same version and plan.
pub(crate) fn is_of(translated: &Translated, conforming: &Conforming) -> bool
    ensures { result ≡ same_source (translated_seen translated.now).source (conforming_seen conforming.now) }
{
    translated.same_source(conforming)
}

/// How many receivers the message's route has. It takes no memory.
pub fn receiver_count(conforming: &Conforming) -> usize
    ensures { result ≡ length (conforming_seen conforming.now).receivers }
{
    conforming.route().len()
}

/// The receiver at this place of the message's route, from 0. It takes no memory.
pub fn receiver_at(conforming: &Conforming, place: usize) -> usize
    requires { place < length (conforming_seen conforming.now).receivers }
    ensures { slice_get (conforming_seen conforming.now).receivers place ≡ Some result }
{
    conforming.route().receiver(place)
}

// The clause says that the message's route goes to each of its receivers once, by its type.
pub(crate) fn goes_once(conforming: &Conforming)
    ensures { IsDistinct nat_eq (conforming_seen conforming.now).receivers }
{
    let _ = conforming.route();
}

// The clause says that an admitted message has a route by its plan, and conforms to the route's profile, by its type.
pub(crate) fn admitted_by_plan(conforming: &Conforming)
    ensures { Admits (conforming_seen conforming.now) }
{
    let _ = conforming.route();
}

// The clause says that a translation is what its source's plan makes of it, by its type.
pub(crate) fn made_by_plan(translated: &Translated)
    ensures { IsTranslated Makes (translated_seen translated.now) }
{
    let _ = translated.message();
}
