//! The line patterns of a plan.
ghost use Rattle.std.specs.Prelude.{◌≡◌, map, IfOk};
ghost use Rattle.std.specs.Option.{option_map};
ghost use Rattle.gw_lines.specs.Seen.{word};
ghost use Rattle.gw_plan.specs.Line as spec;
ghost use Rattle.gw_plan.specs.Index.{said};
ghost use Rattle.gw_plan.specs.Seen.{line, now_all};

use crate::senders::{HeaderField, SaidSenders};
use gw_lines::{Word, behind, first_word, name_at};
use std::alloc::{AllocError, Global};

/// The kind of text between `begin` and `stop`.
#[derive(Drop)]
pub(crate) enum Kind {
    Profile,
    Map,
}

/// A line that opens a route. The empty event means that the message has no event; no senders mean all.
#[derive(Drop)]
pub(crate) struct RouteLine<'a> {
    pub(crate) code: &'a [u8],
    pub(crate) event: &'a [u8],
    pub(crate) senders: Option<SaidSenders<'a>>,
    pub(crate) profile: &'a [u8],
}

/// A line of the plan's own.
#[derive(Drop)]
pub(crate) enum Line<'a> {
    Begins(&'a [u8]),
    Widens,
    Receives(&'a [u8], &'a [u8]),
    Versions(Vec<&'a [u8]>),
    Processing(Vec<&'a [u8]>),
    Opens(Kind),
    Routes(RouteLine<'a>),
    Delivers(&'a [u8], &'a [u8]),
}

fn plain_at<'a, 'w>(words: &'w [Word<'a>]) -> Option<(&'a [u8], &'w [Word<'a>])>
    ensures { option_map (λ w. (w.0.now, map word w.1.now)) result ≡ spec.plain_at (map word words.now) }
{
    let (first, more) = first_word(words)?;
    let bytes = first.plain()?;
    Some((bytes, more))
}

// The bytes of these words, if none is quoted.
fn plain_words<'a>(alloc: Global, words: &[Word<'a>]) -> Result<Option<Vec<&'a [u8]>>, AllocError>
    ensures { IfOk result (λ found. option_map (λ v. now_all v.items) found ≡ spec.plain_words (map word words.now)) }
{
    let mut all = Vec::new(alloc);
    for next in words {
        let Some(bytes) = next.plain() else {
            return Ok(None);
        };
        all.push(bytes)?;
    }
    Ok(Some(all))
}

fn some_words<'a>(alloc: Global, words: &[Word<'a>]) -> Result<Option<Vec<&'a [u8]>>, AllocError>
    ensures { IfOk result (λ found. option_map (λ v. now_all v.items) found ≡ spec.some_words (map word words.now)) }
{
    if words.is_empty() {
        return Ok(None);
    }
    plain_words(alloc, words)
}

// The event that a word means: `-` means that the message has none.
fn event_of(bytes: &[u8]) -> &[u8]
    ensures { result.now ≡ spec.event_of bytes.now }
{
    if bytes == b"-".as_slice() { &[] } else { bytes }
}

fn plan_form<'a>(words: &[Word<'a>]) -> Option<Line<'a>>
    ensures { option_map line result ≡ spec.plan_form (map word words.now) }
{
    let (name, more) = name_at(words)?;
    if more.is_empty() {
        Some(Line::Begins(name))
    } else {
        None
    }
}

fn language_form<'a>(words: &[Word<'a>]) -> Option<Line<'a>>
    ensures { option_map line result ≡ spec.language_form (map word words.now) }
{
    let more = behind(b"2", words)?;
    if more.is_empty() {
        Some(Line::Widens)
    } else {
        None
    }
}

fn receiver_form<'a>(words: &[Word<'a>]) -> Option<Line<'a>>
    ensures { option_map line result ≡ spec.receiver_form (map word words.now) }
{
    let (name, more) = name_at(words)?;
    let (address, more) = plain_at(more)?;
    if more.is_empty() {
        Some(Line::Receives(name, address))
    } else {
        None
    }
}

fn accept_form<'a>(alloc: Global, words: &[Word<'a>]) -> Result<Option<Line<'a>>, AllocError>
    ensures { IfOk result (λ found. option_map line found ≡ spec.accept_form (map word words.now)) }
{
    let Some((kind, more)) = first_word(words) else {
        return Ok(None);
    };
    if kind.is(b"version") {
        return Ok(some_words(alloc, more)?.map(Line::Versions));
    }
    if kind.is(b"processing") {
        return Ok(some_words(alloc, more)?.map(Line::Processing));
    }
    Ok(None)
}

fn begin_form<'a>(words: &[Word<'a>]) -> Option<Line<'a>>
    ensures { option_map line result ≡ spec.begin_form (map word words.now) }
{
    let (kind, more) = first_word(words)?;
    if !more.is_empty() {
        return None;
    }
    if kind.is(b"profile") {
        return Some(Line::Opens(Kind::Profile));
    }
    if kind.is(b"map") {
        return Some(Line::Opens(Kind::Map));
    }
    None
}

// The name after `from`, if nothing follows it.
fn source_at<'a>(words: &[Word<'a>]) -> Option<&'a [u8]>
    ensures { option_map (λ name. name.now) result ≡ spec.source_at (map word words.now) }
{
    let more = behind(b"from", words)?;
    let (name, more) = name_at(more)?;
    if more.is_empty() { Some(name) } else { None }
}

// The field that a word names, of those that tell messages of one code and event from each other.
fn header_field(name: Word<'_>) -> Option<HeaderField>
    ensures { result ≡ spec.header_field (word name.entry) }
{
    if name.is(b"MSH-3") {
        return Some(HeaderField::SendingApplication);
    }
    if name.is(b"MSH-4") {
        return Some(HeaderField::SendingFacility);
    }
    if name.is(b"MSH-5") {
        return Some(HeaderField::ReceivingApplication);
    }
    if name.is(b"MSH-6") {
        return Some(HeaderField::ReceivingFacility);
    }
    if name.is(b"MSH-21") {
        return Some(HeaderField::MessageProfile);
    }
    None
}

// The words before the word `from`, and those from it on.
fn cut_at_from<'a, 'w>(words: &'w [Word<'a>]) -> Option<(&'w [Word<'a>], &'w [Word<'a>])>
    ensures { option_map (λ c. (map word c.0.now, map word c.1.now)) result ≡ spec.cut_at_from (map word words.now) }
{
    for (i, next) in words.iter().enumerate() {
        if next.is(b"from") {
            return Some((&words[..i], &words[i..]));
        }
    }
    None
}

// MSH-n WORD ..., up to the word `from`
fn senders_at<'a, 'w>(
    alloc: Global,
    words: &'w [Word<'a>],
) -> Result<Option<(SaidSenders<'a>, &'w [Word<'a>])>, AllocError>
    ensures { IfOk result (λ found. option_map (λ s. (said s.0, map word s.1.now)) found ≡ spec.senders_at (map word words.now)) }
{
    let Some((name, more)) = first_word(words) else {
        return Ok(None);
    };
    let Some(field) = header_field(name) else {
        return Ok(None);
    };
    let Some((front, rest)) = cut_at_from(more) else {
        return Ok(None);
    };
    let Some(words) = some_words(alloc, front)? else {
        return Ok(None);
    };
    Ok(Some((SaidSenders { field, words }, rest)))
}

// of MSH-n WORD ... from PROFILE, behind `of`
fn some_by<'a>(
    alloc: Global,
    code: &'a [u8],
    event: &'a [u8],
    words: &[Word<'a>],
) -> Result<Option<Line<'a>>, AllocError>
    ensures { IfOk result (λ found. option_map line found ≡ spec.routes_by code.now event.now (spec.some_by (map word words.now))) }
{
    let Some((senders, more)) = senders_at(alloc, words)? else {
        return Ok(None);
    };
    let Some(profile) = source_at(more) else {
        return Ok(None);
    };
    Ok(Some(Line::Routes(RouteLine {
        code,
        event,
        senders: Some(senders),
        profile,
    })))
}

// from PROFILE
fn all_by<'a>(code: &'a [u8], event: &'a [u8], words: &[Word<'a>]) -> Option<Line<'a>>
    ensures { option_map line result ≡ spec.routes_by code.now event.now (spec.all_by (map word words.now)) }
{
    let profile = source_at(words)?;
    Some(Line::Routes(RouteLine {
        code,
        event,
        senders: None,
        profile,
    }))
}

fn route_form<'a>(alloc: Global, words: &[Word<'a>]) -> Result<Option<Line<'a>>, AllocError>
    ensures { IfOk result (λ found. option_map line found ≡ spec.route_form (map word words.now)) }
{
    let Some((code, more)) = plain_at(words) else {
        return Ok(None);
    };
    let Some((event, more)) = plain_at(more) else {
        return Ok(None);
    };
    let event = event_of(event);
    match behind(b"of", more) {
        None => Ok(all_by(code, event, more)),
        Some(more) => some_by(alloc, code, event, more),
    }
}

fn to_form<'a>(words: &[Word<'a>]) -> Option<Line<'a>>
    ensures { option_map line result ≡ spec.to_form (map word words.now) }
{
    let (receiver, more) = name_at(words)?;
    let more = behind(b"by", more)?;
    let (by, more) = name_at(more)?;
    if more.is_empty() {
        Some(Line::Delivers(receiver, by))
    } else {
        None
    }
}

fn fixed_form<'a>(keyword: Word<'a>, more: &[Word<'a>]) -> Option<Line<'a>>
    ensures { option_map line result ≡ spec.fixed_form (word keyword.entry) (map word more.now) }
{
    if keyword.is(b"plan") {
        return plan_form(more);
    }
    if keyword.is(b"receiver") {
        return receiver_form(more);
    }
    if keyword.is(b"language") {
        return language_form(more);
    }
    if keyword.is(b"begin") {
        return begin_form(more);
    }
    if keyword.is(b"to") {
        return to_form(more);
    }
    None
}

/// The line that these words spell.
pub(crate) fn form<'a>(alloc: Global, words: &[Word<'a>]) -> Result<Option<Line<'a>>, AllocError>
    ensures { IfOk result (λ found. option_map line found ≡ spec.form (map word words.now)) }
{
    let Some((keyword, more)) = first_word(words) else {
        return Ok(None);
    };
    if keyword.is(b"accept") {
        return accept_form(alloc, more);
    }
    if keyword.is(b"route") {
        return route_form(alloc, more);
    }
    Ok(fixed_form(keyword, more))
}

/// Whether these words are the one word `stop`.
pub(crate) fn is_stop(words: &Option<Vec<Word<'_>>>) -> bool
    ensures { result ≡ spec.is_stop_line (option_map (λ v. map word v.items) words.now) }
{
    match words {
        None => false,
        Some(words) => match words.as_slice() {
            [only] => only.is(b"stop"),
            _ => false,
        },
    }
}
