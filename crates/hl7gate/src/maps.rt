//! The commands on maps.
ghost use Rattle.std.specs.Prelude.{◌≡◌, IfOk};
ghost use Rattle.std.specs.Arc.{arc_value};
ghost use Rattle.gw_profile.specs.Seen.{profile_value};

use crate::ended::Ended;
use crate::files::{read_all, read_text};
use crate::report::{DONE, REFUSED, write_all};
use clap::ArgMatches;
use gw_check::CheckedMap;
use gw_diagnostics::{
    Judged, ProfilePair, Refusal, Written, judge, print_hints, refused_map, refused_profile,
};
use gw_er7::Message;
use gw_maplang::Map;
use gw_profile::Profile;
use gw_stream::RunFault;
use gw_validate::{Tree, Verdict};
use std::alloc::Global;
use std::io::{BufWriter, Read, Write};
use std::rt::Files;
use std::sync::Arc;

/// The profile of a file's text.
pub(crate) fn parse_profile<'a>(
    alloc: Global,
    path: &'a str,
    text: &[u8],
) -> Result<Arc<Profile>, Ended<'a>> {
    match gw_profile::parse(alloc, text) {
        Ok(profile) => Ok(Arc::new(alloc, profile)?),
        Err(fault) => {
            let said = refused_profile(alloc, path, text, fault)?;
            Err(Ended::Refused { said })
        }
    }
}

/// The profile in the file that a word names.
pub(crate) fn read_profile<'a, R: Files + AllocGlobal>(
    rt: &R,
    words: &ArgMatches<'a>,
    word: &str,
) -> Result<Arc<Profile>, Ended<'a>> {
    let path = words.get_str(word).unwrap_or("");
    let text = read_text(rt, path)?;
    parse_profile(rt.alloc(), path, &text)
}

/// The profiles of the files SOURCE and TARGET, in this order.
pub(crate) fn read_sides<'a, R: Files + AllocGlobal>(
    rt: &R,
    words: &ArgMatches<'a>,
) -> Result<ProfilePair, Ended<'a>> {
    let source = read_profile(rt, words, "SOURCE")?;
    let target = read_profile(rt, words, "TARGET")?;
    Ok(ProfilePair { source, target })
}

/// The text of the file that a word names.
pub(crate) fn read_written<'a, R: Files + AllocGlobal>(
    rt: &R,
    words: &ArgMatches<'a>,
    word: &str,
) -> Result<Written<'a>, Ended<'a>> {
    let path = words.get_str(word).unwrap_or("");
    let text = read_text(rt, path)?;
    Ok(Written {
        path,
        text,
        above: 0,
    })
}

/// The map of a file's text.
pub(crate) fn parse_map<'a>(alloc: Global, written: &Written<'a>) -> Result<Map, Ended<'a>> {
    match gw_maplang::parse(alloc, &written.text) {
        Ok(map) => Ok(map),
        Err(fault) => {
            let said = refused_map(alloc, written.path, &written.text, fault)?;
            Err(Ended::Refused { said })
        }
    }
}

/// The map of a text, by the rules.
pub(crate) fn judged<'a>(
    alloc: Global,
    sides: &ProfilePair,
    written: &Written<'a>,
) -> Result<Judged, Ended<'a>> {
    let map = parse_map(alloc, written)?;
    let judged = judge(alloc, sides, map)?;
    Ok(judged)
}

/// Prints the rule that refuses a map, and answers the status. What a person needs to mend it goes to `errors`; without `output`, so does the rule.
pub(crate) fn write_refusal<'a, O: Write, E: Write>(
    alloc: Global,
    refusal: Refusal<'_>,
    output: Option<&mut O>,
    errors: &mut E,
) -> Result<u8, Ended<'a>> {
    let failures = refusal.in_order(alloc)?;
    // (a refusal may be a megabyte in small pieces)
    let Ok(mut errors) = BufWriter::new(alloc, errors) else {
        return Err(Ended::Run(RunFault::Memory));
    };
    let (rule, line) = refusal.rule();
    let said = format!(in alloc; "refused K{rule} line {line}\n")?;
    match output {
        Some(output) => write_all(output, said.as_bytes())?,
        None => drop(errors.write_all(said.as_bytes())),
    }
    refusal.tell(alloc, &mut errors, &failures);
    Ok(REFUSED)
}

// Prints that the rules allow a map, and answers the status.
pub(crate) fn write_accepted<'a, O: Write>(output: &mut O) -> Result<u8, Ended<'a>> {
    write_all(output, b"accepted\n")?;
    Ok(DONE)
}

/// Prints whether the rules allow a map, and else the rule that refuses it; what a person needs to mend it goes to `errors`. Answers the status.
/// The files SOURCE, TARGET and MAP are each read and parsed before the next.
pub(crate) fn check<'a, R: Files + AllocGlobal, O: Write, E: Write>(
    rt: &R,
    words: &ArgMatches<'a>,
    output: &mut O,
    errors: &mut E,
) -> Result<u8, Ended<'a>> {
    let alloc = rt.alloc();
    let sides = read_sides(rt, words)?;
    let written = read_written(rt, words, "MAP")?;
    match &judged(alloc, &sides, &written)? {
        Judged::Allowed(map) => {
            if words.get_flag("hints") {
                print_hints(alloc, &written, map, errors)?;
            }
            write_accepted(output)
        }
        Judged::Refused(refused) => {
            let refusal = Refusal {
                sides: &sides,
                written: &written,
                refused,
            };
            write_refusal(alloc, refusal, Some(output), errors)
        }
    }
}

/// The tree of message bytes that conform to a profile.
fn tree_of<'a, R: AllocGlobal>(
    rt: &R,
    profile: &Arc<Profile>,
    content: &[u8],
) -> Result<Tree, Ended<'a>>
    ensures { IfOk result (λ tree. profile_value tree.profile ≡ profile_value (arc_value profile.now)) }
{
    let message = match gw_er7::read(rt.alloc(), content) {
        Ok(message) => message,
        Err(fault) => return Err(Ended::Message { fault }),
    };
    match gw_validate::validate(rt.alloc(), profile.clone()?, message) {
        Ok(Verdict::Fits(tree)) => Ok(tree),
        Ok(Verdict::Breaks(breach, _)) => Err(Ended::Breaks(breach)),
        Err(_) => Err(Ended::Run(RunFault::Memory)),
    }
}

/// Writes a message without a frame.
pub(crate) fn write_message<'a, O: Write>(
    alloc: Global,
    message: &Message,
    output: &mut O,
) -> Result<(), Ended<'a>> {
    let written = gw_er7::write(alloc, message)?;
    write_all(output, &written)?;
    Ok(())
}

/// Writes the translation of the unframed message on standard input, and returns the status.
fn write_translation<'a, R: AllocGlobal, I: Read, O: Write>(
    rt: &R,
    map: &CheckedMap,
    input: &mut I,
    output: &mut O,
) -> Result<u8, Ended<'a>> {
    let content = read_all(rt, input)?;
    let tree = tree_of(rt, map.source(), &content)?;
    let message = gw_interp::translate(rt.alloc(), map, &tree)?;
    write_message(rt.alloc(), &message, output)?;
    Ok(DONE)
}

/// Prints the translation of the message on standard input. A refused map is reported before standard input is read. Returns the status.
/// The files SOURCE, TARGET and MAP are each read and parsed before the next.
pub(crate) fn translate<'a, R: Files + AllocGlobal, I: Read, O: Write, E: Write>(
    rt: &R,
    words: &ArgMatches<'a>,
    input: &mut I,
    output: &mut O,
    errors: &mut E,
) -> Result<u8, Ended<'a>> {
    let sides = read_sides(rt, words)?;
    let written = read_written(rt, words, "MAP")?;
    match &judged(rt.alloc(), &sides, &written)? {
        Judged::Allowed(map) => write_translation(rt, map, input, output),
        Judged::Refused(refused) => {
            let refusal = Refusal {
                sides: &sides,
                written: &written,
                refused,
            };
            write_refusal(rt.alloc(), refusal, None::<&mut Vec<u8>>, errors)
        }
    }
}
