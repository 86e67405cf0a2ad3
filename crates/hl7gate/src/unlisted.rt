//! What messages have that a profile doesn't list: `report --unlisted`.
//!
//! A place is listed where a segment of its name is listed with it, wherever that stands in the profile. What lies below a field or a component that lists nothing
//! below it counts as listed with it.
use gw_er7::{Message, Segment, Value, read_block};
use gw_profile::{FieldShape, Node, Profile};
use std::alloc::{AllocError, Global};
use std::collections::BTreeMap;
use std::io;
use std::io::Write;
use std::sync::Arc;

/// How many places are counted, and how many are printed.
const COUNTED: usize = 65_536;

const PRINTED: usize = 1_000;

/// The letters of a segment's name, the field, the component, the subcomponent; 0 where all of it is meant.
type Spot = [usize; 6];

/// In how many messages a place was seen, and the last of them.
#[derive(Clone, Copy)]
struct Seen {
    messages: u64,
    last: u64,
}

/// The places that a profile lists, and what messages had beside them.
#[derive(Drop)]
pub(crate) struct Unlisted {
    profile: Arc<Profile>,
    // whether something below the place is listed
    listed: BTreeMap<Spot, bool>,
    found: BTreeMap<Spot, Seen>,
    // the first value of each, where values are shown
    values: BTreeMap<Spot, Vec<u8>>,
    has_values: bool,
    messages: u64,
}

/// A place below a segment.
fn spot(name: [u8; 3], field: usize, comp: usize, sub: usize) -> Spot {
    let [first, second, third] = name;
    [
        usize::from(first),
        usize::from(second),
        usize::from(third),
        field,
        comp,
        sub,
    ]
}

/// Lists a place. `has_parts`: something below it is listed.
fn list(listed: &mut BTreeMap<Spot, bool>, at: Spot, has_parts: bool) -> Result<(), AllocError> {
    let before = listed.get(&at).copied().unwrap_or(false);
    listed.insert(at, before || has_parts)?;
    Ok(())
}

/// Lists a field, and what is listed below it.
fn list_field(
    listed: &mut BTreeMap<Spot, bool>,
    name: [u8; 3],
    shape: &FieldShape,
) -> Result<(), AllocError> {
    let field = shape.number as usize;
    list(listed, spot(name, field, 0, 0), !shape.comps.is_empty())?;
    for part in &shape.comps {
        let comp = part.number as usize;
        list(listed, spot(name, field, comp, 0), !part.subs.is_empty())?;
        for sub in &part.subs {
            list(listed, spot(name, field, comp, sub.number as usize), false)?;
        }
    }
    Ok(())
}

/// The places that a profile lists.
fn listed_by(alloc: Global, profile: &Profile) -> Result<BTreeMap<Spot, bool>, AllocError> {
    let mut listed = BTreeMap::new(alloc);
    let mut levels = Vec::new(alloc);
    levels.push(profile.nodes())?;
    for _ in 0..u64::MAX {
        let Some(level) = levels.pop() else {
            break;
        };
        for node in level {
            match node {
                Node::Seg(segment) => {
                    for field in &segment.fields {
                        list_field(&mut listed, segment.name, field)?;
                    }
                }
                Node::Group(group) => levels.push(&group.nodes)?,
            }
        }
    }
    Ok(listed)
}

impl Unlisted {
    /// Before any message. `has_values`: the first value of each place is shown.
    pub(crate) fn new(
        alloc: Global,
        profile: Arc<Profile>,
        has_values: bool,
    ) -> Result<Self, AllocError> {
        Ok(Unlisted {
            listed: listed_by(alloc, &profile)?,
            profile,
            found: BTreeMap::new(alloc),
            values: BTreeMap::new(alloc),
            has_values,
            messages: 0,
        })
    }

    // The place that has this one and isn't listed, if one is not.
    fn spot_of(&self, name: [u8; 3], value: Value<'_>) -> Option<Spot> {
        let place = value.place;
        let parts = [
            spot(name, place.field, 0, 0),
            spot(name, place.field, place.comp, 0),
            spot(name, place.field, place.comp, place.sub),
        ];
        for part in parts {
            match self.listed.get(&part) {
                None => return Some(part),
                Some(false) => return None,
                Some(true) => {}
            }
        }
        None
    }

    // A message has this place.
    fn count(&mut self, alloc: Global, at: Spot, text: &[u8]) -> Result<(), AllocError> {
        let message = self.messages;
        if let Some(seen) = self.found.get(&at).copied() {
            if seen.last < message {
                let messages = seen.messages.saturating_add(1);
                self.found.insert(
                    at,
                    Seen {
                        messages,
                        last: message,
                    },
                )?;
            }
            return Ok(());
        }
        if self.found.len() >= COUNTED {
            return Ok(());
        }
        if self.has_values {
            self.values.insert(at, Vec::from_slice(alloc, text)?)?;
        }
        self.found.insert(
            at,
            Seen {
                messages: 1,
                last: message,
            },
        )?;
        Ok(())
    }

    // Counts what a segment has that isn't listed.
    fn add_segment(&mut self, alloc: Global, segment: &Segment<'_>) -> Result<(), AllocError> {
        let name = segment.name();
        if !self.profile.knows(name) {
            return self.count(alloc, spot(name, 0, 0, 0), b"");
        }
        for number in 0..segment.value_count() {
            let Some(value) = segment.get_value(number) else {
                break;
            };
            // (MSH-1 and MSH-2 are delimiters)
            if name == *b"MSH" && value.place.field <= 2 {
                continue;
            }
            if let Some(at) = self.spot_of(name, value) {
                self.count(alloc, at, value.text)?;
            }
        }
        Ok(())
    }

    fn add_message(&mut self, alloc: Global, message: &Message) -> Result<(), AllocError> {
        self.messages = self.messages.saturating_add(1);
        for number in 0..message.segment_count() {
            self.add_segment(alloc, &message.segment(number))?;
        }
        Ok(())
    }

    /// Counts what a message has that isn't listed. What can't be read is passed over.
    pub(crate) fn add(&mut self, alloc: Global, content: &[u8]) -> Result<(), AllocError> {
        if let Ok(message) = read_block(Vec::from_slice(alloc, content)?) {
            return self.add_message(alloc, &message);
        }
        Ok(())
    }

    /// A line for each place, the most frequent first.
    pub(crate) fn end(&self, alloc: Global, is_json: bool) -> Result<Vec<u8>, AllocError> {
        let mut order = Vec::new(alloc);
        for (at, seen) in self.found.iter() {
            order.push((u64::MAX - seen.messages, *at))?;
        }
        order.sort_unstable();
        let mut out = Vec::new(alloc);
        for (rest, at) in order.iter().take(PRINTED) {
            let line = Line {
                at: *at,
                messages: u64::MAX - rest,
                of: self.messages,
                value: match self.values.get(at) {
                    Some(value) => value,
                    None => b"",
                },
            };
            let written = if is_json {
                line.write_json(&mut out)
            } else {
                line.write(&mut out)
            };
            if written.is_err() {
                return Err(AllocError);
            }
        }
        if order.len() > PRINTED
            && !is_json
            && writeln!(out, "unlisted: {} places more", order.len() - PRINTED).is_err()
        {
            return Err(AllocError);
        }
        Ok(out)
    }
}

/// A place that isn't listed, as it is printed.
#[derive(Clone, Copy)]
struct Line<'a> {
    at: Spot,
    messages: u64,
    of: u64,
    value: &'a [u8],
}

/// The letter of a number.
fn letter(number: usize) -> u8 {
    u8::try_from(number).unwrap_or(b'?')
}

/// A text as its printable characters; each other byte, and each quote and backslash, as `\u00` and two digits. So JSON can have it too.
fn write_text(out: &mut Vec<u8>, text: &[u8]) -> io::Result<()> {
    for byte in text {
        match *byte {
            b'"' | b'\\' => write!(out, "\\u00{byte:02x}")?,
            b' '..=b'~' => write!(out, "{}", char::from(*byte))?,
            _ => write!(out, "\\u00{byte:02x}")?,
        }
    }
    Ok(())
}

impl Line<'_> {
    // As `PID-5.7`.
    fn write_place(&self, out: &mut Vec<u8>) -> io::Result<()> {
        let [first, second, third, field, comp, sub] = self.at;
        let name = [letter(first), letter(second), letter(third)];
        write!(out, "{}", name.escape_ascii())?;
        if field > 0 {
            write!(out, "-{field}")?;
        }
        if comp > 0 {
            write!(out, ".{comp}")?;
        }
        if sub > 0 {
            write!(out, ".{sub}")?;
        }
        Ok(())
    }

    fn write(&self, out: &mut Vec<u8>) -> io::Result<()> {
        write!(out, "unlisted ")?;
        self.write_place(out)?;
        write!(out, ": in {} of {} messages", self.messages, self.of)?;
        if !self.value.is_empty() {
            write!(out, ": ")?;
            write_text(out, self.value)?;
        }
        writeln!(out)
    }

    fn write_json(&self, out: &mut Vec<u8>) -> io::Result<()> {
        write!(out, "{{\"unlisted\":\"")?;
        self.write_place(out)?;
        let Line { messages, of, .. } = self;
        write!(out, "\",\"messages\":{messages},\"of\":{of}")?;
        if !self.value.is_empty() {
            write!(out, ",\"value\":\"")?;
            write_text(out, self.value)?;
            write!(out, "\"")?;
        }
        writeln!(out, "}}")
    }
}
