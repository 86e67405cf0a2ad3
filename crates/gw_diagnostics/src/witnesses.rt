//! Samples of a source that show why a map is refused.
use crate::advice::{Refused, Written};
use crate::breaches::{Spot, spot_of, words_of};
use crate::judged::ProfilePair;
use crate::refusals::write_place;
use crate::runnable::{Runnable, make_runnable};
use crate::words::in_memory;
use gw_check::CheckedMap;
use gw_er7::Message;
use gw_profile::{Node, Profile, SegNode};
use gw_sample::{Extent, Texts, sample};
use gw_validate::{Breach, Tree, breaches};
use std::alloc::{AllocError, Global};
use std::collections::BTreeMap;
use std::io;
use std::io::Write;

/// How many values of each table are tried.
const VALUES: usize = 32;

/// Up to how many lengths of the target are all tried.
const LENGTHS: usize = 16;

/// How many bytes of samples are shown.
const SHOWN: usize = 1_000_000;

/// Which samples are tried with the first value of each table, and with long texts.
const EXTENTS: [Extent; 7] = [
    Extent::Least,
    Extent::Most,
    Extent::MostSegments,
    Extent::MostFields,
    Extent::LeastBeyond,
    Extent::MostBeyond,
    Extent::MostWithin,
];

/// Those that are tried with the other values: the others differ in what has no table.
const LISTED: [Extent; 3] = [Extent::Least, Extent::Most, Extent::MostFields];

/// What is said where a sample has no room.
const FURTHER: &[u8] =
    b"further samples aren't shown: with them it would be more than 1000000 bytes";

/// What is said of a source that has none.
const NO_SAMPLE: &[u8] = b"no sample can be made up: more has to come than a message has by ";

/// What is said of a target that no sample breaks.
const NO_BREACH: &[u8] = b"no sample that was tried has a translation that breaks ";

/// What is said where none is tried.
const NONE_TRIED: &[u8] =
    b"\nno sample is tried: lines that drop what the map passes over are added for that, and make it too large\n";

/// What was shown so far: the places of the target, and the text; whether there was a sample, and whether one had no room.
#[derive(Drop)]
struct Shown {
    spots: BTreeMap<Spot, u64>,
    out: Vec<u8>,
    has_tried: bool,
    is_cut: bool,
}

/// A message, a line for each segment.
fn write_lines(alloc: Global, out: &mut Vec<u8>, message: &Message) -> io::Result<()> {
    let Ok(text) = gw_er7::write(alloc, message) else {
        return Err(io::Error::from(io::ErrorKind::OutOfMemory));
    };
    let mut is_start = true;
    for byte in &text {
        if is_start {
            out.write_all(b"  ")?;
        }
        is_start = *byte == b'\r';
        let byte = if is_start { b'\n' } else { *byte };
        out.write_all(&[byte])?;
    }
    Ok(())
}

/// A sample, what the map makes of it, and how the target refuses that.
fn write_witness(
    alloc: Global,
    out: &mut Vec<u8>,
    tree: &Tree,
    made: &Message,
    target: &Profile,
    found: &[Breach],
) -> io::Result<()> {
    out.write_all(b"\na message that conforms to ")?;
    out.write_all(tree.profile().name())?;
    out.write_all(b":\n")?;
    write_lines(alloc, out, tree.message())?;
    out.write_all(b"what the map makes of it:\n")?;
    write_lines(alloc, out, made)?;
    out.write_all(b"how that breaks ")?;
    out.write_all(target.name())?;
    out.write_all(b":\n")?;
    for breach in found {
        let code = breach.code();
        write!(out, "  {code} ")?;
        write_place(out, *breach)?;
        writeln!(out, ": {}", words_of(breach.kind))?;
    }
    Ok(())
}

impl Shown {
    /// Of the breaches the first at each place that wasn't shown yet.
    fn news(&self, alloc: Global, found: &[(usize, Breach)]) -> Result<Vec<Breach>, AllocError> {
        let mut fresh: BTreeMap<Spot, u64> = BTreeMap::new(alloc);
        let mut news = Vec::new(alloc);
        for place in found {
            let (_, breach) = *place;
            let spot = spot_of(breach);
            if self.spots.get(&spot).is_none() && fresh.get(&spot).is_none() {
                fresh.insert(spot, 1)?;
                news.push(breach)?;
            }
        }
        Ok(news)
    }

    /// Adds a sample that shows these, where it has room.
    fn add(&mut self, text: &[u8], news: &[Breach]) -> Result<(), AllocError> {
        if self.out.len().saturating_add(text.len()) > SHOWN {
            self.is_cut = true;
            return Ok(());
        }
        for breach in news {
            self.spots.insert(spot_of(*breach), 1)?;
        }
        self.out.extend_from_slice(text)?;
        Ok(())
    }

    /// Tries a sample, where a message of the source isn't too large, and shows it where its translation breaks the target as none before did.
    fn attempt(
        &mut self,
        alloc: Global,
        map: &CheckedMap,
        target: &Profile,
        extent: Extent,
        texts: Texts,
    ) -> Result<(), AllocError> {
        let Some(tree) = sample(alloc, map.source(), extent, texts)? else {
            return Ok(());
        };
        self.has_tried = true;
        let made = gw_interp::translate(alloc, map, &tree)?;
        let found = breaches(alloc, target, &made)?;
        let news = self.news(alloc, &found)?;
        if news.is_empty() {
            return Ok(());
        }
        let mut text = Vec::new(alloc);
        if write_witness(alloc, &mut text, &tree, &made, target, &news).is_err() {
            return Err(AllocError);
        }
        self.add(&text, &news)?;
        Ok(())
    }

    /// Tries the samples of these extents, with these texts.
    fn attempt_each(
        &mut self,
        alloc: Global,
        map: &CheckedMap,
        target: &Profile,
        extents: &[Extent],
        texts: Texts,
    ) -> Result<(), AllocError> {
        for extent in extents {
            self.attempt(alloc, map, target, *extent, texts)?;
        }
        Ok(())
    }

    /// Tries long texts, which are too long by one for a leaf of the target; of many lengths the first, the second, the fourth and so on, and the last.
    fn attempt_lengths(
        &mut self,
        alloc: Global,
        map: &CheckedMap,
        target: &Profile,
    ) -> Result<(), AllocError> {
        let mut lengths = BTreeMap::new(alloc);
        add_all(&mut lengths, target.nodes())?;
        let count = lengths.len();
        let mut number: usize = 0;
        let mut next: usize = 1;
        for (len, _) in &lengths {
            number = number.saturating_add(1);
            if count <= LENGTHS || number == next || number == count {
                self.attempt_each(alloc, map, target, &EXTENTS, Texts::Longest(*len))?;
            }
            if number == next {
                next = next.saturating_mul(2);
            }
        }
        Ok(())
    }

    /// Tries all samples.
    fn attempt_all(
        &mut self,
        alloc: Global,
        map: &CheckedMap,
        target: &Profile,
    ) -> Result<(), AllocError> {
        self.attempt_each(alloc, map, target, &EXTENTS, Texts::Value(0))?;
        self.attempt_lengths(alloc, map, target)?;
        // (behind the last value of a table comes the first again, which may not be the usual one)
        let values = values_of(map.source()).saturating_add(1).min(VALUES);
        for number in 1..values {
            self.attempt_each(alloc, map, target, &LISTED, Texts::Value(number))?;
        }
        Ok(())
    }

    /// Says what no sample shows.
    fn conclude(&mut self, source: &Profile, target: &Profile) -> Result<(), AllocError> {
        if self.is_cut {
            return self.say(FURTHER, b"");
        }
        if !self.has_tried {
            return self.say(NO_SAMPLE, source.name());
        }
        if self.out.is_empty() {
            return self.say(NO_BREACH, target.name());
        }
        Ok(())
    }

    /// Adds a sentence with the name at its end, behind an empty line.
    fn say(&mut self, sentence: &[u8], name: &[u8]) -> Result<(), AllocError> {
        self.out.push(b'\n')?;
        self.out.extend_from_slice(sentence)?;
        self.out.extend_from_slice(name)?;
        self.out.push(b'\n')?;
        Ok(())
    }
}

/// How many values the greatest table of a profile has.
fn values_of(source: &Profile) -> usize {
    let mut most = 0;
    for (_, table) in source.tables() {
        most = table.values().len().max(most);
    }
    most
}

/// Adds the lengths that are too long by one for a leaf of a segment.
fn add_lengths(lengths: &mut BTreeMap<u32, u64>, segment: &SegNode) -> Result<(), AllocError> {
    for field in segment.fields.as_slice() {
        for comp in field.comps.as_slice() {
            for sub in comp.subs.as_slice() {
                if let Some(most) = sub.len {
                    lengths.insert(most.saturating_add(1), 1)?;
                }
            }
        }
    }
    Ok(())
}

/// Adds those of nodes.
#[cycle(add)]
fn add_all(lengths: &mut BTreeMap<u32, u64>, nodes: &[Node]) -> Result<(), AllocError> {
    for node in nodes {
        add_node(lengths, node)?;
    }
    Ok(())
}

#[cycle(add)]
fn add_node(lengths: &mut BTreeMap<u32, u64>, node: &Node) -> Result<(), AllocError> {
    match node {
        Node::Seg(segment) => add_lengths(lengths, segment),
        Node::Group(group) => add_all(lengths, &group.nodes),
    }
}

/// The samples that show by a map why it is refused, as text.
fn samples_of(alloc: Global, map: &CheckedMap, target: &Profile) -> Result<Vec<u8>, AllocError> {
    let mut shown = Shown {
        spots: BTreeMap::new(alloc),
        out: Vec::new(alloc),
        has_tried: false,
        is_cut: false,
    };
    shown.attempt_all(alloc, map, target)?;
    shown.conclude(map.source(), target)?;
    Ok(shown.out)
}

/// The samples that show why a map is refused, as text, or why there are none.
pub fn counterexamples(
    alloc: Global,
    sides: &ProfilePair,
    written: &Written<'_>,
    refused: &Refused,
) -> Result<Vec<u8>, AllocError> {
    match make_runnable(alloc, sides, &written.text, &refused.used.unread)? {
        Runnable::Checked(map) => samples_of(alloc, &map, &sides.target),
        Runnable::Broken(rule, line) => broken(alloc, rule, line, &sides.target),
        Runnable::TooLarge => Ok(Vec::from_slice(alloc, NONE_TRIED)?),
    }
}

/// Says that nothing can be translated, and why.
fn broken(alloc: Global, rule: u8, line: u32, target: &Profile) -> Result<Vec<u8>, AllocError> {
    let name = target.name().escape_ascii();
    let mut out = Vec::new(alloc);
    let said = writeln!(
        out,
        "\nno sample can be translated: K{rule} fails at line {line}, and isn't on the fields of {name}"
    );
    in_memory(out, said)
}
