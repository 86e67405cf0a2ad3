//! How bytes are read as a message (HL7 v2.5.1 chapter 2, sections 2.5.4 "Message delimiters" and 2.6 "Message construction rules").
ghost use Rattle.std.specs.Prelude.{◌≡◌, ◌+◌, ◌-◌, ◌<◌, ◌≤◌, ◌∷◌, ◌++◌, [], ◌^◌, drop, length, IfOk, OnOk, ◌⊎◌, IfErr, Err};
ghost use Rattle.gw_er7.specs.declared.fault.ReadFault.{ReadFault};
ghost use Rattle.gw_er7.specs.Content.{lines_from};
ghost use Rattle.gw_er7.specs.Faults.{Faulty};
ghost use Rattle.gw_er7.specs.Reading.{Reads};
ghost use Rattle.gw_er7.specs.View.{held, lying, AreInside, IsLying};
ghost use Rattle.gw_er7.specs.own.Separators.{Lies};
ghost use Rattle.gw_er7.specs.own.Gathered.{segment_of, others_of, IsTaken, Takes, LinesLie, AreSegments, IsWhole};

use crate::checks::is_segment_line;
use crate::classes::ByteClasses;
use crate::fault::ReadFault;
use crate::fields::{SegmentTexts, take_fields};
use crate::lines::{NextLine, check, check_header, next_line};
use crate::message::Message;
use crate::spans::{MessageSpans, Store};
use crate::start::SegmentHead;
use crate::texts::Texts;
use std::alloc::{AllocError, Global};

/// The bytes behind the first ones, none where there are too few.
fn behind(bytes: &[u8], count: usize) -> &[u8]
    ensures value { result.now ≡ drop count bytes.now }
    ensures short { length result.now ≤ length bytes.now }
{
    if bytes.len() < count {
        return &[];
    }
    &bytes[count..]
}

/// Reads the segment of a line, whose fields begin behind `skip` bytes.
fn take_segment(
    starts: &mut Vec<SegmentHead>,
    taken: &mut SegmentTexts<'_>,
    classes: &ByteClasses,
    first: usize,
    skip: usize,
    line: NextLine<'_>,
) -> Result<(), AllocError>
    requires first { first ≤ 3 }
    requires named { 3 ≤ length line.bytes.now }
    requires room { line.at + length line.bytes.now < 2 ^ 64 }
    requires taken { IsTaken starts.old.items taken.old }
    requires lies { Lies taken.old.content.now line.at line.bytes.now }
    ensures { OnOk result (Takes starts.old.items taken.old starts.new.items taken.new (segment_of classes.now first skip line.entry.bytes.now ∷ [])) }
{
    let name = [line.bytes[0], line.bytes[1], line.bytes[2]];
    let start = SegmentHead {
        name,
        first: taken.spans.len(),
    };
    starts.push(start)?;
    let rest = behind(line.bytes, skip);
    let at = line.at + line.bytes.len() - rest.len();
    take_fields(taken, classes, first, at, rest)
}

/// Reads the segments of the lines from a place on, which lie among the message bytes, and counts them.
/// The first line that is none of a segment is reported.
fn take_others(
    starts: &mut Vec<SegmentHead>,
    taken: &mut SegmentTexts<'_>,
    classes: &ByteClasses,
    at: usize,
    bytes: &[u8],
) -> Result<usize, ReadFault>
    requires room { at < 2 ^ 64 - 1 }
    requires later { 0 < length bytes.now → at + length bytes.now < 2 ^ 64 - 1 }
    requires taken { IsTaken starts.old.items taken.old }
    requires lie { LinesLie taken.old.content.now (lines_from at bytes.now) }
    ensures segments { IfOk result (AreSegments classes.now.field (lines_from at bytes.now)) }
    ensures takes { OnOk result (Takes starts.old.items taken.old starts.new.items taken.new (others_of classes.now (lines_from at bytes.now))) }
{
    let mut here = at;
    let mut rest = bytes;
    let mut count = 0;
    while let Some(line) = next_line(here, rest) {
        if !is_segment_line(classes.delimiters().field, line.bytes) {
            return Err(ReadFault::BadSegment { at: line.at });
        }
        take_segment(starts, taken, classes, 1, 4, line)?;
        count += 1;
        here = line.at + line.bytes.len() + 1;
        rest = line.behind;
    }
    Ok(count)
}

/// The segments of a message and its texts, most of which lie among the message bytes, and `others` behind these.
#[derive(Drop)]
struct MessageParts {
    starts: Vec<SegmentHead>,
    spans: MessageSpans,
    others: Vec<u8>,
}

/// Reads message bytes without a fault, each line once. An error is the fault or an allocation failure, whichever came first.
fn take_message(alloc: Global, content: &[u8]) -> Result<MessageParts, ReadFault>
    ensures { IfOk result (λ m. IsWhole content.now m) }
{
    let checked = check_header(content)?;
    let header = checked.header;
    let classes = ByteClasses::of(checked.delimiters);
    let mut taken = SegmentTexts::with_room(alloc, content)?;
    // (in steps too: room for a segment each 64 bytes)
    let mut starts = Vec::with_capacity(alloc, content.len() / 1024 * 16 + 16)?;
    take_segment(&mut starts, &mut taken, &classes, 3, 9, header)?;
    let at = header.at + header.bytes.len() + 1;
    let count = take_others(&mut starts, &mut taken, &classes, at, header.behind)?;
    if count >= 10_000 {
        return Err(ReadFault::TooManySegments);
    }
    let SegmentTexts {
        spans,
        content: _,
        others,
    } = taken;
    Ok(MessageParts {
        starts,
        spans,
        others,
    })
}

/// The message bytes with the other texts behind them. An error returns them as they were.
fn with_others(content: Vec<u8>, others: &[u8]) -> Result<Vec<u8>, (ReadFault, Vec<u8>)>
    ensures joined { IfOk result (λ bytes. bytes.items ≡ content.items ++ others.now) }
    ensures memory { IfErr result (λ e. e.0 ≡ ReadFault.Memory) }
    ensures back { IfErr result (λ e. e.1.items ≡ content.items) }
{
    let mut bytes = content;
    match bytes.extend_from_slice(others) {
        Ok(()) => Ok(bytes),
        Err(_) => Err((ReadFault::Memory, bytes)),
    }
}

/// The message of the segments that begin so among the texts of these bytes.
fn message_of(starts: Vec<SegmentHead>, spans: MessageSpans, bytes: Vec<u8>) -> Message
    requires inside { AreInside bytes.items spans }
    requires lies { IsLying starts.items (held bytes.items spans) }
    ensures { result ≡ lying starts.items (held bytes.items spans) }
{
    Message::of(starts, Texts::among(bytes, spans))
}

/// The message of what was read of the message bytes, which it keeps. An error returns them as they were.
fn close(parts: MessageParts, content: Vec<u8>) -> Result<Message, (ReadFault, Vec<u8>)>
    requires { IsWhole content.items parts }
    ensures ok { IfOk result (λ message. Reads content.items message) }
    ensures memory { IfErr result (λ e. e.0 ≡ ReadFault.Memory) }
    ensures back { IfErr result (λ e. e.1.items ≡ content.items) }
{
    let MessageParts {
        starts,
        spans,
        others,
    } = parts;
    let bytes = with_others(content, &others)?;
    Ok(message_of(starts, spans, bytes))
}

/// Why message bytes weren't read: their first fault, or an allocation failure where they have none.
fn fault_of(content: &[u8]) -> ReadFault
    ensures faulty { (fault : ReadFault) → Faulty content.now fault → result ≡ fault }
    ensures one { (result ≡ ReadFault.Memory) ⊎ Faulty content.now result }
{
    match check(content) {
        Ok(_) => ReadFault::Memory,
        Err(fault) => fault,
    }
}

/// Reads message bytes, whatever their delimiters and line ends. Faulty bytes never give `Memory`.
pub fn read(alloc: Global, content: &[u8]) -> Result<Message, ReadFault>
    ensures ok { IfOk result (λ message. Reads content.now message) }
    ensures faulty { (fault : ReadFault) → Faulty content.now fault → result ≡ Err fault }
    ensures err { IfErr result (λ fault. (fault ≡ ReadFault.Memory) ⊎ Faulty content.now fault) }
{
    let Ok(copied) = Vec::from_slice(alloc, content) else {
        return Err(fault_of(content));
    };
    match read_block(copied) {
        Ok(message) => Ok(message),
        Err((fault, _)) => Err(fault),
    }
}

/// Reads owned message bytes as `read` does (HL7 v2.5.1 chapter 2, 2.5.4 and 2.6), with the same faults in the same order.
/// The message keeps the bytes. Every error returns them as they were, beside the fault. Faulty bytes never give `Memory`.
#[tactic(auto, using(crate::proofs::Wholes::never))]
pub fn read_block(content: Vec<u8>) -> Result<Message, (ReadFault, Vec<u8>)>
    ensures ok { IfOk result (λ message. Reads content.items message) }
    ensures faulty { (fault : ReadFault) → Faulty content.items fault → result ≡ Err (fault, content) }
    ensures err { IfErr result (λ e. (e.0 ≡ ReadFault.Memory) ⊎ Faulty content.items e.0) }
    ensures back { IfErr result (λ e. e.1.items ≡ content.items) }
{
    let alloc = *content.allocator();
    let Ok(parts) = take_message(alloc, &content) else {
        return Err((fault_of(&content), content));
    };
    close(parts, content)
}
