//! Messages looked at and built.
ghost use Rattle.std.specs.Prelude.{◌≡◌};

use gw_er7::{Builder, Message, Place, ReadFault, Segment, read, read_block, write};
use std::alloc::{AllocError, Global};
use std::test::Fail;

fn place(field: usize, rep: usize, comp: usize, sub: usize) -> Place
    ensures { result ≡ record { field = field; rep = rep; comp = comp; sub = sub } }
{
    Place {
        field,
        rep,
        comp,
        sub,
    }
}

/// The segment that is looked at is its second.
const CONTENT: &[u8] = b"MSH|^~\\&\rPID||x|a^b&c~~d\r";

// How much there is of each kind in PID.
fn counts(segment: &Segment<'_>) -> (usize, usize, usize, usize, usize) {
    (
        segment.field_count(),
        segment.reps(3),
        segment.comps(3, 1),
        segment.comps(3, 2),
        segment.subs(3, 1, 2),
    )
}

// Whether the value of this number is this text, and is found by its place.
fn is_value(segment: &Segment<'_>, i: usize, text: &[u8]) -> bool {
    if i >= segment.value_count() {
        return false;
    }
    let value = segment.value(i);
    value.text == text && segment.text(value.place) == text
}

// Whether these are all values of PID, with their ranges.
fn has_values(segment: &Segment<'_>) -> bool {
    segment.value_count() == 5
        && is_value(segment, 0, b"x")
        && is_value(segment, 3, b"c")
        && is_value(segment, 4, b"d")
        && segment.field_values(3) == (1, 5)
        && segment.rep_values(3, 1) == (1, 4)
}

// Whether the segment is PID with its values.
fn is_pid(segment: &Segment<'_>) -> bool {
    segment.reborrow().name() == *b"PID"
        && counts(segment) == (3, 3, 2, 0, 2)
        && segment.values_before(place(3, 1, 2, 0)) == 2
        && segment.text(place(3, 2, 1, 1)).is_empty()
        && has_values(segment)
}

#[test]
fn a_segment_is_looked_at(rt: HostRuntime) -> Result<(), Fail> {
    let message = read(rt.alloc(), CONTENT)?;
    assert!(rt; message.segment_count() == 2 && is_pid(&message.segment(1)));
    Ok(())
}

// A message that is built place by place.
fn built(alloc: Global) -> Result<Message, AllocError> {
    let mut builder = Builder::new(alloc);
    builder.begin(*b"MSH")?;
    builder.put(place(3, 1, 1, 1), b"LAB")?;
    builder.begin(*b"PID")?;
    builder.put(place(5, 1, 1, 1), b"x")?;
    builder.put(place(3, 1, 1, 1), b"a#b\\F\\c")?;
    Ok(builder.finish())
}

#[test]
fn a_message_is_built(rt: HostRuntime) -> Result<(), Fail> {
    let alloc = rt.alloc();
    let message = built(alloc)?;
    let copy = message.copy(alloc)?;
    for made in [&message, &copy] {
        let written = write(alloc, made)?;
        assert_eq!(rt;
            written.as_slice(),
            b"MSH|^~\\&|LAB\rPID|||a#b\\F\\c||x\r".as_slice()
        );
    }
    Ok(())
}

// The same values with separators that say nothing, and one value less.
const SAME: &[u8] = b"MSH|^~\\&\rPID||x|a^b&c~~d||\r";

const LESS: &[u8] = b"MSH|^~\\&\rPID||x|a^b&c\r";

// Whether the content is read as this message.
fn is_same(alloc: Global, content: &[u8], message: &Message) -> Result<bool, ReadFault> {
    Ok(read(alloc, content)?.same(message))
}

#[test]
fn equal_messages_are_the_same(rt: HostRuntime) -> Result<(), Fail> {
    let alloc = rt.alloc();
    let message = read(alloc, CONTENT)?;
    assert!(rt; is_same(alloc, SAME, &message)? && !is_same(alloc, LESS, &message)?);
    Ok(())
}

// One message with two sets of delimiters: what is escaped in one stands for itself in the other.
const BARS: &[u8] = b"MSH|^~\\&|LAB\rPID|||a#b\\F\\c\r";

const SIGNS: &[u8] = b"MSH#^~\\&#LAB\rPID###a\\F\\b|c\r";

// The message of a copy of the content, which is handed over.
fn read_copy(alloc: Global, content: &[u8]) -> Result<Message, ReadFault> {
    let mut copy = Vec::new(alloc);
    copy.extend_from_slice(content)?;
    match read_block(copy) {
        Ok(message) => Ok(message),
        Err((fault, _content)) => Err(fault),
    }
}

// Whether the message bytes are read as this message, borrowed or owned.
fn is_read_as(alloc: Global, content: &[u8], message: &Message) -> Result<bool, ReadFault> {
    Ok(is_same(alloc, content, message)? && read_copy(alloc, content)?.same(message))
}

#[test]
fn a_content_is_handed_over(rt: HostRuntime) -> Result<(), Fail> {
    let alloc = rt.alloc();
    let message = read(alloc, BARS)?;
    assert!(rt; is_read_as(alloc, BARS, &message)? && is_read_as(alloc, SIGNS, &message)?);
    let Err((fault, content)) = read_block(Vec::new(alloc)) else {
        return Err("an empty content has no message".into());
    };
    assert!(rt; fault == ReadFault::Empty && content.is_empty());
    Ok(())
}
