//! Streams that are cut into blocks, and messages that are read, written and built.
ghost use Rattle.std.specs.Prelude.{◌≡◌, ◌++◌, ◌∷◌, [], OnOk};
ghost use Rattle.std.specs.FinMap as texts;
ghost use Rattle.gw_er7.specs.Message.{numbers};
ghost use Rattle.gw_er7.specs.Building.{IsBegun, MayPut, with_last};

use crate::sweeps::{Call, holds, refuse, sweep};
use gw_er7::{Builder, Message, Place, ReadFault, read, read_block, write};
use gw_mllp::{Decoder, FrameFault, is_content, write_block};
use std::alloc::{AllocError, Global};
use std::test::Fail;

/// A message twice, with CR LF between its blocks.
const STREAM: &[u8] =
    b"\x0bMSH|^~\\&|LAB\rPID|||123||DOE^JOHN\r\x1c\r\r\n\x0bMSH|^~\\&|LAB\rPID|||123||DOE^JOHN\r\x1c\r";

/// Its two messages, each followed by `;`.
const BLOCKS: &[u8] = b"MSH|^~\\&|LAB\rPID|||123||DOE^JOHN\r;MSH|^~\\&|LAB\rPID|||123||DOE^JOHN\r;";

/// Message bytes, and their block behind a byte.
const CONTENT: &[u8] = b"MSH|^~\\&|LAB\r";

const BLOCK: &[u8] = b"x\x0bMSH|^~\\&|LAB\r\x1c\r";

/// A message with other delimiters, and as it is written.
const SIGNS: &[u8] = b"MSH#^~\\&#LAB\rPID###a\\F\\b|c\r";

const BARS: &[u8] = b"MSH|^~\\&|LAB\rPID|||a#b\\F\\c\r";

#[derive(Clone, Copy)]
enum Framing {
    /// The stream is fed in pieces of this many bytes.
    Feed(usize),
    WriteBlock,
}

impl Call for Framing {
    fn is_refused(&self, alloc: Global, growth: u32) -> Result<bool, Fail> {
        match self {
            Framing::Feed(size) => feed_refused(alloc, *size, growth),
            Framing::WriteBlock => write_block_refused(alloc, growth),
        }
    }
}

// Feeds a piece, and feeds it again after a failure. Returns whether it failed.
fn feed_again(decoder: &mut Decoder, piece: &[u8]) -> Result<bool, Fail> {
    let end = decoder.at_end();
    match decoder.feed(piece) {
        Err(FrameFault::Memory) => {
            holds(decoder.at_end() == end, "a refused piece is taken")?;
            decoder.feed(piece)?;
            Ok(true)
        }
        result => {
            result?;
            Ok(false)
        }
    }
}

// Feeds the stream in pieces of this many bytes. Returns whether one of them failed at first.
fn feed_all(decoder: &mut Decoder, size: usize) -> Result<bool, Fail> {
    let mut refused = false;
    for piece in STREAM.chunks(size.max(1)) {
        if feed_again(decoder, piece)? {
            refused = true;
        }
    }
    Ok(refused)
}

// Appends a block, and `;`.
fn add(blocks: &mut Vec<u8>, block: &[u8]) -> Result<(), AllocError> {
    blocks.extend_from_slice(block)?;
    blocks.push(b';')?;
    Ok(())
}

// The blocks that the decoder returns, each followed by `;`.
fn given(alloc: Global, decoder: &mut Decoder) -> Result<Vec<u8>, AllocError> {
    let mut blocks = Vec::new(alloc);
    for _byte in STREAM {
        if let Some(block) = decoder.next_block() {
            add(&mut blocks, &block)?;
        }
    }
    Ok(blocks)
}

fn feed_refused(alloc: Global, size: usize, growth: u32) -> Result<bool, Fail> {
    let mut decoder = Decoder::new(alloc);
    refuse(alloc, growth);
    let refused = feed_all(&mut decoder, size)?;
    refuse(alloc, 0);
    let blocks = given(alloc, &mut decoder)?;
    holds(blocks.as_slice() == BLOCKS, "other blocks")?;
    Ok(refused)
}

// Writes a block, and writes it again after a failure. Returns whether it failed.
fn write_again(out: &mut Vec<u8>) -> Result<bool, Fail> {
    if !is_content(CONTENT) {
        return Err("no content".into());
    }
    match write_block(out, CONTENT) {
        Err(_) => {
            holds(out.as_slice() == b"x".as_slice(), "something is written")?;
            write_block(out, CONTENT)?;
            Ok(true)
        }
        Ok(()) => Ok(false),
    }
}

fn write_block_refused(alloc: Global, growth: u32) -> Result<bool, Fail> {
    let mut out = Vec::with_capacity(alloc, 1)?;
    out.push(b'x')?;
    refuse(alloc, growth);
    let refused = write_again(&mut out)?;
    refuse(alloc, 0);
    holds(out.as_slice() == BLOCK, "another block")?;
    Ok(refused)
}

#[test]
fn framing_refused(rt: HostRuntime) -> Result<(), Fail> {
    for call in [
        Framing::Feed(1),
        Framing::Feed(7),
        Framing::Feed(200),
        Framing::WriteBlock,
    ] {
        sweep(rt.alloc(), &call)?;
    }
    Ok(())
}

#[derive(Clone, Copy)]
enum Content {
    Read,
    ReadBlock,
    Write,
    /// A text stands behind this many separators of one kind.
    Far(u8, usize),
}

impl Call for Content {
    fn is_refused(&self, alloc: Global, growth: u32) -> Result<bool, Fail> {
        match self {
            Content::Read => read_refused(alloc, growth),
            Content::ReadBlock => read_block_refused(alloc, growth),
            Content::Write => write_refused(alloc, growth),
            Content::Far(separator, count) => far_refused(alloc, *separator, *count, growth),
        }
    }
}

// Whether the message is written as these bytes.
fn is_written(alloc: Global, message: &Message) -> Result<bool, AllocError> {
    Ok(write(alloc, message)?.as_slice() == BARS)
}

fn read_refused(alloc: Global, growth: u32) -> Result<bool, Fail> {
    refuse(alloc, growth);
    let (refused, message) = match read(alloc, SIGNS) {
        Err(ReadFault::Memory) => (true, read(alloc, SIGNS)?),
        result => (false, result?),
    };
    refuse(alloc, 0);
    holds(is_written(alloc, &message)?, "another message")?;
    Ok(refused)
}

// Reads message bytes, and reads them again after a failure, which returns them. Returns whether it failed.
fn read_again(content: Vec<u8>) -> Result<(bool, Message), Fail> {
    match read_block(content) {
        Ok(message) => Ok((false, message)),
        Err((fault, back)) => {
            holds(
                fault == ReadFault::Memory && back.as_slice() == SIGNS,
                "another content comes back",
            )?;
            match read_block(back) {
                Ok(message) => Ok((true, message)),
                Err((fault, _)) => Err(fault.into()),
            }
        }
    }
}

fn read_block_refused(alloc: Global, growth: u32) -> Result<bool, Fail> {
    let mut content = Vec::new(alloc);
    content.extend_from_slice(SIGNS)?;
    refuse(alloc, growth);
    let (refused, message) = read_again(content)?;
    refuse(alloc, 0);
    holds(is_written(alloc, &message)?, "another message")?;
    Ok(refused)
}

fn write_refused(alloc: Global, growth: u32) -> Result<bool, Fail> {
    let message = read(alloc, SIGNS)?;
    refuse(alloc, growth);
    let (refused, content) = match write(alloc, &message) {
        Err(_) => (true, write(alloc, &message)?),
        Ok(content) => (false, content),
    };
    refuse(alloc, 0);
    holds(content.as_slice() == BARS, "another content")?;
    Ok(refused)
}

// A message with a text at a place of small numbers, and one behind this many separators.
fn far(alloc: Global, separator: u8, count: usize) -> Result<Vec<u8>, AllocError> {
    let mut content = Vec::new(alloc);
    content.extend_from_slice(b"MSH|^~\\&\rPID|a")?;
    for _ in 0..count {
        content.push(separator)?;
    }
    content.extend_from_slice(b"b\r")?;
    Ok(content)
}

// A copy of the message of these bytes.
fn copy_of(alloc: Global, content: &[u8]) -> Result<Message, ReadFault> {
    let message = read(alloc, content)?;
    let copy = message.copy(alloc)?;
    Ok(copy)
}

fn far_refused(alloc: Global, separator: u8, count: usize, growth: u32) -> Result<bool, Fail> {
    let content = far(alloc, separator, count)?;
    refuse(alloc, growth);
    let (refused, message) = match copy_of(alloc, &content) {
        Err(ReadFault::Memory) => (true, copy_of(alloc, &content)?),
        result => (false, result?),
    };
    refuse(alloc, 0);
    let written = write(alloc, &message)?;
    holds(written.as_slice() == content.as_slice(), "another message")?;
    Ok(refused)
}

// The last four take wider spans: a number of more than 8 bits, and one of more than 20.
#[test]
fn contents_refused(rt: HostRuntime) -> Result<(), Fail> {
    for call in [
        Content::Read,
        Content::ReadBlock,
        Content::Write,
        Content::Far(b'|', 255),
        Content::Far(b'~', 256),
        Content::Far(b'^', 299),
        Content::Far(b'~', 1_048_575),
    ] {
        sweep(rt.alloc(), &call)?;
    }
    Ok(())
}

#[derive(Clone, Copy)]
enum Made {
    Build,
    Copy,
}

impl Call for Made {
    fn is_refused(&self, alloc: Global, growth: u32) -> Result<bool, Fail> {
        match self {
            Made::Build => build_refused(alloc, growth),
            Made::Copy => copy_refused(alloc, growth),
        }
    }
}

fn place(field: usize, rep: usize, comp: usize, sub: usize) -> Place
    ensures { result ≡ record { field = field; rep = rep; comp = comp; sub = sub } }
{
    Place {
        field,
        rep,
        comp,
        sub,
    }
}

// Begins a segment, and begins it again after a failure.
fn begin(builder: &mut Builder, refused: &mut bool, name: [u8; 3]) -> Result<(), AllocError>
    requires { IsBegun (builder.old ++ record { name = name; at = texts.empty } ∷ []) }
    ensures ok { OnOk result (builder.new ≡ builder.old ++ record { name = name; at = texts.empty } ∷ []) }
{
    match builder.begin(name) {
        Ok(()) => Ok(()),
        Err(_) => {
            *refused = true;
            builder.begin(name)
        }
    }
}

// Puts a text, and puts it again after a failure.
fn put(
    builder: &mut Builder,
    refused: &mut bool,
    place: Place,
    text: &[u8],
) -> Result<(), AllocError>
    requires { MayPut (numbers place) text.now builder.old }
    ensures ok { OnOk result (builder.new ≡ with_last (λ s. record s { at = texts.insert s.at (numbers place) text.now }) builder.old) }
{
    match builder.put(place, text) {
        Ok(()) => Ok(()),
        Err(_) => {
            *refused = true;
            builder.put(place, text)
        }
    }
}

// A message that is built place by place.
fn built(alloc: Global, refused: &mut bool) -> Result<Message, AllocError> {
    let mut builder = Builder::new(alloc);
    begin(&mut builder, refused, *b"MSH")?;
    put(&mut builder, refused, place(3, 1, 1, 1), b"LAB")?;
    begin(&mut builder, refused, *b"PID")?;
    put(&mut builder, refused, place(5, 1, 1, 1), b"x")?;
    put(&mut builder, refused, place(3, 1, 1, 1), b"a#b\\F\\c")?;
    Ok(builder.finish())
}

/// As it is written.
const BUILT: &[u8] = b"MSH|^~\\&|LAB\rPID|||a#b\\F\\c||x\r";

fn build_refused(alloc: Global, growth: u32) -> Result<bool, Fail> {
    let mut refused = false;
    refuse(alloc, growth);
    let message = built(alloc, &mut refused)?;
    refuse(alloc, 0);
    holds(
        write(alloc, &message)?.as_slice() == BUILT,
        "another message",
    )?;
    Ok(refused)
}

fn copy_refused(alloc: Global, growth: u32) -> Result<bool, Fail> {
    let message = read(alloc, SIGNS)?;
    refuse(alloc, growth);
    let (refused, copy) = match message.copy(alloc) {
        Err(_) => (true, message.copy(alloc)?),
        Ok(copy) => (false, copy),
    };
    refuse(alloc, 0);
    holds(
        is_written(alloc, &copy)? && copy.same(&message),
        "another copy",
    )?;
    Ok(refused)
}

#[test]
fn builders_refused(rt: HostRuntime) -> Result<(), Fail> {
    for call in [Made::Build, Made::Copy] {
        sweep(rt.alloc(), &call)?;
    }
    Ok(())
}
