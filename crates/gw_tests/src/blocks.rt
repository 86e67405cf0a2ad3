//! Blocks of streams that are cut in any way.
use gw_mllp::{Decoder, FrameFault, is_content};
use std::alloc::{AllocError, Global};
use std::test::Fail;

/// A gap, a block with a lone FS, CR LF between blocks, a block with VT and a last FS, an empty block.
const STREAM: &[u8] = b"x\x0bA\x1cB\x1c\r\r\n\x0b\x0b\x1c\x1c\r\x0b\x1c\r";

/// Feeds the stream, cut behind each byte whose bit is set.
fn feed(alloc: Global, decoder: &mut Decoder, stream: &[u8], cuts: u32) -> Result<(), FrameFault> {
    let mut piece = Vec::new(alloc);
    let mut left = cuts;
    for byte in stream {
        piece.push(*byte)?;
        if left % 2 == 1 {
            decoder.feed(&piece)?;
            piece.clear();
        }
        left /= 2;
    }
    decoder.feed(&piece)
}

/// Puts a block behind the others, and `;` behind it.
fn add(blocks: &mut Vec<u8>, block: &[u8]) -> Result<(), AllocError> {
    blocks.extend_from_slice(block)?;
    blocks.push(b';')?;
    Ok(())
}

/// The blocks of the stream, each with `;` behind it. The stream is cut behind each byte whose bit is set.
fn framed(alloc: Global, stream: &[u8], cuts: u32) -> Result<Vec<u8>, FrameFault> {
    let mut decoder = Decoder::new(alloc);
    feed(alloc, &mut decoder, stream, cuts)?;
    let mut blocks = Vec::new(alloc);
    for _byte in stream {
        if let Some(block) = decoder.next_block() {
            add(&mut blocks, &block)?;
        }
    }
    decoder.at_end()?;
    Ok(blocks)
}

#[test]
fn every_cut(rt: HostRuntime) -> Result<(), Fail> {
    for cuts in 0..131_072 {
        let blocks = framed(rt.alloc(), STREAM, cuts)?;
        assert_eq!(rt; blocks.as_slice(), b"A\x1cB;\x0b\x1c;;".as_slice());
    }
    assert!(rt; !is_content(b"A\x1c\rB"));
    Ok(())
}
