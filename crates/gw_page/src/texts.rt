//! Bytes that are written so that they mean themselves, and numbers.
ghost use Rattle.std.specs.Prelude.{◌≡◌, ◌++◌, OnOk, decimal};
ghost use Rattle.std.specs.Char.Escape.{escape_ascii};
ghost use Rattle.gw_page.specs.Escapes.{escape, escaped, quote, quoted};
ghost use Rattle.gw_page.specs.Status.{printed};

use itoa::Buffer;
use std::alloc::AllocError;

/// Adds text as it is.
#[inline(always)]
pub(crate) fn put(out: &mut Vec<u8>, text: &[u8]) -> Result<(), AllocError>
    ensures { OnOk result (out.new.items ≡ out.old.items ++ text.now) }
{
    out.extend_from_slice(text)
}

/// Adds a number in decimal.
pub(crate) fn put_number(out: &mut Vec<u8>, number: u64) -> Result<(), AllocError>
    ensures { OnOk result (out.new.items ≡ out.old.items ++ decimal number) }
{
    let mut buffer = Buffer::new();
    out.extend_from_slice(buffer.format(number).as_bytes())
}

fn put_escape(out: &mut Vec<u8>, byte: u8) -> Result<(), AllocError>
    ensures { OnOk result (out.new.items ≡ out.old.items ++ escape byte) }
{
    match byte {
        b'&' => out.extend_from_slice(b"&amp;"),
        b'<' => out.extend_from_slice(b"&lt;"),
        b'>' => out.extend_from_slice(b"&gt;"),
        b'"' => out.extend_from_slice(b"&quot;"),
        b'\'' => out.extend_from_slice(b"&#39;"),
        _ => out.extend_from_slice(&[byte]),
    }
}

/// Adds text to HTML.
pub(crate) fn put_escaped(out: &mut Vec<u8>, text: &[u8]) -> Result<(), AllocError>
    ensures { OnOk result (out.new.items ≡ out.old.items ++ escaped text.now) }
{
    for byte in text {
        put_escape(out, *byte)?;
    }
    Ok(())
}

fn put_quote(out: &mut Vec<u8>, byte: u8) -> Result<(), AllocError>
    ensures { OnOk result (out.new.items ≡ out.old.items ++ quote byte) }
{
    match byte {
        b'\\' => out.extend_from_slice(b"\\\\"),
        b'"' => out.extend_from_slice(b"\\\""),
        b'\n' => out.extend_from_slice(b"\\n"),
        _ => out.extend_from_slice(&[byte]),
    }
}

/// Adds text to a label's value.
pub(crate) fn put_quoted(out: &mut Vec<u8>, text: &[u8]) -> Result<(), AllocError>
    ensures { OnOk result (out.new.items ≡ out.old.items ++ quoted text.now) }
{
    for byte in text {
        put_quote(out, *byte)?;
    }
    Ok(())
}

fn put_byte(out: &mut Vec<u8>, byte: u8) -> Result<(), AllocError>
    ensures { OnOk result (out.new.items ≡ out.old.items ++ escape_ascii byte) }
{
    let mut rest = byte.escape_ascii();
    'escape: while let Some(escaped) = rest.next() {
        out.push(escaped)?;
    }
    Ok(())
}

/// Adds text to a terminal, or to JSON.
pub(crate) fn put_printed(out: &mut Vec<u8>, text: &[u8]) -> Result<(), AllocError>
    ensures { OnOk result (out.new.items ≡ out.old.items ++ printed text.now) }
{
    for byte in text {
        put_byte(out, *byte)?;
    }
    Ok(())
}
