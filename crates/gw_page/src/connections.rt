//! One connection.
ghost use Rattle.std.specs.Prelude.{◌≡◌, ℕ, List};
ghost use Rattle.std.specs.Io.KnownBytes.{Appends, Consumes};
ghost use Rattle.gw_page.specs.Connections.{Answered, limits};

use crate::{Figures, Site};
use http_server::{Config, Connection, serve};
use http1::Limits;
use std::alloc::Global;
use std::hash::RandomState;
use std::io;
use std::io::{Read, Write};

/// The most bytes of a request's head. A request has no body.
const HEAD: usize = 8_192;

fn limits() -> Config
    ensures { result ≡ limits }
{
    Config {
        limits: Limits {
            max_head_len: HEAD,
            max_extensions_len: HEAD,
            max_trailers_len: HEAD,
        },
        max_body_len: 0,
        max_pending: 65_536,
        read_size: HEAD,
    }
}

/// Answers one request of a connection by these figures. `keys` are secret: the other end chooses the names of headers.
///
/// The errors are those of the reader and the writer, and an allocation failure.
pub fn answer<R: Read, W: Write>(
    alloc: Global,
    keys: RandomState,
    figures: &Figures,
    reader: &mut R,
    writer: &mut W,
) -> io::Result<()>
    ensures { (read : List ℕ) × (written : List ℕ)
        × Consumes (R.remaining reader.old) (R.remaining reader.new) read
        × Appends (W.contents writer.old) (W.contents writer.new) written
        × Answered figures.now read written }
{
    let mut site = Site { alloc, figures };
    let mut connection = Connection::new(alloc, keys, limits());
    serve(&mut connection, &mut site, reader, writer)
}
