//! A sink, and what it was handed.
ghost use Rattle.std.specs.Prelude.{◌≡◌, ◌++◌, List, ℕ, []};
ghost use Rattle.std.specs.Borrow.{ftrue};

use crate::sink::Sink;
use crate::source::Failed;
use std::marker::{Model, PhantomData};

// Bytes in order, which only clauses read. No memory holds them.
#[derive(Drop)]
struct Bytes {
    marker: PhantomData<u8>,
    ghost bytes: { List ℕ },
}

impl Model for Bytes {
    ghost also_owns = { λ _. ftrue };
}

impl Bytes {
    fn new() -> Bytes
        ensures { result.bytes ≡ [] }
    {
        Bytes {
            marker: PhantomData,
        }
    }

    fn note(&mut self, _bytes: &[u8])
        ensures { self.new.bytes ≡ self.old.bytes ++ _bytes.now }
    {}
}

/// A sink that knows all bytes that its inner sink took since it was made. This takes no memory.
///
/// Of a socket nothing is known of what it holds. What it was handed is known all the same.
#[derive(Drop)]
pub struct Handed<W: Sink> {
    sink: W,
    bytes: Bytes,
}

impl<W: Sink> Handed<W> {
    ghost use Rattle.std.specs.Prelude.{◌≡◌, [], Some};

    /// A sink that was handed nothing.
    pub fn new(sink: W) -> Self
        ensures held { ⟦<Handed<W> as Sink>⟧.contents result ≡ Some [] }
        ensures works { ⟦<Handed<W> as Sink>⟧.has_failed result ≡ W.has_failed sink }
    {
        Handed {
            sink,
            bytes: Bytes::new(),
        }
    }
}

impl<W: Sink> Sink for Handed<W> {
    ghost use Rattle.std.specs.Prelude.{Some};

    ghost contents = { λ s. Some s.bytes.bytes };

    ghost has_failed = { λ s. W.has_failed s.sink };

    fn failed(&self) -> bool {
        self.sink.failed()
    }

    fn write(&mut self, buf: &[u8]) -> Result<usize, Failed> {
        let count = self.sink.write(buf)?;
        self.bytes.note(&buf[..count]);
        Ok(count)
    }
}
