//! A writer of std as a sink.
use crate::sink::Sink;
use crate::source::{Failed, MAX_TRIES};
use std::io::{ErrorKind, Write};

/// A writer of std as a sink. A write that a signal interrupts is made again.
#[derive(Drop)]
pub struct Writes<W: Write> {
    writer: W,
    failed: bool,
}

impl<W: Write> Writes<W> {
    ghost use Rattle.std.specs.Prelude.{◌≡◌, false};

    /// A sink that hasn't failed. It takes no memory.
    pub fn new(writer: W) -> Self
        ensures held { ⟦<Writes<W> as Sink>⟧.contents result ≡ W.contents writer }
        ensures works { ⟦<Writes<W> as Sink>⟧.has_failed result ≡ false }
    {
        Writes {
            writer,
            failed: false,
        }
    }
}

impl<W: Write> Sink for Writes<W> {
    ghost contents = { λ s. W.contents s.writer };

    ghost has_failed = { λ s. s.failed };

    fn failed(&self) -> bool {
        self.failed
    }

    fn write(&mut self, buf: &[u8]) -> Result<usize, Failed> {
        'tries: for _try in 0..MAX_TRIES {
            match self.writer.write(buf) {
                Ok(count) => {
                    let stuck = count == 0 && !buf.is_empty();
                    self.failed = stuck;
                    return if stuck { Err(Failed) } else { Ok(count) };
                }
                Err(error) if error.kind() == ErrorKind::Interrupted => {}
                Err(_) => {
                    self.failed = true;
                    return Err(Failed);
                }
            }
        }
        self.failed = true;
        Err(Failed)
    }
}
