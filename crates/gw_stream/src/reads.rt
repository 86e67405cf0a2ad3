//! A reader of std as a source.
use crate::source::{Failed, MAX_TRIES, Source};
use std::io::{ErrorKind, Read};

/// A reader of std as a source. A read that a signal interrupts is made again.
#[derive(Drop)]
pub struct Reads<R: Read> {
    reader: R,
    reads: u64,
    failed: bool,
}

impl<R: Read> Reads<R> {
    ghost use Rattle.std.specs.Prelude.{◌≡◌, false};

    /// A source that hasn't failed. It takes no memory.
    pub fn new(reader: R) -> Self
        ensures left { ⟦<Reads<R> as Source>⟧.remaining result ≡ R.remaining reader }
        ensures unread { ⟦<Reads<R> as Source>⟧.reads result ≡ 0 }
        ensures works { ⟦<Reads<R> as Source>⟧.has_failed result ≡ false }
    {
        Reads {
            reader,
            reads: 0,
            failed: false,
        }
    }
}

impl<R: Read> Source for Reads<R> {
    ghost remaining = { λ s. R.remaining s.reader };

    ghost reads = { λ s. s.reads };

    ghost has_failed = { λ s. s.failed };

    fn failed(&self) -> bool {
        self.failed
    }

    fn read(&mut self, buf: &mut [u8]) -> Result<usize, Failed> {
        self.reads = self.reads.saturating_add(1);
        'tries: for _try in 0..MAX_TRIES {
            match self.reader.read(buf) {
                Ok(count) => {
                    self.failed = false;
                    return Ok(count);
                }
                Err(error) if error.kind() == ErrorKind::Interrupted => {}
                Err(_) => {
                    self.failed = true;
                    return Err(Failed);
                }
            }
        }
        self.failed = true;
        Err(Failed)
    }
}
