//! The progress of a run, shown on a terminal.
use std::cell::Cell;
use std::io;
use std::io::{Read, Write};
use std::time::{Clock, Duration};

/// How long a line stays before the next is shown.
const SECONDS: u64 = 1;

/// A writer of answers, each of which ends a write. It counts them.
#[derive(Drop)]
pub(crate) struct Counted<'t, O: Write> {
    output: O,
    answers: &'t Cell<u64>,
}

impl<'t, O: Write> Counted<'t, O> {
    pub(crate) fn new(output: O, answers: &'t Cell<u64>) -> Self {
        Counted { output, answers }
    }
}

impl<O: Write> Write for Counted<'_, O> {
    fn write(&mut self, buf: &[u8]) -> io::Result<usize> {
        let count = self.output.write(buf)?;
        if count == buf.len() {
            self.answers.set(self.answers.get().wrapping_add(1));
        }
        Ok(count)
    }

    fn flush(&mut self) -> io::Result<()> {
        self.output.flush()
    }
}

/// A stream. On a terminal it shows each second how many bytes were read and how many answers were written.
#[derive(Drop)]
pub(crate) struct Watched<'c, 't, C: Clock, I: Read, E: Write> {
    clock: &'c C,
    input: I,
    errors: E,
    answers: &'t Cell<u64>,
    shows: bool,
    bytes: u64,
    told: Duration,
}

impl<'c, 't, C: Clock, I: Read, E: Write> Watched<'c, 't, C, I, E> {
    pub(crate) fn new(
        clock: &'c C,
        input: I,
        errors: E,
        answers: &'t Cell<u64>,
        shows: bool,
    ) -> Self {
        Watched {
            told: clock.monotonic().unwrap_or(Duration::ZERO),
            clock,
            input,
            errors,
            answers,
            shows,
            bytes: 0,
        }
    }

    /// Reports how far the run is, where a second has gone since the last line.
    fn tell(&mut self) {
        let Ok(now) = self.clock.monotonic() else {
            return;
        };
        if now.saturating_sub(self.told).as_secs() < SECONDS {
            return;
        }
        self.told = now;
        let answers = self.answers.get();
        let bytes = self.bytes;
        let _ = writeln!(
            self.errors,
            "{answers} messages answered, {bytes} bytes read"
        );
    }
}

impl<C: Clock, I: Read, E: Write> Read for Watched<'_, '_, C, I, E> {
    fn read(&mut self, buf: &mut [u8]) -> io::Result<usize> {
        let count = self.input.read(buf)?;
        self.bytes = self.bytes.wrapping_add(count as u64);
        if self.shows {
            self.tell();
        }
        Ok(count)
    }
}
