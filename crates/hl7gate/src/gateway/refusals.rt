//! What is noted of each answer that isn't AA: a line of the log, which has the message's control id, and what the page shows, which hasn't.
use crate::answers::{is_accepted, line_of, refusal_of, word_of};
use crate::came::Came;
use crate::gateway::hub::Hub;
use crate::gateway::senders::Sender;
use gw_er7::{Message, read};
use gw_journal::{Naming, Storage};
use gw_mllp::Decoder;
use gw_page::Refusal;
use std::alloc::{AllocError, Global};
use std::io;
use std::io::{Eprint, Error, ErrorKind, Write};
use std::sync::Wait;
use std::sync::atomic::Ordering;

/// How many milliseconds one write waits for its sender.
pub(crate) const TURN: u64 = 200;

/// How many times an answer is waited for: 58 seconds. Once the gateway ends, all answers of a session are: a second.
const TURNS: u64 = 290;

const LAST_TURNS: u64 = 5;

/// The condition of an answer to a message that isn't judged (HL7 table 0357).
const INTERNAL: &[u8] = b"207";

/// A sender's connection as its answers are written, with the log.
#[derive(Drop)]
pub(crate) struct Logged<'a, 'f, J: Naming, S: Storage + Drop, R: Wait> {
    alloc: Global,
    hub: &'a Hub<'f, J, S, R>,
    sender: &'a Sender,
    came: &'a Came,
    answers: Decoder,
    // how many times an answer was waited for since the gateway ends
    late: u64,
}

impl<'a, 'f, J: Naming, S: Storage + Drop, R: Wait> Logged<'a, 'f, J, S, R> {
    pub(crate) fn new(
        alloc: Global,
        hub: &'a Hub<'f, J, S, R>,
        sender: &'a Sender,
        came: &'a Came,
    ) -> Self {
        Logged {
            alloc,
            hub,
            sender,
            came,
            answers: Decoder::new(alloc),
            late: 0,
        }
    }

    // Takes what was written, and logs the answers that end in it. What can't be logged isn't: the answer has gone out.
    fn take(&mut self, piece: &[u8]) {
        if self.answers.feed(piece).is_err() {
            self.came.lose();
            return;
        }
        for _ in 0..piece.len() {
            let Some(content) = self.answers.next_block() else {
                return;
            };
            self.came.answer();
            if !is_accepted(&content)
                && let Ok(answer) = read(self.alloc, &content)
            {
                let _ = self.note(&answer);
            }
        }
    }

    // Why a message is answered AR with 207, where that is known. One that can't be read is kept, where that is asked for.
    fn reason(&self, refusal: &Refusal) -> Result<String, AllocError> {
        if refusal.code.as_slice() != INTERNAL {
            return Ok(String::new(self.alloc));
        }
        let is_short = self.hub.is_short.load(Ordering::SeqCst);
        match self.came.unread() {
            Some(unread) => {
                if !is_short {
                    let folder = self.hub.folder;
                    folder.keep_unread(self.hub.rt, self.alloc, &unread.bytes);
                }
                unread.words(self.alloc)
            }
            None => self.came.words(is_short),
        }
    }

    // Notes an answer that isn't AA.
    fn note(&self, answer: &Message) -> Result<(), AllocError> {
        let Sender { number, peer, .. } = self.sender;
        let refusal = refusal_of(self.alloc, *number, *peer, answer)?;
        let control = word_of(self.alloc, answer, b"MSA", 2)?;
        let reason = self.reason(&refusal)?;
        let line = line_of(self.alloc, &refusal, &control, &reason)?;
        self.hub.watch.note(self.hub.rt, refusal);
        self.hub.folder.add(self.hub.rt, line.as_bytes());
        Ok(())
    }
}

impl<J: Naming, S: Storage + Drop, R: Wait + Eprint> Logged<'_, '_, J, S, R> {
    // Writes as much as the sender takes in time. Once the gateway ends it has less time.
    fn send(&mut self, buf: &[u8]) -> io::Result<usize> {
        let mut stream = &self.sender.stream;
        for _turn in 0..TURNS {
            match stream.write(buf) {
                Err(error) if error.kind() == ErrorKind::WouldBlock => {}
                written => return written,
            }
            if self.hub.has_ended() {
                self.late = self.late.saturating_add(1);
            }
            if self.late >= LAST_TURNS {
                break;
            }
        }
        let session = self.sender.number;
        let _ = eprintln!(self.hub.rt;
            "session {session}: its sender didn't take an answer in time"
        );
        Err(Error::from(ErrorKind::TimedOut))
    }
}

impl<J: Naming, S: Storage + Drop, R: Wait + Eprint> Write for Logged<'_, '_, J, S, R> {
    fn write(&mut self, buf: &[u8]) -> io::Result<usize> {
        let count = self.send(buf)?.min(buf.len());
        self.take(&buf[..count]);
        Ok(count)
    }

    fn flush(&mut self) -> io::Result<()> {
        Ok(())
    }
}
