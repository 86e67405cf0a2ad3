//! What a sender sends, as a session reads it.
use crate::came::Came;
use crate::framing::Framing;
use crate::gateway::hub::Hub;
use crate::gateway::senders::Sender;
use crate::sockets::pause;
use crate::stand::Stand;
use gw_journal::{Naming, Storage};
use std::alloc::Global;
use std::io;
use std::io::{Eprint, Error, ErrorKind, Read};
use std::net::TcpStream;
use std::sync::Wait;
use std::sync::atomic::Ordering;
use std::time::{Clock, Duration, Instant};

/// How long a read waits before the gateway is looked at, in milliseconds.
const LOOK: u64 = 250;

/// How many milliseconds a sender may be silent within a message: as a rule, and where the gateway ends.
const SILENCE: u64 = 30_000;

const LAST: u64 = 2_000;

/// How many bytes of a message each session may keep without a turn.
const FREE: usize = 65_536;

/// How many seconds a long message may take to come, where others wait for their turn.
const PATIENCE: u64 = 60;

/// A sender's connection. It ends between two messages where the gateway ends. A message that is long is read on once it has a turn.
#[derive(Drop)]
pub(crate) struct Sent<'a, 'f, J: Naming, S: Storage + Drop, R: Wait> {
    hub: &'a Hub<'f, J, S, R>,
    stream: &'a TcpStream,
    came: &'a Came,
    stand: Stand,
    framing: Framing,
    silent: u64,
    // since when it has a turn
    turn: Option<Instant>,
}

impl<'a, 'f, J: Naming, S: Storage + Drop, R: Wait + Clock + Eprint> Sent<'a, 'f, J, S, R> {
    pub(crate) fn new(
        alloc: Global,
        hub: &'a Hub<'f, J, S, R>,
        sender: &'a Sender,
        came: &'a Came,
    ) -> Self {
        let stream = &sender.stream;
        let _ = stream.set_read_timeout(Some(Duration::from_millis(LOOK)));
        Sent {
            hub,
            stream,
            came,
            stand: Stand::new(alloc),
            framing: Framing::new(sender.number),
            silent: 0,
            turn: None,
        }
    }

    /// The beginning of the message that the session was about to get.
    pub(crate) fn beginning(&self) -> &[u8] {
        self.stand.beginning()
    }

    /// Has no turn any more.
    pub(crate) fn give_turn(&mut self) {
        if self.turn.is_some() {
            self.turn = None;
            self.hub.give_turn();
        }
    }

    // Waits for a turn. False: the gateway ends.
    fn wait_for_turn(&self) -> bool {
        for _ in self.hub.rt.forever() {
            if self.hub.take_turn() {
                return true;
            }
            if self.hub.has_ended() {
                return false;
            }
            pause(self.hub.rt);
        }
        unreachable!()
    }

    // Has a turn, where the message is long. Whoever has one for long, while others wait, is not waited for.
    fn take_turn(&mut self) -> io::Result<()> {
        let rt = self.hub.rt;
        let Some(since) = self.turn else {
            if self.stand.size < FREE {
                return Ok(());
            }
            self.hub.waiting.fetch_add(1, Ordering::SeqCst);
            let has_turn = self.wait_for_turn();
            self.hub.waiting.fetch_sub(1, Ordering::SeqCst);
            if has_turn {
                self.turn = Instant::now(rt).ok();
                return Ok(());
            }
            return Err(Error::from(ErrorKind::TimedOut));
        };
        if since.elapsed(rt)?.as_secs() >= PATIENCE && self.hub.waiting.load(Ordering::SeqCst) > 0 {
            return Err(Error::from(ErrorKind::TimedOut));
        }
        Ok(())
    }

    // Nothing came in time. False: the session ends here.
    fn goes_on(&mut self) -> io::Result<bool> {
        self.framing.wait(self.hub.rt);
        let has_ended = self.hub.has_ended();
        if !self.stand.is_within {
            self.silent = 0;
            return Ok(!has_ended);
        }
        self.silent = self.silent.saturating_add(LOOK);
        let most = if has_ended { LAST } else { SILENCE };
        if self.silent >= most {
            return Err(Error::from(ErrorKind::TimedOut));
        }
        Ok(true)
    }
}

impl<J: Naming, S: Storage + Drop, R: Wait + Clock + Eprint> Read for Sent<'_, '_, J, S, R> {
    fn read(&mut self, buf: &mut [u8]) -> io::Result<usize> {
        if !self.stand.is_within {
            // (what came before is answered)
            self.give_turn();
            if self.hub.has_ended() {
                return Ok(0);
            }
        }
        self.take_turn()?;
        for _ in 0..u64::MAX {
            let mut stream = self.stream;
            match stream.read(buf) {
                Ok(0) => {
                    self.framing.end(self.hub.rt);
                    return Ok(0);
                }
                Ok(count) => {
                    self.silent = 0;
                    let count = count.min(buf.len());
                    self.framing.take(self.hub.rt, &buf[..count]);
                    self.came.add(&buf[..count]);
                    self.stand.take(&buf[..count])?;
                    return Ok(count);
                }
                Err(error) if error.kind() == ErrorKind::WouldBlock => {
                    if !self.goes_on()? {
                        return Ok(0);
                    }
                }
                Err(error) if error.kind() == ErrorKind::Interrupted => {}
                Err(error) => return Err(error),
            }
        }
        Ok(0)
    }
}
