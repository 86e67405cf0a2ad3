//! The connection to a receiver: made, watched, written and read.
use crate::gateway::hub::Hub;
use crate::gateway::lines::Line;
use crate::heard::Ears;
use crate::sockets;
use crate::sockets::{is_ended, watch};
use gw_journal::{Naming, Storage};
use std::alloc::Global;
use std::cell::Cell;
use std::io;
use std::io::{Error, ErrorKind, Read, Write};
use std::net::{Net, TcpListener, TcpStream};
use std::sync::Wait;
use std::time::Duration;

/// How many seconds a connection may take to be made.
const CONNECT: u64 = 10;

/// How many seconds an acknowledgment may take, and a write.
const ANSWER: u64 = 60;

/// The connection to this address, HOST:PORT. It is watched, and each call of it has a second.
pub(crate) fn connect<R: Net<Stream = TcpStream, Listener = TcpListener>>(
    rt: &R,
    address: &[u8],
) -> Option<TcpStream> {
    let stream = sockets::connect(rt, address, Some(Duration::from_secs(CONNECT)))?;
    let second = Some(Duration::from_secs(1));
    let _ = stream.set_read_timeout(second);
    let _ = stream.set_write_timeout(second);
    watch(&stream);
    Some(stream)
}

/// What a receiver sends: acknowledgments, for each of which there is a minute.
#[derive(Drop)]
pub(crate) struct Answers<'a, 'f, J: Naming, S: Storage + Drop, R: Wait> {
    pub(crate) hub: &'a Hub<'f, J, S, R>,
    pub(crate) line: &'a Line,
    pub(crate) stream: &'a TcpStream,
    pub(crate) alloc: Global,
    pub(crate) ears: &'a Cell<Ears>,
}

impl<J: Naming, S: Storage + Drop, R: Wait> Answers<'_, '_, J, S, R> {
    fn note(&self, read: &io::Result<usize>, room: &[u8]) {
        let mut ears = self.ears.replace(Ears::new(self.alloc));
        ears.note(read, room);
        self.ears.set(ears);
    }
}

impl<J: Naming, S: Storage + Drop, R: Wait> Read for Answers<'_, '_, J, S, R> {
    fn read(&mut self, buf: &mut [u8]) -> io::Result<usize> {
        for _second in 0..ANSWER {
            let mut stream = self.stream;
            match stream.read(buf) {
                Err(error) if error.kind() == ErrorKind::WouldBlock => {}
                read => {
                    self.note(&read, buf);
                    return read;
                }
            }
            // (an acknowledgment that is due has had a second to come)
            if self.hub.has_ended() || self.line.stand(self.hub.rt).over.is_some() {
                break;
            }
        }
        let read = Err(Error::from(ErrorKind::TimedOut));
        self.note(&read, buf);
        read
    }
}

/// What a receiver is sent. `sent` is set where a byte of a message may have been written.
/// Before a message the connection is looked at: nothing is written to one that its receiver has ended.
#[derive(Drop)]
pub(crate) struct Records<'a, 'f, J: Naming, S: Storage + Drop, R: Wait> {
    pub(crate) hub: &'a Hub<'f, J, S, R>,
    pub(crate) line: &'a Line,
    pub(crate) stream: &'a TcpStream,
    pub(crate) sent: &'a Cell<bool>,
    /// Whether its forwarder has waited since the connection was looked at.
    pub(crate) waited: &'a Cell<bool>,
    /// No message was written yet.
    pub(crate) is_new: bool,
}

impl<J: Naming, S: Storage + Drop, R: Wait> Write for Records<'_, '_, J, S, R> {
    fn write(&mut self, buf: &[u8]) -> io::Result<usize> {
        if !self.sent.get() && self.waited.replace(false) && is_ended(self.stream) {
            return Err(Error::from(ErrorKind::BrokenPipe));
        }
        if self.is_new || !self.sent.get() {
            self.line.count_sent(self.hub.rt);
        }
        self.is_new = false;
        self.sent.set(true);
        for _second in 0..ANSWER {
            let mut stream = self.stream;
            match stream.write(buf) {
                Err(error) if error.kind() == ErrorKind::WouldBlock => {}
                written => return written,
            }
            if self.hub.has_ended() || self.line.stand(self.hub.rt).over.is_some() {
                break;
            }
        }
        Err(Error::from(ErrorKind::TimedOut))
    }

    fn flush(&mut self) -> io::Result<()> {
        Ok(())
    }
}
