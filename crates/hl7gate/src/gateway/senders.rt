//! Sessions: no answer goes out before what it answers is on the disk.
use crate::came::Came;
use crate::gateway::hub::Hub;
use crate::gateway::overlong::reject;
use crate::gateway::refusals::{Logged, TURN};
use crate::gateway::sent::Sent;
use crate::sockets::{pause, watch};
use crate::stamps::Utc;
use crate::threads::print_counts;
use gw_gateway::{AtLog, Bells, answer_sender};
use gw_journal::{Naming, Storage};
use gw_stream::{Counts, Handed, Reads, RunFault, Writes};
use std::io::{Eprint, ErrorKind};
use std::net::{SocketAddr, TcpListener, TcpStream};
use std::sync::Wait;
use std::sync::atomic::Ordering;
use std::time::{Clock, Duration};

/// A sender's connection, its number, from 1, and the address of its other end.
#[derive(Drop)]
pub(crate) struct Sender {
    pub(crate) number: u64,
    pub(crate) stream: TcpStream,
    pub(crate) peer: SocketAddr,
}

/// The forwarders' bells.
#[derive(Drop)]
struct Ringing<'a, 'f, J: Naming, S: Storage + Drop, R: Wait> {
    hub: &'a Hub<'f, J, S, R>,
}

impl<J: Naming, S: Storage + Drop, R: Wait + Clock> Bells for Ringing<'_, '_, J, S, R> {
    fn ring(&self, receiver: u32) {
        if let Some(line) = self.hub.lines.find(self.hub.rt, receiver) {
            line.ring(self.hub.rt);
        }
    }

    fn has_room(&self) -> bool {
        !self.hub.is_short.load(Ordering::SeqCst)
    }

    fn accepted(&self, count: u64) {
        self.hub.accepted.fetch_add(count, Ordering::SeqCst);
    }
}

/// Answers the messages of a connection, and gives the counts.
fn answer<J: Naming, S: Storage + Drop, R: Wait + AllocGlobal + Clock + Eprint>(
    hub: &Hub<'_, J, S, R>,
    sender: &Sender,
) -> Result<Counts, RunFault> {
    let alloc = hub.rt.alloc();
    let came = Came::new(alloc, false);
    let mut sent = Sent::new(alloc, hub, sender, &came);
    let clock = Utc::new(hub.rt, hub.start);
    let bells = Ringing { hub };
    let mut judge = AtLog::new(alloc, hub.rt, &hub.journal, clock, &bells);
    let mut writer = Handed::new(Writes::new(Logged::new(alloc, hub, sender, &came)));
    let mut reader = Reads::new(&mut sent);
    let answered = answer_sender(alloc, &mut judge, &mut reader, &mut writer);
    sent.give_turn();
    if let Err(RunFault::Frame(2)) = answered {
        let number = judge.number();
        reject(hub, sender, sent.beginning(), number)?;
    }
    answered
}

/// Answers the messages of a sender, up to the end of its connection.
pub(crate) fn attend<J: Naming, S: Storage + Drop, R: Wait + AllocGlobal + Clock + Eprint>(
    hub: &Hub<'_, J, S, R>,
    sender: Sender,
) {
    let number = sender.number;
    match answer(hub, &sender) {
        Ok(counts) => {
            print_counts(hub.rt, number, counts);
        }
        Err(RunFault::Withheld) => {
            let _ = eprintln!(hub.rt; "session {number} ended: its answers aren't on the disk");
            hub.fail(RunFault::Write);
        }
        Err(fault) => {
            let _ = eprintln!(hub.rt; "session {number} ended: fault {}: {fault}", fault.number());
        }
    }
    hub.leave();
}

/// Has a connection that was accepted be a session, where fewer than `most` are open.
fn welcome<J: Naming, S: Storage + Drop, R: Wait + Eprint>(
    hub: &Hub<'_, J, S, R>,
    stream: TcpStream,
    peer: SocketAddr,
    most: u64,
) -> Option<Sender> {
    let Some(number) = hub.admit(most) else {
        let _ = eprintln!(hub.rt;
            "a connection from {peer} was closed: {most} are open (--connections)"
        );
        return None;
    };
    let _ = eprintln!(hub.rt; "session {number} from {peer}");
    let _ = stream.set_nodelay(true);
    let _ = stream.set_write_timeout(Some(Duration::from_millis(TURN)));
    watch(&stream);
    Some(Sender {
        number,
        stream,
        peer,
    })
}

/// The next session, where at most as many connections are open. It is waited for a quarter of a second.
pub(crate) fn next_sender<J: Naming, S: Storage + Drop, R: Wait + Clock + Eprint>(
    hub: &Hub<'_, J, S, R>,
    listener: &TcpListener,
    most: u64,
) -> Option<Sender> {
    match listener.accept() {
        Ok((stream, peer)) => welcome(hub, stream, peer, most),
        Err(error) if error.kind() == ErrorKind::WouldBlock => None,
        Err(error) => {
            let _ = eprintln!(hub.rt; "a connection can't be accepted: {error}");
            pause(hub.rt);
            None
        }
    }
}
