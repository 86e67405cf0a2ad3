//! Forwarders: each sends one receiver what is due to it, over a connection that is made anew whenever it ends.
ghost use Rattle.std.specs.Prelude.{◌≡◌, false};

use crate::gateway::hub::Hub;
use crate::gateway::lines::Line;
use crate::gateway::links::{Answers, Records, connect};
use crate::heard::{Ears, Unacknowledged};
use crate::noted::address_in;
use crate::runtime::Runtime;
use crate::sockets::is_ended;
use crate::stamps::Utc;
use gw_ack::Ack;
use gw_delivery::{Line as Forwarded, PageFault, Pending, forward_due};
use gw_folder::FolderView;
use gw_forward::{Ended, ForwardFault, Outbox, OutboxFault};
use gw_journal::{Naming, Storage};
use gw_stream::{Reads, RunFault, Sink, Source, Writes};
use std::alloc::{AllocError, Global};
use std::cell::Cell;
use std::io::Eprint;
use std::net::{Net, TcpListener, TcpStream};
use std::sync::atomic::Ordering;
use std::sync::{Arc, Wait};
use std::thread;
use std::time::{Clock, Duration};

/// The most seconds between two tries.
const LONGEST: u64 = 60;

/// A line, as its forwarder sees it, and its connection. `is_over`: no more is sent over that.
#[derive(Drop)]
struct Here<'a, 'f, J: Naming, S: Storage + Drop, R: Wait> {
    hub: &'a Hub<'f, J, S, R>,
    line: &'a Line,
    stream: Cell<Option<Arc<TcpStream>>>,
    is_over: Cell<bool>,
    waited: Cell<bool>,
    ears: Cell<Ears>,
}

impl<J: Naming, S: Storage + Drop, R: Wait + AllocGlobal + Clock + Eprint> Forwarded
    for Here<'_, '_, J, S, R> {
    fn has_ended(&self) -> bool {
        self.is_over.get() || self.hub.has_ended() || self.line.stand(self.hub.rt).over.is_some()
    }

    fn is_held(&self) -> bool {
        self.hub.is_full.load(Ordering::SeqCst) || self.line.stand(self.hub.rt).is_held
    }

    // (the receiver may end its connection meanwhile)
    fn wait(&self) {
        self.line.wait(self.hub.rt);
        self.waited.set(true);
        let stream = self.stream.replace(None);
        if let Some(stream) = &stream
            && is_ended(stream)
        {
            self.is_over.set(true);
        }
        self.stream.set(stream);
    }

    // (of each message that is acknowledged one block is taken)
    fn count(&self, ack: Ack) -> Vec<u8> {
        let alloc = self.hub.rt.alloc();
        let mut ears = self.ears.replace(Ears::new(alloc));
        let block = ears.next_block();
        self.ears.set(ears);
        let answer = match block {
            Some(block) => block,
            None => Vec::new(alloc),
        };
        self.line.count(self.hub.rt, ack, &answer);
        answer
    }

    // (a receiver that the plan lacks is sent what is left, and then no more)
    fn stands(&self, left: u64, is_next: bool) {
        self.line.set_left(self.hub.rt, left, is_next);
        if left == 0 && !self.line.stand(self.hub.rt).is_planned {
            self.is_over.set(true);
        }
    }

    fn taken(&self) {}

    fn refused(&self, place: u64, why: Ack) {
        let name = self.line.name.escape_ascii();
        let answered = match why {
            Ack::AE => "answered AE",
            _ => "answered AR three times",
        };
        let folder = &self.hub.folder.path;
        let _ = eprintln!(self.hub.rt;
            "receiver {name} {answered}: the message is at place {place} of the log in {folder}"
        );
    }

    fn unsendable(&self, place: u64, fault: Option<PageFault>) {
        let name = self.line.name.escape_ascii();
        let folder = &self.hub.folder.path;
        let _ = match fault {
            Some(fault) => eprintln!(self.hub.rt;
                "receiver {name} isn't sent the message at place {place} of the log in {folder}: {fault}"
            ),
            None => eprintln!(self.hub.rt;
                "receiver {name} isn't sent the message at place {place} of the log in {folder}: no block can have it"
            ),
        };
    }

    fn failed(&self, fault: PageFault) {
        let name = self.line.name.escape_ascii();
        let _ = eprintln!(self.hub.rt;
            "receiver {name}: {fault}\n{}: see hl7gate log",
            self.hub.folder.path
        );
    }
}

/// A forwarder: of whom, how many seconds it waits before the next try, and whether the last one failed.
#[derive(Drop)]
struct Forwarder<'a, 'f, J: Naming, S: Storage + Drop, R: Wait> {
    here: &'a Here<'a, 'f, J, S, R>,
    sent: &'a Cell<bool>,
    pause: u64,
    is_down: bool,
}

impl<
    J: Naming,
    S: Storage + Drop,
    R: Runtime + Wait + Net<Stream = TcpStream, Listener = TcpListener>,
> Forwarder<'_, '_, J, S, R> {
    // Waits before the next try; each time twice as long.
    fn wait(&mut self) {
        let Here { hub, line, .. } = self.here;
        for _fifth in 0..self.pause.saturating_mul(5) {
            if hub.has_ended() || line.take_hurry(hub.rt) {
                break;
            }
            thread::sleep(hub.rt, Duration::from_millis(200));
        }
        self.pause = self.pause.saturating_mul(2).clamp(1, LONGEST);
    }

    // Where the receiver is, if it is one of the plan, or something is left for it.
    fn address(&self) -> Result<Option<Vec<u8>>, AllocError> {
        let Here { hub, line, .. } = self.here;
        let is_planned = line.stand(hub.rt).is_planned;
        let office = hub.journal.lock(hub.rt);
        let receivers = office.ledger.state().receivers();
        address_in(hub.rt.alloc(), receivers, line.number, is_planned)
    }

    // Sends what waits over this connection, as far as that goes. What came of it, and whether it can't be written any more.
    fn send_once<O: Due>(
        &self,
        outbox: &mut O,
        stream: &TcpStream,
    ) -> (Result<Ended, ForwardFault>, bool) {
        let Here { hub, line, .. } = self.here;
        let alloc = hub.rt.alloc();
        self.here.ears.set(Ears::new(alloc));
        let mut reader = Reads::new(Answers {
            hub,
            line,
            stream,
            alloc,
            ears: &self.here.ears,
        });
        let mut writer = Writes::new(Records {
            hub,
            line,
            stream,
            sent: self.sent,
            waited: &self.here.waited,
            is_new: true,
        });
        let ended = outbox.send(alloc, &mut reader, &mut writer);
        (ended, writer.failed())
    }

    // Sends what waits over this connection, until it ends. False: nothing more is sent.
    fn send_over<O: Due>(&mut self, outbox: &mut O, stream: &TcpStream) -> bool {
        for _ in self.here.hub.rt.forever() {
            let before = outbox.count();
            let (ended, has_failed) = self.send_once(outbox, stream);
            let taken = outbox.count().saturating_sub(before);
            if taken > 0 {
                self.pause = 0;
            }
            match ended {
                Ok(Ended::Closed) => return self.closed(),
                Ok(Ended::Again) => {
                    self.pause = self.pause.max(1);
                    self.wait();
                }
                Err(ForwardFault::Record { .. }) => match outbox.put_aside() {
                    Ok(()) => {}
                    Err(OutboxFault::Memory) => return self.ended_by(ForwardFault::Memory, None),
                    Err(_) => return self.ended_by(ForwardFault::Disk, None),
                },
                Err(fault) => {
                    let heard = if has_failed { None } else { Some(taken) };
                    return self.ended_by(fault, heard);
                }
            }
        }
        unreachable!()
    }

    // Reports that a connection ended, and why.
    fn say(&self, said: &str, why: &str) {
        let Here { hub, line, .. } = self.here;
        let name = line.name.escape_ascii();
        let _ = eprintln!(hub.rt; "receiver {name} {said}{why}; it is connected anew");
    }

    // Nothing more is sent over a connection, though nothing failed. False: nor over another.
    fn closed(&mut self) -> bool {
        let Here { hub, line, .. } = self.here;
        if hub.has_ended() {
            return false;
        }
        let stand = line.stand(hub.rt);
        if stand.is_planned && stand.over.is_none() {
            self.say("ended its connection", "");
        }
        self.pause = self.pause.min(1);
        true
    }

    // Why the message behind as many isn't acknowledged. None: it can't be written.
    fn why(&self, taken: Option<u64>) -> Unacknowledged {
        let Here { hub, line, .. } = self.here;
        let ears = self.here.ears.replace(Ears::new(hub.rt.alloc()));
        match taken {
            _ if line.stand(hub.rt).over.is_some() => Unacknowledged::PassedOver,
            Some(taken) => ears.why(hub.rt.alloc(), taken.saturating_add(1)),
            None => Unacknowledged::Unwritten,
        }
    }

    // A connection, or what waits for its receiver, has failed. False: nothing more is sent.
    fn ended_by(&mut self, fault: ForwardFault, taken: Option<u64>) -> bool {
        let Here { hub, line, .. } = self.here;
        if hub.has_ended() {
            return false;
        }
        match fault {
            ForwardFault::Disk => {
                hub.fail(RunFault::Write);
                return false;
            }
            ForwardFault::Memory => {
                let name = line.name.escape_ascii();
                let _ = eprintln!(hub.rt; "receiver {name}: out of memory; it goes on");
            }
            _ if self.sent.get() => {
                let words = self.why(taken).words();
                self.say("did not acknowledge a message: ", words);
            }
            _ => self.say("ended its connection", ""),
        }
        true
    }

    // Sends over a connection, which the line keeps meanwhile. False: nothing more is sent.
    fn go_over<O: Due>(&mut self, outbox: &mut O, stream: TcpStream) -> Result<bool, AllocError> {
        let Here { hub, line, .. } = self.here;
        let stream = Arc::new(hub.rt.alloc(), stream)?;
        self.here.stream.set(Some(stream.clone()?));
        self.here.is_over.set(false);
        self.here.waited.set(true);
        line.set_connected(hub.rt, true);
        let after = self.send_over(outbox, &stream);
        line.set_connected(hub.rt, false);
        self.here.stream.set(None);
        Ok(after)
    }

    // Passes over what is first, where that is asked for and it is still the same. There is no connection meanwhile.
    fn pass_over<O: Due>(&mut self, outbox: &mut O) {
        let Here { hub, line, .. } = self.here;
        let Some(over) = line.take_over(hub.rt) else {
            return;
        };
        let is_full = hub.is_full.load(Ordering::SeqCst);
        let place = if !is_full && hub.first_of(line.number) == Some(over.from) {
            match outbox.pass_over(over.is_parked) {
                Ok(place) => place,
                Err(OutboxFault::Disk) => {
                    hub.fail(RunFault::Write);
                    None
                }
                Err(_) => None,
            }
        } else {
            None
        };
        line.set_passed(hub.rt, place);
    }

    // Reports whether the receiver is connected. That it isn't is reported once.
    fn tell(&mut self, address: &[u8], is_connected: bool) {
        let Here { hub, line, .. } = self.here;
        let (name, at) = (line.name.escape_ascii(), address.escape_ascii());
        if is_connected {
            let _ = eprintln!(hub.rt; "receiver {name} at {at} connected");
        } else if !self.is_down {
            let _ = eprintln!(hub.rt;
                "receiver {name} can't be connected; it is tried until it is\n{at}: can't be connected"
            );
        }
        self.is_down = !is_connected;
    }

    // Connects to this address once, and sends. False: nothing more is sent.
    fn send_to<O: Due>(&mut self, outbox: &mut O, address: &[u8]) -> bool {
        let Here { hub, line, .. } = self.here;
        let connected = connect(hub.rt, address);
        self.tell(address, connected.is_some());
        let Some(stream) = connected else {
            return true;
        };
        if self.sent.get() {
            let name = line.name.escape_ascii();
            let _ = eprintln!(hub.rt;
                "receiver {name}: a message is sent that it may have already: it wasn't acknowledged"
            );
        }
        self.go_over(outbox, stream).unwrap_or(true)
    }

    // Connects, sends, and connects anew, until nothing more is sent.
    fn run<O: Due>(&mut self, outbox: &mut O) {
        let Here { hub, line, .. } = self.here;
        line.set_connected(hub.rt, false);
        for _ in hub.rt.forever() {
            if hub.has_ended() {
                return;
            }
            self.pass_over(outbox);
            let Ok(Some(address)) = self.address() else {
                line.wait(hub.rt);
                continue;
            };
            if !self.send_to(outbox, &address) {
                return;
            }
            self.wait();
        }
    }
}

/// What is due to a receiver: it is sent over a connection, and a record that can't be sent is put aside.
trait Due {
    fn count(&self) -> u64;

    fn send<I: Source, W: Sink>(
        &mut self,
        alloc: Global,
        reader: &mut I,
        writer: &mut W,
    ) -> Result<Ended, ForwardFault>
        requires reads { I.has_failed reader.old ≡ false }
        requires writes { W.has_failed writer.old ≡ false };

    fn put_aside(&mut self) -> Result<(), OutboxFault>;

    fn pass_over(&mut self, is_parked: bool) -> Result<Option<u64>, OutboxFault>;
}

impl<
    J: Naming,
    S: Storage + Drop,
    V: gw_log::Calls + Drop,
    R: Wait,
    L: Forwarded,
    T: gw_gateway::Times,
> Due for Pending<'_, J, S, V, R, L, T> {
    fn count(&self) -> u64 {
        Outbox::count(self)
    }

    fn send<I: Source, W: Sink>(
        &mut self,
        alloc: Global,
        reader: &mut I,
        writer: &mut W,
    ) -> Result<Ended, ForwardFault> {
        forward_due(alloc, self, reader, writer)
    }

    fn put_aside(&mut self) -> Result<(), OutboxFault> {
        Pending::put_aside(self)
    }

    fn pass_over(&mut self, is_parked: bool) -> Result<Option<u64>, OutboxFault> {
        if !self.look()? {
            return Ok(None);
        }
        Ok(Some(Pending::pass_over(self, is_parked)?))
    }
}

/// Sends a receiver what is due to it. False: the log's folder can't be opened now.
fn forward_by<
    J: Naming,
    S: Storage + Drop,
    R: Runtime + Wait + Net<Stream = TcpStream, Listener = TcpListener>,
>(hub: &Hub<'_, J, S, R>, line: &Line) -> bool {
    let alloc = hub.rt.alloc();
    let path = hub.folder.path.as_str();
    let Ok(view) = FolderView::beside(hub.rt, path) else {
        return false;
    };
    let Ok(other) = FolderView::beside(hub.rt, path) else {
        return false;
    };
    // (what is left from before the start may have been sent then)
    let sent = Cell::new(hub.taken.load(Ordering::SeqCst) == 0 && hub.left_for(line.number) > 0);
    let here = Here {
        hub,
        line,
        stream: Cell::new(None),
        is_over: Cell::new(false),
        waited: Cell::new(true),
        ears: Cell::new(Ears::new(alloc)),
    };
    let times = Utc::new(hub.rt, hub.start);
    let mut outbox = Pending::new(
        hub.rt,
        alloc,
        &hub.journal,
        &hub.plans,
        &here,
        &times,
        (view, other),
        line.number,
        &line.name,
        &sent,
    );
    let mut forwarder = Forwarder {
        here: &here,
        sent: &sent,
        pause: 1,
        is_down: false,
    };
    forwarder.run(&mut outbox);
    true
}

/// Sends a receiver what is due to it, until the gateway ends.
pub(crate) fn forward_all<
    J: Naming,
    S: Storage + Drop,
    R: Runtime + Wait + Net<Stream = TcpStream, Listener = TcpListener>,
>(hub: &Hub<'_, J, S, R>, line: Arc<Line>) {
    for _ in hub.rt.forever() {
        if hub.has_ended() || forward_by(hub, &line) {
            return;
        }
        line.wait(hub.rt);
    }
}
