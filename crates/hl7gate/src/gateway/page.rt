//! The page, the metrics and the health of a gateway, over HTTP: a few connections at a time, each for five seconds at most.
use crate::arguments::VERSION;
use crate::ended::Ended;
use crate::gateway::hub::Hub;
use crate::gateway::lines::{Line, Stand};
use crate::noted::numbered;
use crate::refused::text_of;
use crate::sockets::{address_of, host_name, listen_briefly, pause};
use crate::stamps::{stamp_of, time_in};
use clap::ArgMatches;
use gw_due::Receiver as Noted;
use gw_journal::{Naming, Storage};
use gw_page::{Figures, Receiver, Seen, answer, status, status_json};
use gw_stream::RunFault;
use std::alloc::AllocError;
use std::hash::RandomState;
use std::io;
use std::io::{Eprint, Error, ErrorKind, Read, Write};
use std::net::{Net, Shutdown, TcpListener, TcpStream};
use std::os::fd::AsRawFd;
use std::random::RandomSource;
use std::sync::Wait;
use std::sync::atomic::Ordering;
use std::time::{Clock, Duration, Instant};

/// How many seconds a request and its answer may take, and how many the other end has to close its connection.
const PATIENCE: u64 = 5;

const CLOSE: u64 = 1;

/// How many connections are answered at once.
pub(crate) const SHOWN: u64 = 8;

/// How many milliseconds a read or a write waits before the gateway is looked at.
const LOOK: u64 = 200;

/// How many bytes that come behind a request are passed over at once, and how often.
const PIECE: usize = 4_096;

const PIECES: u64 = 256;

/// The listener of the page, and secret keys for its server.
#[derive(Drop)]
pub(crate) struct Pages {
    listener: TcpListener,
    keys: RandomState,
}

impl Pages {
    /// Listens at the address of `--status`, where the words have one.
    pub(crate) fn listen<
        'a,
        R: Net<Stream = TcpStream, Listener = TcpListener> + Eprint + RandomSource + AllocGlobal,
    >(rt: &R, words: &ArgMatches<'a>) -> Result<Option<Self>, Ended<'a>> {
        let Some(address) = words.get_str("status") else {
            return Ok(None);
        };
        let place = address_of(rt.alloc(), address)?;
        let Ok(listener) = TcpListener::bind(rt, place.as_str()) else {
            return Err(Ended::Unheard { address });
        };
        let Ok(keys) = RandomState::new(rt) else {
            return Err(Ended::Run(RunFault::Read));
        };
        if let Ok(at) = listener.local_addr() {
            let _ = eprintln!(rt; "status at http://{at}/");
        }
        Ok(Some(Pages { listener, keys }))
    }
}

/// The figures of a receiver: how its line stands, and what the log has of it.
fn receiver_of<R: Clock + AllocGlobal>(
    rt: &R,
    line: &Line,
    stand: &Stand,
    noted: &Noted,
) -> Result<Receiver, AllocError> {
    Ok(Receiver {
        name: Vec::from_slice(rt.alloc(), &line.name)?,
        address: Vec::from_slice(rt.alloc(), noted.address())?,
        is_connected: stand.is_connected,
        is_held: stand.is_held,
        down: stand.down(rt),
        waiting: noted.left(),
        oldest: stand.stuck(rt),
        sent: stand.sent,
        aa: stand.aa,
        ae: stand.ae,
        ar: stand.ar,
        refused: noted.refused(),
        lying: stand.lying,
        why: text_of(rt.alloc(), stand.why)?,
    })
}

/// Adds the figures of a line's receiver, where it is one of the plan, or something is left for it.
fn add_figures<R: Wait + Clock + AllocGlobal>(
    rt: &R,
    all: &mut Vec<Receiver>,
    line: &Line,
    noted: &[Noted],
) -> Result<(), AllocError> {
    let stand = line.stand(rt);
    if let Some(noted) = numbered(noted, line.number)
        && (stand.is_planned || noted.left() > 0)
    {
        all.push(receiver_of(rt, line, &stand, noted)?)?;
    }
    Ok(())
}

/// The figures of the receivers.
fn receivers_of<J: Naming, S: Storage + Drop, R: Wait + Clock + AllocGlobal>(
    hub: &Hub<'_, J, S, R>,
) -> Result<Vec<Receiver>, AllocError> {
    let mut all = Vec::new(hub.rt.alloc());
    let lines = hub.lines.all(hub.rt, hub.rt.alloc())?;
    let office = hub.journal.lock(hub.rt);
    for line in &lines {
        add_figures(hub.rt, &mut all, line, office.ledger.state().receivers())?;
    }
    Ok(all)
}

/// The figures of this moment.
fn figures_of<J: Naming, S: Storage + Drop, R: Wait + Clock + AllocGlobal>(
    hub: &Hub<'_, J, S, R>,
) -> Result<Figures, AllocError> {
    let entries = hub.journal.lock(hub.rt).ledger.state().next();
    let Seen {
        refusals,
        codes,
        refused,
    } = hub.watch.seen(hub.rt, hub.rt.alloc())?;
    Ok(Figures {
        version: Vec::from_slice(hub.rt.alloc(), VERSION.as_bytes())?,
        host: host_name(hub.rt.alloc())?,
        late: hub.late,
        time: time_in(stamp_of(hub.rt, None).unwrap_or(hub.start).digits()),
        plan: hub.taken.load(Ordering::SeqCst),
        accepted: hub.accepted.load(Ordering::SeqCst),
        refused,
        open: hub.open.load(Ordering::SeqCst),
        sessions: hub.sessions.load(Ordering::SeqCst),
        entries,
        bytes: hub.bytes.load(Ordering::SeqCst),
        is_short: hub.is_short.load(Ordering::SeqCst),
        has_failed: hub.fault().is_some(),
        receivers: receivers_of(hub)?,
        codes,
        refusals,
    })
}

/// How the gateway stands, to be read or as JSON.
pub(crate) fn state<J: Naming, S: Storage + Drop, R: Wait + Clock + AllocGlobal>(
    hub: &Hub<'_, J, S, R>,
    is_json: bool,
) -> Result<Vec<u8>, AllocError> {
    let figures = figures_of(hub)?;
    if is_json {
        return status_json(hub.rt.alloc(), &figures);
    }
    status(hub.rt.alloc(), &figures)
}

/// A connection that is read and written up to a moment, or until the gateway ends.
#[derive(Drop)]
struct Patient<'a, 'f, J: Naming, S: Storage + Drop, R: Wait> {
    hub: &'a Hub<'f, J, S, R>,
    stream: &'a TcpStream,
    since: Instant,
    patience: Duration,
}

impl<J: Naming, S: Storage + Drop, R: Wait + Clock> Patient<'_, '_, J, S, R> {
    fn is_over(&self) -> bool {
        match self.since.elapsed(self.hub.rt) {
            Ok(passed) => passed >= self.patience || self.hub.has_ended(),
            Err(_) => true,
        }
    }
}

impl<J: Naming, S: Storage + Drop, R: Wait + Clock> Read for Patient<'_, '_, J, S, R> {
    fn read(&mut self, buf: &mut [u8]) -> io::Result<usize> {
        for _ in 0..PATIENCE * 1_000 / LOOK {
            if self.is_over() {
                break;
            }
            let mut stream = self.stream;
            match stream.read(buf) {
                Err(error) if error.kind() == ErrorKind::WouldBlock => {}
                read => return read,
            }
        }
        Err(Error::from(ErrorKind::TimedOut))
    }
}

impl<J: Naming, S: Storage + Drop, R: Wait + Clock> Write for Patient<'_, '_, J, S, R> {
    fn write(&mut self, buf: &[u8]) -> io::Result<usize> {
        for _ in 0..PATIENCE * 1_000 / LOOK {
            if self.is_over() {
                break;
            }
            let mut stream = self.stream;
            match stream.write(buf) {
                Err(error) if error.kind() == ErrorKind::WouldBlock => {}
                written => return written,
            }
        }
        Err(Error::from(ErrorKind::TimedOut))
    }

    fn flush(&mut self) -> io::Result<()> {
        Ok(())
    }
}

/// A connection with this many seconds from now on.
fn limited<'a, 'f, J: Naming, S: Storage + Drop, R: Wait + Clock>(
    hub: &'a Hub<'f, J, S, R>,
    stream: &'a TcpStream,
    seconds: u64,
) -> io::Result<Patient<'a, 'f, J, S, R>> {
    Ok(Patient {
        hub,
        stream,
        since: Instant::now(hub.rt)?,
        patience: Duration::from_secs(seconds),
    })
}

/// Passes over what still comes, so that the answer isn't lost with it.
fn pass_over<J: Naming, S: Storage + Drop, R: Wait + Clock>(
    hub: &Hub<'_, J, S, R>,
    stream: &TcpStream,
) -> io::Result<()> {
    stream.shutdown(Shutdown::Write)?;
    let mut rest = limited(hub, stream, CLOSE)?;
    let mut piece = [0u8; PIECE];
    for _ in 0..PIECES {
        if rest.read(&mut piece)? == 0 {
            break;
        }
    }
    Ok(())
}

/// Answers one connection.
fn show<J: Naming, S: Storage + Drop, R: Wait + Clock + AllocGlobal>(
    hub: &Hub<'_, J, S, R>,
    keys: RandomState,
    stream: &TcpStream,
) -> io::Result<()> {
    let look = Some(Duration::from_millis(LOOK));
    stream.set_read_timeout(look)?;
    stream.set_write_timeout(look)?;
    stream.set_nodelay(true)?;
    let figures = figures_of(hub)?;
    let mut reader = limited(hub, stream, PATIENCE)?;
    let mut writer = limited(hub, stream, PATIENCE)?;
    answer(hub.rt.alloc(), keys, &figures, &mut reader, &mut writer)?;
    pass_over(hub, stream)
}

/// Answers one connection after another, until the gateway ends. Several threads do.
pub(crate) fn show_all<J: Naming, S: Storage + Drop, R: Wait + Clock + AllocGlobal>(
    hub: &Hub<'_, J, S, R>,
    pages: Option<&Pages>,
) {
    let Some(pages) = pages else {
        return;
    };
    listen_briefly(pages.listener.as_raw_fd());
    for _ in hub.rt.forever() {
        let accepted = pages.listener.accept();
        if hub.has_ended() {
            return;
        }
        match accepted {
            // (whoever doesn't take the answer has none)
            Ok((stream, _peer)) => drop(show(hub, pages.keys, &stream)),
            Err(error) if error.kind() == ErrorKind::WouldBlock => {}
            Err(_) => pause(hub.rt),
        }
    }
}
