//! Connections of senders and to receivers, as `serve` and `gateway` make them.
use crate::ended::Ended;
use clap::ArgMatches;
use libc::gethostname;
use libc::net::{
    IPPROTO_TCP, SO_KEEPALIVE, SO_RCVTIMEO, SOL_SOCKET, TCP_KEEPIDLE, TCP_USER_TIMEOUT, setsockopt,
};
use std::alloc::{AllocError, Global};
use std::io::{Eprint, ErrorKind};
use std::net::{Net, TcpListener, TcpStream, ToSocketAddrs};
use std::os::fd::{AsRawFd, RawFd};
use std::thread;
use std::time::{Clock, Duration};

/// How many milliseconds nothing is accepted behind a connection that can't be taken: no descriptor may be free.
const PAUSE: u64 = 100;

/// After how many milliseconds without an acknowledgment of the other end's system a connection is given up.
const VANISHED: u32 = 60_000;

/// For how many seconds nothing comes before a silent peer is asked whether it is there.
const IDLE: u32 = 60;

/// For how many microseconds a listener waits before the gateway is looked at.
const LOOK: u32 = 250_000;

/// The listener at the address ADDRESS.
pub(crate) fn listen<'a, R: Net<Stream = TcpStream, Listener = TcpListener> + Eprint>(
    rt: &R,
    words: &ArgMatches<'a>,
) -> Result<TcpListener, Ended<'a>> {
    let address = words.get_str("ADDRESS").unwrap_or("");
    let Ok(listener) = TcpListener::bind(rt, address) else {
        return Err(Ended::Unheard { address });
    };
    if let Ok(at) = listener.local_addr() {
        let _ = eprintln!(rt; "listening on {at}");
    }
    Ok(listener)
}

/// Waits behind a connection that can't be taken.
pub(crate) fn pause<R: Clock>(rt: &R) {
    thread::sleep(rt, Duration::from_millis(PAUSE));
}

/// The connection to this address, HOST:PORT. Each place of the host has this time, where one is given.
pub(crate) fn connect<R: Net<Stream = TcpStream, Listener = TcpListener>>(
    rt: &R,
    address: &[u8],
    time: Option<Duration>,
) -> Option<TcpStream> {
    let Ok(address) = str::from_utf8(address) else {
        return None;
    };
    let Ok(places) = address.to_socket_addrs(rt) else {
        return None;
    };
    for place in places {
        let made = match time {
            Some(time) => TcpStream::connect_timeout(rt, &place, time),
            None => TcpStream::connect(rt, place),
        };
        if let Ok(stream) = made {
            let _ = stream.set_nodelay(true);
            return Some(stream);
        }
    }
    None
}

/// The bytes of a socket's option: numbers of four bytes, at 0 and at 8.
fn option_of(first: u32, second: u32) -> [u8; 16] {
    let mut bytes = [0u8; 16];
    bytes[..4].copy_from_slice(&first.to_ne_bytes());
    bytes[8..12].copy_from_slice(&second.to_ne_bytes());
    bytes
}

/// Has the system ask a silent peer each minute, and give a connection up whose peer has vanished.
pub(crate) fn watch(stream: &TcpStream) {
    let fd = stream.as_raw_fd();
    let (on, idle, time) = (option_of(1, 0), option_of(IDLE, 0), option_of(VANISHED, 0));
    let _kept = unsafe { setsockopt(fd, SOL_SOCKET, SO_KEEPALIVE, &on, 4) };
    let _asked = unsafe { setsockopt(fd, IPPROTO_TCP, TCP_KEEPIDLE, &idle, 4) };
    let _timed = unsafe { setsockopt(fd, IPPROTO_TCP, TCP_USER_TIMEOUT, &time, 4) };
}

/// Has a listener wait for a quarter of a second at most.
pub(crate) fn listen_briefly(fd: RawFd) {
    let time = option_of(0, LOOK);
    let _timed = unsafe { setsockopt(fd, SOL_SOCKET, SO_RCVTIMEO, &time, 16) };
}

/// Whether the other end has ended a connection, or it has failed. Nothing is waited for.
pub(crate) fn is_ended(stream: &TcpStream) -> bool {
    let mut byte = [0u8; 1];
    if stream.set_nonblocking(true).is_err() {
        return true;
    }
    let looked = stream.peek(&mut byte);
    if stream.set_nonblocking(false).is_err() {
        return true;
    }
    match looked {
        Ok(count) => count == 0,
        Err(error) => error.kind() != ErrorKind::WouldBlock,
    }
}

/// The most bytes of a machine's name, with the 0 behind it.
const NAME: usize = 256;

/// The machine's name. It is empty where the system doesn't say it.
pub(crate) fn host_name(alloc: Global) -> Result<Vec<u8>, AllocError> {
    let mut name = [0u8; NAME];
    if gethostname(&mut name) != 0 {
        return Ok(Vec::new(alloc));
    }
    let end = name.iter().position(|byte| *byte == 0).unwrap_or(0);
    Vec::from_slice(alloc, name.get(..end).unwrap_or(&[]))
}

/// The address that a word means: without a host it is on this machine alone.
pub(crate) fn address_of(alloc: Global, word: &str) -> Result<String, AllocError> {
    if word.starts_with(':') {
        return format!(in alloc; "127.0.0.1{word}");
    }
    if word.bytes().all(|byte| byte.is_ascii_digit()) {
        return format!(in alloc; "127.0.0.1:{word}");
    }
    String::from_str(alloc, word)
}
