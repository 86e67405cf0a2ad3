//! A message that is too long: it is answered AR where its first segment came, before its connection ends.
use crate::came::Came;
use crate::framing::{CR, VT};
use crate::gateway::hub::Hub;
use crate::gateway::refusals::Logged;
use crate::gateway::senders::Sender;
use crate::stamps::Utc;
use gw_ack::{Header, INTERNAL, Reply, answer};
use gw_er7::{ReadFault, read};
use gw_journal::{Naming, Storage};
use gw_mllp::{is_content, write_block};
use gw_run::Clock as Stamps;
use memchr::memchr;
use std::alloc::{AllocError, Global};
use std::io::{Eprint, ErrorKind, Read, Write};
use std::net::{Shutdown, TcpStream};
use std::sync::Wait;
use std::time::{Clock, Duration, Instant};

/// For how many milliseconds at most what its sender still sends is read, and how long one read may take.
const PATIENCE: u64 = 2_000;

const LOOK: u64 = 20;

/// How many bytes are read at once.
const PIECE: usize = 65_536;

/// The first segment of the message that begins in these bytes, with its CR, if it came.
fn first_segment(bytes: &[u8]) -> Option<&[u8]> {
    let (_, message) = bytes.split_at_checked(memchr(VT, bytes)?.saturating_add(1))?;
    let (segment, _) = message.split_at_checked(memchr(CR, message)?.saturating_add(1))?;
    Some(segment)
}

/// The header of the message that begins in these bytes, if its first segment came and can be read.
fn header_in(alloc: Global, bytes: &[u8]) -> Result<Option<Header>, AllocError> {
    let Some(segment) = first_segment(bytes) else {
        return Ok(None);
    };
    match read(alloc, segment) {
        Ok(message) => Ok(Some(Header::of(alloc, &message)?)),
        Err(ReadFault::Memory) => Err(AllocError),
        Err(_) => Ok(None),
    }
}

/// The block of the answer AR to the message with this header, under this number.
fn block_of<J: Naming, S: Storage + Drop, R: Wait + Clock>(
    hub: &Hub<'_, J, S, R>,
    alloc: Global,
    header: &Header,
    number: u64,
) -> Result<Vec<u8>, AllocError> {
    let stamp = Utc::new(hub.rt, hub.start).stamp();
    let content = answer(alloc, header, stamp, number, Reply::Reject(INTERNAL))?;
    let mut block = Vec::new(alloc);
    if is_content(&content) {
        write_block(&mut block, &content)?;
    }
    Ok(block)
}

/// Reads what a sender still sends. If bytes were left unread, the system would drop the answer with them.
fn read_rest<J: Naming, S: Storage + Drop, R: Wait + Clock>(
    hub: &Hub<'_, J, S, R>,
    stream: &TcpStream,
) {
    let _ = stream.set_read_timeout(Some(Duration::from_millis(LOOK)));
    let Ok(begun) = Instant::now(hub.rt) else {
        return;
    };
    let mut piece = [0u8; PIECE];
    let mut reader = stream;
    for _ in 0..u64::MAX {
        match begun.elapsed(hub.rt) {
            Ok(passed) if passed < Duration::from_millis(PATIENCE) && !hub.has_ended() => {}
            _ => return,
        }
        match reader.read(&mut piece) {
            Ok(0) => return,
            Err(error) if error.kind() != ErrorKind::WouldBlock => return,
            _ => {}
        }
    }
}

/// Answers the message that begins in these bytes AR under this number, if its header came. Nothing is sent to this sender any more.
pub(crate) fn reject<J: Naming, S: Storage + Drop, R: Wait + Clock + Eprint + AllocGlobal>(
    hub: &Hub<'_, J, S, R>,
    sender: &Sender,
    bytes: &[u8],
    number: u64,
) -> Result<(), AllocError> {
    let stream = &sender.stream;
    let alloc = hub.rt.alloc();
    let Some(header) = header_in(alloc, bytes)? else {
        return Ok(());
    };
    let block = block_of(hub, alloc, &header, number)?;
    let came = Came::new(alloc, true);
    let mut writer = Logged::new(alloc, hub, sender, &came);
    if writer.write_all(&block).is_ok() {
        let _ = stream.shutdown(Shutdown::Write);
        read_rest(hub, stream);
    }
    Ok(())
}
