//! The texts that a command reads.
use crate::ended::Ended;
use gw_stream::RunFault;
use std::fs::File;
use std::io::{ErrorKind, Read};
use std::rt::Files;

/// One byte more than the longest text that can be lawful: a plan's.
const MOST: u64 = 4_194_305;

/// The bytes of a file, or the first of them where there are more than any text may have.
pub(crate) fn read_text<'a, R: Files + AllocGlobal>(
    rt: &R,
    path: &'a str,
) -> Result<Vec<u8>, Ended<'a>> {
    let Ok(file) = File::open(rt, path) else {
        return Err(Ended::Unread { path });
    };
    match read_all(rt, file.take(MOST)) {
        Ok(text) => Ok(text),
        Err(RunFault::Read) => Err(Ended::Unread { path }),
        Err(fault) => Err(Ended::Run(fault)),
    }
}

/// All bytes of a reader.
pub(crate) fn read_all<R: AllocGlobal, I: Read + Drop>(
    rt: &R,
    mut reader: I,
) -> Result<Vec<u8>, RunFault> {
    let mut text = Vec::new(rt.alloc());
    match reader.read_to_end(&mut text) {
        Ok(_) => Ok(text),
        Err(error) if error.kind() == ErrorKind::OutOfMemory => Err(RunFault::Memory),
        Err(_) => Err(RunFault::Read),
    }
}
