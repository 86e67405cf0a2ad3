//! How sentences are written.
use std::alloc::AllocError;
use std::io;
use std::io::Write;

/// Writes a message; where it can't be written, nothing is done about it.
pub(crate) fn say<E: Write>(errors: &mut E, bytes: &[u8]) {
    let _ = errors.write_all(bytes);
}

/// What was written into memory. Only an allocation failure fails such a write.
pub(crate) fn in_memory(out: Vec<u8>, written: io::Result<()>) -> Result<Vec<u8>, AllocError> {
    match written {
        Ok(()) => Ok(out),
        Err(_) => Err(AllocError),
    }
}
