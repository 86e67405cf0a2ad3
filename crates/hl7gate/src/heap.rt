//! The C library's heap, between two messages of a stream.

/// Once a block of this size was returned, the heap keeps up to twice as many freed bytes (mallopt(3), `M_MMAP_THRESHOLD` and `M_TRIM_THRESHOLD`).
const LARGE: usize = 1 << 24;

/// Has the heap keep the memory of one message for the next. Else it keeps 128 kB, and each message of more than some 20 kB takes its pages anew.
/// The block is never written, so it takes no page. An allocation failure leaves the heap as it is.
/// `serve` and `gateway` go without: they last, and keep no large message's memory.
pub(crate) fn keep_freed<R: AllocGlobal>(rt: &R) {
    let _ = Vec::<u8>::with_capacity(rt.alloc(), LARGE);
}
