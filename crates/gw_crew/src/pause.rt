//! What comes between a job and its result.

/// What a worker calls between a job and its result.
pub trait Pause {
    ghost use Rattle.std.specs.Prelude.{◌≡◌, Bool, not};

    /// Whether the last pause ended the worker.
    ghost has_stopped: { Self → Bool };

    /// Whether the last pause ended the worker. It takes no memory.
    fn stopped(&self) -> bool
        ensures { result ≡ has_stopped self.now };

    /// Pauses before the result for the message of this number. False ends the worker, which is no fault.
    fn pause(&mut self, n: u64) -> bool
        ensures { result ≡ not (has_stopped self.new) };
}
