//! The gate of a run with threads: each of them comes to it once.
ghost use Rattle.std.specs.Prelude.{◌≡◌, true, false};

use std::alloc::Global;
use std::sync::Arc;

/// What each thread of a run passes: the source of segments before its first segment, each worker before its first report.
pub trait Gate {
    /// A thread comes to the gate, once: 0 is the source of segments, and from 1 on come the DataNodes.
    fn pass(&self, thread: u64);
}

/// A gate that is open.
#[derive(Debug, Drop)]
pub struct Open;

impl Gate for Open {
    fn pass(&self, _thread: u64) {}
}

/// The thread of the source of segments.
pub const SOURCE: u64 = 0;

/// The gate as one thread comes to it: once.
#[derive(Debug, Drop)]
pub struct GatePass<G> {
    gate: Arc<G, Global>,
    thread: u64,
    has_passed: bool,
}

impl<G> GatePass<G> {
    /// For a thread that has not passed yet.
    pub fn new(gate: Arc<G, Global>, thread: u64) -> GatePass<G>
        ensures { result ≡ record { gate = gate; thread = thread; has_passed = false } }
    {
        GatePass {
            gate,
            thread,
            has_passed: false,
        }
    }
}

impl<G: Gate> GatePass<G> {
    /// Passes the gate, at the first call. What a gate does no clause can say, and so not that it was passed.
    pub fn pass_once(&mut self)
        ensures { self.new ≡ record { gate = self.old.gate; thread = self.old.thread; has_passed = true } }
    {
        if self.has_passed {
            return;
        }
        self.has_passed = true;
        self.gate.pass(self.thread);
    }
}
