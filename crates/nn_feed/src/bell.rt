//! A bell: a word on which one thread sleeps until another one rings.
use std::fmt;
use std::sync::Wait;
use std::sync::atomic::{AtomicU64, Ordering};
use std::time::Duration;

const AWAKE: u64 = 0;

const DOZING: u64 = 1;

/// What one thread sleeps on, and others ring.
///
/// A thread that found nothing to do says that it dozes, looks once more, and then sleeps or gets up. Whoever brings
/// something brings it first and rings then. All these steps have one order. So the second look sees what was brought, or
/// whoever brought it sees that somebody dozes. Nothing is proved of it, and each sleep has a bound.
#[derive(Drop)]
pub struct Bell {
    word: AtomicU64,
}

// Whether somebody sleeps on it is known to nobody for long.
impl fmt::Debug for Bell {
    fn fmt<D: fmt::Write>(&self, f: &mut fmt::Formatter<D>) -> fmt::Result {
        f.debug_struct("Bell").finish_non_exhaustive()
    }
}

impl Bell {
    /// A bell on which nobody sleeps.
    pub const fn new() -> Bell {
        Bell {
            word: AtomicU64::new(AWAKE),
        }
    }

    /// Says that this thread is about to sleep.
    pub fn doze(&self) {
        self.word.store(DOZING, Ordering::SeqCst);
    }

    /// Says that it does not sleep after all.
    pub fn get_up(&self) {
        self.word.store(AWAKE, Ordering::SeqCst);
    }

    /// Sleeps until the bell is rung, and for so long at most: not at all if it was rung since `doze`.
    pub fn sleep<R: Wait>(&self, rt: &R, at_most: Duration) {
        self.word.park_timeout(rt, DOZING as u32, at_most);
        self.get_up();
    }

    /// Wakes whoever sleeps on it. Where nobody does, it costs a load.
    pub fn ring(&self) {
        let is_dozing = self.word.load(Ordering::SeqCst) == DOZING;
        if is_dozing && self.word.swap(AWAKE, Ordering::SeqCst) == DOZING {
            self.word.wake_one();
        }
    }
}
