//! How a worker waits while its lane is full.
use crate::bells::Bells;
use nn_feed::Bell;
use std::sync::Wait;
use std::time::Duration;

/// Where a worker sleeps while its lane is full, and whom it tells of its reports.
#[derive(Clone, Copy)]
pub(crate) struct Place<'b> {
    bell: &'b Bell,
    // None tells nobody, and nobody rings.
    among: Option<(&'b Bells, usize)>,
}

impl<'b> Place<'b> {
    /// The place of this worker among the bells.
    pub(crate) fn among(bell: &'b Bell, bells: &'b Bells, worker: usize) -> Place<'b> {
        Place {
            bell,
            among: Some((bells, worker)),
        }
    }

    /// A place at which nobody hears of anybody.
    pub(crate) fn alone(bell: &'b Bell) -> Place<'b> {
        Place { bell, among: None }
    }

    /// Something was reported.
    pub(crate) fn report(self) {
        if let Some((bells, worker)) = self.among {
            bells.report(worker);
        }
    }

    /// The lane is full. A worker that is rung sleeps for 10 milliseconds at first, and for 80 at most: a rotation over full
    /// lanes takes longer than the first. Another one sleeps for 20 microseconds, and for a millisecond at most.
    pub(crate) fn waiting(self) -> Waiting<'b> {
        let (micros, longest) = match self.among {
            Some(_) => (10_000, 80_000),
            None => (20, 1_000),
        };
        Waiting {
            bell: self.bell,
            is_dozing: false,
            micros,
            longest,
        }
    }
}

/// A worker at a full lane. It says that it dozes and looks once more, and only then does it sleep: until its bell is rung,
/// and for a time at most that doubles.
#[derive(Drop)]
pub(crate) struct Waiting<'b> {
    bell: &'b Bell,
    is_dozing: bool,
    // How long the next sleep is at most, and any, in microseconds.
    micros: u64,
    longest: u64,
}

impl<'b> Waiting<'b> {
    /// Dozes, or sleeps where it dozed before. To be called again and again, as long as the lane is full.
    pub(crate) fn wait<R: Wait>(&mut self, rt: &R) {
        if self.is_dozing {
            self.bell.sleep(rt, Duration::from_micros(self.micros));
            self.micros = self.micros.saturating_mul(2).min(self.longest);
        } else {
            self.bell.doze();
        }
        self.is_dozing = !self.is_dozing;
    }

    /// The lane is full no more.
    pub(crate) fn end(&self) {
        if self.is_dozing {
            self.bell.get_up();
        }
    }
}
