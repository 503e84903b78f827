//! Who is asked at each rotation whether the standby goes on, or is promoted.
ghost use Rattle.std.specs.Prelude.{ℕ};
ghost use Rattle.nn_lane_standby.specs.Tailing.{Standby};
ghost use Rattle.nn_drive.specs.declared.operator.Request.{Request as Requested};

use nn_lane_standby::Standby;

/// What an operator requests.
#[derive(Clone, Copy, Debug, PartialEq, Eq)]
pub enum Request {
    /// That the standby goes on.
    GoOn,
    /// That it goes on, and forgets the history that it showed: its operator has done with it.
    Forget,
    /// That it goes on with messages alone: no step of the log is made until the operator is asked again. So the namespace stays
    /// as it is over a checkpoint that is written in parts, and no message waits for that. `Checkpointing` requests so.
    Hold,
    /// Both: that it forgets the history, and that the log is held.
    ForgetAndHold,
    /// That it is promoted now.
    Promote,
}

/// Is asked once each rotation, and lent the standby: it may look at all that this shows, and write a checkpoint with a
/// writer of its own. The standby does nothing while it is asked.
///
/// A standby keeps each event that it shows until its operator requests that it be forgotten. So who serves for long is shown
/// the events since it requested that last, writes down or counts what it wants of them, and answers `Forget`.
pub trait Operator {
    /// `asks o x n w p`: an `ask` of an operator in the state o about the standby x, while n workers were counted as
    /// running, may answer w and leave it in the state p.
    ghost asks: { Self → Standby → ℕ → Requested → Self → Type 0 };

    /// What it requests now. `running` is how many workers were not yet seen to have ended.
    fn ask(&mut self, standby: &Standby, running: usize) -> Request
        ensures { asks self.old standby.now running result self.new };
}

/// Requests a promotion once no worker runs any more, and never that a history be forgotten or the log be held.
#[derive(Clone, Copy, Debug)]
pub struct Unattended;

impl Operator for Unattended {
    ghost use Rattle.std.specs.Prelude.{◌≡◌, ◌≢◌};
    ghost use Rattle.nn_drive.specs.declared.operator.Request.TheVariants.{GoOn, Promote};

    ghost asks = { λ o x n w p. (w ≡ Promote → n ≡ 0) × (n ≡ 0 → w ≡ Promote) × (w ≢ Promote → w ≡ GoOn) };

    fn ask(&mut self, _standby: &Standby, running: usize) -> Request {
        if running == 0 {
            return Request::Promote;
        }
        Request::GoOn
    }
}
