//! The lanes: the next message of one, and all that is left of all.
ghost use Rattle.std.specs.Prelude.{◌≡◌, ◌<◌, length, Some, IfOk, IfErr, MatchOption};
ghost use Rattle.std.specs.List.{list_all};
ghost use Rattle.nn_shadow.specs.Contents.{standby_of};
ghost use Rattle.nn_shadow.specs.Refusals.{handed_as};
ghost use Rattle.nn_lane_standby.specs.Tailing.{undelivered_at};
ghost use Rattle.nn_lane_standby.specs.Public.{HasNoPlace, IsPlace};
ghost use Rattle.nn_lane_standby.specs.LaneSteps.{LaneFrame, LaneMoves, LanesFrame, AllClosed, CloseEnds, IsDrained, AreDrained, is_closed_lane};
ghost use Rattle.nn_lane_standby.specs.Parts.{IsLive, Fetches, FindsNone, HandsUndelivered, NotHanded};

use super::{Standby, Stepped};
use crate::fault::StepFault;
use nn_lane::{LaneEnd, Taken};
use nn_shadow::Handed;
use nn_types::Message;

impl Standby {
    // The place of a DataNode's lane.
    pub(super) fn place(&self, dn: u16) -> Option<usize>
        ensures { MatchOption result (HasNoPlace self.now dn) (λ i. IsPlace self.now dn i) }
    {
        if dn == 0 {
            return None;
        }
        let i = dn as usize - 1;
        if i < self.ends.len() { Some(i) } else { None }
    }

    // Takes the next message of a lane, unless one of it is undelivered, and notes it as undelivered.
    fn fetch(&mut self, i: usize) -> Result<Message, u64>
        requires { i < length self.old.ends }
        ensures ok { IfOk result (λ m. Fetches self.old i m self.new) }
        ensures err { IfErr result (λ accepted. FindsNone self.old i accepted self.new) }
    {
        if let Some(m) = self.undelivered[i] {
            return Ok(m);
        }
        match self.ends[i].take() {
            Taken::Message(m) => {
                let taken = m;
                self.undelivered[i] = Some(taken);
                Ok(m)
            }
            Taken::Empty { accepted } => Err(accepted),
        }
    }

    // Hands the undelivered message on.
    fn hand_undelivered(&mut self, i: usize, m: Message) -> Result<Handed, StepFault>
        requires live { IsLive self.old }
        requires place { i < length self.old.ends }
        requires undelivered { undelivered_at self.old i ≡ Some m }
        ensures ok { IfOk result (λ _. HandsUndelivered self.old i m self.new) }
        ensures answer { IfOk result (λ handed. handed ≡ handed_as (standby_of self.old.shadow) m) }
        ensures err { IfErr result (λ fault. NotHanded self.old self.new fault) }
    {
        let Ok(handed) = self.shadow.hand_next(m) else {
            return Err(StepFault::OutOfMemory);
        };
        self.undelivered[i] = None;
        Ok(handed)
    }

    // Takes the next message of the lane at this place.
    pub(super) fn step_at(&mut self, i: usize) -> Result<Stepped, StepFault>
        requires live { IsLive self.old }
        requires place { i < length self.old.ends }
        ensures frame { LaneFrame self.old i self.new }
        ensures moves { LaneMoves self.old i self.new result }
    {
        self.recall_invariant();
        match self.fetch(i) {
            Ok(m) => {
                self.recall_invariant();
                let Handed { processed, held } = self.hand_undelivered(i, m)?;
                Ok(Stepped::Handed { processed, held })
            }
            Err(accepted) => Ok(Stepped::Empty { accepted }),
        }
    }

    // Takes all that is left of a closed lane.
    fn drain_lane(&mut self, i: usize) -> Result<(), StepFault>
        requires live { IsLive self.old }
        requires place { i < length self.old.ends }
        requires closed { AllClosed self.old.ends }
        ensures frame { LaneFrame self.old i self.new }
        ensures ok { IfOk result (λ _. IsDrained self.new i) }
        ensures err { IfErr result (λ fault. fault ≡ StepFault.OutOfMemory) }
    {
        loop {
            if let Stepped::Empty { .. } = self.step_at(i)? {
                return Ok(());
            }
        }
    }

    // Takes all that is left of all lanes.
    pub(super) fn drain_all(&mut self) -> Result<(), StepFault>
        requires live { IsLive self.old }
        requires closed { AllClosed self.old.ends }
        ensures frame { LanesFrame self.old self.new }
        ensures ok { IfOk result (λ _. AreDrained self.new) }
        ensures err { IfErr result (λ fault. fault ≡ StepFault.OutOfMemory) }
    {
        let lanes = self.ends.len();
        for i in 0..lanes {
            self.drain_lane(i)?;
        }
        Ok(())
    }
}

// Whether all lanes are closed.
pub(super) fn are_closed(ends: &[LaneEnd]) -> bool
    ensures { result ≡ list_all is_closed_lane ends.now }
{
    ends.iter().all(|end| end.closed())
}

// Closes each lane.
pub(super) fn close_all(ends: &mut [LaneEnd])
    ensures { CloseEnds ends.old ends.new }
{
    for end in ends {
        let _accepted = end.close();
    }
}
