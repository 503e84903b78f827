//! The promotion.
ghost use Rattle.std.specs.Prelude.{◌≡◌, ◌<◌, ◌≤◌, true, false, List, Err, Some, None};
ghost use Rattle.nn_segment.specs.Source.{Answer, Asked};
ghost use Rattle.nn_lane_standby.specs.LaneSteps.{AllClosed};
ghost use Rattle.nn_lane_standby.specs.Parts.{IsLive};
ghost use Rattle.nn_lane_standby.specs.Promotion.{Finishes, Prepares, Promotes, OnPromoteLogFault};
ghost use Rattle.nn_lane_standby.specs.declared.fault.PromoteFault.{PromoteFault as Why};
ghost use Rattle.nn_lane_standby.specs.Refusals.{promote_refusal};
ghost use Rattle.nn_lane_standby.specs.Tailing.{has_begun};
ghost use Rattle.nn_lane_standby.specs.Steps.{OnLogFault};

use super::lanes::are_closed;
use super::{Active, Standby};
use crate::fault::{PromoteFault, StepFault};
use nn_segment::SegmentSource;
use nn_shadow::FlushFault;

impl Standby {
    /// Promotes the standby: it reads the log to its end, drains its lanes and flushes what is held.
    ///
    /// The first cause of refusal is answered: `AlreadyActive` where it was promoted before, `Stopped`, `IntakeOpen`; and then,
    /// while it works, `Stopped`, `LogNotEnded`, `OutOfMemory`. After `LogNotEnded` and `OutOfMemory` it stands at what its
    /// history shows and may be promoted again; only the flush closes it to steps. Once the flush has begun, no source is asked.
    pub fn promote<S: SegmentSource>(&mut self, source: &mut S) -> Result<Active, PromoteFault>
        ensures refused { (fault : Why) → promote_refusal self.old ≡ Some fault → (result ≡ Err fault) × (self.new ≡ self.old) }
        ensures promotes { Promotes S.gives source.old self.old source.new self.new result }
        ensures failed { OnPromoteLogFault result (S.failures source.old < S.failures source.new) }
        ensures counted { S.failures source.old ≤ S.failures source.new }
        ensures unasked { has_begun self.old ≡ true → source.new ≡ source.old }
    {
        if self.active {
            return Err(PromoteFault::AlreadyActive);
        }
        if self.shadow.is_active() {
            return self.finish();
        }
        if let Some(stop) = self.stop {
            return Err(PromoteFault::Step(StepFault::Stopped(stop)));
        }
        if !are_closed(self.ends.as_slice()) {
            return Err(PromoteFault::IntakeOpen);
        }
        self.prepare(source)?;
        self.finish()
    }

    // Reads the log to its end and drains the lanes.
    fn prepare<S: SegmentSource>(&mut self, source: &mut S) -> Result<(), StepFault>
        requires live { IsLive self.old }
        requires closed { AllClosed self.old.ends }
        ensures prepares { (answers : List Answer) × Asked S.gives source.old answers source.new × Prepares self.old answers self.new result }
        ensures failed { OnLogFault result (S.failures source.old < S.failures source.new) }
        ensures counted { S.failures source.old ≤ S.failures source.new }
    {
        self.read_log(source)?;
        self.drain_all()?;
        self.recall_invariant();
        Ok(())
    }

    // Flushes what is held, and is active then.
    fn finish(&mut self) -> Result<Active, PromoteFault>
        requires stop { self.old.stop ≡ None }
        requires active { self.old.active ≡ false }
        ensures { Finishes self.old self.new result }
    {
        match self.shadow.flush() {
            Ok(flushed) => {
                self.active = true;
                Ok(Active {
                    last: self.shadow.last_txid().get(),
                    flushed,
                })
            }
            Err(FlushFault::OutOfMemory) => Err(PromoteFault::Step(StepFault::OutOfMemory)),
            Err(FlushFault::Stopped(_)) => unreachable!(),
        }
    }
}
