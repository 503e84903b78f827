//! The log: a segment in hand, and the next transaction of it.
ghost use Rattle.std.specs.Prelude.{◌≡◌, ◌≢◌, ◌+◌, ◌^◌, ◌<◌, ◌≤◌, [], List, MatchBool, IfOk, IfErr};
ghost use Rattle.nn_segment.specs.Source.{Answer, Asked};
ghost use Rattle.nn_shadow.specs.declared.fault.StopCause.TheVariants.{Disorder};
ghost use Rattle.nn_lane_standby.specs.Tailing.{stopping, EndsInEnd};
ghost use Rattle.nn_lane_standby.specs.Parts.{IsLive, AppliesNext, NotApplied};
ghost use Rattle.nn_lane_standby.specs.Reads.{EditsOn};
ghost use Rattle.nn_lane_standby.specs.Steps.{OnceAsked, Edits, OnLogFault, HasSegment};

use super::{Standby, Stepped};
use crate::fault::StepFault;
use nn_segment::{SegmentSource, TakenUp};
use nn_shadow::{Stop, StopCause};
use nn_types::Txid;
use std::alloc::AllocError;

impl Standby {
    // Applies the next transaction in hand.
    fn apply_next(&mut self) -> Result<Txid, StepFault>
        requires live { IsLive self.old }
        requires some { self.old.rest ≢ [] }
        ensures ok { IfOk result (λ txid. AppliesNext self.old txid self.new) }
        ensures err { IfErr result (λ fault. NotApplied self.old self.new fault) }
    {
        let Some(tx) = self.cursor.first() else {
            unreachable!();
        };
        let txid = tx.txid;
        match self.shadow.apply_next(tx) {
            Ok(Ok(())) => {
                self.cursor.advance();
                Ok(txid)
            }
            Ok(Err(refused)) => {
                let stop = Stop {
                    txid,
                    cause: StopCause::Refused(refused),
                };
                let mark = stop;
                self.stop = Some(mark);
                Err(StepFault::Stopped(stop))
            }
            Err(AllocError) => Err(StepFault::OutOfMemory),
        }
    }

    // Whether no transaction is in hand.
    fn has_none(&self) -> bool
        ensures { MatchBool result (self.now.rest ≡ []) (self.now.rest ≢ []) }
    {
        self.cursor.first().is_none()
    }

    // Stops where the next transaction is missing.
    fn stop_at_gap(&mut self) -> Stop
        requires live { IsLive self.old }
        requires missing { self.old.shadow.last + 1 < 2 ^ 63 }
        ensures next { result.txid ≡ self.old.shadow.last + 1 }
        ensures cause { result.cause ≡ Disorder }
        ensures stops { self.new ≡ stopping self.old result }
    {
        let last = self.shadow.last_txid();
        let Some(txid) = Txid::new(last.get() + 1) else {
            unreachable!();
        };
        let stop = Stop {
            txid,
            cause: StopCause::Disorder,
        };
        let mark = stop;
        self.stop = Some(mark);
        stop
    }

    // Asks the source for the next segment, and takes it in hand.
    fn ask<S: SegmentSource>(&mut self, source: &mut S) -> Result<TakenUp, StepFault>
        requires { IsLive self.old }
        ensures asked { (answer : Answer) × S.gives source.old answer source.new × OnceAsked self.old answer self.new result }
        ensures lower { HasSegment result (S.left source.new < S.left source.old) }
        ensures failed { OnLogFault result (S.failures source.old < S.failures source.new) }
        ensures counted { S.failures source.old ≤ S.failures source.new }
    {
        let last = self.shadow.last_txid().get();
        match self.cursor.take_up(source, last) {
            Ok(TakenUp::New) => Ok(TakenUp::New),
            Ok(TakenUp::Old) => Ok(TakenUp::Old),
            Ok(TakenUp::Disorder) => Err(StepFault::Stopped(self.stop_at_gap())),
            Ok(TakenUp::End) => Ok(TakenUp::End),
            Err(fault) => Err(StepFault::LogNotEnded(fault)),
        }
    }

    // Takes the next transaction of the log.
    pub(super) fn step_edit<S: SegmentSource>(
        &mut self,
        source: &mut S,
    ) -> Result<Stepped, StepFault>
        requires { IsLive self.old }
        ensures edits { Edits S.gives source.old self.old source.new self.new result }
        ensures failed { OnLogFault result (S.failures source.old < S.failures source.new) }
        ensures counted { S.failures source.old ≤ S.failures source.new }
    {
        if !self.has_none() {
            return Ok(Stepped::Applied {
                txid: self.apply_next()?,
            });
        }
        match self.ask(source)? {
            TakenUp::End => Ok(Stepped::LogEnded),
            TakenUp::Old => Ok(Stepped::Passed),
            TakenUp::New => Ok(Stepped::Applied {
                txid: self.apply_next()?,
            }),
            TakenUp::Disorder => unreachable!(),
        }
    }

    // Applies all that is in hand.
    fn apply_rest(&mut self) -> Result<(), StepFault>
        requires { IsLive self.old }
        ensures edits { EditsOn self.old [] self.new (self.new.rest ≡ []) result }
        ensures own { OnLogFault result ⊥ }
    {
        while !self.has_none() {
            self.apply_next()?;
        }
        Ok(())
    }

    // Reads the log to its end.
    pub(super) fn read_log<S: SegmentSource>(&mut self, source: &mut S) -> Result<(), StepFault>
        requires { IsLive self.old }
        ensures edits { (answers : List Answer) × Asked S.gives source.old answers source.new × EditsOn self.old answers self.new (EndsInEnd answers × (self.new.rest ≡ [])) result }
        ensures failed { OnLogFault result (S.failures source.old < S.failures source.new) }
        ensures counted { S.failures source.old ≤ S.failures source.new }
    {
        loop {
            self.apply_rest()?;
            if let TakenUp::End = self.ask(source)? {
                return Ok(());
            }
        }
    }
}
