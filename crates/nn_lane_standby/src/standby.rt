//! The standby over its lanes: what it keeps, and its calls except the promotion.
ghost use Rattle.std.specs.Prelude.{◌≡◌, ◌<◌, ◌≤◌, [], ◌++◌, length, IfOk, IfErr, Err, Some};
ghost use Rattle.nn_lane_standby.specs.LaneSteps.{AllClosed, CloseEnds};
ghost use Rattle.nn_lane_standby.specs.Public.{StandbySteps, AreNew, IsNewStandby};
ghost use Rattle.nn_lane_standby.specs.declared.fault.StepFault.{StepFault as Why};
ghost use Rattle.nn_lane_standby.specs.Refusals.{step_refusal};
ghost use Rattle.nn_lane_standby.specs.Steps.{OnLogFault};
ghost use Rattle.nn_model.specs.History.{History};
ghost use Rattle.nn_lane_standby.specs.Tailing.{Carries, Keeps, has_begun, with_ends, standby_without_history, standby_with_past};
ghost use Rattle.nn_types.specs.Limits.{max_datanodes};

mod checkpoint;
mod lanes;
mod log;
mod promote;

use crate::fault::StepFault;
use crate::refused::NewFault;
use crate::standby::lanes::close_all;
use nn_lane::LaneEnd;
use nn_segment::{Cursor, SegmentSource};
use nn_shadow::{Shadow, Stop};
use nn_tree::Namespace;
use nn_types::{Event, Message, Settings, Txid};
use std::alloc::Global;
use std::marker::Model;

/// What `step` is to take next.
#[derive(Clone, Copy, Debug, PartialEq, Eq)]
pub enum Choice {
    /// The next transaction of the log.
    Edit,
    /// The next message of this DataNode, from 1 on.
    Lane(u16),
}

/// What a step did.
#[derive(Clone, Copy, Debug, PartialEq, Eq)]
pub enum Stepped {
    /// A transaction was applied, and the held items that it sets free were processed.
    Applied { txid: Txid },
    /// A segment was passed over: all of its transactions were applied before.
    Passed,
    /// The source gave its end.
    LogEnded,
    /// A message was taken in: so many of its items were processed, and so many have to wait.
    Handed { processed: usize, held: usize },
    /// The lane has nothing to take now. So many of its messages were taken before.
    Empty { accepted: u64 },
}

/// A promoted standby in figures.
#[derive(Clone, Copy, Debug, PartialEq, Eq)]
pub struct Active {
    /// The last txid, 0 where the log has no transaction.
    pub last: u64,
    /// How many items the flush processed: those that the log named too low or not at all.
    pub flushed: u64,
}

/// A standby that tails a log and takes in the messages of its lanes, one for each DataNode.
///
/// The source of the log is lent to each call that reads it, and may be another one at the next call: what all sources
/// gave, in order, is the log.
#[derive(Debug, Drop)]
pub struct Standby {
    shadow: Shadow,
    // The lane of DataNode 1 first.
    ends: Vec<LaneEnd>,
    // Of each lane the message that was taken and not handed on, because memory ran out.
    undelivered: Vec<Option<Message>>,
    cursor: Cursor,
    // An edit that does not apply stops the shadow too; a segment that begins too high stops the standby alone.
    stop: Option<Stop>,
    // Whether it was promoted.
    active: bool,
}

impl Model for Standby {
    ghost use Rattle.nn_lane_standby.specs.Tailing.{Standby, Keeps};

    ghost Value = { Standby };

    ghost view = { λ s. record { shadow = s.shadow; ends = s.ends.items; undelivered = s.undelivered.items; rest = s.cursor; stop = s.stop; active = s.active } };

    ghost invariant = { λ s. Keeps (record { shadow = s.shadow; ends = s.ends.items; undelivered = s.undelivered.items; rest = s.cursor; stop = s.stop; active = s.active }) };
}

impl Standby {
    /// A standby over these lanes, of DataNodes 1, 2 and so on, before the first transaction: its namespace is the root
    /// alone. Where memory is refused the ends come back.
    pub fn new(alloc: Global, ends: Vec<LaneEnd>, settings: Settings) -> Result<Standby, NewFault>
        requires some { 1 ≤ length ends.items }
        requires few { length ends.items ≤ max_datanodes }
        requires fresh { AreNew 1 ends.items }
        ensures ok { IfOk result (λ x. IsNewStandby ends.items x) }
        ensures settings { IfOk result (λ x. (x.shadow.table.min ≡ settings.min) × (x.shadow.permille ≡ settings.permille)) }
        ensures err { IfErr result (λ fault. fault.ends ≡ ends) }
    {
        let namespace = Namespace::new(alloc);
        let standby = Standby::from_namespace(alloc, ends, settings, namespace, Txid::ZERO)?;
        Ok(standby)
    }

    /// Takes the next transaction of the log, or the next message of a lane.
    ///
    /// A transaction comes from the segment in hand, or else from the source's next item, of which those applied before
    /// are passed over. The first cause of refusal is answered, in the order of `StepFault`. After `LogNotEnded` and
    /// `OutOfMemory` nothing is lost: a segment stays in hand, a message stays undelivered, and the step may be made again.
    /// After `Stopped` no step is made any more. A step of the log leaves all lanes as they were. One of a lane leaves the other
    /// lanes and the segment in hand, and after `Ok` its message is not kept.
    pub fn step<S: SegmentSource>(
        &mut self,
        source: &mut S,
        choice: Choice,
    ) -> Result<Stepped, StepFault>
        ensures refused { (fault : Why) → step_refusal self.old choice ≡ Some fault → (result ≡ Err fault) × (self.new ≡ self.old) }
        ensures steps { StandbySteps S.gives source.old self.old choice source.new self.new result }
        ensures failed { OnLogFault result (S.failures source.old < S.failures source.new) }
        ensures counted { S.failures source.old ≤ S.failures source.new }
    {
        if self.shadow.is_active() {
            return Err(StepFault::AlreadyActive);
        }
        if let Some(stop) = self.stop {
            return Err(StepFault::Stopped(stop));
        }
        match choice {
            Choice::Edit => self.step_edit(source),
            Choice::Lane(dn) => match self.place(dn) {
                Some(i) => self.step_at(i),
                None => Err(StepFault::BadLane),
            },
        }
    }

    // Recalls to the prover what holds of every standby between two calls. It does nothing when it runs.
    fn recall_invariant(&self)
        ensures { Keeps self.now }
    {
        let _ = &self.stop;
    }

    /// Closes all lanes, under reporters that run: each of these learns of it by a report that is refused. What they had
    /// sent by then is left to take; a lane that was closed stays as it is. It cannot be refused. Linear in the lanes.
    pub fn close_intake(&mut self)
        ensures ends { CloseEnds self.old.ends self.new.ends }
        ensures closed { AllClosed self.new.ends }
        ensures rest { self.new ≡ with_ends self.old self.new.ends }
        ensures carries { Carries self.old [] self.new }
    {
        close_all(self.ends.as_mut_slice());
    }

    /// Takes the history: what was done since it was last taken. The standby has none of it any more, and goes on as if it
    /// had: what was taken, in order, and what it has are one history.
    pub fn take_history(&mut self) -> Vec<Event>
        ensures taken { result.items ≡ self.old.shadow.history }
        ensures left { self.new ≡ standby_without_history self.old }
        ensures goes_on { (past : History) → standby_with_past (past ++ result.items) self.new ≡ standby_with_past past self.old }
    {
        self.shadow.take_history()
    }

    /// Forgets the history, and keeps its room: as `take_history`, where what was taken is not wanted.
    pub fn forget_history(&mut self)
        ensures left { self.new ≡ standby_without_history self.old }
        ensures goes_on { (past : History) → standby_with_past (past ++ self.old.shadow.history) self.new ≡ standby_with_past past self.old }
    {
        self.shadow.forget_history();
    }

    /// The standby below: its namespace, its replicas and orders, its history, what it holds, its counts.
    pub fn shadow(&self) -> &Shadow
        ensures { result.now ≡ self.now.shadow }
    {
        &self.shadow
    }

    /// Where and why the log stopped the standby.
    pub fn stop(&self) -> Option<Stop>
        ensures { result ≡ self.now.stop }
    {
        self.stop
    }

    /// Whether the flush has begun: from then on nothing comes in.
    pub fn is_active(&self) -> bool
        ensures { result ≡ has_begun self.now }
    {
        self.shadow.is_active()
    }

    /// How many transactions are in hand: those of the segment that was begun and is not yet applied whole. A step of the
    /// log asks its source only where none is.
    pub fn in_hand(&self) -> usize
        ensures { result ≡ length self.now.rest }
    {
        self.cursor.count()
    }

    /// The ends of its lanes, DataNode 1 first.
    pub fn ends(&self) -> &[LaneEnd]
        ensures { result.now ≡ self.now.ends }
    {
        self.ends.as_slice()
    }

    /// How many lanes there are.
    pub fn lanes(&self) -> usize
        ensures lanes { result ≡ length self.now.ends }
        ensures few { result ≤ max_datanodes }
    {
        self.ends.len()
    }

    /// The standby below and the ends, each still of its lane. What was taken and not handed on, and what is left of a
    /// segment, is dropped.
    pub fn into_parts(self) -> (Shadow, Vec<LaneEnd>)
        ensures { (result.0 ≡ self.shadow) × (result.1.items ≡ self.ends) }
    {
        let Standby {
            shadow,
            ends,
            undelivered: _,
            cursor: _,
            stop: _,
            active: _,
        } = self;
        (shadow, ends)
    }
}
