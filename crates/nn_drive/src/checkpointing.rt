//! A ready operator: it writes checkpoints in parts for another one, and holds the log meanwhile.
ghost use Rattle.std.specs.Prelude.{◌≡◌, ℕ, Option, None, max};
ghost use Rattle.nn_lane_standby.specs.Tailing.{Standby};
ghost use Rattle.nn_drive.specs.Checkpoints.{CallsOff, Continues, HasWritten, Heard, BeganCheckpoint, IsCalledOff, IsLeftWith, IsCheckpointPart, asks_of, held, request_with};
ghost use Rattle.nn_drive.specs.declared.checkpointing.EndedCheckpoint.{EndedCheckpoint as Ended};

use crate::operator::{Operator, Request};
use nn_device::Writer;
use nn_image::{SaveFault, Saving};
use nn_lane_standby::Standby;
use nn_types::Txid;
use std::alloc::Global;
use std::fmt;
use std::io::Write;
use std::marker::Model;
use std::ops::ControlFlow;

/// How a checkpoint ended.
#[derive(Clone, Copy, Debug, PartialEq, Eq)]
pub enum CheckpointOutcome {
    /// All of it was written.
    Written,
    /// A promotion was requested meanwhile.
    CalledOff,
    /// Memory was refused, or a write failed.
    Failed(SaveFault),
}

/// A checkpoint that has ended.
#[derive(Clone, Copy, Debug, PartialEq, Eq)]
pub struct EndedCheckpoint {
    /// The last transaction of its namespace.
    pub txid: Txid,
    /// How many bytes were written. Unless all of it was, these are a prefix of the image, which `load` refuses.
    pub bytes: u64,
    pub outcome: CheckpointOutcome,
}

/// An operator that wants checkpoints, for `Checkpointing`.
pub trait CheckpointOperator<W>: Operator {
    /// `wants o x w p`: a `due` of an operator in the state o about the standby x may answer w and leave it in the state p.
    ghost wants: { Self → Standby → Option W → Self → Type 0 };

    /// `hears o w e p`: told that the checkpoint e ended, and given back w, an operator in the state o may be left in the state p.
    ghost hears: { Self → W → Ended → Self → Type 0 };

    /// What a checkpoint of this standby is to be written into, where one is due. It is asked once each rotation, behind `ask`,
    /// while no checkpoint is in hand.
    fn due(&mut self, standby: &Standby) -> Option<W>
        ensures { wants self.old standby.now result self.new };

    /// Is told how the checkpoint ended, and given back what it was written into. After a failure `due` is asked again in the
    /// next rotation.
    fn ended(&mut self, writer: W, checkpoint: EndedCheckpoint)
        ensures { hears self.old writer checkpoint self.new };
}

// A checkpoint in hand.
#[derive(Drop)]
struct InHand<W: Write> {
    txid: Txid,
    saving: Saving,
    image: Writer<W>,
}

impl<W: Write> Model for InHand<W> {
    ghost use Rattle.nn_drive.specs.Checkpoints.{Begun};

    ghost Value = { Begun };

    ghost view = { λ s. record { txid = s.txid; place = s.saving; image = s.image } };
}

impl<W: Write> InHand<W> {
    // Begins a checkpoint of this standby.
    fn begin(
        alloc: Global,
        standby: &Standby,
        writer: W,
    ) -> ControlFlow<(W, EndedCheckpoint), InHand<W>>
        ensures { BeganCheckpoint W.contents standby.now writer result }
    {
        let shadow = standby.shadow();
        let txid = shadow.last_txid();
        let mut image = Writer::new(writer);
        match Saving::begin(alloc, shadow.namespace(), txid, &mut image) {
            Ok(saving) => ControlFlow::Continue(InHand {
                txid,
                saving,
                image,
            }),
            Err(fault) => ControlFlow::Break(ended(txid, image, CheckpointOutcome::Failed(fault))),
        }
    }

    // Writes the next part.
    fn write_part(
        self,
        alloc: Global,
        standby: &Standby,
        rows: usize,
    ) -> ControlFlow<(W, EndedCheckpoint), InHand<W>>
        ensures { IsCheckpointPart W.contents rows standby.now self result }
    {
        let InHand {
            txid,
            saving,
            mut image,
        } = self;
        let namespace = standby.shadow().namespace();
        let outcome = match saving.write_some(alloc, namespace, &mut image, rows) {
            Ok(Some(saving)) => {
                return ControlFlow::Continue(InHand {
                    txid,
                    saving,
                    image,
                });
            }
            Ok(None) => CheckpointOutcome::Written,
            Err(fault) => CheckpointOutcome::Failed(fault),
        };
        ControlFlow::Break(ended(txid, image, outcome))
    }

    fn call_off(self) -> (W, EndedCheckpoint)
        ensures { IsCalledOff W.contents self result }
    {
        let InHand { txid, image, .. } = self;
        ended(txid, image, CheckpointOutcome::CalledOff)
    }
}

// A checkpoint that has ended so.
fn ended<W: Write>(txid: Txid, image: Writer<W>, outcome: CheckpointOutcome) -> (W, EndedCheckpoint)
    ensures what { (result.1.txid ≡ txid) × (result.1.outcome ≡ outcome) }
    ensures written { HasWritten W.contents image result }
{
    let bytes = image.taken();
    let checkpoint = EndedCheckpoint {
        txid,
        bytes,
        outcome,
    };
    (image.into_inner(), checkpoint)
}

/// An operator whose checkpoints are written in parts: one part each rotation, while reports are taken and the log is held.
///
/// It asks the operator within first. A promotion that this one requests is passed on at once, and calls off the checkpoint in
/// hand. All else that it requests is done as well, and the log is held for as long as a checkpoint is in hand.
///
/// Each checkpoint that is told as written is the image of the namespace after its transaction
/// (`each_checkpoint_is_the_image`), if the standbys that it is asked about are those of one `serve`. So a new one is made for
/// each `serve`.
#[derive(Drop)]
pub struct Checkpointing<W: Write, O> {
    alloc: Global,
    operator: O,
    rows: usize,
    in_hand: Option<InHand<W>>,
}

impl<W: Write, O> Model for Checkpointing<W, O> {
    ghost use Rattle.nn_drive.specs.Checkpoints.{Checkpointing};

    ghost Value = { Checkpointing O };

    ghost view = { λ s. record { operator = s.operator; rows = s.rows; in_hand = s.in_hand } };
}

// Without the operator and the writer, which need not print themselves.
impl<W: Write, O> fmt::Debug for Checkpointing<W, O> {
    fn fmt<D: fmt::Write>(&self, f: &mut fmt::Formatter<D>) -> fmt::Result {
        f.debug_struct("Checkpointing")
            .field("rows", &self.rows)
            .finish_non_exhaustive()
    }
}

impl<W: Write + Drop, O: CheckpointOperator<W>> Checkpointing<W, O> {
    /// The checkpoints of this operator, in parts of so many paths at most; 0 counts as 1. 1,000 paths take half a millisecond.
    pub fn new(alloc: Global, operator: O, rows: usize) -> Checkpointing<W, O>
        ensures { result ≡ record { operator = operator; rows = max 1 rows; in_hand = None } }
    {
        Checkpointing {
            alloc,
            operator,
            rows: rows.max(1),
            in_hand: None,
        }
    }

    /// The operator within. It is told first that the checkpoint in hand, if there is one, is called off.
    pub fn into_operator(self) -> O
        ensures { (heard : Option (Heard W)) × CallsOff W.contents O.hears self.in_hand self.operator heard (record { operator = result; rows = self.rows; in_hand = None }) }
    {
        let mut own = self;
        own.call_off();
        own.operator
    }

    fn call_off(&mut self)
        ensures called { (heard : Option (Heard W)) × CallsOff W.contents O.hears self.old.in_hand self.old.operator heard self.new }
        ensures rows { self.new.rows ≡ self.old.rows }
    {
        if let Some(begun) = self.in_hand.take() {
            let (writer, checkpoint) = begun.call_off();
            self.operator.ended(writer, checkpoint);
        }
    }

    // What came of a step of a checkpoint is kept in hand, or told.
    fn keep(&mut self, flow: ControlFlow<(W, EndedCheckpoint), InHand<W>>)
        requires { self.old.in_hand ≡ None }
        ensures left { (heard : Option (Heard W)) × IsLeftWith O.hears self.old.operator flow heard self.new }
        ensures rows { self.new.rows ≡ self.old.rows }
    {
        match flow {
            ControlFlow::Continue(begun) => self.in_hand = Some(begun),
            ControlFlow::Break((writer, checkpoint)) => self.operator.ended(writer, checkpoint),
        }
    }

    // The checkpoint in hand goes on by a part, or a new one is begun.
    fn go_on(&mut self, standby: &Standby)
        ensures continued { (heard : Option (Heard W)) × Continues W.contents O.hears O.wants self.old.in_hand self.old.rows standby.now self.old.operator heard self.new }
        ensures rows { self.new.rows ≡ self.old.rows }
    {
        if let Some(begun) = self.in_hand.take() {
            let flow = begun.write_part(self.alloc, standby, self.rows);
            self.keep(flow);
            return;
        }
        let Some(writer) = self.operator.due(standby) else {
            return;
        };
        let flow = InHand::begin(self.alloc, standby, writer);
        self.keep(flow);
    }
}

impl<W: Write + Drop, O: CheckpointOperator<W>> Operator for Checkpointing<W, O> {
    ghost asks = { asks_of W.contents O.hears O.wants O.asks };

    fn ask(&mut self, standby: &Standby, running: usize) -> Request {
        let request = self.operator.ask(standby, running);
        if let Request::Promote = request {
            self.call_off();
            return Request::Promote;
        }
        self.go_on(standby);
        request_with(&self.in_hand, request)
    }
}

// What was requested, and that the log be held while a checkpoint is in hand.
fn request_with<W: Write>(in_hand: &Option<InHand<W>>, request: Request) -> Request
    ensures { result ≡ request_with in_hand.now request }
{
    match in_hand {
        Some(_) => held(request),
        None => request,
    }
}

fn held(request: Request) -> Request
    ensures { result ≡ held request }
{
    match request {
        Request::GoOn | Request::Hold => Request::Hold,
        Request::Forget | Request::ForgetAndHold => Request::ForgetAndHold,
        Request::Promote => Request::Promote,
    }
}
