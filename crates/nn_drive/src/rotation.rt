//! The rotation of a standby: its log and its lanes in turn, until its operator requests a promotion.
ghost use Rattle.std.specs.Prelude.{◌≡◌, ◌≤◌, true, false, IfOk, IfErr};
ghost use Rattle.nn_feed.specs.Ends.{GivesWhatIsFed};
ghost use Rattle.nn_lane_standby.specs.Refusals.{has_place};
ghost use Rattle.nn_lane_standby.specs.Tailing.{has_begun};
ghost use Rattle.nn_lane_standby.specs.declared.standby.Choice.TheVariants.{Lane};
ghost use Rattle.nn_drive.specs.Driven.{Went, WentUntil};
ghost use Rattle.nn_drive.specs.Feeding.{failures_of};
ghost use Rattle.nn_drive.specs.Refusals.{MayCome, IsSameFault};
ghost use Rattle.nn_drive.specs.Rounds.{StepWasMade, HasStepped, HasTried, IsRound};
ghost use Rattle.nn_drive.specs.Served.{Rotates};
ghost use Rattle.nn_drive.specs.Serving.{KeepsNamespace, WasShown, RequestsAt, holds, left_by_request};

use crate::bells::Bells;
use crate::driving::DriveFault;
use crate::operator::{Operator, Request};
use nn_feed::FeedEnd;
use nn_lane_standby::{Choice, Standby, StepFault, Stepped};
use nn_segment::SegmentSource;
use std::sync::Wait;

// How many messages a visit of a lane takes at most: so each lane has its turn soon, however fast its worker reports.
const MESSAGES_OF_A_VISIT: usize = 64;

// The fault of a standby that serves, at a lane that it has.
pub(crate) fn fault_of(fault: StepFault) -> DriveFault
    requires { MayCome fault }
    ensures { IsSameFault fault result }
{
    match fault {
        StepFault::Stopped(stop) => DriveFault::Stopped(stop),
        StepFault::LogNotEnded(fault) => DriveFault::LogNotEnded(fault),
        StepFault::OutOfMemory => DriveFault::OutOfMemory,
        StepFault::AlreadyActive => unreachable!(),
        StepFault::BadLane => unreachable!(),
    }
}

// Whether a step brought something: a transaction, a segment that was passed over, or a message.
fn brings(stepped: Stepped) -> bool {
    match stepped {
        Stepped::Applied { .. } | Stepped::Passed | Stepped::Handed { .. } => true,
        Stepped::LogEnded | Stepped::Empty { .. } => false,
    }
}

// A step, and whether it brought something.
fn take_step<T: SegmentSource>(
    standby: &mut Standby,
    source: &mut T,
    choice: Choice,
) -> Result<bool, DriveFault>
    requires serving { has_begun standby.old ≡ false }
    requires place { has_place standby.old choice ≡ true }
    ensures went { Went T.gives T.failures source.old standby.old source.new standby.new }
    ensures made { IfOk result (λ _. StepWasMade standby.old choice standby.new) }
    ensures until { IfErr result (λ fault. WentUntil T.gives T.failures source.old standby.old source.new fault) }
{
    match standby.step(source, choice) {
        Ok(stepped) => Ok(brings(stepped)),
        Err(fault) => Err(fault_of(fault)),
    }
}

// Takes from the lane of this DataNode until it is empty, or until so many messages came. Answers how many came. The lane is
// tried once at least.
fn take_messages<T: SegmentSource>(
    standby: &mut Standby,
    source: &mut T,
    dn: u16,
    most: usize,
) -> Result<usize, DriveFault>
    requires serving { has_begun standby.old ≡ false }
    requires place { has_place standby.old (Lane dn) ≡ true }
    requires some { 1 ≤ most }
    ensures went { Went T.gives T.failures source.old standby.old source.new standby.new }
    ensures tried { IfOk result (λ _. HasTried standby.old dn standby.new) }
    ensures kept { IfOk result (λ _. KeepsNamespace standby.old standby.new) }
    ensures until { IfErr result (λ fault. WentUntil T.gives T.failures source.old standby.old source.new fault) }
{
    for taken in 0..most {
        let has_come = take_step(standby, source, Choice::Lane(dn))?;
        if !has_come {
            return Ok(taken);
        }
    }
    Ok(most)
}

// Whether a step of the log would bring something, or tell of a fault, and not wait for its source. At its end a feed is ready
// for ever, and brings nothing.
fn is_at_hand<'a, R: Wait>(standby: &Standby, end: &FeedEnd<'a, R>) -> bool {
    standby.in_hand() > 0 || (end.is_ready() && !end.is_at_end())
}

// Makes so many steps of the log at most, while they need not wait for its source and bring something.
fn take_edits<'a, R: Wait>(
    standby: &mut Standby,
    end: &mut FeedEnd<'a, R>,
    most: usize,
) -> Result<(), DriveFault>
    requires { has_begun standby.old ≡ false }
    ensures went { Went GivesWhatIsFed failures_of end.old standby.old end.new standby.new }
    ensures stepped { IfOk result (λ _. HasStepped standby.old standby.new) }
    ensures until { IfErr result (λ fault. WentUntil GivesWhatIsFed failures_of end.old standby.old end.new fault) }
{
    for _ in 0..most {
        if !is_at_hand(standby, end) {
            return Ok(());
        }
        let has_come = take_step(standby, end, Choice::Edit)?;
        if !has_come {
            return Ok(());
        }
    }
    Ok(())
}

// Whether it is requested that the log be held.
fn is_holding(request: Request) -> bool
    ensures { result ≡ holds request }
{
    match request {
        Request::Hold | Request::ForgetAndHold => true,
        Request::GoOn | Request::Forget | Request::Promote => false,
    }
}

// The same, unless it is requested that the log be held.
fn take_log<'a, R: Wait>(
    standby: &mut Standby,
    end: &mut FeedEnd<'a, R>,
    request: Request,
    most: usize,
) -> Result<(), DriveFault>
    requires { has_begun standby.old ≡ false }
    ensures went { Went GivesWhatIsFed failures_of end.old standby.old end.new standby.new }
    ensures stepped { IfOk result (λ _. HasStepped standby.old standby.new) }
    ensures held { IfOk result (λ _. holds request ≡ true → KeepsNamespace standby.old standby.new) }
    ensures until { IfErr result (λ fault. WentUntil GivesWhatIsFed failures_of end.old standby.old end.new fault) }
{
    if is_holding(request) {
        return Ok(());
    }
    take_edits(standby, end, most)
}

// Forgets the history, where that was requested.
fn forget_requested(standby: &mut Standby, request: Request)
    ensures { standby.new ≡ left_by_request request standby.old }
{
    match request {
        Request::Forget | Request::ForgetAndHold => standby.forget_history(),
        Request::GoOn | Request::Hold | Request::Promote => {}
    }
}

/// The rotations of a standby whose workers run.
#[derive_where(Clone, Copy)]
pub(crate) struct Rotation<'b, R> {
    pub(crate) rt: &'b R,
    pub(crate) bells: &'b Bells,
    /// How many workers were started.
    pub(crate) started: usize,
    /// How many steps of the log each rotation begins with, at most, where the standby has fewer lanes.
    pub(crate) ahead: usize,
}

impl<'b, R> Rotation<'b, R> {
    // How many workers were not yet seen to have ended.
    fn still_running(&self) -> usize
        ensures { result ≤ self.now.started }
    {
        self.started.saturating_sub(self.bells.ended())
    }
}

impl<'b, R: Wait> Rotation<'b, R> {
    // Each lane in turn: at most as many messages as a visit takes, and behind it at most as many steps of the log as came
    // messages. Its worker is woken in between. Answers whether a lane gave all that a visit takes.
    fn take_lanes<'a>(
        &self,
        standby: &mut Standby,
        end: &mut FeedEnd<'a, R>,
        request: Request,
    ) -> Result<bool, DriveFault>
        requires { has_begun standby.old ≡ false }
        ensures went { Went GivesWhatIsFed failures_of end.old standby.old end.new standby.new }
        ensures visited { IfOk result (λ _. IsRound standby.old standby.new) }
        ensures held { IfOk result (λ _. holds request ≡ true → KeepsNamespace standby.old standby.new) }
        ensures until { IfErr result (λ fault. WentUntil GivesWhatIsFed failures_of end.old standby.old end.new fault) }
    {
        let lanes = standby.lanes();
        let mut is_left = false;
        for i in 0..lanes {
            let taken = take_messages(standby, end, (i + 1) as u16, MESSAGES_OF_A_VISIT)?;
            if taken > 0 {
                self.bells.wake(i);
            }
            take_log(standby, end, request, taken)?;
            is_left |= taken == MESSAGES_OF_A_VISIT;
        }
        Ok(is_left)
    }

    // One rotation: a step of the log for each lane, at most, or so many where these are more; and then the lanes. Answers
    // whether a lane gave all that a visit takes.
    fn take_round<'a>(
        &self,
        standby: &mut Standby,
        end: &mut FeedEnd<'a, R>,
        request: Request,
    ) -> Result<bool, DriveFault>
        requires { has_begun standby.old ≡ false }
        ensures went { Went GivesWhatIsFed failures_of end.old standby.old end.new standby.new }
        ensures visited { IfOk result (λ _. IsRound standby.old standby.new) }
        ensures held { IfOk result (λ _. holds request ≡ true → KeepsNamespace standby.old standby.new) }
        ensures until { IfErr result (λ fault. WentUntil GivesWhatIsFed failures_of end.old standby.old end.new fault) }
    {
        let most = standby.lanes().max(self.ahead);
        take_log(standby, end, request, most)?;
        self.take_lanes(standby, end, request)
    }

    // Sleeps until something is brought, unless it has come since the last rotation: a report, something of a log that is not
    // held, or the end of a worker.
    fn rest<'a>(&self, standby: &Standby, end: &FeedEnd<'a, R>, request: Request, running: usize) {
        let is_holding = is_holding(request);
        self.bells.doze();
        let has_log = !is_holding && is_at_hand(standby, end);
        let has_ended = self.still_running() != running;
        self.bells.rest(self.rt, has_log || has_ended, is_holding);
    }

    /// Rotations, until the operator requests a promotion. It is asked before each one, and what it requests to be forgotten of the
    /// history is forgotten then.
    ///
    /// A rotation begins with at most as many steps of the log as there are lanes, or `ahead` where that is more. Then it visits each
    /// lane, and takes from it until it is empty, or gave 64 messages; and after each lane it makes at most as many steps of the log
    /// as the lane gave messages. So a lane that is never empty keeps back neither the log nor another lane, and a log that is
    /// always ready keeps back no lane. The log is left alone while no transaction is in hand and nothing lies in its feed: a
    /// slow source keeps back no message; and so it is where the operator requested that it be held.
    ///
    /// Once the operator was asked, and no more is known to be there, it sleeps: until a report, the log or the end of a worker wakes
    /// it, and for 10 milliseconds at most. So the operator sees at once what came. While the log is held it sleeps a tenth of a
    /// millisecond at most, for the operator has work of its own.
    pub(crate) fn rotate<'a, O: Operator>(
        &self,
        standby: &mut Standby,
        end: &mut FeedEnd<'a, R>,
        operator: &mut O,
    ) -> Result<(), DriveFault>
        requires { has_begun standby.old ≡ false }
        ensures requested { IfOk result (λ _. Rotates GivesWhatIsFed failures_of end.old standby.old end.new standby.new
            (λ shown answers. RequestsAt O.asks self.now.started standby.old operator.old shown answers standby.new operator.new)) }
        ensures gone { IfErr result (λ _. Rotates GivesWhatIsFed failures_of end.old standby.old end.new standby.new
            (λ shown answers. WasShown O.asks self.now.started standby.old operator.old shown answers standby.new operator.new)) }
        ensures until { IfErr result (λ fault. WentUntil GivesWhatIsFed failures_of end.old standby.old end.new fault) }
    {
        let mut is_left = true;
        for _ in self.rt.forever() {
            let running = self.still_running();
            let request = operator.ask(standby, running);
            if let Request::Promote = request {
                return Ok(());
            }
            forget_requested(standby, request);
            if !is_left {
                self.rest(standby, end, request, running);
            }
            self.bells.clear();
            is_left = self.take_round(standby, end, request)?;
        }
        unreachable!()
    }
}
