//! A promotion: the log has ended. What was seen of the log, and the epochs that were named.
ghost use Rattle.std.specs.Prelude.{◌≡◌, ◌==◌, ◌≤◌, ◌^◌, ◌||◌, not, [], IfErr, IsErrOf, OnOk};
ghost use Rattle.nn_device.specs.Page.{PutsPiece};
ghost use Rattle.nn_live.specs.Live.{names, sees};
ghost use Rattle.nn_live.specs.Serving.{FollowsStep, ServiceSteps, closed, in_epoch, log_ends, takes_promotion, takes_promotion_in};

use super::{Service, ServiceFault};
use crate::in_hand::SegmentInHand;
use crate::texts::put_fault;
use nn_device::{Page, Writer};
use nn_types::fault;
use std::io::Write;

impl Service {
    /// The log has a transaction of this txid.
    pub(super) fn see(&mut self, txid: u64)
        ensures { FollowsStep (λ _ s. sees txid s) self.old self.new [] }
    {
        self.known = self.known.max(txid);
    }

    /// Someone may have been promoted in this epoch.
    pub(super) fn name_epoch(&mut self, epoch: u64)
        ensures step { FollowsStep (λ _ s. names epoch s) self.old self.new [] }
        ensures named { self.new ≡ in_epoch epoch self.old }
    {
        self.epoch = self.epoch.max(epoch);
    }

    /// A promotion in this epoch. In a lower one than was named it is refused, and that epoch told. Else its epoch is named,
    /// whatever becomes of it.
    ///
    /// Where memory is refused its epoch is named too, nothing comes in any more, and the call may be made again.
    pub(super) fn promote_in<W: Write>(
        &mut self,
        page: &mut Page,
        writer: &mut Writer<W>,
        txid: u64,
        epoch: u64,
        losing: bool,
    ) -> Result<(), ServiceFault>
        ensures ok { OnOk result (ServiceSteps (takes_promotion_in txid epoch losing) self.old self.new (λ told. PutsPiece told page.old writer.old page.new writer.new)) }
        ensures exhausted { IsErrOf result ServiceFault.Exhausted → 2 ^ 63 ≤ self.old.segments }
        ensures left { IsErrOf result ServiceFault.OutOfMemory → self.new ≡ closed (in_epoch epoch self.old) }
        ensures put { IfErr result (λ _. PutsPiece [] page.old writer.old page.new writer.new) }
    {
        if epoch < self.epoch {
            put_fault(page, writer, fault::STALE_EPOCH, " epoch ", self.epoch);
            return Ok(());
        }
        self.name_epoch(epoch);
        self.promote(page, writer, txid, losing)
    }

    // The log has ended at this txid: what is held is flushed, and nothing comes in any more. It is refused, and told why, where
    // the standby was stopped, where a segment is in hand, where its last transaction is another one, and where one above was
    // read or seen, unless what lies above the txid is given up. A promotion of an active standby flushes nothing. It is active in
    // the epoch that was named last.
    //
    // Where memory is refused nothing comes in any more either, and the call may be made again.
    fn promote<W: Write>(
        &mut self,
        page: &mut Page,
        writer: &mut Writer<W>,
        txid: u64,
        losing: bool,
    ) -> Result<(), ServiceFault>
        ensures ok { OnOk result (ServiceSteps (takes_promotion txid losing) self.old self.new (λ told. PutsPiece told page.old writer.old page.new writer.new)) }
        ensures exhausted { IsErrOf result ServiceFault.Exhausted → 2 ^ 63 ≤ self.old.segments }
        ensures left { IsErrOf result ServiceFault.OutOfMemory → self.new ≡ closed self.old }
        ensures put { IfErr result (λ _. PutsPiece [] page.old writer.old page.new writer.new) }
    {
        if self.shadow.stop().is_some() {
            put_fault(page, writer, fault::STOPPED, " line ", self.lines);
            return Ok(());
        }
        if self.is_inside(losing) {
            let Some(segment) = self.segments.checked_add(1) else {
                return Err(ServiceFault::Exhausted);
            };
            put_fault(page, writer, fault::NO_END, " segment ", segment);
            return Ok(());
        }
        if !self.ends_at(txid, losing) {
            let next = self.shadow.last_txid().get() + 1;
            put_fault(page, writer, fault::DISORDER, " txid ", next);
            return Ok(());
        }
        let Ok(_) = self.shadow.flush() else {
            return Err(ServiceFault::OutOfMemory);
        };
        self.in_hand = SegmentInHand::none(self.alloc);
        self.promoted = self.epoch;
        self.tell_events(page, writer);
        Ok(())
    }

    // Whether edits are in hand that are not given up.
    fn is_inside(&self, losing: bool) -> bool
        ensures { result ≡ not (losing || (self.now.in_hand.edits == 0)) }
    {
        !losing && !self.in_hand.is_empty()
    }

    // Whether the log ends at this txid, as far as the service knows, or what it knows above it is given up.
    fn ends_at(&self, txid: u64, losing: bool) -> bool
        ensures { result ≡ log_ends self.now.shadow.last self.now.known txid losing }
    {
        self.shadow.last_txid().get() == txid && (losing || txid >= self.known)
    }
}
