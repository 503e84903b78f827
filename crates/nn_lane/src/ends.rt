//! The two ends of a lane.
ghost use Rattle.std.specs.Prelude.{◌≡◌, ◌≤◌, ◌<◌, ◌^◌, ◌+◌, ◌∷◌, ◌++◌, ◌⊎◌, length, true, false, [], IfOk, IfErr, Some, None};
ghost use Rattle.nn_lane.specs.Ends.{capacity_of, next_message, HasPlace, RefusesMessage, StaysUnchecked, LooksForClose, Publishes, GivesMessage, Looked, StartsWith};
ghost use Rattle.nn_types.specs.declared.report.Message.{Message};
ghost use Rattle.nn_types.specs.Limits.{max_capacity, max_datanodes};
ghost use Rattle.nn_lane.specs.Parts.{KnowsRoom, KnowsNext, SenderStays, SenderLooks, SenderRemembers, TakerStays, TakerLooks, TakerRemembers};

use crate::fault::Refusal;
use crate::message::{Met, Published, Taken};
use crate::plays::{
    Accept, Cut, GiveBack, LaneRule, Learn, SeeClosed, SeeFront, SeeTaken, Shut, Take,
};
use crate::view::View;
use atomic_table::{Seat, Table};
use nn_types::{BlockId, GenerationStamp, Kind, Length, Message};
use std::alloc::{AllocError, Global};
use std::fmt;
use std::marker::Model;
use std::sync::Arc;

// The words of a lane's table that are used: twice the number of accepted messages, plus 1 where the lane is closed; and
// the number of taken ones. Message n lies in slot (n - 1) modulo the capacity. The two words are 128 bytes apart, and the
// unused ones around them keep all else off their cache lines: so who writes one does not slow down who reads the other.
const WORDS: usize = 32;

const FRONT: usize = 8;

const TAKEN: usize = 24;

// No lane carries more messages.
const MAX_MESSAGES: u64 = 1 << 62;

type LaneTable = Table<Message, View, u16, LaneRule, Global>;

type LaneSeat = Seat<Message, View>;

/// The end that sends. A DataNode's thread has it.
#[derive(Drop)]
pub struct Reporter {
    table: Arc<LaneTable>,
    seat: LaneSeat,
    dn: u16,
    accepted: u64,
    // So many messages have a place, as far as this end knows: those that were taken when it last looked, and the
    // capacity more. 0 before it looked.
    limit: u64,
    told: bool,
    prepared: Option<Message>,
}

impl Model for Reporter {
    ghost use Rattle.std.specs.Arc.{arc_value};
    ghost use Rattle.nn_lane.specs.Ends.{Reporter};
    ghost use Rattle.nn_lane.specs.Parts.{ReporterOk};

    ghost Value = { Reporter };

    ghost view = { λ r. record { lane = record { table = r.seat.table_id; node = r.seat.me.0.sender.node }; sent = r.seat.me.0.sender.sent; prepared = r.prepared; seen = r.seat.me.0.sender.seen; loads = r.seat.me.0.sender.loads; checks = r.seat.me.0.sender.checks; told = r.seat.me.0.sender.told } };

    ghost invariant = { λ r. ReporterOk (arc_value r.table).shared.table_id r.seat r.dn r.accepted r.limit r.told r.prepared };
}

// Without the table, which both ends share.
impl fmt::Debug for Reporter {
    fn fmt<D: fmt::Write>(&self, f: &mut fmt::Formatter<D>) -> fmt::Result {
        f.debug_struct("Reporter")
            .field("dn", &self.dn)
            .field("accepted", &self.accepted)
            .field("told", &self.told)
            .field("prepared", &self.prepared)
            .finish_non_exhaustive()
    }
}

/// The end that takes, and that may close the lane. The standby has it.
#[derive(Drop)]
pub struct LaneEnd {
    table: Arc<LaneTable>,
    seat: LaneSeat,
    taken: u64,
    // So many messages were accepted when this end last looked.
    seen: u64,
    closed: bool,
}

impl Model for LaneEnd {
    ghost use Rattle.std.specs.Arc.{arc_value};
    ghost use Rattle.nn_lane.specs.Ends.{LaneEnd};
    ghost use Rattle.nn_lane.specs.Parts.{LaneEndOk};

    ghost Value = { LaneEnd };

    ghost view = { λ r. record { lane = record { table = r.seat.table_id; node = r.seat.me.0.taker.node }; got = r.seat.me.0.taker.got; seen = r.seat.me.0.taker.seen; loads = r.seat.me.0.taker.loads; closed = r.seat.me.0.taker.closed } };

    ghost invariant = { λ r. LaneEndOk (arc_value r.table).shared.table_id r.seat r.taken r.seen r.closed };
}

// How many messages have a place, which is more than `accepted`: the reporter looks only if it knows of no place. Where
// there is none, how many messages were taken.
fn places(table: &LaneTable, seat: &mut LaneSeat, accepted: u64, limit: u64) -> Result<u64, u64>
    requires table { (seat.old.table_id ≡ table.now.shared.table_id) × (table.now.shared.table_id.words ≡ 32) × (table.now.shared.table_id.slots ≤ max_capacity) }
    requires seat { (seat.old.me.0.sends ≡ true) × (seat.old.me.0.takes ≡ false) × (accepted ≡ length seat.old.me.0.sender.sent) × (accepted ≤ 2 ^ 62) }
    requires room { KnowsRoom seat.old.me.0.sender.out seat.old accepted limit }
    ensures stays { SenderStays seat.old seat.new }
    ensures ok { IfOk result (λ n. (seat.new.me.0.sender.out ≡ true) × KnowsRoom true seat.new accepted n) }
    ensures known { IfOk result (λ _. SenderLooks seat.old seat.new seat.new.me.0.sender.seen ⊎ SenderRemembers seat.old seat.new) }
    ensures full { IfErr result (λ taken. SenderLooks seat.old seat.new taken × (accepted ≡ taken + seat.old.table_id.slots)) }
    ensures none_out { IfErr result (λ _. (seat.old.me.0.sender.out ≡ false) × (seat.new.me.0.sender.out ≡ false) × KnowsRoom false seat.new accepted limit) }
{
    if accepted < limit {
        return Ok(limit);
    }
    let capacity = table.slot_count() as u64;
    let taken = table.shared.load::<SeeTaken>(seat, TAKEN);
    if accepted >= taken + capacity {
        return Err(taken);
    }
    Ok(taken + capacity)
}

impl Reporter {
    /// Writes what a message carries into its place in the lane, as the message that comes next; `publish` sends it from
    /// there. It replaces one that was prepared before. O(1); it never waits.
    ///
    /// `Closed` where this end was told before that the lane is closed, then `Exhausted` at 2^62 messages, then `Full` where
    /// all places were taken, whether the lane is closed or not: `is_closed` tells. After a refusal nothing is prepared. It
    /// looks at the other end only if it remembers no place, so `Full` comes of a look in this call.
    pub fn prepare(
        &mut self,
        block: BlockId,
        stamp: GenerationStamp,
        len: Length,
        kind: Kind,
    ) -> Result<(), Refusal>
        ensures lane { self.new.lane ≡ self.old.lane }
        ensures same { (self.new.sent ≡ self.old.sent) × (self.new.told ≡ self.old.told) × StaysUnchecked self.old self.new }
        ensures ok { IfOk result (λ _. (self.new.prepared ≡ Some (next_message self.old.lane.node self.old.sent block stamp len kind)) × HasPlace self.old self.new) }
        ensures refused { IfErr result (λ e. (self.new.prepared ≡ None) × RefusesMessage self.old self.new (next_message self.old.lane.node self.old.sent block stamp len kind) e) }
    {
        let accepted = self.accepted;
        let message = Message {
            dn: self.dn,
            number: accepted + 1,
            block,
            stamp,
            len,
            kind,
        };
        if self.told {
            self.prepared = None;
            return Err(Refusal::Closed { message, accepted });
        }
        if accepted >= MAX_MESSAGES {
            return Err(Refusal::Exhausted { message });
        }
        let table: &LaneTable = &self.table;
        match places(table, &mut self.seat, accepted, self.limit) {
            Ok(limit) => self.limit = limit,
            Err(taken) => return Err(Refusal::Full { message, taken }),
        }
        let slot = (accepted % table.slot_count() as u64) as usize;
        let copy = message;
        table.shared.exchange(&mut self.seat, slot, message);
        self.prepared = Some(copy);
        Ok(())
    }

    /// Sends the message that is prepared. O(1); it tries once and never waits.
    ///
    /// It is refused as `Closed` where the other end closed the lane meanwhile: told of it before, by `is_closed`, it does not
    /// try. Afterwards nothing is prepared.
    pub fn publish(&mut self) -> Published
        ensures lane { self.new.lane ≡ self.old.lane }
        ensures after { (self.new.prepared ≡ None) × (self.new.seen ≡ self.old.seen) × (self.new.loads ≡ self.old.loads) × StaysUnchecked self.old self.new }
        ensures publishes { Publishes self.old self.new result }
    {
        let Some(message) = self.prepared else {
            return Published::Nothing;
        };
        self.prepared = None;
        let accepted = self.accepted;
        if self.told {
            return Published::Refused(Refusal::Closed { message, accepted });
        }
        let front = 2 * accepted;
        let found = self
            .table
            .shared
            .compare_exchange_with::<Accept>(&mut self.seat, FRONT, front, front + 2, &message);
        if found != front {
            self.told = true;
            return Published::Refused(Refusal::Closed { message, accepted });
        }
        self.accepted = accepted + 1;
        Published::Sent(accepted + 1)
    }

    /// Sends one message, and answers its number: messages are counted from 1. It is `prepare`, and then `publish`. O(1); it
    /// never waits.
    ///
    /// `Closed` where this end was told before that the lane is closed; then `Exhausted` at 2^62 messages; then `Full` where
    /// all places were taken, whether the lane is closed or not: `is_closed` tells; and `Closed` where the try to send finds
    /// the lane closed. After a refusal what was sent is as it was, and the message comes back with the number that it would
    /// have had.
    pub fn report(
        &mut self,
        block: BlockId,
        stamp: GenerationStamp,
        len: Length,
        kind: Kind,
    ) -> Result<u64, Refusal>
        ensures lane { (self.new.lane ≡ self.old.lane) × (self.new.prepared ≡ None) × StaysUnchecked self.old self.new }
        ensures ok { IfOk result (λ n. (self.new.sent ≡ self.old.sent ++ next_message self.old.lane.node self.old.sent block stamp len kind ∷ []) × (n ≡ length self.new.sent) × (n ≤ 2 ^ 62) × HasPlace self.old self.new) }
        ensures refused { IfErr result (λ e. (self.new.sent ≡ self.old.sent) × RefusesMessage self.old self.new (next_message self.old.lane.node self.old.sent block stamp len kind) e) }
    {
        self.prepare(block, stamp, len, kind)?;
        match self.publish() {
            Published::Sent(number) => Ok(number),
            Published::Refused(refusal) => Err(refusal),
            Published::Nothing => unreachable!(),
        }
    }

    /// Whether the lane is closed: one look at the other end, unless this end was told before. From then on it is told, and
    /// each message is refused. O(1); it never waits. For a reporter that finds the lane full: `Full` says nothing of a
    /// close.
    ///
    /// `false` says no more than that no close was seen in this call. A message that is prepared stays so: after a `true`
    /// `publish` answers `Closed` for it, with no try.
    pub fn is_closed(&mut self) -> bool
        ensures { LooksForClose self.old self.new result }
    {
        if self.told {
            return true;
        }
        let front = self.table.shared.load::<SeeClosed>(&mut self.seat, FRONT);
        self.told = front != 2 * self.accepted;
        self.told
    }
}

// What lies in a place before its first message.
fn blank() -> Message {
    Message {
        dn: 0,
        number: 0,
        block: BlockId::new(0).unwrap(),
        stamp: GenerationStamp::new(0).unwrap(),
        len: Length::new(0).unwrap(),
        kind: Kind::Deleted,
    }
}

// How many messages were accepted, as far as the end knows: it looks only if it took all that it knows of.
fn known(table: &LaneTable, seat: &mut LaneSeat, taken: u64, seen: u64) -> u64
    requires table { (seat.old.table_id ≡ table.now.shared.table_id) × (table.now.shared.table_id.words ≡ 32) }
    requires seat { (seat.old.me.0.sends ≡ false) × (seat.old.me.0.takes ≡ true) × (taken ≡ length seat.old.me.0.taker.got) × (seen ≡ seat.old.me.0.taker.seen) }
    requires next { KnowsNext seat.old.me.0.taker.next seat.old taken }
    ensures stays { TakerStays seat.old seat.new }
    ensures seen { (result ≡ seat.new.me.0.taker.seen) × (taken ≤ result) × (seat.old.me.0.taker.closed ≡ true → result ≡ seen) }
    ensures some { taken < result → (TakerLooks seat.old seat.new ⊎ TakerRemembers seat.old seat.new) × ((x : Message) × (seat.new.me.0.taker.next ≡ Some x) × KnowsNext (Some x) seat.new taken) }
    ensures none { result ≤ taken → TakerLooks seat.old seat.new × (seat.new.me.0.taker.next ≡ None) × KnowsNext None seat.new taken }
{
    if taken < seen {
        return seen;
    }
    table.shared.load::<SeeFront>(seat, FRONT) / 2
}

// Without the table, as above.
impl fmt::Debug for LaneEnd {
    fn fmt<D: fmt::Write>(&self, f: &mut fmt::Formatter<D>) -> fmt::Result {
        f.debug_struct("LaneEnd")
            .field("taken", &self.taken)
            .field("seen", &self.seen)
            .field("closed", &self.closed)
            .finish_non_exhaustive()
    }
}

impl LaneEnd {
    /// Takes the oldest message: the next one that its reporter sent. O(1); it never waits.
    ///
    /// Of an open lane `Empty` says no more than that none was seen in this call; of a closed one, that all were taken. It
    /// looks at the reporter's end only if it took all that it remembers.
    pub fn take(&mut self) -> Taken
        ensures lane { (self.new.lane ≡ self.old.lane) × (self.new.closed ≡ self.old.closed) }
        ensures gives { GivesMessage self.old self.new result }
        ensures looked { Looked self.old self.new result }
        ensures closed { self.old.closed ≡ true → self.new.seen ≡ self.old.seen }
    {
        let table: &LaneTable = &self.table;
        let shared = &table.shared;
        let taken = self.taken;
        let accepted = known(table, &mut self.seat, taken, self.seen);
        self.seen = accepted;
        if taken >= accepted {
            return Taken::Empty { accepted };
        }
        let slot = (taken % table.slot_count() as u64) as usize;
        let message = *self.seat.slot_mut(shared, slot);
        shared.store::<Take>(&mut self.seat, TAKEN, taken + 1);
        self.taken = taken + 1;
        Taken::Message(message)
    }

    /// Closes the lane, and answers how many messages it accepted: from now on its reporter sends no more, and learns so
    /// at its next try. What was accepted and not taken is still to be taken. O(1); it never waits. Closed again, it
    /// answers the same.
    pub fn close(&mut self) -> u64
        ensures lane { (self.new.lane ≡ self.old.lane) × (self.new.got ≡ self.old.got) × (self.new.loads ≡ self.old.loads) }
        ensures count { (result ≡ self.new.seen) × (self.old.seen ≤ result) × (length self.new.got ≤ result) }
        ensures closed { self.new.closed ≡ true }
        ensures again { self.old.closed ≡ true → self.new.seen ≡ self.old.seen }
    {
        let front = self.table.shared.fetch_or::<Shut>(&mut self.seat, FRONT, 1);
        self.closed = true;
        self.seen = front / 2;
        front / 2
    }

    /// How many messages the lane holds at most: 1 to `MAX_CAPACITY`.
    pub fn capacity(&self) -> usize
        ensures { result ≡ capacity_of self.now.lane }
    {
        let table: &LaneTable = &self.table;
        table.slot_count()
    }

    /// Whether this end closed the lane.
    pub fn closed(&self) -> bool
        ensures closed { result ≡ self.now.closed }
    {
        self.closed
    }
}

/// Ends a lane, and answers what both ends counted. A message that was prepared and not sent is in neither count.
///
/// What was taken comes first of what was sent; of a closed lane the close counted all that was sent. The reporter was told
/// of a close only if there was one, and neither end saw more of the other than there was.
pub fn meet(end: LaneEnd, reporter: Reporter) -> Met
    requires { end.lane ≡ reporter.lane }
    ensures prefix { StartsWith reporter.sent end.got }
    ensures closed { end.closed ≡ true → end.seen ≡ length reporter.sent }
    ensures told { reporter.told ≡ true → end.closed ≡ true }
    ensures seen { (reporter.seen ≤ length end.got) × (end.seen ≤ length reporter.sent) }
    ensures counts { (result.accepted ≡ length reporter.sent) × (result.taken ≡ length end.got) }
{
    let LaneEnd {
        table,
        mut seat,
        taken,
        seen: _,
        closed: _,
    } = end;
    let Reporter {
        table: other,
        seat: mut theirs,
        dn: _,
        accepted,
        limit: _,
        told: _,
        prepared: _,
    } = reporter;
    drop(other);
    let shared = &table.shared;
    shared.load::<GiveBack>(&mut theirs, TAKEN);
    shared.join_seat::<Cut>(&mut seat, theirs);
    shared.load::<Learn>(&mut seat, FRONT);
    Met { accepted, taken }
}

/// The two ends of a new lane of this DataNode, which holds at most `capacity` messages at a time. No other call takes
/// memory.
pub fn lane(alloc: Global, dn: u16, capacity: usize) -> Result<(Reporter, LaneEnd), AllocError>
    requires dn { (1 ≤ dn) × (dn ≤ max_datanodes) }
    requires capacity { (1 ≤ capacity) × (capacity ≤ max_capacity) }
    ensures one_lane { IfOk result (λ ends. (ends.0.lane ≡ ends.1.lane) × (ends.0.lane.node ≡ dn) × (capacity_of ends.0.lane ≡ capacity)) }
    ensures empty { IfOk result (λ ends. (ends.0.sent ≡ []) × (ends.0.prepared ≡ None) × (ends.1.got ≡ [])) }
    ensures open { IfOk result (λ ends. (ends.0.told ≡ false) × (ends.1.closed ≡ false)) }
    ensures unseen { IfOk result (λ ends. (ends.0.seen ≡ 0) × (ends.0.loads ≡ 0) × (ends.1.seen ≡ 0) × (ends.1.loads ≡ 0)) }
{
    let slots = Vec::from_elem(alloc, blank(), capacity)?;
    let made = Table::new(alloc, &[0; WORDS], slots, &dn);
    let Ok((table, mut seat)) = made else {
        return Err(AllocError);
    };
    let theirs = table.shared.split_seat::<Cut>(&mut seat);
    let table = Arc::new(alloc, table)?;
    let other = Arc::try_clone(&table)?;
    let reporter = Reporter {
        table: other,
        seat: theirs,
        dn,
        accepted: 0,
        limit: 0,
        told: false,
        prepared: None,
    };
    let end = LaneEnd {
        table,
        seat,
        taken: 0,
        seen: 0,
        closed: false,
    };
    Ok((reporter, end))
}
