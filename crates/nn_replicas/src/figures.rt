//! What an operator reads of a table.
ghost use Rattle.std.specs.Prelude.{◌≡◌, ◌≤◌, ◌<◌, ◌+◌, ◌-◌, ◌^◌, true};
ghost use Rattle.nn_replicas.specs.Figures.{no_figures, replaced, recounted, restood, standing_of, one_if, Changes, MayRecount, MayReplace, MayRestand};

use crate::entry::Difference;
use nn_types::Class;

/// How many blocks, replicas and orders of each kind a table has.
#[derive(Clone, Copy, Debug, PartialEq, Eq)]
pub struct Figures {
    /// Blocks that files hold, closed or open.
    pub blocks: u64,
    /// Blocks of closed files. The figures down to `over_replicated` are of these.
    pub total: u64,
    /// Those with as many live replicas as make a block safe.
    pub safe: u64,
    /// Those without a live replica.
    pub missing: u64,
    /// Those without a live replica whose file has replication 1.
    pub missing_of_one: u64,
    /// Those with fewer live replicas than their file's replication, the missing ones among them.
    pub under_replicated: u64,
    /// Those with more live replicas than their file's replication.
    pub over_replicated: u64,
    /// Replicas whose generation stamp is lower than their block's.
    pub stale: u64,
    /// Replicas whose generation stamp is higher than their block's.
    pub ahead: u64,
    /// Complete replicas that are not as long as their block.
    pub wrong_length: u64,
    /// Orders to delete.
    pub orders: u64,
    /// Pairs of a DataNode and a block for which there is room.
    pub places: u64,
}

impl Figures {
    // Those of no block.
    pub(crate) fn none() -> Figures
        ensures { result ≡ no_figures }
    {
        Figures {
            blocks: 0,
            total: 0,
            safe: 0,
            missing: 0,
            missing_of_one: 0,
            under_replicated: 0,
            over_replicated: 0,
            stale: 0,
            ahead: 0,
            wrong_length: 0,
            orders: 0,
            places: 0,
        }
    }

    // The same once a block that added `was` adds `is`.
    pub(crate) fn replace(&mut self, was: &Figures, is: &Figures)
        requires { MayReplace self.old was.now is.now }
        ensures { self.new ≡ replaced self.old was.now is.now }
    {
        self.blocks = changed(self.blocks, was.blocks, is.blocks);
        self.total = changed(self.total, was.total, is.total);
        self.safe = changed(self.safe, was.safe, is.safe);
        self.missing = changed(self.missing, was.missing, is.missing);
        self.missing_of_one = changed(self.missing_of_one, was.missing_of_one, is.missing_of_one);
        self.under_replicated = changed(
            self.under_replicated,
            was.under_replicated,
            is.under_replicated,
        );
        self.over_replicated = changed(
            self.over_replicated,
            was.over_replicated,
            is.over_replicated,
        );
        self.stale = changed(self.stale, was.stale, is.stale);
        self.ahead = changed(self.ahead, was.ahead, is.ahead);
        self.wrong_length = changed(self.wrong_length, was.wrong_length, is.wrong_length);
        self.orders = changed(self.orders, was.orders, is.orders);
        self.places = changed(self.places, was.places, is.places);
    }

    // The places, the orders and the replicas that are not live, once a DataNode adds what it adds now.
    pub(crate) fn recount(&mut self, change: &Difference)
        requires { MayRecount self.old change.now }
        ensures { self.new ≡ recounted self.old change.now }
    {
        self.places = changed(
            self.places,
            u64::from(change.was.placed),
            u64::from(change.is.placed),
        );
        self.orders = changed(
            self.orders,
            u64::from(change.was.ordered),
            u64::from(change.is.ordered),
        );
        if change.was.class == change.is.class {
            return;
        }
        match change.was.class {
            Some(Class::Stale) => self.stale -= 1,
            Some(Class::Ahead) => self.ahead -= 1,
            Some(Class::WrongLength) => self.wrong_length -= 1,
            None | Some(Class::Live | Class::Building) => {}
        }
        match change.is.class {
            Some(Class::Stale) => self.stale += 1,
            Some(Class::Ahead) => self.ahead += 1,
            Some(Class::WrongLength) => self.wrong_length += 1,
            None | Some(Class::Live | Class::Building) => {}
        }
    }

    // The same once a block of a closed file has one live replica more, which makes so many.
    pub(crate) fn live_came(&mut self, replication: u16, min: u16, live: u64)
        requires one { 1 ≤ live }
        requires may { MayRestand self.old (standing_of true replication min (live - 1)) (standing_of true replication min live) }
        ensures { self.new ≡ restood self.old (standing_of true replication min (live - 1)) (standing_of true replication min live) }
    {
        let replication = u64::from(replication);
        count_if(&mut self.safe, live == u64::from(min));
        forget_if(&mut self.under_replicated, live == replication);
        count_if(&mut self.over_replicated, live == replication + 1);
        if live != 1 {
            return;
        }
        self.missing -= 1;
        forget_if(&mut self.missing_of_one, replication == 1);
    }

    // The same once it has one live replica fewer, and had so many.
    pub(crate) fn live_went(&mut self, replication: u16, min: u16, lived: u64)
        requires one { 1 ≤ lived }
        requires may { MayRestand self.old (standing_of true replication min lived) (standing_of true replication min (lived - 1)) }
        ensures { self.new ≡ restood self.old (standing_of true replication min lived) (standing_of true replication min (lived - 1)) }
    {
        let replication = u64::from(replication);
        forget_if(&mut self.safe, lived == u64::from(min));
        count_if(&mut self.under_replicated, lived == replication);
        forget_if(&mut self.over_replicated, lived == replication + 1);
        if lived != 1 {
            return;
        }
        self.missing += 1;
        count_if(&mut self.missing_of_one, replication == 1);
    }
}

// One more is counted, if there is one.
fn count_if(all: &mut u64, more: bool)
    requires { all.old + one_if more < 2 ^ 64 }
    ensures { all.new ≡ all.old + one_if more }
{
    if more {
        *all += 1;
    }
}

// One is counted no more, if it was.
fn forget_if(all: &mut u64, fewer: bool)
    requires { one_if fewer ≤ all.old }
    ensures { all.new ≡ all.old - one_if fewer }
{
    if fewer {
        *all -= 1;
    }
}

fn changed(all: u64, was: u64, is: u64) -> u64
    requires { Changes all was is }
    ensures { result ≡ (all - was) + is }
{
    all - was + is
}
