//! The table of replicas.
ghost use Rattle.std.specs.Prelude.{IsTrue};
ghost use Rattle.nn_replicas.specs.Calls.{is_kept};

use crate::calls::call::Call;
use nn_replicas::{Figures, Replicas, class};
use nn_types::{Block, Kind, Replica, Settings};

/// Calls that change the table. Whether this was one.
pub fn change(table: &mut Replicas, call: &mut Call<'_>) -> bool {
    if call.is("table") {
        empty(table, call);
    } else if call.is("set") {
        set(table, call);
    } else if call.is("place") {
        call.failed = table.place(call.datanode(1), call.id(2)).is_err() || call.failed;
    } else if call.is("put") {
        put(table, call);
    } else if call.is("erase") {
        table.erase(call.datanode(1), call.id(2));
    } else if call.is("retire") {
        table.retire(call.id(1));
    } else {
        return read(table, call);
    }
    true
}

// A new table for these settings.
fn empty(table: &mut Replicas, call: &mut Call<'_>) {
    match Settings::new(call.datanode(1), call.datanode(2)) {
        Some(settings) => *table = Replicas::new(call.alloc, settings),
        None => call.failed = true,
    }
}

fn set(table: &mut Replicas, call: &mut Call<'_>) {
    let closed = call.word(4) == "closed";
    let replication = if call.words.len() > 5 {
        call.datanode(5)
    } else {
        1
    };
    let set = table.set_block(call.block(), closed, replication);
    call.failed = set.is_err() || call.failed;
}

fn put(table: &mut Replicas, call: &mut Call<'_>) {
    let replica = replica(call);
    call.failed = table.put(call.datanode(1), call.id(2), replica).is_err() || call.failed;
}

fn replica(call: &mut Call<'_>) -> Replica
    ensures { IsTrue (is_kept result.kind) }
{
    let received = call.word(3) == "received";
    let kind = if received {
        Kind::Received
    } else {
        Kind::Receiving
    };
    Replica {
        stamp: call.stamp(4),
        len: call.length(5),
        kind,
    }
}

// Calls that change nothing.
fn read(table: &Replicas, call: &mut Call<'_>) -> bool {
    if call.is("safe") {
        call.show(&table.safe_count());
        call.say("of");
        call.show(&table.total());
    } else if call.is("safe_count") {
        call.show(&table.safe_count());
    } else if call.is("total") {
        call.show(&table.total());
    } else if call.is("figures") {
        show_figures(&table.figures(), call);
    } else if call.is("unsafe") {
        show_unsafe(table, call);
    } else if call.is("ordered") {
        let ordered = table.has_order(call.datanode(1), call.id(2));
        call.show(&ordered);
    } else if call.is("replicas") {
        show_replicas(table, call);
    } else if call.is("orders") {
        show_orders(table, call);
    } else if call.is("orders_of") {
        for dn in table.orders_of(call.id(1)) {
            call.show(&dn);
        }
    } else if call.is("rows") {
        for (_, row) in table.rows() {
            call.show_row(&row);
        }
    } else {
        return false;
    }
    call.none();
    true
}

// Figures of blocks, and behind `and` those of replicas, orders and places.
fn show_figures(figures: &Figures, call: &mut Call<'_>) {
    call.show(&figures.blocks);
    call.show(&figures.total);
    call.show(&figures.safe);
    call.show(&figures.missing);
    call.show(&figures.missing_of_one);
    call.show(&figures.under_replicated);
    call.show(&figures.over_replicated);
    call.say("and");
    call.show(&figures.stale);
    call.show(&figures.ahead);
    call.show(&figures.wrong_length);
    call.show(&figures.orders);
    call.show(&figures.places);
}

// The blocks from an id on that have too few live replicas, each with how many.
fn show_unsafe(table: &Replicas, call: &mut Call<'_>) {
    let from = call.id(1);
    for (block, live) in table.unsafe_blocks(from) {
        if let Some(live) = live {
            call.show(&block.get());
            call.show(&live);
        }
    }
}

// The replicas of a block, each as its DataNode and its class.
fn show_replicas(table: &Replicas, call: &mut Call<'_>) {
    let block = call.block();
    for (dn, replica) in table.replicas_of(block.id) {
        call.show(&dn);
        call.say(class_of(replica, &block));
    }
}

fn class_of(replica: Replica, block: &Block) -> &'static str {
    class(replica, *block).word()
}

// The orders, each as its block and its DataNode.
fn show_orders(table: &Replicas, call: &mut Call<'_>) {
    let Ok(orders) = table.orders(call.alloc) else {
        call.failed = true;
        return;
    };
    for (block, dn) in &orders {
        call.show(&block.get());
        call.show(dn);
    }
}
