//! `set_block`, `place` and `put` of the replica table.
ghost use Rattle.std.specs.Prelude.{◌<◌, ◌≤◌};

use crate::full_heap::heap::Heap;
use crate::full_heap::lines::Lines;
use crate::full_heap::scenario::EndFault;
use crate::full_heap::trial::{Answer, Changing, Fate, Pair, both};
use nn_replicas::Replicas;
use nn_types::{Block, BlockId, GenerationStamp, Kind, Length, Replica, Settings};
use std::alloc::Global;

// As many blocks as fill each room and need the next one.
const BLOCKS: u64 = 100;

// And as many as are enough where each request is refused in a run of its own.
const FEW_BLOCKS: u64 = 20;

// The DataNodes of a block: three have room in its row.
const DATANODES: u16 = 6;

#[derive(Clone, Copy)]
struct SetBlock {
    block: Block,
}

#[derive(Clone, Copy)]
struct Place {
    dn: u16,
    block: BlockId,
}

#[derive(Clone, Copy)]
struct Put {
    dn: u16,
    block: Block,
}

impl Changing for SetBlock {
    type Subject = Replicas;

    fn call(&self, table: &mut Replicas) -> Answer {
        answer_of(table.set_block(self.block, true, 3).is_ok())
    }

    fn is_unchanged(&self, table: &Replicas, twin: &Replicas) -> bool {
        are_alike(table, twin)
    }
}

impl Changing for Place {
    type Subject = Replicas;

    fn call(&self, table: &mut Replicas) -> Answer {
        answer_of(table.place(self.dn, self.block).is_ok())
    }

    fn is_unchanged(&self, table: &Replicas, twin: &Replicas) -> bool {
        are_alike(table, twin)
    }
}

impl Changing for Put {
    type Subject = Replicas;

    fn call(&self, table: &mut Replicas) -> Answer {
        let Block { id, stamp, len } = self.block;
        let kind = Kind::Received;
        answer_of(table.put(self.dn, id, Replica { stamp, len, kind }).is_ok())
    }

    fn is_unchanged(&self, table: &Replicas, twin: &Replicas) -> bool {
        are_alike(table, twin)
    }
}

fn answer_of(is_ok: bool) -> Answer {
    if is_ok {
        Answer::Done
    } else {
        Answer::OutOfMemory
    }
}

// What is printed for each call.
const NAMES: [&str; 3] = ["Replicas::set_block", "Replicas::place", "Replicas::put"];

/// Makes the calls on a new table, and on one that has just filled its room.
pub fn change_table(
    alloc: Global,
    is_ample: bool,
    settings: Settings,
    lines: &mut Lines,
) -> Result<(), EndFault> {
    let blocks = if is_ample { FEW_BLOCKS } else { BLOCKS };
    let (table, fates) = play(alloc, is_ample, blocks, settings)?;
    let (undisturbed, others) = play(alloc, true, blocks, settings)?;
    let is_same = are_alike(&table, &undisturbed);
    lines.push(&NAMES, &both(fates, others, is_same))
}

fn play(
    alloc: Global,
    is_ample: bool,
    blocks: u64,
    settings: Settings,
) -> Result<(Replicas, [Fate; 3]), EndFault>
    requires { blocks ≤ 100 }
{
    let mut heap = Heap::new(alloc, is_ample)?;
    let mut pair = Pair {
        subject: Replicas::new(alloc, settings),
        twin: Replicas::new(alloc, settings),
    };
    let mut fates = [Fate::Untried; 3];
    for n in 0..blocks {
        fates[0] = fates[0].and(pair.change(&mut heap, &SetBlock { block: block_of(n) }));
        for dn in 1..=DATANODES {
            let orphan = block_of(n + BLOCKS).id;
            fates[1] = fates[1].and(pair.change(&mut heap, &Place { dn, block: orphan }));
            fates[2] = fates[2].and(pair.change(
                &mut heap,
                &Put {
                    dn,
                    block: block_of(n),
                },
            ));
        }
    }
    Ok((pair.subject, fates))
}

fn block_of(n: u64) -> Block
    requires { n < 1000 }
{
    Block {
        id: BlockId::new(n).unwrap(),
        stamp: GenerationStamp::new(1001).unwrap(),
        len: Length::new(5).unwrap(),
    }
}

// Whether two tables show the same.
fn are_alike(table: &Replicas, twin: &Replicas) -> bool {
    table.figures() == twin.figures()
        && (0..2 * BLOCKS).all(|n| match BlockId::new(n) {
            Some(block) => are_alike_at(table, twin, block),
            None => false,
        })
}

/// Whether two tables have the same replicas and orders of a block. It takes no memory.
pub fn are_alike_at(table: &Replicas, twin: &Replicas, block: BlockId) -> bool {
    let mut others = twin.replicas_of(block);
    for replica in table.replicas_of(block) {
        if others.next() != Some(replica) {
            return false;
        }
    }
    others.next().is_none()
        && (1..=DATANODES).all(|dn| table.has_order(dn, block) == twin.has_order(dn, block))
}
