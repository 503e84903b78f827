//! What an edit touched.
ghost use Rattle.std.specs.Prelude.{◌≡◌, ◌+◌, ◌-◌, ◌++◌, ◌∷◌, [], ◌<◌, nat_lt, false, if◌then◌else◌, map, drop, length, IfOk, OnOk, Some, None};
ghost use Rattle.nn_model.specs.Apply.{new_block};
ghost use Rattle.nn_model.specs.Blocks.{block_row};
ghost use Rattle.nn_model.specs.Touched.{nothing};
ghost use Rattle.nn_tree.specs.Touched.{touched_of};

use nn_model::BlockRow;
use nn_types::{Block, BlockId, GenerationStamp, Length, Replication};
use std::alloc::{AllocError, Global};

/// What an edit touched: all that a table of replicas has to follow.
#[derive(Debug, Drop)]
pub struct Touched {
    /// The blocks that the edit added or wrote anew, in file order, each with whether its file is closed now.
    pub changed: Vec<BlockRow>,
    /// The replication of their file. Of an edit that writes no blocks it is 0.
    pub replication: Replication,
    /// The ids of the blocks that left the namespace, ascending.
    pub retired: Vec<BlockId>,
    /// The first and the last of the ids that the issue of a higher one passed over.
    pub skipped: Option<(BlockId, BlockId)>,
}

impl Touched {
    /// Nothing, which takes no memory.
    pub(crate) fn nothing(alloc: Global) -> Touched
        ensures touched { touched_of result ≡ nothing }
        ensures replication { result.replication ≡ 0 }
    {
        Touched {
            changed: Vec::new(alloc),
            replication: Replication::new(0).unwrap(),
            retired: Vec::new(alloc),
            skipped: None,
        }
    }

    /// One block that is new. Its file has still to be found.
    pub(crate) fn added(
        alloc: Global,
        id: BlockId,
        stamp: GenerationStamp,
    ) -> Result<Touched, AllocError>
        ensures { IfOk result (λ t. touched_of t ≡ record nothing { changed = block_row false (new_block id stamp) ∷ [] }) }
    {
        let mut changed = Vec::new(alloc);
        changed.push(BlockRow {
            block: empty_block(id, stamp),
            closed: false,
        })?;
        Ok(Touched {
            changed,
            ..Touched::nothing(alloc)
        })
    }

    /// A list of blocks instead of another one, which may have more of them, in a file that is closed or open now.
    pub(crate) fn listed(
        alloc: Global,
        old: &[Block],
        new: &[Block],
        closed: bool,
        replication: Replication,
    ) -> Result<Touched, AllocError>
        ensures touched { IfOk result (λ t. touched_of t
            ≡ record { changed = map (λ b. block_row closed b) new.now; retired = map (λ b. b.id) (drop (length new.now) old.now); skipped = None }) }
        ensures replication { IfOk result (λ t. t.replication ≡ replication) }
    {
        let mut changed = Vec::with_capacity(alloc, new.len())?;
        push_rows(&mut changed, new, closed)?;
        let mut retired = Vec::new(alloc);
        push_ids(&mut retired, past(old, new))?;
        Ok(Touched {
            changed,
            replication,
            retired,
            skipped: None,
        })
    }

    /// The blocks of a file that is open again.
    pub(crate) fn opened(
        alloc: Global,
        blocks: &[Block],
        replication: Replication,
    ) -> Result<Touched, AllocError>
        ensures touched { IfOk result (λ t. touched_of t ≡ record nothing { changed = map (λ b. block_row false b) blocks.now }) }
        ensures replication { IfOk result (λ t. t.replication ≡ replication) }
    {
        let mut changed = Vec::with_capacity(alloc, blocks.len())?;
        push_rows(&mut changed, blocks, false)?;
        Ok(Touched {
            changed,
            replication,
            ..Touched::nothing(alloc)
        })
    }

    /// Ids that left the namespace.
    pub(crate) fn deleted(alloc: Global, retired: Vec<BlockId>) -> Touched
        ensures touched { touched_of result ≡ record nothing { retired = retired.items } }
        ensures replication { result.replication ≡ 0 }
    {
        Touched {
            retired,
            ..Touched::nothing(alloc)
        }
    }

    /// The ids between the last one that was issued and a higher one.
    pub(crate) fn issued(alloc: Global, last: BlockId, id: BlockId) -> Touched
        ensures touched { touched_of result ≡ record nothing { skipped = if nat_lt (last + 1) id then Some (last + 1, id - 1) else None } }
        ensures replication { result.replication ≡ 0 }
    {
        Touched {
            skipped: between(last, id),
            ..Touched::nothing(alloc)
        }
    }
}

/// A block that was just added.
pub(crate) fn empty_block(id: BlockId, stamp: GenerationStamp) -> Block
    ensures { result ≡ new_block id stamp }
{
    Block {
        id,
        stamp,
        len: Length::new(0).unwrap(),
    }
}

// The first and the last id between two.
fn between(last: BlockId, id: BlockId) -> Option<(BlockId, BlockId)>
    ensures { result ≡ (if nat_lt (last + 1) id then Some (last + 1, id - 1) else None) }
{
    let first = last.get() + 1;
    let end = id.get();
    if end <= first {
        return None;
    }
    Some((BlockId::new(first).unwrap(), BlockId::new(end - 1).unwrap()))
}

// What the first list has past the length of the second.
fn past<'a>(old: &'a [Block], new: &[Block]) -> &'a [Block]
    ensures { result.now ≡ drop (length new.now) old.now }
{
    &old[new.len().min(old.len())..]
}

/// Adds the ids of blocks at the end.
pub(crate) fn push_ids(out: &mut Vec<BlockId>, blocks: &[Block]) -> Result<(), AllocError>
    ensures { OnOk result (out.new.items ≡ out.old.items ++ map (λ b. b.id) blocks.now) }
{
    for block in blocks {
        out.push(block.id)?;
    }
    Ok(())
}

// Adds the rows of blocks of one file, which is closed or open, at the end.
fn push_rows(out: &mut Vec<BlockRow>, list: &[Block], closed: bool) -> Result<(), AllocError>
    ensures { OnOk result (out.new.items ≡ out.old.items ++ map (λ b. block_row closed b) list.now) }
{
    for block in list {
        out.push(BlockRow {
            block: *block,
            closed,
        })?;
    }
    Ok(())
}
