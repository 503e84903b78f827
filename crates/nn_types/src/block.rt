//! Blocks, and the list of blocks that a file has.
ghost use Rattle.std.specs.Prelude.{◌≡◌, ◌++◌, ◌∷◌, [], OnOk, OnErr, IfOk};
ghost use Rattle.nn_types.specs.Block.{IsBlock, AreBlocks};

use crate::number::{BlockId, GenerationStamp, Length};
use std::alloc::{AllocError, Global};
use std::marker::Model;

/// One block of a file, as the log names it.
#[derive(Clone, Copy, Debug, PartialEq, Eq)]
pub struct Block {
    pub id: BlockId,
    pub stamp: GenerationStamp,
    pub len: Length,
}

impl Block {
    // Recalls to the prover that its numbers keep their limits. It does nothing when it runs.
    fn recall_invariant(&self)
        ensures { IsBlock self.now }
    {
        self.id.get();
        self.stamp.get();
        self.len.get();
    }
}

/// Blocks in file order.
#[derive(Debug, Drop)]
pub struct Blocks {
    items: Vec<Block>,
}

impl Model for Blocks {
    ghost use Rattle.std.specs.Prelude.{List};
    ghost use Rattle.nn_types.specs.declared.block.Block.{Block};
    ghost use Rattle.nn_types.specs.Block.{AreBlocks};

    ghost Value = { List Block };

    ghost view = { λ b. b.items.items };

    ghost invariant = { λ b. AreBlocks b.items.items };
}

impl Blocks {
    /// No blocks, which takes no memory.
    pub fn new(alloc: Global) -> Blocks
        ensures { result ≡ [] }
    {
        Blocks {
            items: Vec::new(alloc),
        }
    }

    /// The blocks in file order.
    pub fn as_slice(&self) -> &[Block]
        ensures { result.now ≡ self.now }
    {
        &self.items
    }

    /// Recalls to the prover that the numbers of all blocks keep their limits. It does nothing when it runs.
    pub fn recall_invariant(&self)
        ensures { AreBlocks self.now }
    {
        let _ = &self.items;
    }

    /// Adds a block at the end. If memory runs out, the list is as it was.
    pub fn push(&mut self, block: Block) -> Result<(), AllocError>
        ensures ok { OnOk result (self.new ≡ self.old ++ block ∷ []) }
        ensures err { OnErr result (self.new ≡ self.old) }
    {
        block.recall_invariant();
        push_block(&mut self.items, block)?;
        Ok(())
    }

    /// A second list of the same blocks.
    pub fn copied(&self) -> Result<Blocks, AllocError>
        ensures { IfOk result (λ list. list ≡ self.now) }
    {
        let items = self.items.clone()?;
        Ok(Blocks { items })
    }
}

// Most files have one block, and a first push alone would make room for four.
fn push_block(items: &mut Vec<Block>, block: Block) -> Result<(), AllocError>
    ensures ok { OnOk result (items.new.items ≡ items.old.items ++ block ∷ []) }
    ensures err { OnErr result (items.new.items ≡ items.old.items) }
{
    if items.is_empty() {
        items.reserve_exact(1)?;
    }
    items.push(block)?;
    Ok(())
}
