//! The index of the blocks that files have, by id. It names no path, so that a rename leaves it alone.
ghost use Rattle.std.specs.Prelude.{◌≡◌, ℕ, None, cond, true, false, map, OnOk, OnErr, IsErrOf};
ghost use Rattle.nn_sorted.specs.Values.{value_at};
ghost use Rattle.std.specs.Ordering.{nat_cmp};
ghost use Rattle.nn_model.specs.Apply.{has_id};
ghost use Rattle.nn_tree.specs.Entered.{entered, are_new};
ghost use Rattle.nn_tree.specs.View.{renewed, rewritten};

use crate::fault::RestoreFault;
use nn_model::BlockRow;
use nn_sorted::SortedMap;
use nn_types::{Block, BlockId};

// Takes ids out of an index.
pub(crate) fn forget(index: &mut SortedMap<BlockId, BlockRow>, ids: &[BlockId])
    ensures { (q : ℕ) → value_at nat_cmp index.new q ≡ cond (has_id ids.now q) None (value_at nat_cmp index.old q) }
{
    for id in ids {
        let _row = index.remove(id);
    }
}

// Puts the blocks of a file with these ids into an index. Where one of them stands there already, or twice in the
// file, the index is as it was.
pub(crate) fn enter(
    index: &mut SortedMap<BlockId, BlockRow>,
    blocks: &[Block],
    ids: &[BlockId],
    closed: bool,
) -> Result<(), RestoreFault>
    requires { ids.now ≡ map (λ b. b.id) blocks.now }
    ensures ok { OnOk result ((q : ℕ) → value_at nat_cmp index.new q ≡ entered (λ id. value_at nat_cmp index.old id) blocks.now closed q) }
    ensures lawful { OnOk result (are_new (λ id. value_at nat_cmp index.old id) blocks.now ≡ true) }
    ensures refused { IsErrOf result RestoreFault.Refused → are_new (λ id. value_at nat_cmp index.old id) blocks.now ≡ false }
    ensures err { OnErr result ((q : ℕ) → value_at nat_cmp index.new q ≡ value_at nat_cmp index.old q) }
{
    let mut done = 0;
    'entering: while done < blocks.len() {
        let block = blocks[done];
        let key = block.id;
        if index.contains_key(&key) {
            forget(index, &ids[..done]);
            return Err(RestoreFault::Refused);
        }
        let Ok(_none) = index.insert(key, BlockRow { block, closed }) else {
            forget(index, &ids[..done]);
            return Err(RestoreFault::OutOfMemory);
        };
        done += 1;
    }
    Ok(())
}

// Puts a new list of blocks in an index in place of an old one, which has the same ids and perhaps one more.
pub(crate) fn renew(
    index: &mut SortedMap<BlockId, BlockRow>,
    old: &[Block],
    new: &[Block],
    closed: bool,
)
    ensures { (q : ℕ) → value_at nat_cmp index.new q ≡ renewed (λ id. value_at nat_cmp index.old id) old.now new.now closed q }
{
    let both = old.len().min(new.len());
    if let Some(last) = old.get(both) {
        let _row = index.remove(&last.id);
    }
    let mut left = both;
    'left: while left > 0 {
        left -= 1;
        write_row(index, new[left], closed);
    }
}

// Writes the row of a block anew, where it has one.
fn write_row(index: &mut SortedMap<BlockId, BlockRow>, block: Block, closed: bool)
    ensures { (q : ℕ) → value_at nat_cmp index.new q ≡ rewritten (λ id. value_at nat_cmp index.old id) block closed q }
{
    let Some(row) = index.get_mut(&block.id) else {
        return;
    };
    *row = BlockRow { block, closed };
}
