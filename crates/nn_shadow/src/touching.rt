//! Which blocks an edit touched, one after another.
ghost use Rattle.std.specs.Prelude.{◌≡◌, ◌++◌, [], None, OnOk, IfOk, ◌⊎◌};
ghost use Rattle.nn_model.specs.Namespace.{file_at};
ghost use Rattle.nn_model.specs.Touched.{ids_of, ascending, changed_ids};
ghost use Rattle.nn_tree.specs.Touched.{touched_of};
ghost use Rattle.nn_shadow.specs.Touching.{written, Rises, IsNextTouched, IsNextSkipped, lower, lowest, earlier, later};

use nn_postponed::Postponed;
use nn_tree::{Found, Namespace, Touched};
use nn_types::{Block, BlockId, Edit, Path};
use std::alloc::{AllocError, Global};

/// The ids of the blocks that the edit writes, ascending. They are made before the edit is, so that
/// memory cannot run out after it. Where nothing is held nobody asks for them, and there are none.
pub(crate) fn written_ids(
    alloc: Global,
    namespace: &Namespace,
    edit: &Edit,
    held: &Postponed,
) -> Result<Vec<BlockId>, AllocError>
    ensures { IfOk result (λ ids. (held.now ≡ []) ⊎ (ids.items ≡ ascending (written namespace.now edit.now))) }
{
    let mut ids = Vec::new(alloc);
    if held.is_empty() {
        return Ok(ids);
    }
    let Ok(()) = push_written(&mut ids, namespace, edit) else {
        return Err(AllocError);
    };
    ids.sort_unstable();
    Ok(ids)
}

// Adds the ids of the blocks that the edit writes, in file order.
fn push_written(
    ids: &mut Vec<BlockId>,
    namespace: &Namespace,
    edit: &Edit,
) -> Result<(), AllocError>
    ensures { OnOk result (ids.new.items ≡ ids.old.items ++ written namespace.now edit.now) }
{
    match edit {
        Edit::AddBlock { id, .. } => {
            ids.push(*id)?;
            Ok(())
        }
        Edit::UpdateBlocks { blocks, .. } | Edit::Close { blocks, .. } => {
            push_ids(ids, blocks.as_slice())
        }
        Edit::Append { path } => push_file(ids, namespace, path),
        Edit::StartSegment { .. }
        | Edit::EndSegment
        | Edit::Mkdir { .. }
        | Edit::Add { .. }
        | Edit::Rename { .. }
        | Edit::Delete { .. }
        | Edit::SetReplication { .. }
        | Edit::AllocateBlockId { .. }
        | Edit::SetGenstamp { .. } => Ok(()),
    }
}

// Adds the ids of the blocks of a file, which an append opens.
fn push_file(ids: &mut Vec<BlockId>, namespace: &Namespace, path: &Path) -> Result<(), AllocError>
    ensures { OnOk result (ids.new.items ≡ ids.old.items ++ ids_of (file_at namespace.now path.now).blocks) }
{
    let Some(Found::File(file)) = namespace.lookup(path) else {
        return Ok(());
    };
    push_ids(ids, file.blocks.as_slice())
}

fn push_ids(ids: &mut Vec<BlockId>, blocks: &[Block]) -> Result<(), AllocError>
    ensures { OnOk result (ids.new.items ≡ ids.old.items ++ ids_of blocks.now) }
{
    for block in blocks {
        ids.push(block.id)?;
    }
    Ok(())
}

/// The least block of at least `from` that the edit touched, where the ids that it wrote are at hand. Of the ids that it
/// passed over only those count that messages are held about. It takes the logarithm of what was touched and held.
pub(crate) fn next_touched(
    written: &[BlockId],
    touched: &Touched,
    held: &Postponed,
    from: BlockId,
) -> Option<BlockId>
    requires written { written.now ≡ ascending (changed_ids (touched_of touched.now)) }
    requires rises { Rises (touched_of touched.now).retired }
    ensures { IsNextTouched (touched_of touched.now) from held.now result }
{
    let changed = least_from(written, from);
    let retired = least_from(touched.retired.as_slice(), from);
    let skipped = next_skipped(&touched.skipped, held, from);
    earlier(earlier(changed, retired), skipped)
}

// The first one that is at least `from`, of ids that ascend.
fn least_from(ids: &[BlockId], from: BlockId) -> Option<BlockId>
    requires { Rises ids.now }
    ensures { result ≡ lowest from None ids.now }
{
    let mut low = 0;
    let mut high = ids.len();
    while low < high {
        let mid = low + (high - low) / 2;
        if ids[mid] < from {
            low = mid + 1;
        } else {
            high = mid;
        }
    }
    if low < ids.len() {
        return Some(ids[low]);
    }
    None
}

// The least block of the range and of at least `from` that a message is held about.
fn next_skipped(
    range: &Option<(BlockId, BlockId)>,
    held: &Postponed,
    from: BlockId,
) -> Option<BlockId>
    ensures { IsNextSkipped range.now from held.now result }
{
    let Some((first, last)) = *range else {
        return None;
    };
    let Some(block) = held.next_held(later(first, from)) else {
        return None;
    };
    if last < block {
        return None;
    }
    Some(block)
}

fn later(first: BlockId, from: BlockId) -> BlockId
    ensures { result ≡ later first from }
{
    if first < from { from } else { first }
}

fn earlier(found: Option<BlockId>, other: Option<BlockId>) -> Option<BlockId>
    ensures { result ≡ earlier found other }
{
    let Some(id) = other else {
        return found;
    };
    Some(lower(found, id))
}

fn lower(found: Option<BlockId>, id: BlockId) -> BlockId
    ensures { result ≡ lower found id }
{
    match found {
        None => id,
        Some(found) => { if id < found { id } else { found } }
    }
}
