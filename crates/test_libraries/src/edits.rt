//! Transactions of many blocks: a long line, and one that would be too long.
use crate::values::{block, txid};
use nn_edits::write_edit;
use nn_types::{Blocks, Edit, Path, Tx};
use std::alloc::Global;
use std::test::Fail;

// As many blocks, all the same.
fn same_blocks(alloc: Global, count: usize) -> Result<Blocks, Fail> {
    let mut blocks = Blocks::new(alloc);
    for _ in 0..count {
        blocks.push(block(1_073_741_825, 1001, 0)?)?;
    }
    Ok(blocks)
}

// The number of the fault of writing an update of so many blocks, or 0.
fn fault_of_writing(alloc: Global, count: usize) -> Result<u8, Fail> {
    let txid = txid(2)?;
    let edit = update(alloc, count)?;
    Ok(fault_of(alloc, &Tx { txid, edit }))
}

fn update(alloc: Global, count: usize) -> Result<Edit, Fail> {
    let path = Path::parse(alloc, "/a")?;
    let blocks = same_blocks(alloc, count)?;
    Ok(Edit::UpdateBlocks { path, blocks })
}

fn fault_of(alloc: Global, tx: &Tx) -> u8 {
    match write_edit(alloc, tx) {
        Ok(_) => 0,
        Err(fault) => fault.number(),
    }
}

#[test]
fn too_long_to_write(rt: HostRuntime) -> Result<(), Fail> {
    assert_eq!(rt; fault_of_writing(rt.alloc(), 1000)?, 0);
    assert_eq!(rt; fault_of_writing(rt.alloc(), 2000)?, 6);
    Ok(())
}
