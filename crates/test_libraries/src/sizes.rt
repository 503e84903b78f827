//! A file of more blocks, and an image of more paths, than any small case has. No clause can say that memory suffices, so a
//! body that gave up at the fifth item would be proved; here it would be seen. A test runs on a stack of the usual size.
ghost use Rattle.std.specs.Prelude.{◌+◌, ◌<◌};

use crate::values;
use crate::values::{replication, stamp};
use nn_device::{Reader, Writer};
use nn_image::{load, save};
use nn_tree::{Found, Namespace};
use nn_types::{Block, Blocks, Edit, Path, Txid};
use std::alloc::Global;
use std::process::Abort;
use std::test::Fail;

// The last block id before the first that a log issues.
const BEFORE: u64 = 1_073_741_824;

// The n-th block that a log issues, with its stamp and length.
fn block(n: u32, generation: u64, len: u64) -> Result<Block, Fail> {
    values::block(BEFORE + u64::from(n), generation, len)
}

#[test]
fn a_file_of_500_000_blocks(rt: HostRuntime) -> Result<(), Fail> {
    let mut namespace = Namespace::new(rt.alloc());
    lives(&rt, rt.alloc(), &mut namespace, 500_000)
}

// A file gets so many blocks, loses the last one and gets lengths, is closed, and is deleted.
fn lives(
    rt: &impl Abort,
    alloc: Global,
    namespace: &mut Namespace,
    count: u32,
) -> Result<(), Fail> {
    make(alloc, namespace)?;
    for n in 1..=count {
        add_block(alloc, namespace, n)?;
    }
    has_blocks(rt, alloc, namespace, count as usize)?;
    let kept = count.saturating_sub(1);
    update(alloc, namespace, kept)?;
    has_blocks(rt, alloc, namespace, kept as usize)?;
    close(alloc, namespace, kept)?;
    delete(rt, alloc, namespace, kept as usize)
}

fn path(alloc: Global) -> Result<Path, Fail> {
    Ok(Path::parse(alloc, "/f")?)
}

fn apply(namespace: &mut Namespace, edit: Edit) -> Result<(), Fail> {
    retired_by(namespace, edit)?;
    Ok(())
}

// How many blocks the edit retires. It is dropped by name: each exit that drops it costs the proof seconds.
fn retired_by(namespace: &mut Namespace, edit: Edit) -> Result<usize, Fail> {
    let retired = count_of(namespace, &edit);
    drop(edit);
    let Some(count) = retired else {
        return Err(Fail::new("not applied"));
    };
    Ok(count)
}

fn count_of(namespace: &mut Namespace, edit: &Edit) -> Option<usize> {
    match namespace.apply(edit) {
        Ok(touched) => Some(touched.retired.len()),
        Err(_) => None,
    }
}

fn make(alloc: Global, namespace: &mut Namespace) -> Result<(), Fail> {
    let stamp = stamp(1_001)?;
    apply(namespace, Edit::SetGenstamp { stamp })?;
    let replication = replication(3)?;
    let path = path(alloc)?;
    apply(namespace, Edit::Add { path, replication })
}

fn add_block(alloc: Global, namespace: &mut Namespace, n: u32) -> Result<(), Fail> {
    let block = block(n, 1_001, 0)?;
    apply(namespace, Edit::AllocateBlockId { id: block.id })?;
    let path = path(alloc)?;
    apply(
        namespace,
        Edit::AddBlock {
            path,
            id: block.id,
            stamp: block.stamp,
        },
    )
}

// The first blocks, each with 5 bytes.
fn list(alloc: Global, count: u32) -> Result<Blocks, Fail> {
    let mut blocks = Blocks::new(alloc);
    for n in 1..=count {
        blocks.push(block(n, 1_001, 5)?)?;
    }
    Ok(blocks)
}

fn update(alloc: Global, namespace: &mut Namespace, count: u32) -> Result<(), Fail> {
    let path = path(alloc)?;
    let blocks = list(alloc, count)?;
    apply(namespace, Edit::UpdateBlocks { path, blocks })
}

fn close(alloc: Global, namespace: &mut Namespace, count: u32) -> Result<(), Fail> {
    let path = path(alloc)?;
    let blocks = list(alloc, count)?;
    apply(namespace, Edit::Close { path, blocks })
}

fn delete(
    rt: &impl Abort,
    alloc: Global,
    namespace: &mut Namespace,
    count: usize,
) -> Result<(), Fail> {
    let path = path(alloc)?;
    let retired = retired_by(namespace, Edit::Delete { path })?;
    assert_eq!(rt; retired, count);
    Ok(())
}

fn has_blocks(
    rt: &impl Abort,
    alloc: Global,
    namespace: &Namespace,
    count: usize,
) -> Result<(), Fail> {
    let path = path(alloc)?;
    let Some(Found::File(file)) = namespace.lookup(&path) else {
        return Err(Fail::new("no file"));
    };
    assert_eq!(rt; file.blocks.as_slice().len(), count);
    Ok(())
}

// ---- An image.

const PATHS: u64 = 10_000;

#[test]
fn an_image_of_10_000_paths(rt: HostRuntime) -> Result<(), Fail> {
    let mut namespace = Namespace::new(rt.alloc());
    grows_and_comes_back(&rt, rt.alloc(), &mut namespace)
}

fn grows_and_comes_back(
    rt: &impl Abort,
    alloc: Global,
    namespace: &mut Namespace,
) -> Result<(), Fail> {
    for n in 0..PATHS {
        make_directory(alloc, namespace, n)?;
    }
    comes_back(rt, alloc, namespace)
}

fn make_directory(alloc: Global, namespace: &mut Namespace, n: u64) -> Result<(), Fail> {
    let text = format!(in alloc; "/d{n}")?;
    let path = Path::parse(alloc, text.as_str())?;
    apply(namespace, Edit::Mkdir { path })
}

// What is saved is loaded, and is saved as the same once more.
fn comes_back(rt: &impl Abort, alloc: Global, namespace: &Namespace) -> Result<(), Fail> {
    let saved = image_of(alloc, namespace)?;
    let again = saved_again(rt, alloc, &saved)?;
    assert!(rt; again == saved);
    // The header, a line for each path, and the last line.
    let lines = saved.iter().filter(|byte| **byte == b'\n').count();
    assert_eq!(rt; lines, 10_002);
    Ok(())
}

// The image of what an image is loaded as.
fn saved_again(rt: &impl Abort, alloc: Global, saved: &[u8]) -> Result<Vec<u8>, Fail> {
    let Ok((loaded, txid)) = load(alloc, &mut Reader::new(saved)) else {
        return Err(Fail::new("not loaded"));
    };
    assert_eq!(rt; txid.get(), PATHS);
    image_of(alloc, &loaded)
}

// The image, with as many transactions as there are paths.
fn image_of(alloc: Global, namespace: &Namespace) -> Result<Vec<u8>, Fail> {
    let Some(txid) = Txid::new(PATHS) else {
        return Err(Fail::new("no txid"));
    };
    let mut image = Writer::new(Vec::new(alloc));
    let Ok(()) = save(alloc, namespace, txid, &mut image) else {
        return Err(Fail::new("not saved"));
    };
    Ok(image.into_inner())
}
