//! Directories that renames hung below each other, 3,000,000 levels deep. A test runs on a stack of the usual size, 8 MiB:
//! a walk that made one call a level would end the process.
use nn_tree::{Namespace, Rows};
use nn_types::{Edit, Path};
use std::alloc::Global;
use std::process::Abort;
use std::test::Fail;

/// Each chain is hung below the end of the next one.
const CHAINS: u64 = 375_000;

/// The directories of a chain. Each has two children: the next one, and `b`, which is empty.
const LEVELS: usize = 8;

#[test]
fn measured_listed_and_deleted(rt: HostRuntime) -> Result<(), Fail> {
    let mut namespace = Namespace::new(rt.alloc());
    hangs_and_goes(&rt, rt.alloc(), &mut namespace)
}

// The namespace is dropped at the end, whole.
#[test]
fn dropped(rt: HostRuntime) -> Result<(), Fail> {
    let mut namespace = Namespace::new(rt.alloc());
    hang(rt.alloc(), &mut namespace)
}

fn hangs_and_goes(rt: &impl Abort, alloc: Global, namespace: &mut Namespace) -> Result<(), Fail> {
    hang(alloc, namespace)?;
    has(rt, namespace, 6_000_001, 3_000_001)?;
    let mut rows = namespace.rows();
    begins(rt, &mut rows)?;
    drop(rows);
    let path = top(alloc, CHAINS - 1)?;
    apply(namespace, Edit::Delete { path })?;
    has(rt, namespace, 1, 0)
}

// So many paths, of so many names at most.
fn has(rt: &impl Abort, namespace: &Namespace, paths: u64, depth: usize) -> Result<(), Fail> {
    let extent = namespace.extent()?;
    assert_eq!(rt; extent.paths, paths);
    assert_eq!(rt; extent.depth, depth);
    Ok(())
}

// The first rows go down the chain.
fn begins(rt: &impl Abort, rows: &mut Rows<'_>) -> Result<(), Fail> {
    for depth in 0..1_000 {
        let Some(_) = rows.next_row()? else {
            return Err(Fail::new("no row"));
        };
        assert_eq!(rt; rows.names().len(), depth);
    }
    Ok(())
}

fn hang(alloc: Global, namespace: &mut Namespace) -> Result<(), Fail> {
    for chain in 0..CHAINS {
        make_chain(alloc, namespace, chain)?;
        hang_below(alloc, namespace, chain)?;
    }
    Ok(())
}

fn make_chain(alloc: Global, namespace: &mut Namespace, chain: u64) -> Result<(), Fail> {
    let mut text = format!(in alloc; "/a{chain}")?;
    for _ in 0..LEVELS {
        make(alloc, namespace, text.as_str())?;
        make_beside(alloc, namespace, text.as_str())?;
        text.push_str("/a")?;
    }
    Ok(())
}

fn make(alloc: Global, namespace: &mut Namespace, text: &str) -> Result<(), Fail> {
    let path = Path::parse(alloc, text)?;
    apply(namespace, Edit::Mkdir { path })
}

fn make_beside(alloc: Global, namespace: &mut Namespace, text: &str) -> Result<(), Fail> {
    let text = format!(in alloc; "{text}/b")?;
    make(alloc, namespace, text.as_str())
}

// The chain before, if there is one, goes below the last directory of this one.
fn hang_below(alloc: Global, namespace: &mut Namespace, chain: u64) -> Result<(), Fail> {
    let Some(before) = chain.checked_sub(1) else {
        return Ok(());
    };
    let src = top(alloc, before)?;
    let text = format!(in alloc; "/a{chain}/a/a/a/a/a/a/a/a{before}")?;
    let dst = Path::parse(alloc, text.as_str())?;
    apply(namespace, Edit::Rename { src, dst })
}

fn top(alloc: Global, chain: u64) -> Result<Path, Fail> {
    let text = format!(in alloc; "/a{chain}")?;
    Ok(Path::parse(alloc, text.as_str())?)
}

// It is dropped by name: each exit that drops it costs the proof seconds.
fn apply(namespace: &mut Namespace, edit: Edit) -> Result<(), Fail> {
    let done = is_applied(namespace, &edit);
    drop(edit);
    if done {
        Ok(())
    } else {
        Err(Fail::new("not applied"))
    }
}

fn is_applied(namespace: &mut Namespace, edit: &Edit) -> bool {
    match namespace.apply(edit) {
        Ok(_) => true,
        Err(_) => false,
    }
}
