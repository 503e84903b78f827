//! `Namespace::restore`, of directories and of files.
use crate::full_heap::heap::Heap;
use crate::full_heap::lines::Lines;
use crate::full_heap::namespace::are_alike;
use crate::full_heap::scenario::{EndFault, Scenario};
use crate::full_heap::trial::{Answer, Changing, Fate, Pair};
use crate::shown::have_the_same_listing;
use nn_tree::{FileRow, Form, Found, Namespace, RestoreFault};
use nn_types::{BlockId, Edit, GenerationStamp, Path, Profile};
use std::alloc::{AllocError, Global};

// What is printed for each call.
const NAMES: [&str; 2] = [
    "Namespace::restore, a directory",
    "Namespace::restore, a file",
];

// A block id and a stamp above all of a scenario.
const LAST: u64 = 0x3fff_ffff_ffff_ffff;

// A path, with what is restored there.
#[derive(Clone, Copy)]
struct Restore<'a> {
    path: &'a Path,
    found: Found<'a>,
    scenario: &'a Scenario,
}

impl Restore<'_> {
    // A file's blocks are copied, which takes memory before the call does.
    fn form(&self) -> Result<Form, AllocError> {
        match self.found {
            Found::Dir => Ok(Form::Dir),
            Found::File(file) => {
                let blocks = file.blocks.copied()?;
                Ok(Form::File(FileRow {
                    replication: file.replication,
                    closed: file.closed,
                    blocks,
                }))
            }
        }
    }
}

impl Changing for Restore<'_> {
    type Subject = Namespace;

    fn call(&self, namespace: &mut Namespace) -> Answer {
        let Ok(form) = self.form() else {
            return Answer::OutOfMemory;
        };
        match namespace.restore(self.path, form) {
            Ok(()) => Answer::Done,
            Err(RestoreFault::OutOfMemory) => Answer::OutOfMemory,
            Err(RestoreFault::Refused) => Answer::Other,
        }
    }

    fn is_unchanged(&self, namespace: &Namespace, twin: &Namespace) -> bool {
        are_alike(namespace, twin, self.scenario)
    }
}

/// Restores all paths of the namespace after the scenario's first segment, which makes paths and deletes none.
pub fn restore_paths(
    alloc: Global,
    is_ample: bool,
    scenario: &Scenario,
    lines: &mut Lines,
) -> Result<(), EndFault> {
    let source = scenario.after_the_first(alloc)?;
    let fates = fates_of_paths(alloc, is_ample, scenario, &source);
    drop(source);
    lines.push(&NAMES, &fates?)
}

// Each namespace is dropped by name: each exit that drops it costs the proof seconds.
fn fates_of_paths(
    alloc: Global,
    is_ample: bool,
    scenario: &Scenario,
    source: &Namespace,
) -> Result<[Fate; 2], EndFault> {
    let mut heap = Heap::new(alloc, is_ample)?;
    let mut pair = begin(alloc)?;
    let (directories, files) = restore_all(&mut heap, scenario, source, &mut pair);
    drop(heap);
    let is_same = have_the_same_listing(alloc, &pair.subject, source);
    drop(pair);
    let is_same = is_same?;
    Ok([directories.if_same(is_same), files.if_same(is_same)])
}

fn begin(alloc: Global) -> Result<Pair<Namespace>, AllocError> {
    let subject = bare(alloc)?;
    let twin = bare(alloc)?;
    Ok(Pair { subject, twin })
}

// The root alone. No id awaits.
fn bare(alloc: Global) -> Result<Namespace, AllocError> {
    let block = BlockId::new(LAST).unwrap();
    let stamp = GenerationStamp::new(LAST).unwrap();
    Namespace::bare(alloc, block, stamp, &[], Profile::One)
}

fn restore_all(
    heap: &mut Heap,
    scenario: &Scenario,
    source: &Namespace,
    pair: &mut Pair<Namespace>,
) -> (Fate, Fate) {
    let mut fates = (Fate::Untried, Fate::Untried);
    for tx in scenario.txs(0) {
        let Some((path, found)) = made_by(&tx.edit, source) else {
            continue;
        };
        let call = Restore {
            path,
            found,
            scenario,
        };
        let fate = pair.change(heap, &call);
        match found {
            Found::Dir => fates.0 = fates.0.and(fate),
            Found::File(_) => fates.1 = fates.1.and(fate),
        }
    }
    fates
}

// The path that the edit makes, with what stands there.
fn made_by<'a>(edit: &'a Edit, source: &'a Namespace) -> Option<(&'a Path, Found<'a>)> {
    match edit {
        Edit::Mkdir { path } | Edit::Add { path, .. } => {
            let found = source.lookup(path)?;
            Some((path, found))
        }
        _ => None,
    }
}
