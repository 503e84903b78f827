//! `Namespace::apply`, with each operation.
ghost use Rattle.std.specs.Prelude.{◌<◌};

use crate::full_heap::heap::Heap;
use crate::full_heap::lines::Lines;
use crate::full_heap::scenario::{EndFault, Scenario};
use crate::full_heap::trial::{Answer, Changing, Fate, both, change_both};
use crate::shown::have_the_same_listing;
use nn_tree::{Found, Namespace};
use nn_types::{BlockId, Edit, EditFault, Path};
use std::alloc::{AllocError, Global};

// How many operations there are.
const OPERATIONS: usize = 13;

// The names of the operations, each at its place.
const NAMES: [&str; OPERATIONS] = [
    "OP_START_LOG_SEGMENT",
    "OP_MKDIR",
    "OP_ADD",
    "OP_ALLOCATE_BLOCK_ID",
    "OP_SET_GENSTAMP_V2",
    "OP_ADD_BLOCK",
    "OP_UPDATE_BLOCKS",
    "OP_CLOSE",
    "OP_APPEND",
    "OP_SET_REPLICATION",
    "OP_RENAME",
    "OP_DELETE",
    "OP_END_LOG_SEGMENT",
];

// The place of an edit's operation.
fn place_of(edit: &Edit) -> usize
    ensures { result < 13 }
{
    match edit {
        Edit::StartSegment { .. } => 0,
        Edit::Mkdir { .. } => 1,
        Edit::Add { .. } => 2,
        Edit::AllocateBlockId { .. } => 3,
        Edit::SetGenstamp { .. } => 4,
        Edit::AddBlock { .. } => 5,
        Edit::UpdateBlocks { .. } => 6,
        Edit::Close { .. } => 7,
        Edit::Append { .. } => 8,
        Edit::SetReplication { .. } => 9,
        Edit::Rename { .. } => 10,
        Edit::Delete { .. } => 11,
        Edit::EndSegment => 12,
    }
}

// An edit of a log.
#[derive(Clone, Copy)]
struct Apply<'a> {
    edit: &'a Edit,
    scenario: &'a Scenario,
}

impl Changing for Apply<'_> {
    type Subject = Namespace;

    fn call(&self, namespace: &mut Namespace) -> Answer {
        match namespace.apply(self.edit) {
            Ok(_touched) => Answer::Done,
            Err(EditFault::OutOfMemory) => Answer::OutOfMemory,
            Err(_) => Answer::Other,
        }
    }

    fn is_unchanged(&self, namespace: &Namespace, twin: &Namespace) -> bool {
        are_alike(namespace, twin, self.scenario)
    }
}

/// Applies the scenario's log to a new namespace.
pub fn apply_log(
    alloc: Global,
    is_ample: bool,
    scenario: &Scenario,
    lines: &mut Lines,
) -> Result<(), EndFault> {
    let fates = fates_of_log(alloc, is_ample, scenario)?;
    lines.push(&NAMES, &fates)
}

// Each namespace is dropped by name: each exit that drops it costs the proof seconds.
fn fates_of_log(
    alloc: Global,
    is_ample: bool,
    scenario: &Scenario,
) -> Result<[Fate; OPERATIONS], EndFault> {
    let (namespace, fates) = play(alloc, is_ample, scenario)?;
    let undisturbed = play_undisturbed(alloc, scenario, &namespace);
    drop(namespace);
    let (others, is_same) = undisturbed?;
    Ok(both(fates, others, is_same))
}

// Plays where memory is never refused, and tells whether the same namespace comes of it.
fn play_undisturbed(
    alloc: Global,
    scenario: &Scenario,
    namespace: &Namespace,
) -> Result<([Fate; OPERATIONS], bool), EndFault> {
    let (undisturbed, fates) = play(alloc, true, scenario)?;
    let is_same = are_equal(alloc, namespace, &undisturbed, scenario);
    drop(undisturbed);
    Ok((fates, is_same?))
}

fn are_equal(
    alloc: Global,
    namespace: &Namespace,
    other: &Namespace,
    scenario: &Scenario,
) -> Result<bool, AllocError> {
    let is_listed_so = have_the_same_listing(alloc, namespace, other)?;
    Ok(is_listed_so && are_alike(namespace, other, scenario))
}

fn play(
    alloc: Global,
    is_ample: bool,
    scenario: &Scenario,
) -> Result<(Namespace, [Fate; OPERATIONS]), EndFault> {
    let mut heap = Heap::new(alloc, is_ample)?;
    let mut namespace = Namespace::new(alloc);
    let mut twin = Namespace::new(alloc);
    let fates = apply_all(&mut heap, scenario, &mut namespace, &mut twin);
    Ok((namespace, fates))
}

fn apply_all(
    heap: &mut Heap,
    scenario: &Scenario,
    namespace: &mut Namespace,
    twin: &mut Namespace,
) -> [Fate; OPERATIONS] {
    let mut fates = [Fate::Untried; OPERATIONS];
    for segment in &scenario.segments {
        for tx in segment.txs() {
            let call = Apply {
                edit: &tx.edit,
                scenario,
            };
            let fate = &mut fates[place_of(&tx.edit)];
            *fate = fate.and(change_both(heap, &call, namespace, twin));
        }
    }
    fates
}

/// Whether two namespaces show the same at all paths and block ids of the log, and in their blocks. It can do without
/// memory: their extents are compared only where there is memory to measure them.
pub fn are_alike(namespace: &Namespace, twin: &Namespace, scenario: &Scenario) -> bool {
    have_no_other_extent(namespace, twin)
        && namespace.last_block() == twin.last_block()
        && namespace.last_stamp() == twin.last_stamp()
        && have_the_same_blocks(namespace, twin)
        && show_the_same(namespace, twin, scenario)
}

// Whether no measure tells them apart.
fn have_no_other_extent(namespace: &Namespace, twin: &Namespace) -> bool {
    let Ok(extent) = namespace.extent() else {
        return true;
    };
    let Ok(other) = twin.extent() else {
        return true;
    };
    extent == other
}

fn have_the_same_blocks(namespace: &Namespace, twin: &Namespace) -> bool {
    let mut others = twin.blocks();
    for row in namespace.blocks() {
        if others.next() != Some(row) {
            return false;
        }
    }
    others.next().is_none()
}

fn show_the_same(namespace: &Namespace, twin: &Namespace, scenario: &Scenario) -> bool {
    for segment in &scenario.segments {
        for tx in segment.txs() {
            if !show_the_same_of(namespace, twin, &tx.edit) {
                return false;
            }
        }
    }
    true
}

fn show_the_same_of(namespace: &Namespace, twin: &Namespace, edit: &Edit) -> bool {
    match edit {
        Edit::StartSegment { .. } | Edit::EndSegment | Edit::SetGenstamp { .. } => true,
        Edit::AllocateBlockId { id } => have_the_same_status(namespace, twin, *id),
        Edit::Rename { src, dst } => {
            have_the_same_at(namespace, twin, src) && have_the_same_at(namespace, twin, dst)
        }
        Edit::Mkdir { path }
        | Edit::Add { path, .. }
        | Edit::AddBlock { path, .. }
        | Edit::UpdateBlocks { path, .. }
        | Edit::Close { path, .. }
        | Edit::Append { path }
        | Edit::SetReplication { path, .. }
        | Edit::Delete { path } => have_the_same_at(namespace, twin, path),
    }
}

fn have_the_same_status(namespace: &Namespace, twin: &Namespace, id: BlockId) -> bool {
    namespace.status(id) == twin.status(id)
}

fn have_the_same_at(namespace: &Namespace, twin: &Namespace, path: &Path) -> bool {
    match (namespace.lookup(path), twin.lookup(path)) {
        (None, None) | (Some(Found::Dir), Some(Found::Dir)) => true,
        (Some(Found::File(file)), Some(Found::File(other))) => {
            file.replication == other.replication
                && file.closed == other.closed
                && file.blocks.as_slice() == other.blocks.as_slice()
        }
        _ => false,
    }
}
