//! The namespace: a directory tree, seen as its rows in path order, and an index of the blocks in its files.
ghost use Rattle.std.specs.Prelude.{◌≡◌, ◌≤◌, OnOk, OnErr, IfOk, IfErr, IfSome, IsErrOf, None, Ok, true, option_map, length, []};
ghost use Rattle.nn_types.specs.LawfulEdit.{IsLawfulEdit, IsTypedEdit};
ghost use Rattle.nn_types.specs.Profile.{profile_number};
ghost use Rattle.nn_model.specs.Namespace.{root_alone, lookup};
ghost use Rattle.nn_model.specs.Apply.{applied, refusal};
ghost use Rattle.nn_types.specs.EditFault.{IsFault};
ghost use Rattle.nn_model.specs.Status.{block_at, status_of, status_unheld};
ghost use Rattle.nn_model.specs.Touched.{touched};
ghost use Rattle.nn_tree.specs.Found.{form_of};
ghost use Rattle.nn_tree.specs.At.{names_of};
ghost use Rattle.nn_tree.specs.Listing.{path_rows};
ghost use Rattle.nn_tree.specs.Rows.{extent_of, rows_from, Resumes};
ghost use Rattle.nn_tree.specs.Sizes.{files_of, directories_of};
ghost use Rattle.nn_model.specs.WellFormed.{IsWellFormed, HasUtf8Names};
ghost use Rattle.nn_tree.specs.Blocks.{IsInFile};
ghost use Rattle.nn_tree.specs.Memory.{takes_memory};
ghost use Rattle.nn_tree.specs.Touched.{touched_of, file_replication};

mod blocks;
mod checks;
mod edits;
mod restore;

use crate::found::Found;
use crate::issued::Issued;
use crate::listing::{PathRow, copies};
use crate::rows::{Extent, Rows};
use crate::sizes::Sizes;
use crate::touched::Touched;
use crate::tree::Tree;
pub use blocks::BlockRows;
use nn_model::BlockRow;
use nn_sorted::SortedMap;
use nn_types::{BlockId, Edit, EditFault, GenerationStamp, Path, Status};
use std::alloc::{AllocError, Global};
use std::fmt;
use std::marker::Model;

/// A namespace. Contracts see it as the definition's own record.
#[derive(Drop)]
pub struct Namespace {
    root: Tree,
    // The blocks of all files by id. No row names a path, so that a rename changes none.
    index: SortedMap<BlockId, BlockRow>,
    issued: Issued,
    // Those of all rows.
    sizes: Sizes,
    alloc: Global,
}

impl Model for Namespace {
    ghost use Rattle.nn_sorted.specs.Values.{value_at};
    ghost use Rattle.std.specs.Ordering.{nat_cmp};
    ghost use Rattle.nn_model.specs.Namespace.{Namespace as Seen};
    ghost use Rattle.nn_tree.specs.View.{seen, Holds};

    ghost Value = { Seen };

    ghost view = { λ a. seen a.root a.issued };

    ghost invariant = { λ a. Holds (seen a.root a.issued) (λ id. value_at nat_cmp a.index id) a.sizes };
}

// How much there is, and not the rows: they nest deeper than a recursion may go.
impl fmt::Debug for Namespace {
    fn fmt<W: fmt::Write>(&self, f: &mut fmt::Formatter<W>) -> fmt::Result {
        f.debug_struct("Namespace")
            .field("sizes", &self.sizes)
            .finish_non_exhaustive()
    }
}

impl Namespace {
    /// The namespace before the first edit: the root alone. It takes no memory.
    pub fn new(alloc: Global) -> Namespace
        ensures { result ≡ root_alone }
    {
        Namespace {
            root: Tree::new_dir(alloc),
            index: SortedMap::new(alloc),
            issued: Issued::new(alloc),
            sizes: Sizes::of_root(),
            alloc,
        }
    }

    /// Applies the edit, and tells what it touched. After a fault nothing has changed, also if memory ran out. A mark,
    /// OP_SET_REPLICATION and OP_SET_GENSTAMP_V2 never want memory.
    pub fn apply(&mut self, edit: &Edit) -> Result<Touched, EditFault>
        ensures ok { OnOk result (applied self.old edit.now ≡ Ok self.new) }
        ensures touched { IfOk result (λ t. touched_of t ≡ touched self.old edit.now) }
        ensures replication { IfOk result (λ t. t.replication ≡ file_replication self.new edit.now) }
        ensures fault { IfErr result (λ fault. IsFault fault (refusal self.old edit.now)) }
        ensures memory { IsErrOf result EditFault.OutOfMemory → refusal self.old edit.now ≡ None }
        ensures spare { IsErrOf result EditFault.OutOfMemory → takes_memory edit.now ≡ true }
        ensures err { OnErr result (self.new ≡ self.old) }
        ensures well_formed { IsWellFormed self.old × IsWellFormed self.new }
        ensures lawful { IsLawfulEdit edit.now }
    {
        self.recall_invariant();
        recall_invariant(edit);
        let Ok(touched) = self.change(edit) else {
            return Err(self.why_not(edit));
        };
        self.recall_invariant();
        Ok(touched)
    }

    // Why an edit made no change.
    fn why_not(&self, edit: &Edit) -> EditFault
        ensures fault { IsFault result (refusal self.now edit.now) }
        ensures memory { result ≡ EditFault.OutOfMemory → refusal self.now edit.now ≡ None }
    {
        let Some(fault) = self.refusal(edit) else {
            return EditFault::OutOfMemory;
        };
        fault
    }

    /// Recalls to the prover that a namespace is well formed, and its names are UTF-8. It does nothing when it runs.
    pub fn recall_invariant(&self)
        ensures well_formed { IsWellFormed self.now }
        ensures utf8 { HasUtf8Names self.now }
    {
        let _ = &self.root;
    }

    /// The fault that `apply` would answer where memory does not run out. It takes no memory itself.
    pub fn refusal(&self, edit: &Edit) -> Option<EditFault>
        ensures { result ≡ refusal self.now edit.now }
    {
        match edit {
            Edit::StartSegment { profile } => self.start_refusal(*profile),
            Edit::EndSegment => None,
            Edit::Mkdir { path } => self.mkdir_refusal(path),
            Edit::Add { path, replication } => self.add_refusal(path, *replication),
            Edit::AddBlock { path, id, stamp } => self.add_block_refusal(path, *id, *stamp),
            Edit::UpdateBlocks { path, blocks } | Edit::Close { path, blocks } => {
                self.list_refusal(path, blocks)
            }
            Edit::Append { path } => self.append_refusal(path),
            Edit::Rename { src, dst } => self.rename_refusal(src, dst),
            Edit::Delete { path } => self.delete_refusal(path),
            Edit::SetReplication { path, replication } => {
                self.set_replication_refusal(path, *replication)
            }
            Edit::AllocateBlockId { id } => self.allocate_refusal(*id),
            Edit::SetGenstamp { stamp } => self.set_genstamp_refusal(*stamp),
        }
    }

    /// What stands at a path. Nothing is copied.
    pub fn lookup(&self, path: &Path) -> Option<Found<'_>>
        ensures { option_map form_of result ≡ lookup self.now path.now }
    {
        let Some(tree) = self.root.node(&path.names()) else {
            return None;
        };
        Some(tree.top())
    }

    /// All rows in path order, the root first. It takes no memory yet.
    pub fn rows(&self) -> Rows<'_>
        ensures left { result.left ≡ self.now.rows }
        ensures names { result.names ≡ [] }
    {
        self.root.recall_invariant();
        Rows::new(self.alloc, &self.root)
    }

    /// How many paths there are, and how deep they are. It goes through all of them. A number that a `u64` does not hold is
    /// refused as memory is.
    pub fn extent(&self) -> Result<Extent, AllocError>
        ensures { IfOk result (λ extent. extent ≡ extent_of self.now.rows) }
    {
        self.rows().extent()
    }

    /// How many files there are, closed and open. It is one look, however many there are.
    pub fn files(&self) -> u64
        ensures { result ≡ files_of self.now }
    {
        self.sizes.files
    }

    /// How many directories there are, the root among them. It is one look, however many there are.
    pub fn directories(&self) -> u64
        ensures { result ≡ directories_of self.now }
    {
        self.sizes.directories
    }

    /// All rows in path order, with memory for paths of so many names: where none is deeper, their `next_row` is not refused any.
    pub fn ready_rows(&self, depth: usize) -> Result<Rows<'_>, AllocError>
        ensures left { IfOk result (λ rows. rows.left ≡ self.now.rows) }
        ensures room { IfOk result (λ rows. depth ≤ rows.room) }
    {
        let mut rows = self.rows();
        rows.reserve(depth)?;
        Ok(rows)
    }

    /// The rows at this place and behind it. Nothing has to stand there. The place is told by its names from the
    /// root down, which a rename may have made more of than a `Path` may have. To come there takes time in its
    /// depth times the logarithm of a directory's width.
    pub fn rows_from(&self, place: &[String]) -> Result<Rows<'_>, AllocError>
        ensures left { IfOk result (λ rows. rows.left ≡ rows_from (names_of place.now) self.now.rows) }
        ensures resumes { Resumes self.now.rows }
    {
        self.root.recall_invariant();
        Rows::from(self.alloc, &self.root, place)
    }

    /// A copy of all rows in path order, the root first.
    pub fn list(&self) -> Result<Vec<PathRow>, AllocError>
        ensures { IfOk result (λ rows. path_rows rows.items ≡ self.now.rows) }
    {
        copies(self.alloc, self.rows())
    }

    /// The block that a file holds under this id, and whether that file is closed.
    pub fn block(&self, id: BlockId) -> Option<BlockRow>
        ensures file { IfSome result (IsInFile self.now) }
        ensures block { option_map (λ row. row.block) result ≡ block_at self.now id }
    {
        self.index.get(&id).copied()
    }

    /// What the log has said of a block.
    pub fn status(&self, id: BlockId) -> Status
        ensures { result ≡ status_of self.now id }
    {
        if let Some(row) = self.index.get(&id) {
            return Status::Named(row.block.stamp);
        }
        self.unheld_status(id)
    }

    /// What the log has said of a block that no file holds: `status` without a look at the blocks of the files.
    pub fn unheld_status(&self, id: BlockId) -> Status
        ensures { result ≡ status_unheld self.now id }
    {
        if self.issued.awaits(id) {
            return Status::Awaiting;
        }
        if self.issued.has_block(id) {
            return Status::Retired;
        }
        Status::Unnamed
    }

    /// The ids that were issued and that no file has got yet, ascending.
    pub fn awaiting(&self, alloc: Global) -> Result<Vec<BlockId>, AllocError>
        ensures { IfOk result (λ ids. ids.items ≡ self.now.issued.awaiting) }
    {
        self.issued.awaiting(alloc)
    }

    /// The last block id that the log issued.
    pub fn last_block(&self) -> BlockId
        ensures { result ≡ self.now.issued.last_block }
    {
        self.issued.last_block()
    }

    /// The profile of the last start mark that was applied, 1 or 2; at first 1. It never falls.
    pub fn profile(&self) -> u64
        ensures { result ≡ profile_number self.now.issued.profile }
    {
        self.issued.profile().number()
    }

    /// The last generation stamp that the log issued.
    pub fn last_stamp(&self) -> GenerationStamp
        ensures { result ≡ self.now.issued.last_stamp }
    {
        self.issued.last_stamp()
    }
}

// Recalls to the prover that the paths and numbers of an edit keep their limits, and its names are UTF-8. It does nothing
// when it runs.
fn recall_invariant(edit: &Edit)
    ensures { IsTypedEdit edit.now }
{
    match edit {
        Edit::StartSegment { .. } | Edit::EndSegment => {}
        Edit::Mkdir { path } | Edit::Append { path } | Edit::Delete { path } => {
            path.names();
        }
        Edit::Add { path, replication } | Edit::SetReplication { path, replication } => {
            path.names();
            replication.get();
        }
        Edit::AddBlock { path, id, stamp } => {
            path.names();
            id.get();
            stamp.get();
        }
        Edit::UpdateBlocks { path, blocks } | Edit::Close { path, blocks } => {
            path.names();
            blocks.recall_invariant();
        }
        Edit::Rename { src, dst } => {
            src.names();
            dst.names();
        }
        Edit::AllocateBlockId { id } => {
            id.get();
        }
        Edit::SetGenstamp { stamp } => {
            stamp.get();
        }
    }
}
