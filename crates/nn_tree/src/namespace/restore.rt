//! A namespace is built path by path, as an image tells it.
ghost use Rattle.std.specs.Prelude.{◌≡◌, ◌≤◌, true, false, None, map, OnOk, OnErr, IfOk, IsErrOf};
ghost use Rattle.std.specs.List.{list_all};
ghost use Rattle.nn_types.specs.declared.edit.Edit.TheVariants as edit;
ghost use Rattle.nn_model.specs.declared.form.Form.TheVariants as form;
ghost use Rattle.nn_model.specs.Namespace.{with_row, no_block, no_stamp};
ghost use Rattle.nn_model.specs.Apply.{refusal};
ghost use Rattle.nn_tree.specs.Restore.{bare, can_restore, awaiting_fits, block_fits};

use super::Namespace;
use crate::fault::RestoreFault;
use crate::index::{enter, forget};
use crate::issued::Issued;
use crate::sizes::Sizes;
use crate::touched::push_ids;
use crate::tree::Tree;
use nn_model::{FileRow, Form};
use nn_sorted::SortedMap;
use nn_types::{Block, BlockId, GenerationStamp, Path, Profile};
use std::alloc::{AllocError, Global};

impl Namespace {
    /// The root alone, with these numbers and this profile. The ids await.
    pub fn bare(
        alloc: Global,
        last_block: BlockId,
        last_stamp: GenerationStamp,
        awaiting: &[BlockId],
        profile: Profile,
    ) -> Result<Namespace, AllocError>
        requires low { no_block ≤ last_block }
        requires old { no_stamp ≤ last_stamp }
        requires awaits { awaiting_fits last_block awaiting.now ≡ true }
        ensures { IfOk result (λ n. n ≡ bare (record { last_block = last_block; last_stamp = last_stamp; awaiting = awaiting.now; profile = profile })) }
    {
        // Recalls to the prover that both numbers keep their limits.
        let _recalled = (last_block.get(), last_stamp.get());
        let issued = Issued::of(alloc, last_block, last_stamp, awaiting, profile)?;
        Ok(Namespace {
            root: Tree::new_dir(alloc),
            index: SortedMap::new(alloc),
            issued,
            sizes: Sizes::of_root(),
            alloc,
        })
    }

    /// Adds a path with what stands there. After a fault the namespace is as it was.
    pub fn restore(&mut self, path: &Path, form: Form) -> Result<(), RestoreFault>
        ensures ok { OnOk result (self.new ≡ with_row self.old path.now form) }
        ensures lawful { OnOk result (can_restore self.old path.now form ≡ true) }
        ensures refused { IsErrOf result RestoreFault.Refused → can_restore self.old path.now form ≡ false }
        ensures err { OnErr result (self.new ≡ self.old) }
    {
        match form {
            Form::Dir => self.restore_dir(path),
            Form::File(file) => self.restore_file(path, file),
        }
    }

    fn restore_dir(&mut self, path: &Path) -> Result<(), RestoreFault>
        ensures ok { OnOk result (self.new ≡ with_row self.old path.now form.Dir) }
        ensures lawful { OnOk result (can_restore self.old path.now form.Dir ≡ true) }
        ensures refused { IsErrOf result RestoreFault.Refused → can_restore self.old path.now form.Dir ≡ false }
        ensures err { OnErr result (self.new ≡ self.old) }
    {
        self.recall_invariant();
        // Recalls to the prover that the names of a path keep their limits.
        let _recalled = path.names();
        if self.mkdir_refusal(path).is_some() {
            return Err(RestoreFault::Refused);
        }
        let Ok(_touched) = self.mkdir(path) else {
            return Err(RestoreFault::OutOfMemory);
        };
        Ok(())
    }

    // The blocks go into the index first, and are taken out again where the file can't be made.
    fn restore_file(&mut self, path: &Path, file: FileRow) -> Result<(), RestoreFault>
        ensures ok { OnOk result (self.new ≡ with_row self.old path.now (form.File file)) }
        ensures lawful { OnOk result (can_restore self.old path.now (form.File file) ≡ true) }
        ensures refused { IsErrOf result RestoreFault.Refused → can_restore self.old path.now (form.File file) ≡ false }
        ensures err { OnErr result (self.new ≡ self.old) }
    {
        self.recall_invariant();
        // Recalls to the prover that the path and the replication keep their limits.
        let _recalled = path.names();
        let _recalled = file.replication.get();
        if self.add_refusal(path, file.replication).is_some() {
            return Err(RestoreFault::Refused);
        }
        if !self.may_hold(file.blocks.as_slice()) {
            return Err(RestoreFault::Refused);
        }
        let mut ids = Vec::new(self.alloc);
        let Ok(()) = push_ids(&mut ids, file.blocks.as_slice()) else {
            return Err(RestoreFault::OutOfMemory);
        };
        self.place(path, file, &ids)
    }

    // Makes a file, where only its blocks may still stand elsewhere.
    fn place(&mut self, path: &Path, file: FileRow, ids: &[BlockId]) -> Result<(), RestoreFault>
        requires applies { refusal self.old (edit.Add path.now file.replication) ≡ None }
        requires fit { list_all (block_fits self.old.issued) file.blocks ≡ true }
        requires ids { ids.now ≡ map (λ b. b.id) file.blocks }
        ensures ok { OnOk result (self.new ≡ with_row self.old path.now (form.File file)) }
        ensures lawful { OnOk result (can_restore self.old path.now (form.File file) ≡ true) }
        ensures refused { IsErrOf result RestoreFault.Refused → can_restore self.old path.now (form.File file) ≡ false }
        ensures err { OnErr result (self.new ≡ self.old) }
    {
        let names = path.names();
        // Recalls to the prover that the replication keeps its limits.
        let _recalled = file.replication.get();
        file.blocks.recall_invariant();
        let Some(sizes) = self.sizes.with_file() else {
            return Err(RestoreFault::OutOfMemory);
        };
        let blocks = file.blocks.as_slice();
        if let Err(fault) = enter(&mut self.index, blocks, ids, file.closed) {
            return Err(fault);
        }
        let Ok(()) = self.root.make(self.alloc, &names, Tree::new_file(file)) else {
            forget(&mut self.index, ids);
            return Err(RestoreFault::OutOfMemory);
        };
        self.sizes = sizes;
        Ok(())
    }

    // Whether each of the blocks was issued and awaits no more.
    fn may_hold(&self, blocks: &[Block]) -> bool
        ensures { result ≡ list_all (block_fits self.now.issued) blocks.now }
    {
        blocks.iter().all(|block| self.issued.may_hold(block))
    }
}
