//! What each edit does, each in one walk down its path where it applies. Growth comes before change, so that an edit
//! that is refused, and one for which memory ran out, leaves all as it was. `Namespace::refusal` tells these apart.
ghost use Rattle.std.specs.Prelude.{◌≡◌, ◌≢◌, None, OnOk, OnErr, IfOk, false};
ghost use Rattle.nn_types.specs.declared.edit.Edit.TheVariants as edit;
ghost use Rattle.nn_types.specs.LawfulEdit.{IsTypedEdit};
ghost use Rattle.nn_model.specs.Namespace.{file_at};
ghost use Rattle.nn_model.specs.Apply.{refusal, first_fault, list_checks, with_blocks};
ghost use Rattle.nn_model.specs.Touched.{listed};
ghost use Rattle.nn_tree.specs.Does.{Does};
ghost use Rattle.nn_tree.specs.Memory.{takes_memory};
ghost use Rattle.nn_tree.specs.Touched.{touched_of};

use super::Namespace;
use super::checks::is_replication;
use crate::index::{forget, renew};
use crate::touched::{Touched, empty_block};
use crate::tree::Unchanged;
use nn_model::BlockRow;
use nn_types::{BlockId, Blocks, Edit, GenerationStamp, Path, Profile, Replication};

impl Namespace {
    // Makes the change of an edit, if it applies.
    pub(super) fn change(&mut self, edit: &Edit) -> Result<Touched, Unchanged>
        requires lawful { IsTypedEdit edit.now }
        ensures does { Does edit.now self.old result self.new }
        ensures spare { OnErr result (takes_memory edit.now ≡ false → refusal self.old edit.now ≢ None) }
    {
        match edit {
            Edit::StartSegment { profile } => self.start_segment(*profile),
            Edit::EndSegment => Ok(Touched::nothing(self.alloc)),
            Edit::Mkdir { path } => self.mkdir(path),
            Edit::Add { path, replication } => self.add(path, *replication),
            Edit::AddBlock { path, id, stamp } => self.add_block(path, *id, *stamp),
            Edit::UpdateBlocks { path, blocks } => self.update_blocks(path, blocks),
            Edit::Close { path, blocks } => self.close(path, blocks),
            Edit::Append { path } => self.append(path),
            Edit::Rename { src, dst } => self.rename(src, dst),
            Edit::Delete { path } => self.delete(path),
            Edit::SetReplication { path, replication } => self.set_replication(path, *replication),
            Edit::AllocateBlockId { id } => self.allocate(*id),
            Edit::SetGenstamp { stamp } => self.set_genstamp(*stamp),
        }
    }

    fn start_segment(&mut self, profile: Profile) -> Result<Touched, Unchanged>
        requires lawful { IsTypedEdit (edit.StartSegment profile) }
        ensures does { Does (edit.StartSegment profile) self.old result self.new }
        ensures refused { OnErr result (refusal self.old (edit.StartSegment profile) ≢ None) }
    {
        if self.start_refusal(profile).is_some() {
            return Err(Unchanged);
        }
        self.issued.set_profile(profile);
        Ok(Touched::nothing(self.alloc))
    }

    pub(super) fn mkdir(&mut self, path: &Path) -> Result<Touched, Unchanged>
        requires lawful { IsTypedEdit (edit.Mkdir path.now) }
        ensures { Does (edit.Mkdir path.now) self.old result self.new }
    {
        let Some(sizes) = self.sizes.with_directory() else {
            return Err(Unchanged);
        };
        let Ok(()) = self.root.make_dir(self.alloc, &path.names()) else {
            return Err(Unchanged);
        };
        self.sizes = sizes;
        Ok(Touched::nothing(self.alloc))
    }

    fn add(&mut self, path: &Path, replication: Replication) -> Result<Touched, Unchanged>
        requires lawful { IsTypedEdit (edit.Add path.now replication) }
        ensures { Does (edit.Add path.now replication) self.old result self.new }
    {
        if !is_replication(replication) {
            return Err(Unchanged);
        }
        let Some(sizes) = self.sizes.with_file() else {
            return Err(Unchanged);
        };
        let Ok(()) = self.root.make_file(self.alloc, &path.names(), replication) else {
            return Err(Unchanged);
        };
        self.sizes = sizes;
        Ok(Touched::nothing(self.alloc))
    }

    fn add_block(
        &mut self,
        path: &Path,
        id: BlockId,
        stamp: GenerationStamp,
    ) -> Result<Touched, Unchanged>
        requires lawful { IsTypedEdit (edit.AddBlock path.now id stamp) }
        ensures { Does (edit.AddBlock path.now id stamp) self.old result self.new }
    {
        let names = path.names();
        if names.is_empty() {
            return Err(Unchanged);
        }
        if !self.issued.awaits(id) {
            return Err(Unchanged);
        }
        if !self.issued.has_stamp(stamp) {
            return Err(Unchanged);
        }
        let row = BlockRow {
            block: empty_block(id, stamp),
            closed: false,
        };
        let Ok(mut touched) = Touched::added(self.alloc, id, stamp) else {
            return Err(Unchanged);
        };
        let Ok(_none) = self.index.insert(id, row) else {
            return Err(Unchanged);
        };
        let Ok(replication) = self.root.push_block(&names, empty_block(id, stamp)) else {
            let _row = self.index.remove(&id);
            return Err(Unchanged);
        };
        touched.replication = replication;
        self.issued.give(id);
        Ok(touched)
    }

    fn update_blocks(&mut self, path: &Path, blocks: &Blocks) -> Result<Touched, Unchanged>
        requires lawful { IsTypedEdit (edit.UpdateBlocks path.now blocks.now) }
        ensures { Does (edit.UpdateBlocks path.now blocks.now) self.old result self.new }
    {
        self.set_blocks(path, blocks, false)
    }

    fn close(&mut self, path: &Path, blocks: &Blocks) -> Result<Touched, Unchanged>
        requires lawful { IsTypedEdit (edit.Close path.now blocks.now) }
        ensures { Does (edit.Close path.now blocks.now) self.old result self.new }
    {
        self.set_blocks(path, blocks, true)
    }

    // Gives a file these blocks, and leaves it closed or open.
    fn set_blocks(
        &mut self,
        path: &Path,
        blocks: &Blocks,
        closed: bool,
    ) -> Result<Touched, Unchanged>
        requires lawful { IsTypedEdit (edit.Close path.now blocks.now) }
        ensures applies { OnOk result (first_fault (list_checks self.old path.now blocks.now) ≡ None) }
        ensures ok { OnOk result (self.new ≡ with_blocks self.old path.now blocks.now closed) }
        ensures touched { IfOk result (λ t. touched_of t ≡ listed self.old path.now blocks.now closed) }
        ensures replication { IfOk result (λ t. t.replication ≡ (file_at self.new path.now).replication) }
        ensures err { OnErr result (self.new ≡ self.old) }
    {
        let names = path.names();
        if names.is_empty() {
            return Err(Unchanged);
        }
        let last_stamp = self.issued.last_stamp();
        let told = self
            .root
            .set_blocks(&names, self.alloc, blocks, closed, last_stamp);
        let Ok((touched, old)) = told else {
            return Err(Unchanged);
        };
        renew(&mut self.index, old.as_slice(), blocks.as_slice(), closed);
        Ok(touched)
    }

    // Opens a closed file. The rows of its blocks are open then.
    fn append(&mut self, path: &Path) -> Result<Touched, Unchanged>
        requires lawful { IsTypedEdit (edit.Append path.now) }
        ensures { Does (edit.Append path.now) self.old result self.new }
    {
        let names = path.names();
        if names.is_empty() {
            return Err(Unchanged);
        }
        let Ok((touched, blocks)) = self.root.append(&names, self.alloc) else {
            return Err(Unchanged);
        };
        let blocks = blocks.as_slice();
        renew(&mut self.index, blocks, blocks, false);
        Ok(touched)
    }

    fn rename(&mut self, src: &Path, dst: &Path) -> Result<Touched, Unchanged>
        requires lawful { IsTypedEdit (edit.Rename src.now dst.now) }
        ensures { Does (edit.Rename src.now dst.now) self.old result self.new }
    {
        let Ok(()) = self.root.rename(self.alloc, &src.names(), &dst.names()) else {
            return Err(Unchanged);
        };
        Ok(Touched::nothing(self.alloc))
    }

    fn delete(&mut self, path: &Path) -> Result<Touched, Unchanged>
        requires lawful { IsTypedEdit (edit.Delete path.now) }
        ensures { Does (edit.Delete path.now) self.old result self.new }
    {
        let names = path.names();
        if names.is_empty() {
            return Err(Unchanged);
        }
        let Ok(Some(tree)) = self.root.reach(&names) else {
            return Err(Unchanged);
        };
        tree.recall_invariant();
        let mut ids = Vec::new(self.alloc);
        let Ok(others) = tree.collect_ids(self.alloc, &mut ids, self.sizes) else {
            return Err(Unchanged);
        };
        let _gone = self.root.take(self.alloc, &names);
        self.sizes = others;
        forget(&mut self.index, &ids);
        ids.sort_unstable();
        Ok(Touched::deleted(self.alloc, ids))
    }

    fn set_replication(
        &mut self,
        path: &Path,
        replication: Replication,
    ) -> Result<Touched, Unchanged>
        requires lawful { IsTypedEdit (edit.SetReplication path.now replication) }
        ensures does { Does (edit.SetReplication path.now replication) self.old result self.new }
        ensures refused { OnErr result (refusal self.old (edit.SetReplication path.now replication) ≢ None) }
    {
        let names = path.names();
        if names.is_empty() {
            return Err(Unchanged);
        }
        if !is_replication(replication) {
            return Err(Unchanged);
        }
        let Ok(()) = self.root.set_replication(&names, replication) else {
            return Err(Unchanged);
        };
        Ok(Touched::nothing(self.alloc))
    }

    fn allocate(&mut self, id: BlockId) -> Result<Touched, Unchanged>
        requires lawful { IsTypedEdit (edit.AllocateBlockId id) }
        ensures { Does (edit.AllocateBlockId id) self.old result self.new }
    {
        if self.allocate_refusal(id).is_some() {
            return Err(Unchanged);
        }
        let touched = Touched::issued(self.alloc, self.issued.last_block(), id);
        let Ok(()) = self.issued.allocate(id) else {
            return Err(Unchanged);
        };
        Ok(touched)
    }

    fn set_genstamp(&mut self, stamp: GenerationStamp) -> Result<Touched, Unchanged>
        requires lawful { IsTypedEdit (edit.SetGenstamp stamp) }
        ensures does { Does (edit.SetGenstamp stamp) self.old result self.new }
        ensures refused { OnErr result (refusal self.old (edit.SetGenstamp stamp) ≢ None) }
    {
        if self.set_genstamp_refusal(stamp).is_some() {
            return Err(Unchanged);
        }
        self.issued.set_stamp(stamp);
        Ok(Touched::nothing(self.alloc))
    }
}
