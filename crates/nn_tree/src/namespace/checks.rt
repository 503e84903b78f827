//! Why an edit is refused: the checks of each edit in order, with no memory taken.
ghost use Rattle.std.specs.Prelude.{◌≡◌, not, ◌||◌, nat_lt};
ghost use Rattle.nn_types.specs.declared.edit.Edit.TheVariants as edit;
ghost use Rattle.nn_types.specs.Limits.{max_replication};
ghost use Rattle.nn_model.specs.Apply.{refusal, first_fault, list_checks, keeps_ids, keeps_stamps};

use super::Namespace;
use crate::tree::files::{keeps_ids, keeps_stamps};
use nn_types::limits::MAX_REPLICATION;
use nn_types::{BlockId, Blocks, EditFault, GenerationStamp, Path, Profile, Replication};

impl Namespace {
    pub(super) fn start_refusal(&self, profile: Profile) -> Option<EditFault>
        ensures { result ≡ refusal self.now (edit.StartSegment profile) }
    {
        if profile.is_lower(self.issued.profile()) {
            return Some(EditFault::LowerProfile);
        }
        None
    }

    pub(super) fn mkdir_refusal(&self, path: &Path) -> Option<EditFault>
        ensures { result ≡ refusal self.now (edit.Mkdir path.now) }
    {
        self.root.mkdir_refusal(&path.names())
    }

    pub(super) fn add_refusal(&self, path: &Path, replication: Replication) -> Option<EditFault>
        ensures { result ≡ refusal self.now (edit.Add path.now replication) }
    {
        let names = path.names();
        if names.is_empty() {
            return Some(EditFault::IsRoot);
        }
        if !is_replication(replication) {
            return Some(EditFault::BadReplication);
        }
        self.root.mkdir_refusal(&names)
    }

    pub(super) fn add_block_refusal(
        &self,
        path: &Path,
        id: BlockId,
        stamp: GenerationStamp,
    ) -> Option<EditFault>
        ensures { result ≡ refusal self.now (edit.AddBlock path.now id stamp) }
    {
        let file = match self.root.file(&path.names()) {
            Err(fault) => return Some(fault),
            Ok(file) => file,
        };
        if file.closed {
            return Some(EditFault::NotOpen);
        }
        if !self.issued.awaits(id) {
            return Some(EditFault::BadBlockId);
        }
        if !self.issued.has_stamp(stamp) {
            return Some(EditFault::BadGeneration);
        }
        None
    }

    pub(super) fn list_refusal(&self, path: &Path, blocks: &Blocks) -> Option<EditFault>
        ensures { result ≡ first_fault (list_checks self.now path.now blocks.now) }
    {
        let file = match self.root.file(&path.names()) {
            Err(fault) => return Some(fault),
            Ok(file) => file,
        };
        if file.closed {
            return Some(EditFault::NotOpen);
        }
        let old = file.blocks.as_slice();
        let new = blocks.as_slice();
        if !keeps_ids(old, new) {
            return Some(EditFault::WrongBlocks);
        }
        if !keeps_stamps(self.issued.last_stamp(), old, new) {
            return Some(EditFault::BadGeneration);
        }
        None
    }

    pub(super) fn append_refusal(&self, path: &Path) -> Option<EditFault>
        ensures { result ≡ refusal self.now (edit.Append path.now) }
    {
        let file = match self.root.file(&path.names()) {
            Err(fault) => return Some(fault),
            Ok(file) => file,
        };
        if !file.closed {
            return Some(EditFault::NotClosed);
        }
        None
    }

    pub(super) fn rename_refusal(&self, src: &Path, dst: &Path) -> Option<EditFault>
        ensures { result ≡ refusal self.now (edit.Rename src.now dst.now) }
    {
        self.root.rename_refusal(&src.names(), &dst.names())
    }

    pub(super) fn delete_refusal(&self, path: &Path) -> Option<EditFault>
        ensures { result ≡ refusal self.now (edit.Delete path.now) }
    {
        self.root.delete_refusal(&path.names())
    }

    pub(super) fn set_replication_refusal(
        &self,
        path: &Path,
        replication: Replication,
    ) -> Option<EditFault>
        ensures { result ≡ refusal self.now (edit.SetReplication path.now replication) }
    {
        let names = path.names();
        if names.is_empty() {
            return Some(EditFault::IsRoot);
        }
        if !is_replication(replication) {
            return Some(EditFault::BadReplication);
        }
        if let Err(fault) = self.root.file(&names) {
            return Some(fault);
        }
        None
    }

    pub(super) fn allocate_refusal(&self, id: BlockId) -> Option<EditFault>
        ensures { result ≡ refusal self.now (edit.AllocateBlockId id) }
    {
        if self.issued.has_block(id) {
            return Some(EditFault::BadBlockId);
        }
        None
    }

    pub(super) fn set_genstamp_refusal(&self, stamp: GenerationStamp) -> Option<EditFault>
        ensures { result ≡ refusal self.now (edit.SetGenstamp stamp) }
    {
        if stamp <= self.issued.last_stamp() {
            return Some(EditFault::BadGeneration);
        }
        None
    }
}

// Whether a file may have this replication.
pub(super) fn is_replication(replication: Replication) -> bool
    ensures { (nat_lt replication 1 || nat_lt max_replication replication) ≡ not result }
{
    let replicas = replication.get();
    1 <= replicas && replicas <= u64::from(MAX_REPLICATION)
}
