//! Texts of paths that lines before have had, which the next ones fill anew.
use nn_types::{Edit, Path};
use std::alloc::Global;

/// Two texts, since a rename has two paths. What they say is of no matter: only their room is used.
#[derive(Debug, Drop)]
pub struct KeptTexts {
    pub(crate) first: String,
    pub(crate) second: String,
}

impl KeptTexts {
    /// Texts with no room.
    pub fn new(alloc: Global) -> KeptTexts {
        KeptTexts {
            first: String::new(alloc),
            second: String::new(alloc),
        }
    }

    /// Takes the texts of an edit's paths back, once the edit is no longer needed. What they say has no part in a later line,
    /// and so this promises nothing.
    pub fn take_back(&mut self, edit: Edit) {
        match edit {
            Edit::Mkdir { path } => self.keep(path),
            Edit::Append { path } => self.keep(path),
            Edit::Delete { path } => self.keep(path),
            Edit::Add { path, .. } => self.keep(path),
            Edit::SetReplication { path, .. } => self.keep(path),
            Edit::AddBlock { path, .. } => self.keep(path),
            Edit::UpdateBlocks { path, .. } => self.keep(path),
            Edit::Close { path, .. } => self.keep(path),
            Edit::Rename { src, dst } => {
                self.keep(src);
                self.second = dst.into_text();
            }
            Edit::StartSegment { .. }
            | Edit::EndSegment
            | Edit::AllocateBlockId { .. }
            | Edit::SetGenstamp { .. } => {}
        }
    }

    fn keep(&mut self, path: Path) {
        self.first = path.into_text();
    }
}
