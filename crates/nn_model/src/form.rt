//! What is at a path.
use nn_types::{Block, Blocks, Replication};

/// A file of the namespace.
#[derive(Debug, Drop)]
pub struct FileRow {
    pub replication: Replication,
    /// An open file can be given blocks; a closed one is complete.
    pub closed: bool,
    pub blocks: Blocks,
}

/// What is at a path.
#[derive(Debug, Drop)]
pub enum Form {
    Dir,
    File(FileRow),
}

/// A block of a file, and whether the file is closed.
#[derive(Clone, Copy, Debug, PartialEq, Eq)]
pub struct BlockRow {
    pub block: Block,
    pub closed: bool,
}
