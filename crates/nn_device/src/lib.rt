//! A reader and a writer that count their bytes and note a failed call. Nobody else can note one, so whoever lends one of
//! them can tell a failed read or write from every other end.
#![tactic(auto)]

mod page;
mod piece;
mod reader;
mod writer;

pub use page::Page;
pub use piece::{SHORT, ShortPiece, TriedPiece, fill};
pub use reader::{ReadFailed, Reader};
pub use writer::{OutputFault, WriteFailed, Writer};

/// The bytes after which a device is given up: 2^62. None comes to that.
const MAX_BYTES: u64 = 4_611_686_018_427_387_904;
