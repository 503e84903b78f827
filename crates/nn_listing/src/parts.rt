//! Parts of lines that are made in one room of the page.
ghost use Rattle.std.specs.Prelude.{◌≡◌, ◌≤◌, ◌+◌, ◌++◌, length, take, decimal};
ghost use Rattle.nn_listing.specs.Lines.{classed_line, line_end, spaced};
ghost use Rattle.nn_listing.specs.Listing.{block_text, state_text};

use crate::fields::{fill_field, fill_word};
use nn_device::{ShortPiece, fill};
use nn_text::fill_number;
use nn_types::{Block, BlockId, Class, Kind, Replica};

/// The line of a replica, which is of this class.
#[derive(Clone, Copy, Debug)]
pub(crate) struct ReplicaLine {
    pub id: BlockId,
    pub dn: u16,
    pub replica: Replica,
    pub class: Class,
}

impl ShortPiece for ReplicaLine {
    ghost text = { λ l. classed_line l.id l.dn l.replica l.class };

    #[inline(always)]
    fn fill(self, room: &mut [u8], used: usize) -> usize {
        let ReplicaLine {
            id,
            dn,
            replica,
            class,
        } = self;
        let used = fill(room, used, b"replica ");
        let used = fill_number(room, used, id.get());
        let used = fill_field(room, used, b' ', u64::from(dn));
        let used = fill_field(room, used, b' ', replica.stamp.get());
        let used = fill_field(room, used, b' ', replica.len.get());
        fill_line_end(room, used, replica.kind, class)
    }
}

// The last two words of a replica's line. Those of most lines are copied at once.
#[inline(always)]
fn fill_line_end(room: &mut [u8], used: usize, kind: Kind, class: Class) -> usize
    requires { used + 26 ≤ length room.old }
    ensures len { length room.new ≡ length room.old }
    ensures within { result ≤ length room.new }
    ensures filled { take result room.new ≡ take used room.old ++ line_end kind class }
{
    if let (Kind::Received, Class::Live) = (kind, class) {
        return fill(room, used, b" received live\n");
    }
    let used = fill_word(room, used, kind.word());
    let used = fill_word(room, used, class.word());
    fill(room, used, b"\n")
}

/// How often a file is replicated, and whether it is complete.
#[derive(Clone, Copy, Debug)]
pub(crate) struct FileState {
    pub replication: u64,
    pub closed: bool,
}

impl ShortPiece for FileState {
    ghost text = { λ s. spaced (decimal s.replication) ++ spaced (state_text s.closed) };

    #[inline(always)]
    fn fill(self, room: &mut [u8], used: usize) -> usize {
        let used = fill_field(room, used, b' ', self.replication);
        if self.closed {
            return fill(room, used, b" closed");
        }
        fill(room, used, b" open")
    }
}

/// A block, with a space before it.
#[derive(Clone, Copy, Debug)]
pub(crate) struct BlockText {
    pub block: Block,
}

impl ShortPiece for BlockText {
    ghost text = { λ b. block_text b.block };

    #[inline(always)]
    fn fill(self, room: &mut [u8], used: usize) -> usize {
        let Block { id, stamp, len } = self.block;
        let used = fill_field(room, used, b' ', id.get());
        let used = fill_field(room, used, b':', stamp.get());
        fill_field(room, used, b':', len.get())
    }
}
