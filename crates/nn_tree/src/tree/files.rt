//! Changes of a file, made where it stands: one walk down its path checks and changes.
ghost use Rattle.std.specs.Prelude.{◌≡◌, ⊤, false, IfOk, OnOk, OnErr};
ghost use Rattle.nn_model.specs.Apply.{keeps_ids, keeps_stamps};
ghost use Rattle.nn_tree.specs.At.{at, IsSame};
ghost use Rattle.nn_tree.specs.Walks.{is_some_file};
ghost use Rattle.nn_tree.specs.Changes.{IsFileChanged, FileBecomes, GetsBlock, GetsList, GetsReplication, Opens};

use super::descent::Change;
use super::{Node, Tree, Unchanged};
use crate::touched::Touched;
use nn_model::FileRow;
use nn_types::{Block, Blocks, GenerationStamp, Names, Replication};
use std::alloc::Global;
use std::mem;

impl Tree {
    /// Adds a block at the end of an open file, and tells the file's replication.
    pub(crate) fn push_block(
        &mut self,
        names: &Names<'_>,
        block: Block,
    ) -> Result<Replication, Unchanged>
        ensures ok { IfOk result (λ replication. IsFileChanged self.old names.now self.new (GetsBlock block replication)) }
        ensures err { OnErr result (IsSame self.old self.new) }
    {
        self.change_at(names, PushBlock { block: &block })
    }

    /// Gives an open file another list of blocks, and tells what that touched and the list before.
    pub(crate) fn set_blocks(
        &mut self,
        names: &Names<'_>,
        alloc: Global,
        blocks: &Blocks,
        closed: bool,
        last_stamp: GenerationStamp,
    ) -> Result<(Touched, Blocks), Unchanged>
        ensures ok { IfOk result (λ done. IsFileChanged self.old names.now self.new (GetsList blocks.now closed last_stamp done)) }
        ensures err { OnErr result (IsSame self.old self.new) }
    {
        let list = NewList {
            alloc,
            blocks,
            closed,
            last_stamp,
        };
        self.change_at(names, SetBlocks { list: &list })
    }

    /// Opens a closed file, and tells what that touched and its blocks.
    pub(crate) fn append(
        &mut self,
        names: &Names<'_>,
        alloc: Global,
    ) -> Result<(Touched, Blocks), Unchanged>
        ensures ok { IfOk result (λ done. IsFileChanged self.old names.now self.new (Opens done)) }
        ensures err { OnErr result (IsSame self.old self.new) }
    {
        self.change_at(names, Append { alloc })
    }

    /// Gives a file another replication.
    pub(crate) fn set_replication(
        &mut self,
        names: &Names<'_>,
        replication: Replication,
    ) -> Result<(), Unchanged>
        ensures ok { IfOk result (λ done. IsFileChanged self.old names.now self.new (GetsReplication replication)) }
        ensures err { OnErr result (IsSame self.old self.new) }
        ensures no_file { OnErr result (is_some_file (at self.old names.now) ≡ false) }
    {
        self.change_at(names, SetReplication { replication })
    }
}

// The change of `Tree::push_block`. What is lent, a walk need not carry.
#[derive(Drop)]
struct PushBlock<'a> {
    block: &'a Block,
}

impl<'a> Change for PushBlock<'a> {
    type Gives = Replication;

    ghost in_parent = { false };

    ghost changes = { λ c rest t w given. FileBecomes (GetsBlock c.block.now given) rest t w };

    ghost refuses = { λ c rest t. ⊤ };

    fn is_in_parent() -> bool
        ensures { result ≡ false }
    {
        false
    }

    fn change(self, tree: &mut Tree, _last: Option<&str>) -> Result<Replication, Unchanged> {
        let Node::Leaf(file) = &mut tree.node else {
            return Err(Unchanged);
        };
        push_open(file, *self.block)
    }
}

// The list that a file gets, and what it is checked by.
#[derive(Clone, Copy)]
struct NewList<'a> {
    alloc: Global,
    blocks: &'a Blocks,
    closed: bool,
    last_stamp: GenerationStamp,
}

// The change of `Tree::set_blocks`.
#[derive(Drop)]
struct SetBlocks<'a> {
    list: &'a NewList<'a>,
}

impl<'a> Change for SetBlocks<'a> {
    type Gives = (Touched, Blocks);

    ghost in_parent = { false };

    ghost changes = { λ c rest t w given. FileBecomes (GetsList c.list.now.blocks.now c.list.now.closed c.list.now.last_stamp given) rest t w };

    ghost refuses = { λ c rest t. ⊤ };

    fn is_in_parent() -> bool
        ensures { result ≡ false }
    {
        false
    }

    fn change(self, tree: &mut Tree, _last: Option<&str>) -> Result<(Touched, Blocks), Unchanged> {
        let Node::Leaf(file) = &mut tree.node else {
            return Err(Unchanged);
        };
        let list = self.list;
        list_open(list.alloc, file, list.blocks, list.closed, list.last_stamp)
    }
}

// The change of `Tree::append`.
#[derive(Drop)]
struct Append {
    alloc: Global,
}

impl Change for Append {
    type Gives = (Touched, Blocks);

    ghost in_parent = { false };

    ghost changes = { λ c rest t w given. FileBecomes (Opens given) rest t w };

    ghost refuses = { λ c rest t. ⊤ };

    fn is_in_parent() -> bool {
        false
    }

    fn change(self, tree: &mut Tree, _last: Option<&str>) -> Result<(Touched, Blocks), Unchanged> {
        let Node::Leaf(file) = &mut tree.node else {
            return Err(Unchanged);
        };
        open_closed(self.alloc, file)
    }
}

// The change of `Tree::set_replication`.
#[derive(Drop)]
struct SetReplication {
    replication: Replication,
}

impl Change for SetReplication {
    type Gives = ();

    ghost in_parent = { false };

    ghost changes = { λ c rest t w given. FileBecomes (GetsReplication c.replication) rest t w };

    ghost refuses = { λ c rest t. is_some_file (at t rest) ≡ false };

    fn is_in_parent() -> bool {
        false
    }

    fn change(self, tree: &mut Tree, _last: Option<&str>) -> Result<(), Unchanged> {
        let Node::Leaf(file) = &mut tree.node else {
            return Err(Unchanged);
        };
        file.replication = self.replication;
        Ok(())
    }
}

// Adds a block at the end of a file that is open, and tells the file's replication.
fn push_open(file: &mut FileRow, block: Block) -> Result<Replication, Unchanged>
    ensures ok { IfOk result (λ replication. GetsBlock block replication file.old file.new) }
    ensures err { OnErr result (file.new ≡ file.old) }
{
    if file.closed {
        return Err(Unchanged);
    }
    let Ok(()) = file.blocks.push(block) else {
        return Err(Unchanged);
    };
    Ok(file.replication)
}

// Gives a file that is open another list. Growth comes before change.
fn list_open(
    alloc: Global,
    file: &mut FileRow,
    blocks: &Blocks,
    closed: bool,
    last_stamp: GenerationStamp,
) -> Result<(Touched, Blocks), Unchanged>
    ensures ok { IfOk result (λ done. GetsList blocks.now closed last_stamp done file.old file.new) }
    ensures err { OnErr result (file.new ≡ file.old) }
{
    if file.closed {
        return Err(Unchanged);
    }
    let old = file.blocks.as_slice();
    let new = blocks.as_slice();
    if !keeps_ids(old, new) {
        return Err(Unchanged);
    }
    if !keeps_stamps(last_stamp, old, new) {
        return Err(Unchanged);
    }
    let Ok(touched) = Touched::listed(alloc, old, new, closed, file.replication) else {
        return Err(Unchanged);
    };
    let Ok(copy) = blocks.copied() else {
        return Err(Unchanged);
    };
    let before = mem::replace(&mut file.blocks, copy);
    file.closed = closed;
    Ok((touched, before))
}

// Opens a file that is closed. Growth comes before change.
fn open_closed(alloc: Global, file: &mut FileRow) -> Result<(Touched, Blocks), Unchanged>
    ensures ok { IfOk result (λ done. Opens done file.old file.new) }
    ensures err { OnErr result (file.new ≡ file.old) }
{
    if !file.closed {
        return Err(Unchanged);
    }
    let Ok(touched) = Touched::opened(alloc, file.blocks.as_slice(), file.replication) else {
        return Err(Unchanged);
    };
    let Ok(copy) = file.blocks.copied() else {
        return Err(Unchanged);
    };
    file.closed = false;
    Ok((touched, copy))
}

/// Whether the new list has the ids of the old one, all of them or all but the last.
pub(crate) fn keeps_ids(old: &[Block], new: &[Block]) -> bool
    ensures { result ≡ keeps_ids old.now new.now }
{
    let mut old_left = old;
    let mut new_left = new;
    'pairs: while let Some((a, old_rest)) = old_left.split_first() {
        let Some((b, new_rest)) = new_left.split_first() else {
            return old_rest.is_empty();
        };
        if a.id != b.id {
            return false;
        }
        old_left = old_rest;
        new_left = new_rest;
    }
    new_left.is_empty()
}

/// Whether each new generation stamp is at least the old one, and at most the last one issued.
pub(crate) fn keeps_stamps(last: GenerationStamp, old: &[Block], new: &[Block]) -> bool
    ensures { result ≡ keeps_stamps last old.now new.now }
{
    let mut old_left = old;
    let mut new_left = new;
    'pairs: while let Some((b, new_rest)) = new_left.split_first() {
        let Some((a, old_rest)) = old_left.split_first() else {
            return true;
        };
        if b.stamp < a.stamp || last < b.stamp {
            return false;
        }
        old_left = old_rest;
        new_left = new_rest;
    }
    true
}
