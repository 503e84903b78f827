//! What the log has issued: block ids, generation stamps, the ids that no file has got yet, and its profile.
ghost use Rattle.std.specs.Prelude.{◌≡◌, true, ◌++◌, ◌∷◌, [], ◌^◌, ◌||◌, ◌==◌, filter, not, nat_le, nat_lt, OnOk, OnErr, IfOk};
ghost use Rattle.std.specs.List.Sorted.{IsStrictlySortedBy};
ghost use Rattle.std.specs.Ordering.{nat_cmp};
ghost use Rattle.nn_model.specs.Namespace.{root_alone, no_stamp};
ghost use Rattle.nn_model.specs.Apply.{has_id};
ghost use Rattle.nn_tree.specs.Restore.{awaiting_fits, is_issued, block_fits};
ghost use Rattle.nn_tree.specs.Issued.{AreBelow};

use nn_types::limits::{LAST_RESERVED_BLOCK, LAST_RESERVED_STAMP};
use nn_types::{Block, BlockId, GenerationStamp, Profile};
use std::alloc::{AllocError, Global};
use std::collections::BTreeSet;
use std::marker::Model;

/// What the log has issued. Contracts see it as the definition's own record.
#[derive(Drop)]
pub(crate) struct Issued {
    last_block: BlockId,
    last_stamp: GenerationStamp,
    // The ids that were issued and that no file has got yet.
    awaiting: BTreeSet<BlockId>,
    profile: Profile,
}

impl Model for Issued {
    ghost use Rattle.nn_model.specs.Namespace.{Issued as Seen};

    ghost Value = { Seen };

    ghost view = { λ a. record { last_block = a.last_block; last_stamp = a.last_stamp; awaiting = a.awaiting.keys; profile = a.profile } };
}

impl Issued {
    /// Nothing yet. It takes no memory.
    pub(crate) fn new(alloc: Global) -> Issued
        ensures { result ≡ root_alone.issued }
    {
        Issued {
            last_block: BlockId::new(LAST_RESERVED_BLOCK).unwrap(),
            last_stamp: GenerationStamp::new(LAST_RESERVED_STAMP).unwrap(),
            awaiting: BTreeSet::new(alloc),
            profile: Profile::One,
        }
    }

    /// What an image tells of it.
    pub(crate) fn of(
        alloc: Global,
        last_block: BlockId,
        last_stamp: GenerationStamp,
        awaiting: &[BlockId],
        profile: Profile,
    ) -> Result<Issued, AllocError>
        requires { awaiting_fits last_block awaiting.now ≡ true }
        ensures { IfOk result (λ issued. issued ≡ record { last_block = last_block; last_stamp = last_stamp; awaiting = awaiting.now; profile = profile }) }
    {
        let awaiting = awaiting_set(alloc, last_block, awaiting)?;
        Ok(Issued {
            last_block,
            last_stamp,
            awaiting,
            profile,
        })
    }

    /// The last block id.
    pub(crate) fn last_block(&self) -> BlockId
        ensures { result ≡ self.now.last_block }
    {
        self.last_block
    }

    /// The last generation stamp.
    pub(crate) fn last_stamp(&self) -> GenerationStamp
        ensures { result ≡ self.now.last_stamp }
    {
        self.last_stamp
    }

    /// Whether no file has got the id yet.
    pub(crate) fn awaits(&self, id: BlockId) -> bool
        ensures { result ≡ has_id self.now.awaiting id }
    {
        self.awaiting.contains(&id)
    }

    /// The ids that no file has got yet, ascending.
    pub(crate) fn awaiting(&self, alloc: Global) -> Result<Vec<BlockId>, AllocError>
        requires { AreBelow (2 ^ 63) self.now.awaiting }
        ensures { IfOk result (λ ids. ids.items ≡ self.now.awaiting) }
    {
        let mut ids = Vec::new(alloc);
        for id in self.awaiting.iter() {
            ids.push(*id)?;
        }
        Ok(ids)
    }

    /// Whether the id is no higher than the last one.
    pub(crate) fn has_block(&self, id: BlockId) -> bool
        ensures { result ≡ nat_le id self.now.last_block }
    {
        id <= self.last_block
    }

    /// Whether the log has issued the generation stamp.
    pub(crate) fn has_stamp(&self, stamp: GenerationStamp) -> bool
        ensures { (nat_le stamp no_stamp || nat_lt self.now.last_stamp stamp) ≡ not result }
    {
        LAST_RESERVED_STAMP < stamp.get() && stamp <= self.last_stamp
    }

    /// Whether a file may hold the block: its id was issued and awaits no more, and its generation stamp was issued.
    pub(crate) fn may_hold(&self, block: &Block) -> bool
        ensures { result ≡ block_fits self.now block.now }
    {
        if !was_given(self.last_block, block.id) {
            return false;
        }
        if self.awaiting.contains(&block.id) {
            return false;
        }
        self.has_stamp(block.stamp)
    }

    /// Issues a block id above all that await.
    pub(crate) fn allocate(&mut self, id: BlockId) -> Result<(), AllocError>
        requires { AreBelow id self.now.awaiting }
        ensures ok { OnOk result (self.new ≡ record { last_block = id; last_stamp = self.old.last_stamp; awaiting = self.old.awaiting ++ id ∷ []; profile = self.old.profile }) }
        ensures err { OnErr result (self.new ≡ self.old) }
    {
        let Ok(_added) = self.awaiting.insert(id) else {
            return Err(AllocError);
        };
        self.last_block = id;
        Ok(())
    }

    /// A file has got the id.
    pub(crate) fn give(&mut self, id: BlockId)
        requires { IsStrictlySortedBy nat_cmp self.now.awaiting }
        ensures { self.new ≡ record { last_block = self.old.last_block; last_stamp = self.old.last_stamp; awaiting = filter (λ k. not (k == id)) self.old.awaiting; profile = self.old.profile } }
    {
        let _waited = self.awaiting.remove(&id);
    }

    /// The profile of the last start mark.
    pub(crate) fn profile(&self) -> Profile
        ensures { result ≡ self.now.profile }
    {
        self.profile
    }

    /// A segment of this profile begins.
    pub(crate) fn set_profile(&mut self, profile: Profile)
        ensures { self.new ≡ record { last_block = self.old.last_block; last_stamp = self.old.last_stamp; awaiting = self.old.awaiting; profile = profile } }
    {
        self.profile = profile;
    }

    /// Issues a generation stamp.
    pub(crate) fn set_stamp(&mut self, stamp: GenerationStamp)
        ensures { self.new ≡ record { last_block = self.old.last_block; last_stamp = stamp; awaiting = self.old.awaiting; profile = self.old.profile } }
    {
        self.last_stamp = stamp;
    }
}

// Whether the log has issued the block id, where this is the last one.
fn was_given(last: BlockId, id: BlockId) -> bool
    ensures { result ≡ is_issued last id }
{
    LAST_RESERVED_BLOCK < id.get() && id <= last
}

// The ids as a set.
fn awaiting_set(
    alloc: Global,
    last_block: BlockId,
    ids: &[BlockId],
) -> Result<BTreeSet<BlockId>, AllocError>
    requires { awaiting_fits last_block ids.now ≡ true }
    ensures { IfOk result (λ set. set.keys ≡ ids.now) }
{
    let mut awaiting = BTreeSet::new(alloc);
    for id in ids {
        let _added = awaiting.insert(*id)?;
    }
    Ok(awaiting)
}
