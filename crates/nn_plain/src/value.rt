//! The values of a plain line, and what takes them.
ghost use Rattle.std.specs.Prelude.{◌≡◌, ◌≤◌, ℕ, List, length};
ghost use Rattle.serde_json.specs.Data.{Data, Items, Members, array, put};
ghost use Rattle.nn_plain.specs.Spelling.{Spells, SpellsBlocks, whole_of};
ghost use Rattle.nn_plain.specs.Words.{Begins};

use nn_types::Blocks;

/// A value of a plain line that is no array.
#[derive(Clone, Copy, Debug, Drop)]
pub enum Plain<'a> {
    Text(&'a str),
    /// A number that was written with digits alone.
    Whole(u64),
    Truth(bool),
}

impl<'a> Plain<'a> {
    // The number, if it is one.
    #[inline(always)]
    pub(crate) fn number(&self) -> Option<u64>
        ensures { (d : Data) → Spells d self.now → result ≡ whole_of d }
    {
        match self {
            Plain::Whole(n) => Some(*n),
            Plain::Text(_) | Plain::Truth(_) => None,
        }
    }
}

/// Takes the members of a plain object, one after another.
///
/// Of members with the same key the last one counts, whichever of the two calls it came by.
pub trait Slots<'a> {
    /// Where a member goes.
    type Slot: Copy;

    /// `seen s ms`: the slots s have what they keep of the members ms.
    ghost seen: { Self → Members → Type 0 };

    /// `names slot key`: the members of the key go to the slot.
    ghost names: { Self.Slot → List ℕ → Type 0 };

    /// The slot of a key. `word` begins with it, if it has no more than eight bytes.
    fn slot(key: &'a str, word: u64) -> Self::Slot
        requires { length key.now ≤ 8 → Begins word key.now }
        ensures { names result key.now };

    /// Takes a member that is no array.
    fn put(&mut self, slot: Self::Slot, value: Plain<'a>)
        ensures { (key : List ℕ) (ms : Members) (d : Data) → names slot key → Spells d value.entry → seen self.old ms → seen self.new (put key d ms) };

    /// Takes an array of objects that have a block's numbers each.
    fn put_array(&mut self, slot: Self::Slot, blocks: Blocks)
        ensures { (key : List ℕ) (ms : Members) (ds : Items) → names slot key → SpellsBlocks ds blocks
            → seen self.old ms → seen self.new (put key (array ds) ms) };
}
