//! Block ids.
ghost use Rattle.std.specs.Prelude.{◌≡◌, ◌<◌, ◌^◌, SomeIff};

use super::in_range;
use std::cmp::Ordering;
use std::marker::Model;

/// The id of a block. The first id that a log issues is `FIRST_BLOCK`.
#[derive(Clone, Copy, Debug, PartialEq, Eq, Hash)]
pub struct BlockId {
    value: u64,
}

impl Model for BlockId {
    ghost use Rattle.std.specs.Prelude.{ℕ, ◌<◌, ◌^◌};

    ghost Value = { ℕ };

    ghost view = { λ n. n.value };

    ghost invariant = { λ n. n.value < 2 ^ 63 };

    ghost inverse = { λ n. record { value = n } };
}

impl BlockId {
    /// The lowest block id.
    pub const ZERO: BlockId = BlockId { value: 0 };

    /// The block id, if the value is below 2^63.
    pub fn new(value: u64) -> Option<BlockId>
        ensures { SomeIff result (value < 2 ^ 63) value }
    {
        if in_range(value) {
            Some(BlockId { value })
        } else {
            None
        }
    }

    /// The value, which is below 2^63.
    pub fn get(self) -> u64
        ensures value { result ≡ self }
        ensures limit { self < 2 ^ 63 }
    {
        self.value
    }
}

impl PartialOrd for BlockId {
    ghost use Rattle.std.proofs.Common.{rules};
    ghost use Rattle.std.specs.Cmp.Rules.{comparing};
    ghost use Rattle.std.specs.Ordering.{nat_cmp};
    ghost use Rattle.std.specs.Prelude.{Some};

    ghost partial_cmp = { λ x y. Some (nat_cmp x y) };

    ghost laws = { Prim.search (comparing, rules) };

    #[inline(always)]
    fn partial_cmp(&self, other: &BlockId) -> Option<Ordering> {
        Some(self.cmp(other))
    }
}

impl Ord for BlockId {
    ghost use Rattle.std.proofs.Common.{rules};
    ghost use Rattle.std.specs.Cmp.Rules.{comparing};
    ghost use Rattle.std.specs.Ordering.{nat_cmp};

    ghost cmp = { nat_cmp };

    ghost total = { Prim.search (comparing, rules) };

    ghost matches_partial_cmp = { Prim.search (comparing, rules) };

    ghost matches_eq = { Prim.search (comparing, rules) };

    #[inline(always)]
    fn cmp(&self, other: &BlockId) -> Ordering {
        let (x, y) = (self.value, other.value);
        if x > y {
            Ordering::Greater
        } else if x == y {
            Ordering::Equal
        } else {
            Ordering::Less
        }
    }
}
