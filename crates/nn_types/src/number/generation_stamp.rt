//! Generation stamps.
ghost use Rattle.std.specs.Prelude.{◌≡◌, ◌<◌, ◌^◌, SomeIff};

use super::in_range;
use std::marker::Model;

/// The generation stamp of a block or a replica. The first one that a log issues is 1001.
#[derive(Clone, Copy, Debug, PartialEq, Eq, PartialOrd, Ord, Hash)]
pub struct GenerationStamp {
    value: u64,
}

impl Model for GenerationStamp {
    ghost use Rattle.std.specs.Prelude.{ℕ, ◌<◌, ◌^◌};

    ghost Value = { ℕ };

    ghost view = { λ n. n.value };

    ghost invariant = { λ n. n.value < 2 ^ 63 };

    ghost inverse = { λ n. record { value = n } };
}

impl GenerationStamp {
    /// The lowest generation stamp.
    pub const ZERO: GenerationStamp = GenerationStamp { value: 0 };

    /// The generation stamp, if the value is below 2^63.
    pub fn new(value: u64) -> Option<GenerationStamp>
        ensures { SomeIff result (value < 2 ^ 63) value }
    {
        if in_range(value) {
            Some(GenerationStamp { value })
        } else {
            None
        }
    }

    /// The value, which is below 2^63.
    pub fn get(self) -> u64
        ensures value { result ≡ self }
        ensures limit { self < 2 ^ 63 }
    {
        self.value
    }
}
