//! Replications.
ghost use Rattle.std.specs.Prelude.{◌≡◌, ◌<◌, ◌^◌, SomeIff};

use super::in_range;
use std::marker::Model;

/// How many replicas a file asks for. A line may give any number; an edit is refused outside 1 to 512.
#[derive(Clone, Copy, Debug, PartialEq, Eq, PartialOrd, Ord, Hash)]
pub struct Replication {
    value: u64,
}

impl Model for Replication {
    ghost use Rattle.std.specs.Prelude.{ℕ, ◌<◌, ◌^◌};

    ghost Value = { ℕ };

    ghost view = { λ n. n.value };

    ghost invariant = { λ n. n.value < 2 ^ 63 };

    ghost inverse = { λ n. record { value = n } };
}

impl Replication {
    /// The replication, if the value is below 2^63.
    pub fn new(value: u64) -> Option<Replication>
        ensures { SomeIff result (value < 2 ^ 63) value }
    {
        if in_range(value) {
            Some(Replication { value })
        } else {
            None
        }
    }

    /// The value, which is below 2^63.
    pub fn get(self) -> u64
        ensures value { result ≡ self }
        ensures limit { self < 2 ^ 63 }
    {
        self.value
    }
}
