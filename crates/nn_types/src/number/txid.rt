//! Transaction numbers.
ghost use Rattle.std.specs.Prelude.{◌≡◌, ◌<◌, ◌^◌, SomeIff};

use super::in_range;
use std::marker::Model;

/// The number of a transaction of the log. A log's transactions count up by one, from 1.
#[derive(Clone, Copy, Debug, PartialEq, Eq, PartialOrd, Ord, Hash)]
pub struct Txid {
    value: u64,
}

impl Model for Txid {
    ghost use Rattle.std.specs.Prelude.{ℕ, ◌<◌, ◌^◌};

    ghost Value = { ℕ };

    ghost view = { λ n. n.value };

    ghost invariant = { λ n. n.value < 2 ^ 63 };

    ghost inverse = { λ n. record { value = n } };
}

impl Txid {
    /// No transaction: what a log's transactions count up from.
    pub const ZERO: Txid = Txid { value: 0 };

    /// The transaction number, if the value is below 2^63.
    pub fn new(value: u64) -> Option<Txid>
        ensures { SomeIff result (value < 2 ^ 63) value }
    {
        if in_range(value) {
            Some(Txid { value })
        } else {
            None
        }
    }

    /// The value, which is below 2^63.
    pub fn get(self) -> u64
        ensures value { result ≡ self }
        ensures limit { self < 2 ^ 63 }
    {
        self.value
    }
}
