//! Lengths.
ghost use Rattle.std.specs.Prelude.{◌≡◌, ◌<◌, ◌^◌, SomeIff};

use super::in_range;
use std::marker::Model;

/// The length of a block or a replica, in bytes.
#[derive(Clone, Copy, Debug, PartialEq, Eq, PartialOrd, Ord, Hash)]
pub struct Length {
    value: u64,
}

impl Model for Length {
    ghost use Rattle.std.specs.Prelude.{ℕ, ◌<◌, ◌^◌};

    ghost Value = { ℕ };

    ghost view = { λ n. n.value };

    ghost invariant = { λ n. n.value < 2 ^ 63 };

    ghost inverse = { λ n. record { value = n } };
}

impl Length {
    /// No bytes.
    pub const ZERO: Length = Length { value: 0 };

    /// The length, if the value is below 2^63.
    pub fn new(value: u64) -> Option<Length>
        ensures { SomeIff result (value < 2 ^ 63) value }
    {
        if in_range(value) {
            Some(Length { value })
        } else {
            None
        }
    }

    /// The value, which is below 2^63.
    pub fn get(self) -> u64
        ensures value { result ≡ self }
        ensures limit { self < 2 ^ 63 }
    {
        self.value
    }
}
