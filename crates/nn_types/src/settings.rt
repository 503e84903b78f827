//! When enough blocks are safe for safe mode to end.
ghost use Rattle.std.specs.Prelude.{◌≡◌, SomeIff};
ghost use Rattle.nn_types.specs.Settings.{AreSettings, needed_of};

use crate::limits::MAX_REPLICATION;
use std::marker::Model;

/// What the administrator asks of the blocks of closed files before safe mode ends: `permille` of each
/// thousand blocks have to be safe, and a block is safe with `min` live replicas.
#[derive(Clone, Copy, Debug, PartialEq, Eq)]
pub struct Settings {
    permille: u16,
    min: u16,
}

impl Model for Settings {
    ghost use Rattle.nn_types.specs.Settings.{Settings, AreSettings};

    ghost Value = { Settings };

    ghost view = { λ s. record { permille = s.permille; min = s.min } };

    ghost invariant = { λ s. AreSettings s.permille s.min };

    ghost inverse = { λ t. record { permille = t.permille; min = t.min } };
}

impl Settings {
    /// The settings, if `permille` is 0 to 1000 and `min` is 1 to 512.
    pub fn new(permille: u16, min: u16) -> Option<Settings>
        ensures { SomeIff result (AreSettings permille min) (record { permille = permille; min = min }) }
    {
        if permille <= 1000 && 1 <= min && min <= MAX_REPLICATION {
            Some(Settings { permille, min })
        } else {
            None
        }
    }

    /// How many live replicas make a block safe, from 1 to 512.
    pub fn min(self) -> u16
        ensures value { result ≡ self.min }
        ensures limits { AreSettings self.permille self.min }
    {
        self.min
    }

    /// How many of so many blocks have to be safe, rounded down: of 1001 blocks at 999 permille these are 999.
    pub fn needed(self, total: u64) -> u64
        ensures { result ≡ needed_of self.permille total }
    {
        // The product of any count and a permille fits 128 bits, and not 64.
        (u128::from(total) * u128::from(self.permille) / 1000) as u64
    }
}
