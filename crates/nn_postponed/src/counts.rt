//! How many messages of each DataNode are held.
ghost use Rattle.std.specs.Prelude.{◌≡◌, ◌<◌, ◌^◌, [], length, OnOk, OnErr};
ghost use Rattle.nn_postponed.specs.Counts.{count_of, SameCounts, OneMore};

use std::alloc::{AllocError, Global};
use std::marker::Model;

/// A number for each DataNode. Its memory is given back with the whole alone.
#[derive(Debug, Drop)]
pub struct Counts {
    // at the place of the DataNode's number; those beyond the end are 0
    counts: Vec<usize>,
}

impl Model for Counts {
    ghost use Rattle.std.specs.Prelude.{ℕ, List};

    ghost Value = { List ℕ };

    ghost view = { λ c. c.counts.items };
}

impl Counts {
    /// All are 0, and no memory is taken.
    pub fn new(alloc: Global) -> Counts
        ensures { result ≡ [] }
    {
        Counts {
            counts: Vec::new(alloc),
        }
    }

    /// The number of this DataNode.
    pub fn of(&self, dn: u16) -> usize
        ensures { result ≡ count_of dn self.now }
    {
        let Some(count) = self.counts.get(usize::from(dn)) else {
            return 0;
        };
        *count
    }

    /// Makes room for this DataNode's number. Once there is room, a call takes no memory.
    pub fn reserve(&mut self, dn: u16) -> Result<(), AllocError>
        ensures ok { OnOk result (dn < length self.new) }
        ensures same { SameCounts self.old self.new }
        ensures err { OnErr result (self.new ≡ self.old) }
    {
        let place = usize::from(dn);
        if place < self.counts.len() {
            return Ok(());
        }
        let Ok(()) = self.counts.resize(place + 1, 0) else {
            return Err(AllocError);
        };
        Ok(())
    }

    /// Counts one more message of this DataNode.
    pub fn more(&mut self, dn: u16)
        requires place { dn < length self.old }
        requires room { count_of dn self.old < 2 ^ 63 }
        ensures { OneMore dn self.old self.new }
    {
        self.counts[usize::from(dn)] += 1;
    }

    /// Counts one message of this DataNode less.
    pub fn fewer(&mut self, dn: u16)
        requires { 0 < count_of dn self.old }
        ensures { OneMore dn self.new self.old }
    {
        self.counts[usize::from(dn)] -= 1;
    }
}
