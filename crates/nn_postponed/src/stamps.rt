//! Generation stamps at places, and the first place with one that is low enough.
ghost use Rattle.std.specs.Prelude.{◌≡◌, ◌≢◌, ℕ, ◌<◌, ◌≤◌, ◌+◌, ◌^◌, length, IfSome, IfNone, IfOk, OnOk, OnErr, min};
ghost use Rattle.nn_postponed.specs.Stamps.{stamp_there, HaveNone, IsFirstUpTo};

use std::alloc::{AllocError, Global};
use std::marker::Model;

/// What stands at a place without a stamp: it is above each stamp.
pub const NO_STAMP: u64 = 18446744073709551615;

// There are 2^LEVELS places at first.
const LEVELS: usize = 3;

const PLACES: usize = 8;

/// Places, of which each may have a stamp, as a tree. A node has the lower one of the two numbers below it. So the first place
/// with a stamp up to a limit is found in one step for each level, and putting a stamp takes one for each level at most.
#[derive(Debug, Drop)]
pub struct Stamps {
    // The node `i` is above the nodes `2 i` and `2 i + 1`. The root is 1, and the second half are the places.
    nodes: Vec<u64>,
    // How many levels are above the places: there are 2^levels of these.
    levels: usize,
}

impl Model for Stamps {
    ghost use Rattle.std.specs.Prelude.{◌≡◌, ℕ, ◌+◌, ◌^◌, List, length, drop};
    ghost use Rattle.nn_postponed.specs.Stamps.{AreLeast};

    ghost Value = { List ℕ };

    ghost view = { λ s. drop (2 ^ s.levels) s.nodes.items };

    ghost invariant = { λ s. (length s.nodes.items ≡ 2 ^ s.levels + 2 ^ s.levels) × AreLeast (2 ^ s.levels) s.nodes.items };
}

impl Stamps {
    /// No place has a stamp.
    pub fn new(alloc: Global) -> Result<Stamps, AllocError>
        ensures { IfOk result (λ s. HaveNone s) }
    {
        Stamps::empty(alloc, LEVELS, PLACES)
    }

    // This many places, without a stamp.
    fn empty(alloc: Global, levels: usize, places: usize) -> Result<Stamps, AllocError>
        requires places { places ≡ 2 ^ levels }
        requires few { places < 2 ^ 63 }
        ensures none { IfOk result (λ s. HaveNone s) }
        ensures places { IfOk result (λ s. length s ≡ places) }
    {
        let mut nodes = Vec::new(alloc);
        let Ok(()) = nodes.resize(places + places, NO_STAMP) else {
            return Err(AllocError);
        };
        Ok(Stamps { nodes, levels })
    }

    /// How many places there are.
    pub fn places(&self) -> usize
        ensures { result ≡ length self.now }
    {
        self.nodes.len() / 2
    }

    /// Makes room for a stamp at this place, which may be the one behind the others. Out of memory, nothing changes.
    pub fn reserve(&mut self, alloc: Global, place: usize) -> Result<(), AllocError>
        requires { place ≤ length self.old }
        ensures same { (q : ℕ) → stamp_there self.new q ≡ stamp_there self.old q }
        ensures room { OnOk result (place < length self.new) }
        ensures places { length self.old ≤ length self.new }
    {
        if place < self.places() {
            return Ok(());
        }
        self.grow(alloc)
    }

    // Makes twice as many places. Out of memory, nothing changes.
    fn grow(&mut self, alloc: Global) -> Result<(), AllocError>
        ensures same { (q : ℕ) → stamp_there self.new q ≡ stamp_there self.old q }
        ensures more { OnOk result (length self.old < length self.new) }
        ensures err { OnErr result (length self.new ≡ length self.old) }
    {
        let places = self.places();
        let Ok(mut larger) = Stamps::empty(alloc, self.levels + 1, places + places) else {
            return Err(AllocError);
        };
        for place in 0..places {
            larger.put(place, self.nodes[places + place]);
        }
        *self = larger;
        Ok(())
    }

    /// Puts this stamp, or none, at a place.
    pub fn put(&mut self, place: usize, stamp: u64)
        requires { place < length self.old }
        ensures there { stamp_there self.new place ≡ stamp }
        ensures others { (q : ℕ) → q ≢ place → stamp_there self.new q ≡ stamp_there self.old q }
        ensures places { length self.new ≡ length self.old }
    {
        let mut node = self.nodes.len() / 2 + place;
        self.nodes[node] = stamp;
        while node > 1 {
            node = node / 2;
            let least = lower(self.nodes[node + node], self.nodes[node + node + 1]);
            if self.nodes[node] == least {
                return;
            }
            self.nodes[node] = least;
        }
    }

    /// The first place with a stamp up to this one.
    pub fn first_up_to(&self, limit: u64) -> Option<usize>
        requires { limit < NO_STAMP }
        ensures some { IfSome result (IsFirstUpTo limit self.now) }
        ensures none { IfNone result ((place : ℕ) → limit < stamp_there self.now place) }
    {
        if self.nodes[1] > limit {
            return None;
        }
        let mut node: usize = 1;
        for _level in 0..self.levels {
            node = node + node;
            if self.nodes[node] > limit {
                node = node + 1;
            }
        }
        Some(node - self.nodes.len() / 2)
    }
}

// The lower one of two numbers.
fn lower(number: u64, other: u64) -> u64
    ensures { result ≡ min number other }
{
    if number <= other { number } else { other }
}
