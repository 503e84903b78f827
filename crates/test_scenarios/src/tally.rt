//! What agrees and what differs, counted.
use std::io;

/// How many agree, and how many differ.
#[derive(Clone, Copy)]
pub struct Tally {
    agree: u64,
    differ: u64,
}

impl Tally {
    /// None yet.
    pub fn new() -> Tally {
        Tally {
            agree: 0,
            differ: 0,
        }
    }

    /// Counts one more.
    pub fn count(&mut self, agrees: bool) {
        let number = if agrees {
            &mut self.agree
        } else {
            &mut self.differ
        };
        *number = number.saturating_add(1);
    }

    /// Prints both numbers in a line.
    pub fn print(&self, rt: &impl Print) -> io::Result<()> {
        let (agree, differ) = (self.agree, self.differ);
        println!(rt; "{agree} agree, {differ} differ")
    }
}
