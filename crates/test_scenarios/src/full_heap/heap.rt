//! A heap that is full, and that gets its memory back a piece at a time.
use std::alloc::{AllocError, Global};

// The first block that is asked for: half of what a process can address.
const LARGEST: usize = 70_368_744_177_664;

// More than what comes free between two calls: the first block that is asked for once the heap was full.
const REFILL: usize = 1_048_576;

// More blocks than there is room for between the other memory of a process.
const MOST_BLOCKS: usize = 1_000_000;

const PIECES: usize = 100_000;

// The C library's smallest block has room for as much.
const PIECE: usize = 24;

// How often a call is made again where the heap is left as it is.
const TRIES: u64 = 3;

/// The heap of this process.
#[derive(Drop)]
pub struct Heap {
    alloc: Global,
    // Whether it is left as it is.
    is_ample: bool,
    pieces: Vec<Vec<u8>>,
    taken: Vec<Vec<u8>>,
}

impl Heap {
    /// A heap that is not full yet. An ample one never is. What it took is free again when it is dropped.
    pub fn new(alloc: Global, is_ample: bool) -> Result<Heap, AllocError> {
        let mut pieces = Vec::new(alloc);
        let mut taken = Vec::new(alloc);
        if !is_ample {
            pieces.reserve(PIECES)?;
            for _ in 0..PIECES {
                pieces.push(Vec::with_capacity(alloc, PIECE)?)?;
            }
            taken.reserve(MOST_BLOCKS)?;
        }
        Ok(Heap {
            alloc,
            is_ample,
            pieces,
            taken,
        })
    }

    /// Takes all memory that is left: ever smaller blocks, each size until it is refused.
    pub fn fill(&mut self) {
        if self.is_ample {
            return;
        }
        let mut size = if self.taken.is_empty() {
            LARGEST
        } else {
            REFILL
        };
        for _ in 0..2 * MOST_BLOCKS {
            if size == 0 || self.taken.len() == MOST_BLOCKS {
                return;
            }
            match Vec::with_capacity(self.alloc, size) {
                Ok(block) => self.keep(block),
                Err(_) => size = smaller(size),
            }
        }
    }

    // There is room for it.
    fn keep(&mut self, block: Vec<u8>) {
        let _ = self.taken.push(block);
    }

    /// Whether a call that was refused so often may be made again as the heap is: a few times, if it is ample.
    pub fn may_suffice(&self, refusals: u64) -> bool {
        self.is_ample && refusals < TRIES
    }

    /// Gives back one piece, or answers that none is left. An ample heap has nothing to give.
    pub fn give(&mut self, refusals: u64) -> bool {
        if self.is_ample {
            return self.may_suffice(refusals);
        }
        self.pieces.pop().is_some()
    }
}

// Half the size, then that of a piece, then 0.
fn smaller(size: usize) -> usize {
    if size <= PIECE {
        return 0;
    }
    (size / 2).max(PIECE)
}
