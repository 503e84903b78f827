//! The bytes behind the last line feed.
ghost use Rattle.std.specs.Prelude.{◌≡◌, ◌≢◌, ◌<◌, ◌-◌, ◌^◌, ◌++◌, [], List, ℕ, length, take, OnErr, OnOk};
ghost use Rattle.nn_input.specs.Cut.{KeepsFirst, no_bytes};

use nn_bytes::is_blank;
use std::alloc::{AllocError, Global};
use std::marker::Model;

/// Of the bytes behind the last line feed the first ones, and whether all are blank.
#[derive(Debug, Drop)]
pub struct TornBytes {
    kept: Vec<u8>,
    blank: bool,
}

impl Model for TornBytes {
    ghost use Rattle.nn_input.specs.Cut.{TornBytes};

    ghost Value = { TornBytes };

    ghost view = { λ t. record { kept = t.kept.items; blank = t.blank } };
}

impl TornBytes {
    /// No bytes. Takes no memory.
    pub fn none(alloc: Global) -> TornBytes
        ensures { result ≡ no_bytes }
    {
        TornBytes {
            kept: Vec::new(alloc),
            blank: true,
        }
    }

    /// Those that are kept.
    pub fn as_slice(&self) -> &[u8]
        ensures kept { result.now ≡ self.now.kept }
        ensures fits { length result.now < 2 ^ 63 }
    {
        &self.kept
    }

    /// Whether all of the bytes are blank, also those that are not kept.
    pub fn is_blank(&self) -> bool
        ensures { result ≡ self.now.blank }
    {
        self.blank
    }

    /// Adds more, of which so many bytes in all are kept. No bytes take no memory.
    pub fn push(&mut self, bytes: &[u8], most: usize) -> Result<(), AllocError>
        ensures ok { OnOk result ((torn : List ℕ) → KeepsFirst most torn self.old → KeepsFirst most (torn ++ bytes.now) self.new) }
        ensures left { OnErr result (self.new ≡ self.old) }
        ensures some { OnErr result (bytes.now ≢ []) }
    {
        if bytes.is_empty() {
            return Ok(());
        }
        let room = most.saturating_sub(self.kept.len());
        if let Err(_) = self.kept.extend_from_slice(prefix(bytes, room)) {
            return Err(AllocError);
        }
        self.blank &= is_blank(bytes);
        Ok(())
    }

    /// Lets them go.
    pub fn clear(&mut self)
        ensures { self.new ≡ no_bytes }
    {
        self.kept.clear();
        self.blank = true;
    }
}

// At most so many of these bytes.
fn prefix(bytes: &[u8], most: usize) -> &[u8]
    ensures { result.now ≡ take most bytes.now }
{
    if most >= bytes.len() {
        return bytes;
    }
    &bytes[..most]
}
