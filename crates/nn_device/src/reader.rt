//! A reader that notes a failed read.
ghost use Rattle.std.specs.Prelude.{◌≡◌, ◌+◌, ◌<◌, ◌≤◌, ◌^◌, false, IfOk, OnErr};
ghost use Rattle.std.specs.Io.{ReadsAtMost};
ghost use Rattle.std.specs.Io.KnownBytes.{ReadConsumes};
ghost use Rattle.nn_device.specs.Device.{Gave, FailedToRead, GaveOn, FailedToReadOn};

use crate::MAX_BYTES;
use std::io::Read;
use std::marker::Model;
use thiserror::Error;

/// The reads after which a reader is given up that has not ended: 2^24.
const MAX_READS: u32 = 16_777_216;

/// A reader, how many reads of it were counted, how many bytes it gave, whether one of its reads failed, and whether the device
/// refused it. Only its own reads note that, so no user of a reader can make a failed read up.
#[derive(Debug, Drop)]
pub struct Reader<R: Read> {
    reader: R,
    reads: u32,
    given: u64,
    failed: bool,
    refused: bool,
}

impl<R: Read> Model for Reader<R> {
    ghost use Rattle.std.specs.Prelude.{◌<◌, ◌≤◌, ◌+◌, ◌^◌};
    ghost use Rattle.nn_device.specs.Device.{Reader};

    ghost Value = { Reader };

    ghost view = { λ i. record { left = R.remaining i.reader; reads = i.reads; given = i.given; failed = i.failed; refused = i.refused } };

    ghost invariant = { λ i. (i.reads ≤ 2 ^ 24) × (i.given < 2 ^ 62 + 2 ^ 63) };
}

/// A read failed.
#[derive(Clone, Copy, Debug, PartialEq, Eq, Error)]
#[error("a read failed")]
pub struct ReadFailed;

impl<R: Read> Reader<R> {
    /// This reader, of which nothing was read.
    pub fn new(reader: R) -> Reader<R>
        ensures { result ≡ record { left = R.remaining reader; reads = 0; given = 0; failed = false; refused = false } }
    {
        Reader {
            reader,
            reads: 0,
            given: 0,
            failed: false,
            refused: false,
        }
    }

    /// One read. A reader that failed once is not read again: it fails for good. A read that a signal interrupts counts as
    /// failed. A reader that has not ended after 16,777,216 reads is given up and fails too, so that one which never ends
    /// holds nobody up for ever; and so does one that gave 2^62 bytes, to which no device comes, so that they can be counted.
    pub fn read(&mut self, buffer: &mut [u8]) -> Result<usize, ReadFailed>
        ensures bound { ReadsAtMost result buffer.new }
        ensures bytes { ReadConsumes self.old.left self.new.left result buffer.new }
        ensures ok { IfOk result (Gave self.old self.new) }
        ensures err { OnErr result (FailedToRead self.old self.new) }
    {
        if self.failed || self.reads >= MAX_READS {
            self.failed = true;
            return Err(ReadFailed);
        }
        self.reads += 1;
        self.read_on(buffer)
    }

    /// One read of an input that may go on for years: it is not counted, so that no number of reads gives the reader up. The
    /// end of 2^62 bytes does. In all else as `read`.
    pub fn read_on(&mut self, buffer: &mut [u8]) -> Result<usize, ReadFailed>
        ensures bound { ReadsAtMost result buffer.new }
        ensures bytes { ReadConsumes self.old.left self.new.left result buffer.new }
        ensures ok { IfOk result (GaveOn self.old self.new) }
        ensures err { OnErr result (FailedToReadOn self.old self.new) }
    {
        if self.failed || self.given >= MAX_BYTES {
            self.failed = true;
            return Err(ReadFailed);
        }
        let Ok(n) = self.reader.read(buffer) else {
            self.failed = true;
            self.refused = true;
            return Err(ReadFailed);
        };
        self.given += n as u64;
        Ok(n)
    }

    /// How many reads were counted, at most 16,777,216.
    pub fn reads(&self) -> u32
        ensures reads { result ≡ self.now.reads }
        ensures bounded { self.now.reads ≤ 2 ^ 24 }
    {
        self.reads
    }

    /// How many bytes its reads gave.
    pub fn given(&self) -> u64
        ensures given { result ≡ self.now.given }
        ensures bounded { result < 2 ^ 62 + 2 ^ 63 }
    {
        self.given
    }

    /// The reader, where its reads left it.
    pub fn into_inner(self) -> R
        ensures { R.remaining result ≡ self.left }
    {
        self.reader
    }
}
