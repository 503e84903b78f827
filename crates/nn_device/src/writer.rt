//! A writer that notes a failed write.
ghost use Rattle.std.specs.Prelude.{◌≡◌, ◌<◌, false, length, IfErr, OnOk};
ghost use Rattle.nn_device.specs.Device.{Took, FailedToWrite};
ghost use Rattle.nn_device.specs.Parts.{TookPrefix};
ghost use Rattle.nn_device.specs.declared.writer.OutputFault.TheVariants as unwritten;

use crate::MAX_BYTES;
use std::io::Write;
use std::marker::Model;
use thiserror::Error;

/// A writer, how many bytes it took, and whether one of its writes failed. Only its own writes note that, so no user of a
/// writer can make a failed write up.
#[derive(Debug, Drop)]
pub struct Writer<W: Write> {
    writer: W,
    taken: u64,
    failed: bool,
}

impl<W: Write> Model for Writer<W> {
    ghost use Rattle.nn_device.specs.Device.{Writer};

    ghost Value = { Writer };

    ghost view = { λ o. record { contents = W.contents o.writer; taken = o.taken; failed = o.failed } };
}

/// A write failed, or took nothing. The writer has the first `written` bytes of the text, and these are not all.
#[derive(Clone, Copy, Debug, PartialEq, Eq, Error)]
#[error("a write failed after {written} bytes")]
pub struct WriteFailed {
    pub written: usize,
}

/// Why not all of a text was written that is made in parts.
#[derive(Clone, Copy, Debug, PartialEq, Eq, Error)]
pub enum OutputFault {
    #[error("a write failed")]
    WriteFailed,
    #[error("out of memory")]
    OutOfMemory,
}

impl<W: Write> Writer<W> {
    /// This writer, into which nothing was written.
    pub fn new(writer: W) -> Writer<W>
        ensures { result ≡ record { contents = W.contents writer; taken = 0; failed = false } }
    {
        Writer {
            writer,
            taken: 0,
            failed: false,
        }
    }

    /// Writes a whole text. A write that fails or takes nothing is not tried again, and a writer that failed once takes
    /// nothing more: it fails for good. So that the bytes can be counted, it also fails once it took 2^62 bytes, to which no
    /// device comes. A write that a signal interrupts counts as failed.
    pub fn write_all(&mut self, text: &[u8]) -> Result<(), WriteFailed>
        ensures ok { OnOk result (Took self.old self.new text.now) }
        ensures open { OnOk result (0 < length text.now → self.old.failed ≡ false) }
        ensures err { IfErr result (λ e. FailedToWrite self.old self.new text.now e.written) }
    {
        let mut written = 0;
        'writes: while written < text.len() {
            if self.failed || self.taken >= MAX_BYTES {
                self.failed = true;
                return Err(WriteFailed { written });
            }
            match self.writer.write(&text[written..]) {
                Ok(0) | Err(_) => {
                    self.failed = true;
                    return Err(WriteFailed { written });
                }
                Ok(n) => {
                    written += n;
                    self.taken += n as u64;
                }
            }
        }
        Ok(())
    }

    /// Writes a part of a longer text as `write_all` does. How much of the whole was written is told by `taken`, and so the
    /// fault has no number. It takes no memory.
    pub fn write_part(&mut self, part: &[u8]) -> Result<(), OutputFault>
        ensures ok { OnOk result (Took self.old self.new part.now) }
        ensures prefix { IfErr result (TookPrefix self.old self.new part.now) }
        ensures cause { IfErr result (λ e. e ≡ unwritten.WriteFailed) }
    {
        match self.write_all(part) {
            Ok(()) => Ok(()),
            Err(_) => Err(OutputFault::WriteFailed),
        }
    }

    /// How many bytes its writes took.
    pub fn taken(&self) -> u64
        ensures { result ≡ self.now.taken }
    {
        self.taken
    }

    /// The writer, where its writes left it.
    pub fn into_inner(self) -> W
        ensures { W.contents result ≡ self.contents }
    {
        self.writer
    }
}
