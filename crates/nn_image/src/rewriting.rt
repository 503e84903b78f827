//! From an image of any version to one of the version that is written.
ghost use Rattle.std.specs.Prelude.{◌≡◌, ◌<◌, ◌≤◌, ◌^◌, IfOk, IfErr};
ghost use Rattle.nn_image.specs.Reading.{read_image};
ghost use Rattle.nn_image.specs.Outcome.{Noted};
ghost use Rattle.nn_image.specs.Loading.{LoadFails};
ghost use Rattle.nn_image.specs.Rewriting.{Rewrote, StoppedWriting, IfLoad, IfSave};

use crate::fault::RewriteFault;
use crate::restoring::load;
use crate::saving::save;
use nn_device::{Reader, Writer};
use nn_types::Txid;
use std::alloc::Global;
use std::io::{Read, Write};

/// Reads an image of version 1 or 2 and writes it as one of version 2. The answer is its txid. The whole image is read
/// before the first byte is written, and takes the memory of `load`, and then that of `save`. What is written is read as
/// the same, so to rewrite it once more changes nothing. The faults are those of `load`, after which nothing was written,
/// and those of `save`, after which a prefix of the image was: none of it where memory was refused.
///
/// If the prover does not know the bytes of the device, only this is proved: what was written is the image of some
/// well-formed namespace, with the txid of the answer.
pub fn rewrite<R: Read, W: Write>(
    alloc: Global,
    reader: &mut Reader<R>,
    writer: &mut Writer<W>,
) -> Result<Txid, RewriteFault>
    ensures ok { IfOk result (λ txid. Rewrote reader.old reader.new writer.old writer.new txid) }
    ensures limit { IfOk result (λ txid. txid < 2 ^ 63) }
    ensures reads { reader.new.reads ≤ 2 ^ 24 }
    ensures unread { IfErr result (IfLoad (λ e. LoadFails reader.old.left e read_image)) }
    ensures noted { IfErr result (IfLoad (λ e. Noted e reader.old.failed reader.new.failed)) }
    ensures untouched { IfErr result (IfLoad (λ e. writer.new ≡ writer.old)) }
    ensures prefix { IfErr result (IfSave (StoppedWriting reader.old reader.new writer.old writer.new)) }
{
    let (namespace, txid) = match load(alloc, reader) {
        Ok(image) => image,
        Err(fault) => return Err(RewriteFault::Load(fault)),
    };
    namespace.recall_invariant();
    let saved = save(alloc, &namespace, txid, writer);
    drop(namespace);
    match saved {
        Ok(()) => Ok(txid),
        Err(fault) => Err(RewriteFault::Save(fault)),
    }
}
