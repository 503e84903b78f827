//! From a reader to a namespace.
ghost use Rattle.std.specs.Prelude.{◌≡◌, ◌≤◌, ◌<◌, ◌^◌, Ok, OnOk, IfOk, IfErr};
ghost use Rattle.nn_image.specs.Lawful.{HasPaths};
ghost use Rattle.nn_image.specs.Loading.{GivesAtEnd, LoadFails, StopsSoon};
ghost use Rattle.nn_image.specs.Outcome.{Noted};
ghost use Rattle.nn_image.specs.Reading.{read_image};
ghost use Rattle.nn_image.specs.Text.{image_text};

use crate::fault::ImageFault;
use crate::loading::Loading;
use nn_device::Reader;
use nn_input::Lines;
use nn_tree::Namespace;
use nn_types::Txid;
use std::alloc::Global;
use std::io::Read;

/// A line of an image is kept whole, however many reads it comes in.
pub(crate) const WHOLE: usize = usize::MAX;

/// Reads an image of version 1 or 2, and gives its namespace and its txid. Version 1 has no profile, and stands for
/// profile 1. Saved, the two make an image that is read as the same. It reads on to the end, or at most 65,536
/// bytes after the line of a fault, and never more than 16,777,216 times. Each fault but `ReadFault` and `OutOfMemory` is
/// the first one of the whole text all the same. Beside the namespace it takes a buffer of 65,536 bytes, and twice a line that
/// comes in more than one read; where a line is no plain one, as much again, and a block or an id for each that it lists.
pub fn load<R: Read>(alloc: Global, reader: &mut Reader<R>) -> Result<(Namespace, Txid), ImageFault>
    ensures ok { IfOk result (λ i. GivesAtEnd reader.old.left reader.new.left read_image i) }
    ensures limit { IfOk result (λ i. i.1 < 2 ^ 63) }
    ensures paths { IfOk result (λ i. HasPaths i.0) }
    ensures again { IfOk result (λ i. read_image (image_text i.0 i.1) ≡ Ok i) }
    ensures unfailed { OnOk result (reader.new.failed ≡ reader.old.failed) }
    ensures fault { IfErr result (λ e. LoadFails reader.old.left e read_image) }
    ensures noted { IfErr result (λ e. Noted e reader.old.failed reader.new.failed) }
    ensures soon { IfErr result (StopsSoon reader.old reader.new) }
    ensures reads { reader.new.reads ≤ 2 ^ 24 }
{
    let loaded = load_image(alloc, reader);
    // A reader counts its reads, and is given up before there are more.
    reader.reads();
    loaded
}

fn load_image<R: Read>(
    alloc: Global,
    reader: &mut Reader<R>,
) -> Result<(Namespace, Txid), ImageFault>
    ensures ok { IfOk result (λ i. GivesAtEnd reader.old.left reader.new.left read_image i) }
    ensures limit { IfOk result (λ i. i.1 < 2 ^ 63) }
    ensures paths { IfOk result (λ i. HasPaths i.0) }
    ensures again { IfOk result (λ i. read_image (image_text i.0 i.1) ≡ Ok i) }
    ensures unfailed { OnOk result (reader.new.failed ≡ reader.old.failed) }
    ensures fault { IfErr result (λ e. LoadFails reader.old.left e read_image) }
    ensures noted { IfErr result (λ e. Noted e reader.old.failed reader.new.failed) }
    ensures soon { IfErr result (StopsSoon reader.old reader.new) }
{
    let mut lines = Lines::new(alloc)?;
    let mut loading = Loading::new();
    'lines: loop {
        let found = lines.next(reader, WHOLE)?;
        // Recalls to the prover that bytes are counted: each line takes one.
        let _recalled = reader.given();
        let Some(place) = found else {
            return loading.end(lines.torn());
        };
        loading.push(alloc, lines.text(place))?;
        if let Some(fault) = loading.fault() {
            return Err(fault);
        }
    }
}
