//! An image that is written in parts, with time for something else between two of them.
ghost use Rattle.std.specs.Prelude.{◌≡◌, ◌<◌, ◌≤◌, ◌+◌, ◌-◌, ◌++◌, ◌↔◌, [], ℕ, List, None, IsTrue, false, length, IfOk, IfErr, IfSome};
ghost use Rattle.nn_device.specs.Device.{Writer as WriterView};
ghost use Rattle.nn_device.specs.Page.{HasPut, PutsPiece};
ghost use Rattle.nn_device.specs.Parts.{TookPrefix};
ghost use Rattle.nn_tree.specs.At.{names_of};
ghost use Rattle.nn_image.specs.InParts.{WroteHeader, IsPart, IsRest, IsSaving, IsSavedBy, Resumes, WrotePart, fault_of, last_line, part_of, paths_from, rest_text};
ghost use Rattle.nn_image.specs.Saving.{WrotePrefix};
ghost use Rattle.nn_image.specs.Text.{image_text, row_lines};

use super::{head_line, put_end};
use crate::fault::SaveFault;
use crate::row_text::put_row;
use nn_device::{OutputFault, Page, Writer};
use nn_tree::{Namespace, Rows, copied_names};
use nn_types::Txid;
use std::alloc::{AllocError, Global};
use std::io::Write;
use std::marker::Model;

/// A part with so many bytes has its last line: 256 KiB.
const PART_BYTES: u64 = 262_144;

/// An image of which a part was written: where it goes on, and how many paths have their lines.
///
/// It lends no namespace and no writer. Each call is handed both, and where they are the same ones each time, the parts are the
/// image. Dropping it calls the image off: the writer has a prefix then, which `load` refuses.
#[derive(Debug, Drop)]
pub struct Saving {
    // the names of the next path, and none at first: the root has no line
    place: Vec<String>,
    count: u64,
}

impl Model for Saving {
    ghost use Rattle.nn_tree.specs.At.{names_of};
    ghost use Rattle.nn_image.specs.InParts.{Place};

    ghost Value = { Place };

    ghost view = { λ s. record { path = names_of s.place.items; count = s.count } };
}

impl Saving {
    /// Begins the image of a namespace: writes the line of its header. It has each id that awaits a file, and is as long as
    /// these are many.
    pub fn begin<W: Write>(
        alloc: Global,
        namespace: &Namespace,
        txid: Txid,
        writer: &mut Writer<W>,
    ) -> Result<Saving, SaveFault>
        ensures ok { IfOk result (WroteHeader namespace.now txid writer.old writer.new) }
        ensures saving { IfOk result (IsSaving namespace.now txid writer.old writer.new) }
        ensures prefix { IfErr result (WrotePrefix writer.old writer.new (image_text namespace.now txid)) }
    {
        let Ok(head) = head_line(alloc, namespace, txid) else {
            return Err(SaveFault::OutOfMemory);
        };
        let before = writer.taken();
        let mut page = Page::new(alloc);
        page.put(writer, head.as_bytes());
        match page.end(writer) {
            Ok(()) => {
                let place = Vec::new(alloc);
                Ok(Saving { place, count: 0 })
            }
            Err(cause) => Err(fault_of(cause, before, writer)),
        }
    }

    /// Writes the lines of so many further paths, in path order, or of fewer: the line with which 262,144 bytes are reached is the
    /// last one. None: no path was left, and the last line of the image is written, too. A line is as long as its file has blocks.
    ///
    /// After a fault the image is not gone on with. The writer has a prefix of it.
    ///
    /// It looks at the directories on the way to its place, and at what it writes: the time is in the depth of the place times the
    /// logarithm of a directory's width, and in the bytes.
    pub fn write_some<W: Write>(
        self,
        alloc: Global,
        namespace: &Namespace,
        writer: &mut Writer<W>,
        rows: usize,
    ) -> Result<Option<Saving>, SaveFault>
        ensures part { IfOk result (λ next. IfSome next (WrotePart namespace.now rows self writer.old writer.new)) }
        ensures rest { IfOk result (λ next. next ≡ None → IsRest namespace.now rows self writer.old writer.new) }
        ensures prefix { IfErr result (WrotePrefix writer.old writer.new (rest_text self namespace.now)) }

        // Where the same namespace is handed to each call, the parts are the image.
        ensures saved { (txid : ℕ) (start : WriterView) → IsSaving namespace.now txid start writer.old self → IsSavedBy namespace.now txid start writer.new result }
    {
        let before = writer.taken();
        match self.write_on(alloc, namespace, writer, rows) {
            Ok(next) => Ok(next),
            Err(cause) => Err(fault_of(cause, before, writer)),
        }
    }

    fn write_on<W: Write>(
        self,
        alloc: Global,
        namespace: &Namespace,
        writer: &mut Writer<W>,
        rows: usize,
    ) -> Result<Option<Saving>, OutputFault>
        ensures part { IfOk result (λ next. IfSome next (WrotePart namespace.now rows self writer.old writer.new)) }
        ensures rest { IfOk result (λ next. next ≡ None → IsRest namespace.now rows self writer.old writer.new) }
        ensures prefix { IfErr result (TookPrefix writer.old writer.new (rest_text self namespace.now)) }
    {
        let Saving { place, count } = self;
        let Ok(walk) = paths_from(namespace, &place) else {
            return Err(OutputFault::OutOfMemory);
        };
        let mut page = Page::new(alloc);
        let part = put_part(alloc, &mut page, writer, walk, rows, PART_BYTES)?;
        // No writer takes 2^64 lines.
        let Some(count) = count.checked_add(part.lines as u64) else {
            return Err(OutputFault::OutOfMemory);
        };
        put_last(&mut page, writer, &part, count);
        page.end(writer)?;
        let Some(place) = part.next else {
            return Ok(None);
        };
        Ok(Some(Saving { place, count }))
    }
}

// The fault of a call before which the writer had taken so many bytes.
fn fault_of<W: Write>(cause: OutputFault, before: u64, writer: &Writer<W>) -> SaveFault
    ensures { result ≡ fault_of cause (writer.now.taken - before) }
{
    match cause {
        OutputFault::WriteFailed => SaveFault::WriteFault {
            written: writer.taken().saturating_sub(before),
        },
        OutputFault::OutOfMemory => SaveFault::OutOfMemory,
    }
}

// The paths at this place and behind it. The root is none of them.
fn paths_from<'a>(namespace: &'a Namespace, place: &[String]) -> Result<Rows<'a>, AllocError>
    ensures left { IfOk result (λ rows. rows.left ≡ paths_from (names_of place.now) namespace.now) }
    ensures resumes { Resumes namespace.now }
{
    namespace.recall_invariant();
    let mut rows = namespace.rows_from(place)?;
    if place.is_empty() {
        rows.next_row()?;
    }
    Ok(rows)
}

/// The lines of a part were put.
#[derive(Drop)]
struct Part {
    /// How many these are.
    lines: usize,
    /// The names of the next path, if one is left.
    next: Option<Vec<String>>,
}

// Puts the lines of so many paths that are left, or of fewer: the line with which so many bytes are reached is the last one. The
// page is new.
fn put_part<W: Write>(
    alloc: Global,
    page: &mut Page,
    writer: &mut Writer<W>,
    mut walk: Rows<'_>,
    rows: usize,
    bytes: u64,
) -> Result<Part, OutputFault>
    requires { HasPut writer.old [] page.old writer.old }
    ensures put { IfOk result (λ _. HasPut writer.old (row_lines (part_of rows bytes walk.entry.left)) page.new writer.new) }
    ensures part { IfOk result (IsPart rows bytes walk.entry.left) }
    ensures well { IfOk result (λ _. page.new.lost ≡ false) }
    ensures prefix { IfErr result (λ cause. (tail : List ℕ) → 0 < length tail → TookPrefix writer.old writer.new (row_lines walk.entry.left ++ tail) cause) }
{
    let before = writer.taken();
    let mut lines = 0;
    'rows: loop {
        if page.has_failed() {
            return Err(OutputFault::WriteFailed);
        }
        let Ok(next) = walk.next_row() else {
            return Err(OutputFault::OutOfMemory);
        };
        let Some(found) = next else {
            return Ok(Part { lines, next: None });
        };
        if lines >= rows || has_put(page, writer, before, bytes) {
            let Ok(place) = copied_names(alloc, walk.names()) else {
                return Err(OutputFault::OutOfMemory);
            };
            return Ok(Part {
                lines,
                next: Some(place),
            });
        }
        put_row(page, writer, walk.names(), found);
        lines += 1;
    }
}

// Puts the last line of an image of so many paths, if none is left behind the part.
fn put_last<W: Write>(page: &mut Page, writer: &mut Writer<W>, part: &Part, paths: u64)
    ensures { PutsPiece (last_line part.now.next paths) page.old writer.old page.new writer.new }
{
    if part.next.is_none() {
        put_end(page, writer, paths);
    }
}

// Whether so many bytes were put, where the writer had taken so many before.
fn has_put<W: Write>(page: &Page, writer: &Writer<W>, before: u64, bytes: u64) -> bool
    ensures { IsTrue result ↔ (bytes ≤ (writer.now.taken - before) + length page.now.left) }
{
    let written = writer.taken().saturating_sub(before);
    written >= bytes.saturating_sub(page.pending() as u64)
}
