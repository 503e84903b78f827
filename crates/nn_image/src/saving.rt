//! From a namespace to a writer.
ghost use Rattle.std.specs.Prelude.{◌≡◌, ◌≤◌, false, string_bytes, drop, OnOk, IfOk, IfErr, IsErrOf};
ghost use Rattle.serde_json.specs.View.{view, items_view};
ghost use Rattle.serde_json.specs.Written.{has_float};
ghost use Rattle.nn_device.specs.Device.{Took};
ghost use Rattle.nn_device.specs.Page.{PutsPiece};
ghost use Rattle.nn_tree.specs.Rows.{extent_of, greatest_depth};
ghost use Rattle.nn_image.specs.Text.{value_line, number_items, header_data, head_data, row_lines, end_data, image_text, image_file_name};
ghost use Rattle.nn_image.specs.Lawful.{IsReadBack};
ghost use Rattle.nn_image.specs.Saving.{WrotePrefix};

mod parts;

use crate::fault::SaveFault;
use crate::row_text::put_row;
use nn_device::{Page, Writer};
use nn_text::put_number;
use nn_tree::{Extent, Namespace, Rows};
use nn_types::{BlockId, GenerationStamp, Txid};
pub use parts::Saving;
use serde_json::{Value, json};
use std::alloc::{AllocError, Global};
use std::io::Write;
use std::marker::Model;

/// The name of the image of the namespace after this transaction.
pub fn image_name(alloc: Global, txid: Txid) -> Result<String, AllocError>
    ensures { IfOk result (λ name. string_bytes name ≡ image_file_name txid) }
{
    let txid = txid.get();
    format!(in alloc; "fsimage_{txid:019}")
}

/// The image of a namespace, ready to be put: all memory that it wants is had.
#[derive(Debug, Drop)]
pub struct ReadyImage<'a> {
    // the line of the header
    head: String,
    // the rows below the root
    rows: Rows<'a>,
    // how many these are
    paths: u64,
}

impl<'a> Model for ReadyImage<'a> {
    ghost use Rattle.std.specs.Prelude.{ℕ, List, ◌++◌, ◌≤◌, string_bytes};
    ghost use Rattle.nn_tree.specs.Rows.{greatest_depth};
    ghost use Rattle.nn_image.specs.Text.{row_lines, value_line, end_data};

    ghost Value = { List ℕ };

    ghost view = { λ a. string_bytes a.head ++ (row_lines a.rows.left ++ value_line (end_data a.paths)) };

    ghost invariant = { λ a. greatest_depth a.rows.left ≤ a.rows.room };
}

impl<'a> ReadyImage<'a> {
    /// The image of version 2 after this transaction, 0 where there was none. The extent is that of the namespace.
    pub fn of(
        alloc: Global,
        namespace: &'a Namespace,
        extent: Extent,
        txid: Txid,
    ) -> Result<ReadyImage<'a>, AllocError>
        requires { extent ≡ extent_of namespace.now.rows }
        ensures { IfOk result (λ image. image ≡ image_text namespace.now txid) }
    {
        let head = head_line(alloc, namespace, txid)?;
        let rows = rows_below_root(namespace, extent.depth)?;
        let paths = extent.paths.saturating_sub(1);
        Ok(ReadyImage { head, rows, paths })
    }

    /// Puts the image on a page. It takes no memory.
    pub fn put<W: Write>(self, page: &mut Page, writer: &mut Writer<W>)
        ensures { PutsPiece self.entry page.old writer.old page.new writer.new }
    {
        let ReadyImage { head, rows, paths } = self;
        page.put(writer, head.as_bytes());
        put_rows(page, writer, rows);
        put_end(page, writer, paths);
    }
}

/// Writes the image of a namespace, of version 2, in parts of some 65,536 bytes. The txid is that of the last transaction,
/// or 0 where there was none. `load` reads the image as this namespace, if each path keeps the limits of paths: a rename can
/// push one past them.
///
/// It goes through the paths twice, first to measure them. It takes the memory of the header's line, of a walk to the deepest
/// path, and of a part. The first two it has before the first byte: where memory is refused, the writer has nothing. A part
/// that gets no memory is written piece by piece.
///
/// A write that fails ends it. The writer has a prefix of the image then, and never all of it.
pub fn save<W: Write>(
    alloc: Global,
    namespace: &Namespace,
    txid: Txid,
    writer: &mut Writer<W>,
) -> Result<(), SaveFault>
    ensures ok { OnOk result (Took writer.old writer.new (image_text namespace.now txid)) }
    ensures prefix { IfErr result (WrotePrefix writer.old writer.new (image_text namespace.now txid)) }
    ensures memory { IsErrOf result SaveFault.OutOfMemory → writer.new ≡ writer.old }
    ensures again { IsReadBack namespace.now txid }
{
    recall_image(namespace, txid);
    let Ok(image) = ready_image(alloc, namespace, txid) else {
        return Err(SaveFault::OutOfMemory);
    };
    let before = writer.taken();
    let mut page = Page::new(alloc);
    image.put(&mut page, writer);
    match page.end(writer) {
        Ok(()) => Ok(()),
        Err(_) => {
            let written = writer.taken() - before;
            Err(SaveFault::WriteFault { written })
        }
    }
}

// The image of a namespace that was not measured yet.
fn ready_image<'a>(
    alloc: Global,
    namespace: &'a Namespace,
    txid: Txid,
) -> Result<ReadyImage<'a>, AllocError>
    ensures { IfOk result (λ image. image ≡ image_text namespace.now txid) }
{
    let extent = namespace.extent()?;
    ReadyImage::of(alloc, namespace, extent, txid)
}

// Recalls to the prover what a reader makes of the image. It does nothing when it runs.
fn recall_image(namespace: &Namespace, txid: Txid)
    ensures { IsReadBack namespace.now txid }
{
    namespace.recall_invariant();
    txid.get();
}

// Puts the line of each of these rows. A walk that has its room wants no more memory.
fn put_rows<W: Write>(page: &mut Page, writer: &mut Writer<W>, mut rows: Rows<'_>)
    requires { greatest_depth rows.left ≤ rows.room }
    ensures { PutsPiece (row_lines rows.entry.left) page.old writer.old page.new writer.new }
{
    'rows: while !page.has_failed() {
        let Some(found) = rows.next_ready() else {
            return;
        };
        put_row(page, writer, rows.names(), found);
    }
}

// Puts the line of the number of paths.
fn put_end<W: Write>(page: &mut Page, writer: &mut Writer<W>, paths: u64)
    ensures { PutsPiece (value_line (end_data paths)) page.old writer.old page.new writer.new }
{
    page.put(writer, b"{\"end\":");
    put_number(page, writer, paths);
    page.put(writer, b"}\n");
}

// The rows after that of the root, which has no line, with memory for paths of so many names.
fn rows_below_root(namespace: &Namespace, depth: usize) -> Result<Rows<'_>, AllocError>
    requires { greatest_depth namespace.now.rows ≤ depth }
    ensures left { IfOk result (λ rows. rows.left ≡ drop 1 namespace.now.rows) }
    ensures room { IfOk result (λ rows. greatest_depth rows.left ≤ rows.room) }
{
    let mut rows = namespace.ready_rows(depth)?;
    rows.next_row()?;
    Ok(rows)
}

// The line of the header.
fn head_line(alloc: Global, namespace: &Namespace, txid: Txid) -> Result<String, AllocError>
    ensures { IfOk result (λ s. string_bytes s ≡ value_line (header_data namespace.now txid)) }
{
    let value = header_value(alloc, namespace, txid)?;
    line(alloc, &value)
}

// The line of a value.
fn line(alloc: Global, value: &Value) -> Result<String, AllocError>
    requires { has_float (view value.now) ≡ false }
    ensures { IfOk result (λ s. string_bytes s ≡ value_line (view value.now)) }
{
    let mut text = value.to_string(alloc)?;
    text.push('\n')?;
    Ok(text)
}

fn header_value(alloc: Global, namespace: &Namespace, txid: Txid) -> Result<Value, AllocError>
    ensures { IfOk result (λ v. view v ≡ header_data namespace.now txid) }
{
    let awaiting = namespace.awaiting(alloc)?;
    head_value(
        alloc,
        namespace.last_block(),
        namespace.last_stamp(),
        &awaiting,
        namespace.profile(),
        txid,
    )
}

#[tactic(auto, unfolding(crate::specs::Text::head_data))]
fn head_value(
    alloc: Global,
    last_block: BlockId,
    last_stamp: GenerationStamp,
    awaiting: &[BlockId],
    profile: u64,
    txid: Txid,
) -> Result<Value, AllocError>
    ensures { IfOk result (λ v. view v ≡ head_data last_block last_stamp awaiting.now profile txid) }
{
    let ids = Value::Array(number_values(alloc, awaiting)?);
    let version = 2u64;
    let last_block = last_block.get();
    let last_stamp = last_stamp.get();
    let txid = txid.get();
    json!(in alloc; {"awaiting": ids, "image": "hdfs-standby", "last_block": last_block,
        "last_gen": last_stamp, "profile": profile, "txid": txid, "version": version})
}

fn number_values(alloc: Global, numbers: &[BlockId]) -> Result<Vec<Value>, AllocError>
    ensures { IfOk result (λ v. items_view v.items ≡ number_items numbers.now) }
{
    let mut values = Vec::new(alloc);
    for number in numbers {
        values.push(Value::from(number.get()))?;
    }
    Ok(values)
}
