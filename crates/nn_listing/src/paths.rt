//! What the program prints of its namespace.
ghost use Rattle.std.specs.Prelude.{◌≡◌, ◌≤◌, OnOk, IfErr, IfOk, Err, flat_map};
ghost use Rattle.nn_device.specs.Device.{Took};
ghost use Rattle.nn_device.specs.Page.{PutsPiece};
ghost use Rattle.nn_device.specs.Parts.{TookPrefix};
ghost use Rattle.nn_device.specs.declared.writer.OutputFault.TheVariants.{OutOfMemory};
ghost use Rattle.nn_model.specs.declared.form.Form.{Form};
ghost use Rattle.nn_model.specs.declared.form.Form.TheVariants.{File};
ghost use Rattle.nn_tree.specs.Found.{form_of};
ghost use Rattle.nn_tree.specs.Listing.{lent_names};
ghost use Rattle.nn_tree.specs.Rows.{extent_of, greatest_depth};
ghost use Rattle.nn_listing.specs.Listing.{listing_text, path_line, row_line, block_text};

use crate::fields::put_field;
use crate::parts::{BlockText, FileState};
use nn_device::{OutputFault, Page, Writer};
use nn_model::FileRow;
use nn_text::put_path;
use nn_tree::{Extent, Found, Namespace, Rows};
use nn_types::Block;
use std::alloc::{AllocError, Global};
use std::io::Write;
use std::marker::Model;

/// The listing of a namespace, ready to be put: all memory that it wants is had. It has the last transaction's number and the
/// line of each path in path order:
///
/// ```text
/// txid 9
/// dir "/"
/// file "/f" 3 closed 1073741825:1001:5
/// ```
#[derive(Debug, Drop)]
pub struct ReadyListing<'a> {
    last: u64,
    rows: Rows<'a>,
}

impl<'a> Model for ReadyListing<'a> {
    ghost use Rattle.std.specs.Prelude.{List, ℕ, ◌≤◌};
    ghost use Rattle.nn_tree.specs.Rows.{greatest_depth};
    ghost use Rattle.nn_listing.specs.Listing.{listing_of};

    ghost Value = { List ℕ };

    ghost view = { λ l. listing_of l.last l.rows.left };

    ghost invariant = { λ l. greatest_depth l.rows.left ≤ l.rows.room };
}

impl<'a> ReadyListing<'a> {
    /// The listing after this transaction, 0 where there was none. The extent is that of the namespace.
    pub fn of(
        namespace: &'a Namespace,
        extent: Extent,
        last: u64,
    ) -> Result<ReadyListing<'a>, AllocError>
        requires { extent ≡ extent_of namespace.now.rows }
        ensures { IfOk result (λ listing. listing ≡ listing_text last namespace.now) }
    {
        let rows = namespace.ready_rows(extent.depth)?;
        Ok(ReadyListing { last, rows })
    }

    /// Puts the listing. It takes no memory.
    pub fn put<W: Write>(self, page: &mut Page, writer: &mut Writer<W>)
        ensures { PutsPiece self.entry page.old writer.old page.new writer.new }
    {
        page.put(writer, b"txid");
        put_field(page, writer, self.last);
        page.put(writer, b"\n");
        put_rows(page, writer, self.rows);
    }
}

/// Writes the listing of a namespace after this transaction, 0 where there was none, in parts of some 65,536 bytes.
///
/// A write that fails ends it: the writer has a prefix of the listing then. Where memory is refused, it has nothing of it.
pub fn write_listing<W: Write>(
    alloc: Global,
    namespace: &Namespace,
    last: u64,
    writer: &mut Writer<W>,
) -> Result<(), OutputFault>
    ensures ok { OnOk result (Took writer.old writer.new (listing_text last namespace.now)) }
    ensures prefix { IfErr result (TookPrefix writer.old writer.new (listing_text last namespace.now)) }
    ensures memory { result ≡ Err OutOfMemory → writer.new ≡ writer.old }
{
    let Ok(listing) = listing_of(namespace, last) else {
        return Err(OutputFault::OutOfMemory);
    };
    let mut page = Page::new(alloc);
    listing.put(&mut page, writer);
    page.end(writer)
}

fn listing_of(namespace: &Namespace, last: u64) -> Result<ReadyListing<'_>, AllocError>
    ensures { IfOk result (λ listing. listing ≡ listing_text last namespace.now) }
{
    let extent = namespace.extent()?;
    ReadyListing::of(namespace, extent, last)
}

// Puts the line of each of these rows. A walk that has its room wants no more memory.
fn put_rows<W: Write>(page: &mut Page, writer: &mut Writer<W>, mut rows: Rows<'_>)
    requires { greatest_depth rows.left ≤ rows.room }
    ensures { PutsPiece (flat_map row_line rows.entry.left) page.old writer.old page.new writer.new }
{
    'rows: while !page.has_failed() {
        let Some(found) = rows.next_ready() else {
            return;
        };
        put_row(page, writer, rows.names(), found);
    }
}

/// Puts the line of what is at the path with these names.
pub fn put_row<W: Write>(page: &mut Page, writer: &mut Writer<W>, names: &[&str], found: Found<'_>)
    ensures { PutsPiece (path_line (lent_names names.now) (form_of found.entry)) page.old writer.old page.new writer.new }
{
    match found {
        Found::Dir => put_dir(page, writer, names),
        Found::File(file) => put_file(page, writer, names, file),
    }
}

fn put_dir<W: Write>(page: &mut Page, writer: &mut Writer<W>, names: &[&str])
    ensures { PutsPiece (path_line (lent_names names.now) Form.Dir) page.old writer.old page.new writer.new }
{
    page.put(writer, b"dir ");
    put_path(page, writer, names);
    page.put_byte(writer, b'\n');
}

fn put_file<W: Write>(page: &mut Page, writer: &mut Writer<W>, names: &[&str], file: &FileRow)
    ensures { PutsPiece (path_line (lent_names names.now) (File file.now)) page.old writer.old page.new writer.new }
{
    page.put(writer, b"file ");
    put_path(page, writer, names);
    let state = FileState {
        replication: u64::from(file.replication.get()),
        closed: file.closed,
    };
    page.put_short(writer, state);
    put_blocks(page, writer, file.blocks.as_slice());
    page.put_byte(writer, b'\n');
}

fn put_blocks<W: Write>(page: &mut Page, writer: &mut Writer<W>, blocks: &[Block])
    ensures { PutsPiece (flat_map block_text blocks.now) page.old writer.old page.new writer.new }
{
    for block in blocks {
        put_block(page, writer, *block);
    }
}

fn put_block<W: Write>(page: &mut Page, writer: &mut Writer<W>, block: Block)
    ensures { PutsPiece (block_text block) page.old writer.old page.new writer.new }
{
    page.put_short(writer, BlockText { block });
}
