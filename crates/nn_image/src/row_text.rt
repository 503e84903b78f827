//! The line of a path, on a page. None of these takes memory.
ghost use Rattle.std.specs.Prelude.{◌≡◌, false};
ghost use Rattle.serde_json.specs.Data.{boolean};
ghost use Rattle.serde_json.specs.Written.{compact_text, items_text};
ghost use Rattle.nn_device.specs.Page.{PutsPiece};
ghost use Rattle.nn_model.specs.declared.form.Form.TheVariants as form;
ghost use Rattle.nn_tree.specs.Found.{form_of};
ghost use Rattle.nn_tree.specs.Listing.{lent_names};
ghost use Rattle.nn_image.specs.Text.{value_line, block_value, block_items, row_data};

use nn_device::{Page, Writer};
use nn_model::FileRow;
use nn_text::{put_number, put_path};
use nn_tree::Found;
use nn_types::Block;
use std::io::Write;

/// Puts the line of what is at the path with these names, as an image has it:
///
/// ```text
/// {"path":"/d","type":"dir"}
/// {"blocks":[{"gen":1001,"id":1073741825,"len":5}],"closed":true,"path":"/d/f","replication":3,"type":"file"}
/// ```
pub(crate) fn put_row<W: Write>(
    page: &mut Page,
    writer: &mut Writer<W>,
    names: &[&str],
    found: Found<'_>,
)
    ensures { PutsPiece (value_line (row_data (lent_names names.now, form_of found.entry))) page.old writer.old page.new writer.new }
{
    match found {
        Found::Dir => put_dir(page, writer, names),
        Found::File(file) => put_file(page, writer, names, file),
    }
}

fn put_dir<W: Write>(page: &mut Page, writer: &mut Writer<W>, names: &[&str])
    ensures { PutsPiece (value_line (row_data (lent_names names.now, form.Dir))) page.old writer.old page.new writer.new }
{
    page.put(writer, b"{\"path\":");
    put_path(page, writer, names);
    page.put(writer, b",\"type\":\"dir\"}\n");
}

fn put_file<W: Write>(page: &mut Page, writer: &mut Writer<W>, names: &[&str], file: &FileRow)
    ensures { PutsPiece (value_line (row_data (lent_names names.now, form.File file.now))) page.old writer.old page.new writer.new }
{
    page.put(writer, b"{\"blocks\":[");
    put_blocks(page, writer, file.blocks.as_slice());
    page.put(writer, b",\"closed\":");
    page.put(writer, word(file.closed).as_bytes());
    page.put(writer, b",\"path\":");
    put_path(page, writer, names);
    page.put(writer, b",\"replication\":");
    put_number(page, writer, u64::from(file.replication.get()));
    page.put(writer, b",\"type\":\"file\"}\n");
}

fn word(truth: bool) -> &'static str
    ensures { result.now ≡ compact_text (boolean truth) }
{
    if truth { "true" } else { "false" }
}

// The blocks, with a comma between two, and the bracket after them.
fn put_blocks<W: Write>(page: &mut Page, writer: &mut Writer<W>, blocks: &[Block])
    ensures { PutsPiece (items_text false (block_items blocks.now)) page.old writer.old page.new writer.new }
{
    let Some((first, others)) = blocks.split_first() else {
        page.put(writer, b"]");
        return;
    };
    put_block(page, writer, *first);
    for block in others {
        page.put(writer, b",");
        put_block(page, writer, *block);
    }
    page.put(writer, b"]");
}

fn put_block<W: Write>(page: &mut Page, writer: &mut Writer<W>, block: Block)
    ensures { PutsPiece (compact_text (block_value block)) page.old writer.old page.new writer.new }
{
    page.put(writer, b"{\"gen\":");
    put_number(page, writer, block.stamp.get());
    page.put(writer, b",\"id\":");
    put_number(page, writer, block.id.get());
    page.put(writer, b",\"len\":");
    put_number(page, writer, block.len.get());
    page.put(writer, b"}");
}
