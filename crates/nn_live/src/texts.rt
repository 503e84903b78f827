//! The lines that a service writes: words and numbers with one space between two of them.
ghost use Rattle.std.specs.Prelude.{◌≡◌, ◌++◌, ◌==◌, ◌∷◌, [], if◌then◌else◌, codes, decimal, None};
ghost use Rattle.nn_bytes.specs.Lines.{line_feed};
ghost use Rattle.nn_types.specs.declared.fault.TheConstants.{DISORDER};
ghost use Rattle.nn_device.specs.Page.{PutsPiece};
ghost use Rattle.nn_tree.specs.Listing.{lent_names};
ghost use Rattle.nn_listing.specs.Listing.{path_json};
ghost use Rattle.nn_listing.specs.Summary.{line};
ghost use Rattle.nn_live.specs.Answers.{and_number, block_head, block_line, held_line, state_answer};
ghost use Rattle.nn_live.specs.Help.{help_text, unknown_text};
ghost use Rattle.nn_live.specs.Serving.{fault_text};

use nn_device::{Page, Writer};
use nn_listing::put_field;
use nn_shadow::Stop;
use nn_text::{put_number, put_path};
use nn_types::{Block, BlockId, Message, fault};
use std::io::Write;

// The words, as docs/LIVE.md has them.
const HELP: &[u8] = b"sync
status
held [N]
unsafe [N]
block ID
replicas ID
path \"TEXT\"
tables
checkpoint
gone D
seen T
epoch E
promote T [epoch E] [lost]
help
";

/// Puts `fault N line L`, or with another place.
pub(crate) fn put_fault<W: Write>(
    page: &mut Page,
    writer: &mut Writer<W>,
    number: u8,
    place: &str,
    n: u64,
)
    ensures { PutsPiece (fault_text number place.now n) page.old writer.old page.new writer.new }
{
    page.put(writer, b"fault ");
    put_number(page, writer, u64::from(number));
    page.put(writer, place.as_bytes());
    put_number(page, writer, n);
    page.put(writer, b"\n");
}

/// Puts `fault 57 txid N segment K`.
pub(crate) fn put_gap<W: Write>(page: &mut Page, writer: &mut Writer<W>, next: u64, segment: u64)
    ensures { PutsPiece (fault_text DISORDER (codes " txid " ++ decimal next ++ codes " segment ") segment) page.old writer.old page.new writer.new }
{
    page.put(writer, b"fault ");
    put_number(page, writer, u64::from(fault::DISORDER));
    page.put(writer, b" txid ");
    put_number(page, writer, next);
    page.put(writer, b" segment ");
    put_number(page, writer, segment);
    page.put(writer, b"\n");
}

/// Puts `KEY N M`.
pub(crate) fn put_counts_of<W: Write>(
    page: &mut Page,
    writer: &mut Writer<W>,
    key: &str,
    number: u64,
    other: u64,
)
    ensures { PutsPiece (line key.now (and_number (decimal number) other)) page.old writer.old page.new writer.new }
{
    page.put(writer, key.as_bytes());
    put_field(page, writer, number);
    put_field(page, writer, other);
    page.put_byte(writer, b'\n');
}

/// Puts `KEY TEXT`.
pub(crate) fn put_text<W: Write>(page: &mut Page, writer: &mut Writer<W>, key: &str, text: &str)
    ensures { PutsPiece (line key.now text.now) page.old writer.old page.new writer.new }
{
    page.put(writer, key.as_bytes());
    page.put_byte(writer, b' ');
    page.put(writer, text.as_bytes());
    page.put_byte(writer, b'\n');
}

/// Puts `state standby`, `state active`, `state deposed`, or `state stopped N T`.
pub(crate) fn put_state<W: Write>(
    page: &mut Page,
    writer: &mut Writer<W>,
    stop: Option<Stop>,
    active: bool,
    deposed: bool,
)
    ensures { PutsPiece (line (codes "state") (state_answer stop active deposed)) page.old writer.old page.new writer.new }
{
    match stop {
        Some(stop) => put_counts_of(
            page,
            writer,
            "state stopped",
            u64::from(stop.cause.number()),
            stop.txid.get(),
        ),
        None => put_text(page, writer, "state", state_word(active, deposed)),
    }
}

/// Puts `held BLOCK DN NUMBER STAMP KIND`.
pub(crate) fn put_held<W: Write>(page: &mut Page, writer: &mut Writer<W>, message: &Message)
    ensures { PutsPiece (held_line message.now) page.old writer.old page.new writer.new }
{
    page.put(writer, b"held");
    put_field(page, writer, message.block.get());
    put_field(page, writer, u64::from(message.dn));
    put_field(page, writer, message.number);
    put_field(page, writer, message.stamp.get());
    page.put_byte(writer, b' ');
    page.put(writer, message.kind.word().as_bytes());
    page.put_byte(writer, b'\n');
}

/// Puts `block BLOCK STAMP LEN PATH`, of the path with these names.
pub(crate) fn put_block<W: Write>(
    page: &mut Page,
    writer: &mut Writer<W>,
    names: &[&str],
    block: &Block,
)
    ensures { PutsPiece (block_line (lent_names names.now) block.now) page.old writer.old page.new writer.new }
{
    put_block_head(page, writer, block);
    page.put_byte(writer, b' ');
    put_path(page, writer, names);
    page.put_byte(writer, b'\n');
}

/// Puts `block BLOCK STAMP LEN`, without a line feed.
pub(crate) fn put_block_head<W: Write>(page: &mut Page, writer: &mut Writer<W>, block: &Block)
    ensures { PutsPiece (block_head block.now) page.old writer.old page.new writer.new }
{
    page.put(writer, b"block");
    put_field(page, writer, block.id.get());
    put_field(page, writer, block.stamp.get());
    put_field(page, writer, block.len.get());
}

/// Puts the words, a line each.
pub(crate) fn put_help<W: Write>(page: &mut Page, writer: &mut Writer<W>)
    ensures { PutsPiece help_text page.old writer.old page.new writer.new }
{
    page.put(writer, HELP);
}

/// Puts `unknown`.
pub(crate) fn put_unknown<W: Write>(page: &mut Page, writer: &mut Writer<W>)
    ensures { PutsPiece unknown_text page.old writer.old page.new writer.new }
{
    page.put(writer, b"unknown\n");
}

// The state of a service that was not stopped.
fn state_word(active: bool, deposed: bool) -> &'static str
    ensures { result.now ≡ state_answer None active deposed }
{
    if !active {
        return "standby";
    }
    if deposed { "deposed" } else { "active" }
}
