//! Numbers and paths on a page. None of these takes memory.
ghost use Rattle.std.specs.Prelude.{◌≡◌, ◌<◌, decimal, flat_map};
ghost use Rattle.std.specs.Char.{digit_char};
ghost use Rattle.std.specs.Map.Iter.{deref};
ghost use Rattle.json.specs.Print.{escape, escape_byte, escape_letter};
ghost use Rattle.serde_json.specs.Data.{string};
ghost use Rattle.serde_json.specs.Written.{compact_text};
ghost use Rattle.nn_device.specs.Page.{PutsPiece};
ghost use Rattle.nn_types.specs.Path.{path_text};
ghost use Rattle.nn_tree.specs.Listing.{lent_names};
ghost use Rattle.nn_text.specs.Plain.{escaped_name};

use crate::digits::Number;
use crate::path::PlainPath;
use crate::plain::is_plain;
use nn_device::{Page, Writer};
use std::io::Write;

/// Puts a number in decimal, as `{}` prints it. Beside `write!` it saves the formatter.
pub fn put_number<W: Write>(page: &mut Page, writer: &mut Writer<W>, number: u64)
    ensures { PutsPiece (decimal number) page.old writer.old page.new writer.new }
{
    page.put_short(writer, Number(number));
}

/// Puts the path of these names between quotes, escaped as JSON has it. No name at all is the root.
pub fn put_path<W: Write>(page: &mut Page, writer: &mut Writer<W>, names: &[&str])
    ensures { PutsPiece (compact_text (string (path_text (lent_names names.now)))) page.old writer.old page.new writer.new }
{
    if page.try_piece(writer, PlainPath { names }) {
        return;
    }
    put_any_path(page, writer, names);
}

// The same of any path.
#[inline(never)]
fn put_any_path<W: Write>(page: &mut Page, writer: &mut Writer<W>, names: &[&str])
    ensures { PutsPiece (compact_text (string (path_text (lent_names names.now)))) page.old writer.old page.new writer.new }
{
    page.put_byte(writer, b'"');
    put_text(page, writer, names);
    page.put_byte(writer, b'"');
}

fn put_text<W: Write>(page: &mut Page, writer: &mut Writer<W>, names: &[&str])
    ensures { PutsPiece (escape (path_text (lent_names names.now))) page.old writer.old page.new writer.new }
{
    if names.is_empty() {
        page.put_byte(writer, b'/');
        return;
    }
    put_names(page, writer, names);
}

// A slash before each name.
fn put_names<W: Write>(page: &mut Page, writer: &mut Writer<W>, names: &[&str])
    ensures { PutsPiece (flat_map (λ n. escaped_name (deref n)) names.now) page.old writer.old page.new writer.new }
{
    for name in names {
        page.put_byte(writer, b'/');
        put_name(page, writer, name);
    }
}

// A name is mostly plain, and then put whole.
fn put_name<W: Write>(page: &mut Page, writer: &mut Writer<W>, name: &str)
    ensures { PutsPiece (escape name.now) page.old writer.old page.new writer.new }
{
    if is_plain(name) {
        page.put(writer, name.as_bytes());
        return;
    }
    for b in name.as_bytes() {
        put_byte(page, writer, *b);
    }
}

// What stands in a string of JSON for a byte.
fn put_byte<W: Write>(page: &mut Page, writer: &mut Writer<W>, b: u8)
    ensures { PutsPiece (escape_byte b) page.old writer.old page.new writer.new }
{
    let letter = escape_letter(b);
    if letter > 0 {
        page.put(writer, &[b'\\', letter]);
        return;
    }
    if b < b' ' {
        page.put(writer, b"\\u00");
        page.put(writer, &[hex_digit(b / 16), hex_digit(b % 16)]);
        return;
    }
    page.put_byte(writer, b);
}

// The letter of a byte's short escape, or 0 where it has none.
fn escape_letter(b: u8) -> u8
    ensures { result ≡ escape_letter b }
{
    match b {
        b'"' => b'"',
        b'\\' => b'\\',
        8 => b'b',
        12 => b'f',
        b'\n' => b'n',
        b'\r' => b'r',
        b'\t' => b't',
        _ => 0,
    }
}

fn hex_digit(n: u8) -> u8
    requires { n < 16 }
    ensures { result ≡ digit_char n }
{
    if n < 10 { b'0' + n } else { b'a' + (n - 10) }
}
