//! The fields of a line, with a space before each.
ghost use Rattle.std.specs.Prelude.{◌≡◌, ◌≤◌, ◌+◌, ◌∷◌, ◌++◌, length, take, codes, decimal};
ghost use Rattle.nn_device.specs.Page.{PutsPiece};
ghost use Rattle.nn_listing.specs.Lines.{spaced};

use nn_device::{Page, Writer, fill};
use nn_text::{fill_number, put_number};
use std::io::Write;

/// Puts a space and a number.
pub fn put_field<W: Write>(page: &mut Page, writer: &mut Writer<W>, number: u64)
    ensures { PutsPiece (codes " " ++ decimal number) page.old writer.old page.new writer.new }
{
    page.put_byte(writer, b' ');
    put_number(page, writer, number);
}

/// Puts a space and a word.
pub(crate) fn put_word<W: Write>(page: &mut Page, writer: &mut Writer<W>, word: &str)
    ensures { PutsPiece (codes " " ++ word.now) page.old writer.old page.new writer.new }
{
    page.put_byte(writer, b' ');
    page.put(writer, word.as_bytes());
}

/// Writes a mark and a number into a room, behind what is used of it. Returns how much is used then.
#[inline(always)]
pub(crate) fn fill_field(room: &mut [u8], used: usize, mark: u8, number: u64) -> usize
    requires { used + 21 ≤ length room.old }
    ensures len { length room.new ≡ length room.old }
    ensures bound { result ≤ used + 21 }
    ensures filled { take result room.new ≡ take used room.old ++ mark ∷ decimal number }
{
    room[used] = mark;
    fill_number(room, used + 1, number)
}

/// Writes a space and a word into a room, behind what is used of it. Returns how much is used then.
#[inline(always)]
pub(crate) fn fill_word(room: &mut [u8], used: usize, word: &str) -> usize
    requires { used + 1 + length word.now ≤ length room.old }
    ensures len { length room.new ≡ length room.old }
    ensures used { result ≡ used + 1 + length word.now }
    ensures filled { take result room.new ≡ take used room.old ++ spaced word.now }
{
    room[used] = b' ';
    fill(room, used + 1, word.as_bytes())
}
