//! What a line behind the header says.
ghost use Rattle.std.specs.Prelude.{◌≡◌, IfOk};
ghost use Rattle.std.specs.Str.{IsUtf8};
ghost use Rattle.nn_image.specs.Loading.{is_end_row, HasLimit, IsReadAs};
ghost use Rattle.nn_image.specs.Reading.{is_end_line};

use crate::row_members::RowMembers;
use json::Scratch;
use nn_bytes::{LineText, known_text, text_of};
use nn_model::Form;
use nn_plain::{ReadFault, read_line, read_plain};
use nn_types::Path;
use std::alloc::{AllocError, Global};

/// A line behind the header.
#[derive(Drop)]
pub(crate) enum RowLine {
    Row(Path, Form),
    /// The end line, with its count, if that is a number.
    End(Option<u64>),
    Bad,
}

impl RowLine {
    pub(crate) fn is_end(&self) -> bool
        ensures { result ≡ is_end_row self.now }
    {
        match self {
            RowLine::End(_) => true,
            RowLine::Row(..) | RowLine::Bad => false,
        }
    }
}

/// Reads a line behind the header, in a pass over its bytes. One that is no plain line takes a second pass.
pub(crate) fn row_line(alloc: Global, line: &[u8]) -> Result<RowLine, AllocError>
    ensures read { IfOk result (IsReadAs line.now) }
    ensures end { IfOk result (λ r. is_end_row r ≡ is_end_line line.now) }
    ensures limit { IfOk result HasLimit }
{
    let known = known_text(line, 0);
    let mut members = RowMembers::none();
    if let LineText::Unescaped(text) = known {
        if read_plain(alloc, text, &mut members) {
            return members.line(alloc);
        }
    }
    let Some(text) = text_of(line, known) else {
        return Ok(RowLine::Bad);
    };
    row_line_of_json(alloc, text)
}

// The same, of any text.
fn row_line_of_json(alloc: Global, text: &str) -> Result<RowLine, AllocError>
    requires { IsUtf8 text.now }
    ensures read { IfOk result (IsReadAs text.now) }
    ensures end { IfOk result (λ r. is_end_row r ≡ is_end_line text.now) }
    ensures limit { IfOk result HasLimit }
{
    let mut scratch = Scratch::new(alloc);
    let mut members = RowMembers::none();
    match read_line(alloc, text, &mut scratch, &mut members) {
        Ok(()) => members.line(alloc),
        Err(ReadFault::Invalid) => Ok(RowLine::Bad),
        Err(ReadFault::OutOfMemory) => Err(AllocError),
    }
}
