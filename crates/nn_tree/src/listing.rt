//! Copies of the rows of a namespace.
ghost use Rattle.std.specs.Prelude.{◌≡◌, ◌++◌, string_bytes, OnOk, IfOk};
ghost use Rattle.nn_types.specs.Path.{joined, path_text};
ghost use Rattle.nn_tree.specs.At.{names_of};
ghost use Rattle.nn_tree.specs.Found.{form_of};
ghost use Rattle.nn_tree.specs.Listing.{path_rows, lent_names};

use crate::found::Found;
use crate::rows::Rows;
use nn_model::{FileRow, Form};
use std::alloc::{AllocError, Global};

/// A path and what stands there.
#[derive(Debug, Drop)]
pub struct PathRow {
    /// The names from the root down. A rename can make more of them than a `Path` may have.
    pub names: Vec<String>,
    pub form: Form,
}

impl PathRow {
    /// The text of the path. It may go past the limits of a `Path`, as the names may.
    pub fn text(&self, alloc: Global) -> Result<String, AllocError>
        ensures { IfOk result (λ text. string_bytes text ≡ path_text (names_of self.now.names.items)) }
    {
        if self.names.is_empty() {
            return String::from_str(alloc, "/");
        }
        joined(alloc, &self.names)
    }
}

/// A copy of the rows that are left.
pub(crate) fn copies(alloc: Global, mut rows: Rows<'_>) -> Result<Vec<PathRow>, AllocError>
    ensures { IfOk result (λ copies. path_rows copies.items ≡ rows.entry.left) }
{
    let mut copies = Vec::new(alloc);
    'rows: loop {
        let Ok(found) = rows.next_row() else {
            return Err(AllocError);
        };
        let Some(found) = found else {
            return Ok(copies);
        };
        let Ok(row) = path_row(alloc, rows.names(), found) else {
            return Err(AllocError);
        };
        let Ok(()) = copies.push(row) else {
            return Err(AllocError);
        };
    }
}

// A copy of a row.
fn path_row(alloc: Global, names: &[&str], found: Found<'_>) -> Result<PathRow, AllocError>
    ensures names { IfOk result (λ row. names_of row.names.items ≡ lent_names names.now) }
    ensures form { IfOk result (λ row. row.form ≡ form_of found.entry) }
{
    let names = copied_names(alloc, names)?;
    let form = form(found)?;
    Ok(PathRow { names, form })
}

/// A copy of names that are lent, as those that a walk lends until its next row. It takes memory for each of them, and gives all of
/// it back where one gets none.
pub fn copied_names(alloc: Global, names: &[&str]) -> Result<Vec<String>, AllocError>
    ensures { IfOk result (λ copy. names_of copy.items ≡ lent_names names.now) }
{
    let mut copy = Vec::new(alloc);
    for name in names {
        copy.push(String::from_str(alloc, name)?)?;
    }
    Ok(copy)
}

// A slash before each name.
fn joined(alloc: Global, names: &[String]) -> Result<String, AllocError>
    ensures { IfOk result (λ text. string_bytes text ≡ joined (names_of names.now)) }
{
    let mut text = String::new(alloc);
    for name in names {
        text.push('/')?;
        text.push_str(name.as_str())?;
    }
    Ok(text)
}

// A copy of what a look-up found.
fn form(found: Found<'_>) -> Result<Form, AllocError>
    ensures { IfOk result (λ form. form ≡ form_of found.entry) }
{
    match found {
        Found::Dir => Ok(Form::Dir),
        Found::File(file) => Ok(Form::File(FileRow {
            replication: file.replication,
            closed: file.closed,
            blocks: file.blocks.copied()?,
        })),
    }
}
