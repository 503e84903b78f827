//! What is wrong, in words: the middle of the line that a run writes to standard error.
ghost use Rattle.std.specs.Prelude.{◌≡◌, ◌++◌, codes, decimal};
ghost use Rattle.nn_device.specs.Page.{PutsPiece};
ghost use Rattle.nn_segment.specs.LogEnd.{disorder, refused};
ghost use Rattle.nn_run.specs.Errors.{edit_words, image_words, input_words, line_words, segment_words};
ghost use Rattle.nn_run.specs.Pieces.{log_words};

use crate::follower::LogFault;
use nn_device::{Page, Writer};
use nn_edits::LineFault;
use nn_image::ImageFault;
use nn_input::InputFault;
use nn_segment::SegmentFault;
use nn_text::put_number;
use nn_types::EditFault;
use std::io::Write;

const NO_MEMORY: &str = "out of memory";

pub(crate) fn input_words(fault: InputFault) -> &'static str
    ensures { result.now ≡ input_words fault }
{
    match fault {
        InputFault::ReadFailed => "the input could not be read",
        InputFault::TooLong => "the input is too long",
        InputFault::OutOfMemory => NO_MEMORY,
    }
}

pub(crate) fn image_words(fault: ImageFault) -> &'static str
    ensures { result.now ≡ image_words fault }
{
    match fault {
        ImageFault::NotHeader => "the first line is no header",
        ImageFault::BadLine(_) => "the line is bad",
        ImageFault::WrongOrder(_) => "the line is out of order",
        ImageFault::CountMismatch => "the number of paths is wrong",
        ImageFault::Truncated => "the image ends too early",
        ImageFault::BadVersion => "the version is unknown",
        ImageFault::ReadFault => "a read failed",
        ImageFault::OutOfMemory => NO_MEMORY,
    }
}

pub(crate) fn line_words(fault: LineFault) -> &'static str
    ensures { result.now ≡ line_words fault }
{
    match fault {
        LineFault::NotJson => "not a JSON object",
        LineFault::MissingField => "a key is missing",
        LineFault::BadNumber => "not a whole number in range",
        LineFault::UnknownOp => "unknown operation",
        LineFault::BadPath => "not a path",
        LineFault::LineTooLong => "longer than 65536 bytes",
        LineFault::UnknownKind => "unknown kind of report",
        LineFault::OutOfMemory => NO_MEMORY,
    }
}

pub(crate) fn log_words(fault: LogFault) -> &'static str
    ensures { result.now ≡ log_words fault }
{
    match fault {
        LogFault::Refused { fault, .. } => edit_words(fault),
        LogFault::Disorder { .. } => "the transaction is missing",
    }
}

fn edit_words(fault: EditFault) -> &'static str
    ensures { result.now ≡ edit_words fault }
{
    match fault {
        EditFault::Exists => "the path exists",
        EditFault::Missing => "the path or a parent of it is missing",
        EditFault::NotDirectory => "a parent of the path is a file",
        EditFault::NotFile => "the path is a directory",
        EditFault::IsRoot => "the path is the root",
        EditFault::IntoItself => "the path would lie below itself",
        EditFault::NotOpen => "the file is closed",
        EditFault::WrongBlocks => "the blocks are not those of the file",
        EditFault::BadGeneration => "a generation stamp is out of range",
        EditFault::BadBlockId => "the block id does not await, or was issued before",
        EditFault::BadReplication => "the replication is not 1 to 512",
        EditFault::NotClosed => "the file is open",
        EditFault::LowerProfile => "the profile is lower than that of an earlier segment",
        EditFault::OutOfMemory => NO_MEMORY,
    }
}

/// Puts the words of a segment's fault, with the line or the transaction that it has. It takes no memory.
pub(crate) fn put_segment_words<W: Write>(
    page: &mut Page,
    writer: &mut Writer<W>,
    fault: SegmentFault,
)
    ensures { PutsPiece (segment_words fault) page.old writer.old page.new writer.new }
{
    match fault {
        SegmentFault::BadName => page.put(writer, b"not the name of a segment"),
        SegmentFault::TooLong => page.put(writer, b"longer than 16777216 bytes"),
        SegmentFault::NoStart => page.put(writer, b"no start mark"),
        SegmentFault::TornLine { line } => {
            put_of_line(page, writer, line, " has no line feed");
        }
        SegmentFault::BadLine { line, fault } => {
            put_of_line(page, writer, line, " is no transaction: ");
            page.put(writer, line_words(fault).as_bytes());
        }
        SegmentFault::Gap { expected } => put_missing(page, writer, expected),
        SegmentFault::WrongProfile { line } => {
            put_of_line(
                page,
                writer,
                line,
                " is an append, in a segment of profile 1",
            );
        }
        SegmentFault::NoEnd => page.put(writer, b"no end mark, or a mark inside"),
        SegmentFault::NameMismatch => page.put(writer, b"named for other transactions"),
        SegmentFault::OutOfMemory => page.put(writer, b"out of memory"),
    }
}

// What is wrong with a line.
fn put_of_line<W: Write>(page: &mut Page, writer: &mut Writer<W>, line: u64, words: &str)
    ensures { PutsPiece (codes "line " ++ decimal line ++ words.now) page.old writer.old page.new writer.new }
{
    page.put(writer, b"line ");
    put_number(page, writer, line);
    page.put(writer, words.as_bytes());
}

// That a transaction is missing.
fn put_missing<W: Write>(page: &mut Page, writer: &mut Writer<W>, txid: u64)
    ensures { PutsPiece (codes "transaction " ++ decimal txid ++ codes " is missing") page.old writer.old page.new writer.new }
{
    page.put(writer, b"transaction ");
    put_number(page, writer, txid);
    page.put(writer, b" is missing");
}
