//! What ends a run in place of a listing, and the two lines that tell it.
ghost use Rattle.std.specs.Prelude.{◌≡◌, ◌≢◌, decimal, IfOk};
ghost use Rattle.nn_device.specs.Page.{PutsPiece};
ghost use Rattle.nn_run.specs.Output.{image_fault, line_fault, segment_fault};
ghost use Rattle.nn_run.specs.Pieces.{place_before_words, place_in_image, place_of, place_text, failure_words};
ghost use Rattle.nn_run.specs.Run.{failed, number_of, unread_line};

use crate::errors::{image_words, input_words, line_words, log_words, put_segment_words};
use crate::follower::LogFault;
use nn_device::{Page, Writer};
use nn_edits::LineFault;
use nn_image::ImageFault;
use nn_input::InputFault;
use nn_scenario::{PartFault, ScenarioFault};
use nn_segment::SegmentFault;
use nn_text::put_number;
use nn_types::fault;
use std::alloc::AllocError;
use std::io::Write;

/// What ended a run in place of a listing, and where. Lines, segments and transactions count from 1.
#[derive(Clone, Copy, Debug, PartialEq, Eq)]
pub enum RunFailure {
    /// The input was not read, or memory was refused.
    Unread(InputFault),
    /// The image in front of the input was not loaded.
    Image(ImageFault),
    /// A line of the scenario was not read.
    Line { fault: LineFault, line: u64 },
    /// What stands up to an end mark is no segment.
    Segment { fault: SegmentFault, segment: u64 },
    /// The log stopped before its end.
    Log(LogFault),
}

impl RunFailure {
    /// A bad line. None ended the run where memory was refused.
    pub(crate) fn of_bad_line(bad: ScenarioFault) -> Result<RunFailure, AllocError>
        ensures { IfOk result (λ failure. (bad.fault ≢ LineFault.OutOfMemory) × (failed failure ≡ line_fault bad)) }
    {
        let ScenarioFault { fault, line } = bad;
        if let LineFault::OutOfMemory = fault {
            return Err(AllocError);
        }
        Ok(RunFailure::Line { fault, line })
    }

    /// A bad segment. None ended the run where memory was refused.
    pub(crate) fn of_bad_segment(bad: PartFault) -> Result<RunFailure, AllocError>
        ensures { IfOk result (λ failure. (bad.fault ≢ SegmentFault.OutOfMemory) × (failed failure ≡ segment_fault bad)) }
    {
        let PartFault { fault, segment } = bad;
        if let SegmentFault::OutOfMemory = fault {
            return Err(AllocError);
        }
        Ok(RunFailure::Segment { fault, segment })
    }

    /// The fault's number, which the program's `--explain` takes.
    pub fn number(self) -> u8
        ensures { result ≡ number_of self }
    {
        match self {
            RunFailure::Unread(InputFault::ReadFailed) => fault::INPUT_FAULT,
            RunFailure::Unread(InputFault::TooLong) => fault::INPUT_FAULT,
            RunFailure::Unread(InputFault::OutOfMemory) => fault::MEMORY,
            RunFailure::Image(fault) => fault.number(),
            RunFailure::Line { fault, .. } => fault.number(),
            RunFailure::Segment { fault, .. } => fault.number(),
            RunFailure::Log(LogFault::Refused { fault, .. }) => fault.number(),
            RunFailure::Log(LogFault::Disorder { .. }) => fault::DISORDER,
        }
    }

    /// Puts the line that goes to the output, as `fault 14 segment 1`. It takes no memory.
    pub fn put<W: Write>(self, page: &mut Page, writer: &mut Writer<W>)
        ensures { PutsPiece (failed self).text page.old writer.old page.new writer.new }
    {
        page.put(writer, b"fault ");
        self.put_number(page, writer);
        self.put_place(page, writer);
        page.put(writer, b"\n");
    }

    /// Puts the line that goes to standard error. It takes no memory.
    pub fn put_error<W: Write>(self, page: &mut Page, writer: &mut Writer<W>)
        ensures { PutsPiece (failed self).error page.old writer.old page.new writer.new }
    {
        page.put(writer, b"error:");
        self.put_place_before_words(page, writer);
        page.put(writer, b" ");
        self.put_words(page, writer);
        page.put(writer, b" (fault ");
        self.put_number(page, writer);
        page.put(writer, b"; --explain ");
        self.put_number(page, writer);
        page.put(writer, b" says more)");
        page.put(writer, b"\n");
    }

    fn put_number<W: Write>(self, page: &mut Page, writer: &mut Writer<W>)
        ensures { PutsPiece (decimal (number_of self)) page.old writer.old page.new writer.new }
    {
        put_number(page, writer, u64::from(self.number()));
    }

    fn put_place_before_words<W: Write>(self, page: &mut Page, writer: &mut Writer<W>)
        ensures { PutsPiece (place_before_words self) page.old writer.old page.new writer.new }
    {
        if let RunFailure::Unread(_) = self {
            return;
        }
        self.put_place(page, writer);
        page.put(writer, b":");
    }

    fn put_place<W: Write>(self, page: &mut Page, writer: &mut Writer<W>)
        ensures { PutsPiece (place_of self) page.old writer.old page.new writer.new }
    {
        let (place, at) = self.place();
        page.put(writer, place.as_bytes());
        if let Some(at) = at {
            put_number(page, writer, at);
        }
    }

    // Where it was found, and which line, segment or transaction that is.
    fn place(self) -> (&'static str, Option<u64>)
        ensures { place_text result.0.now result.1 ≡ place_of self }
    {
        match self {
            RunFailure::Unread(_) => ("", None),
            RunFailure::Image(fault) => place_in_image(fault),
            RunFailure::Line { line, .. } => (" line ", Some(line)),
            RunFailure::Segment { segment, .. } => (" segment ", Some(segment)),
            RunFailure::Log(LogFault::Refused { txid, .. }) => (" txid ", Some(txid)),
            RunFailure::Log(LogFault::Disorder { txid }) => (" txid ", Some(txid)),
        }
    }

    // What is wrong there.
    fn put_words<W: Write>(self, page: &mut Page, writer: &mut Writer<W>)
        ensures { PutsPiece (failure_words self) page.old writer.old page.new writer.new }
    {
        match self {
            RunFailure::Unread(fault) => page.put(writer, input_words(fault).as_bytes()),
            RunFailure::Image(fault) => page.put(writer, image_words(fault).as_bytes()),
            RunFailure::Line { fault, .. } => page.put(writer, line_words(fault).as_bytes()),
            RunFailure::Segment { fault, .. } => put_segment_words(page, writer, fault),
            RunFailure::Log(fault) => page.put(writer, log_words(fault).as_bytes()),
        }
    }
}

fn place_in_image(fault: ImageFault) -> (&'static str, Option<u64>)
    ensures { place_text result.0.now result.1 ≡ place_in_image fault }
{
    match fault {
        ImageFault::BadLine(line) => (" image line ", Some(line)),
        ImageFault::WrongOrder(line) => (" image line ", Some(line)),
        ImageFault::NotHeader => (" image", None),
        ImageFault::CountMismatch => (" image", None),
        ImageFault::Truncated => (" image", None),
        ImageFault::BadVersion => (" image", None),
        ImageFault::ReadFault => (" image", None),
        ImageFault::OutOfMemory => (" image", None),
    }
}

/// Puts the line of an image's fault, `fault N image` or `fault N image line L`. It takes no memory.
pub fn put_image_fault<W: Write>(page: &mut Page, writer: &mut Writer<W>, fault: ImageFault)
    ensures { PutsPiece (image_fault fault).text page.old writer.old page.new writer.new }
{
    RunFailure::Image(fault).put(page, writer);
}

/// The line of an input that was not read: `fault 8`, or `fault 55` where memory was refused.
pub fn unread_line(fault: InputFault) -> &'static [u8]
    ensures { result.now ≡ unread_line fault }
{
    match fault {
        InputFault::ReadFailed | InputFault::TooLong => b"fault 8\n",
        InputFault::OutOfMemory => b"fault 55\n",
    }
}
