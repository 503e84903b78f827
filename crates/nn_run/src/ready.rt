//! An output that is ready to be put: all memory that it wants is had.
ghost use Rattle.std.specs.Prelude.{◌≡◌, ◌++◌, IfOk, option_map};
ghost use Rattle.std.specs.Option.{option_copied};
ghost use Rattle.nn_device.specs.Page.{PutsPiece};
ghost use Rattle.nn_tree.specs.Rows.{extent_of};
ghost use Rattle.nn_image.specs.Text.{image_text};
ghost use Rattle.nn_listing.specs.Trail.{history_text};
ghost use Rattle.nn_run.specs.Output.{image_part};
ghost use Rattle.nn_run.specs.Pieces.{image_after, summary_after, text_after};
ghost use Rattle.nn_run.specs.Shown.{EndsWith, history_part, listed_text, printed_of, shown, summary_shown, unsafe_shown};

use crate::engine::Options;
use crate::failure::RunFailure;
use crate::output::{Output, RunEnd};
use nn_device::{Page, Writer};
use nn_image::ReadyImage;
use nn_listing::{ReadyListing, ReadyTables, ReadyUnsafe, put_history, put_summary};
use nn_shadow::Shadow;
use nn_tree::Extent;
use nn_types::Event;
use std::alloc::{AllocError, Global};
use std::io::Write;
use std::marker::Model;

/// An output that is ready to be put.
#[derive(Drop)]
pub(crate) enum Ready<'a> {
    Listing(ReadyParts<'a>),
    Fault(RunFailure),
}

/// The parts of a listing, one behind another.
#[derive(Drop)]
pub(crate) struct ReadyParts<'a> {
    // none where no history is asked for
    events: &'a [Event],
    listing: ReadyListing<'a>,
    tables: ReadyTables<'a>,
    // none of these three where it is not asked for
    summary: Option<&'a Shadow>,
    unsafe_blocks: Option<ReadyUnsafe<'a>>,
    image: Option<ReadyImage<'a>>,
}

impl<'a> Model for ReadyParts<'a> {
    ghost use Rattle.std.specs.Prelude.{List, ℕ, ◌++◌};
    ghost use Rattle.std.specs.Option.{option_copied};
    ghost use Rattle.nn_listing.specs.Trail.{history_text};
    ghost use Rattle.nn_run.specs.Pieces.{image_after, summary_after, text_after};

    ghost Value = { List ℕ };

    ghost view = { λ p. history_text p.events.now ++ ((p.listing ++ p.tables) ++ (summary_after (option_copied p.summary) ++ (text_after p.unsafe_blocks ++ image_after p.image))) };
}

impl<'a> Ready<'a> {
    /// What is asked for of an output.
    pub(crate) fn of(
        alloc: Global,
        options: &Options,
        output: &'a Output,
    ) -> Result<Ready<'a>, AllocError>
        ensures { IfOk result (λ ready. printed_of ready ≡ shown options.now output.now) }
    {
        match output {
            Output::Flushed(shadow) => Ok(Ready::Listing(ReadyParts::of(alloc, options, shadow)?)),
            Output::Fault(failure) => Ok(Ready::Fault(*failure)),
        }
    }

    /// How a run ends that prints it.
    pub(crate) fn end(&self) -> RunEnd
        ensures { EndsWith (printed_of self.now) result }
    {
        match self {
            Ready::Listing(_) => RunEnd {
                status: 0,
                fault: None,
            },
            Ready::Fault(failure) => RunEnd {
                status: 1,
                fault: Some(*failure),
            },
        }
    }

    /// Puts it on a page. It takes no memory.
    pub(crate) fn put<W: Write>(self, page: &mut Page, writer: &mut Writer<W>)
        ensures { PutsPiece (printed_of self.entry).text page.old writer.old page.new writer.new }
    {
        match self {
            Ready::Listing(parts) => parts.put(page, writer),
            Ready::Fault(failure) => failure.put(page, writer),
        }
    }
}

impl<'a> ReadyParts<'a> {
    fn of(
        alloc: Global,
        options: &Options,
        shadow: &'a Shadow,
    ) -> Result<ReadyParts<'a>, AllocError>
        ensures { IfOk result (λ parts. parts ≡ listed_text options.now shadow.now) }
    {
        let namespace = shadow.namespace();
        let extent = namespace.extent()?;
        let image = asked_image(alloc, options.image, shadow, extent)?;
        Ok(ReadyParts {
            events: asked_history(options.history, shadow),
            listing: ReadyListing::of(namespace, extent, shadow.last_txid().get())?,
            tables: ReadyTables::of(alloc, shadow.replicas(), shadow.safe_mode())?,
            summary: asked_summary(options.summary, shadow),
            unsafe_blocks: asked_unsafe(options.unsafe_blocks, shadow, extent)?,
            image,
        })
    }

    fn put<W: Write>(self, page: &mut Page, writer: &mut Writer<W>)
        ensures { PutsPiece self.entry page.old writer.old page.new writer.new }
    {
        let ReadyParts {
            events,
            listing,
            tables,
            summary,
            unsafe_blocks,
            image,
        } = self;
        put_history(page, writer, events);
        listing.put(page, writer);
        tables.put(page, writer);
        put_asked_summary(page, writer, summary);
        put_asked_unsafe(page, writer, unsafe_blocks);
        put_asked_image(page, writer, image);
    }
}

fn put_asked_summary<W: Write>(page: &mut Page, writer: &mut Writer<W>, summary: Option<&Shadow>)
    ensures { PutsPiece (summary_after (option_copied summary.entry)) page.old writer.old page.new writer.new }
{
    let Some(shadow) = summary else {
        return;
    };
    put_summary(page, writer, shadow);
}

fn put_asked_unsafe<W: Write>(
    page: &mut Page,
    writer: &mut Writer<W>,
    lines: Option<ReadyUnsafe<'_>>,
)
    ensures { PutsPiece (text_after lines.entry) page.old writer.old page.new writer.new }
{
    let Some(lines) = lines else {
        return;
    };
    lines.put(page, writer);
}

fn put_asked_image<W: Write>(page: &mut Page, writer: &mut Writer<W>, image: Option<ReadyImage<'_>>)
    ensures { PutsPiece (image_after image.entry) page.old writer.old page.new writer.new }
{
    let Some(image) = image else {
        return;
    };
    page.put(writer, b"image\n");
    image.put(page, writer);
}

// The history, where it is asked for.
fn asked_history(asked: bool, shadow: &Shadow) -> &[Event]
    ensures { history_text result.now ≡ history_part asked shadow.now.history }
{
    if asked { shadow.history() } else { &[] }
}

// The standby, where its summary is asked for.
fn asked_summary(asked: bool, shadow: &Shadow) -> Option<&Shadow>
    ensures { summary_after (option_copied result) ≡ summary_shown asked shadow.now }
{
    if asked { Some(shadow) } else { None }
}

// The blocks that keep safe mode on, where they are asked for.
fn asked_unsafe(
    asked: bool,
    shadow: &Shadow,
    extent: Extent,
) -> Result<Option<ReadyUnsafe<'_>>, AllocError>
    requires { extent ≡ extent_of shadow.now.namespace.rows }
    ensures { IfOk result (λ lines. text_after lines ≡ unsafe_shown asked shadow.now) }
{
    if asked {
        return Ok(Some(ReadyUnsafe::of(shadow, extent)?));
    }
    Ok(None)
}

// The image, where it is asked for.
fn asked_image<'a>(
    alloc: Global,
    asked: bool,
    shadow: &'a Shadow,
    extent: Extent,
) -> Result<Option<ReadyImage<'a>>, AllocError>
    requires { extent ≡ extent_of shadow.now.namespace.rows }
    ensures { IfOk result (λ image. image_after image ≡ image_part asked (record { last = shadow.now.last; namespace = shadow.now.namespace })) }
{
    if !asked {
        return Ok(None);
    }
    let image = ReadyImage::of(alloc, shadow.namespace(), extent, shadow.last_txid())?;
    Ok(Some(image))
}
