//! What the program prints of a standby's history.
ghost use Rattle.std.specs.Prelude.{◌≡◌};
ghost use Rattle.nn_device.specs.Page.{PutsPiece};
ghost use Rattle.nn_listing.specs.Trail.{cause_text, event_line, history_text};

use crate::fields::{put_field, put_word};
use nn_device::{Page, Writer};
use nn_types::{Cause, Event};
use std::io::Write;

/// Puts a line for each event, in the order in which they happened:
///
/// ```text
/// applied 5
/// processed 1 1 1073741825 due
/// ```
///
/// It takes no memory.
pub fn put_history<W: Write>(page: &mut Page, writer: &mut Writer<W>, events: &[Event])
    ensures { PutsPiece (history_text events.now) page.old writer.old page.new writer.new }
{
    for event in events {
        put_event(page, writer, *event);
    }
}

fn put_event<W: Write>(page: &mut Page, writer: &mut Writer<W>, event: Event)
    ensures { PutsPiece (event_line event) page.old writer.old page.new writer.new }
{
    match event {
        Event::Applied { txid } => {
            page.put(writer, b"applied");
            put_field(page, writer, txid.get());
            page.put(writer, b"\n");
        }
        Event::Processed {
            dn,
            number,
            block,
            cause,
        } => {
            page.put(writer, b"processed");
            put_field(page, writer, u64::from(dn));
            put_field(page, writer, number);
            put_field(page, writer, block.get());
            put_word(page, writer, cause_word(cause));
            page.put(writer, b"\n");
        }
    }
}

fn cause_word(cause: Cause) -> &'static str
    ensures { result.now ≡ cause_text cause }
{
    match cause {
        Cause::Due => "due",
        Cause::Flush => "flush",
    }
}
