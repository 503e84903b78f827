//! What is served of an input: a service, and the lines that come to it.
ghost use Rattle.std.specs.Prelude.{◌≡◌, ◌+◌, [], List, ℕ, true, if◌then◌else◌, is_some, IfOk, IfErr, OnOk, OnErr};
ghost use Rattle.nn_bytes.specs.Pieces.{is_unbroken};
ghost use Rattle.nn_device.specs.Page.{PutsPiece};
ghost use Rattle.nn_input.specs.Cut.{HasCome, IsThere, KeepsFirst, ahead, line_blank, line_text};
ghost use Rattle.nn_live.specs.Live.{ends, takes, takes_torn};
ghost use Rattle.nn_live.specs.Served.{LeavesLine, ReadsAhead, StopsReading, TakesLines};
ghost use Rattle.nn_live.specs.Serving.{Breaks, BreaksAtEnd, FollowsStep};
ghost use Rattle.nn_scenario.specs.Follow.{IsLineText};
ghost use Rattle.nn_types.specs.Limits.{max_line};

use crate::service::{Service, ServiceFault};
use nn_device::{Page, ReadFailed, Reader, Writer};
use nn_edits::Scratch;
use nn_input::{Lines, Place};
use nn_scenario::MAX_KEPT;
use nn_types::limits::MAX_LINE_LEN;
use std::alloc::Global;
use std::io::{Read, Write};
use std::marker::Model;
use std::mem;

/// A service, and the lines of its input. A line that came in one read is lent, and not copied.
#[derive(Drop)]
pub(crate) struct ServedInput {
    service: Service,
    lines: Lines,
    scratch: Scratch,
}

impl Model for ServedInput {
    ghost use Rattle.nn_live.specs.Served.{ServedInput};

    ghost Value = { ServedInput };

    ghost view = { λ x. record { service = x.service; lines = x.lines } };
}

impl ServedInput {
    /// None of these lines was taken.
    pub(crate) fn of(alloc: Global, service: Service, lines: Lines) -> ServedInput
        ensures service { result.service ≡ service }
        ensures lines { result.lines ≡ lines }
    {
        ServedInput {
            service,
            lines,
            scratch: Scratch::new(alloc),
        }
    }

    /// Takes each line that has ended in what was read.
    pub(crate) fn take_lines<W: Write>(
        &mut self,
        page: &mut Page,
        writer: &mut Writer<W>,
    ) -> Result<(), ServiceFault>
        requires come { (bytes : List ℕ) × (lines : List (List ℕ)) × HasCome (max_line + 1) bytes lines self.old.lines }
        ensures ok { OnOk result ((told : List ℕ) × PutsPiece told page.old writer.old page.new writer.new × TakesLines self.old self.new told) }
        ensures all { OnOk result (ahead self.new.lines ≡ []) }
        ensures prefix { IfErr result (λ _. (told : List ℕ) × PutsPiece told page.old writer.old page.new writer.new × LeavesLine self.old told) }
    {
        'lines: while self.lines.left() > 0 {
            let Ok(found) = self.lines.cut(MAX_KEPT) else {
                return Err(ServiceFault::OutOfMemory);
            };
            let Some(place) = found else {
                return Ok(());
            };
            if let Err(fault) = self.take_line(page, writer, place) {
                return Err(fault);
            }
        }
        Ok(())
    }

    // The line that has just ended, whole or as far as a line may go.
    fn take_line<W: Write>(
        &mut self,
        page: &mut Page,
        writer: &mut Writer<W>,
        place: Place,
    ) -> Result<(), ServiceFault>
        requires there { IsThere place self.old.lines }
        requires line { (line : List ℕ) × (is_unbroken line ≡ true) × IsLineText line (line_text self.old.lines place) (line_blank self.old.lines place) }
        ensures ok { OnOk result ((told : List ℕ) × PutsPiece told page.old writer.old page.new writer.new
            × ((line : List ℕ) → IsLineText line (line_text self.old.lines place) (line_blank self.old.lines place)
            → FollowsStep (λ asked s. takes asked line s) self.old.service self.new.service told)) }
        ensures lines { self.new.lines ≡ self.old.lines }
        ensures prefix { IfErr result (λ _. (told : List ℕ) × PutsPiece told page.old writer.old page.new writer.new
            × ((line : List ℕ) → IsLineText line (line_text self.old.lines place) (line_blank self.old.lines place)
            → Breaks (λ asked s. takes asked line s) self.old.service told)) }
    {
        let text = self.lines.text(place);
        if text.len() > MAX_LINE_LEN {
            return self
                .service
                .long_line(page, writer, self.lines.is_blank(place));
        }
        let printable = self.lines.printable(place);
        self.service
            .known_line(&mut self.scratch, page, writer, text, printable)
    }

    /// The input has ended, and all its lines are taken. The bytes behind the last line feed are a line, but no word; and a segment
    /// in hand has no end.
    pub(crate) fn end<W: Write>(
        &mut self,
        page: &mut Page,
        writer: &mut Writer<W>,
    ) -> Result<(), ServiceFault>
        requires line { (torn : List ℕ) × (is_unbroken torn ≡ true) × KeepsFirst (max_line + 1) torn self.old.lines.torn }
        ensures ok { OnOk result ((told : List ℕ) × PutsPiece told page.old writer.old page.new writer.new
            × ((torn : List ℕ) → KeepsFirst (max_line + 1) torn self.old.lines.torn
            → FollowsStep (λ asked s. ends asked (takes_torn asked torn s)) self.old.service self.new.service told)) }
        ensures prefix { IfErr result (λ _. (told : List ℕ) × PutsPiece told page.old writer.old page.new writer.new
            × ((torn : List ℕ) → KeepsFirst (max_line + 1) torn self.old.lines.torn → BreaksAtEnd torn self.old.service told)) }
    {
        let torn = self.lines.torn();
        if torn.len() > MAX_LINE_LEN {
            return self
                .service
                .end_long(page, writer, self.lines.is_torn_blank());
        }
        self.service.end(&mut self.scratch, page, writer, torn)
    }

    /// Reads on, once all lines that have ended are taken. Whether more came; else the input has ended.
    pub(crate) fn read_on<R: Read>(&mut self, input: &mut Reader<R>) -> Result<bool, ReadFailed>
        requires { ahead self.old.lines ≡ [] }
        ensures ok { IfOk result (λ more. ReadsAhead more input.old input.new self.old self.new) }
        ensures failed { OnErr result (StopsReading input.old input.new) }
    {
        self.lines.refill_on(input)
    }

    /// The status that a process ends with: 1 where the log was stopped.
    pub(crate) fn exit_status(&self) -> u8
        ensures { result ≡ (if is_some self.now.service.shadow.phase.stopped then 1 else 0) }
    {
        match self.service.standby().stop() {
            Some(_) => 1,
            None => 0,
        }
    }

    /// It is freed, or left to the end of the process.
    pub(crate) fn leave(self, leave_memory: bool) {
        if leave_memory {
            mem::forget(self);
        } else {
            drop(self);
        }
    }
}
