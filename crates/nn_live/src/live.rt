//! A standby in service whose input comes in chunks.
ghost use Rattle.std.specs.Prelude.{◌≡◌, ◌∷◌, ◌++◌, [], List, ℕ, true, IfErr, IsErrOf, OnOk};
ghost use Rattle.nn_bytes.specs.Lines.{line_feed};
ghost use Rattle.nn_device.specs.Page.{PutsPiece};
ghost use Rattle.nn_bytes.specs.Pieces.{is_unbroken};
ghost use Rattle.nn_live.specs.Live.{takes};
ghost use Rattle.nn_live.specs.Serving.{Breaks, HasRunOut, FollowsStep};
ghost use Rattle.nn_live.specs.Taking.{BreaksEnd, BreaksPush, EndsInput, HasTorn, Pushes, RunsOut, RunsOutAtEnd};

use crate::service::{Service, ServiceFault};
use nn_bytes::line_end;
use nn_device::{Page, Writer};
use nn_edits::Scratch;
use nn_input::TornBytes;
use nn_scenario::MAX_KEPT;
use nn_types::limits::MAX_LINE_LEN;
use std::alloc::Global;
use std::fmt;
use std::io::Write;
use std::marker::Model;

/// A service, and the bytes behind the last line feed. Of a line without end 65,537 bytes are kept.
#[derive(Drop)]
pub struct Live {
    service: Service,
    torn: TornBytes,
    scratch: Scratch,
}

impl Model for Live {
    ghost use Rattle.std.specs.Prelude.{ℕ, List};
    ghost use Rattle.nn_live.specs.Taking.{HasTorn, Live};

    ghost Value = { Live };

    ghost view = { λ l. record { service = l.service; torn = l.torn } };

    ghost invariant = { λ l. (torn : List ℕ) × HasTorn torn l.torn };
}

// Without the bytes that it has of a line.
impl fmt::Debug for Live {
    fn fmt<D: fmt::Write>(&self, f: &mut fmt::Formatter<D>) -> fmt::Result {
        f.debug_struct("Live")
            .field("service", &self.service)
            .finish_non_exhaustive()
    }
}

impl Live {
    /// No bytes have come to this service.
    pub fn of(alloc: Global, service: Service) -> Live
        ensures service { result.service ≡ service }
        ensures torn { HasTorn [] result.torn }
    {
        Live {
            service,
            torn: TornBytes::none(alloc),
            scratch: Scratch::new(alloc),
        }
    }

    /// The next bytes of the input, however they are cut. What the lines that end in them say is done and told when the call
    /// returns. After a fault it takes no more: discard it. O(bytes), and what the lines ask for.
    pub fn push<W: Write>(
        &mut self,
        page: &mut Page,
        writer: &mut Writer<W>,
        bytes: &[u8],
    ) -> Result<(), ServiceFault>
        ensures ok { OnOk result ((told : List ℕ) × PutsPiece told page.old writer.old page.new writer.new × Pushes bytes.now self.old self.new told) }
        ensures exhausted { IsErrOf result ServiceFault.Exhausted → RunsOut bytes.now self.old }
        ensures prefix { IfErr result (λ _. (told : List ℕ) × PutsPiece told page.old writer.old page.new writer.new × BreaksPush bytes.now self.old told) }
    {
        let mut rest = bytes;
        'lines: loop {
            let (text, more) = rest.split_at(line_end(rest));
            let Some((_, after)) = more.split_first() else {
                return self.keep(text);
            };
            self.end_line(page, writer, text)?;
            rest = after;
        }
    }

    /// The input has ended. The bytes behind the last line feed are a line, but no word; and a segment in hand has no end.
    pub fn end<W: Write>(
        &mut self,
        page: &mut Page,
        writer: &mut Writer<W>,
    ) -> Result<(), ServiceFault>
        ensures ok { OnOk result ((told : List ℕ) × PutsPiece told page.old writer.old page.new writer.new × EndsInput self.old self.new told) }
        ensures exhausted { IsErrOf result ServiceFault.Exhausted → RunsOutAtEnd self.old }
        ensures prefix { IfErr result (λ _. (told : List ℕ) × PutsPiece told page.old writer.old page.new writer.new × BreaksEnd self.old told) }
    {
        let torn = self.torn.as_slice();
        if torn.len() > MAX_LINE_LEN {
            return self.service.end_long(page, writer, self.torn.is_blank());
        }
        self.service.end(&mut self.scratch, page, writer, torn)
    }

    // The line that ends with this text.
    fn end_line<W: Write>(
        &mut self,
        page: &mut Page,
        writer: &mut Writer<W>,
        text: &[u8],
    ) -> Result<(), ServiceFault>
        requires { is_unbroken text.now ≡ true }
        ensures ok { OnOk result ((told : List ℕ) × PutsPiece told page.old writer.old page.new writer.new × Pushes (text.now ++ line_feed ∷ []) self.old self.new told) }
        ensures exhausted { IsErrOf result ServiceFault.Exhausted → HasRunOut self.old.service }
        ensures prefix { IfErr result (λ _. (told : List ℕ) × PutsPiece told page.old writer.old page.new writer.new × BreaksPush (text.now ++ line_feed ∷ []) self.old told) }
    {
        if self.torn.as_slice().is_empty() {
            return self.service.line(&mut self.scratch, page, writer, text);
        }
        self.keep(text)?;
        self.kept_line(page, writer)?;
        self.forget_line();
        Ok(())
    }

    // Bytes without a line feed are kept with those before them. No bytes take no memory.
    fn keep(&mut self, bytes: &[u8]) -> Result<(), ServiceFault>
        requires { is_unbroken bytes.now ≡ true }
        ensures ok { OnOk result ((torn : List ℕ) → HasTorn torn self.old.torn → HasTorn (torn ++ bytes.now) self.new.torn) }
        ensures service { self.new.service ≡ self.old.service }
        ensures left { IfErr result (λ fault. (fault ≡ ServiceFault.OutOfMemory) × (self.new ≡ self.old)) }
        ensures some { IfErr result (λ _. bytes.now ≡ [] → ⊥) }
    {
        if let Err(_) = self.torn.push(bytes, MAX_KEPT) {
            return Err(ServiceFault::OutOfMemory);
        }
        Ok(())
    }

    // A line has ended, and the next one has no bytes yet.
    fn forget_line(&mut self)
        ensures torn { HasTorn [] self.new.torn }
        ensures service { self.new.service ≡ self.old.service }
    {
        self.torn.clear();
    }

    // The line that is kept, whole or as far as a line may go.
    fn kept_line<W: Write>(
        &mut self,
        page: &mut Page,
        writer: &mut Writer<W>,
    ) -> Result<(), ServiceFault>
        ensures ok { OnOk result ((told : List ℕ) × PutsPiece told page.old writer.old page.new writer.new
            × ((torn : List ℕ) → HasTorn torn self.old.torn → FollowsStep (λ asked s. takes asked torn s) self.old.service self.new.service told)) }
        ensures torn { self.new.torn ≡ self.old.torn }
        ensures exhausted { IsErrOf result ServiceFault.Exhausted → HasRunOut self.old.service }
        ensures prefix { IfErr result (λ _. (told : List ℕ) × PutsPiece told page.old writer.old page.new writer.new
            × ((torn : List ℕ) → HasTorn torn self.old.torn → Breaks (λ asked s. takes asked torn s) self.old.service told)) }
    {
        let text = self.torn.as_slice();
        if text.len() > MAX_LINE_LEN {
            return self.service.long_line(page, writer, self.torn.is_blank());
        }
        self.service.line(&mut self.scratch, page, writer, text)
    }
}
