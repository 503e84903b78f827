//! The lines of a reader, one after another.
ghost use Rattle.std.specs.Prelude.{◌≡◌, ◌≤◌, ◌<◌, ◌+◌, ◌^◌, [], ◌∷◌, List, ℕ, false, length, IfOk, IfErr, IfSome, None, OnErr, true};
ghost use Rattle.std.specs.Io.KnownBytes.{IsAtEnd, Keeps};
ghost use Rattle.nn_bytes.specs.Runs.{IsPrintableTo};
ghost use Rattle.nn_device.specs.Device.{FailedToReadOn};
ghost use Rattle.nn_input.specs.Cut.{AsNoted, HasCome, HasEnded, IsCutTo, IsFresh, IsThere, NextEnded, ReadOn, Refilled, ahead, line_blank, line_text, no_bytes, still_to_cut};

use crate::fault::LinesFault;
use crate::torn::TornBytes;
use nn_bytes::{is_blank, known_line_end, line_end};
use nn_device::{ReadFailed, Reader};
use std::alloc::{AllocError, Global};
use std::io::Read;
use std::marker::Model;
use std::mem;

/// The bytes that one read asks for.
const BUFFER: usize = 65_536;

/// Where the text of a line lies.
#[derive(Clone, Copy, Debug, PartialEq, Eq)]
pub enum Place {
    /// It came in one read, from here to there; and so many of its first bytes are printable ASCII without a backslash.
    Read(usize, usize, usize),
    /// It came in more than one.
    Kept,
}

/// The lines of an input, which are cut as its bytes come.
#[derive(Debug, Drop)]
pub struct Lines {
    // what one read gave, of which the bytes before `from` are cut
    buffer: Vec<u8>,
    from: usize,
    to: usize,
    // the bytes behind the last line feed that earlier reads gave
    torn: TornBytes,
    // the last line that ended, where it came in more than one read
    last: TornBytes,
}

impl Model for Lines {
    ghost use Rattle.std.specs.Prelude.{◌≤◌, ◌<◌, ◌^◌, length};
    ghost use Rattle.nn_input.specs.Cut.{Lines};

    ghost Value = { Lines };

    ghost view = { λ l. record { buffer = l.buffer.items; from = l.from; to = l.to; torn = l.torn; last = l.last } };

    ghost invariant = { λ l. (l.from ≤ l.to) × (l.to ≤ length l.buffer.items) × (0 < length l.buffer.items) × (length l.buffer.items ≤ 2 ^ 16) };
}

impl Lines {
    /// No bytes.
    pub fn new(alloc: Global) -> Result<Lines, AllocError>
        ensures none { IfOk result (λ l. (most : ℕ) → HasCome most [] [] l) }
        ensures fresh { IfOk result (λ l. (ahead l ≡ []) × IsFresh l) }
    {
        let buffer = new_buffer(alloc, BUFFER)?;
        Ok(Lines {
            buffer,
            from: 0,
            to: 0,
            torn: TornBytes::none(alloc),
            last: TornBytes::none(alloc),
        })
    }

    /// Cuts the next line off what was read: where its text lies, or none where no line ends there. Of a line that came in more
    /// than one read so many bytes are kept at most. Where memory is refused nothing is cut.
    pub fn cut(&mut self, most: usize) -> Result<Option<Place>, AllocError>
        requires { 1 ≤ most }
        ensures shorter { IfOk result (λ found. IfSome found (λ _. length (ahead self.new) < length (ahead self.old))) }
        ensures few { length (ahead self.new) ≤ 2 ^ 16 }
        ensures there { IfOk result (λ found. IfSome found (λ place. IsThere place self.new)) }
        ensures line { IfOk result (λ found. IfSome found (λ place.
            (bytes : List ℕ) (lines : List (List ℕ)) → HasCome most bytes lines self.old → HasEnded most bytes lines place self.new)) }
        ensures none { IfOk result (λ found. found ≡ None → IsCutTo most self.old self.new × (ahead self.new ≡ [])) }
        ensures left { OnErr result (self.new ≡ self.old) }
    {
        if self.torn.as_slice().is_empty() {
            let from = self.from;
            let left = &self.buffer[from..self.to];
            let (end, printable) = known_line_end(left);
            if end != left.len() {
                self.from = from + end + 1;
                return Ok(Some(Place::Read(from, from + end, printable)));
            }
        }
        self.cut_torn(most)
    }

    // The same where no line ends in what was read, or bytes of the one that ends are kept. It looks for the line feed again: so a line
    // that came in one read takes a short way.
    fn cut_torn(&mut self, most: usize) -> Result<Option<Place>, AllocError>
        ensures shorter { IfOk result (λ found. IfSome found (λ _. length (ahead self.new) < length (ahead self.old))) }
        ensures few { length (ahead self.new) ≤ 2 ^ 16 }
        ensures there { IfOk result (λ found. IfSome found (λ place. IsThere place self.new)) }
        ensures line { IfOk result (λ found. IfSome found (λ place.
            (bytes : List ℕ) (lines : List (List ℕ)) → HasCome most bytes lines self.old → HasEnded most bytes lines place self.new)) }
        ensures none { IfOk result (λ found. found ≡ None → IsCutTo most self.old self.new × (ahead self.new ≡ [])) }
        ensures left { OnErr result (self.new ≡ self.old) }
    {
        let from = self.from;
        let left = &self.buffer[from..self.to];
        let end = line_end(left);
        let text = &left[..end];
        if end == left.len() {
            if let Err(_) = self.torn.push(text, most) {
                return Err(AllocError);
            }
            self.from = self.to;
            return Ok(None);
        }
        if let Err(_) = self.torn.push(text, most) {
            return Err(AllocError);
        }
        self.from = from + end + 1;
        mem::swap(&mut self.torn, &mut self.last);
        self.torn.clear();
        Ok(Some(Place::Kept))
    }

    /// Reads on, once all that was read is cut. Whether more came; else the input has ended.
    pub fn refill<R: Read>(&mut self, input: &mut Reader<R>) -> Result<bool, ReadFailed>
        requires { ahead self.old ≡ [] }
        ensures more { IfOk result (λ _. Refilled input.old input.new self.old self.new) }
        ensures some { IfOk result (λ more. more ≡ true → (input.old.given < input.new.given) × (input.old.given < 2 ^ 62)) }
        ensures end { IfOk result (λ more. more ≡ false → IsAtEnd input.new.left) }
        ensures none { IfOk result (λ more. more ≡ false → ahead self.new ≡ []) }
        ensures few { length (ahead self.new) ≤ 2 ^ 16 }
        ensures soon { input.new.given ≤ input.old.given + 2 ^ 16 }
        ensures failed { IfErr result (λ _. (input.new.failed ≡ true) × (input.new.given ≡ input.old.given)) }
        ensures left { OnErr result ((ahead self.new ≡ []) × (self.new.torn ≡ self.old.torn)) }
    {
        let Ok(n) = input.read(&mut self.buffer) else {
            return Err(ReadFailed);
        };
        self.from = 0;
        self.to = n;
        Ok(n > 0)
    }

    /// The same of an input that may go on for years: its reads are not counted.
    pub fn refill_on<R: Read>(&mut self, input: &mut Reader<R>) -> Result<bool, ReadFailed>
        requires { ahead self.old ≡ [] }
        ensures more { IfOk result (λ _. Refilled input.old input.new self.old self.new) }
        ensures some { IfOk result (λ more. more ≡ true → (input.old.given < input.new.given) × (input.old.given < 2 ^ 62)) }
        ensures end { IfOk result (λ more. more ≡ false → IsAtEnd input.new.left) }
        ensures none { IfOk result (λ more. more ≡ false → ahead self.new ≡ []) }
        ensures few { length (ahead self.new) ≤ 2 ^ 16 }
        ensures failed { IfErr result (λ _. Keeps input.old.left input.new.left × FailedToReadOn input.old input.new) }
        ensures left { OnErr result ((ahead self.new ≡ []) × (self.new.torn ≡ self.old.torn)) }
    {
        let Ok(n) = input.read_on(&mut self.buffer) else {
            return Err(ReadFailed);
        };
        self.from = 0;
        self.to = n;
        Ok(n > 0)
    }

    /// The next line: where its text lies, or none where the input has ended. Reads on where no line ends in what was read. Of a
    /// line that came in more than one read so many bytes are kept at most.
    pub fn next<R: Read>(
        &mut self,
        input: &mut Reader<R>,
        most: usize,
    ) -> Result<Option<Place>, LinesFault>
        requires { 1 ≤ most }
        ensures line { IfOk result (λ found. IfSome found (NextEnded most input.old input.new self.old self.new)) }
        ensures there { IfOk result (λ found. IfSome found (λ place. IsThere place self.new)) }
        ensures taken { IfOk result (λ found. IfSome found (λ _.
            input.old.given + (length (ahead self.new) + 1) ≤ input.new.given + length (ahead self.old))) }
        ensures few { IfOk result (λ found. IfSome found (λ _. length (ahead self.new) ≤ 2 ^ 16)) }
        ensures shorter { IfOk result (λ found. IfSome found (λ _. still_to_cut input.new self.new < still_to_cut input.old self.old)) }
        ensures end { IfOk result (λ found. found ≡ None → ReadOn most input.old input.new self.old self.new) }
        ensures whole { IfOk result (λ found. found ≡ None → IsAtEnd input.new.left × (ahead self.new ≡ [])) }
        ensures told { IfErr result (λ fault. AsNoted fault input.old.failed input.new.failed) }
    {
        'reads: loop {
            let Ok(found) = self.cut(most) else {
                return Err(LinesFault::OutOfMemory);
            };
            if let Some(place) = found {
                return Ok(Some(place));
            }
            let Ok(more) = self.refill(input) else {
                return Err(LinesFault::ReadFailed);
            };
            if !more {
                return Ok(None);
            }
        }
    }

    /// The first byte that is not cut, reading on where all is. It takes none.
    pub fn first<R: Read>(&mut self, input: &mut Reader<R>) -> Result<Option<u8>, ReadFailed>
        ensures read { IfOk result (λ _. (most : ℕ) → ReadOn most input.old input.new self.old self.new) }
        ensures byte { IfOk result (λ found. IfSome found (λ b. (rest : List ℕ) × (ahead self.new ≡ b ∷ rest))) }
        ensures none { IfOk result (λ found. found ≡ None → IsAtEnd input.new.left × (ahead self.new ≡ [])) }
        ensures torn { IfOk result (λ _. self.new.torn ≡ self.old.torn) }
        ensures soon { input.new.given ≤ input.old.given + 2 ^ 16 }
        ensures failed { IfErr result (λ _. input.new.failed ≡ true) }
        ensures left { OnErr result ((ahead self.new ≡ []) × (self.new.torn ≡ self.old.torn)) }
    {
        if self.from < self.to {
            return Ok(Some(self.buffer[self.from]));
        }
        let Ok(more) = self.refill(input) else {
            return Err(ReadFailed);
        };
        if !more {
            return Ok(None);
        }
        Ok(Some(self.buffer[self.from]))
    }

    /// The text of the line that has just ended.
    pub fn text(&self, place: Place) -> &[u8]
        requires { IsThere place self.now }
        ensures text { result.now ≡ line_text self.now place }
        ensures fits { length result.now < 2 ^ 63 }
    {
        match place {
            Place::Read(start, end, _) => &self.buffer[start..end],
            Place::Kept => self.last.as_slice(),
        }
    }

    /// Whether the line that has just ended is blank, also where its text was cut short.
    pub fn is_blank(&self, place: Place) -> bool
        requires { IsThere place self.now }
        ensures { result ≡ line_blank self.now place }
    {
        match place {
            Place::Read(start, end, _) => is_blank(&self.buffer[start..end]),
            Place::Kept => self.last.is_blank(),
        }
    }

    /// How many of the first bytes of the line that has just ended are known to be printable ASCII without a backslash.
    pub fn printable(&self, place: Place) -> usize
        requires { IsThere place self.now }
        ensures { IsPrintableTo result (line_text self.now place) }
    {
        match place {
            Place::Read(_, _, printable) => printable,
            Place::Kept => 0,
        }
    }

    /// What is kept of the bytes behind the last line feed, once all that was read is cut.
    pub fn torn(&self) -> &[u8]
        ensures { result.now ≡ self.now.torn.kept }
    {
        self.torn.as_slice()
    }

    /// Whether all bytes behind the last line feed are blank, also those that are not kept.
    pub fn is_torn_blank(&self) -> bool
        ensures { result ≡ self.now.torn.blank }
    {
        self.torn.is_blank()
    }

    /// How many bytes were read and are not cut: those of one read at most.
    pub fn left(&self) -> usize
        ensures left { result ≡ length (ahead self.now) }
        ensures few { result ≤ 2 ^ 16 }
    {
        self.to - self.from
    }

    /// Lets them go, uncut.
    pub fn forget(&mut self)
        ensures none { ahead self.new ≡ [] }
        ensures same { self.new ≡ record self.old { from = self.old.to } }
    {
        self.from = self.to;
    }

    /// Lets the bytes that are kept go, with their memory. What is ahead begins a line then.
    pub fn let_go(&mut self, alloc: Global)
        ensures fresh { IsFresh self.new }
        ensures last { self.new.last ≡ no_bytes }
        ensures same { ahead self.new ≡ ahead self.old }
    {
        self.torn = TornBytes::none(alloc);
        self.last = TornBytes::none(alloc);
    }
}

fn new_buffer(alloc: Global, size: usize) -> Result<Vec<u8>, AllocError>
    ensures { IfOk result (λ v. length v.items ≡ size) }
{
    vec![in alloc; 0u8; size]
}
