//! A text that goes to a writer in large parts as it grows.
//!
//! The library's `BufWriter` would do, but its contract says nothing of what a failed write has left in the writer.
ghost use Rattle.std.specs.Prelude.{◌≡◌, ◌≤◌, ◌+◌, [], ◌∷◌, ◌++◌, ℕ, List, length, take, false, true, OnOk, IfErr};
ghost use Rattle.nn_device.specs.Device.{Writer as WriterView, Took};
ghost use Rattle.nn_device.specs.Page.{HasPut, PutsPiece};
ghost use Rattle.nn_device.specs.Parts.{TookPrefix};
ghost use Rattle.nn_device.specs.declared.piece.TheConstants.{SHORT};
ghost use Rattle.nn_device.specs.declared.writer.OutputFault.TheVariants.{WriteFailed};

use crate::piece::{SHORT, ShortPiece, TriedPiece, fill};
use crate::writer::{OutputFault, Writer};
use std::alloc::Global;
use std::io::Write;
use std::marker::Model;

/// The bytes of a part: what was gathered is written once there is no room for more.
const PART: usize = 65_536;

/// The room that the first piece gets, where it is not longer. It doubles up to `PART`.
const FIRST_ROOM: usize = 512;

/// Gathers a text piece by piece, and writes it in parts of at most 65,536 bytes. No piece is refused: one for which there is no
/// memory is written at once, and what comes behind a failed write is let go. `end` tells of that write, and so does `has_failed` before the end.
#[derive(Debug, Drop)]
pub struct Page {
    // what is to be written stands at its begin
    room: Vec<u8>,
    // how many bytes that are
    used: usize,
    // whether a write failed; there is no room then
    lost: bool,
}

impl Model for Page {
    ghost use Rattle.std.specs.Prelude.{◌≡◌, ◌≤◌, [], take, length, true};
    ghost use Rattle.nn_device.specs.Page.{Page};

    ghost Value = { Page };

    ghost view = { λ p. record { left = take p.used p.room.items; lost = p.lost } };

    ghost invariant = { λ p. (p.used ≤ length p.room.items) × (p.lost ≡ true → p.room.items ≡ []) };
}

impl Page {
    /// No text yet. Takes no memory.
    pub fn new(alloc: Global) -> Page
        ensures { (start : WriterView) → HasPut start [] result start }
    {
        Page {
            room: Vec::new(alloc),
            used: 0,
            lost: false,
        }
    }

    /// The next piece of the text. The whole of a text has to go to one writer.
    #[inline(always)]
    pub fn put<W: Write>(&mut self, writer: &mut Writer<W>, piece: &[u8])
        ensures { PutsPiece piece.now self.old writer.old self.new writer.new }
    {
        if piece.len() > self.room.len() - self.used {
            self.make_room(writer, piece.len());
        }
        if piece.len() > self.room.len() - self.used {
            self.write_now(writer, piece);
            return;
        }
        self.used = fill(&mut self.room, self.used, piece);
    }

    /// The next byte of the text, in fewer steps than a piece of one byte.
    #[inline(always)]
    pub fn put_byte<W: Write>(&mut self, writer: &mut Writer<W>, byte: u8)
        ensures { PutsPiece (byte ∷ []) self.old writer.old self.new writer.new }
    {
        if self.used == self.room.len() {
            self.make_room(writer, 1);
        }
        if self.used == self.room.len() {
            self.write_now(writer, &[byte]);
            return;
        }
        self.room[self.used] = byte;
        self.used += 1;
    }

    /// The next piece, made where it is to stand: for all of it there is one look whether there is room.
    #[inline(always)]
    pub fn put_short<W: Write, P: ShortPiece>(&mut self, writer: &mut Writer<W>, piece: P)
        ensures { PutsPiece (P.text piece) self.old writer.old self.new writer.new }
    {
        if SHORT > self.room.len() - self.used {
            self.make_room(writer, SHORT);
        }
        if SHORT > self.room.len() - self.used {
            self.write_short(writer, piece);
            return;
        }
        self.used = piece.fill(&mut self.room, self.used);
    }

    /// The next piece, made where it is to stand, if it can be made so. Otherwise nothing is put.
    #[inline(always)]
    pub fn try_piece<W: Write, P: TriedPiece>(&mut self, writer: &mut Writer<W>, piece: P) -> bool
        ensures put { result ≡ true → PutsPiece (P.text piece) self.old writer.old self.new writer.new }
        ensures not { result ≡ false → PutsPiece [] self.old writer.old self.new writer.new }
    {
        if FIRST_ROOM > self.room.len() - self.used {
            self.make_room(writer, FIRST_ROOM);
        }
        let Some(end) = piece.fill(&mut self.room, self.used) else {
            return false;
        };
        self.used = end;
        true
    }

    // A short piece for which there is no room. It is made on the stack.
    #[inline(never)]
    fn write_short<W: Write, P: ShortPiece>(&mut self, writer: &mut Writer<W>, piece: P)
        ensures { PutsPiece (P.text piece) self.old writer.old self.new writer.new }
    {
        let mut room = short_room();
        let end = piece.fill(&mut room, 0);
        self.write_now(writer, &room[..end]);
    }

    // A piece for which there is no room: it is written behind what was gathered.
    #[inline(never)]
    fn write_now<W: Write>(&mut self, writer: &mut Writer<W>, piece: &[u8])
        ensures { PutsPiece piece.now self.old writer.old self.new writer.new }
    {
        self.flush(writer);
        self.write_piece(writer, piece);
    }

    // Makes room for so many bytes: by more memory up to a part, then by writing what was gathered. There may be less of it.
    #[inline(never)]
    fn make_room<W: Write>(&mut self, writer: &mut Writer<W>, more: usize)
        ensures { PutsPiece [] self.old writer.old self.new writer.new }
    {
        if self.lost || more > PART {
            return;
        }
        if self.used + more > PART {
            self.flush(writer);
            return;
        }
        let wanted = (2 * self.room.len())
            .max(self.used + more)
            .max(FIRST_ROOM)
            .min(PART);
        let _ = self.room.resize(wanted, 0);
    }

    /// Whether a write failed. Whoever puts a long text may end it then: no more of it is written.
    pub fn has_failed(&self) -> bool
        ensures { result ≡ self.now.lost }
    {
        self.lost
    }

    /// How many bytes were put that are not written yet.
    pub fn pending(&self) -> usize
        ensures { result ≡ length self.now.left }
    {
        self.used
    }

    /// Writes what was gathered: the writer has all that was put then, unless a write failed.
    pub fn flush<W: Write>(&mut self, writer: &mut Writer<W>)
        ensures same { PutsPiece [] self.old writer.old self.new writer.new }
        ensures none { self.new.left ≡ [] }
    {
        if self.lost {
            return;
        }
        let written = writer.write_part(&self.room[..self.used]);
        self.used = 0;
        if let Err(_) = written {
            self.lose();
        }
    }

    /// Writes the rest of the text.
    pub fn end<W: Write>(self, writer: &mut Writer<W>) -> Result<(), OutputFault>
        ensures ok { OnOk result ((start : WriterView) (text : List ℕ) → HasPut start text self writer.old → Took start writer.new text) }
        ensures prefix { IfErr result (λ cause. (start : WriterView) (text : List ℕ) → HasPut start text self writer.old → TookPrefix start writer.new text cause) }
        ensures cause { IfErr result (λ cause. cause ≡ WriteFailed) }
    {
        let Page { room, used, lost } = self;
        if lost {
            return Err(OutputFault::WriteFailed);
        }
        match writer.write_part(&room[..used]) {
            Ok(()) => Ok(()),
            Err(_) => Err(OutputFault::WriteFailed),
        }
    }

    // Notes a failed write, and takes the room away.
    fn lose(&mut self)
        ensures { self.new ≡ record { left = []; lost = true } }
    {
        self.room.clear();
        self.used = 0;
        self.lost = true;
    }

    // Writes a piece behind what was written.
    fn write_piece<W: Write>(&mut self, writer: &mut Writer<W>, piece: &[u8])
        requires { self.old.left ≡ [] }
        ensures { PutsPiece piece.now self.old writer.old self.new writer.new }
    {
        if self.lost {
            return;
        }
        if let Err(_) = writer.write_part(piece) {
            self.lose();
        }
    }
}

// Room on the stack for a short piece.
fn short_room() -> [u8; SHORT]
    ensures { length result ≡ SHORT }
{
    [0; SHORT]
}
