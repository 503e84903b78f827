//! Pieces of a text that are made where they are to stand.
ghost use Rattle.std.specs.Prelude.{◌≡◌, ◌≤◌, ◌+◌, ◌++◌, ℕ, List, length, take, IfSome, None};
ghost use Rattle.nn_device.specs.declared.piece.TheConstants.{SHORT};

/// The room that a short piece is given.
pub const SHORT: usize = 128;

/// A piece for which `SHORT` bytes of room are enough.
pub trait ShortPiece: Copy {
    ghost text: { Self → List ℕ };

    /// Writes it into a room, behind what is used of it. Returns how much is used then.
    fn fill(self, room: &mut [u8], used: usize) -> usize
        requires { used + SHORT ≤ length room.old }
        ensures len { length room.new ≡ length room.old }
        ensures within { result ≤ length room.new }
        ensures filled { take result room.new ≡ take used room.old ++ text self };
}

/// A piece that may be made where it is to stand, and may not: it can be too long, or have bytes that want another form there.
pub trait TriedPiece: Copy {
    ghost text: { Self → List ℕ };

    /// Writes it into a room, behind what is used of it, and returns how much is used then. Or it changes no byte of those.
    fn fill(self, room: &mut [u8], used: usize) -> Option<usize>
        requires { used ≤ length room.old }
        ensures len { length room.new ≡ length room.old }
        ensures within { IfSome result (λ end. end ≤ length room.new) }
        ensures filled { IfSome result (λ end. take end room.new ≡ take used room.old ++ text self) }
        ensures same { result ≡ None → take used room.new ≡ take used room.old };
}

/// Copies a piece into a room, behind what is used of it. Returns how much is used then.
#[inline(always)]
pub fn fill(room: &mut [u8], used: usize, piece: &[u8]) -> usize
    requires { used + length piece.now ≤ length room.old }
    ensures used { result ≡ used + length piece.now }
    ensures len { length room.new ≡ length room.old }
    ensures filled { take result room.new ≡ take used room.old ++ piece.now }
{
    let end = used + piece.len();
    room[used..end].copy_from_slice(piece);
    end
}
