//! Paths that JSON writes as they are, made in one room.
ghost use Rattle.std.specs.Prelude.{◌≡◌, ◌≤◌, ◌+◌, ◌++◌, length, take, flat_map, IfSome, None};
ghost use Rattle.std.specs.Map.Iter.{deref};
ghost use Rattle.serde_json.specs.Data.{string};
ghost use Rattle.serde_json.specs.Written.{compact_text};
ghost use Rattle.nn_types.specs.Path.{path_text};
ghost use Rattle.nn_tree.specs.Listing.{lent_names};
ghost use Rattle.nn_text.specs.Plain.{slashed};

use crate::plain::is_plain_between;
use nn_device::{TriedPiece, fill};

/// What is written behind a path before it is looked at, so that the look may go past its end.
const SPACES: &[u8; 16] = b"                ";

/// The path of these names between quotes. It is made so where JSON writes it as it is, and is not the root.
#[derive(Clone, Copy, Debug)]
pub(crate) struct PlainPath<'a> {
    pub names: &'a [&'a str],
}

impl<'a> TriedPiece for PlainPath<'a> {
    ghost text = { λ p. compact_text (string (path_text (lent_names p.names.now))) };

    #[inline(always)]
    fn fill(self, room: &mut [u8], used: usize) -> Option<usize> {
        if self.names.is_empty() || room.len() - used < 18 {
            return None;
        }
        room[used] = b'"';
        let start = used + 1;
        let Some(end) = fill_names(room, start, self.names) else {
            return None;
        };
        let _ = fill(room, end, SPACES);
        if !is_plain_between(room, start, end) {
            return None;
        }
        room[end] = b'"';
        Some(end + 1)
    }
}

// Writes the names, a slash before each, where 17 bytes are left behind them.
#[inline(always)]
fn fill_names(room: &mut [u8], used: usize, names: &[&str]) -> Option<usize>
    requires { used + 17 ≤ length room.old }
    ensures len { length room.new ≡ length room.old }
    ensures within { IfSome result (λ end. (used ≤ end) × (end + 17 ≤ length room.new)) }
    ensures filled { IfSome result (λ end. take end room.new ≡ take used room.old ++ flat_map (λ n. slashed (deref n)) names.now) }
    ensures same { take used room.new ≡ take used room.old }
{
    let mut end = used;
    for name in names {
        let Some(next) = fill_name(room, end, name) else {
            return None;
        };
        end = next;
    }
    Some(end)
}

#[inline(always)]
fn fill_name(room: &mut [u8], used: usize, name: &str) -> Option<usize>
    requires { used + 17 ≤ length room.old }
    ensures len { length room.new ≡ length room.old }
    ensures within { IfSome result (λ end. (used ≤ end) × (end + 17 ≤ length room.new)) }
    ensures filled { IfSome result (λ end. take end room.new ≡ take used room.old ++ slashed name.now) }
    ensures same { take used room.new ≡ take used room.old }
{
    if room.len() - used < name.len() + 18 {
        return None;
    }
    room[used] = b'/';
    Some(fill(room, used + 1, name.as_bytes()))
}
