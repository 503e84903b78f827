//! Where a line ends, and whether it is blank.
ghost use Rattle.std.specs.Prelude.{◌≡◌, ◌≢◌, ◌≤◌, ◌<◌, ◌==◌, ℕ, length, slice_index, take};
ghost use Rattle.std.specs.List.{position_or_len};
ghost use Rattle.nn_bytes.specs.Lines.{is_blank, line_feed};
ghost use Rattle.nn_bytes.specs.Runs.{IsPrintableTo};

use crate::printable::printable_run;
use memchr::memchr;

/// Where the first line ends: at its line feed, or with the bytes.
pub fn line_end(bytes: &[u8]) -> usize
    ensures end { result ≡ position_or_len (λ b. b == line_feed) bytes.now }
    ensures within { result ≤ length bytes.now }
    ensures there { result < length bytes.now → slice_index bytes.now result ≡ line_feed }
{
    first_feed(bytes)
}

/// Where the first line ends, at its line feed or with the bytes, and how many of its first bytes are known to be printable.
///
/// So the bytes of a printable line are looked at once for both.
pub fn known_line_end(bytes: &[u8]) -> (usize, usize)
    ensures end { result.0 ≡ position_or_len (λ b. b == line_feed) bytes.now }
    ensures within { result.0 ≤ length bytes.now }
    ensures there { result.0 < length bytes.now → slice_index bytes.now result.0 ≡ line_feed }
    ensures printable { IsPrintableTo result.1 (take result.0 bytes.now) }
{
    let run = printable_run(bytes);
    if run < bytes.len() && bytes[run] == b'\n' {
        return (run, run);
    }
    let end = run + line_end(&bytes[run..]);
    (end, run)
}

// The place of the first line feed, or the length.
fn first_feed(bytes: &[u8]) -> usize
    ensures within { result ≤ length bytes.now }
    ensures before { (k : ℕ) → k < result → slice_index bytes.now k ≢ line_feed }
    ensures there { result < length bytes.now → slice_index bytes.now result ≡ line_feed }
{
    memchr(b'\n', bytes).unwrap_or(bytes.len())
}

/// Whether there are only spaces, tabs and carriage returns: such a line counts, and says nothing.
pub fn is_blank(text: &[u8]) -> bool
    ensures { result ≡ is_blank text.now }
{
    text.iter()
        .all(|b| *b == b' ' || *b == b'\t' || *b == b'\r')
}
