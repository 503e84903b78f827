//! The messages about a block that releases would give, where they are few; and what a message is looked at for.
ghost use Rattle.std.specs.Prelude.{◌≡◌, ◌≤◌, ◌&&◌, not, take, length, []};
ghost use Rattle.std.specs.List.{list_any};
ghost use Rattle.nn_postponed.specs.Places.{present};
ghost use Rattle.nn_postponed.specs.Scans.{will_go};
ghost use Rattle.nn_postponed.specs.Release.{same_source, due_at, freed};

use nn_types::{BlockId, Message, Status, due};

/// How many of a few messages releases of a block would give, one after another. It looks at each one for each one.
pub(crate) fn free_count(messages: &[Option<Message>], block: BlockId, status: Status) -> u64
    ensures { result ≡ length (freed (due_at block status) [] (present messages.now)) }
{
    let mut count: u64 = 0;
    for place in 0..messages.len() {
        let Some(m) = messages[place] else {
            continue;
        };
        if goes(messages, place, &m, block, &status) {
            count += 1;
        }
    }
    count
}

// Whether this message, which stands at the place, goes, once those before it went that go.
fn goes(
    messages: &[Option<Message>],
    place: usize,
    m: &Message,
    block: BlockId,
    status: &Status,
) -> bool
    requires { place ≤ length messages.now }
    ensures { result ≡ will_go (due_at block status.now) (present (take place messages.now)) m.now }
{
    is_due_at(m, block, status) && !has_late(messages, place, m, block, status)
}

// Whether one of the messages before a place is of this one's DataNode and block, and not due.
fn has_late(
    messages: &[Option<Message>],
    end: usize,
    m: &Message,
    block: BlockId,
    status: &Status,
) -> bool
    requires { end ≤ length messages.now }
    ensures { result ≡ list_any (λ e. same_source m.now e && not (due_at block status.now e)) (present (take end messages.now)) }
{
    for i in 0..end {
        let Some(e) = messages[i] else {
            continue;
        };
        if same_source(m, &e) && !is_due_at(&e, block, status) {
            return true;
        }
    }
    false
}

/// Whether the message is about the block and due.
pub(crate) fn is_due_at(m: &Message, block: BlockId, status: &Status) -> bool
    ensures { result ≡ due_at block status.now m.now }
{
    m.block == block && due(*status, m.stamp)
}

/// Whether the two messages are of one DataNode and about one block.
pub(crate) fn same_source(m: &Message, other: &Message) -> bool
    ensures { result ≡ same_source m.now other.now }
{
    other.dn == m.dn && other.block == m.block
}
