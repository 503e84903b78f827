//! `hold` of the messages that wait.
ghost use Rattle.std.specs.Prelude.{◌<◌, ◌≤◌};

use crate::full_heap::heap::Heap;
use crate::full_heap::lines::Lines;
use crate::full_heap::scenario::EndFault;
use crate::full_heap::trial::{Answer, Changing, Fate, both, change_both};
use nn_postponed::Postponed;
use nn_types::{BlockId, GenerationStamp, Kind, Length, Message};
use std::alloc::Global;

// As many as fill each room and need the next one.
const MESSAGES: u64 = 100;

// And as many as are enough where each request is refused in a run of its own.
const FEW_MESSAGES: u64 = 20;

#[derive(Clone, Copy)]
struct Hold {
    message: Message,
}

impl Changing for Hold {
    type Subject = Postponed;

    fn call(&self, held: &mut Postponed) -> Answer {
        if held.hold(self.message).is_ok() {
            Answer::Done
        } else {
            Answer::OutOfMemory
        }
    }

    fn is_unchanged(&self, held: &Postponed, twin: &Postponed) -> bool {
        are_alike(held, twin)
    }
}

// Three messages at once.
#[derive(Clone, Copy)]
struct HoldAll {
    messages: [Message; 3],
}

impl Changing for HoldAll {
    type Subject = Postponed;

    fn call(&self, held: &mut Postponed) -> Answer {
        if held.hold_all(&self.messages).is_ok() {
            Answer::Done
        } else {
            Answer::OutOfMemory
        }
    }

    fn is_unchanged(&self, held: &Postponed, twin: &Postponed) -> bool {
        are_alike(held, twin)
    }
}

// What is printed for each call.
const NAMES: [&str; 4] = [
    "Postponed::hold, a new block",
    "Postponed::hold, a new DataNode",
    "Postponed::hold, one more of the same",
    "Postponed::hold_all",
];

/// Holds messages: the first about a block, a DataNode's first about a block, and more of the same DataNode about it;
/// and then three such messages at once.
pub fn hold_messages(alloc: Global, is_ample: bool, lines: &mut Lines) -> Result<(), EndFault> {
    let messages = if is_ample { FEW_MESSAGES } else { MESSAGES };
    let (held, fates) = play(alloc, is_ample, messages)?;
    let (undisturbed, others) = play(alloc, true, messages)?;
    let is_same = are_alike(&held, &undisturbed);
    lines.push(&NAMES, &both(fates, others, is_same))
}

fn play(alloc: Global, is_ample: bool, messages: u64) -> Result<(Postponed, [Fate; 4]), EndFault>
    requires { messages ≤ 100 }
{
    let mut heap = Heap::new(alloc, is_ample)?;
    let mut held = Postponed::new(alloc);
    let mut twin = Postponed::new(alloc);
    let mut fates = [Fate::Untried; 4];
    for n in 0..messages {
        hold_some(&mut heap, n, &mut held, &mut twin, &mut fates);
    }
    Ok((held, fates))
}

fn hold_some(
    heap: &mut Heap,
    n: u64,
    held: &mut Postponed,
    twin: &mut Postponed,
    fates: &mut [Fate; 4],
)
    requires { n < 100 }
{
    let block = message(1, n, 2 + n);
    let datanode = message(2 + n as u16, 1, 0);
    let same = message(1, n, 1);
    fates[0] = fates[0].and(change_both(heap, &Hold { message: block }, held, twin));
    fates[1] = fates[1].and(change_both(heap, &Hold { message: datanode }, held, twin));
    fates[2] = fates[2].and(change_both(heap, &Hold { message: same }, held, twin));
    let three = HoldAll {
        messages: [
            message(2 + n as u16, 2, 0),
            message(1, n, 1),
            message(1, n, 2 + MESSAGES + n),
        ],
    };
    fates[3] = fates[3].and(change_both(heap, &three, held, twin));
}

fn message(dn: u16, number: u64, block: u64) -> Message
    requires { block < 1000 }
{
    Message {
        dn,
        number,
        block: BlockId::new(block).unwrap(),
        stamp: GenerationStamp::new(1001).unwrap(),
        len: Length::new(5).unwrap(),
        kind: Kind::Received,
    }
}

// Whether the same messages are held, in the same order.
fn are_alike(held: &Postponed, twin: &Postponed) -> bool {
    held.len() == twin.len()
        && (0..2 + 2 * MESSAGES).all(|n| match BlockId::new(n) {
            Some(block) => have_same(held, twin, block),
            None => false,
        })
}

// Whether the same messages about the block are held, in the same order.
fn have_same(held: &Postponed, twin: &Postponed, block: BlockId) -> bool {
    match (held.queue(block), twin.queue(block)) {
        (Some(mut queue), Some(mut other)) => {
            for _ in 0..held.len() {
                if queue.next() != other.next() {
                    return false;
                }
            }
            true
        }
        (None, None) => true,
        _ => false,
    }
}
