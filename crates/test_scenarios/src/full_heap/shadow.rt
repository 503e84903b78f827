//! `Shadow::from`, `apply`, `hand` and `flush`.
use crate::full_heap::heap::Heap;
use crate::full_heap::lines::Lines;
use crate::full_heap::scenario::{EndFault, Scenario};
use crate::full_heap::trial::{Answer, Changing, Fate, Making, Pair, compared, make_both};
use crate::full_heap::{namespace, table};
use crate::shown::text_of;
use nn_replicas::Figures;
use nn_scenario::Step;
use nn_shadow::{ApplyFault, FlushFault, HandCause, Shadow};
use nn_tree::Namespace;
use nn_types::{BlockId, Kind, Message, Settings, Tx, Txid};
use std::alloc::{AllocError, Global};

// The DataNodes of the scenario.
const DATANODES: u16 = 6;

// What is printed for each call.
const NAMES: [&str; 5] = [
    "Shadow::from",
    "Shadow::apply",
    "Shadow::hand",
    "Shadow::hand, the end of a report",
    "Shadow::flush",
];

#[derive(Clone, Copy)]
enum Asked<'a> {
    Apply(&'a Tx),
    Hand(Message),
    Flush,
}

#[derive(Clone, Copy)]
struct Ask<'a> {
    asked: Asked<'a>,
    scenario: &'a Scenario,
}

impl Changing for Ask<'_> {
    type Subject = Shadow;

    fn call(&self, shadow: &mut Shadow) -> Answer {
        match self.asked {
            Asked::Apply(tx) => match shadow.apply(tx) {
                Ok(()) => Answer::Done,
                Err(ApplyFault::OutOfMemory) => Answer::OutOfMemory,
                Err(_) => Answer::Other,
            },
            Asked::Hand(message) => match shadow.hand(message) {
                Ok(_) => Answer::Done,
                Err(fault) if fault.cause == HandCause::OutOfMemory => Answer::OutOfMemory,
                Err(_) => Answer::Other,
            },
            Asked::Flush => match shadow.flush() {
                Ok(_) => Answer::Done,
                Err(FlushFault::OutOfMemory) => Answer::OutOfMemory,
                Err(_) => Answer::Other,
            },
        }
    }

    fn is_unchanged(&self, shadow: &Shadow, twin: &Shadow) -> bool {
        are_alike(shadow, twin, self.scenario)
    }
}

/// Whether two standbys show the same, about all that the scenario names. It can do without memory.
pub fn are_alike(shadow: &Shadow, twin: &Shadow, scenario: &Scenario) -> bool {
    shadow.history() == twin.history()
        && shadow.last_txid() == twin.last_txid()
        && shadow.held_count() == twin.held_count()
        && counts(shadow) == counts(twin)
        && namespace::are_alike(shadow.namespace(), twin.namespace(), scenario)
        && have_the_same_messages(shadow, twin, scenario)
}

// The figures but the room: some of it may stay where memory is refused.
fn counts(shadow: &Shadow) -> Figures {
    Figures {
        places: 0,
        ..shadow.figures()
    }
}

fn have_the_same_messages(shadow: &Shadow, twin: &Shadow, scenario: &Scenario) -> bool {
    for block in &scenario.blocks {
        if !have_the_same_of(shadow, twin, *block) {
            return false;
        }
    }
    (1..=DATANODES).all(|dn| shadow.last_number(dn) == twin.last_number(dn))
}

fn have_the_same_of(shadow: &Shadow, twin: &Shadow, block: BlockId) -> bool {
    table::are_alike_at(shadow.replicas(), twin.replicas(), block)
        && (1..=DATANODES).all(|dn| shadow.holds(dn, block) == twin.holds(dn, block))
}

// Makes a standby of a namespace, which is compared with a third one of its kind.
#[derive(Drop)]
struct Start<'a> {
    alloc: Global,
    settings: Settings,
    txid: Txid,
    twin: Namespace,
    scenario: &'a Scenario,
}

impl Start<'_> {
    fn new(alloc: Global, settings: Settings, scenario: &Scenario) -> Result<Start<'_>, EndFault> {
        Ok(Start {
            alloc,
            settings,
            txid: scenario.image_txid()?,
            twin: scenario.after_the_first(alloc)?,
            scenario,
        })
    }
}

impl Making for Start<'_> {
    type Given = Namespace;

    type Made = Shadow;

    fn call(&self, namespace: Namespace) -> Result<Shadow, (Answer, Namespace)> {
        match Shadow::from(self.alloc, namespace, self.txid, DATANODES, self.settings) {
            Ok(shadow) => Ok(shadow),
            Err(fault) => Err((Answer::OutOfMemory, fault.namespace)),
        }
    }

    fn is_unchanged(&self, namespace: &Namespace) -> bool {
        namespace::are_alike(namespace, &self.twin, self.scenario)
    }
}

/// A standby starts over the namespace after the scenario's first segment, takes in all messages between the edits of the
/// last segment, and is flushed.
pub fn follow_log(
    alloc: Global,
    is_ample: bool,
    settings: Settings,
    scenario: &Scenario,
    lines: &mut Lines,
) -> Result<(), EndFault> {
    let fates = fates_of_log(alloc, is_ample, settings, scenario)?;
    lines.push(&NAMES, &fates)
}

fn fates_of_log(
    alloc: Global,
    is_ample: bool,
    settings: Settings,
    scenario: &Scenario,
) -> Result<[Fate; 5], EndFault> {
    let played = text_of_play(alloc, is_ample, settings, scenario)?;
    let undisturbed = text_of_play(alloc, true, settings, scenario)?;
    Ok(compared(played, undisturbed))
}

// Plays the log, and shows the standby at its end as text. What is large is dropped by name: each exit that drops it costs
// the proof seconds.
fn text_of_play(
    alloc: Global,
    is_ample: bool,
    settings: Settings,
    scenario: &Scenario,
) -> Result<(Option<String>, [Fate; 5]), EndFault> {
    let start = Start::new(alloc, settings, scenario)?;
    let played = play(alloc, is_ample, &start);
    drop(start);
    let (pair, fates) = played?;
    let text = text_of_pair(alloc, &pair);
    drop(pair);
    Ok((text?, fates))
}

fn text_of_pair(alloc: Global, pair: &Option<Pair<Shadow>>) -> Result<Option<String>, AllocError> {
    match pair {
        Some(pair) => Ok(Some(text_of(alloc, &pair.subject)?)),
        None => Ok(None),
    }
}

fn play(
    alloc: Global,
    is_ample: bool,
    start: &Start<'_>,
) -> Result<(Option<Pair<Shadow>>, [Fate; 5]), EndFault> {
    let mut heap = Heap::new(alloc, is_ample)?;
    let (made, mut pair) = begin(&mut heap, start)?;
    let fates = follow(&mut heap, start.scenario, made, &mut pair);
    Ok((pair, fates))
}

// Makes the calls on the pair, if it was made.
fn follow(
    heap: &mut Heap,
    scenario: &Scenario,
    made: Fate,
    pair: &mut Option<Pair<Shadow>>,
) -> [Fate; 5] {
    let Some(pair) = pair else {
        let untried = Fate::Untried;
        return [made, untried, untried, untried, untried];
    };
    let (edits, messages, ends) = take_in(heap, scenario, pair);
    let asked = Asked::Flush;
    let flushed = pair.change(heap, &Ask { asked, scenario });
    [made, edits, messages, ends, flushed]
}

// Two standbys are made. What they are made of is there before the heap is full.
fn begin(heap: &mut Heap, start: &Start<'_>) -> Result<(Fate, Option<Pair<Shadow>>), EndFault> {
    let namespace = start.scenario.after_the_first(start.alloc)?;
    let other = start.scenario.after_the_first(start.alloc)?;
    Ok(make_both(heap, start, namespace, other))
}

// Takes in the messages and applies the last segment, in the order of the scenario's lines: the fates of edits, of messages,
// and of those that end a full report.
fn take_in(heap: &mut Heap, scenario: &Scenario, pair: &mut Pair<Shadow>) -> (Fate, Fate, Fate) {
    let mut fates = (Fate::Untried, Fate::Untried, Fate::Untried);
    let mut before = scenario.txs(0).len();
    let mut txs = scenario.txs(1).iter();
    for step in &scenario.steps {
        match *step {
            Step::Message(message) => {
                let asked = Asked::Hand(message);
                let fate = pair.change(heap, &Ask { asked, scenario });
                if message.kind == Kind::Finish {
                    fates.2 = fates.2.and(fate);
                } else {
                    fates.1 = fates.1.and(fate);
                }
            }
            Step::Edit if before > 0 => before -= 1,
            Step::Edit => {
                if let Some(tx) = txs.next() {
                    let asked = Asked::Apply(tx);
                    fates.0 = fates.0.and(pair.change(heap, &Ask { asked, scenario }));
                }
            }
        }
    }
    fates
}
