//! A standby over one lane, and the source of its log.
ghost use Rattle.std.specs.Prelude.{◌≡◌, [], ◌∷◌, IfSome};

use crate::calls::call::Call;
use crate::shown::tables_of;
use nn_device::{Reader, Writer};
use nn_lane::{LaneEnd, Refusal, Reporter, lane};
use nn_lane_standby::{Choice, Standby, StepFault, Stepped};
use nn_segment::{Item, Parsed, SegmentSource, SourceFault};
use nn_shadow::Shadow;
use nn_types::{Kind, Settings};
use std::alloc::Global;
use std::collections::VecDeque;
use std::mem;

/// A standby over the lane of DataNode 1, the reporter of this lane, and the source of the log.
#[derive(Drop)]
pub struct Tailing {
    standby: Standby,
    reporter: Reporter,
    log: Given,
}

/// The segments that a script has given so far, and then End. It fails once, after so many calls, where the script says so.
#[derive(Drop)]
struct Given {
    segments: VecDeque<Parsed>,
    before: u64,
    has_failed: bool,
    is_over: bool,
}

impl SegmentSource for Given {
    ghost use Rattle.std.specs.Prelude.{◌≡◌, ⊤, true, [], length, if◌then◌else◌};

    ghost gives = { λ s r t. ⊤ };

    ghost left = { λ s. length s.segments.items };

    ghost failures = { λ s. if s.has_failed then 1 else 0 };

    ghost ended = { λ s. (s.is_over ≡ true) × (s.segments.items ≡ []) };

    fn next(&mut self) -> Result<Item, SourceFault> {
        if !self.has_failed && !self.is_over {
            if self.before == 0 {
                self.has_failed = true;
                return Err(SourceFault::SourceFailed);
            }
            self.before -= 1;
        }
        match self.segments.pop_front() {
            Some(segment) => Ok(Item::Segment(segment)),
            None => {
                self.is_over = true;
                Ok(Item::End)
            }
        }
    }
}

/// Calls on the standby. Whether this was one.
pub fn play(tailing: &mut Option<Tailing>, text: &mut Vec<u8>, call: &mut Call<'_>) -> bool {
    if call.is("standby") || call.is("standby_from_image") {
        drop(mem::replace(tailing, open(text, call)));
        return true;
    }
    match tailing {
        Some(tailing) => act(tailing, text, call),
        None => false,
    }
}

// A standby over a lane of four places. It starts from the image, if the call says so.
fn open(image: &[u8], call: &mut Call<'_>) -> Option<Tailing> {
    let Ok((reporter, end)) = lane(call.alloc, 1, 4) else {
        call.failed = true;
        return None;
    };
    let standby = begin(end, image, call)?;
    let log = Given {
        segments: VecDeque::new(call.alloc),
        before: 0,
        has_failed: true,
        is_over: false,
    };
    Some(Tailing {
        standby,
        reporter,
        log,
    })
}

fn begin(end: LaneEnd, image: &[u8], call: &mut Call<'_>) -> Option<Standby>
    requires { (end.lane.node ≡ 1) × (end.got ≡ []) }
{
    let settings = Settings::new(999, 1)?;
    let ends = ends_of(call.alloc, end)?;
    if call.is("standby") {
        return Standby::new(call.alloc, ends, settings).ok();
    }
    match Standby::from_image(call.alloc, ends, settings, &mut Reader::new(image)) {
        Ok(standby) => Some(standby),
        Err(refused) => {
            call.fault(refused.fault.number(), &refused.fault);
            None
        }
    }
}

fn ends_of(alloc: Global, end: LaneEnd) -> Option<Vec<LaneEnd>>
    ensures { IfSome result (λ ends. ends.items ≡ end ∷ []) }
{
    let mut ends = Vec::new(alloc);
    let Ok(()) = ends.push(end) else {
        return None;
    };
    Some(ends)
}

fn act(tailing: &mut Tailing, text: &mut Vec<u8>, call: &mut Call<'_>) -> bool {
    if call.is("give") {
        give(&mut tailing.log, text, call);
    } else if call.is("fail") {
        tailing.log.before = call.number(1);
        tailing.log.has_failed = false;
    } else if call.is("step") {
        step(tailing, Choice::Edit, call);
    } else if call.is("take_in") {
        let dn = call.datanode(1);
        step(tailing, Choice::Lane(dn), call);
    } else if call.is("close_intake") {
        tailing.standby.close_intake();
    } else if call.is("promote") {
        promote(tailing, call);
    } else if call.is("send") {
        send(&mut tailing.reporter, call);
    } else if call.is("checkpoint") {
        write_image(&tailing.standby, text, call);
    } else {
        return read(&tailing.standby, call);
    }
    true
}

// Gives the text as the next segment of the log, under a name.
fn give(log: &mut Given, text: &[u8], call: &mut Call<'_>) {
    let name = String::from_str(call.alloc, call.word(1));
    let bytes = Vec::from_slice(call.alloc, text);
    let (Ok(name), Ok(bytes)) = (name, bytes) else {
        call.failed = true;
        return;
    };
    match Parsed::of(call.alloc, name, bytes) {
        Ok(segment) => {
            log.is_over = false;
            call.failed = log.segments.push_back(segment).is_err() || call.failed;
        }
        Err(fault) => call.fault(fault.number(), &fault),
    }
}

fn step(tailing: &mut Tailing, choice: Choice, call: &mut Call<'_>) {
    match tailing.standby.step(&mut tailing.log, choice) {
        Ok(stepped) => show_step(stepped, call),
        Err(fault) => show_fault(fault, call),
    }
}

fn show_step(stepped: Stepped, call: &mut Call<'_>) {
    match stepped {
        Stepped::Applied { txid } => {
            call.say("applied");
            call.show(&txid.get());
        }
        Stepped::Passed => call.say("passed"),
        Stepped::LogEnded => call.say("ended"),
        Stepped::Handed { processed, held } => {
            call.say("handed");
            call.show(&processed);
            call.show(&held);
        }
        Stepped::Empty { accepted } => {
            call.say("empty");
            call.show(&accepted);
        }
    }
}

fn show_fault(fault: StepFault, call: &mut Call<'_>) {
    call.fault(fault.number(), &fault);
}

// The last txid, and how many items the flush processed.
fn promote(tailing: &mut Tailing, call: &mut Call<'_>) {
    match tailing.standby.promote(&mut tailing.log) {
        Ok(active) => {
            call.say("promoted");
            call.show(&active.last);
            call.show(&active.flushed);
        }
        Err(fault) => call.fault(fault.number(), &fault),
    }
}

// Sends a report of a received replica.
fn send(reporter: &mut Reporter, call: &mut Call<'_>) {
    let block = call.block();
    match reporter.report(block.id, block.stamp, block.len, Kind::Received) {
        Ok(number) => call.show(&number),
        Err(refusal) => show_refusal(refusal, call),
    }
}

fn show_refusal(refusal: Refusal, call: &mut Call<'_>) {
    call.fault(refusal.number(), &refusal);
}

// Puts the checkpoint in the place of the text.
fn write_image(standby: &Standby, text: &mut Vec<u8>, call: &mut Call<'_>) {
    let mut image = Writer::new(Vec::new(call.alloc));
    call.failed = standby.checkpoint(call.alloc, &mut image).is_err() || call.failed;
    *text = image.into_inner();
}

// Calls that change nothing.
fn read(standby: &Standby, call: &mut Call<'_>) -> bool {
    if call.is("last_txid") {
        call.show(&standby.shadow().last_txid().get());
    } else if call.is("in_hand") {
        call.show(&standby.in_hand());
    } else if call.is("is_active") {
        call.show(&standby.is_active());
    } else if call.is("tables") {
        show_tables(standby.shadow(), call);
    } else if call.is("stopped") {
        if let Some(stop) = standby.stop() {
            call.show(&stop.txid.get());
            call.show(&stop.cause.number());
        }
        call.none();
    } else {
        return false;
    }
    true
}

// What the standby has printed, except a history.
fn show_tables(shadow: &Shadow, call: &mut Call<'_>) {
    match tables_of(call.alloc, shadow) {
        Ok(text) => call.say_lines(&text),
        Err(_) => call.failed = true,
    }
}
