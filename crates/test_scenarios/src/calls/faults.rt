//! What is said of each fault: the explanation of its number, and the texts of the libraries' own types of faults.
//!
//! A number that a text shows is 7, or 9 where it counts bytes.
use crate::calls::call::Call;
use nn_device::{OutputFault, ReadFailed, WriteFailed};
use nn_drive::DriveFault;
use nn_edits::{LineFault, WriteFault};
use nn_image::{ImageFault, RewriteFault, SaveFault};
use nn_lane::Refusal;
use nn_lane_standby::{PromoteFault, StepFault};
use nn_postponed::HoldRefusal;
use nn_run::{InputFault, RunFault};
use nn_scenario::ScenarioFault;
use nn_segment::{SegmentFault, SourceFault};
use nn_shadow::{ApplyFault, FlushFault, HandCause, HandFault, Stop, StopCause};
use nn_tree::RestoreFault;
use nn_types::{
    BlockId, EditFault, GenerationStamp, Kind, Length, Message, PathFault, Txid, fault,
};
use std::fmt::Display;

/// Calls about faults. Whether this was one.
pub fn play(call: &mut Call<'_>) -> bool {
    if call.is("explain") {
        explain(call);
    } else if call.is("texts") {
        show_texts(call);
    } else {
        return false;
    }
    true
}

// The explanation of a number, or `none`.
fn explain(call: &mut Call<'_>) {
    let Ok(number) = u8::try_from(call.number(1)) else {
        call.failed = true;
        return;
    };
    call.say(fault::explanation(number).unwrap_or("none"));
}

// The faults of a type in order, each by its number and as it is printed; a type without numbers as printed alone.
fn show_texts(call: &mut Call<'_>) {
    match call.word(1) {
        "ApplyFault" => apply_faults(call),
        "DriveFault" => drive_faults(call),
        "EditFault" => edit_faults(call),
        "FlushFault" => flush_faults(call),
        "HandCause" => hand_causes(call),
        "HandFault" => hand_faults(call),
        "HoldRefusal" => hold_refusal(call),
        "ImageFault" => image_faults(call),
        "InputFault" => input_faults(call),
        "LineFault" => line_faults(call),
        "OutputFault" => output_faults(call),
        "PathFault" => path_faults(call),
        "PromoteFault" => promote_faults(call),
        "ReadFailed" => unnumbered(call, &ReadFailed),
        "Refusal" => refusals(call),
        "RestoreFault" => restore_faults(call),
        "RewriteFault" => rewrite_faults(call),
        "RunFault" => run_faults(call),
        "SaveFault" => save_faults(call),
        "ScenarioFault" => scenario_fault(call),
        "SegmentFault" => segment_faults(call),
        "SourceFault" => source_faults(call),
        "StepFault" => step_faults(call),
        "StopCause" => stop_causes(call),
        "WriteFailed" => unnumbered(call, &WriteFailed { written: 9 }),
        "WriteFault" => write_faults(call),
        _ => call.failed = true,
    }
}

// A fault that has no number, as it is printed.
fn unnumbered<T: Display>(call: &mut Call<'_>, fault: &T) {
    call.say("fault");
    call.show(fault);
}

// ---- Of what is read: lines, paths and segments.

fn line_faults(call: &mut Call<'_>) {
    for fault in [
        LineFault::NotJson,
        LineFault::MissingField,
        LineFault::BadNumber,
        LineFault::UnknownOp,
        LineFault::BadPath,
        LineFault::LineTooLong,
        LineFault::UnknownKind,
        LineFault::OutOfMemory,
    ] {
        call.fault(fault.number(), &fault);
    }
}

fn write_faults(call: &mut Call<'_>) {
    for fault in [WriteFault::LineTooLong, WriteFault::OutOfMemory] {
        call.fault(fault.number(), &fault);
    }
}

fn path_faults(call: &mut Call<'_>) {
    for fault in [PathFault::BadPath, PathFault::OutOfMemory] {
        call.fault(fault.number(), &fault);
    }
}

fn segment_faults(call: &mut Call<'_>) {
    for fault in [
        SegmentFault::BadName,
        SegmentFault::TooLong,
        SegmentFault::NoStart,
        SegmentFault::TornLine { line: 7 },
        SegmentFault::BadLine {
            line: 7,
            fault: LineFault::BadPath,
        },
        SegmentFault::Gap { expected: 7 },
        SegmentFault::WrongProfile { line: 7 },
        SegmentFault::NoEnd,
        SegmentFault::NameMismatch,
        SegmentFault::OutOfMemory,
    ] {
        call.fault(fault.number(), &fault);
    }
}

fn source_faults(call: &mut Call<'_>) {
    for fault in [
        SourceFault::Gone,
        SourceFault::SourceFailed,
        SourceFault::OutOfMemory,
    ] {
        call.fault(fault.number(), &fault);
    }
}

// ---- Of a namespace and its images.

fn edit_faults(call: &mut Call<'_>) {
    for fault in [
        EditFault::Exists,
        EditFault::Missing,
        EditFault::NotDirectory,
        EditFault::NotFile,
        EditFault::IsRoot,
        EditFault::IntoItself,
        EditFault::NotOpen,
        EditFault::WrongBlocks,
        EditFault::BadGeneration,
        EditFault::BadBlockId,
        EditFault::BadReplication,
        EditFault::NotClosed,
        EditFault::LowerProfile,
        EditFault::OutOfMemory,
    ] {
        call.fault(fault.number(), &fault);
    }
}

fn restore_faults(call: &mut Call<'_>) {
    for fault in [RestoreFault::Refused, RestoreFault::OutOfMemory] {
        call.fault(fault.number(), &fault);
    }
}

fn image_faults(call: &mut Call<'_>) {
    for fault in [
        ImageFault::NotHeader,
        ImageFault::BadLine(7),
        ImageFault::WrongOrder(7),
        ImageFault::CountMismatch,
        ImageFault::Truncated,
        ImageFault::BadVersion,
        ImageFault::ReadFault,
        ImageFault::OutOfMemory,
    ] {
        call.fault(fault.number(), &fault);
    }
}

fn save_faults(call: &mut Call<'_>) {
    for fault in [SaveFault::WriteFault { written: 9 }, SaveFault::OutOfMemory] {
        call.fault(fault.number(), &fault);
    }
}

fn rewrite_faults(call: &mut Call<'_>) {
    for fault in [
        RewriteFault::Load(ImageFault::Truncated),
        RewriteFault::Save(SaveFault::WriteFault { written: 9 }),
    ] {
        call.fault(fault.number(), &fault);
    }
}

// ---- Of lanes and of what waits.

fn refusals(call: &mut Call<'_>) {
    for fault in [
        Refusal::Closed {
            message: message(),
            accepted: 7,
        },
        Refusal::Exhausted { message: message() },
        Refusal::Full {
            message: message(),
            taken: 7,
        },
    ] {
        call.fault(fault.number(), &fault);
    }
}

fn hold_refusal(call: &mut Call<'_>) {
    let fault = HoldRefusal { message: message() };
    call.fault(fault.number(), &fault);
}

// ---- Of a standby.

fn apply_faults(call: &mut Call<'_>) {
    for fault in [
        ApplyFault::Stopped(stop()),
        ApplyFault::AlreadyActive,
        ApplyFault::Disorder { expected: 7 },
        ApplyFault::Refused(EditFault::Exists),
        ApplyFault::OutOfMemory,
    ] {
        call.fault(fault.number(), &fault);
    }
}

fn hand_causes(call: &mut Call<'_>) {
    for fault in [
        HandCause::Stopped(stop()),
        HandCause::AlreadyActive,
        HandCause::BadLane,
        HandCause::WrongNumber,
        HandCause::OutOfMemory,
    ] {
        call.fault(fault.number(), &fault);
    }
}

fn hand_faults(call: &mut Call<'_>) {
    let fault = HandFault {
        message: message(),
        cause: HandCause::WrongNumber,
    };
    unnumbered(call, &fault);
}

fn flush_faults(call: &mut Call<'_>) {
    for fault in [FlushFault::Stopped(stop()), FlushFault::OutOfMemory] {
        call.fault(fault.number(), &fault);
    }
}

fn stop_causes(call: &mut Call<'_>) {
    for cause in [StopCause::Refused(EditFault::Exists), StopCause::Disorder] {
        call.fault(cause.number(), &cause);
    }
}

fn step_faults(call: &mut Call<'_>) {
    for fault in [
        StepFault::AlreadyActive,
        StepFault::Stopped(stop()),
        StepFault::BadLane,
        StepFault::LogNotEnded(SourceFault::Gone),
        StepFault::OutOfMemory,
    ] {
        call.fault(fault.number(), &fault);
    }
}

fn promote_faults(call: &mut Call<'_>) {
    for fault in [
        PromoteFault::AlreadyActive,
        PromoteFault::IntakeOpen,
        PromoteFault::Step(StepFault::BadLane),
    ] {
        call.fault(fault.number(), &fault);
    }
}

fn drive_faults(call: &mut Call<'_>) {
    for fault in [
        DriveFault::AlreadyActive,
        DriveFault::Stopped(stop()),
        DriveFault::LogNotEnded(SourceFault::SourceFailed),
        DriveFault::OutOfMemory,
    ] {
        call.fault(fault.number(), &fault);
    }
}

// ---- Of devices and of a run.

fn output_faults(call: &mut Call<'_>) {
    for fault in [OutputFault::WriteFailed, OutputFault::OutOfMemory] {
        unnumbered(call, &fault);
    }
}

fn scenario_fault(call: &mut Call<'_>) {
    let fault = ScenarioFault {
        fault: LineFault::NotJson,
        line: 7,
    };
    unnumbered(call, &fault);
}

fn input_faults(call: &mut Call<'_>) {
    for fault in [
        InputFault::ReadFailed,
        InputFault::TooLong,
        InputFault::OutOfMemory,
    ] {
        unnumbered(call, &fault);
    }
}

fn run_faults(call: &mut Call<'_>) {
    unnumbered(call, &RunFault { written: 9 });
}

// ---- What faults carry.

fn stop() -> Stop {
    Stop {
        txid: Txid::new(7).unwrap(),
        cause: StopCause::Refused(EditFault::Exists),
    }
}

fn message() -> Message {
    Message {
        dn: 1,
        number: 7,
        block: BlockId::new(1_073_741_825).unwrap(),
        stamp: GenerationStamp::new(1001).unwrap(),
        len: Length::new(5).unwrap(),
        kind: Kind::Received,
    }
}
