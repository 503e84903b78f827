//! What a run comes to, and how it is written.
ghost use Rattle.std.specs.Prelude.{◌≡◌, IfOk, IfErr};
ghost use Rattle.nn_device.specs.Device.{Took};
ghost use Rattle.nn_run.specs.Run.{Unfinished, unread};
ghost use Rattle.nn_run.specs.Shown.{EndsWith, Finished, FinishedPrefix, printed_of, shown};
ghost use Rattle.nn_input.specs.declared.fault.InputFault.TheVariants.{OutOfMemory};

use crate::engine::Options;
use crate::failure::{RunFailure, unread_line};
use crate::ready::Ready;
use nn_device::{Page, Writer};
use nn_input::InputFault;
use nn_shadow::Shadow;
use std::alloc::{AllocError, Global};
use std::io::Write;
use std::mem;
use thiserror::Error;

/// What a run comes to.
#[derive(Drop)]
pub(crate) enum Output {
    /// A standby that has flushed, of which a listing is printed.
    Flushed(Shadow),
    Fault(RunFailure),
}

/// Why not all of an output was written: a write failed. The writer has the output's first `written` bytes.
#[derive(Clone, Copy, Debug, PartialEq, Eq, Error)]
#[error("a write failed after {written} bytes")]
pub struct RunFault {
    pub written: u64,
}

/// How a run ended: with status 0 after a listing, with status 1 after a fault line.
#[derive(Clone, Copy, Debug, PartialEq, Eq)]
pub struct RunEnd {
    pub status: u8,
    /// What the fault line tells. `RunFailure::put_error` puts it in words.
    pub fault: Option<RunFailure>,
}

/// Writes an output, or the line that memory ran out, and answers the status that goes with it. The standby is freed, or left
/// to the end of the process.
pub(crate) fn finish_output<W: Write>(
    alloc: Global,
    options: &Options,
    output: Output,
    writer: &mut Writer<W>,
) -> Result<RunEnd, RunFault>
    ensures written { IfOk result (λ end. Finished (shown options.now output) writer.old writer.new end) }
    ensures prefix { IfErr result (FinishedPrefix (shown options.now output) writer.old writer.new) }
{
    let finished = finish_lent(alloc, options, &output, writer);
    if options.leave_memory {
        mem::forget(output);
    } else {
        drop(output);
    }
    finished
}

fn finish_lent<W: Write>(
    alloc: Global,
    options: &Options,
    output: &Output,
    writer: &mut Writer<W>,
) -> Result<RunEnd, RunFault>
    ensures written { IfOk result (λ end. Finished (shown options.now output.now) writer.old writer.new end) }
    ensures prefix { IfErr result (FinishedPrefix (shown options.now output.now) writer.old writer.new) }
{
    match Ready::of(alloc, options, output) {
        Ok(ready) => write_ready(alloc, ready, writer),
        Err(AllocError) => no_memory(writer),
    }
}

/// Writes the line of a run for which memory was refused.
pub(crate) fn no_memory<W: Write>(writer: &mut Writer<W>) -> Result<RunEnd, RunFault>
    ensures ok { IfOk result (λ end. Took writer.old writer.new (unread OutOfMemory).text × EndsWith (unread OutOfMemory) end) }
    ensures prefix { IfErr result (Unfinished writer.old writer.new (unread OutOfMemory).text) }
{
    finish_unread(writer, InputFault::OutOfMemory)
}

// Writes an output that is ready.
fn write_ready<W: Write>(
    alloc: Global,
    ready: Ready<'_>,
    writer: &mut Writer<W>,
) -> Result<RunEnd, RunFault>
    ensures ok { IfOk result (λ end. Took writer.old writer.new (printed_of ready.entry).text × EndsWith (printed_of ready.entry) end) }
    ensures prefix { IfErr result (Unfinished writer.old writer.new (printed_of ready.entry).text) }
{
    let before = writer.taken();
    let run_end = ready.end();
    let mut page = Page::new(alloc);
    ready.put(&mut page, writer);
    match page.end(writer) {
        Ok(()) => Ok(run_end),
        Err(_) => {
            let written = writer.taken() - before;
            Err(RunFault { written })
        }
    }
}

/// Writes the line of an input that was not read. It takes no memory.
pub(crate) fn finish_unread<W: Write>(
    writer: &mut Writer<W>,
    fault: InputFault,
) -> Result<RunEnd, RunFault>
    ensures ok { IfOk result (λ end. Took writer.old writer.new (unread fault).text × EndsWith (unread fault) end) }
    ensures prefix { IfErr result (Unfinished writer.old writer.new (unread fault).text) }
{
    match writer.write_all(unread_line(fault)) {
        Ok(()) => Ok(RunEnd {
            status: 1,
            fault: Some(RunFailure::Unread(fault)),
        }),
        Err(failed) => Err(RunFault {
            written: failed.written as u64,
        }),
    }
}
