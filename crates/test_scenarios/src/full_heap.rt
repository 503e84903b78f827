//! Makes each call that may run out of memory under a heap that is full, and gives memory back piece by piece until the
//! call succeeds.
//!
//! For each call it prints whether it was refused memory, and whether it then left everything as it was and succeeded
//! later. Where the heap is left as it is, a call that is refused is made again, three times at most, and its line says
//! `done`; if memory is still refused, that is the program's fault.
mod checkpoint;
mod engine;
mod heap;
mod held;
mod image;
mod lines;
mod live;
mod namespace;
mod restore;
mod scenario;
mod shadow;
mod table;
mod tailer;
mod trial;

use crate::full_heap::lines::Lines;
use crate::full_heap::scenario::{EndFault, Scenario};
use nn_types::Settings;
use std::alloc::Global;
use std::io::Write;
use std::{fs, io};

/// Plays those of these names that are scenarios of calls under a full heap. An ample heap is left as it is.
pub fn play(rt: &HostRuntime, names: &[String], is_ample: bool) -> io::Result<()> {
    for name in names {
        if name.ends_with(".heap") {
            let text = fs::read(rt, name.as_str())?;
            let lines = lines_of(rt.alloc(), is_ample, &text)?;
            io::writer(rt).write_all(lines.as_bytes())?;
        }
    }
    Ok(())
}

fn lines_of(alloc: Global, is_ample: bool, text: &[u8]) -> Result<Lines, EndFault> {
    let Some(settings) = Settings::new(999, 1) else {
        return Err(EndFault::BadScenario);
    };
    let scenario = Scenario::read(alloc, text)?;
    let mut lines = Lines::new(alloc, is_ample);
    make_calls(alloc, is_ample, settings, &scenario, &mut lines)?;
    tailer::follow_lanes(alloc, is_ample, settings, text, &mut lines)?;
    checkpoint::write_checkpoint(alloc, is_ample, settings, &scenario, &mut lines)?;
    engine::run_scenario(alloc, is_ample, settings, &mut lines)?;
    live::serve_lines(alloc, is_ample, settings, &mut lines)?;
    Ok(lines)
}

// Makes the calls of the parts of a standby, those of each line on values of their own.
fn make_calls(
    alloc: Global,
    is_ample: bool,
    settings: Settings,
    scenario: &Scenario,
    lines: &mut Lines,
) -> Result<(), EndFault> {
    namespace::apply_log(alloc, is_ample, scenario, lines)?;
    restore::restore_paths(alloc, is_ample, scenario, lines)?;
    table::change_table(alloc, is_ample, settings, lines)?;
    held::hold_messages(alloc, is_ample, lines)?;
    shadow::follow_log(alloc, is_ample, settings, scenario, lines)?;
    image::save_and_load(alloc, is_ample, scenario, lines)
}
