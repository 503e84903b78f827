//! Plays what standard input names: worked scenarios, scripts of calls, and calls under a full heap.
//!
//! Standard input has a name a line, and the files lie where this runs. NAME.calls is a script of calls and NAME.heap the
//! scenario of the calls under a full heap; any other name is that of a worked scenario. The scenarios are played first,
//! then the scripts, and the calls under a full heap last. An argument plays only one kind: `scenarios`, `calls`, `heap`;
//! or `ample`, which is `heap` with the heap left as it is.
//!
//! Where memory does not suffice to play them, `fault 55` is all that is printed, and the status is 1.
#![tactic(auto)]

mod calls;
mod full_heap;
mod scenarios;
mod shown;
mod tally;

use std::io::Write;
use std::process::ExitCode;
use std::sync::Wait;
use std::thread::Threads;
use std::{env, io};

// What is played.
#[derive(Clone, Copy, PartialEq, Eq)]
enum Mode {
    All,
    Scenarios,
    Calls,
    Heap,
    Ample,
}

fn main(rt: HostRuntime) -> ExitCode {
    match play(&rt, &rt) {
        Ok(()) => ExitCode::from(0),
        Err(error) => {
            tell(&rt, &error);
            ExitCode::from(1)
        }
    }
}

// A fault goes to standard output, as the program's do, and any other error to standard error.
fn tell(rt: &HostRuntime, error: &io::Error) {
    if error.kind() == io::ErrorKind::OutOfMemory {
        let _ = io::writer(rt).write_all(b"fault 55\n");
    } else {
        let _ = eprintln!(rt; "{error}");
    }
}

// A runtime lends its threads only where a program begins, so it is handed over twice.
fn play<T: Threads + Wait + Sync>(rt: &HostRuntime, threads: &T) -> io::Result<()> {
    let mode = mode_of(rt)?;
    let names = names_of(rt)?;
    if mode == Mode::All || mode == Mode::Scenarios {
        scenarios::play(rt, threads, &names)?;
    }
    if mode == Mode::All || mode == Mode::Calls {
        calls::play(rt, &names)?;
    }
    if mode == Mode::All || mode == Mode::Heap || mode == Mode::Ample {
        full_heap::play(rt, &names, mode == Mode::Ample)?;
    }
    Ok(())
}

fn mode_of(rt: &HostRuntime) -> io::Result<Mode> {
    let mut arguments = env::args(rt)?;
    let _program = arguments.next();
    let Some(word) = arguments.next() else {
        return Ok(Mode::All);
    };
    match word.as_str() {
        "scenarios" => Ok(Mode::Scenarios),
        "calls" => Ok(Mode::Calls),
        "heap" => Ok(Mode::Heap),
        "ample" => Ok(Mode::Ample),
        _ => Err(io::Error::from(io::ErrorKind::InvalidInput)),
    }
}

// The names on standard input.
fn names_of(rt: &HostRuntime) -> io::Result<Vec<String>> {
    let mut names = Vec::new(rt.alloc());
    for name in rt.lines(rt.alloc()) {
        names.push(name?)?;
    }
    Ok(names)
}
