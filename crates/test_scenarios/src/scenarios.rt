//! Plays worked scenarios, and tells of each whether the program does with it what it should.
//!
//! With the arguments of NAME.args on NAME.in the program has to print NAME.out and to end with NAME.status; and once more
//! with a thread for each DataNode, and room for one report in its lane, unless a history is printed, whose order then is
//! the schedule's. Where NAME.args is missing there are no arguments, and where NAME.status is, it is 0. Standard error has
//! to begin with NAME.err; where that is missing, nothing may be written there.
use crate::tally::Tally;
use nn_command::serve;
use nn_device::{Reader, Writer};
use nn_run::Open;
use std::alloc::{AllocError, Global};
use std::sync::{Arc, Wait};
use std::thread::Threads;
use std::{fs, io};

/// Plays those of these names that are scenarios.
pub fn play<T: Threads + Wait + Sync>(
    rt: &HostRuntime,
    threads: &T,
    names: &[String],
) -> io::Result<()> {
    let mut tally = Tally::new();
    for name in names {
        if name.ends_with(".calls") || name.ends_with(".heap") {
            continue;
        }
        let agrees = agrees(rt, threads, name)?;
        tally.count(agrees);
        if !agrees {
            println!(rt; "{name} differs")?;
        }
    }
    tally.print(rt)
}

// What is owned is dropped by name, once: each exit that drops it costs the proof seconds.
fn agrees<T: Threads + Wait + Sync>(rt: &HostRuntime, threads: &T, name: &str) -> io::Result<bool> {
    let worked = Worked {
        arguments: file(rt, name, "args", "")?,
        input: file(rt, name, "in", "")?,
        output: file(rt, name, "out", "")?,
        errors: file(rt, name, "err", "")?,
        status: file(rt, name, "status", "0")?,
    };
    let agrees = plays_twice(threads, rt.alloc(), &worked);
    drop(worked);
    agrees
}

// What the files of a scenario hold.
#[derive(Drop)]
struct Worked {
    arguments: String,
    input: String,
    output: String,
    errors: String,
    status: String,
}

// Whether the program does what it should, and does it once more with threads. There a history has the order of its run,
// the capacity is given once, and a service has none.
fn plays_twice<T: Threads + Wait + Sync>(
    threads: &T,
    alloc: Global,
    worked: &Worked,
) -> io::Result<bool> {
    let arguments = worked.arguments.as_str();
    if !plays(threads, alloc, worked, arguments)? {
        return Ok(false);
    }
    if arguments.contains("--threads")
        || arguments.contains("--history")
        || arguments.contains("--capacity")
        || arguments.contains("--live")
    {
        return Ok(true);
    }
    let with_threads = format!(in alloc; "{arguments} --threads --capacity 1")?;
    plays(threads, alloc, worked, &with_threads)
}

// Whether the program does for these arguments what it should.
fn plays<T: Threads + Wait + Sync>(
    threads: &T,
    alloc: Global,
    worked: &Worked,
    arguments: &str,
) -> io::Result<bool> {
    let arguments = arguments_of(alloc, arguments)?;
    let ends_so = ends_so(threads, alloc, worked, arguments.as_slice());
    drop(arguments);
    Ok(ends_so?)
}

fn ends_so<T: Threads + Wait + Sync>(
    threads: &T,
    alloc: Global,
    worked: &Worked,
    arguments: &[String],
) -> Result<bool, AllocError> {
    let gate = Arc::new(alloc, Open)?;
    let mut output = Writer::new(Vec::new(alloc));
    let mut errors = Writer::new(Vec::new(alloc));
    let mut input = Reader::new(worked.input.as_bytes());
    let status = serve(
        threads,
        alloc,
        Ok(arguments),
        &mut input,
        &mut output,
        &mut errors,
        gate,
    );
    let is_told = is_told(worked, &output.into_inner(), &errors.into_inner());
    Ok(is_told && worked.status.trim().parse::<u8>() == Ok(status))
}

// Whether these are the output and the errors.
fn is_told(worked: &Worked, output: &[u8], errors: &[u8]) -> bool {
    output == worked.output.as_bytes()
        && errors.starts_with(worked.errors.as_bytes())
        && errors.is_empty() == worked.errors.is_empty()
}

// The program's name, and the arguments of a text, which are split at blanks.
fn arguments_of(alloc: Global, text: &str) -> Result<Vec<String>, AllocError> {
    let mut arguments = Vec::new(alloc);
    arguments.push(String::from_str(alloc, "nn_standby")?)?;
    for argument in text.split_whitespace() {
        arguments.push(String::from_str(alloc, argument)?)?;
    }
    Ok(arguments)
}

// The text of a file, or another text where there is no such file.
fn file(rt: &HostRuntime, name: &str, ending: &str, missing: &str) -> io::Result<String> {
    let path = format!(in rt.alloc(); "{name}.{ending}")?;
    match fs::read_to_string(rt, path.as_str()) {
        Ok(text) => Ok(text),
        Err(error) if error.kind() == io::ErrorKind::NotFound => {
            Ok(String::from_str(rt.alloc(), missing)?)
        }
        Err(error) => Err(error),
    }
}
