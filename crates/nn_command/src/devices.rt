//! The program on the devices of its process.
use crate::program;
use crate::program::{ArgumentsFault, serve};
use nn_device::{Reader, Writer};
use nn_run::Open;
use std::alloc::Global;
use std::env::FillError;
use std::process::ExitCode;
use std::rt::Env;
use std::sync::{Arc, Wait};
use std::thread::Threads;
use std::{env, io};

/// Does what the arguments of the process ask for, and answers the status that it is to end with.
///
/// It runs on the caller's thread. A runtime lends its threads only where a program begins, so `main` hands it over twice,
/// the second time for the threads of a run with `--threads`.
pub fn start<T: Threads + Wait + Sync>(rt: &HostRuntime, threads: &T) -> ExitCode {
    ExitCode::from(on_devices(rt, threads))
}

fn on_devices<T: Threads + Wait + Sync>(rt: &HostRuntime, threads: &T) -> u8 {
    let arguments = arguments(rt);
    let arguments = match &arguments {
        Ok(arguments) => Ok(arguments.as_slice()),
        Err(why) => Err(*why),
    };
    let mut input = Reader::new(rt.reader());
    let mut output = Writer::new(io::writer(rt));
    let mut errors = Writer::new(rt.stderr());
    let Ok(gate) = Arc::new(rt.alloc(), Open) else {
        return program::out_of_memory(&mut output);
    };
    serve(
        threads,
        rt.alloc(),
        arguments,
        &mut input,
        &mut output,
        &mut errors,
        gate,
    )
}

// The arguments of the process, its name first.
fn arguments(rt: &HostRuntime) -> Result<Vec<String>, ArgumentsFault> {
    let arguments = match env::args(&LooselyNamed { rt }) {
        Ok(arguments) => arguments,
        Err(error) if error.kind() == io::ErrorKind::InvalidData => return Err(
            ArgumentsFault::NotText,
        ),
        Err(_) => return Err(ArgumentsFault::OutOfMemory),
    };
    let Ok(arguments) = arguments.collect(rt.alloc()) else {
        return Err(ArgumentsFault::OutOfMemory);
    };
    Ok(arguments)
}

// The process's arguments, of which the program's own name is read loosely: a program may lie where a path is no UTF-8.
#[derive(Drop)]
struct LooselyNamed<'a> {
    rt: &'a HostRuntime,
}

impl Alloc for LooselyNamed<'_> {
    type A = Global;

    fn alloc(&self) -> Global {
        self.rt.alloc()
    }
}

impl Env for LooselyNamed<'_> {
    fn arg(&self, i: usize, buf: &mut [u8]) -> Result<usize, FillError> {
        let len = self.rt.arg(i, buf)?;
        if i == 0 {
            make_text(&mut buf[..len]);
        }
        Ok(len)
    }

    fn var(&self, name: &str, buf: &mut [u8]) -> Result<usize, FillError> {
        self.rt.var(name, buf)
    }

    fn var_at(&self, i: usize, buf: &mut [u8]) -> Result<usize, FillError> {
        self.rt.var_at(i, buf)
    }
}

// Puts a question mark in the place of each byte that is no ASCII, where the bytes are no UTF-8.
fn make_text(bytes: &mut [u8]) {
    if str::from_utf8(bytes).is_ok() {
        return;
    }
    for byte in bytes.iter_mut() {
        if *byte > 127 {
            *byte = b'?';
        }
    }
}
