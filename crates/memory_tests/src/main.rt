//! Calls of the libraries, one per run: standard input names it. What a call prints is on standard output,
//! and how it ended is the status. Memory is taken only by the call and for the files that it finds, so that
//! `tests/program/growths.py` can refuse each allocation of a call in turn.
#![tactic(auto)]

mod calls;
mod files;
mod hashing;
mod lists;
mod runs;

use calls::{Lack, call};
use source::{Device, Feed, FixedSink, ReadFailed, Sink, write_all};
use std::process::ExitCode;

fn main(rt: HostRuntime) -> ExitCode {
    let mut room = [0; 1024];
    let mut err_room = [0; 256];
    let mut out = FixedSink::new(&mut room);
    let mut err = FixedSink::new(&mut err_room);
    let mut buffer = [0; 64];
    let answer = match name_in(&mut Device::new(rt.stdin()), &mut buffer) {
        Some(name) => call(rt.alloc(), name, &mut out, &mut err),
        None => Err(Lack::Other),
    };
    let _ = write_all(&mut Device::new(rt.stdout()), out.written());
    let _ = write_all(&mut Device::new(rt.stderr()), err.written());
    ExitCode::from(status_of(answer))
}

// The name of a call, which is all of the input.
fn name_in<'a, F: Feed>(input: &mut F, buffer: &'a mut [u8]) -> Option<&'a str> {
    match input.read(buffer) {
        Ok(count) => str::from_utf8(&buffer[..count]).ok(),
        Err(ReadFailed) => None,
    }
}

// A whole run of the program has a status of its own.
fn status_of(answer: Result<u8, Lack>) -> u8 {
    match answer {
        Ok(status) => status,
        Err(Lack::Memory) => 3,
        Err(Lack::Output) => 4,
        Err(Lack::Files) => 5,
        Err(Lack::Other) => 6,
    }
}
