//! The converter: words and standard input in, standard output out.
#![tactic(auto)]

use pix_io::{ReadSource, WriteSink};
use std::process::ExitCode;
use std::rt::Env;
use std::{env, io};
use sws_run::{OpenGate, run_sws};

// How the program ends where the system does not give its words: for want of memory, or for another
// cause.
const NO_MEMORY: u8 = 7;

const NO_WORDS: u8 = 10;

// The words after the program's name.
fn words<R: Env + Alloc<A = std::alloc::Global>>(rt: &R) -> io::Result<Vec<String>> {
    let mut words = Vec::new(rt.alloc());
    for word in env::args(rt)?.skip(1) {
        words.push(word)?;
    }
    Ok(words)
}

fn main(rt: HostRuntime) -> ExitCode {
    let words = match words(&rt) {
        Ok(words) => words,
        Err(e) if e.kind() == io::ErrorKind::OutOfMemory => return ExitCode::from(NO_MEMORY),
        Err(_) => return ExitCode::from(NO_WORDS),
    };
    let mut input = ReadSource::new(rt.stdin());
    let mut output = WriteSink::new(rt.stdout());
    let mut notes = WriteSink::new(rt.stderr());
    let ended = run_sws(
        &rt,
        rt.alloc(),
        &words,
        &mut input,
        &mut output,
        &mut notes,
        &OpenGate,
    );
    ExitCode::from(ended.status())
}
