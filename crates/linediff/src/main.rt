//! linediff: line current differential relay terminals, and a bench that runs them.
#![tactic(auto)]

use bench_cmd::{ReadSource, Status, WriteSink, run, words_of};
use std::io::Write;
use std::process::ExitCode;
use std::{env, io};

fn main(rt: HostRuntime) -> ExitCode {
    let status = match words_of(rt.alloc(), env::args(&rt)) {
        Ok(words) => run_and_flush(&rt, &words),
        Err(status) => status,
    };
    if let Some(line) = status.complaint() {
        // Nobody is left to tell where standard error is closed.
        let _ = rt.eprintln(line);
    }
    ExitCode::from(status.code())
}

fn run_and_flush<R: Input + Print + AllocGlobal>(rt: &R, words: &[Vec<u8>]) -> Status {
    let mut source = ReadSource::new(rt.reader());
    let mut sink = WriteSink::new(io::writer(rt));
    let status = run(rt.alloc(), words, &mut source, &mut sink);
    status.after_flush(sink.into_inner().flush().is_ok())
}
