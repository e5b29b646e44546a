//! The program: standard input to standard output, and one line to standard error.
#![tactic(auto)]

use ax_base::{ReadSource, WriteSink};
use ax_cli::run_program;
use std::env::Env;
use std::io::ErrorKind;
use std::process::ExitCode;
use std::{env, io};

// The program's name and the words behind it, or why there is no list of them.
fn args<R: Env + AllocGlobal>(rt: &R) -> Result<Vec<String>, ErrorKind> {
    match env::args(rt) {
        Ok(args) => match args.collect(rt.alloc()) {
            Ok(args) => Ok(args),
            Err(_) => Err(ErrorKind::OutOfMemory),
        },
        Err(fault) => Err(fault.kind()),
    }
}

fn main(rt: HostRuntime) -> ExitCode {
    let stderr = rt.stderr();
    let mut input = ReadSource::new(rt.reader());
    let mut out = WriteSink::new(io::writer(&rt));
    let mut err = WriteSink::new(io::writer(&stderr));
    let code = run_program(rt.alloc(), args(&rt), &mut input, &mut out, &mut err);
    ExitCode::from(code)
}
