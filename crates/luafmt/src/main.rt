//! A formatter and renaming minifier for Lua 5.4. It has four commands, `format`, `minify`, `check` and `list`, which read
//! files or standard input and write to standard output. `format` also compares and replaces files.
#![tactic(auto)]

mod answer;
mod config;
mod disk;
mod job;
mod line;
mod run;
mod status;
mod streams;
mod turn;

use disk::DiskFiles;
use status::Status;
use std::alloc::AllocError;
use std::env;
use std::io::ErrorKind;
use std::process::ExitCode;
use streams::{StreamSink, StreamSource};

fn main(rt: HostRuntime) -> ExitCode {
    let status = match words(&rt) {
        Ok(words) => run::run(
            rt.alloc(),
            &words,
            &mut DiskFiles::new(&rt),
            &mut StreamSource::new(rt.stdin()),
            &mut StreamSink::new(rt.stdout()),
            &mut StreamSink::new(rt.stderr()),
        ),
        Err(_) => Status::NoMemory,
    };
    ExitCode::from(status.code())
}

// The words after the program's name. Where one is not UTF-8 there are none, which is no command.
fn words(rt: &HostRuntime) -> Result<Vec<String>, AllocError> {
    match env::args(rt) {
        Ok(args) => args.skip(1).collect(rt.alloc()),
        Err(e) if e.kind() == ErrorKind::OutOfMemory => Err(AllocError),
        Err(_) => Ok(Vec::new(rt.alloc())),
    }
}

#[cfg(test)]
mod tests;
