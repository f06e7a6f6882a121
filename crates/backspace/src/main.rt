//! The command line tool `backspace`. Its answer is all that standard output gets, and a note for a person follows on standard error.
#![tactic(auto)]

use bs_call::run_program;
use bs_outside::{FileShelf, StdSink};
use bs_top::Backspace;
use std::alloc::Global;
use std::env;
use std::io::ErrorKind;
use std::process::ExitCode;

/// The words without the program's name, or the kind of the fault that hides them.
fn given_words(rt: &HostRuntime, alloc: Global) -> Result<Vec<String>, ErrorKind> {
    let args = match env::args(rt) {
        Ok(args) => args,
        Err(error) => return Err(error.kind()),
    };
    match args.skip(1).collect(alloc) {
        Ok(words) => Ok(words),
        Err(_) => Err(ErrorKind::OutOfMemory),
    }
}

fn main(rt: HostRuntime) -> ExitCode {
    let alloc = rt.alloc();
    let error = rt.stderr();
    ExitCode::from(run_program(
        &Backspace,
        alloc,
        given_words(&rt, alloc),
        &mut FileShelf::new(&rt),
        &mut StdSink::new(&rt),
        &mut StdSink::new(&error),
    ))
}
