//! The command line tool `backspace_inspect`, which tells about the files of `backspace`. Its answer is all
//! that standard output gets, and a note for a person follows on standard error.
//!
//! Modules: `telling` (how words stand, and the version), `asking` (the answer to each request), `top`
//! (`Inspect`, the program). Used above: `inspect_means` (`specs/Program`), over `plan_of`, `finishes` and
//! `WordsSaid` (bs_inspect_plans); the clauses of the call stand in bs_call. A command: a request
//! (bs_inspect_words), an arm in each definition of bs_inspect_plans, its answer in
//! bs_inspect_report_requests or bs_inspect_netlist_requests, an arm in `request_answer`, and a line of
//! `usages` (bs_inspect_usages).
#![tactic(auto)]

mod asking;
mod telling;
mod top;

use crate::top::Inspect;
use bs_call::run_program;
use bs_outside::{FileShelf, StdSink};
use std::alloc::Global;
use std::env;
use std::io::ErrorKind;
use std::process::ExitCode;

/// The words without the program's name, or the kind of the fault that hides them.
fn given_words(rt: &HostRuntime, alloc: Global) -> Result<Vec<String>, ErrorKind> {
    let args = match env::args(rt) {
        Ok(args) => args,
        Err(error) => return Err(error.kind()),
    };
    match args.skip(1).collect(alloc) {
        Ok(words) => Ok(words),
        Err(_) => Err(ErrorKind::OutOfMemory),
    }
}

fn main(rt: HostRuntime) -> ExitCode {
    let alloc = rt.alloc();
    let error = rt.stderr();
    ExitCode::from(run_program(
        &Inspect,
        alloc,
        given_words(&rt, alloc),
        &mut FileShelf::new(&rt),
        &mut StdSink::new(&rt),
        &mut StdSink::new(&error),
    ))
}
