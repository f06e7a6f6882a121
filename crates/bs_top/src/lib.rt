//! The program `backspace`: the words of a command line, the files that they name, and what is written for them.
//!
//! Modules: `top` (`Backspace`, the program), `names` (of a job's files), and a module a command:
//! `run_command`, `audit_command`, `dump_command`, `wave_command`, `reach_command`, `demo_command` with `generated` and
//! `summary`; `budgets`, `design` (what a netlist of several modules means), `law` (`audit` accepts
//! what `run` writes). Used above: `backspace_means` (`specs/Program`), over `plan_of` (`specs/Work`),
//! `finishes` (`specs/Finishes`) and `WordsSaid` (`specs/Said`); the clauses of the call stand in bs_call.
//! A command: an arm in each of these and in `prepare`, and a module with its walk and its answer; no
//! clause of the call changes. docs/HOW_TO_READ.md reads this contract.
#![tactic(auto)]

mod audit_command;
mod budgets;
mod demo_command;
mod design;
mod dump_command;
mod generated;
mod law;
mod names;
mod reach_command;
mod run_command;
mod summary;
mod top;
mod wave_command;

pub use bs_outside::Status;
pub use law::{
    audit_accepts_what_run_writes, audit_follows_run, netlists_mean_designs, waveforms_read_back,
};
pub use top::Backspace;
