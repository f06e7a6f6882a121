//! Texts out of a report: a test bench in Verilog, which drives a design's inputs along the trace from reset,
//! and what all candidates of each list share, and where they differ; and whether a report fits a netlist.
//!
//! Of the bench: `begin` (the moment at which the trace begins), `drive` (what is driven), `way` (whether the
//! netlist goes through the trace under that), `port` and `head` (names, variables, the design), `cycle`
//! (assignments and edges), `fault` (why there is no bench), `bench` (`bench_of`), `law` (which reports have
//! one). Used above: `BenchAnswers` (`specs/Bench`). What is driven: `specs/Driven`; a line: `specs/Text`.
//!
//! Of the lists: `lists`. Used above: `lists_text`, whose text is that of `TellsLists` (`specs/Lists`). A
//! line: its definition and the function of the same name.
//!
//! Of a netlist and a report: `fits` (`fit_fault`: whether the report fits), `misfit` (`FitFault`: why it does not), `leading` (where its
//! trace leads on), `listed` (whether its first list leads to its state). Used above: `fit_fault` (`specs/Fits`).
#![tactic(auto)]

mod begin;
mod bench;
mod cycle;
mod drive;
mod fault;
mod fits;
mod head;
mod law;
mod leading;
mod listed;
mod lists;
mod misfit;
mod port;
mod way;

pub use bench::bench_of;
pub use fault::{Bench, BenchFault, bench_fault_text};
pub use fits::fit_fault;
pub use law::good_reports_have_benches;
pub use lists::lists_text;
pub use misfit::FitFault;
