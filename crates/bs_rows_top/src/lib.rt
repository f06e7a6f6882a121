//! Worked rows of the program's call that no run of the program shows, and on what is read and written, each
//! with ample memory; and a law that holds limits to their numbers, where no row comes to them. All other
//! rows are whole runs (tools/rows/).
#![tactic(auto)]

#[cfg(test)]
mod bits_rows;
#[cfg(test)]
mod calls;
#[cfg(test)]
mod demo_rows;
#[cfg(test)]
mod fault_rows;
#[cfg(test)]
mod gen_rows;
mod limits;
#[cfg(test)]
mod outside_rows;
#[cfg(test)]
mod stream_rows;
#[cfg(test)]
mod vcd_rows;
#[cfg(test)]
mod words_rows;

pub use limits::limits_are;
