//! Worked rows on runs that are simulated at once, on the chip, on simulators and the encoding, on waveforms
//! that are read, on clauses, logs and their checker, and on the solver, each with ample memory: tests alone.
#![tactic(auto)]

#[cfg(test)]
mod arena_rows;
#[cfg(test)]
mod bank_rows;
#[cfg(test)]
mod clause_rows;
#[cfg(test)]
mod encode_rows;
#[cfg(test)]
mod listed;
#[cfg(test)]
mod literals;
#[cfg(test)]
mod log_rows;
#[cfg(test)]
mod moment_rows;
#[cfg(test)]
mod netlists;
#[cfg(test)]
mod recorded;
#[cfg(test)]
mod rup_rows;
#[cfg(test)]
mod solve_rows;
#[cfg(test)]
mod step_rows;
#[cfg(test)]
mod stim_rows;
#[cfg(test)]
mod watch_rows;
#[cfg(test)]
mod wave_rows;
#[cfg(test)]
mod width_rows;
