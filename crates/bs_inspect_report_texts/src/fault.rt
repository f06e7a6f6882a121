//! Why there is no test bench.
ghost use Rattle.std.specs.Prelude.{◌≡◌, ◌++◌, IfOk, OnOk};
ghost use Rattle.bs_inspect_report_texts.specs.Faults.{bench_fault_text, bench_fault_words};

use bs_bits::{NoMemory, end_line, push_number, push_piece};
use std::alloc::Global;

/// Why there is no test bench.
#[derive(Clone, Copy)]
pub enum BenchFault {
    /// The runs do not have the moment at which the trace begins.
    Moment,
    /// The netlist is not in this state of the trace at its cycle. States count from 0.
    State(usize),
}

/// A test bench, or why there is none.
#[derive(Drop)]
pub enum Bench {
    Text(Vec<u8>),
    Refused(BenchFault),
}

/// Appends the words of a fault.
fn push_words(text: &mut Vec<u8>, fault: BenchFault) -> Result<(), NoMemory>
    ensures { OnOk result (text.new.items ≡ text.old.items ++ bench_fault_words fault) }
{
    match fault {
        BenchFault::Moment => push_piece(text, b"moment"),
        BenchFault::State(place) => {
            push_piece(text, b"state ")?;
            push_number(text, place as u64)
        }
    }
}

/// The line of a fault.
pub fn bench_fault_text(alloc: Global, fault: BenchFault) -> Result<Vec<u8>, NoMemory>
    ensures { IfOk result (λ text. text.items ≡ bench_fault_text fault) }
{
    let mut text = Vec::new(alloc);
    push_piece(&mut text, b"rejected ")?;
    push_words(&mut text, fault)?;
    end_line(&mut text)?;
    Ok(text)
}
