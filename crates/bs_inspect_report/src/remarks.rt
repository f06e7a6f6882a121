//! The states of a trace as comments of a waveform.
ghost use Rattle.std.specs.Prelude.{◌≡◌, ◌<◌, ◌+◌, ◌^◌, ◌++◌, length, IfOk, OnOk};
ghost use Rattle.bs_inspect_report.specs.Remarks.{origin_of, remark, remarks};

use crate::moment::push_origin;
use bs_bits::{NoMemory, push_line, push_number, push_piece};
use bs_report::Report;
use std::alloc::Global;

/// Appends the number of a state, and where it comes from.
fn push_origin_of(text: &mut Vec<u8>, report: &Report, i: usize) -> Result<(), NoMemory>
    requires there { i < length report.now.states }
    requires small { i + 1 < 2 ^ 64 }
    ensures { OnOk result (text.new.items ≡ text.old.items ++ origin_of report.now i) }
{
    push_number(text, i as u64)?;
    push_origin(text, report, i)
}

/// Appends the comment on a state.
fn push_remark(text: &mut Vec<u8>, report: &Report, i: usize) -> Result<(), NoMemory>
    requires there { i < length report.now.states }
    requires small { i + 1 < 2 ^ 64 }
    ensures { OnOk result (text.new.items ≡ text.old.items ++ remark report.now i) }
{
    push_piece(text, b"$comment ")?;
    push_origin_of(text, report, i)?;
    push_line(text, b" $end")?;
    Ok(())
}

/// The states of a report's trace, a line each, as comments that may stand in the head of its waveform: the number of the state and
/// where it comes from, in the words of the trace's text.
#[tactic(auto, using(bs_bits::proofs::RangeLemmas::places_more))]
pub fn remarks_text(alloc: Global, report: &Report) -> Result<Vec<u8>, NoMemory>
    ensures { IfOk result (λ text. text.items ≡ remarks report.now) }
{
    let mut text = Vec::new(alloc);
    'states: for i in 0..report.states.len() {
        push_remark(&mut text, report, i)?;
    }
    Ok(text)
}
