//! The columns of an execution that a search for a state found.
ghost use Rattle.std.specs.Prelude.{◌≡◌, ◌<◌, ◌+◌, ◌^◌, ◌++◌, length, OnOk};
ghost use Rattle.bs_inspect_page.specs.Execution.{cycle_column, cycle_front};

use bs_bits::{NoMemory, push_piece};
use bs_inspect_html::push_before;
use bs_report::Report;

/// Appends the front of the column of a state.
fn push_cycle_front(text: &mut Vec<u8>, report: &Report, i: usize) -> Result<(), NoMemory>
    requires there { i < length report.now.states }
    requires small { i + 1 < 2 ^ 64 }
    ensures { OnOk result (text.new.items ≡ text.old.items ++ cycle_front report.now i) }
{
    if i + 1 == report.states.len() {
        return push_piece(text, b"<th scope='col' class='x'>");
    }
    push_piece(text, b"<th scope='col'>")
}

/// Appends the column of a state.
#[tactic(auto, unfolding(crate::specs::Execution::cycle_column))]
pub(crate) fn push_cycle_column(
    text: &mut Vec<u8>,
    report: &Report,
    i: usize,
) -> Result<(), NoMemory>
    requires there { i < length report.now.states }
    requires small { i + 1 < 2 ^ 64 }
    ensures { OnOk result (text.new.items ≡ text.old.items ++ cycle_column report.now i) }
{
    push_cycle_front(text, report, i)?;
    push_before(text, i as u64, b"</th>")
}
