//! An execution that a search for a state found.
ghost use Rattle.std.specs.Prelude.{◌≡◌, ◌<◌, ◌+◌, ◌^◌, ◌++◌, length, OnOk};
ghost use Rattle.bs_inspect_report.specs.Execution.{is_execution, place_word};

use bs_bits::{NoMemory, push_piece};
use bs_report::Report;

/// Whether a report's trace is an execution from reset that a search for a state found. Such a report asks for no step, has none, and
/// its log is empty; that of a backtrace asks for at least one.
pub fn is_execution(report: &Report) -> bool
    ensures { result ≡ is_execution report.now }
{
    report.budgets.steps == 0
}

/// Appends where a state of an execution stands.
pub(crate) fn push_place_word(text: &mut Vec<u8>, report: &Report, i: usize) -> Result<(), NoMemory>
    requires there { i < length report.now.states }
    requires small { i + 1 < 2 ^ 64 }
    ensures { OnOk result (text.new.items ≡ text.old.items ++ place_word report.now i) }
{
    if i + 1 == report.states.len() {
        return push_piece(text, b"asked");
    }
    if i == 0 {
        return push_piece(text, b"reset");
    }
    push_piece(text, b"passed")
}
