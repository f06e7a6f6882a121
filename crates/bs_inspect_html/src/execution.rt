//! What is said of an execution that a search for a state found.
ghost use Rattle.std.specs.Prelude.{◌≡◌, ◌++◌, OnOk};
ghost use Rattle.bs_inspect_html.specs.Execution.{cycles_title, evidence_words, search_part, search_words};

use crate::numbers::push_between;
use crate::paths::{push_path, push_path_before};
use bs_bits::{NoMemory, push_number, push_piece};
use bs_report::{Budgets, Report};

/// Appends the title.
pub(crate) fn push_cycles_title(text: &mut Vec<u8>, report: &Report) -> Result<(), NoMemory>
    ensures { OnOk result (text.new.items ≡ text.old.items ++ cycles_title report.now) }
{
    push_piece(text, b"Cycles from reset: ")?;
    push_number(text, report.inputs.len() as u64)
}

/// Appends the budget of the search, and how the answer is checked.
fn push_search_words(text: &mut Vec<u8>, budgets: Budgets, netlist: &str) -> Result<(), NoMemory>
    ensures { OnOk result (text.new.items ≡ text.old.items ++ search_words budgets netlist.now) }
{
    push_between(
        text,
        b"<li>asked for: ",
        budgets.conflicts,
        b" lemmas a search</li></ul>\n<p class='d'>This page shows what the answer says. The answer is right if the first command writes the same one, with the job's own files. The others write clauses and their refutation, by which other checkers see that no shorter execution ends in the state:</p>\n<pre>backspace reach ",
    )?;
    push_path(text, netlist)?;
    push_between(
        text,
        b" STATE CYCLES --conflicts ",
        budgets.conflicts,
        b"\n",
    )
}

/// Appends the words of a command that writes evidence.
#[tactic(auto, unfolding(crate::specs::Execution::evidence_words))]
fn push_evidence(
    text: &mut Vec<u8>,
    command: &[u8],
    netlist: &str,
    answer: &str,
) -> Result<(), NoMemory>
    ensures { OnOk result (text.new.items ≡ text.old.items ++ evidence_words command.now netlist.now answer.now) }
{
    push_piece(text, command)?;
    push_path_before(text, netlist, b" STATE ")?;
    push_path_before(text, answer, b"\n")
}

/// Appends what was asked for, and how the answer is checked.
pub(crate) fn push_search(
    text: &mut Vec<u8>,
    budgets: Budgets,
    netlist: &str,
    answer: &str,
) -> Result<(), NoMemory>
    ensures { OnOk result (text.new.items ≡ text.old.items ++ search_part budgets netlist.now answer.now) }
{
    push_search_words(text, budgets, netlist)?;
    push_evidence(text, b"backspace_inspect reach-cnf ", netlist, answer)?;
    push_evidence(text, b"backspace_inspect reach-lrat ", netlist, answer)?;
    push_piece(text, b"</pre>\n")
}
