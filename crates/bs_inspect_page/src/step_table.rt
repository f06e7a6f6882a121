//! The table of the steps.
ghost use Rattle.std.specs.Prelude.{◌≡◌, ◌<◌, ◌+◌, ◌^◌, ◌++◌, length, OnOk, option_map};
ghost use Rattle.bs_inspect_page.specs.Steps.{begin_cells, step_end, from_text, goes_on_text, step_list, step_at, step_text, steps_front, steps_rows, steps_part};

use crate::columns::push_moment;
use bs_bits::{NoMemory, push_number, push_piece};
use bs_inspect_html::push_between;
use bs_inspect_report::{differing, lemmas_logged, member, number_at, push_end};
use bs_report::{Report, Step};

/// Appends where a step goes on.
fn push_hit(text: &mut Vec<u8>, step: Option<&Step>) -> Result<(), NoMemory>
    ensures { OnOk result (text.new.items ≡ text.old.items ++ goes_on_text (option_map (λ s. s.now) step.entry)) }
{
    match step {
        Some(step) => push_moment(text, &step.hit),
        None => push_piece(text, b"none"),
    }
}

/// Appends where a step begins.
fn push_from(text: &mut Vec<u8>, report: &Report, i: usize) -> Result<(), NoMemory>
    ensures { OnOk result (text.new.items ≡ text.old.items ++ from_text report.now i) }
{
    if i == 0 {
        return push_piece(text, b"dump");
    }
    push_hit(text, member(&report.steps, i - 1))
}

/// Appends the number of a step, and where it begins.
fn push_begin(text: &mut Vec<u8>, report: &Report, i: usize) -> Result<(), NoMemory>
    requires { i + 1 < 2 ^ 64 }
    ensures { OnOk result (text.new.items ≡ text.old.items ++ begin_cells report.now i) }
{
    push_between(text, b"<tr><th scope='row'>", i as u64 + 1, b"</th><td>")?;
    push_from(text, report, i)
}

/// Appends how many candidates a step lists, and how many flip-flops differ among them.
fn push_list(text: &mut Vec<u8>, step: &Step) -> Result<(), NoMemory>
    ensures { OnOk result (text.new.items ≡ text.old.items ++ step_list step.now) }
{
    push_between(text, b"</td><td>", step.cands.len() as u64, b"</td><td>")?;
    push_number(text, differing(step.cands.slice()) as u64)
}

/// Appends how the list of a step ended, where the step goes on, and how many lemmas it logged.
fn push_ending(text: &mut Vec<u8>, lemmas: u64, step: &Step) -> Result<(), NoMemory>
    ensures { OnOk result (text.new.items ≡ text.old.items ++ step_end lemmas step.now) }
{
    push_piece(text, b"</td><td>")?;
    push_end(text, step.end)?;
    push_piece(text, b"</td><td>")?;
    push_moment(text, &step.hit)?;
    push_between(text, b"</td><td>", lemmas, b"</td></tr>\n")
}

/// Appends the row of a step.
fn push_step(
    text: &mut Vec<u8>,
    report: &Report,
    i: usize,
    lemmas: u64,
    step: &Step,
) -> Result<(), NoMemory>
    requires { i + 1 < 2 ^ 64 }
    ensures { OnOk result (text.new.items ≡ text.old.items ++ step_text report.now i lemmas step.now) }
{
    push_begin(text, report, i)?;
    push_list(text, step)?;
    push_ending(text, lemmas, step)
}

/// Appends the row of the step at a place.
#[tactic(auto, using(crate::proofs::StepLemmas::step_there))]
fn push_at(text: &mut Vec<u8>, report: &Report, lemmas: &[u64], i: usize) -> Result<(), NoMemory>
    requires there { i < length report.now.steps }
    requires small { i + 1 < 2 ^ 64 }
    ensures { OnOk result (text.new.items ≡ text.old.items ++ step_at report.now lemmas.now i) }
{
    push_step(text, report, i, number_at(lemmas, i), report.steps.get(i))
}

/// Appends the rows of the steps.
#[tactic(auto, using(bs_bits::proofs::RangeLemmas::places_step), unfolding(crate::specs::Steps::steps_rows))]
fn push_steps(text: &mut Vec<u8>, report: &Report, lemmas: &[u64]) -> Result<(), NoMemory>
    ensures { OnOk result (text.new.items ≡ text.old.items ++ steps_rows report.now lemmas.now) }
{
    'steps: for i in 0..report.steps.len() {
        push_at(text, report, lemmas, i)?;
    }
    Ok(())
}

/// Appends the head of the table.
fn push_steps_front(text: &mut Vec<u8>) -> Result<(), NoMemory>
    ensures { OnOk result (text.new.items ≡ text.old.items ++ steps_front) }
{
    push_piece(
        text,
        b"<h2 id='s'>Steps back</h2>\n<p class='d'>Each step lists the states that may stand before the one that it begins at, and goes on at the first recorded moment among them.</p>\n<div tabindex='0' role='region' aria-labelledby='s'><table class='t'><thead><tr><th scope='col'>step</th><th scope='col'>begins at</th><th scope='col'>candidates</th><th scope='col'>flip-flops that differ</th><th scope='col'>list</th><th scope='col'>goes on at run:cycle</th><th scope='col'>lemmas</th></tr></thead><tbody>\n",
    )
}

/// Appends the table of the steps.
pub(crate) fn push_step_table(text: &mut Vec<u8>, report: &Report) -> Result<(), NoMemory>
    ensures { OnOk result (text.new.items ≡ text.old.items ++ steps_part report.now) }
{
    let lemmas = lemmas_logged(*text.allocator(), report.log.slice())?;
    push_steps_front(text)?;
    push_steps(text, report, lemmas.as_slice())?;
    push_piece(text, b"</tbody></table></div>\n")?;
    Ok(())
}
