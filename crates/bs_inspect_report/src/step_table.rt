//! The steps of a report as a table for scripts.
ghost use Rattle.std.specs.Prelude.{◌≡◌, ◌<◌, ◌+◌, ◌^◌, ◌++◌, length, IfOk, OnOk};
ghost use Rattle.std.specs.List.{flat_map, range_with_len};
ghost use Rattle.bs_inspect_report.specs.Table.{end_cells, list_cells, moment_cells, step_row, step_row_at, step_rows, steps_table as steps_table_of};

use crate::lemmas::lemmas_logged;
use crate::steps::{differing, number_at, push_end};
use bs_bits::{NoMemory, end_line, push_line, push_number, push_piece};
use bs_report::{HitLine, Report, Step};
use std::alloc::Global;

/// Appends the run and the cycle of a hit, or nothing between the commas.
fn push_moment_cells(text: &mut Vec<u8>, hit: &Option<HitLine>) -> Result<(), NoMemory>
    ensures { OnOk result (text.new.items ≡ text.old.items ++ moment_cells hit.now) }
{
    match hit {
        Some(hit) => {
            push_piece(text, b",")?;
            push_number(text, u64::from(hit.run))?;
            push_piece(text, b",")?;
            push_number(text, u64::from(hit.cycle))
        }
        None => push_piece(text, b",,"),
    }
}

/// Appends how many candidates a step lists, and how many flip-flops differ among them.
#[tactic(auto, unfolding(crate::specs::Table::list_cells))]
fn push_list_cells(text: &mut Vec<u8>, number: u64, cands: u64, differ: u64) -> Result<(), NoMemory>
    ensures { OnOk result (text.new.items ≡ text.old.items ++ list_cells number cands differ) }
{
    push_number(text, number)?;
    push_piece(text, b",")?;
    push_number(text, cands)?;
    push_piece(text, b",")?;
    push_number(text, differ)
}

/// Appends how a list ended, how many lemmas it logged, and its hit.
#[tactic(auto, unfolding(crate::specs::Table::end_cells))]
fn push_end_cells(text: &mut Vec<u8>, lemmas: u64, step: &Step) -> Result<(), NoMemory>
    ensures { OnOk result (text.new.items ≡ text.old.items ++ end_cells lemmas step.now) }
{
    push_piece(text, b",")?;
    push_end(text, step.end)?;
    push_piece(text, b",")?;
    push_number(text, lemmas)?;
    push_moment_cells(text, &step.hit)
}

/// Appends the row of a step.
fn push_step_row(text: &mut Vec<u8>, number: u64, lemmas: u64, step: &Step) -> Result<(), NoMemory>
    ensures { OnOk result (text.new.items ≡ text.old.items ++ step_row number lemmas step.now) }
{
    let cands = step.cands.slice();
    push_list_cells(text, number, cands.len() as u64, differing(cands) as u64)?;
    push_end_cells(text, lemmas, step)?;
    end_line(text)
}

/// Appends the row of the step at a place.
#[tactic(auto, using(crate::proofs::TableLemmas::row_there))]
fn push_row_at(
    text: &mut Vec<u8>,
    report: &Report,
    lemmas: &[u64],
    i: usize,
) -> Result<(), NoMemory>
    requires there { i < length report.now.steps }
    requires small { i + 1 < 2 ^ 64 }
    ensures { OnOk result (text.new.items ≡ text.old.items ++ step_row_at report.now lemmas.now i) }
{
    push_step_row(
        text,
        i as u64 + 1,
        number_at(lemmas, i),
        report.steps.get(i),
    )
}

/// Appends the rows of the steps.
#[tactic(auto, using(bs_bits::proofs::RangeLemmas::places_step))]
fn push_step_rows(text: &mut Vec<u8>, report: &Report, lemmas: &[u64]) -> Result<(), NoMemory>
    ensures { OnOk result (text.new.items ≡ text.old.items ++ flat_map (step_row_at report.now lemmas.now) (range_with_len 0 (length report.now.steps))) }
{
    'steps: for i in 0..report.steps.len() {
        push_row_at(text, report, lemmas, i)?;
    }
    Ok(())
}

/// The table of the steps, with the lemmas that each logged.
fn table_of(alloc: Global, report: &Report, lemmas: &[u64]) -> Result<Vec<u8>, NoMemory>
    ensures { IfOk result (λ text. text.items ≡ step_rows report.now lemmas.now) }
{
    let mut text = Vec::new(alloc);
    push_line(&mut text, b"step,candidates,differ,list,lemmas,run,cycle")?;
    push_step_rows(&mut text, report, lemmas)?;
    Ok(text)
}

/// The steps of a report as a table of comma-separated values: a row for each, with what `steps_text` tells of it.
pub fn steps_table(alloc: Global, report: &Report) -> Result<Vec<u8>, NoMemory>
    ensures { IfOk result (λ text. text.items ≡ steps_table_of report.now) }
{
    let lemmas = lemmas_logged(alloc, report.log.slice())?;
    let text = table_of(alloc, report, lemmas.as_slice())?;
    Ok(text)
}
