//! The last list, where no recorded run comes into a state of it.
ghost use Rattle.std.specs.Prelude.{◌≡◌, ◌<◌, ◌+◌, ◌-◌, ◌^◌, ◌++◌, length, map, take, All, IfOk, OnOk, option_map};
ghost use Rattle.std.specs.List.{flat_map, range_with_len};
ghost use Rattle.bs_inspect_view.specs.Signals.{signal_in};
ghost use Rattle.bs_inspect_page.specs.declared.last_list.TheConstants.{MAX_SHOWN};
ghost use Rattle.bs_inspect_page.specs.Last.{cand_cell, cand_cells, cand_column, cand_columns, cand_row, cand_rows, filled_text, list_front, list_text, shown_of, table_text, unmet_list, unmet_step, without_hit};
ghost use Rattle.bs_inspect_page.specs.Page.{ShowsAny, ShowsLast, ShowsList, asked_in};

use crate::columns::push_count;
use crate::listing::listed_flops;
use crate::options::PageOptions;
use bs_bits::{Bits, NoMemory, push_piece};
use bs_inspect_html::{push_between, push_name_cell};
use bs_inspect_report::{member, push_signal_value};
use bs_inspect_view::Signal;
use bs_net::Netlist;
use bs_report::{Cand, Report, Step};
use std::alloc::Global;

/// How many candidates are shown at most: as many columns as a sheet holds.
pub const MAX_SHOWN: usize = 16;

/// A step, if it has no hit.
fn without_hit(step: &Step) -> Option<&Step>
    ensures { option_map (λ s. s.now) result ≡ without_hit step.now.hit step.now }
{
    match &step.hit {
        Some(_hit) => None,
        None => Some(step),
    }
}

/// The same of a step that may be there.
fn unmet_step(step: Option<&Step>) -> Option<&Step>
    ensures { option_map (λ s. s.now) result ≡ unmet_step (option_map (λ s. s.now) step.entry) }
{
    match step {
        Some(step) => without_hit(step),
        None => None,
    }
}

/// The last step, if it has no hit.
fn unmet_list(report: &Report) -> Option<&Step>
    ensures { option_map (λ s. s.now) result ≡ unmet_list report.now }
{
    unmet_step(member(&report.steps, report.steps.len().saturating_sub(1)))
}

/// The candidates that are shown.
#[tactic(auto, using(std::proofs::lemmas::List::take_min))]
fn shown_of(step: &Step) -> &[Cand]
    ensures { result.now ≡ shown_of step.now }
{
    let cands = step.cands.slice();
    &cands[..MAX_SHOWN.min(cands.len())]
}

/// Appends the value of a signal in a candidate.
#[tactic(auto, unfolding(crate::specs::Last::cand_cell))]
fn push_cell(text: &mut Vec<u8>, places: &[u32], cand: &Cand) -> Result<(), NoMemory>
    requires { length places.now < 2 ^ 32 }
    ensures { OnOk result (text.new.items ≡ text.old.items ++ cand_cell places.now cand.now) }
{
    push_piece(text, b"<td>")?;
    push_signal_value(text, &cand.state, places)?;
    push_piece(text, b"</td>")
}

/// Appends the value of a signal in each of these candidates.
fn push_cells(text: &mut Vec<u8>, places: &[u32], cands: &[Cand]) -> Result<(), NoMemory>
    requires { length places.now < 2 ^ 32 }
    ensures { OnOk result (text.new.items ≡ text.old.items ++ cand_cells places.now cands.now) }
{
    'cands: for cand in cands {
        push_cell(text, places, cand)?;
    }
    Ok(())
}

/// Appends the row of a signal.
fn push_row(
    text: &mut Vec<u8>,
    signed: &Bits,
    cands: &[Cand],
    signal: &Signal<'_>,
) -> Result<(), NoMemory>
    requires { length signal.now.places < 2 ^ 32 }
    ensures { OnOk result (text.new.items ≡ text.old.items ++ cand_row signed.now cands.now (signal_in signal.now)) }
{
    push_name_cell(text, signed, signal)?;
    push_cells(text, signal.places.slice(), cands)?;
    push_piece(text, b"</tr>\n")?;
    Ok(())
}

/// Appends the rows of signals.
#[tactic(auto, using(crate::proofs::LastLemmas::rows_more))]
fn push_rows(
    text: &mut Vec<u8>,
    signed: &Bits,
    cands: &[Cand],
    signals: &[Signal<'_>],
) -> Result<(), NoMemory>
    requires { All (λ s. length s.places < 2 ^ 32) signals.now }
    ensures { OnOk result (text.new.items ≡ text.old.items ++ cand_rows signed.now cands.now (map signal_in signals.now)) }
{
    'signals: for signal in signals {
        push_row(text, signed, cands, signal)?;
    }
    Ok(())
}

/// Appends the column of a candidate.
#[tactic(auto, unfolding(crate::specs::Last::cand_column))]
fn push_column(text: &mut Vec<u8>, i: usize) -> Result<(), NoMemory>
    requires { i + 1 < 2 ^ 64 }
    ensures { OnOk result (text.new.items ≡ text.old.items ++ cand_column i) }
{
    push_between(text, b"<th scope='col'>", i as u64 + 1, b"</th>")
}

/// Appends the columns of these candidates.
#[tactic(auto, using(bs_bits::proofs::RangeLemmas::places_step))]
fn push_columns(text: &mut Vec<u8>, cands: &[Cand]) -> Result<(), NoMemory>
    ensures { OnOk result (text.new.items ≡ text.old.items ++ cand_columns cands.now) }
{
    'cands: for i in 0..cands.len() {
        push_column(text, i)?;
    }
    Ok(())
}

/// How many candidates of a list are not shown.
fn hidden_count(step: &Step) -> u64
    ensures { result ≡ length step.now.cands - MAX_SHOWN }
{
    step.cands.len().saturating_sub(MAX_SHOWN) as u64
}

/// Appends how many candidates there are, and how many are not shown.
fn push_list_front(text: &mut Vec<u8>, step: &Step) -> Result<(), NoMemory>
    ensures { OnOk result (text.new.items ≡ text.old.items ++ list_front step.now) }
{
    push_piece(text, b"<p class='d'>Candidates: ")?;
    push_count(text, step)?;
    push_between(
        text,
        b", not shown: ",
        hidden_count(step),
        b". Each is a state that may stand before the first one of the trace. Shown are flip-flops at which candidates differ.</p>\n<div tabindex='0' role='region' aria-labelledby='l'><table class='t n'><thead><tr><th scope='col'>flip-flop</th>",
    )
}

/// Appends a list that has candidates.
fn push_filled(
    text: &mut Vec<u8>,
    signed: &Bits,
    step: &Step,
    flops: &[Signal<'_>],
) -> Result<(), NoMemory>
    requires { All (λ s. length s.places < 2 ^ 32) flops.now }
    ensures { OnOk result (text.new.items ≡ text.old.items ++ filled_text signed.now step.now (map signal_in flops.now)) }
{
    let cands = shown_of(step);
    push_list_front(text, step)?;
    push_columns(text, cands)?;
    push_piece(text, b"</tr></thead><tbody>\n")?;
    push_rows(text, signed, cands, flops)?;
    push_piece(text, b"</tbody></table></div>\n")?;
    Ok(())
}

/// Appends a list.
fn push_table(
    text: &mut Vec<u8>,
    signed: &Bits,
    step: &Step,
    flops: &[Signal<'_>],
) -> Result<(), NoMemory>
    requires { All (λ s. length s.places < 2 ^ 32) flops.now }
    ensures { OnOk result (text.new.items ≡ text.old.items ++ table_text signed.now step.now (map signal_in flops.now)) }
{
    if step.cands.len() == 0 {
        push_piece(text, b"<p class='d'>It has no candidate.</p>\n")
    } else {
        push_filled(text, signed, step, flops)
    }
}

/// The text of a list.
#[tactic(auto, unfolding(crate::specs::Last::list_text))]
fn list_text(
    alloc: Global,
    signed: &Bits,
    step: &Step,
    flops: &[Signal<'_>],
) -> Result<Vec<u8>, NoMemory>
    requires { All (λ s. length s.places < 2 ^ 32) flops.now }
    ensures { IfOk result (λ text. text.items ≡ list_text signed.now step.now (map signal_in flops.now)) }
{
    let mut text = Vec::new(alloc);
    push_piece(&mut text, b"<h2 id='l'>The last list</h2>\n")?;
    push_table(&mut text, signed, step, flops)?;
    Ok(text)
}

/// The list of a step.
fn text_of(
    alloc: Global,
    net: &Netlist,
    asked: &PageOptions<'_>,
    signed: &Bits,
    step: &Step,
) -> Result<Vec<u8>, NoMemory>
    ensures { IfOk result (λ text. ShowsList net.now.raw (asked_in asked.now) signed.now step.now text.items) }
{
    match listed_flops(alloc, net, asked, step) {
        Ok(flops) => list_text(alloc, signed, step, flops.as_slice()),
        Err(refused) => Err(refused),
    }
}

/// The list of a step that may be there.
fn any_text(
    alloc: Global,
    net: &Netlist,
    asked: &PageOptions<'_>,
    signed: &Bits,
    step: Option<&Step>,
) -> Result<Vec<u8>, NoMemory>
    ensures { IfOk result (λ text. ShowsAny net.now.raw (asked_in asked.now) signed.now (option_map (λ s. s.now) step.entry) text.items) }
{
    match step {
        Some(step) => text_of(alloc, net, asked, signed, step),
        None => Ok(Vec::new(alloc)),
    }
}

/// The last list, if it has no hit; else nothing.
#[tactic(auto, using(crate::proofs::LastLemmas::last_there))]
pub(crate) fn last_text(
    alloc: Global,
    net: &Netlist,
    report: &Report,
    asked: &PageOptions<'_>,
    signed: &Bits,
) -> Result<Vec<u8>, NoMemory>
    ensures { IfOk result (λ text. ShowsLast net.now.raw report.now (asked_in asked.now) signed.now text.items) }
{
    any_text(alloc, net, asked, signed, unmet_list(report))
}
