//! The columns of the trace.
ghost use Rattle.std.specs.Prelude.{◌≡◌, ◌<◌, ◌+◌, ◌-◌, ◌^◌, ◌++◌, length, OnOk, option_map};
ghost use Rattle.std.specs.List.{flat_map, range_with_len};
ghost use Rattle.bs_inspect_page.specs.Columns.{column_text, columns_text, corner_text, count_text, far_column, found_column, listed_text, moment_text, more_word, origin_text};

use crate::execution::push_cycle_column;
use crate::opens::step_of;
use bs_bits::{NoMemory, push_number, push_piece};
use bs_inspect_html::push_before;
use bs_inspect_report::is_execution;
use bs_report::{HitLine, ListEnd, Report, Step};

/// Appends run and cycle.
pub(crate) fn push_moment(text: &mut Vec<u8>, hit: &Option<HitLine>) -> Result<(), NoMemory>
    ensures { OnOk result (text.new.items ≡ text.old.items ++ moment_text hit.now) }
{
    match hit {
        Some(hit) => {
            push_before(text, u64::from(hit.run), b":")?;
            push_number(text, u64::from(hit.cycle))
        }
        None => push_piece(text, b"none"),
    }
}

/// Appends a sign that a list may have more candidates.
fn push_more(text: &mut Vec<u8>, end: ListEnd) -> Result<(), NoMemory>
    ensures { OnOk result (text.new.items ≡ text.old.items ++ more_word end) }
{
    match end {
        ListEnd::Finished(_) => Ok(()),
        ListEnd::Candidates => push_piece(text, b"+"),
        ListEnd::Conflicts => push_piece(text, b"+"),
    }
}

/// Appends how many candidates a list has.
#[tactic(auto, unfolding(crate::specs::Columns::count_text))]
pub(crate) fn push_count(text: &mut Vec<u8>, step: &Step) -> Result<(), NoMemory>
    ensures { OnOk result (text.new.items ≡ text.old.items ++ count_text step.now) }
{
    push_number(text, step.cands.len() as u64)?;
    push_more(text, step.end)
}

/// Appends where a state was recorded, and how many candidates its list has.
#[tactic(auto, unfolding(crate::specs::Columns::listed_text))]
fn push_listed(text: &mut Vec<u8>, step: &Step) -> Result<(), NoMemory>
    ensures { OnOk result (text.new.items ≡ text.old.items ++ listed_text step.now) }
{
    push_piece(text, b"<span class='r'>")?;
    push_moment(text, &step.hit)?;
    push_piece(text, b"</span><span>")?;
    push_count(text, step)?;
    push_piece(text, b"</span></th>")
}

/// Appends the same of a step, if there is one.
fn push_origin(text: &mut Vec<u8>, step: Option<&Step>) -> Result<(), NoMemory>
    ensures { OnOk result (text.new.items ≡ text.old.items ++ origin_text (option_map (λ s. s.now) step.entry)) }
{
    match step {
        Some(step) => push_listed(text, step),
        None => push_piece(text, b"</th>"),
    }
}

/// How many cycles a state stands before the dump.
fn distance(report: &Report, i: usize) -> u64
    requires there { i < length report.now.states }
    requires small { i + 1 < 2 ^ 64 }
    ensures { result ≡ length report.now.states - (i + 1) }
{
    (report.states.len() - (i + 1)) as u64
}

/// Appends the column of a state that is recorded.
fn push_far_column(text: &mut Vec<u8>, report: &Report, i: usize) -> Result<(), NoMemory>
    requires there { i < length report.now.states }
    requires small { i + 1 < 2 ^ 64 }
    ensures { OnOk result (text.new.items ≡ text.old.items ++ far_column report.now i) }
{
    push_piece(text, b"<th scope='col'>-")?;
    push_number(text, distance(report, i))?;
    push_origin(text, step_of(report, i))?;
    Ok(())
}

/// Appends the column of a state of a backtrace.
fn push_found_column(text: &mut Vec<u8>, report: &Report, i: usize) -> Result<(), NoMemory>
    requires there { i < length report.now.states }
    requires small { i + 1 < 2 ^ 64 }
    ensures { OnOk result (text.new.items ≡ text.old.items ++ found_column report.now i) }
{
    if i + 1 == report.states.len() {
        return push_piece(text, b"<th scope='col' class='x'>dump</th>");
    }
    push_far_column(text, report, i)
}

/// Appends the column of a state.
fn push_column(text: &mut Vec<u8>, report: &Report, i: usize) -> Result<(), NoMemory>
    requires there { i < length report.now.states }
    requires small { i + 1 < 2 ^ 64 }
    ensures { OnOk result (text.new.items ≡ text.old.items ++ column_text report.now i) }
{
    if is_execution(report) {
        push_cycle_column(text, report, i)
    } else {
        push_found_column(text, report, i)
    }
}

/// Appends what the columns say.
fn push_corner(text: &mut Vec<u8>, report: &Report) -> Result<(), NoMemory>
    ensures { OnOk result (text.new.items ≡ text.old.items ++ corner_text report.now) }
{
    if is_execution(report) {
        push_piece(text, b"<thead><tr><th scope='col'>cycle</th>")
    } else {
        push_piece(
            text,
            b"<thead><tr><th scope='col'>cycles before the dump<span>recorded as run:cycle</span><span>candidates of the list</span></th>",
        )
    }
}

/// Appends the columns of the states.
#[tactic(auto, using(bs_bits::proofs::RangeLemmas::places_step))]
fn push_all_columns(text: &mut Vec<u8>, report: &Report) -> Result<(), NoMemory>
    ensures { OnOk result (text.new.items ≡ text.old.items ++ flat_map (column_text report.now) (range_with_len 0 (length report.now.states))) }
{
    'states: for i in 0..report.states.len() {
        push_column(text, report, i)?;
    }
    Ok(())
}

/// Appends the head of the trace.
#[tactic(auto, unfolding(crate::specs::Columns::columns_text))]
pub(crate) fn push_columns(text: &mut Vec<u8>, report: &Report) -> Result<(), NoMemory>
    ensures { OnOk result (text.new.items ≡ text.old.items ++ columns_text report.now) }
{
    push_corner(text, report)?;
    push_all_columns(text, report)?;
    push_piece(text, b"</tr></thead>\n")
}
