//! The one text of a report.
ghost use Rattle.std.specs.Prelude.{◌≡◌, ◌+◌, ◌<◌, ◌≤◌, ◌^◌, ◌++◌, [], decimal, length, codes, OnOk, OnErr, Option};
ghost use Rattle.std.specs.List.{flat_map};
ghost use Rattle.bs_bits.specs.Lines.{line};
ghost use Rattle.bs_bits.specs.Text.{bits_text};
ghost use Rattle.bs_log.specs.LineText.{line_text};
ghost use Rattle.bs_report.specs.Text.{before_text, cand_text, end_word, hit_text, list_text, older_text, step_text, steps_text, stop_word, move_text};
ghost use Rattle.bs_report.specs.Text.{budgets_text, head_text, report_text, state_at, state_text, tail_text, title, trace_text};
ghost use Rattle.bs_scan.specs.SeenText.{seen_text};

use crate::report::{Before, Budgets, Cand, HitLine, ListEnd, Report, Step, Stop};
use bs_bits::{Bits, NoMemory, end_line, push_line, push_number, push_number_line, push_piece};
use bs_log::Line;
use bs_scan::push_seen_text;

/// Appends a line of a word and bits.
fn push_bits_line(text: &mut Vec<u8>, word: &[u8], bits: &Bits) -> Result<(), NoMemory>
    ensures { OnOk result (text.new.items ≡ text.old.items ++ line (word.now ++ bits_text bits.now)) }
{
    push_piece(text, word)?;
    bits.text(text)?;
    end_line(text)
}

/// Appends a line of a word and bits, of which some may not be known.
fn push_seen_line(text: &mut Vec<u8>, word: &[u8], bits: &Bits, free: &Bits) -> Result<(), NoMemory>
    ensures { OnOk result (text.new.items ≡ text.old.items ++ line (word.now ++ seen_text (record { bits = bits.now; free = free.now }))) }
{
    push_piece(text, word)?;
    push_seen_text(text, bits, free)?;
    end_line(text)
}

/// Appends the state before a candidate, if one is named.
fn push_before(text: &mut Vec<u8>, before: &Option<Before>) -> Result<(), NoMemory>
    ensures { OnOk result (text.new.items ≡ text.old.items ++ before_text before.now) }
{
    match before {
        None => Ok(()),
        Some(before) => {
            push_piece(text, b" from ")?;
            before.state.text(text)?;
            push_piece(text, b" input ")?;
            before.input.text(text)
        }
    }
}

/// Appends the line of a candidate.
fn push_cand(text: &mut Vec<u8>, cand: &Cand) -> Result<(), NoMemory>
    ensures { OnOk result (text.new.items ≡ text.old.items ++ cand_text cand.now) }
{
    push_piece(text, b"cand ")?;
    cand.state.text(text)?;
    push_piece(text, b" input ")?;
    cand.input.text(text)?;
    push_before(text, &cand.before)?;
    end_line(text)
}

/// Appends the lines of candidates.
fn push_cands(text: &mut Vec<u8>, cands: &[Cand]) -> Result<(), NoMemory>
    ensures { OnOk result (text.new.items ≡ text.old.items ++ flat_map cand_text cands.now) }
{
    for cand in cands {
        push_cand(text, cand)?;
    }
    Ok(())
}

/// Appends the line that says how a list ended.
fn push_end(text: &mut Vec<u8>, end: ListEnd) -> Result<(), NoMemory>
    ensures { OnOk result (text.new.items ≡ text.old.items ++ line (codes "list " ++ end_word end)) }
{
    match end {
        ListEnd::Finished(id) => push_number_line(text, b"list finished ", id),
        ListEnd::Candidates => push_line(text, b"list candidates"),
        ListEnd::Conflicts => push_line(text, b"list conflicts"),
    }
}

/// Appends the line of a hit.
fn push_hit_line(text: &mut Vec<u8>, hit: &HitLine) -> Result<(), NoMemory>
    ensures { OnOk result (text.new.items ≡ text.old.items ++ line (codes "hit " ++ (decimal hit.now.run ++ (codes " " ++ (decimal hit.now.cycle ++ (codes " " ++ bits_text hit.now.state)))))) }
{
    push_piece(text, b"hit ")?;
    push_number(text, u64::from(hit.run))?;
    push_piece(text, b" ")?;
    push_number(text, u64::from(hit.cycle))?;
    push_bits_line(text, b" ", &hit.state)
}

/// Appends the line of a hit, or that there is none.
fn push_hit(text: &mut Vec<u8>, hit: &Option<HitLine>) -> Result<(), NoMemory>
    ensures { OnOk result (text.new.items ≡ text.old.items ++ hit_text hit.now) }
{
    match hit {
        Some(hit) => push_hit_line(text, hit),
        None => push_line(text, b"nohit"),
    }
}

/// Appends the line of the older signature, which stands where the depth is not 1.
fn push_older(text: &mut Vec<u8>, depth: u8, older: &Option<Bits>) -> Result<(), NoMemory>
    ensures { OnOk result (text.new.items ≡ text.old.items ++ older_text depth older.now) }
{
    if depth == 1 {
        return Ok(());
    }
    match older {
        None => push_line(text, b"older none"),
        Some(bits) => push_bits_line(text, b"older ", bits),
    }
}

/// Appends the lines of a step's list.
fn push_list(text: &mut Vec<u8>, step: &Step) -> Result<(), NoMemory>
    ensures { OnOk result (text.new.items ≡ text.old.items ++ list_text step.now) }
{
    push_cands(text, step.cands.slice())?;
    push_end(text, step.end)?;
    push_hit(text, &step.hit)
}

/// Appends the lines of a step.
fn push_step(text: &mut Vec<u8>, depth: u8, number: u64, step: &Step) -> Result<(), NoMemory>
    ensures { OnOk result (text.new.items ≡ text.old.items ++ step_text depth number step.now) }
{
    push_number_line(text, b"step ", number)?;
    push_seen_line(text, b"present ", &step.present.bits, &step.present.free)?;
    push_bits_line(text, b"stored ", &step.stored)?;
    push_older(text, depth, &step.older)?;
    push_list(text, step)
}

/// Appends the lines of the steps.
fn push_steps(text: &mut Vec<u8>, depth: u8, steps: &[Step]) -> Result<(), NoMemory>
    ensures { OnOk result (text.new.items ≡ text.old.items ++ steps_text depth 1 steps.now) }
{
    for (i, step) in steps.iter().enumerate() {
        push_step(text, depth, i as u64 + 1, step)?;
    }
    Ok(())
}

/// Appends the line of the cause.
fn push_stop(text: &mut Vec<u8>, stop: Stop) -> Result<(), NoMemory>
    ensures { OnOk result (text.new.items ≡ text.old.items ++ line (codes "stop " ++ stop_word stop)) }
{
    match stop {
        Stop::Reset => push_line(text, b"stop reset"),
        Stop::Length => push_line(text, b"stop length"),
        Stop::Nohit => push_line(text, b"stop nohit"),
        Stop::Empty => push_line(text, b"stop empty"),
        Stop::Candidates => push_line(text, b"stop candidates"),
        Stop::Conflicts => push_line(text, b"stop conflicts"),
    }
}

/// Appends a state of the trace.
#[tactic(auto, using(std::proofs::lemmas::List::get_or_read, crate::proofs::TraceLemmas::last_state, crate::proofs::TraceLemmas::earlier_state))]
fn push_state(text: &mut Vec<u8>, report: &Report, i: usize) -> Result<(), NoMemory>
    requires { i < length report.now.states }
    ensures { OnOk result (text.new.items ≡ text.old.items ++ state_text (state_at report.now i)) }
{
    let state = report.states.get(i);
    if i == report.inputs.len() {
        push_seen_line(text, b"state ", state, &report.free)
    } else {
        push_bits_line(text, b"state ", state)
    }
}

/// Appends an input of the trace, and the state behind it.
#[tactic(auto, using(std::proofs::lemmas::List::get_or_read))]
fn push_move(text: &mut Vec<u8>, report: &Report, i: usize) -> Result<(), NoMemory>
    requires small { i + 1 < 2 ^ 64 }
    requires state { i + 1 < length report.now.states }
    requires input { i < length report.now.inputs }
    ensures { OnOk result (text.new.items ≡ text.old.items ++ move_text report.now i) }
{
    push_bits_line(text, b"input ", report.inputs.get(i))?;
    push_state(text, report, i + 1)
}

/// Appends the lines of the trace.
fn push_trace(text: &mut Vec<u8>, report: &Report) -> Result<(), NoMemory>
    requires { length report.now.states ≡ length report.now.inputs + 1 }
    ensures { OnOk result (text.new.items ≡ text.old.items ++ trace_text report.now) }
{
    push_number_line(text, b"trace ", report.inputs.len() as u64)?;
    push_state(text, report, 0)?;
    for i in 0..report.inputs.len() {
        push_move(text, report, i)?;
    }
    Ok(())
}

/// Appends lines of the log.
fn push_log(text: &mut Vec<u8>, lines: &[Line]) -> Result<(), NoMemory>
    ensures { OnOk result (text.new.items ≡ text.old.items ++ flat_map (λ log_line. line (line_text log_line)) lines.now) }
{
    for log_line in lines {
        log_line.text(text)?;
        end_line(text)?;
    }
    Ok(())
}

/// Appends the line of the budgets.
fn push_budgets(text: &mut Vec<u8>, budgets: &Budgets) -> Result<(), NoMemory>
    ensures { OnOk result (text.new.items ≡ text.old.items ++ budgets_text budgets.now) }
{
    push_piece(text, b"asked ")?;
    push_number(text, budgets.steps)?;
    push_piece(text, b" candidates ")?;
    push_number(text, budgets.candidates)?;
    push_number_line(text, b" conflicts ", budgets.conflicts)
}

/// Appends the first line.
fn push_title(text: &mut Vec<u8>, depth: u8) -> Result<(), NoMemory>
    ensures { OnOk result (text.new.items ≡ text.old.items ++ line (title depth)) }
{
    if depth == 1 {
        push_line(text, b"backspace 1")
    } else {
        push_line(text, b"backspace 2")
    }
}

/// Appends the lines up to the cause.
#[tactic(auto, unfolding(crate::specs::Text::head_text))]
fn push_head(text: &mut Vec<u8>, report: &Report) -> Result<(), NoMemory>
    ensures { OnOk result (text.new.items ≡ text.old.items ++ head_text report.now) }
{
    push_title(text, report.depth)?;
    push_budgets(text, &report.budgets)?;
    push_steps(text, report.depth, report.steps.slice())?;
    push_stop(text, report.stop)
}

/// Appends the lines from the trace on.
#[tactic(auto, unfolding(crate::specs::Text::tail_text))]
fn push_tail(text: &mut Vec<u8>, report: &Report) -> Result<(), NoMemory>
    requires { length report.now.states ≡ length report.now.inputs + 1 }
    ensures { OnOk result (text.new.items ≡ text.old.items ++ tail_text report.now) }
{
    push_trace(text, report)?;
    push_number_line(text, b"log ", report.log.len() as u64)?;
    push_log(text, report.log.slice())?;
    push_line(text, b"end")
}

/// Appends the whole text.
fn push_report(text: &mut Vec<u8>, report: &Report) -> Result<(), NoMemory>
    requires { length report.now.states ≡ length report.now.inputs + 1 }
    ensures { OnOk result (text.new.items ≡ text.old.items ++ report_text report.now) }
{
    push_head(text, report)?;
    push_tail(text, report)
}

/// Writes the whole text in place, where nothing stands before it. The text is empty again where memory runs out.
fn begin_report(text: &mut Vec<u8>, report: &Report) -> Result<(), NoMemory>
    requires empty { text.old.items ≡ [] }
    requires states { length report.now.states ≡ length report.now.inputs + 1 }
    ensures ok { OnOk result (text.new.items ≡ report_text report.now) }
    ensures err { OnErr result (text.new.items ≡ []) }
{
    let whole = push_report(text, report);
    if whole.is_err() {
        text.clear();
    }
    whole
}

/// Appends the whole text behind what stands there.
fn append_report(text: &mut Vec<u8>, report: &Report) -> Result<(), NoMemory>
    requires { length report.now.states ≡ length report.now.inputs + 1 }
    ensures ok { OnOk result (text.new.items ≡ text.old.items ++ report_text report.now) }
    ensures err { OnErr result (text.new.items ≡ text.old.items) }
{
    let mut whole = Vec::new(*text.allocator());
    push_report(&mut whole, report)?;
    push_piece(text, whole.as_slice())
}

impl Report {
    /// Appends the text of the report: there is one state more than inputs.
    pub fn text(&self, into: &mut Vec<u8>) -> Result<(), NoMemory>
        requires { length self.now.states ≡ length self.now.inputs + 1 }
        ensures ok { OnOk result (into.new.items ≡ into.old.items ++ report_text self.now) }
        ensures err { OnErr result (into.new.items ≡ into.old.items) }
    {
        if into.is_empty() {
            begin_report(into, self)
        } else {
            append_report(into, self)
        }
    }
}
