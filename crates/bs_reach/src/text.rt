//! The one text of an answer.
ghost use Rattle.std.specs.Prelude.{◌≡◌, ◌+◌, ◌<◌, ◌^◌, ◌++◌, [], length, codes, decimal, OnOk, OnErr};
ghost use Rattle.std.specs.List.{flat_map};
ghost use Rattle.bs_bits.specs.Lines.{line};
ghost use Rattle.bs_bits.specs.Text.{bits_text};
ghost use Rattle.bs_log.specs.LineText.{line_text};
ghost use Rattle.bs_reach.specs.Text.{HasStates, asked_text, outcome_text, cycle_text, execution_text, states_text};
ghost use Rattle.bs_reach.specs.Text.{head_text, log_text, reach_text};

use crate::reach::{Outcome, Reach};
use bs_bits::{Bits, NoMemory, end_line, push_line, push_number, push_number_line, push_piece};
use bs_log::Line;

/// Appends a line of a word and bits.
fn push_bits(text: &mut Vec<u8>, word: &[u8], bits: &Bits) -> Result<(), NoMemory>
    ensures { OnOk result (text.new.items ≡ text.old.items ++ line (word.now ++ bits_text bits.now)) }
{
    push_piece(text, word)?;
    bits.text(text)?;
    end_line(text)
}

/// Appends the line of what was asked for.
fn push_asked(text: &mut Vec<u8>, asked: u64, conflicts: u64) -> Result<(), NoMemory>
    ensures { OnOk result (text.new.items ≡ text.old.items ++ asked_text asked conflicts) }
{
    push_piece(text, b"asked ")?;
    push_number(text, asked)?;
    push_number_line(text, b" conflicts ", conflicts)
}

/// Appends the line of the outcome.
fn push_outcome(text: &mut Vec<u8>, outcome: Outcome) -> Result<(), NoMemory>
    ensures { OnOk result (text.new.items ≡ text.old.items ++ outcome_text outcome) }
{
    match outcome {
        Outcome::Reached(j) => push_number_line(text, b"result reached ", j),
        Outcome::Unreached => push_line(text, b"result unreached"),
        Outcome::Unknown(j) => push_number_line(text, b"result unknown ", j),
    }
}

/// Appends the input of a cycle, and the state behind it.
#[tactic(auto, using(std::proofs::lemmas::List::get_or_read))]
fn push_cycle(text: &mut Vec<u8>, reach: &Reach, i: usize) -> Result<(), NoMemory>
    requires small { i + 1 < 2 ^ 64 }
    requires state { i + 1 < length reach.now.states }
    requires input { i < length reach.now.inputs }
    ensures { OnOk result (text.new.items ≡ text.old.items ++ cycle_text reach.now i) }
{
    push_bits(text, b"input ", reach.inputs.get(i))?;
    push_bits(text, b"state ", reach.states.get(i + 1))
}

/// Appends the states with the inputs between.
fn push_states(text: &mut Vec<u8>, reach: &Reach) -> Result<(), NoMemory>
    requires { length reach.now.states ≡ length reach.now.inputs + 1 }
    ensures { OnOk result (text.new.items ≡ text.old.items ++ states_text reach.now) }
{
    push_bits(text, b"state ", reach.states.get(0))?;
    'cycles: for i in 0..reach.inputs.len() {
        push_cycle(text, reach, i)?;
    }
    Ok(())
}

/// Appends the execution, where there is one.
fn push_execution(text: &mut Vec<u8>, reach: &Reach) -> Result<(), NoMemory>
    requires { HasStates reach.now.outcome reach.now }
    ensures { OnOk result (text.new.items ≡ text.old.items ++ execution_text reach.now.outcome reach.now) }
{
    match reach.outcome {
        Outcome::Reached(_) => push_states(text, reach),
        Outcome::Unreached => Ok(()),
        Outcome::Unknown(_) => Ok(()),
    }
}

/// Appends lines of the log.
fn push_lines(text: &mut Vec<u8>, lines: &[Line]) -> Result<(), NoMemory>
    ensures { OnOk result (text.new.items ≡ text.old.items ++ flat_map (λ log_line. line (line_text log_line)) lines.now) }
{
    'lines: for log_line in lines {
        log_line.text(text)?;
        end_line(text)?;
    }
    Ok(())
}

/// Appends the lines up to the outcome.
#[tactic(auto, unfolding(crate::specs::Text::head_text))]
fn push_head(text: &mut Vec<u8>, reach: &Reach) -> Result<(), NoMemory>
    ensures { OnOk result (text.new.items ≡ text.old.items ++ head_text reach.now) }
{
    push_line(text, b"reach 1")?;
    push_asked(text, reach.asked, reach.conflicts)?;
    push_outcome(text, reach.outcome)
}

/// Appends the lines from the log on.
#[tactic(auto, unfolding(crate::specs::Text::log_text))]
fn push_log(text: &mut Vec<u8>, reach: &Reach) -> Result<(), NoMemory>
    ensures { OnOk result (text.new.items ≡ text.old.items ++ log_text reach.now) }
{
    push_number_line(text, b"log ", reach.log.len() as u64)?;
    push_lines(text, reach.log.slice())?;
    push_line(text, b"end")
}

/// Appends the whole text.
fn push_reach(text: &mut Vec<u8>, reach: &Reach) -> Result<(), NoMemory>
    requires { HasStates reach.now.outcome reach.now }
    ensures { OnOk result (text.new.items ≡ text.old.items ++ reach_text reach.now) }
{
    push_head(text, reach)?;
    push_execution(text, reach)?;
    push_log(text, reach)
}

/// Writes the whole text in place, where nothing stands before it. The text is empty again where memory runs out.
fn begin_reach(text: &mut Vec<u8>, reach: &Reach) -> Result<(), NoMemory>
    requires empty { text.old.items ≡ [] }
    requires states { HasStates reach.now.outcome reach.now }
    ensures ok { OnOk result (text.new.items ≡ reach_text reach.now) }
    ensures err { OnErr result (text.new.items ≡ []) }
{
    let whole = push_reach(text, reach);
    if whole.is_err() {
        text.clear();
    }
    whole
}

/// Appends the whole text behind what stands there.
fn append_reach(text: &mut Vec<u8>, reach: &Reach) -> Result<(), NoMemory>
    requires { HasStates reach.now.outcome reach.now }
    ensures ok { OnOk result (text.new.items ≡ text.old.items ++ reach_text reach.now) }
    ensures err { OnErr result (text.new.items ≡ text.old.items) }
{
    let mut whole = Vec::new(*text.allocator());
    push_reach(&mut whole, reach)?;
    push_piece(text, whole.as_slice())
}

impl Reach {
    /// Appends the text of the answer (docs/FORMATS.md, "The answer of reach"). Where the state is reached there is one state
    /// more than inputs.
    pub fn text(&self, into: &mut Vec<u8>) -> Result<(), NoMemory>
        requires { HasStates self.now.outcome self.now }
        ensures ok { OnOk result (into.new.items ≡ into.old.items ++ reach_text self.now) }
        ensures err { OnErr result (into.new.items ≡ into.old.items) }
    {
        if into.is_empty() {
            begin_reach(into, self)
        } else {
            append_reach(into, self)
        }
    }
}
