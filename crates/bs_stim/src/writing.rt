//! The text of a stimulus, written run by run.
ghost use Rattle.std.specs.Prelude.{◌≡◌, ◌<◌, [], ◌∷◌, ◌++◌, codes, length, slice_index_or, OnOk, OnErr};
ghost use Rattle.std.specs.List.{flat_map};
ghost use Rattle.bs_bits.specs.Lines.{line};
ghost use Rattle.bs_bits.specs.Text.{bits_text, digit_of};
ghost use Rattle.bs_stim.specs.Appending.{Begins};
ghost use Rattle.bs_stim.specs.StimulusText.{head_text, inputs_text, run_text, stimulus_text};

use crate::inputs::Inputs;
use crate::runs::{Run, Runs};
use bs_bits::{NoMemory, end_line, push_number, push_piece};

/// Appends the first line of a run.
fn push_head(run: &Run, into: &mut Vec<u8>) -> Result<(), NoMemory>
    ensures ok { OnOk result (into.new.items ≡ into.old.items ++ line (head_text run.now)) }
    ensures err { OnErr result (Begins into.old.items into.new.items) }
{
    push_piece(into, b"run ")?;
    push_piece(into, run.name().as_bytes())?;
    push_piece(into, b" ")?;
    push_number(into, u64::from(run.cycles()))?;
    end_line(into)
}

/// Appends the character of a bit.
fn push_bit(bit: bool, into: &mut Vec<u8>) -> Result<(), NoMemory>
    ensures ok { OnOk result (into.new.items ≡ into.old.items ++ digit_of bit ∷ []) }
    ensures err { OnErr result (into.new.items ≡ into.old.items) }
{
    push_piece(into, if bit { b"1" } else { b"0" })
}

/// Appends the text of an input.
#[tactic(auto, using(crate::proofs::WritingLemmas::begins_after, crate::proofs::WritingLemmas::empty_row, crate::proofs::WritingLemmas::one_more_digit, crate::proofs::WritingLemmas::whole_row))]
fn push_bits(inputs: &Inputs, cycle: usize, into: &mut Vec<u8>) -> Result<(), NoMemory>
    requires { cycle < length inputs.now.rows }
    ensures ok { OnOk result (into.new.items ≡ into.old.items ++ bits_text (slice_index_or inputs.now.rows cycle [])) }
    ensures err { OnErr result (Begins into.old.items into.new.items) }
{
    if inputs.width() == 0 {
        return push_piece(into, b".");
    }
    'places: for place in 0..inputs.width() {
        push_bit(inputs.bit(cycle, place), into)?;
    }
    Ok(())
}

/// Appends an input line.
#[tactic(auto, using(crate::proofs::WritingLemmas::begins_after))]
fn push_input(inputs: &Inputs, cycle: usize, into: &mut Vec<u8>) -> Result<(), NoMemory>
    requires { cycle < length inputs.now.rows }
    ensures ok { OnOk result (into.new.items ≡ into.old.items ++ line (bits_text (slice_index_or inputs.now.rows cycle []))) }
    ensures err { OnErr result (Begins into.old.items into.new.items) }
{
    push_bits(inputs, cycle, into)?;
    end_line(into)
}

/// Appends the input lines of a run.
#[tactic(auto, using(crate::proofs::WritingLemmas::begins_after))]
fn push_inputs(inputs: &Inputs, into: &mut Vec<u8>) -> Result<(), NoMemory>
    ensures ok { OnOk result (into.new.items ≡ into.old.items ++ inputs_text inputs.now.rows) }
    ensures err { OnErr result (Begins into.old.items into.new.items) }
{
    'cycles: for cycle in 0..inputs.len() {
        push_input(inputs, cycle, into)?;
    }
    Ok(())
}

/// Appends the last line of a run.
fn push_end(into: &mut Vec<u8>) -> Result<(), NoMemory>
    ensures ok { OnOk result (into.new.items ≡ into.old.items ++ line (codes "end")) }
    ensures err { OnErr result (Begins into.old.items into.new.items) }
{
    push_piece(into, b"end")?;
    end_line(into)
}

/// Appends a run.
fn push_run(run: &Run, into: &mut Vec<u8>) -> Result<(), NoMemory>
    ensures ok { OnOk result (into.new.items ≡ into.old.items ++ run_text run.now) }
    ensures err { OnErr result (Begins into.old.items into.new.items) }
{
    push_head(run, into)?;
    push_inputs(&run.inputs, into)?;
    push_end(into)
}

/// Appends runs.
#[tactic(auto, using(crate::proofs::WritingLemmas::begins_after))]
fn push_runs(runs: &[Run], into: &mut Vec<u8>) -> Result<(), NoMemory>
    ensures ok { OnOk result (into.new.items ≡ into.old.items ++ flat_map run_text runs.now) }
    ensures err { OnErr result (Begins into.old.items into.new.items) }
{
    'runs: for run in runs {
        push_run(run, into)?;
    }
    Ok(())
}

/// Appends the one text of the runs (docs/FORMATS.md, "Stimulus").
pub fn write(runs: &Runs, into: &mut Vec<u8>) -> Result<(), NoMemory>
    ensures ok { OnOk result (into.new.items ≡ into.old.items ++ stimulus_text runs.now) }
    ensures err { OnErr result (into.new.items ≡ into.old.items) }
{
    let mark = into.len();
    match push_runs(runs.all(), into) {
        Ok(()) => Ok(()),
        Err(refused) => {
            into.truncate(mark);
            Err(refused)
        }
    }
}
