//! The runs of a generated stimulus.
ghost use Rattle.std.specs.Prelude.{◌≡◌, ◌++◌, decimal, OnOk};
ghost use Rattle.bs_gen.specs.Draws.{after, pick};
ghost use Rattle.bs_gen.specs.Each.{each};
ghost use Rattle.bs_gen.specs.Stimulus.{bit_text, input_line, nth_input_line, run_text, stimulus_text};

use crate::draws::Draws;
use bs_bits::{NoMemory, end_line, push_line, push_number, push_piece};

/// Draws a bit and appends it.
fn push_bit(text: &mut Vec<u8>, draws: &mut Draws) -> Result<(), NoMemory>
    ensures text { OnOk result (text.new.items ≡ text.old.items ++ decimal (pick draws.old 2)) }
    ensures draws { draws.new ≡ after 1 draws.old }
{
    let bit = draws.pick(2);
    push_number(text, u64::from(bit))
}

/// Draws the bits of a cycle and appends them.
fn push_bits(text: &mut Vec<u8>, draws: &mut Draws) -> Result<(), NoMemory>
    ensures text { OnOk result (text.new.items ≡ text.old.items ++ each (bit_text draws.old) 0 5) }
    ensures draws { OnOk result (draws.new ≡ after 5 draws.old) }
{
    'bits: for _ in 0..5u32 {
        push_bit(text, draws)?;
    }
    Ok(())
}

/// Draws the input of a cycle and appends it.
fn push_input(text: &mut Vec<u8>, draws: &mut Draws) -> Result<(), NoMemory>
    ensures text { OnOk result (text.new.items ≡ text.old.items ++ input_line draws.old) }
    ensures draws { OnOk result (draws.new ≡ after 5 draws.old) }
{
    push_bits(text, draws)?;
    end_line(text)
}

/// Draws the inputs of a run and appends them.
fn push_inputs(text: &mut Vec<u8>, draws: &mut Draws) -> Result<(), NoMemory>
    ensures text { OnOk result (text.new.items ≡ text.old.items ++ each (nth_input_line draws.old) 0 256) }
    ensures draws { OnOk result (draws.new ≡ after 1280 draws.old) }
{
    'cycles: for _ in 0..256u32 {
        push_input(text, draws)?;
    }
    Ok(())
}

/// Draws a run and appends it.
fn push_run(text: &mut Vec<u8>, draws: &mut Draws, number: u32) -> Result<(), NoMemory>
    ensures text { OnOk result (text.new.items ≡ text.old.items ++ run_text draws.old number) }
    ensures draws { OnOk result (draws.new ≡ after 1280 draws.old) }
{
    push_piece(text, b"run run")?;
    push_number(text, u64::from(number))?;
    push_line(text, b" 256")?;
    push_inputs(text, draws)?;
    push_line(text, b"end")
}

/// Draws the runs and appends them.
#[tactic(auto, unfolding(crate::specs::Stimulus::stimulus_text))]
pub fn push_runs(text: &mut Vec<u8>, draws: &mut Draws) -> Result<(), NoMemory>
    ensures { OnOk result (text.new.items ≡ text.old.items ++ stimulus_text draws.old) }
{
    for i in 0..32 {
        push_run(text, draws, i + 1)?;
    }
    Ok(())
}
