//! The flip-flops of a generated netlist.
ghost use Rattle.std.specs.Prelude.{◌≡◌, ◌++◌, OnOk};
ghost use Rattle.bs_gen.specs.Each.{each};
ghost use Rattle.bs_gen.specs.Flops.{counter_flop, data_net, flops_text, register_flops, stage_flop};

use crate::names::push_stage;
use bs_bits::{NoMemory, push_line, push_number, push_piece};

/// Appends the flip-flop of a bit of the counter.
fn push_counter_flop(text: &mut Vec<u8>, bit: u32) -> Result<(), NoMemory>
    ensures { OnOk result (text.new.items ≡ text.old.items ++ counter_flop bit) }
{
    let number = u64::from(bit);
    push_piece(text, b"dff fc")?;
    push_number(text, number)?;
    push_piece(text, b"(ck,c")?;
    push_number(text, number)?;
    push_piece(text, b",dc")?;
    push_number(text, number)?;
    push_line(text, b");")
}

/// Appends the flip-flops of the counter.
fn push_counter_flops(text: &mut Vec<u8>) -> Result<(), NoMemory>
    ensures { OnOk result (text.new.items ≡ text.old.items ++ each counter_flop 0 9) }
{
    for bit in 0..9 {
        push_counter_flop(text, bit)?;
    }
    Ok(())
}

/// Appends the name of the net that a stage of a register takes over.
fn push_data_net(text: &mut Vec<u8>, register: u32, i: u32) -> Result<(), NoMemory>
    ensures { OnOk result (text.new.items ≡ text.old.items ++ data_net register i) }
{
    if i == 0 {
        push_piece(text, b"e")?;
        push_number(text, u64::from(register))
    } else {
        push_stage(text, register, i - 1)
    }
}

/// Appends the flip-flop of a stage of a register.
fn push_stage_flop(text: &mut Vec<u8>, register: u32, i: u32) -> Result<(), NoMemory>
    ensures { OnOk result (text.new.items ≡ text.old.items ++ stage_flop register i) }
{
    push_piece(text, b"dff f")?;
    push_stage(text, register, i)?;
    push_piece(text, b"(ck,")?;
    push_stage(text, register, i)?;
    push_piece(text, b",")?;
    push_data_net(text, register, i)?;
    push_line(text, b");")
}

/// Appends the flip-flops of a register.
fn push_register(text: &mut Vec<u8>, register: u32) -> Result<(), NoMemory>
    ensures { OnOk result (text.new.items ≡ text.old.items ++ register_flops register) }
{
    for i in 0..11 {
        push_stage_flop(text, register, i)?;
    }
    Ok(())
}

/// Appends the flip-flops of the registers.
fn push_registers(text: &mut Vec<u8>) -> Result<(), NoMemory>
    ensures { OnOk result (text.new.items ≡ text.old.items ++ each register_flops 0 5) }
{
    for register in 0..5 {
        push_register(text, register)?;
    }
    Ok(())
}

/// Appends all flip-flops.
#[tactic(auto, unfolding(crate::specs::Flops::flops_text))]
pub fn push_flops(text: &mut Vec<u8>) -> Result<(), NoMemory>
    ensures { OnOk result (text.new.items ≡ text.old.items ++ flops_text) }
{
    push_counter_flops(text)?;
    push_registers(text)
}
