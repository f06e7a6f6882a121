//! The gates of a generated netlist: the counter, the drawn gates and the feeds of the shift registers.
ghost use Rattle.std.specs.Prelude.{◌≡◌, ◌<◌, ◌++◌, OnOk};
ghost use Rattle.bs_gen.specs.Draws.{after};
ghost use Rattle.bs_gen.specs.Each.{each};
ghost use Rattle.bs_gen.specs.Gates.{bit_lines, carry_line, carry_terminal, counter_text, drawn_line, drawn_text, exchange_line, feed_line};
ghost use Rattle.bs_gen.specs.Gates.{feed_terminals, feeds_text, gate_line, kind_word, terminal};

use crate::draws::Draws;
use crate::names::{push_counter_bit, push_drawn_net, push_member, push_stage};
use bs_bits::{NoMemory, push_line, push_number, push_piece};

/// Appends a counter bit as a further terminal.
fn push_carry_terminal(text: &mut Vec<u8>, bit: u32) -> Result<(), NoMemory>
    ensures { OnOk result (text.new.items ≡ text.old.items ++ carry_terminal bit) }
{
    push_piece(text, b",")?;
    push_counter_bit(text, bit)
}

/// Appends the counter bits below one, each as a further terminal.
fn push_carry_terminals(text: &mut Vec<u8>, bits: u32) -> Result<(), NoMemory>
    ensures { OnOk result (text.new.items ≡ text.old.items ++ each carry_terminal 0 bits) }
{
    for i in 0..bits {
        push_carry_terminal(text, i)?;
    }
    Ok(())
}

/// Appends the gate that tells whether a bit is carried into.
fn push_carry(text: &mut Vec<u8>, bit: u32) -> Result<(), NoMemory>
    ensures { OnOk result (text.new.items ≡ text.old.items ++ carry_line bit) }
{
    push_piece(text, b"and (t")?;
    push_number(text, u64::from(bit))?;
    push_carry_terminals(text, bit)?;
    push_line(text, b");")
}

/// Appends the gate that exchanges a bit.
fn push_exchange(text: &mut Vec<u8>, bit: u32) -> Result<(), NoMemory>
    ensures { OnOk result (text.new.items ≡ text.old.items ++ exchange_line bit) }
{
    let number = u64::from(bit);
    push_piece(text, b"xor (dc")?;
    push_number(text, number)?;
    push_piece(text, b",c")?;
    push_number(text, number)?;
    push_piece(text, b",t")?;
    push_number(text, number)?;
    push_line(text, b");")
}

/// Appends the gates of a bit from the third on.
fn push_bit(text: &mut Vec<u8>, bit: u32) -> Result<(), NoMemory>
    ensures { OnOk result (text.new.items ≡ text.old.items ++ bit_lines bit) }
{
    push_carry(text, bit)?;
    push_exchange(text, bit)
}

/// Appends the gates of the bits from the third on.
fn push_bits(text: &mut Vec<u8>) -> Result<(), NoMemory>
    ensures { OnOk result (text.new.items ≡ text.old.items ++ each bit_lines 2 7) }
{
    for bit in 2..9 {
        push_bit(text, bit)?;
    }
    Ok(())
}

/// Appends the gates of the counter.
#[tactic(auto, unfolding(crate::specs::Gates::counter_text))]
pub fn push_counter(text: &mut Vec<u8>) -> Result<(), NoMemory>
    ensures { OnOk result (text.new.items ≡ text.old.items ++ counter_text) }
{
    push_line(text, b"not (dc0,c0);")?;
    push_line(text, b"xor (dc1,c1,c0);")?;
    push_bits(text)
}

/// The word of a kind, numbered from 0.
#[tactic(auto, unfolding(crate::specs::Gates::kind_word))]
fn kind_word(kind: u32) -> &'static [u8]
    requires { kind < 6 }
    ensures { result.now ≡ kind_word kind }
{
    match kind {
        0 => b"and",
        1 => b"nand",
        2 => b"or",
        3 => b"nor",
        4 => b"xor",
        _ => b"xnor",
    }
}

/// Appends a member of the pool as a terminal.
fn push_terminal(text: &mut Vec<u8>, member: u32) -> Result<(), NoMemory>
    ensures { OnOk result (text.new.items ≡ text.old.items ++ terminal member) }
{
    push_piece(text, b",")?;
    push_member(text, member)
}

/// Appends a gate that drives a drawn net.
fn push_gate(text: &mut Vec<u8>, j: u32, kind: u32, first: u32, second: u32) -> Result<(), NoMemory>
    requires { kind < 6 }
    ensures { OnOk result (text.new.items ≡ text.old.items ++ gate_line j kind first second) }
{
    push_piece(text, kind_word(kind))?;
    push_piece(text, b" (")?;
    push_drawn_net(text, j)?;
    push_terminal(text, first)?;
    push_terminal(text, second)?;
    push_line(text, b");")
}

/// Draws a gate and appends it.
fn push_drawn_gate(text: &mut Vec<u8>, draws: &mut Draws, j: u32) -> Result<(), NoMemory>
    requires { j < 579 }
    ensures text { OnOk result (text.new.items ≡ text.old.items ++ drawn_line draws.old j) }
    ensures draws { draws.new ≡ after 3 draws.old }
{
    let members = 59 + j;
    let kind = draws.pick(6);
    let first = draws.pick(members);
    let second = draws.pick(members);
    push_gate(text, j, kind, first, second)
}

/// Draws the gates and appends them.
#[tactic(auto, unfolding(crate::specs::Gates::drawn_text))]
pub fn push_drawn_gates(text: &mut Vec<u8>, draws: &mut Draws) -> Result<(), NoMemory>
    ensures text { OnOk result (text.new.items ≡ text.old.items ++ drawn_text draws.old) }
    ensures draws { OnOk result (draws.new ≡ after 1737 draws.old) }
{
    for j in 0..579 {
        push_drawn_gate(text, draws, j)?;
    }
    Ok(())
}

/// Appends the nets that a shift register is fed from.
fn push_feed_terminals(text: &mut Vec<u8>, register: u32) -> Result<(), NoMemory>
    requires { register < 5 }
    ensures { OnOk result (text.new.items ≡ text.old.items ++ feed_terminals register) }
{
    push_stage(text, register, 10)?;
    push_piece(text, b",")?;
    push_drawn_net(text, 574 + register)?;
    push_piece(text, b",x")?;
    push_number(text, u64::from(register))
}

/// Appends the gate that feeds a shift register.
fn push_feed(text: &mut Vec<u8>, register: u32) -> Result<(), NoMemory>
    requires { register < 5 }
    ensures { OnOk result (text.new.items ≡ text.old.items ++ feed_line register) }
{
    push_piece(text, b"xor (e")?;
    push_number(text, u64::from(register))?;
    push_piece(text, b",")?;
    push_feed_terminals(text, register)?;
    push_line(text, b");")
}

/// Appends the gates that feed the shift registers.
#[tactic(auto, unfolding(crate::specs::Gates::feeds_text))]
pub fn push_feeds(text: &mut Vec<u8>) -> Result<(), NoMemory>
    ensures { OnOk result (text.new.items ≡ text.old.items ++ feeds_text) }
{
    for register in 0..5 {
        push_feed(text, register)?;
    }
    Ok(())
}
