//! The names of a job's nets.
ghost use Rattle.std.specs.Prelude.{◌≡◌, ◌++◌, OnOk};
ghost use Rattle.bs_gen.specs.Names.{counter_bit, drawn_net, member, stage};

use bs_bits::{NoMemory, push_number, push_piece};

/// Appends the name of a stage of a shift register.
pub fn push_stage(text: &mut Vec<u8>, register: u32, i: u32) -> Result<(), NoMemory>
    ensures { OnOk result (text.new.items ≡ text.old.items ++ stage register i) }
{
    push_piece(text, b"r")?;
    push_number(text, u64::from(register))?;
    push_piece(text, b"_")?;
    push_number(text, u64::from(i))
}

/// Appends the name of a bit of the counter.
pub fn push_counter_bit(text: &mut Vec<u8>, i: u32) -> Result<(), NoMemory>
    ensures { OnOk result (text.new.items ≡ text.old.items ++ counter_bit i) }
{
    push_piece(text, b"c")?;
    push_number(text, u64::from(i))
}

/// Appends the name of the net that a drawn gate drives.
pub fn push_drawn_net(text: &mut Vec<u8>, j: u32) -> Result<(), NoMemory>
    ensures { OnOk result (text.new.items ≡ text.old.items ++ drawn_net j) }
{
    push_piece(text, b"w")?;
    push_number(text, u64::from(j))
}

/// Appends the name of the pool's member with a number.
#[tactic(auto, unfolding(crate::specs::Names::member))]
pub fn push_member(text: &mut Vec<u8>, n: u32) -> Result<(), NoMemory>
    ensures { OnOk result (text.new.items ≡ text.old.items ++ member n) }
{
    if n < 50 {
        push_stage(text, n / 10, n % 10)
    } else if n < 59 {
        push_counter_bit(text, n - 50)
    } else {
        push_drawn_net(text, n - 59)
    }
}
